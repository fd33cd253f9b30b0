//! Faults: the reasons for which a replay ends early.
use crate::item::Said;

/// The reason for which a replay ends early.
#[derive(Clone, Copy, Debug)]
pub enum ReplayFault {
    /// A request of the replay itself for memory was refused.
    NoMemory,
    /// The replies of the table and of the machine to this call differ. `None` means that the call hasn't ended.
    Reply {
        call: u64,
        table: Option<Said>,
        machine: Option<Said>,
    },
    /// The states of this call in the table and in the machine differ: it is in another phase or at another bucket, or only one of them
    /// blocks it.
    State(u64),
    /// This call didn't take the step that the schedule names.
    Step(u64),
    /// This whole call called its closures with other entries than in the rehearsal, or more or less often. Or it had another reply.
    Asked(u64),
    /// A call didn't end within the steps that it has, calls are left that can't begin, growths copied fewer entries than were rehearsed, or a
    /// request that was to be held wasn't made.
    Unfinished,
    /// The lengths of the table and of the machine differ.
    Length,
    /// The walks of the table and of the machine differ, or the one of the machine doesn't end.
    Walk,
    /// The table and the machine have different numbers of buckets.
    Buckets,
    /// The table has another length, other buckets or other entries than were rehearsed for this moment.
    Sight,
    /// A thread that had to wait for another one went on without it, or the moment of a plan never came.
    Alone,
}

/// Returns the result of a request for memory that no call on the table makes. `Err`: it was refused.
pub fn granted<T, E: Drop>(asked: Result<T, E>) -> Result<T, ReplayFault> {
    match asked {
        Ok(there) => Ok(there),
        Err(_refused) => Err(ReplayFault::NoMemory),
    }
}

/// Checks that this holds. `Err`: this fault, since it doesn't.
pub(crate) fn check(holds: bool, fault: ReplayFault) -> Result<(), ReplayFault> {
    if holds { Ok(()) } else { Err(fault) }
}
