//! The endings of a job's workers.
ghost use Rattle.std.specs.Prelude.{◌≡◌, max};

use crate::faults::Fault;
use crate::job::Job;
use tool_streams::faults::StreamFault;

/// The ending of a worker, or the worst one of several. The variants are ordered from good to bad.
#[derive(Clone, Copy, Drop, Debug, PartialEq, Eq)]
pub enum Ending {
    /// Each call was made, and each look-up found its value.
    Well,
    /// A look-up missed its value.
    Missed,
    /// The gate refused a worker, which then made no more calls.
    Stuck,
    /// Memory was refused to a worker, which then made no more calls.
    Refused,
}

impl Ending {
    ghost use Rattle.tool_commands.specs.Stress.{badness, fault_of};

    /// Returns the worse of two endings.
    pub fn and(self, other: Ending) -> Ending
        ensures { badness result ≡ max (badness self) (badness other) }
    {
        match (self, other) {
            (Ending::Refused, _) | (_, Ending::Refused) => Ending::Refused,
            (Ending::Stuck, _) | (_, Ending::Stuck) => Ending::Stuck,
            (Ending::Missed, _) | (_, Ending::Missed) => Ending::Missed,
            (Ending::Well, Ending::Well) => Ending::Well,
        }
    }

    /// Returns the fault of a job whose workers have this ending.
    pub fn fault(self, job: Job) -> Option<Fault>
        ensures { result ≡ fault_of self job.kind job.number }
    {
        match self {
            Ending::Well => None,
            Ending::Missed => Some(Fault::JobFailed {
                kind: job.kind,
                job: job.number,
            }),
            Ending::Stuck => Some(Fault::GateStuck),
            Ending::Refused => Some(Fault::Stream(StreamFault::NoMemory)),
        }
    }
}
