//! The states of a call, and what its events find.
ghost use Rattle.std.specs.Prelude.{◌≡◌};
ghost use Rattle.table_core.specs.Calls.{starting, insert_start, lookup_start, length_start, walk_start};

/// The phase of a call. It determines which events the call can take.
#[derive(Clone, Copy, Debug, PartialEq, Eq)]
pub enum Phase {
    /// The insert needs the lock, shared with others.
    WantShared,
    /// The insert holds the lock shared, and has not loaded a generation.
    Shared,
    /// The insert searches for an equal entry or an empty bucket.
    Probe,
    /// The insert stands at a bucket that was empty when it was read.
    AtEmpty,
    /// The value is in its bucket and isn't counted yet.
    Placed,
    /// The insert has an outcome, and releases the shared lock.
    LeaveOk,
    /// The insert found no room, and releases the shared lock in order to grow the table.
    LeaveGrow,
    /// Memory was refused, and the insert releases the shared lock.
    LeaveRefused,
    /// The insert checks whether its generation is half full.
    AskSize,
    /// The insert needs the lock exclusively.
    WantOwned,
    /// The insert holds the lock exclusively.
    Owned,
    /// The insert holds the lock exclusively and copies into the next generation.
    Building,
    /// The insert is done with growth, and releases the lock.
    LeaveOwned,
    /// The growth failed, and the insert releases the lock.
    LeaveFailed,
    /// A look-up loads the current generation.
    LookLoad,
    /// A look-up reads its buckets in turn.
    LookProbe,
    /// A length loads the current generation.
    LenLoad,
    /// A length reads the size.
    LenSize,
    /// A walk loads the current generation.
    WalkLoad,
    /// A walk reads the buckets in turn.
    WalkAt,
    /// The call has its reply.
    Done,
}

/// The outcome of a call, with the index of its entry's bucket in the generation that the call probes.
#[derive(Clone, Copy, Debug, PartialEq, Eq)]
pub enum Outcome {
    /// No outcome yet, or a reply that names no entry.
    Pending,
    /// The call's own value was placed.
    New { index: u64 },
    /// An entry was accepted.
    Existing { index: u64 },
}

/// The state of a call: its phase and its numbers. It holds no value.
#[derive(Clone, Copy, Debug, PartialEq, Eq)]
pub struct CallState {
    /// The phase.
    pub phase: Phase,
    /// The hash that was given to the call.
    pub hash: u64,
    /// The number of the generation that it loaded last, if there was one.
    pub walked: Option<u64>,
    /// The number of buckets of that generation.
    pub capacity: u64,
    /// The index of the bucket at which it stands.
    pub index: u64,
    /// The number of set buckets that its probe has passed.
    pub seen: u64,
    /// The outcome so far.
    pub outcome: Outcome,
}

impl CallState {
    /// Returns the first state of an insert of a value with this hash.
    #[inline(always)]
    pub fn insert(hash: u64) -> CallState
        ensures { result ≡ insert_start hash }
    {
        CallState::in_first_phase(Phase::WantShared, hash)
    }

    /// Returns the first state of a look-up of this hash.
    #[inline(always)]
    pub fn lookup(hash: u64) -> CallState
        ensures { result ≡ lookup_start hash }
    {
        CallState::in_first_phase(Phase::LookLoad, hash)
    }

    /// Returns the first state of a call that returns the number of entries.
    pub fn length() -> CallState
        ensures { result ≡ length_start }
    {
        CallState::in_first_phase(Phase::LenLoad, 0)
    }

    /// Returns the first state of a walk over all entries.
    pub fn walk() -> CallState
        ensures { result ≡ walk_start }
    {
        CallState::in_first_phase(Phase::WalkLoad, 0)
    }

    #[inline(always)]
    fn in_first_phase(phase: Phase, hash: u64) -> CallState
        ensures { result ≡ starting phase hash }
    {
        CallState {
            phase,
            hash,
            walked: None,
            capacity: 0,
            index: 0,
            seen: 0,
            outcome: Outcome::Pending,
        }
    }
}

/// The answer to an event: what it found.
#[derive(Clone, Copy, Debug, PartialEq, Eq)]
pub enum Answer {
    /// The lock is held now.
    Taken,
    /// The lock is released, other than after a failed growth.
    Released,
    /// The lock is released after a failed growth. `still_current` tells whether the generation that the call loaded is still the
    /// current one, or there is still none.
    ReleasedAfterFailure { still_current: bool },
    /// There is no generation yet.
    NoGeneration,
    /// The number of the current generation, and its capacity.
    Loaded { number: u64, capacity: u64 },
    /// The bucket is empty.
    Empty,
    /// The bucket is set, its bits are those of the call's hash, and this is the closure's answer.
    Holds { accepted: bool },
    /// The bucket is set, and the closure was not called: its bits differ from those of the call's hash, or the call is a walk.
    HoldsUnasked,
    /// The bucket was still empty, and now holds the call's value.
    Won,
    /// Memory for the value was refused.
    MemoryRefused,
    /// The size was increased by one.
    Counted,
    /// The size.
    Sized { size: u64 },
    /// A generation is being built.
    Begun,
    /// Growth is not wanted any more.
    Unwanted,
    /// Growth is wanted, but memory was refused or the capacity can't double.
    Failed,
    /// One entry was copied.
    Copied,
    /// The generation that was built is the current one.
    Shown,
}
