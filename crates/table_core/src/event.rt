//! The events of schedules.
ghost use Rattle.std.specs.Prelude.{◌≡◌, true};
ghost use Rattle.table_core.specs.Machine.{number_of, in_range};

/// One event of a schedule: the next step of the call with this number, with the answers of its closure and of the allocator.
///
/// `accepted` is the closure's answer at a set bucket. `granted` tells whether the memory that was asked for was granted. Each is
/// ignored if nothing was asked.
#[derive(Clone, Copy, Debug, PartialEq, Eq)]
pub enum Event {
    /// Begins an insert of a value with its hash.
    Insert {
        call: u64,
        value: u64,
        hash: u64,
    },
    /// Begins a look-up of a hash.
    Lookup {
        call: u64,
        hash: u64,
    },
    /// Begins a call that returns the number of entries.
    Len {
        call: u64,
    },
    /// Begins a walk over all entries.
    Walk {
        call: u64,
    },
    /// Takes the lock shared.
    Share {
        call: u64,
    },
    /// Takes the lock exclusively.
    Own {
        call: u64,
    },
    /// Releases the lock.
    Free {
        call: u64,
    },
    /// Loads the current generation.
    Load {
        call: u64,
    },
    /// Reads the bucket at which the call stands.
    Read {
        call: u64,
        accepted: bool,
    },
    /// Exchanges that bucket, if it is still empty, for the call's own value.
    Put {
        call: u64,
        accepted: bool,
        granted: bool,
    },
    /// Adds one to the size of the generation that the call probes.
    Add {
        call: u64,
    },
    /// Reads that size.
    Size {
        call: u64,
    },
    /// Checks, with the lock held exclusively, whether growth is wanted, and begins it.
    Check {
        call: u64,
        granted: bool,
    },
    /// Copies the next entry, with this hash, into the generation that is being built.
    Copy {
        call: u64,
        hash: u64,
    },
    /// Makes the generation that was built the current one.
    Show {
        call: u64,
    },
}

impl Event {
    /// Returns the number of the event's call.
    pub fn call(self) -> u64
        ensures number { result ≡ number_of self }
        ensures in_range { in_range self ≡ true }
    {
        match self {
            Event::Insert { call, .. }
            | Event::Lookup { call, .. }
            | Event::Len { call }
            | Event::Walk { call }
            | Event::Share { call }
            | Event::Own { call }
            | Event::Free { call }
            | Event::Load { call }
            | Event::Read { call, .. }
            | Event::Put { call, .. }
            | Event::Add { call }
            | Event::Size { call }
            | Event::Check { call, .. }
            | Event::Copy { call, .. }
            | Event::Show { call } => call,
        }
    }
}
