//! Faults that a round can find in a table.
use std::alloc::AllocError;
use std::fmt;
use std::fmt::{Display, Formatter};

/// A fault, with the id of the value.
#[derive(Clone, Copy, Debug, PartialEq)]
pub enum RoundFault {
    /// Memory for the round itself was refused: nothing is known of the table.
    NoMemory,
    /// The insert of the value had an outcome that it can't have.
    Answer(u64),
    /// The value was neither returned nor is an entry.
    Lost(u64),
    /// The value has two fates, or a walk yielded it twice.
    Doubled(u64),
    /// Another entry is equal to this one.
    Equal(u64),
    /// The value came without being inserted, or more often than it was inserted.
    Unknown(u64),
    /// No equal entry of the value was found, or another one than before.
    NotFound(u64),
    /// A target has changed or moved.
    Moved(u64),
    /// The walk and the table at its end differ in this value.
    Walk(u64),
    /// The number of entries isn't that of the placed values.
    Length,
    /// More inserts than requests for memory were refused.
    Refusals,
    /// Some block wasn't freed.
    Blocks,
}

impl From<AllocError> for RoundFault {
    fn from(_refused: AllocError) -> RoundFault {
        RoundFault::NoMemory
    }
}

impl Display for RoundFault {
    fn fmt<W: fmt::Write>(&self, f: &mut Formatter<W>) -> fmt::Result {
        match *self {
            RoundFault::NoMemory => write!(f, "no memory"),
            RoundFault::Answer(id) => write!(f, "a wrong answer for value {id}"),
            RoundFault::Lost(id) => write!(f, "value {id} is lost"),
            RoundFault::Doubled(id) => write!(f, "value {id} is there twice"),
            RoundFault::Equal(id) => write!(f, "value {id} has an equal entry beside it"),
            RoundFault::Unknown(id) => write!(f, "value {id} was never given"),
            RoundFault::NotFound(id) => write!(f, "no equal of value {id} is found"),
            RoundFault::Moved(id) => write!(f, "the target kept of value {id} is another"),
            RoundFault::Walk(id) => write!(f, "the walk is wrong about value {id}"),
            RoundFault::Length => write!(f, "the length is wrong"),
            RoundFault::Refusals => write!(f, "an insert was refused without a cause"),
            RoundFault::Blocks => write!(f, "a block did not come back"),
        }
    }
}
