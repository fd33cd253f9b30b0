//! Why rounds end early.
use crate::{Round, RoundFault};
use std::fmt::{Display, Formatter};
use std::{fmt, io};

/// The reason to end rounds early.
#[derive(Drop)]
pub enum Stop {
    /// A round had a fault.
    Fault(Round, RoundFault),
    /// The clock or the output failed.
    Io(io::Error),
}

impl From<io::Error> for Stop {
    fn from(error: io::Error) -> Stop {
        Stop::Io(error)
    }
}

impl Display for Stop {
    fn fmt<W: fmt::Write>(&self, f: &mut Formatter<W>) -> fmt::Result {
        match self {
            Stop::Fault(round, fault) => write!(f, "{round:?}: {fault}"),
            Stop::Io(error) => write!(f, "{error}"),
        }
    }
}
