//! The faults that end a run before its input does.
ghost use Rattle.std.specs.Prelude.{◌≡◌, Some};
ghost use Rattle.tool_commands.specs.Faults.{message_of, status_of, of_lines};
ghost use Rattle.tool_commands.specs.declared.faults.Fault.{Fault as FaultOf};

use crate::kinds::Kind;
use std::fmt;
use tool_streams::faults::{LineFault, RunFault, StreamFault};

/// The reason for which a run ended. It is printed as its message.
#[derive(Clone, Copy, Debug, PartialEq, Eq)]
pub enum Fault {
    /// The arguments name no command.
    Usage,
    /// This line, counted from 1, is none that the command knows.
    BadLine(u64),
    Stream(StreamFault),
    NoThread,
    /// The gate refused a worker.
    GateStuck,
    /// In the job of this kind and number, counted from 0, a look-up missed a value, or an iterator showed too few entries or too
    /// many.
    JobFailed { kind: Kind, job: u64 },
}

impl From<StreamFault> for Fault {
    ghost from_gives = { λ fault r. r ≡ FaultOf.Stream fault };

    fn from(fault: StreamFault) -> Fault {
        Fault::Stream(fault)
    }
}

impl From<LineFault> for Fault {
    ghost from_gives = { λ fault r. r ≡ of_lines fault };

    fn from(fault: LineFault) -> Fault {
        match fault {
            LineFault::BadLine(line) => Fault::BadLine(line),
            LineFault::Stream(fault) => Fault::Stream(fault),
        }
    }
}

impl RunFault for Fault {
    ghost status_of = { status_of };

    fn status(&self) -> u8 {
        match self {
            Fault::Usage => 2,
            Fault::BadLine(line) => LineFault::BadLine(*line).status(),
            Fault::Stream(fault) => fault.status(),
            Fault::NoThread => 1,
            Fault::GateStuck => 1,
            Fault::JobFailed { .. } => 1,
        }
    }
}

impl fmt::Display for Fault {
    ghost output = { λ f. Some (message_of f) };

    fn fmt<W: fmt::Write>(&self, f: &mut fmt::Formatter<W>) -> fmt::Result {
        match self {
            Fault::Usage => write!(
                f,
                "usage: tablerun calls [F] | shards N [F] | core [F] | stress THREADS JOBS | seats THREADS"
            ),
            Fault::BadLine(line) => write!(f, "{}", LineFault::BadLine(*line)),
            Fault::Stream(fault) => write!(f, "{fault}"),
            Fault::NoThread => write!(f, "no thread"),
            Fault::GateStuck => write!(f, "gate stuck"),
            Fault::JobFailed { kind, job } => write!(f, "{kind} failed at job {job}"),
        }
    }
}
