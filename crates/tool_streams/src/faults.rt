//! The faults that end a run over streams before its input does.
ghost use Rattle.std.specs.Prelude.{◌≡◌, ℕ, Some};
ghost use Rattle.tool_streams.specs.Faults.{stream_message, line_message, line_status};
ghost use Rattle.tool_streams.specs.declared.faults.LineFault.{LineFault as LineFaultOf};

use std::fmt;

/// The reason for which a run of a program ended before its input did. It is printed as its message.
pub trait RunFault: fmt::Display {
    ghost status_of: { Self → ℕ };

    /// Returns the exit status of the program.
    fn status(&self) -> u8
        ensures { result ≡ status_of self.now };
}

/// A request that the system refused.
#[derive(Clone, Copy, Debug, PartialEq, Eq)]
pub enum StreamFault {
    ReadFailed,
    WriteFailed,
    NoMemory,
}

impl fmt::Display for StreamFault {
    ghost output = { λ f. Some (stream_message f) };

    fn fmt<W: fmt::Write>(&self, f: &mut fmt::Formatter<W>) -> fmt::Result {
        let message = match self {
            StreamFault::ReadFailed => "read failed",
            StreamFault::WriteFailed => "write failed",
            StreamFault::NoMemory => "no memory",
        };
        write!(f, "{message}")
    }
}

impl RunFault for StreamFault {
    ghost status_of = { λ f. 1 };

    fn status(&self) -> u8 {
        1
    }
}

/// The reason for which a run over an input of lines ended before the input did.
#[derive(Clone, Copy, Debug, PartialEq, Eq)]
pub enum LineFault {
    /// This line, counted from 1, is none that the command knows.
    BadLine(u64),
    Stream(StreamFault),
}

impl From<StreamFault> for LineFault {
    ghost from_gives = { λ fault r. r ≡ LineFaultOf.Stream fault };

    fn from(fault: StreamFault) -> LineFault {
        LineFault::Stream(fault)
    }
}

impl fmt::Display for LineFault {
    ghost output = { λ f. Some (line_message f) };

    fn fmt<W: fmt::Write>(&self, f: &mut fmt::Formatter<W>) -> fmt::Result {
        match self {
            LineFault::BadLine(line) => write!(f, "bad line {line}"),
            LineFault::Stream(fault) => write!(f, "{fault}"),
        }
    }
}

impl RunFault for LineFault {
    ghost status_of = { line_status };

    fn status(&self) -> u8 {
        match self {
            LineFault::BadLine(_) => 2,
            LineFault::Stream(fault) => fault.status(),
        }
    }
}
