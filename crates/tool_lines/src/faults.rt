//! The faults that end a tool before its input does.
ghost use Rattle.std.specs.Prelude.{◌≡◌, Some};
ghost use Rattle.tool_lines.specs.Faults.{message_of, status_of, is_of_text};
ghost use Rattle.tool_streams.specs.declared.faults.StreamFault.{StreamFault as StreamFaultOf};
ghost use Rattle.tool_lines.specs.declared.faults.Fault.{Fault as FaultOf};

use std::alloc::AllocError;
use std::fmt;
use tool_streams::faults::{RunFault, StreamFault};

/// The reason for which a tool ended. It is printed as its message.
#[derive(Clone, Copy)]
pub enum Fault {
    /// This line, counted from 1, is not UTF-8.
    NotUtf8(u64),
    /// All 2^32 - 1 numbers are taken, or one word occurred 2^64 - 1 times.
    TooManyWords,
    /// There is no file of this name.
    NoSuchFile,
    /// The file of this name can't be opened.
    NotOpened,
    /// The reader of the output has closed it. No message is written.
    ReaderGone,
    Stream(StreamFault),
}

impl Fault {
    /// Returns whether the fault lies in the text that was read. Then its message names the text.
    pub fn is_of_text(self) -> bool
        ensures { result ≡ is_of_text self }
    {
        match self {
            Fault::NotUtf8(_) | Fault::NoSuchFile | Fault::NotOpened => true,
            Fault::Stream(fault) => fault == StreamFault::ReadFailed,
            Fault::TooManyWords | Fault::ReaderGone => false,
        }
    }
}

impl From<StreamFault> for Fault {
    ghost from_gives = { λ fault r. r ≡ FaultOf.Stream fault };

    fn from(fault: StreamFault) -> Fault {
        Fault::Stream(fault)
    }
}

impl From<AllocError> for Fault {
    ghost from_gives = { λ _ r. r ≡ FaultOf.Stream StreamFaultOf.NoMemory };

    fn from(_refused: AllocError) -> Fault {
        Fault::Stream(StreamFault::NoMemory)
    }
}

impl RunFault for Fault {
    ghost status_of = { status_of };

    fn status(&self) -> u8 {
        match self {
            Fault::NotUtf8(_) => 2,
            Fault::TooManyWords | Fault::NoSuchFile | Fault::NotOpened | Fault::ReaderGone => 1,
            Fault::Stream(fault) => fault.status(),
        }
    }
}

impl fmt::Display for Fault {
    ghost output = { λ f. Some (message_of f) };

    fn fmt<W: fmt::Write>(&self, f: &mut fmt::Formatter<W>) -> fmt::Result {
        match self {
            Fault::NotUtf8(line) => write!(f, "line {line} is not UTF-8"),
            Fault::TooManyWords => write!(f, "too many words"),
            Fault::NoSuchFile => write!(f, "no such file"),
            Fault::NotOpened => write!(f, "can't be opened"),
            Fault::ReaderGone => write!(f, "the reader has gone"),
            Fault::Stream(fault) => write!(f, "{fault}"),
        }
    }
}
