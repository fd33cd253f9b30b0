//! The replies of the program to a line.
ghost use Rattle.std.specs.Prelude.{◌≡◌, ◌++◌, OnOk, OnErr, IfSome, Some, codes};
ghost use Rattle.std.specs.Io.KnownBytes.{Appends};

use std::fmt;
use std::io::Write;
use table_terms::insertion::Insertion;
use tool_streams::faults::StreamFault;

/// The reply to one line.
#[derive(Clone, Copy)]
pub enum Reply<'a> {
    /// The result of an insert. It is `Refused` if memory for the pair was refused and no entry is equal.
    Inserted(Insertion),
    /// The number of the entry that a look-up found, if it found one.
    LookedUp(Option<u64>),
    /// A length, a capacity or a number of buckets.
    Count(usize),
    /// The numbers of all entries.
    Numbers(&'a [u64]),
}

impl fmt::Display for Reply<'_> {
    ghost use Rattle.tool_commands.specs.Replies.{reply_text};

    ghost output = { λ r. Some (reply_text r) };

    fn fmt<W: fmt::Write>(&self, f: &mut fmt::Formatter<W>) -> fmt::Result {
        match self {
            Reply::Inserted(Insertion::Placed) => write!(f, "placed"),
            Reply::Inserted(Insertion::Found) => write!(f, "found"),
            Reply::Inserted(Insertion::Refused) => write!(f, "refused"),
            Reply::LookedUp(Some(number)) => write!(f, "some {number}"),
            Reply::LookedUp(None) => write!(f, "none"),
            Reply::Count(count) => write!(f, "{count}"),
            Reply::Numbers(numbers) => write!(f, "{numbers:?}"),
        }
    }
}

/// Writes the reply on a line of its own.
pub fn write_reply<D: fmt::Display, W: Write>(output: &mut W, reply: &D) -> Result<(), StreamFault>
    ensures written { OnOk result (IfSome (D.output reply.now) (λ text.
        Appends (W.contents output.old) (W.contents output.new) (text ++ codes "\n"))) }
    ensures fault { OnErr result (result ≡ Err StreamFault.WriteFailed) }
{
    match writeln!(output, "{reply}") {
        Ok(()) => Ok(()),
        Err(_) => Err(StreamFault::WriteFailed),
    }
}
