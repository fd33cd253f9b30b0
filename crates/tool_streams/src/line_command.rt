//! Commands whose input is lines, and the loop over their lines.
ghost use Rattle.std.specs.Prelude.{◌≡◌, ◌≢◌, ◌≤◌, ℕ, IfErr};
ghost use Rattle.tool_streams.specs.Faults.{IsCountedFromOne};

use crate::faults::{LineFault, StreamFault};
use crate::output::Output;
use crate::short_lines::{Next, ShortLines};
use std::io::{Read, Write};

/// A command whose input is lines.
pub trait LineCommand {
    ghost use Rattle.std.specs.Prelude.{List, IfSome, IfNone};

    /// The request of a line.
    type Line: Copy;

    /// States that this text spells the line.
    ghost spells: { List ℕ → Self.Line → Type 0 };

    /// Parses a whole line, without its line break. Returns `None` for a line that the command doesn't know.
    fn parse(text: &[u8]) -> Option<Self::Line>
        ensures spelled { IfSome result (spells text.now) }
        ensures bad { IfNone result ((line : Self.Line) → ¬ spells text.now line) };

    /// Runs the line, and writes its reply on a line of its own. Reads nothing.
    fn take<W: Write>(&mut self, line: Self::Line, output: &mut W) -> Result<(), StreamFault>
        ensures fault { IfErr result (λ fault. fault ≢ StreamFault.ReadFailed) };
}

/// Takes the lines of the input, one by one, until one can't be parsed or the input ends. Every reply is flushed before more
/// input is read.
pub fn take_lines<C: LineCommand, I: Read, O: Write>(
    command: &mut C,
    lines: &mut ShortLines<I>,
    output: &mut Output<O>,
) -> Result<(), LineFault>
    ensures counted { IfErr result IsCountedFromOne }
{
    // Counted only so that the loop has an end, and to name a bad line.
    for count in 0..u64::MAX {
        let line = match lines.next_line(output)? {
            Next::Line(text) => C::parse(text),
            Next::TooLong => None,
            Next::End => return Ok(()),
        };
        match line {
            Some(line) => command.take(line, output)?,
            None => return Err(LineFault::BadLine(count + 1)),
        }
    }
    Err(LineFault::Stream(StreamFault::ReadFailed))
}
