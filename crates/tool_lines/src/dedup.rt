//! The tool `dedup`: it writes each different line once, at its first appearance.
ghost use Rattle.std.specs.Prelude.{OnOk};
ghost use Rattle.std.specs.Io.KnownBytes.{Appends};
ghost use Rattle.tool_lines.specs.Firsts.{with_break};

use crate::faults::Fault;
use crate::line_set::{HashedLine, LineSet, StoredLine};
use crate::line_tool::{LineTool, TextLine};
use std::alloc::Allocator;
use std::io::Write;
use tool_streams::faults::StreamFault;

impl<T: StoredLine<A>, A: Allocator + Copy> LineTool for LineSet<T, A> {
    ghost use Rattle.tool_lines.specs.Firsts.{deduped};
    ghost use Rattle.tool_lines.specs.LineSet.{HoldsLines};

    ghost has_taken = { HoldsLines T.bytes_of };

    ghost written = { deduped };

    /// Writes the line, unless it is equal to an earlier one.
    fn take_line<W: Write>(&mut self, line: TextLine<'_>, output: &mut W) -> Result<(), Fault> {
        match self.seen_before(HashedLine::new(line.bytes)) {
            Ok(true) => Ok(()),
            Ok(false) => write_line(line.bytes, output),
            Err(_) => Err(Fault::Stream(StreamFault::NoMemory)),
        }
    }
}

/// Writes the line with a line break.
pub(crate) fn write_line<W: Write>(line: &[u8], output: &mut W) -> Result<(), Fault>
    ensures { OnOk result (Appends (W.contents output.old) (W.contents output.new)
        (with_break line.now)) }
{
    output
        .write_all(line)
        .map_err(|_error| StreamFault::WriteFailed)?;
    output
        .write_all(b"\n")
        .map_err(|_error| StreamFault::WriteFailed)?;
    Ok(())
}
