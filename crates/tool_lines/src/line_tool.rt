//! A tool that reads the lines of texts, and the loops over them.
ghost use Rattle.std.specs.Prelude.{OnOk, IfSome};
ghost use Rattle.std.specs.List.{flat_map};
ghost use Rattle.tool_lines.specs.Pieces.{lines_of};
ghost use Rattle.tool_lines.specs.Taken.{TakesLines, TakesText};

use crate::faults::Fault;
use crate::texts::Texts;
use std::alloc::Allocator;
use std::io::{Read, Write};
use tool_streams::faults::StreamFault;
use tool_streams::lines::Lines;

/// A line of a text.
#[derive(Clone, Copy)]
pub struct TextLine<'a> {
    /// The bytes of the line, without the line break.
    pub bytes: &'a [u8],
    /// The number of the line in its text, counted from 1.
    pub number: u64,
}

/// A tool that takes lines, one after another.
pub trait LineTool {
    ghost use Rattle.std.specs.Prelude.{ℕ, List, ◌∷◌, []};

    /// States that these lines were taken.
    ghost has_taken: { Self → List (List ℕ) → Type 0 };

    /// The bytes that are written while these lines are taken.
    ghost written: { List (List ℕ) → List ℕ };

    /// Takes the line.
    fn take_line<W: Write>(&mut self, line: TextLine<'_>, output: &mut W) -> Result<(), Fault>
        ensures { OnOk result (TakesLines has_taken written self.old (line.entry.bytes.now ∷ [])
            self.new (W.contents output.old) (W.contents output.new)) };
}

/// Takes each line of the texts. It flushes what the lines so far have written before it waits for more input.
pub fn take_texts<A: Allocator + Copy, L: LineTool, T: Texts, O: Write>(
    alloc: A,
    tool: &mut L,
    texts: &mut T,
    output: &mut O,
) -> Result<(), Fault>
    ensures { OnOk result (IfSome (T.left texts.old)
        (λ all. TakesLines L.has_taken L.written tool.old (flat_map lines_of all) tool.new
        (O.contents output.old) (O.contents output.new))) }
{
    // Counted only so that the loop has an end.
    for _text in 0..u64::MAX {
        let Some(text) = texts.next_text()? else {
            return Ok(());
        };
        take_text(alloc, tool, text, output)?;
    }
    Err(Fault::Stream(StreamFault::ReadFailed))
}

/// Takes each line of the text.
fn take_text<A: Allocator + Copy, L: LineTool, I: Read + Drop, W: Write>(
    alloc: A,
    tool: &mut L,
    text: I,
    output: &mut W,
) -> Result<(), Fault>
    ensures { OnOk result (TakesText L.has_taken L.written (I.remaining text) tool.old tool.new
        (W.contents output.old) (W.contents output.new)) }
{
    let mut lines = Lines::new(alloc, text)?;
    // Counted only so that the loop has an end, and to number the lines.
    for before in 0..u64::MAX {
        if !lines.read_line(output)? {
            return Ok(());
        }
        let line = TextLine {
            bytes: lines.line(),
            number: before + 1,
        };
        tool.take_line(line, output)?;
    }
    Err(Fault::Stream(StreamFault::ReadFailed))
}
