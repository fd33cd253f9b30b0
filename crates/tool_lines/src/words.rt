//! The tool `words`: it counts the words of each line.
ghost use Rattle.std.specs.Prelude.{◌≡◌, ◌<◌, ◌++◌, ◌∷◌, slice_index, List, ℕ, [], true, false, length, OnOk, IfSome, IfNone, Some};
ghost use Rattle.std.specs.Char.{is_ascii_whitespace};
ghost use Rattle.tool_streams.specs.Lines.{AllAnswer};
ghost use Rattle.tool_lines.specs.Pieces.{words_of, BeginsBlank};
ghost use Rattle.tool_lines.specs.Counts.{Counts};

use crate::faults::Fault;
use crate::line_tool::{LineTool, TextLine};
use crate::word_counts::WordCounts;
use std::alloc::Allocator;
use std::io::Write;

impl<A: Allocator + Copy> LineTool for WordCounts<'_, A> {
    ghost use Rattle.std.specs.Prelude.{[]};
    ghost use Rattle.std.specs.List.{flat_map};
    ghost use Rattle.tool_lines.specs.Pieces.{words_of};
    ghost use Rattle.tool_lines.specs.Counts.{Counts};

    ghost has_taken = { λ w lines. Counts (flat_map words_of lines) w.interner w.counts.items };

    ghost written = { λ _. [] };

    /// Counts the words of the line. Writes nothing.
    fn take_line<W: Write>(&mut self, line: TextLine<'_>, _output: &mut W) -> Result<(), Fault> {
        count_words(self, line.bytes, line.number)
    }
}

/// Counts the words of the line with this number. A word is a longest run of bytes that are not ASCII whitespace.
fn count_words<A: Allocator + Copy>(
    words: &mut WordCounts<'_, A>,
    line: &[u8],
    number: u64,
) -> Result<(), Fault>
    ensures { OnOk result ((before : List (List ℕ))
        → Counts before words.old.interner words.old.counts.items
        → Counts (before ++ words_of line.now) words.new.interner words.new.counts.items) }
{
    let mut rest = line;
    while let Some((word, behind)) = first_word(rest) {
        match str::from_utf8(word) {
            Ok(word) => words.count(word)?,
            Err(_) => return Err(Fault::NotUtf8(number)),
        }
        rest = behind;
    }
    Ok(())
}

/// Splits the text after its first word. Returns `None` if there is no word.
pub(crate) fn first_word(text: &[u8]) -> Option<(&[u8], &[u8])>
    ensures word { IfSome result (λ cut. words_of text.now ≡ cut.0.now ∷ words_of cut.1.now) }
    ensures shorter { IfSome result (λ cut. length cut.1.now < length text.now) }
    ensures none { IfNone result (words_of text.now ≡ []) }
{
    let (_blanks, rest) = cut_blanks(text);
    if rest.is_empty() {
        return None;
    }
    Some(cut_word(rest))
}

/// Splits the text before its first byte that is not ASCII whitespace.
fn cut_blanks(text: &[u8]) -> (&[u8], &[u8])
    ensures parts { text.now ≡ result.0.now ++ result.1.now }
    ensures blanks { AllAnswer is_ascii_whitespace true result.0.now }
    ensures behind { 0 < length result.1.now → is_ascii_whitespace (slice_index result.1.now 0)
        ≡ false }
{
    for (at, byte) in text.iter().enumerate() {
        if !byte.is_ascii_whitespace() {
            return text.split_at(at);
        }
    }
    (text, &[])
}

/// Splits the text before its first byte of ASCII whitespace.
fn cut_word(text: &[u8]) -> (&[u8], &[u8])
    ensures parts { text.now ≡ result.0.now ++ result.1.now }
    ensures word { AllAnswer is_ascii_whitespace false result.0.now }
    ensures behind { BeginsBlank result.1.now }
{
    match text.iter().position(|byte| byte.is_ascii_whitespace()) {
        Some(at) => text.split_at(at),
        None => (text, &[]),
    }
}
