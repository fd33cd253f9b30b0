//! The words of one piece, with their hashes.
ghost use Rattle.std.specs.Prelude.{◌≡◌, [], map, IfNone, OnOk};
ghost use Rattle.interner.specs.Hashes.{mixed_hash};
ghost use Rattle.tool_lines.specs.Pieces.{words_of};

use crate::faults::Fault;
use crate::line_set::HashedLine;
use crate::words::first_word;
use interner::{Mixed, TextHash};
use std::alloc::Allocator;
use tool_streams::faults::StreamFault;

/// A word of a piece, and its hash.
#[derive(Clone, Copy)]
pub struct HashedWord<'p> {
    pub text: &'p str,
    pub hash: u64,
    ghost hashed: { hash ≡ mixed_hash text.now },
}

impl<'p> HashedWord<'p> {
    /// Returns the bytes of the word, with their hash.
    pub fn as_line(self) -> HashedLine<'p>
        ensures { result.bytes.now ≡ self.entry.text.now }
    {
        HashedLine {
            bytes: self.text.as_bytes(),
            hash: self.hash,
        }
    }
}

/// The words of a piece, in order.
#[derive(Drop)]
pub struct HashedWords<'p, A: Allocator> {
    /// The words, up to the fault if there is one.
    pub words: Vec<HashedWord<'p>, A>,
    /// The number of line breaks.
    pub breaks: u64,
    /// The fault. A line that is not UTF-8 is counted from 1 in the piece.
    pub fault: Option<Fault>,
}

/// Returns the words of the piece.
pub fn hash_words<A: Allocator>(alloc: A, piece: &[u8]) -> HashedWords<'_, A>
    ensures { IfNone result.fault (map (λ word. word.text.now) result.words.items ≡ words_of piece.now) }
{
    let mut words = Vec::new(alloc);
    let fault = match push_words(&mut words, piece) {
        Ok(()) => None,
        Err(fault) => Some(fault),
    };
    HashedWords {
        words,
        breaks: count_breaks(piece),
        fault,
    }
}

/// Adds the words of the piece to the empty list, up to the first one that is not UTF-8.
fn push_words<'p, A: Allocator>(
    words: &mut Vec<HashedWord<'p>, A>,
    piece: &'p [u8],
) -> Result<(), Fault>
    requires { words.old.items ≡ [] }
    ensures { OnOk result (map (λ word. word.text.now) words.new.items ≡ words_of piece.now) }
{
    let mut rest = piece;
    while let Some((word, behind)) = first_word(rest) {
        let Ok(text) = str::from_utf8(word) else {
            return Err(Fault::NotUtf8(line_of(piece, rest)));
        };
        let hash = Mixed::hash(word);
        if words.push(HashedWord { text, hash }).is_err() {
            return Err(Fault::Stream(StreamFault::NoMemory));
        }
        rest = behind;
    }
    Ok(())
}

/// Returns the line of the piece, counted from 1, in which the first word of its end `rest` stands.
fn line_of(piece: &[u8], rest: &[u8]) -> u64 {
    let behind = count_breaks(rest.trim_ascii_start());
    count_breaks(piece).saturating_sub(behind).saturating_add(1)
}

/// Returns the number of line breaks in the text.
fn count_breaks(text: &[u8]) -> u64 {
    text.iter().filter(|byte| **byte == b'\n').count() as u64
}
