//! The different words of a text, with their counts.
ghost use Rattle.std.specs.Prelude.{◌≡◌, ◌+◌, slice_set, slice_index, slice_index_or, ◌<◌, ◌≤◌, ◌-◌, ◌++◌, ◌∷◌, [], ℕ, List, length, vec_len, ◌^◌, OnOk, OnErr, IfErr, Contains};
ghost use Rattle.std.specs.Io.KnownBytes.{Appends};
ghost use Rattle.std.specs.Int.NonZero.{non_zero_u32_get};
ghost use Rattle.interner.specs.Texts.{greatest_number};
ghost use Rattle.tool_lines.specs.Counts.{Counts, word_line, word_lines};

use crate::faults::Fault;
use bumpalo::Bump;
use interner::{InternerOf, Mixed, Refused};
use std::alloc::{Allocator, Global};
use std::io::Write;
use std::num::NonZeroU32;
use tool_streams::faults::StreamFault;

/// Different words, numbered from 1 on in the order of first appearance, each with the number of its occurrences. They are hashed
/// by `Mixed`, since others write them. The words lie in an arena: none has a heap block of its own.
#[derive(Drop)]
pub struct WordCounts<'a, A: Allocator + Copy = Global> {
    interner: InternerOf<&'a str, Mixed, A, &'a Bump<A>>,
    counts: Vec<u64, A>,
    arena: &'a Bump<A>,
    ghost each_counted: { vec_len counts ≡ length interner },
}

impl<'a, A: Allocator + Copy> WordCounts<'a, A> {
    /// Makes an empty collection. Does not allocate.
    pub fn new(alloc: A, arena: &'a Bump<A>) -> Self
        ensures { Counts [] result.interner result.counts.items }
    {
        WordCounts {
            interner: InternerOf::new(alloc, arena),
            counts: Vec::new(alloc),
            arena,
        }
    }

    /// Counts one more occurrence of the word. A known word needs no memory. A refusal leaves words and counts unchanged.
    pub fn count(&mut self, word: &str) -> Result<(), Fault>
        ensures counts { OnOk result ((words : List (List ℕ))
            → Counts words self.old.interner self.old.counts.items
            → Counts (words ++ word.now ∷ []) self.new.interner self.new.counts.items) }
        ensures known { IfErr result (λ fault. Contains self.old.interner word.now
            → fault ≡ Fault.TooManyWords) }
        ensures unchanged { OnErr result ((self.new.interner ≡ self.old.interner)
            × (self.new.counts.items ≡ self.old.counts.items)) }
    {
        match self.interner.number_alone(word) {
            Some(number) => self.count_again(number),
            None => self.add(word),
        }
    }

    /// Counts one more occurrence of the word of this number. It is refused only if the word occurred 2^64 - 1 times.
    fn count_again(&mut self, number: NonZeroU32) -> Result<(), Fault>
        requires { non_zero_u32_get number ≤ length self.old.interner }
        ensures interner { self.new.interner ≡ self.old.interner }
        ensures counted { OnOk result (self.new.counts.items ≡ slice_set self.old.counts.items
            (non_zero_u32_get number - 1) (slice_index self.old.counts.items
            (non_zero_u32_get number - 1) + 1)) }
        ensures unchanged { OnErr result (self.new.counts.items ≡ self.old.counts.items) }
        ensures most { IfErr result (λ fault. (fault ≡ Fault.TooManyWords)
            × (slice_index self.old.counts.items (non_zero_u32_get number - 1) ≡ 2 ^ 64 - 1)) }
    {
        let at = number.get() as usize - 1;
        match self.counts[at].checked_add(1) {
            Some(count) => {
                self.counts[at] = count;
                Ok(())
            }
            None => Err(Fault::TooManyWords),
        }
    }

    /// Gives a new word the next number, and counts it once.
    fn add(&mut self, word: &str) -> Result<(), Fault>
        requires { ¬ Contains self.old.interner word.now }
        ensures interner { OnOk result (self.new.interner ≡ self.old.interner ++ word.now ∷ []) }
        ensures counted { OnOk result (self.new.counts.items ≡ self.old.counts.items ++ 1 ∷ []) }
        ensures unchanged { OnErr result ((self.new.interner ≡ self.old.interner)
            × (self.new.counts.items ≡ self.old.counts.items)) }
    {
        if self.counts.reserve(1).is_err() {
            return Err(Fault::Stream(StreamFault::NoMemory));
        }
        let Ok(kept) = self.arena.try_alloc_str(word) else {
            return Err(Fault::Stream(StreamFault::NoMemory));
        };
        match self.interner.add_alone(kept) {
            Ok(_) => {}
            Err(Refused::Numbers) => return Err(Fault::TooManyWords),
            Err(Refused::NoMemory) => return Err(Fault::Stream(StreamFault::NoMemory)),
        }
        match self.counts.push(1) {
            Ok(()) => Ok(()),
            Err(_) => unreachable!(),
        }
    }

    /// Writes a line for each word: its number, the word and its count, separated by single spaces.
    pub fn write_to<W: Write>(&self, output: &mut W) -> Result<(), Fault>
        ensures { OnOk result (Appends (W.contents output.old) (W.contents output.new)
            (word_lines 1 self.now.interner self.now.counts.items)) }
    {
        for before in 0..self.interner.len_alone() as u32 {
            self.write_line(before, output)?;
        }
        Ok(())
    }

    /// Writes the line of the word with `before` words before it.
    fn write_line<W: Write>(&self, before: u32, output: &mut W) -> Result<(), Fault>
        requires given { before < length self.now.interner }
        requires few { length self.now.interner ≤ greatest_number }
        ensures { OnOk result (Appends (W.contents output.old) (W.contents output.new)
            (word_line (before + 1) (slice_index_or self.now.interner before [])
            (slice_index self.now.counts.items before))) }
    {
        let Some(number) = NonZeroU32::new(before + 1) else {
            unreachable!()
        };
        let Some(word) = self.interner.text_alone(number) else {
            unreachable!()
        };
        let count = self.counts[before as usize];
        match writeln!(output, "{number} {word} {count}") {
            Ok(()) => Ok(()),
            Err(_) => Err(Fault::Stream(StreamFault::WriteFailed)),
        }
    }
}
