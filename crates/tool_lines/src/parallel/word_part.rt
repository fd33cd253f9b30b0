//! The words of one part.
use crate::faults::Fault;
use crate::line_set::HashedLine;
use crate::parallel::hashed_words::{HashedWord, HashedWords};
use crate::parallel::kept_lines::KeptLines;
use crate::parallel::portion::Portion;
use std::alloc::{AllocError, Allocator};

/// The different words of one part, in the order of first appearance.
#[derive(Drop)]
pub struct WordPart<A: Allocator + Copy> {
    words: KeptLines<A>,
    counts: Vec<Count, A>,
    /// The fault that ended the last round, if one did.
    pub fault: Option<Fault>,
}

/// How often a word has occurred, and how many words of the texts were before it.
#[derive(Clone, Copy)]
struct Count {
    times: u64,
    before: u64,
}

/// A word, how often it has occurred, and how many words of the texts were before it.
#[derive(Clone, Copy)]
pub struct CountedWord<'p> {
    pub word: &'p [u8],
    pub times: u64,
    pub before: u64,
}

impl<A: Allocator + Copy> WordPart<A> {
    /// Makes a part without words. Does not allocate.
    pub fn new(alloc: A) -> Self {
        WordPart {
            words: KeptLines::new(alloc),
            counts: Vec::new(alloc),
            fault: None,
        }
    }

    /// Returns the number of different words.
    pub fn len(&self) -> usize {
        self.counts.len()
    }

    /// Counts its portion of the words of the pieces. The texts have `before` words before these pieces.
    pub fn take_round(&mut self, portion: Portion, before: u64, pieces: &[HashedWords<'_, A>]) {
        self.fault = match self.count_round(portion, before, pieces) {
            Ok(()) => None,
            Err(fault) => Some(fault),
        };
    }

    /// Counts its portion of the words of the pieces.
    fn count_round(
        &mut self,
        portion: Portion,
        before: u64,
        pieces: &[HashedWords<'_, A>],
    ) -> Result<(), Fault> {
        let mut before = before;
        for piece in pieces {
            self.count_piece(portion, before, piece.words.as_slice())?;
            before = before.saturating_add(piece.words.len() as u64);
        }
        Ok(())
    }

    /// Counts its portion of the words of a piece.
    fn count_piece(
        &mut self,
        portion: Portion,
        before: u64,
        words: &[HashedWord<'_>],
    ) -> Result<(), Fault> {
        for (index, word) in words.iter().enumerate() {
            if portion.has(word.hash) {
                self.count(*word, before.saturating_add(index as u64))?;
            }
        }
        Ok(())
    }

    /// Counts a word once more. The texts have `before` words before it.
    fn count(&mut self, word: HashedWord<'_>, before: u64) -> Result<(), Fault> {
        let line = word.as_line();
        if let Some(at) = self.words.before(line)
            && let Some(count) = self.counts.get_mut(at)
        {
            let Some(times) = count.times.checked_add(1) else {
                return Err(Fault::TooManyWords);
            };
            count.times = times;
            return Ok(());
        }
        self.add(line, before)?;
        Ok(())
    }

    /// Adds a new word, counted once.
    fn add(&mut self, word: HashedLine<'_>, before: u64) -> Result<(), AllocError> {
        self.counts.reserve(1)?;
        self.words.keep(word)?;
        self.counts.push(Count { times: 1, before })?;
        Ok(())
    }

    /// Returns the words with their counts, in the order of first appearance. `Err`: memory was refused.
    pub fn in_order(&self, alloc: A) -> Result<Vec<CountedWord<'_>, A>, AllocError> {
        let words = self.words.in_order()?;
        let mut all = Vec::with_capacity(alloc, self.counts.len())?;
        for (word, count) in words.iter().zip(&self.counts) {
            all.push(CountedWord {
                word: *word,
                times: count.times,
                before: count.before,
            })?;
        }
        Ok(all)
    }
}
