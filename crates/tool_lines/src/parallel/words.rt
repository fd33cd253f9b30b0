//! The tool `words` by several threads.
use crate::faults::Fault;
use crate::parallel::hashed_words::{HashedWords, hash_words};
use crate::parallel::portion::Portion;
use crate::parallel::word_part::{CountedWord, WordPart};
use std::alloc::{AllocError, Allocator};
use std::io::Write;
use std::thread;
use std::thread::Threads;
use tool_streams::faults::StreamFault;

/// The words that were counted, in as many parts as there are threads, and where the text is.
#[derive(Drop)]
pub struct RoundWords<A: Allocator + Copy> {
    parts: Vec<WordPart<A>, A>,
    alloc: A,
    /// The number of words before the next round.
    before: u64,
    /// The number of line breaks of the text before the next round.
    breaks: u64,
}

impl<A: Allocator + Copy> RoundWords<A> {
    /// Makes the tool, which has counted no word. `Err`: memory was refused.
    pub fn new(alloc: A, threads: usize) -> Result<Self, AllocError> {
        let mut parts = Vec::with_capacity(alloc, threads)?;
        for _part in 0..threads {
            parts.push(WordPart::new(alloc))?;
        }
        Ok(RoundWords {
            parts,
            alloc,
            before: 0,
            breaks: 0,
        })
    }

    /// Begins a text: the next line is its first one.
    pub fn begin_text(&mut self) {
        self.breaks = 0;
    }

    /// Checks the parts. `Err`: the first fault of one, or that together they have too many different words.
    fn check_parts(&self) -> Result<(), Fault> {
        let mut different = 0usize;
        for part in &self.parts {
            if let Some(fault) = part.fault {
                return Err(fault);
            }
            different = different.saturating_add(part.len());
        }
        if different > u32::MAX as usize {
            return Err(Fault::TooManyWords);
        }
        Ok(())
    }

    /// Moves on behind the pieces, and returns the first of their faults.
    fn pass(&mut self, pieces: &[HashedWords<'_, A>]) -> Result<(), Fault> {
        for piece in pieces {
            match piece.fault {
                Some(Fault::NotUtf8(line)) => {
                    return Err(Fault::NotUtf8(self.breaks.saturating_add(line)));
                }
                Some(fault) => return Err(fault),
                None => {}
            }
            self.before = self.before.saturating_add(piece.words.len() as u64);
            self.breaks = self.breaks.saturating_add(piece.breaks);
        }
        Ok(())
    }

    /// Writes a line for each word, in the order of first appearance: its number, the word and its count, separated by single spaces.
    pub fn write_to<W: Write>(&self, output: &mut W) -> Result<(), Fault> {
        let mut all = Vec::with_capacity(self.alloc, self.parts.len())?;
        for part in &self.parts {
            all.push(part.in_order(self.alloc)?)
                .map_err(|_refused| AllocError)?;
        }
        let mut next = Vec::from_elem(self.alloc, 0usize, self.parts.len())?;
        write_all_words(all.as_slice(), next.as_mut_slice(), output)
    }
}

/// Writes the words of the parts. `next` has the index of each part's next word.
fn write_all_words<A: Allocator, W: Write>(
    parts: &[Vec<CountedWord<'_>, A>],
    next: &mut [usize],
    output: &mut W,
) -> Result<(), Fault> {
    for before in 0..u64::MAX {
        let Some((at, word)) = first_word(parts, next) else {
            break;
        };
        write_word(before + 1, word, output)?;
        if let Some(index) = next.get_mut(at) {
            *index = index.saturating_add(1);
        }
    }
    Ok(())
}

/// Returns the first one of the parts' next words, and the number of its part.
fn first_word<'p, A: Allocator>(
    parts: &[Vec<CountedWord<'p>, A>],
    next: &[usize],
) -> Option<(usize, CountedWord<'p>)> {
    let mut first: Option<(usize, CountedWord<'p>)> = None;
    for at in 0..parts.len() {
        if let Some(word) = next_word(parts, next, at) {
            first = match first {
                Some((other, before)) if before.before < word.before => Some((other, before)),
                _ => Some((at, word)),
            };
        }
    }
    first
}

/// Returns the next word of the part.
fn next_word<'p, A: Allocator>(
    parts: &[Vec<CountedWord<'p>, A>],
    next: &[usize],
    at: usize,
) -> Option<CountedWord<'p>> {
    let index = *next.get(at)?;
    let word = parts.get(at)?.get(index)?;
    Some(*word)
}

/// Writes the line of a word.
fn write_word<W: Write>(number: u64, word: CountedWord<'_>, output: &mut W) -> Result<(), Fault> {
    write!(output, "{number} ").map_err(|_error| StreamFault::WriteFailed)?;
    output
        .write_all(word.word)
        .map_err(|_error| StreamFault::WriteFailed)?;
    writeln!(output, " {}", word.times).map_err(|_error| StreamFault::WriteFailed)?;
    Ok(())
}

/// Returns the pieces up to the first one with a fault.
fn up_to_fault<'a, 'p, A: Allocator>(pieces: &'a [HashedWords<'p, A>]) -> &'a [HashedWords<'p, A>] {
    match pieces.iter().position(|piece| piece.fault.is_some()) {
        Some(at) => &pieces[..at + 1],
        None => pieces,
    }
}

impl<A: Allocator + Copy + Send + Sync> RoundWords<A> {
    /// Lets each part count its portion of the words, by a thread of its own.
    fn split_round<R: Threads + Sync>(&mut self, rt: &R, pieces: &[HashedWords<'_, A>]) {
        let (parts, before) = (self.parts.len(), self.before);
        thread::for_each_mut(
            rt,
            self.parts.as_mut_slice(),
            parts.max(1),
            &|number, part| part.take_round(Portion { number, parts }, before, pieces),
        );
    }

    /// Counts the words of the pieces, each of which is read by a thread of its own.
    pub fn take_round<R: Threads + Sync>(
        &mut self,
        rt: &R,
        pieces: &[Vec<u8, A>],
    ) -> Result<(), Fault> {
        let alloc = self.alloc;
        let hashed = thread::map_indices(
            rt,
            alloc,
            pieces.len(),
            &|at| hash_words(alloc, pieces[at].as_slice()),
        )?;
        let taken = up_to_fault(hashed.as_slice());
        self.split_round(rt, taken);
        self.check_parts()?;
        self.pass(taken)
    }
}
