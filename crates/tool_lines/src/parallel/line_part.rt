//! The lines of one part.
use crate::line_set::HashedLine;
use crate::parallel::kept_lines::KeptLines;
use crate::parallel::portion::Portion;
use std::alloc::{AllocError, Allocator};

/// The lines of one part that were met, and which lines of the last round are new.
#[derive(Drop)]
pub struct LinePart<A: Allocator + Copy> {
    met: KeptLines<A>,
    /// For each piece of the last round the indices of the new lines. `None` means that memory was refused.
    pub news: Option<Vec<Vec<usize, A>, A>>,
    alloc: A,
}

impl<A: Allocator + Copy> LinePart<A> {
    /// Makes a part that has met no line. Does not allocate.
    pub fn new(alloc: A) -> Self {
        LinePart {
            met: KeptLines::new(alloc),
            news: None,
            alloc,
        }
    }

    /// Forgets all lines.
    pub fn clear(&mut self) {
        self.met = KeptLines::new(self.alloc);
        self.news = None;
    }

    /// Takes its portion of the lines of each piece.
    pub fn take_round(&mut self, portion: Portion, pieces: &[Vec<HashedLine<'_>, A>]) {
        self.news = self.new_in_round(portion, pieces).ok();
    }

    fn new_in_round(
        &mut self,
        portion: Portion,
        pieces: &[Vec<HashedLine<'_>, A>],
    ) -> Result<Vec<Vec<usize, A>, A>, AllocError> {
        let mut news = Vec::with_capacity(self.alloc, pieces.len())?;
        for piece in pieces {
            let new = self.new_in_piece(portion, piece.as_slice())?;
            news.push(new)?;
        }
        Ok(news)
    }

    fn new_in_piece(
        &mut self,
        portion: Portion,
        lines: &[HashedLine<'_>],
    ) -> Result<Vec<usize, A>, AllocError> {
        let mut new = Vec::new(self.alloc);
        for (at, line) in lines.iter().enumerate() {
            if portion.has(line.hash) && !self.met.seen_before(*line)? {
                new.push(at)?;
            }
        }
        Ok(new)
    }
}
