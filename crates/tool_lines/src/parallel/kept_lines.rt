//! A set of lines, or of words, that owns what it holds, so that it can go from thread to thread.
ghost use Rattle.std.specs.Prelude.{◌≡◌};
ghost use Rattle.interner.specs.Hashes.{mixed_hash};

use crate::line_set::{HashedLine, LineSet, StoredLine};
use std::alloc::{AllocError, Allocator};

/// A line in a block of its own, and its hash.
#[derive(Drop)]
pub struct KeptLine<A: Allocator> {
    bytes: Vec<u8, A>,
    hash: u64,
    /// The number of lines that were kept before.
    before: usize,
    ghost hashed: { hash ≡ mixed_hash bytes.items },
}

impl<A: Allocator> StoredLine<A> for KeptLine<A> {
    ghost bytes_of = { λ line. line.bytes.items };

    fn store(alloc: A, line: HashedLine<'_>, before: usize) -> Result<Self, AllocError> {
        let bytes = Vec::from_slice(alloc, line.bytes)?;
        Ok(KeptLine {
            bytes,
            hash: line.hash,
            before,
        })
    }

    fn bytes(&self) -> &[u8] {
        self.bytes.as_slice()
    }

    fn hash(&self) -> u64 {
        self.hash
    }
}

/// A set of lines, each stored once in a block of its own.
pub type KeptLines<A> = LineSet<KeptLine<A>, A>;

impl<A: Allocator + Copy> LineSet<KeptLine<A>, A> {
    /// Returns how many lines were added before the line, if it is in the set.
    pub fn before(&self, line: HashedLine<'_>) -> Option<usize> {
        let kept = self.find(line)?;
        Some(kept.before)
    }

    /// Returns the lines in the order in which they were added. `Err`: memory was refused.
    pub fn in_order(&self) -> Result<Vec<&[u8], A>, AllocError> {
        let none: &[u8] = &[];
        let mut all = Vec::from_elem(self.alloc, none, self.lines.len_alone())?;
        for kept in self.lines.iter_alone() {
            if let Some(place) = all.get_mut(kept.before) {
                *place = kept.bytes.as_slice();
            }
        }
        Ok(all)
    }
}
