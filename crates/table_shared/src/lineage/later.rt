//! The words that hold the generations made after a table was shared.
ghost use Rattle.std.specs.Prelude.{◌≡◌, ◌≤◌, ◌<◌, IfOk, IfSome, HoldsAt, length, vec_capacity, []};
ghost use Rattle.table_shared.specs.Lineages.{IsOpen, AreRoomy};

use crate::lineage::slot::Slot;
use std::alloc::{AllocError, Allocator};
use table_cell::{Home, Homed, Word};
use table_generations::atomic_value::AtomicValue;
use table_generations::fixed::Generation;

/// The greatest number of generations that are made after a table was shared. Each has twice the buckets of the one before and
/// the first has at least 16, so the 60th has at least 2^63.
const LATER: usize = 60;

/// A word for each later generation, and a vector with room to take the generations out again.
#[derive(Drop)]
pub(crate) struct Later<T: AtomicValue, A: Allocator + Copy> {
    pub(crate) alloc: A,
    pub(crate) words: Vec<Word<Generation<T, A>, A>, A>,
    pub(crate) room: Vec<Box<Generation<T, A>, A>, A>,
}

impl<T: AtomicValue, A: Allocator + Copy> Homed for Later<T, A> {
    ghost fits = { λ l h. AreRoomy h l.alloc l.words.items l.room.items (vec_capacity l.room) };
}

impl<T: AtomicValue, A: Allocator + Copy> Later<T, A> {
    /// Makes the words, none of which is set. Allocates twice.
    pub(crate) fn new(alloc: A, home: &Home) -> Result<Self, AllocError>
        ensures roomy { IfOk result (λ l. AreRoomy home.now.id alloc l.words.items l.room.items
            (vec_capacity l.room)) }
        ensures from { IfOk result (λ l. l.alloc ≡ alloc) }
    {
        let mut words = Vec::with_capacity(alloc, LATER)?;
        let room = Vec::with_capacity(alloc, LATER)?;
        for _made in 0..LATER {
            words.push_reserved(Word::new(&alloc, home));
        }
        Ok(Later { alloc, words, room })
    }

    /// Returns the word of the later generation of this index, or `None` if there are not that many words.
    pub(crate) fn slot(&self, home: &Home, index: usize) -> Option<Slot<'_, Generation<T, A>, A>>
        requires { AreRoomy home.now.id self.now.alloc self.now.words.items self.now.room.items
            (vec_capacity self.now.room) }
        ensures open { IfSome result (λ s. IsOpen home.now.id s.from s) }
        ensures within { IfSome result (λ s. index < length self.now.words.items) }
        ensures there { IfSome result (λ s. HoldsAt (λ w. w ≡ s) self.now.words.items index) }
    {
        // Only the contract uses it.
        let _home = home;
        let word = self.words.get(index)?;
        Some(Slot::of(self.alloc, word))
    }
}
