//! Iteration by reference over a shared table.
ghost use Rattle.std.specs.Prelude.{◌≡◌, ◌^◌, ◌<◌};
ghost use Rattle.std.specs.Iterator.{at_most};
ghost use Rattle.table_shared.specs.Walks.{WalksOn};

use crate::table::LockFreeRawTable;
use std::alloc::{Allocator, Global};
use std::iter::FusedIterator;
use std::marker::Model;
use table_cell::Home;
use table_generations::atomic_value::AtomicValue;
use table_generations::fixed::Generation;

/// An iterator over the targets of a table's entries. It stays with the generation that was current when it was made, and reads
/// each bucket when it comes to it. A contract sees the number of buckets that are left, and those of their entries that were set
/// through `&mut`, by the owner before the table was shared or by growth: each of these is returned, in order.
#[derive(Drop)]
pub struct Iter<'a, T: AtomicValue, A: Allocator + Copy = Global> {
    home: &'a Home,
    generation: Option<&'a Generation<T, A>>,
    left: usize,
}

impl<'a, T: AtomicValue, A: Allocator + Copy> Model for Iter<'a, T, A> {
    ghost use Rattle.table_shared.specs.Walks.{WalkView, walk_of, IsWithin};

    ghost Value = { WalkView T };

    ghost view = { λ it. walk_of it.generation it.left };

    ghost invariant = { λ it. IsWithin it.home.now.id it.generation it.left };
}

impl<'a, V: 'a, T: AtomicValue<Target = V>, A: Allocator + Copy> Iterator for Iter<'a, T, A> {
    type Item = &'a V;

    ghost next_gives = { WalksOn T.target };

    ghost remaining = { λ it. at_most it.left };

    /// Returns the target of the next entry, or `None` at the end.
    fn next(&mut self) -> Option<&'a V> {
        let generation = self.generation?;
        while self.left > 0 {
            let index = generation.capacity() - self.left;
            self.left -= 1;
            let mut note = generation.note_at(index);
            if let Some(entry) = generation.entry_at(self.home, index, &mut note) {
                return Some(entry.value.deref());
            }
        }
        None
    }
}

impl<'a, V: 'a, T: AtomicValue<Target = V>, A: Allocator + Copy> FusedIterator for Iter<'a, T, A> {}

impl<T: AtomicValue, A: Allocator + Copy> LockFreeRawTable<T, A> {
    /// Returns an iterator over the targets of the entries. Takes no lock and does not allocate.
    pub fn iter(&self) -> Iter<'_, T, A>
        ensures fits { result.left < 2 ^ 64 }
    {
        let (generation, left) = match self.current(&mut self.note()) {
            Some(current) => (Some(current.generation), current.generation.capacity()),
            None => (None, 0),
        };
        Iter {
            home: &self.home,
            generation,
            left,
        }
    }
}

impl<'a, V: 'a, T: AtomicValue<Target = V>, A: Allocator + Copy> IntoIterator
    for &'a LockFreeRawTable<T, A> {
    type Item = &'a V;

    type IntoIter = Iter<'a, T, A>;

    /// Returns an iterator over the targets of the entries. Takes no lock and does not allocate.
    fn into_iter(self) -> Iter<'a, T, A> {
        self.iter()
    }
}
