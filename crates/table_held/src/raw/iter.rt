//! Iteration by reference over a single-owner table.
ghost use Rattle.std.specs.Prelude.{◌≡◌, ◌^◌, ◌<◌, length, map, Some, IfSome};
ghost use Rattle.std.specs.Iterator.{YieldsFirstRef, item_count, at_most, UpTo};
ghost use Rattle.std.specs.Iterator.SizeHint.{IsWithinCount};
ghost use Rattle.table_held.specs.Table.{entries};
ghost use Rattle.table_held.specs.Walks.{WalksAsList};

use crate::raw::HeldRawTable;
use std::alloc::{Allocator, Global};
use std::iter::FusedIterator;
use std::marker::Model;
use table_cell::Home;
use table_generations::atomic_value::AtomicValue;
use table_generations::fixed::Generation;

/// An iterator over the targets of a table's entries, each once, in the order of the buckets of the current generation. A
/// contract sees it as the list of the entries that are left.
#[derive(Drop)]
pub struct HeldIter<'a, T: AtomicValue, A: Allocator + Copy = Global> {
    home: &'a Home,
    current: &'a Generation<T, A>,
    index: usize,
    left: usize,
}

impl<'a, T: AtomicValue, A: Allocator + Copy> Model for HeldIter<'a, T, A> {
    ghost use Rattle.std.specs.Prelude.{◌≡◌, List, length};
    ghost use Rattle.table_held.specs.Walks.{shown_from};

    ghost Value = { List T };

    ghost view = { λ it. shown_from it.current.now.contents it.index };

    ghost invariant = { λ it. (it.current.now.home ≡ it.home.now.id)
        × (it.left ≡ length (shown_from it.current.now.contents it.index)) };
}

impl<'a, V: 'a, T: AtomicValue<Target = V>, A: Allocator + Copy> Iterator for HeldIter<'a, T, A> {
    type Item = &'a V;

    ghost next_gives = { YieldsFirstRef (λ rest. map T.target rest) };

    ghost remaining = { item_count (λ rest. rest) };

    /// Returns the target of the next entry, or `None` at the end.
    fn next(&mut self) -> Option<&'a V> {
        while self.index < self.current.capacity() {
            let index = self.index;
            self.index += 1;
            if let Some(entry) = self.current.entry_shown(self.home, index) {
                self.left -= 1;
                return Some(entry.value.deref());
            }
        }
        None
    }

    /// Returns the exact number of entries that are left, as both bounds.
    fn size_hint(&self) -> (usize, Option<usize>)
        ensures lower { IsWithinCount result.0 (at_most (length self.now)) }
        ensures upper { IfSome result.1 (UpTo (at_most (length self.now))) }
        ensures exact { result ≡ (length self.now, Some (length self.now)) }
    {
        (self.left, Some(self.left))
    }
}

impl<'a, V: 'a, T: AtomicValue<Target = V>, A: Allocator + Copy> ExactSizeIterator
    for HeldIter<'a, T, A> {
    /// Returns the exact number of entries that are left.
    fn len(&self) -> usize {
        self.left
    }
}

impl<'a, V: 'a, T: AtomicValue<Target = V>, A: Allocator + Copy> FusedIterator
    for HeldIter<'a, T, A> {}

impl<T: AtomicValue, A: Allocator + Copy> HeldRawTable<T, A> {
    /// Returns an iterator over the targets of the entries, each once. Does not allocate.
    pub fn iter_alone(&self) -> HeldIter<'_, T, A>
        ensures entries { result ≡ entries self.now }
        ensures fits { length result < 2 ^ 64 }
        ensures as_list { WalksAsList self.now result }
    {
        HeldIter {
            home: &self.home,
            current: &self.current,
            index: 0,
            left: self.len_alone(),
        }
    }
}

impl<'a, V: 'a, T: AtomicValue<Target = V>, A: Allocator + Copy> IntoIterator
    for &'a HeldRawTable<T, A> {
    type Item = &'a V;

    type IntoIter = HeldIter<'a, T, A>;

    ghost into_iter_gives = { λ t it. (it ≡ entries t.now) × (length it < 2 ^ 64) × WalksAsList t.now it };

    /// Returns an iterator over the targets of the entries, each once. Does not allocate.
    fn into_iter(self) -> HeldIter<'a, T, A> {
        self.iter_alone()
    }
}
