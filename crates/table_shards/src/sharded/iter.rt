//! Iteration by reference over a single-owner table over shards.
ghost use Rattle.std.specs.Prelude.{◌≡◌, length, map, IfSome};
ghost use Rattle.std.specs.Iterator.{YieldsFirstRef, item_count, at_most, UpTo};
ghost use Rattle.std.specs.Iterator.SizeHint.{IsWithinCount, IsExactHint};
ghost use Rattle.table_held.specs.Shown.{WalksAsList};
ghost use Rattle.table_shards.specs.Shards.{sharded, entries};

use super::HeldShardedTable;
use super::hint::hint_with;
use std::alloc::{Allocator, Global};
use std::iter::FusedIterator;
use std::marker::Model;
use table_generations::atomic_value::AtomicValue;
use table_held::raw;
use table_held::raw::HeldRawTable;

/// An iterator over the targets of the entries of a table over shards, each once, shard by shard. A contract sees it as the list
/// of the entries that are left.
#[derive(Drop)]
pub struct HeldIter<'a, T: AtomicValue, const SHARDS: usize, A: Allocator + Copy = Global> {
    walk: raw::HeldIter<'a, T, A>,
    later: &'a [HeldRawTable<T, A>],
}

impl<'a, T: AtomicValue, const SHARDS: usize, A: Allocator + Copy> Model
    for HeldIter<'a, T, SHARDS, A> {
    ghost use Rattle.std.specs.Prelude.{List};
    ghost use Rattle.table_shards.specs.ShardWalks.{left_of};

    ghost Value = { List T };

    ghost view = { λ it. left_of it.walk it.later.now };
}

impl<'a, V: 'a, T: AtomicValue<Target = V>, const SHARDS: usize, A: Allocator + Copy> Iterator
    for HeldIter<'a, T, SHARDS, A> {
    type Item = &'a V;

    ghost next_gives = { YieldsFirstRef (λ rest. map T.target rest) };

    ghost remaining = { item_count (λ rest. rest) };

    /// Returns the target of the next entry, or `None` at the end.
    fn next(&mut self) -> Option<&'a V> {
        loop {
            if let Some(target) = self.walk.next() {
                return Some(target);
            }
            let (shard, later) = self.later.split_first()?;
            self.walk = shard.iter_alone();
            self.later = later;
        }
    }

    /// Returns the exact number of entries that are left; if that passes `usize::MAX`, returns `usize::MAX` and no upper bound.
    fn size_hint(&self) -> (usize, Option<usize>)
        ensures lower { IsWithinCount result.0 (at_most (length self.now)) }
        ensures upper { IfSome result.1 (UpTo (at_most (length self.now))) }
        ensures exact { IsExactHint result (length self.now) }
    {
        hint_with(self.walk.len(), self.later)
    }
}

impl<'a, V: 'a, T: AtomicValue<Target = V>, const SHARDS: usize, A: Allocator + Copy> FusedIterator
    for HeldIter<'a, T, SHARDS, A> {}

impl<T: AtomicValue, const SHARDS: usize, A: Allocator + Copy> HeldShardedTable<T, SHARDS, A> {
    /// Returns an iterator over the targets of the entries, each once, from the first shard to the last. Does not allocate.
    pub fn iter_alone(&self) -> HeldIter<'_, T, SHARDS, A>
        ensures entries { result ≡ entries self.now }
        ensures as_list { WalksAsList sharded self.now result }
    {
        match self.shards.as_slice().split_first() {
            Some((first, later)) => HeldIter {
                walk: first.iter_alone(),
                later,
            },
            None => unreachable!(),
        }
    }
}

impl<'a, V: 'a, T: AtomicValue<Target = V>, const SHARDS: usize, A: Allocator + Copy> IntoIterator
    for &'a HeldShardedTable<T, SHARDS, A> {
    type Item = &'a V;

    type IntoIter = HeldIter<'a, T, SHARDS, A>;

    ghost into_iter_gives = { λ t it. (it ≡ entries t.now) × WalksAsList sharded t.now it };

    /// Returns an iterator over the targets of the entries, each once, from the first shard to the last. Does not allocate.
    fn into_iter(self) -> HeldIter<'a, T, SHARDS, A> {
        self.iter_alone()
    }
}
