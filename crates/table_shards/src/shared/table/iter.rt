//! Iteration by reference over the shards of a table that threads share.
ghost use Rattle.std.specs.Prelude.{◌≡◌};
ghost use Rattle.std.specs.Iterator.{at_most};
ghost use Rattle.table_shards.specs.SharedShards.{WalksOn, IsInFirst, steps_left};

use crate::shared::table::ShardedLockFreeRawTable;
use std::alloc::{Allocator, Global};
use std::iter::FusedIterator;
use std::marker::Model;
use table_generations::atomic_value::AtomicValue;
use table_shared as raw;
use table_shared::LockFreeRawTable;

/// An iterator over the targets of the entries of a table's shards, shard by shard. The iterator of a shard is made after that of
/// the one before has ended. A contract sees the shards that are still to come, and the iterator of the current one.
#[derive(Drop)]
pub struct Iter<'a, T: AtomicValue, const SHARDS: usize, A: Allocator + Copy = Global> {
    walk: raw::Iter<'a, T, A>,
    ahead: &'a [LockFreeRawTable<T, A>],
}

impl<'a, T: AtomicValue, const SHARDS: usize, A: Allocator + Copy> Model
    for Iter<'a, T, SHARDS, A> {
    ghost use Rattle.std.specs.Prelude.{◌^◌, ◌<◌};
    ghost use Rattle.table_shards.specs.SharedShards.{ShardWalk};

    ghost Value = { ShardWalk T };

    ghost view = { λ it. record { ahead = it.ahead.now; walk = it.walk } };

    ghost invariant = { λ it. it.walk.left < 2 ^ 64 };
}

impl<'a, V: 'a, T: AtomicValue<Target = V>, const SHARDS: usize, A: Allocator + Copy> Iterator
    for Iter<'a, T, SHARDS, A> {
    type Item = &'a V;

    ghost next_gives = { WalksOn T.target };

    ghost remaining = { λ it. at_most (steps_left it) };

    /// Returns the target of the next entry, or `None` at the end.
    fn next(&mut self) -> Option<&'a V> {
        loop {
            if let Some(target) = self.walk.next() {
                return Some(target);
            }
            let (shard, ahead) = self.ahead.split_first()?;
            self.ahead = ahead;
            self.walk = shard.iter();
        }
    }
}

impl<'a, V: 'a, T: AtomicValue<Target = V>, const SHARDS: usize, A: Allocator + Copy> FusedIterator
    for Iter<'a, T, SHARDS, A> {}

impl<T: AtomicValue, const SHARDS: usize, A: Allocator + Copy> ShardedLockFreeRawTable<
    T,
    SHARDS,
    A,
> {
    /// Returns an iterator over the targets of the entries, from the first shard to the last. Takes no lock and does not
    /// allocate.
    pub fn iter(&self) -> Iter<'_, T, SHARDS, A>
        ensures begins { IsInFirst self.now result }
    {
        match self.shards.as_slice().split_first() {
            Some((shard, ahead)) => Iter {
                walk: shard.iter(),
                ahead,
            },
            None => unreachable!(),
        }
    }
}

impl<'a, V: 'a, T: AtomicValue<Target = V>, const SHARDS: usize, A: Allocator + Copy> IntoIterator
    for &'a ShardedLockFreeRawTable<T, SHARDS, A> {
    type Item = &'a V;

    type IntoIter = Iter<'a, T, SHARDS, A>;

    ghost into_iter_gives = { λ t it. IsInFirst t.now it };

    /// Returns an iterator over the targets of the entries, from the first shard to the last. Takes no lock and does not
    /// allocate.
    fn into_iter(self) -> Iter<'a, T, SHARDS, A> {
        self.iter()
    }
}
