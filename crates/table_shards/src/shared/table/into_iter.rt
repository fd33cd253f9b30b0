//! Iteration by value over a table over shards that threads shared.
ghost use Rattle.std.specs.Prelude.{◌≡◌, ◌<◌, length, slice_index_or, slice_set, []};
ghost use Rattle.std.specs.Iterator.{YieldsFirst, item_count};
ghost use Rattle.table_shards.specs.SharedShards.{GivesAt, TakesOne};

use crate::shared::table::ShardedLockFreeRawTable;
use std::alloc::{Allocator, Global};
use std::iter::FusedIterator;
use std::marker::Model;
use std::{array, mem};
use table_generations::atomic_value::AtomicValue;
use table_shared as raw;
use table_shared::LockFreeRawTable;

/// An iterator over the values of a table's shards, each once, shard by shard. A contract sees the list of the values that are
/// left. Dropping the iterator drops them.
#[derive(Drop)]
pub struct IntoIter<T: AtomicValue, const SHARDS: usize, A: Allocator + Copy = Global> {
    shards: [raw::IntoIter<T, A>; SHARDS],
    /// The number of the first shard that may have values left.
    first: usize,
}

impl<T: AtomicValue, const SHARDS: usize, A: Allocator + Copy> Model for IntoIter<T, SHARDS, A> {
    ghost use Rattle.std.specs.Prelude.{◌≡◌, List, length, drop};
    ghost use Rattle.std.specs.List.{flat_map};

    ghost Value = { List T };

    ghost view = { λ it. flat_map (λ shard. shard) (drop it.first it.shards) };

    ghost invariant = { λ it. length it.shards ≡ SHARDS };
}

/// Returns the next value of the shard of this number, if one is left.
fn next_of<T: AtomicValue, A: Allocator + Copy>(
    shards: &mut [raw::IntoIter<T, A>],
    shard: usize,
) -> Option<T>
    requires { shard < length shards.old }
    ensures { GivesAt shard shards.old result shards.new }
{
    shards[shard].next()
}

impl<T: AtomicValue, const SHARDS: usize, A: Allocator + Copy> Iterator for IntoIter<T, SHARDS, A> {
    type Item = T;

    ghost next_gives = { YieldsFirst (λ rest. rest) };

    ghost remaining = { item_count (λ rest. rest) };

    /// Returns the next value, or `None` at the end.
    fn next(&mut self) -> Option<T> {
        while self.first < SHARDS {
            if let Some(value) = next_of(self.shards.as_mut_slice(), self.first) {
                return Some(value);
            }
            self.first += 1;
        }
        None
    }
}

impl<T: AtomicValue, const SHARDS: usize, A: Allocator + Copy> FusedIterator
    for IntoIter<T, SHARDS, A> {}

/// Consumes the shard of this number, leaves an empty one, and returns an iterator over its values.
fn take_apart<T: AtomicValue, A: Allocator + Copy>(
    shards: &mut [LockFreeRawTable<T, A>],
    shard: usize,
) -> raw::IntoIter<T, A>
    requires { shard < length shards.old }
    ensures { TakesOne shard shards.old shards.new }
{
    let empty = shards[shard].new_like();
    mem::replace(&mut shards[shard], empty).into_iter()
}

impl<T: AtomicValue, const SHARDS: usize, A: Allocator + Copy> IntoIter<T, SHARDS, A> {
    /// Makes an iterator over the values of these shards, and leaves empty ones.
    fn of_tables(tables: &mut [LockFreeRawTable<T, A>]) -> Self
        requires { length tables.old ≡ SHARDS }
    {
        let shards = array::from_fn(|shard| take_apart(tables, shard));
        IntoIter { shards, first: 0 }
    }
}

impl<T: AtomicValue, const SHARDS: usize, A: Allocator + Copy> IntoIterator
    for ShardedLockFreeRawTable<T, SHARDS, A> {
    type Item = T;

    type IntoIter = IntoIter<T, SHARDS, A>;

    /// Consumes the table and returns an iterator over the values of its shards. Does not allocate.
    fn into_iter(self) -> IntoIter<T, SHARDS, A> {
        let ShardedLockFreeRawTable { mut shards } = self;
        IntoIter::of_tables(shards.as_mut_slice())
    }
}
