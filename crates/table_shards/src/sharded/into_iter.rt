//! Iteration by value over a single-owner table over shards.
ghost use Rattle.std.specs.Prelude.{◌≡◌, length, IfSome};
ghost use Rattle.std.specs.Iterator.{item_count, at_most, UpTo};
ghost use Rattle.std.specs.Iterator.SizeHint.{IsWithinCount, IsExactHint};
ghost use Rattle.table_shards.specs.Shards.{sharded};
ghost use Rattle.table_shards.specs.ShardWalks.{HandsOutOne};
ghost use Rattle.table_held.specs.Shown.{GivesEntries};

use super::HeldShardedTable;
use super::hint::hint_with;
use super::later::Later;
use std::alloc::{Allocator, Global};
use std::iter::FusedIterator;
use std::marker::Model;
use table_generations::atomic_value::AtomicValue;
use table_held::raw;

/// An iterator over the values of a table over shards, each once, shard by shard. A shard is taken apart only after all values of
/// the one before were returned. A contract sees the list of the values that are left; their order means nothing. Dropping the
/// iterator drops the values that are left.
#[derive(Drop)]
pub struct IntoIter<T: AtomicValue, const SHARDS: usize, A: Allocator + Copy = Global> {
    walk: raw::IntoIter<T, A>,
    later: Later<T, SHARDS, A>,
}

impl<T: AtomicValue, const SHARDS: usize, A: Allocator + Copy> Model for IntoIter<T, SHARDS, A> {
    ghost use Rattle.std.specs.Prelude.{List};
    ghost use Rattle.table_shards.specs.ShardWalks.{left_of};

    ghost Value = { List T };

    ghost view = { λ it. left_of it.walk it.later };
}

impl<T: AtomicValue, const SHARDS: usize, A: Allocator + Copy> Iterator for IntoIter<T, SHARDS, A> {
    type Item = T;

    ghost next_gives = { HandsOutOne };

    ghost remaining = { item_count (λ rest. rest) };

    /// Returns the next value, or `None` at the end.
    fn next(&mut self) -> Option<T> {
        loop {
            if let Some(value) = self.walk.next() {
                return Some(value);
            }
            self.walk = self.later.next_shard()?.into_iter();
        }
    }

    /// Returns the exact number of values that are left; if that passes `usize::MAX`, returns `usize::MAX` and no upper bound.
    fn size_hint(&self) -> (usize, Option<usize>)
        ensures lower { IsWithinCount result.0 (at_most (length self.now)) }
        ensures upper { IfSome result.1 (UpTo (at_most (length self.now))) }
        ensures exact { IsExactHint result (length self.now) }
    {
        hint_with(self.walk.len(), self.later.as_slice())
    }
}

impl<T: AtomicValue, const SHARDS: usize, A: Allocator + Copy> FusedIterator
    for IntoIter<T, SHARDS, A> {}

impl<T: AtomicValue, const SHARDS: usize, A: Allocator + Copy> IntoIterator
    for HeldShardedTable<T, SHARDS, A> {
    type Item = T;

    type IntoIter = IntoIter<T, SHARDS, A>;

    ghost into_iter_gives = { λ t it. GivesEntries sharded t it };

    /// Consumes the table and returns an iterator over its values, from the first shard to the last. Does not allocate.
    fn into_iter(self) -> IntoIter<T, SHARDS, A> {
        let HeldShardedTable { shards } = self;
        let mut later = Later { shards, begun: 0 };
        match later.next_shard() {
            Some(first) => IntoIter {
                walk: first.into_iter(),
                later,
            },
            None => unreachable!(),
        }
    }
}
