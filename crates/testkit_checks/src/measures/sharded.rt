//! Tables over sixteen shards as sets of numbers: a single-owner one, and one that threads share.

use crate::measures::numbers::{HeldTable, NumberTable, Numbers};
use crate::measures::shared::SharedTable;
use lock_free_hashtable::sharded::{HeldShardedTable, ShardedLockFreeRawTable};
use std::alloc::Global;
use std::sync::Wait;
use table_terms::law::{NumberLaw, hash_number};
use testkit::counting::asked::{hash, same};
use testkit::counting::made::Made;

/// The number of shards.
const SHARDS: usize = 16;

/// A single-owner table over shards as a set of numbers, stored as `V`.
pub type HeldShards<V> = Numbers<HeldShardedTable<V, SHARDS>>;

impl<V: Made<Target = u64>> NumberTable for HeldShardedTable<V, SHARDS> {
    type Value = V;

    fn empty(alloc: Global) -> Self {
        HeldShardedTable::new(alloc)
    }

    fn has(&self, number: u64) -> bool {
        self.lookup_alone::<NumberLaw, _>(hash_number(number), |entry: &u64| *entry == number)
            .is_some()
    }
}

impl<V: Made<Target = u64>> HeldTable for HeldShardedTable<V, SHARDS> {
    fn place(&mut self, number: u64, value: V) -> bool {
        let placed = self.place_alone::<NumberLaw, _, _>(hash_number(number), value, &same, &hash);
        matches!(placed, Ok((_, None)))
    }
}

/// A shared table over shards as a set of numbers, stored as `V`.
pub type SharedShards<V> = Numbers<ShardedLockFreeRawTable<V, SHARDS>>;

impl<V: Made<Target = u64> + Send + Sync> NumberTable for ShardedLockFreeRawTable<V, SHARDS> {
    type Value = V;

    fn empty(alloc: Global) -> Self {
        ShardedLockFreeRawTable::new(alloc)
    }

    fn has(&self, number: u64) -> bool {
        self.lookup(hash_number(number), |entry: &u64| *entry == number)
            .is_some()
    }
}

impl<V: Made<Target = u64> + Send + Sync> SharedTable for ShardedLockFreeRawTable<V, SHARDS> {
    fn place<R: Wait>(&self, rt: &R, number: u64, value: V) -> bool {
        let placed = self.insert(rt, hash_number(number), value, same, hash);
        matches!(placed, Ok((_, None)))
    }
}
