//! Functions that make new single-owner tables, one for each number of shards.
use lock_free_hashtable::AtomicValue;
use lock_free_hashtable::sharded::HeldShardedTable;
use std::alloc::Global;
use testkit::refusing::Refusing;

/// Makes a table of boxed numbers over two shards, which requests its memory from this heap.
pub fn two_shards_of(heap: &Refusing<Global>) -> HeldShardedTable<Box<u64>, 2, &Refusing<Global>> {
    HeldShardedTable::new(heap)
}

pub fn one_shard<T: AtomicValue>(alloc: Global) -> HeldShardedTable<T, 1> {
    HeldShardedTable::new(alloc)
}

pub fn two_shards<T: AtomicValue>(alloc: Global) -> HeldShardedTable<T, 2> {
    HeldShardedTable::new(alloc)
}

pub fn four_shards<T: AtomicValue>(alloc: Global) -> HeldShardedTable<T, 4> {
    HeldShardedTable::new(alloc)
}

pub fn eight_shards<T: AtomicValue>(alloc: Global) -> HeldShardedTable<T, 8> {
    HeldShardedTable::new(alloc)
}

pub fn sixteen_shards<T: AtomicValue>(alloc: Global) -> HeldShardedTable<T, 16> {
    HeldShardedTable::new(alloc)
}
