//! Functions that make new tables, one for each number of shards. Each number is a power of two, as `new` requires.
ghost use Rattle.table_terms.specs.Capacities.{IsFirstCapacity};

use lock_free_hashtable::sharded::ShardedLockFreeRawTable;
use std::alloc::Global;
use table_generations::atomic_value::AtomicValue;
use testkit::refusing::Refusing;

/// Makes a table over eight shards.
pub(crate) fn eight<T: AtomicValue>(alloc: Global) -> ShardedLockFreeRawTable<T, 8> {
    ShardedLockFreeRawTable::new(alloc)
}

/// Makes a table over eight shards, each of which has `first_capacity` buckets at first.
pub(crate) fn eight_of(alloc: Global, first_capacity: usize) -> ShardedLockFreeRawTable<Box<u64>, 8>
    requires { IsFirstCapacity first_capacity }
{
    ShardedLockFreeRawTable::with_first_capacity(alloc, first_capacity)
}

/// Makes a table over one shard.
pub(crate) fn one(alloc: Global) -> ShardedLockFreeRawTable<Box<u64>, 1> {
    ShardedLockFreeRawTable::new(alloc)
}

/// Makes a table over sixteen shards.
pub(crate) fn sixteen(alloc: Global) -> ShardedLockFreeRawTable<Box<u64>, 16> {
    ShardedLockFreeRawTable::new(alloc)
}

/// Makes a table over two shards, which requests its memory from `alloc`.
pub(crate) fn two(
    alloc: &Refusing<Global>,
) -> ShardedLockFreeRawTable<Box<u64>, 2, &Refusing<Global>> {
    ShardedLockFreeRawTable::new(alloc)
}
