//! The conversion of a single-owner table over shards into one that threads share.
ghost use Rattle.std.specs.Prelude.{◌≡◌, ◌<◌, length, map};
ghost use Rattle.std.specs.Int.{IsPowerOfTwo};
ghost use Rattle.table_shards.specs.SharedShards.{SharesOne};

use crate::sharded::HeldShardedTable;
use crate::shared::sharing::Share;
use crate::shared::table::ShardedLockFreeRawTable;
use std::alloc::Allocator;
use std::{array, mem};
use table_generations::atomic_value::AtomicValue;
use table_held::raw::HeldRawTable;
use table_shared::LockFreeRawTable;

/// Takes out the shard of this number, turns it into a shared one, and leaves an empty one.
fn share_one<T: AtomicValue, A: Allocator + Copy>(
    shards: &mut [HeldRawTable<T, A>],
    shard: usize,
) -> LockFreeRawTable<T, A>
    requires { shard < length shards.old }
    ensures { SharesOne shard shards.old result shards.new }
{
    let empty = shards[shard].new_like();
    mem::replace(&mut shards[shard], empty).share()
}

impl<T: AtomicValue, const SHARDS: usize, A: Allocator + Copy> ShardedLockFreeRawTable<
    T,
    SHARDS,
    A,
> {
    /// Makes a shared table of these shards, in order, and leaves empty ones.
    fn of_held(held: &mut [HeldRawTable<T, A>]) -> Self
        requires power { IsPowerOfTwo SHARDS }
        requires shards { length held.old ≡ SHARDS }
        ensures first { map (λ t. t.first_capacity) result ≡ map (λ t. t.first_capacity) held.old }
        ensures shared { map (λ t. t.shared) result ≡ map (λ t. t.generations) held.old }
    {
        let shards = array::from_fn(|shard| share_one(held, shard));
        ShardedLockFreeRawTable { shards }
    }
}

impl<T: AtomicValue, const SHARDS: usize, A: Allocator + Copy> Share
    for HeldShardedTable<T, SHARDS, A> {
    type Value = T;

    type Shared = ShardedLockFreeRawTable<T, SHARDS, A>;

    ghost capacities = { λ ts. map (λ t. t.first_capacity) ts };

    ghost rows = { λ ts. map (λ t. t.generations) ts };

    ghost shared_capacities = { λ ts. map (λ t. t.first_capacity) ts };

    ghost shared_rows = { λ ts. map (λ t. t.shared) ts };

    /// Turns the table into one that threads share, shard by shard, as `share` of a `HeldRawTable` does. Does not allocate and
    /// reads no bucket.
    fn share(self) -> ShardedLockFreeRawTable<T, SHARDS, A>
        ensures first { map (λ t. t.first_capacity) result ≡ map (λ t. t.first_capacity) self }
        ensures shared { map (λ t. t.shared) result ≡ map (λ t. t.generations) self }
    {
        let mut shards = self.into_shards();
        ShardedLockFreeRawTable::of_held(shards.as_mut_slice())
    }
}
