//! A table over shards that threads share.
ghost use Rattle.std.specs.Prelude.{◌≡◌, ◌<◌, IfSome, true};
ghost use Rattle.std.specs.Fn.{FnReturnsAt, FnReturnsAtPair};
ghost use Rattle.std.specs.Int.{IsPowerOfTwo};
ghost use Rattle.table_terms.specs.Capacities.{IsFirstCapacity};
ghost use Rattle.table_shared.specs.Inserts.{Answers, Places, Finds, GivesBack};

mod counts;
mod into_iter;
mod iter;
mod share;

use crate::sharded::HeldShardedTable;
use counts::capped_total;
pub use into_iter::IntoIter;
pub use iter::Iter;
use std::alloc::{Allocator, Global};
use std::array;
use std::marker::Model;
use std::sync::Wait;
use table_cell::Low;
use table_generations::atomic_value::AtomicValue;
use table_shared::LockFreeRawTable;

/// An insertion-only hash table over `SHARDS` raw tables that threads share. A value lies in the shard of its hash, so inserts
/// into different shards take different locks. A look-up takes no lock.
///
/// `SHARDS` is a power of two, 1 included. Each call does what the raw table's call does, on the shard of the hash or on all
/// shards, and promises the same.
pub struct ShardedLockFreeRawTable<
    T: AtomicValue,
    const SHARDS: usize,
    A: Allocator + Copy = Global,
> {
    shards: [LockFreeRawTable<T, A>; SHARDS],
}

impl<T: AtomicValue, const SHARDS: usize, A: Allocator + Copy> Model
    for ShardedLockFreeRawTable<T, SHARDS, A> {
    ghost use Rattle.std.specs.Prelude.{◌≡◌, List, length};
    ghost use Rattle.std.specs.Int.{IsPowerOfTwo};
    ghost use Rattle.table_shared.specs.Tables.{SharedTable};

    ghost Value = { List (SharedTable T) };

    ghost view = { λ t. t.shards };

    ghost invariant = { λ t. IsPowerOfTwo SHARDS × (length t.shards ≡ SHARDS) };
}

impl<T: AtomicValue, const SHARDS: usize, A: Allocator + Copy> ShardedLockFreeRawTable<
    T,
    SHARDS,
    A,
> {
    ghost use Rattle.table_shards.specs.Shards.{shard_of as number_of_shard};
    ghost use Rattle.table_shards.specs.SharedShards.{shard_at, AreEmptyShards};

    /// Makes an empty table. The first generation of each shard will have 16 buckets. The caller shows that `SHARDS` is a power
    /// of two. Does not allocate.
    pub fn new(alloc: A) -> Self
        requires { IsPowerOfTwo SHARDS }
        ensures { AreEmptyShards SHARDS 16 result }
    {
        // Does not call `with_first_capacity`: no proof shows the caller of that function that this many shards fit in memory.
        let like = LockFreeRawTable::<T, A>::new(alloc);
        let shards = array::from_fn(|_| like.new_like());
        ShardedLockFreeRawTable { shards }
    }

    /// Makes an empty table. The first generation of each shard will have `first_capacity` buckets. The caller shows that
    /// `SHARDS` is a power of two, and that `is_first_capacity` holds of `first_capacity`. Does not allocate.
    pub fn with_first_capacity(alloc: A, first_capacity: usize) -> Self
        requires shards { IsPowerOfTwo SHARDS }
        requires first { IsFirstCapacity first_capacity }
        ensures { AreEmptyShards SHARDS first_capacity result }
    {
        let like = LockFreeRawTable::<T, A>::with_first_capacity(alloc, first_capacity);
        let shards = array::from_fn(|_| like.new_like());
        ShardedLockFreeRawTable { shards }
    }

    /// Returns the number of the shard of a hash, which its top bits determine: `hash * SHARDS / 2^64`, rounded down.
    pub fn shard_of(hash: u64) -> usize
        ensures is { result ≡ number_of_shard SHARDS hash }
        ensures inside { 0 < SHARDS → result < SHARDS }
    {
        HeldShardedTable::<T, SHARDS, A>::shard_of(hash)
    }

    /// Returns the shard of a hash: the one raw table that `insert` and `lookup` with this hash use.
    pub fn shard(&self, hash: u64) -> &LockFreeRawTable<T, A>
        ensures of_hash { result.now ≡ shard_at self.now (number_of_shard SHARDS hash) }
    {
        let shards = self.shards.as_slice();
        &shards[ShardedLockFreeRawTable::<T, SHARDS, A>::shard_of(hash)]
    }

    /// Returns the target of an entry that the test accepts, or `None`. It reads only the shard of the hash; see
    /// `LockFreeRawTable::lookup`. Any thread may call it at any time. It takes no lock, does not allocate, and always returns.
    pub fn lookup<F: Fn(&T::Target) -> bool>(&self, hash: u64, test: F) -> Option<&T::Target>
        requires callable { F.IsAlwaysCallable test }
        ensures accepted { IfSome result (λ found. FnReturnsAt F.Fn test found.now true) }
    {
        self.lookup_in(self.shard(hash), hash, test)
    }

    /// Looks up in this shard, which has to be that of the hash.
    fn lookup_in<'a, F: Fn(&T::Target) -> bool>(
        &self,
        shard: &'a LockFreeRawTable<T, A>,
        hash: u64,
        test: F,
    ) -> Option<&'a T::Target>
        requires of_hash { shard.now ≡ shard_at self.now (number_of_shard SHARDS hash) }
        requires callable { F.IsAlwaysCallable test }
        ensures accepted { IfSome result (λ found. FnReturnsAt F.Fn test found.now true) }
    {
        shard.lookup(hash, test)
    }

    /// Returns the number of entries counted so far, shard by shard, or `usize::MAX` if there are more. Takes no lock.
    pub fn len(&self) -> usize {
        let shards = self.shards.as_slice();
        capped_total(shards.iter().map(|shard| shard.len()))
    }

    /// Returns whether no entry is counted so far in any shard. Takes no lock.
    pub fn is_empty(&self) -> bool {
        self.len() == 0
    }
}

impl<T: AtomicValue, const SHARDS: usize, A: Low + Copy> ShardedLockFreeRawTable<T, SHARDS, A> {
    ghost use Rattle.table_shards.specs.Shards.{shard_of as number_of_shard};
    ghost use Rattle.table_shards.specs.SharedShards.{shard_at};

    /// Inserts the value into the shard of its hash unless `eq` accepts an entry there as equal, and returns the target of the
    /// entry. Arguments and results are those of `LockFreeRawTable::insert`. A refused value is returned and is not in the table.
    ///
    /// Any thread may call it at any time. It takes the lock of the shard and may wait for it, so no closure may insert into the
    /// same table. It allocates a block for the value, and when the shard grows.
    pub fn insert<R: Wait, E: Fn(&T::Target, &T::Target) -> bool, H: Fn(&T::Target) -> u64>(
        &self,
        rt: &R,
        hash: u64,
        value: T,
        eq: E,
        hash_fn: H,
    ) -> Result<(&T::Target, Option<T>), T>
        requires eq_callable { E.IsAlwaysCallable eq }
        requires hash_callable { H.IsAlwaysCallable hash_fn }
        ensures placed { Places T.target value result }
        ensures found { Finds (FnReturnsAtPair E.Fn eq (T.target value)) result }
        ensures back { GivesBack value result }
    {
        self.insert_in(self.shard(hash), rt, hash, value, eq, hash_fn)
    }

    /// Inserts into this shard, which has to be that of the hash.
    fn insert_in<'a, R: Wait, E: Fn(&T::Target, &T::Target) -> bool, H: Fn(&T::Target) -> u64>(
        &self,
        shard: &'a LockFreeRawTable<T, A>,
        rt: &R,
        hash: u64,
        value: T,
        eq: E,
        hash_fn: H,
    ) -> Result<(&'a T::Target, Option<T>), T>
        requires of_hash { shard.now ≡ shard_at self.now (number_of_shard SHARDS hash) }
        requires eq_callable { E.IsAlwaysCallable eq }
        requires hash_callable { H.IsAlwaysCallable hash_fn }
        ensures { Answers T.target (FnReturnsAtPair E.Fn eq (T.target value)) value result }
    {
        shard.insert(rt, hash, value, eq, hash_fn)
    }
}

impl<T: AtomicValue, const SHARDS: usize, A: Allocator + Copy> Drop
    for ShardedLockFreeRawTable<T, SHARDS, A> {
    /// Drops the shards, each as a raw table is dropped.
    fn drop(self) {
        let ShardedLockFreeRawTable { shards } = self;
        drop(shards);
    }
}
