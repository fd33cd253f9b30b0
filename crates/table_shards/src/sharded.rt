//! A single-owner table over shards.
ghost use Rattle.std.specs.Prelude.{◌≡◌, ◌≢◌, ℕ, ◌*◌, ◌/◌, ◌^◌, ◌<◌, ◌≤◌, ◌↔◌, length, []};
ghost use Rattle.std.specs.Prelude.{map, min, IfOk, IfSome, IfNone, IsSome, IsTrue, option_copied};
ghost use Rattle.std.specs.Fn.{FnReturnsAt, FnReturnsAtPair};
ghost use Rattle.std.specs.Int.{IsPowerOfTwo};
ghost use Rattle.table_terms.specs.Capacities.{IsFirstCapacity};
ghost use Rattle.table_terms.specs.ListObject.{greatest_length};

mod alone;
mod hint;
mod into_iter;
mod iter;
mod later;
pub mod place;

pub use into_iter::IntoIter as HeldIntoIter;
pub use iter::HeldIter;
pub use place::ShardPlace;
use std::alloc::{Allocator, Global};
use std::array;
use std::marker::Model;
use table_generations::atomic_value::{AtomicValue, Law};
use table_held::alone::InsertAnswer;
use table_held::raw::HeldRawTable;

/// An insertion-only hash table over `SHARDS` raw tables, with one owner. A value lies in the shard of its hash.
///
/// `SHARDS` is a power of two, 1 included. Each call does what the raw table's call does, on the shard of the hash or on all
/// shards, and promises the same.
#[derive(Drop)]
pub struct HeldShardedTable<T: AtomicValue, const SHARDS: usize, A: Allocator + Copy = Global> {
    shards: [HeldRawTable<T, A>; SHARDS],
}

impl<T: AtomicValue, const SHARDS: usize, A: Allocator + Copy> Model
    for HeldShardedTable<T, SHARDS, A> {
    ghost use Rattle.std.specs.Prelude.{◌≡◌, List, length};
    ghost use Rattle.std.specs.Int.{IsPowerOfTwo};
    ghost use Rattle.table_shards.specs.Shards.{AreCounted};
    ghost use Rattle.table_held.specs.Table.{HeldTable};

    ghost Value = { List (HeldTable T) };

    ghost view = { λ t. t.shards };

    ghost invariant = { λ t. IsPowerOfTwo SHARDS × (length t.shards ≡ SHARDS) × AreCounted t.shards };
}

impl<T: AtomicValue, const SHARDS: usize, A: Allocator + Copy> HeldShardedTable<T, SHARDS, A> {
    ghost use Rattle.table_held.specs.Shown.{Stands, IsLater, KeepsPlaces, CountsAsList, PlacesAsList, LooksUpAsList};
    ghost use Rattle.table_held.specs.Shown.{ShowsAt, FindsOne, FindsNone, InsertKeeps, InsertMarks, InsertAnswers, ResultShows};
    ghost use Rattle.table_shards.specs.Shards.{sharded, entries, entry_at, marked, empty_shards, capped_sum, shard_at};
    ghost use Rattle.table_shards.specs.Shards.{AreCounted, AreLawful, AreLawfulForAll, HasFewBuckets, LivesInItsShard};
    ghost use Rattle.table_shards.specs.Inserted.{Inserted, InsertLeaves, InsertShows};
    ghost use Rattle.table_held.specs.Table.{capacity, all_buckets};
    ghost use Rattle.table_held.specs.Rests.{RestsAs};
    ghost use Rattle.table_shards.specs.Shards.{shard_of as number_of_shard};
    ghost use Rattle.table_shards.specs.contracts.sharded.HeldShardedTable.{the_row};
    ghost use Rattle.std.specs.Borrow.{sem};

    /// Makes an empty table. The first generation of each shard will have 16 buckets. The caller shows that `SHARDS` is a power
    /// of two. Does not allocate.
    pub fn new(alloc: A) -> Self
        requires { IsPowerOfTwo SHARDS }
        ensures empty { result ≡ empty_shards SHARDS 16 }
        ensures stands { Stands sharded result [] }
        ensures lawful { AreLawfulForAll T.target result }
    {
        // Does not call `with_first_capacity`: no proof shows the caller of that function that this many shards fit in memory.
        let like: HeldRawTable<T, A> = HeldRawTable::new(alloc);
        let shards = array::from_fn(|_| like.new_like());
        HeldShardedTable { shards }
    }

    /// Makes an empty table. The first generation of each shard will have `first_capacity` buckets. The caller shows that
    /// `SHARDS` is a power of two, and that `is_first_capacity` holds of `first_capacity`. Does not allocate.
    pub fn with_first_capacity(alloc: A, first_capacity: usize) -> Self
        requires shards { IsPowerOfTwo SHARDS }
        requires first { IsFirstCapacity first_capacity }
        ensures empty { result ≡ empty_shards SHARDS first_capacity }
        ensures stands { Stands sharded result [] }
        ensures lawful { AreLawfulForAll T.target result }
    {
        let like: HeldRawTable<T, A> = HeldRawTable::with_first_capacity(alloc, first_capacity);
        let shards = array::from_fn(|_| like.new_like());
        HeldShardedTable { shards }
    }

    /// Returns the number of the shard of a hash, which its top bits determine: `hash * SHARDS / 2^64`, rounded down.
    pub fn shard_of(hash: u64) -> usize
        ensures is { result ≡ number_of_shard SHARDS hash }
        ensures inside { 0 < SHARDS → result < SHARDS }
    {
        ((hash as u128 * SHARDS as u128) >> 64) as usize
    }

    /// Returns the number of entries, or `usize::MAX` if there are more.
    pub fn len_alone(&self) -> usize
        ensures counted { result ≡ min (length (entries self.now)) greatest_length }
        ensures each { AreCounted self.now }
        ensures as_list { CountsAsList sharded self.now result }
    {
        let mut sum: usize = 0;
        for shard in self.shards.as_slice() {
            sum = sum.saturating_add(shard.len_alone());
        }
        sum
    }

    /// Returns whether the table has no entry.
    pub fn is_empty_alone(&self) -> bool
        ensures { IsTrue result ↔ (length (entries self.now) ≡ 0) }
    {
        self.len_alone() == 0
    }

    /// Returns the number of buckets of the current generations of all shards, or `usize::MAX` if there are more.
    pub fn capacity_alone(&self) -> usize
        ensures { result ≡ capped_sum capacity self.now }
    {
        let mut sum: usize = 0;
        for shard in self.shards.as_slice() {
            sum = sum.saturating_add(shard.capacity_alone());
        }
        sum
    }

    /// Returns the number of buckets of all generations of all shards, or `usize::MAX` if there are more.
    pub fn buckets_alone(&self) -> usize
        ensures all { result ≡ capped_sum all_buckets self.now }
        ensures linear_in_entries { (k : ℕ) → k < length self.now
            → HasFewBuckets (shard_at self.now k) }
    {
        let mut sum: usize = 0;
        for shard in self.shards.as_slice() {
            sum = sum.saturating_add(shard.buckets_alone());
        }
        sum
    }

    /// Inserts the value into the shard of its hash unless `eq` accepts an entry there as equal, and returns the place of the
    /// entry. Arguments and results are those of `HeldRawTable::place_alone`.
    pub fn place_alone<
        L: Law<T::Target>,
        E: Fn(&T::Target, &T::Target) -> bool,
        H: Fn(&T::Target) -> u64,
    >(&mut self, hash: u64, value: T, eq: &E, hash_fn: &H) -> Result<(ShardPlace, Option<T>), T>
        requires eq_callable { E.IsAlwaysCallable eq.now }
        requires hash_callable { H.IsAlwaysCallable hash_fn.now }

        // with any closures
        ensures keeps { InsertKeeps T.target (FnReturnsAtPair E.Fn eq.now (T.target value))
            (entry_at self.new) (entries self.old) value result (entries self.new) }
        ensures marks { InsertMarks (marked self.old) hash value result (marked self.new) }
        ensures later { IsLater sharded self.old self.new }
        ensures places { KeepsPlaces sharded self.old self.new }
        ensures home { IfOk result (λ placed. placed.0.shard ≡ number_of_shard SHARDS hash) }
        ensures inside { IfOk result (λ placed. LivesInItsShard self.new placed.0) }
        ensures others { (k : ℕ) → k ≢ number_of_shard SHARDS hash
            → shard_at self.new k ≡ shard_at self.old k }
        ensures first { map (λ t. t.first_capacity) self.new ≡ map (λ t. t.first_capacity)
            self.old }
        ensures shards { length self.new ≡ length self.old }
        ensures counted { AreCounted self.new }

        // with lawful closures
        ensures lawful { InsertAnswers T.target L.same L.hash_of (FnReturnsAtPair E.Fn eq.now)
            (FnReturnsAt H.Fn hash_fn.now) (AreLawful T.target L.same L.hash_of self.old)
            (entries self.old) hash value result (AreLawful T.target L.same L.hash_of self.new) }
        ensures as_list { PlacesAsList T.target L.same L.hash_of sharded
            (FnReturnsAtPair E.Fn eq.now) (FnReturnsAt H.Fn hash_fn.now) self.old hash value result
            self.new }
    {
        let shard = HeldShardedTable::<T, SHARDS, A>::shard_of(hash);
        let shards = self.shards.as_mut_slice();
        match shards[shard].place_alone::<L, E, H>(hash, value, eq, hash_fn) {
            Ok((place, back)) => Ok((ShardPlace { shard, place }, back)),
            Err(value) => Err(value),
        }
    }

    /// Returns the target of the entry at a place. The caller shows that an entry of this table lives there.
    pub fn target_at(&self, place: ShardPlace) -> &T::Target
        requires { IsSome (entry_at self.now place) }
        ensures { ShowsAt (entry_at self.now place) (λ v. result.now ≡ T.target v) }
    {
        let ShardPlace { shard, place } = place;
        let shards = self.shards.as_slice();
        shards[shard].target_at(place)
    }

    /// Calls `place_alone` with closures by value.
    fn place_by<L: Law<T::Target>, E: Fn(&T::Target, &T::Target) -> bool, H: Fn(&T::Target) -> u64>(
        &mut self,
        hash: u64,
        value: T,
        eq: E,
        hash_fn: H,
    ) -> InsertAnswer<ShardPlace, T>
        requires eq_callable { E.IsAlwaysCallable eq }
        requires hash_callable { H.IsAlwaysCallable hash_fn }
        ensures { Inserted T.target L.same L.hash_of SHARDS (FnReturnsAtPair E.Fn eq)
            (FnReturnsAt H.Fn hash_fn) self.old hash value result self.new }
    {
        self.place_alone::<L, E, H>(hash, value, &eq, &hash_fn)
    }

    /// Returns the target of the entry at the place that an insert returned, with the rest of that insert's result.
    fn show_placed(&self, placed: InsertAnswer<ShardPlace, T>) -> Result<(&T::Target, Option<T>), T>
        requires { IfOk placed (λ p. IsSome (entry_at self.now p.0)) }
        ensures { ResultShows T.target sharded placed result self.now }
    {
        let (place, back) = placed?;
        Ok((self.target_at(place), back))
    }

    /// Inserts the value into the shard of its hash unless `eq` accepts an entry there as equal, and returns the target of the
    /// entry.
    ///
    /// Arguments and results are those of `HeldRawTable::insert_alone`. Clause `leaves` describes the shards at the end of the
    /// loan, as the clause of that call does.
    pub fn insert_alone<
        L: Law<T::Target>,
        E: Fn(&T::Target, &T::Target) -> bool,
        H: Fn(&T::Target) -> u64,
    >(&mut self, hash: u64, value: T, eq: E, hash_fn: H) -> Result<(&T::Target, Option<T>), T>
        requires eq_callable { E.IsAlwaysCallable eq }
        requires hash_callable { H.IsAlwaysCallable hash_fn }
        ensures* leaves { sem 𝓛 (RestsAs (the_row T.row SHARDS.row A.row T.Target.row T.AtomicValue
            A.Allocator) self.entry (InsertLeaves T.target L.same L.hash_of SHARDS
            (FnReturnsAtPair E.Fn eq) (FnReturnsAt H.Fn hash_fn) self.old hash value result)) }
        ensures shows { InsertShows T.target L.same L.hash_of SHARDS (FnReturnsAtPair E.Fn eq)
            (FnReturnsAt H.Fn hash_fn) self.old hash value result }
    {
        let placed = self.place_by::<L, E, H>(hash, value, eq, hash_fn);
        self.show_placed(placed)
    }

    /// Returns the target of an entry that the test accepts, or `None`. It reads only the shard of the hash; see
    /// `HeldRawTable::lookup_alone`. Does not allocate and does not change the table.
    pub fn lookup_alone<L: Law<T::Target>, F: Fn(&T::Target) -> bool>(
        &self,
        hash: u64,
        test: F,
    ) -> Option<&T::Target>
        requires { F.IsAlwaysCallable test }
        ensures accepted { IfSome result (λ found. FindsOne T.target (FnReturnsAt F.Fn test)
            (entries self.now) found.now) }
        ensures none { IfNone result (FindsNone T.target L.same L.hash_of (FnReturnsAt F.Fn test)
            (AreLawful T.target L.same L.hash_of self.now) (entries self.now) hash) }
        ensures as_list { LooksUpAsList T.target L.same L.hash_of sharded (FnReturnsAt F.Fn test)
            self.now hash (option_copied result) }
    {
        let shards = self.shards.as_slice();
        shards[HeldShardedTable::<T, SHARDS, A>::shard_of(hash)].lookup_alone::<L, F>(hash, test)
    }

    /// Takes the table apart into its shards, in order. Does not allocate and reads no bucket.
    pub fn into_shards(self) -> [HeldRawTable<T, A>; SHARDS]
        ensures { result ≡ self }
    {
        let HeldShardedTable { shards } = self;
        shards
    }
}
