//! The single-owner table.
ghost use Rattle.std.specs.Prelude.{◌≡◌, ℕ, ◌-◌, ◌+◌, ◌*◌, ◌<◌, ◌≤◌, ◌↔◌, max, length, [], slice_index_or};
ghost use Rattle.std.specs.Prelude.{OnOk, OnErr, IfOk, IfSome, IfNone, IsSome, IsTrue, option_copied};
ghost use Rattle.std.specs.Fn.{FnReturnsAt, FnReturnsAtPair};
ghost use Rattle.table_generations.specs.Buckets.{shown_all};
ghost use Rattle.table_terms.specs.Capacities.{IsFirstCapacity};
ghost use Rattle.table_held.specs.Capacity.{IsDoubled};
ghost use Rattle.table_held.specs.Table.{contents_in, shown_rows, AreOfHome};

mod into_iter;
mod iter;
mod parts;

use crate::alone::InsertAnswer;
use crate::place::Place;
pub use iter::HeldIter;
pub use parts::HeldParts;
use std::alloc::{AllocError, Allocator, Global};
use std::marker::Model;
use std::mem;
use table_cell::Home;
pub use table_cell::Low;
use table_generations::atomic_value::{AtomicValue, Law};
use table_generations::fixed::{Generation, ProbeEnd, Refusal};
use table_generations::growth::rehashed;
pub use table_generations::values::IntoIter;
use table_terms::capacity;
pub use table_terms::capacity::FIRST_CAPACITY;

/// Returns whether the first generation of a table may have `first` buckets: `first` is a power of two from 16 to 2^30.
pub fn is_first_capacity(first: usize) -> bool
    ensures { IsTrue result ↔ IsFirstCapacity first }
{
    capacity::is_first_capacity(first as u64)
}

/// An insertion-only hash table with one owner. It takes no lock, does no atomic read-modify-write, and never waits. Values are
/// compared, hashed and shown by their targets.
///
/// Each call takes a hash and closures from its caller. A call is lawful if `eq` is one equivalence, the hash agrees with it and
/// is that of the value, and a test accepts only targets of the hash given. A new table is lawful, and lawful calls keep it so:
/// no two of its entries are equal, and each is found by its hash. Then the table answers as a growing list without equal
/// entries. With any other closures the answers may be wrong, but no value is lost or stored twice.
///
/// A hash should vary in all 64 bits: a probe begins at the low bits, and bits 32 to 39 let it skip most calls of `eq`. For a
/// number call `table_terms::law::hash_number`. A product with an odd number isn't enough, since multiples of 2^16 share its low
/// 16 bits.
///
/// A bucket takes 10 bytes, and each entry has a heap block with its value and 8 bits of its hash. Old generations are kept until
/// the table is dropped.
pub struct HeldRawTable<T: AtomicValue, A: Allocator + Copy = Global> {
    first_capacity: usize,
    home: Home,
    earlier: Vec<Generation<T, A>, A>,
    current: Generation<T, A>,
    alloc: A,
}

impl<T: AtomicValue, A: Allocator + Copy> Model for HeldRawTable<T, A> {
    ghost use Rattle.std.specs.Prelude.{◌≡◌};
    ghost use Rattle.table_held.specs.Table.{HeldTable, table_of, contents_in, IsKept, AreOfHome};

    ghost Value = { HeldTable T };

    ghost view = { λ t. table_of t.first_capacity (contents_in t.earlier.items) t.current.contents t.current.size };

    ghost invariant = { λ t. IsKept t.first_capacity (contents_in t.earlier.items) t.current.contents t.current.size
        × AreOfHome t.home.id t.earlier.items t.current };
}

/// Returns the generation of this number: an earlier one, or the current one, which is the last.
fn generation_at<'a, T: AtomicValue, A: Allocator + Copy>(
    earlier: &'a [Generation<T, A>],
    current: &'a Generation<T, A>,
    generation: usize,
) -> &'a Generation<T, A>
    requires { generation ≤ length earlier.now }
    ensures row { shown_all result.now.contents ≡ slice_index_or
        (shown_rows (contents_in earlier.now) current.now.contents) generation [] }
    ensures home { (home : ℕ) → AreOfHome home earlier.now current.now → result.now.home ≡ home }
{
    if generation < earlier.len() {
        return &earlier[generation];
    }
    current
}

impl<T: AtomicValue, A: Allocator + Copy> HeldRawTable<T, A> {
    ghost use Rattle.table_held.specs.Table.{HeldTable, held, empty_table, entries, marked, capacity, all_buckets};
    ghost use Rattle.table_held.specs.Table.{entry_at, IsLater, IsCounted, IsLawful, IsLawfulForAll, Stands, CountsAsList};
    ghost use Rattle.table_held.specs.Growth.{IsOpened, IsGrown, GrowsIfWanted, KeepsPlaces, TriesToPlace, PlacesOrGrows};
    ghost use Rattle.table_held.specs.Held.{InsertKeeps, InsertMarks, InsertAnswers, PlacesAsList, Inserted, InsertLeaves, InsertShows, ResultShows};
    ghost use Rattle.table_held.specs.Held.{ShowsAt, FindsOne, FindsNone, LooksUpAsList};
    ghost use Rattle.table_held.specs.Rests.{RestsAs};
    ghost use Rattle.table_held.specs.contracts.raw.HeldRawTable.{the_row};
    ghost use Rattle.std.specs.Borrow.{sem};

    /// Makes an empty table, whose first generation will have 16 buckets. Does not allocate.
    pub fn new(alloc: A) -> Self
        ensures empty { result ≡ empty_table 16 }
        ensures stands { Stands result [] }
        ensures lawful { IsLawfulForAll T.target result }
    {
        HeldRawTable::with_first_capacity(alloc, FIRST_CAPACITY)
    }

    /// Makes an empty table, whose first generation will have `first_capacity` buckets. The caller shows that `is_first_capacity`
    /// holds of it. Does not allocate.
    pub fn with_first_capacity(alloc: A, first_capacity: usize) -> Self
        requires { IsFirstCapacity first_capacity }
        ensures empty { result ≡ empty_table first_capacity }
        ensures stands { Stands result [] }
        ensures lawful { IsLawfulForAll T.target result }
    {
        let home = Home::new();
        let current = Generation::none(alloc, &home);
        HeldRawTable {
            first_capacity,
            home,
            earlier: Vec::new(alloc),
            current,
            alloc,
        }
    }

    /// Makes an empty table with the allocator and the first capacity of this one. Does not allocate.
    pub fn new_like(&self) -> Self
        ensures { result ≡ empty_table self.now.first_capacity }
    {
        HeldRawTable::with_first_capacity(self.alloc, self.first_capacity)
    }

    /// Returns the number of entries.
    pub fn len_alone(&self) -> usize
        ensures size { result ≡ self.now.size }
        ensures counted { result ≡ length (entries self.now) }
        ensures as_list { CountsAsList self.now result }
    {
        self.current.size()
    }

    /// Returns whether the table has no entry.
    pub fn is_empty_alone(&self) -> bool
        ensures { IsTrue result ↔ (length (entries self.now) ≡ 0) }
    {
        self.len_alone() == 0
    }

    /// Returns the number of buckets of the current generation. It is 0 until the first insert makes a generation.
    pub fn capacity_alone(&self) -> usize
        ensures current { result ≡ capacity self.now }
        ensures doubled { IsDoubled self.now.first_capacity result }
    {
        self.current.capacity()
    }

    /// Returns the number of buckets of all generations together. For `n` entries and a first capacity `F` it is at most `max(F,
    /// 8n - F)`.
    pub fn buckets_alone(&self) -> usize
        ensures all { result ≡ all_buckets self.now }
        ensures linear_in_entries { result ≤ max self.now.first_capacity
            (8 * length (entries self.now) - self.now.first_capacity) }
        ensures twice_the_capacity { 0 < capacity self.now
            → result + self.now.first_capacity ≡ 2 * capacity self.now }
    {
        let capacity = self.current.capacity();
        if capacity == 0 {
            return 0;
        }
        // Each generation is twice the one before, so all of them together are twice the current one less the first. In this
        // order no intermediate result passes 2^64.
        capacity - self.first_capacity + capacity
    }

    /// Makes the first generation unless there is one. An `Err` leaves the table unchanged.
    fn open_alone(&mut self) -> Result<(), AllocError>
        ensures opened { OnOk result (IsOpened self.old self.new) }
        ensures some { OnOk result (0 < capacity self.new) }
        ensures unchanged { OnErr result ((self.old ≡ empty_table self.old.first_capacity)
            × (self.new ≡ self.old)) }
        ensures counted { IsCounted self.old }
    {
        if self.current.capacity() == 0 {
            self.current = Generation::with_capacity(self.alloc, &self.home, self.first_capacity)?;
        }
        Ok(())
    }

    /// Makes a generation of twice the capacity, in which each entry is named. An `Err`, because memory was refused or the
    /// capacity can't double, leaves the table unchanged.
    fn grow_alone<H: Fn(&T::Target) -> u64>(&mut self, hash_fn: &H) -> Result<(), AllocError>
        requires some { 0 < capacity self.old }
        requires wanted { capacity self.old ≤ 2 * self.old.size }
        requires callable { H.IsAlwaysCallable hash_fn.now }
        ensures grown { OnOk result (IsGrown T.target (FnReturnsAt H.Fn hash_fn.now) self.old
            self.new) }
        ensures unchanged { OnErr result (self.new ≡ self.old) }
    {
        let Some(doubled) = self.current.capacity().checked_mul(2) else {
            return Err(AllocError);
        };
        self.earlier.reserve(1)?;
        let built = rehashed(&self.home, &self.current, doubled, hash_fn)?;
        let old = mem::replace(&mut self.current, built);
        self.earlier.push_reserved(old);
        Ok(())
    }

    /// Grows the table if at least half of the buckets are set. An `Err` leaves the table unchanged.
    fn grow_if_wanted<H: Fn(&T::Target) -> u64>(&mut self, hash_fn: &H) -> Result<(), AllocError>
        requires some { 0 < capacity self.old }
        requires callable { H.IsAlwaysCallable hash_fn.now }
        ensures grown { OnOk result (GrowsIfWanted T.target (FnReturnsAt H.Fn hash_fn.now) self.old
            self.new) }
        ensures unchanged { OnErr result (self.new ≡ self.old) }
    {
        if self.current.wants_growth() {
            return self.grow_alone(hash_fn);
        }
        Ok(())
    }

    /// Inserts the value into the current generation unless `eq` accepts an entry as equal, and returns the place of the entry. A
    /// refusal returns the value and leaves the table unchanged.
    fn try_place<E: Fn(&T::Target, &T::Target) -> bool>(
        &mut self,
        hash: u64,
        value: T,
        eq: &E,
    ) -> Result<(Place, Option<T>), Refusal<T>>
        requires some { 0 < capacity self.old }
        requires callable { E.IsAlwaysCallable eq.now }
        ensures { TriesToPlace T.target (FnReturnsAtPair E.Fn eq.now (T.target value)) self.old hash
            value result self.new }
    {
        match self.current.insert(&self.home, hash, value, eq) {
            Ok((index, back)) => {
                let generation = self.earlier.len();
                Ok((Place { generation, index }, back))
            }
            Err(refusal) => Err(refusal),
        }
    }

    /// Inserts the value; if the current generation has no bucket left for it, grows the table and tries again.
    fn place_or_grow<E: Fn(&T::Target, &T::Target) -> bool, H: Fn(&T::Target) -> u64>(
        &mut self,
        hash: u64,
        value: T,
        eq: &E,
        hash_fn: &H,
    ) -> Result<(Place, Option<T>), T>
        requires some { 0 < capacity self.old }
        requires eq_callable { E.IsAlwaysCallable eq.now }
        requires hash_callable { H.IsAlwaysCallable hash_fn.now }
        ensures { PlacesOrGrows T.target (FnReturnsAtPair E.Fn eq.now (T.target value))
            (FnReturnsAt H.Fn hash_fn.now) self.old hash value result self.new }
    {
        let value = match self.try_place(hash, value, eq) {
            Ok(placed) => return Ok(placed),
            Err(Refusal::NoMemory(value)) => return Err(value),
            Err(Refusal::Full(value)) => value,
        };
        if self.grow_alone(hash_fn).is_err() {
            return Err(value);
        }
        match self.try_place(hash, value, eq) {
            Ok(placed) => Ok(placed),
            Err(Refusal::NoMemory(value)) => Err(value),
            Err(Refusal::Full(_)) => unreachable!(),
        }
    }

    /// Inserts the value unless `eq` accepts an entry as equal, and returns the place of the entry. `target_at` returns the
    /// target at a place.
    ///
    /// `hash` is the hash of the value's target. `eq` is called with the target of the value first and the target of an entry
    /// second. `hash_fn` returns the hash of an entry's target and is called during growth. The closures are borrowed, so that a
    /// generic caller can pass its own on. `L` names an equality and a hash, for contracts only.
    ///
    /// - `Ok((place, None))`: the value is now an entry, at `place`.
    /// - `Ok((place, Some(value)))`: the value was not placed and is returned; `eq` accepted the entry at `place`.
    /// - `Err(value)`: memory was refused, or the capacity can't double. The value is returned, and the entries are unchanged.
    ///
    /// It allocates for the first generation, for the block of a new entry, and for growth, which follows an insert once half of
    /// the buckets are set. If only that growth is refused, the insert still returns `Ok`.
    pub fn place_alone<
        L: Law<T::Target>,
        E: Fn(&T::Target, &T::Target) -> bool,
        H: Fn(&T::Target) -> u64,
    >(&mut self, hash: u64, value: T, eq: &E, hash_fn: &H) -> Result<(Place, Option<T>), T>
        requires eq_callable { E.IsAlwaysCallable eq.now }
        requires hash_callable { H.IsAlwaysCallable hash_fn.now }

        // with any closures
        ensures keeps { InsertKeeps T.target (FnReturnsAtPair E.Fn eq.now (T.target value))
            (entry_at self.new) (entries self.old) value result (entries self.new) }
        ensures marks { InsertMarks (marked self.old) hash value result (marked self.new) }
        ensures later { IsLater self.old self.new }
        ensures places { KeepsPlaces self.old self.new }
        ensures first { self.new.first_capacity ≡ self.old.first_capacity }
        ensures counted { IsCounted self.new }

        // with lawful closures
        ensures lawful { InsertAnswers T.target L.same L.hash_of (FnReturnsAtPair E.Fn eq.now)
            (FnReturnsAt H.Fn hash_fn.now) (IsLawful T.target L.same L.hash_of self.old)
            (entries self.old) hash value result (IsLawful T.target L.same L.hash_of self.new) }
        ensures as_list { PlacesAsList T.target L.same L.hash_of (FnReturnsAtPair E.Fn eq.now)
            (FnReturnsAt H.Fn hash_fn.now) self.old hash value result self.new }
    {
        if self.open_alone().is_err() {
            return Err(value);
        }
        let placed = self.place_or_grow(hash, value, eq, hash_fn)?;
        let _ = self.grow_if_wanted(hash_fn);
        Ok(placed)
    }

    /// Returns the target of the entry at a place. The caller shows that an entry of this table lives there.
    pub fn target_at(&self, place: Place) -> &T::Target
        requires { IsSome (entry_at self.now place) }
        ensures { ShowsAt (entry_at self.now place) (λ v. result.now ≡ T.target v) }
    {
        let generation = generation_at(self.earlier.as_slice(), &self.current, place.generation());
        match generation.entry_shown(&self.home, place.index()) {
            Some(entry) => entry.value.deref(),
            None => unreachable!(),
        }
    }

    /// Calls `place_alone` with closures by value.
    fn place_by<L: Law<T::Target>, E: Fn(&T::Target, &T::Target) -> bool, H: Fn(&T::Target) -> u64>(
        &mut self,
        hash: u64,
        value: T,
        eq: E,
        hash_fn: H,
    ) -> InsertAnswer<Place, T>
        requires eq_callable { E.IsAlwaysCallable eq }
        requires hash_callable { H.IsAlwaysCallable hash_fn }
        ensures { Inserted T.target L.same L.hash_of (FnReturnsAtPair E.Fn eq)
            (FnReturnsAt H.Fn hash_fn) self.old hash value result self.new }
    {
        self.place_alone::<L, E, H>(hash, value, &eq, &hash_fn)
    }

    /// Returns the target of the entry at the place that an insert returned, with the rest of that insert's result.
    fn show_placed(&self, placed: InsertAnswer<Place, T>) -> Result<(&T::Target, Option<T>), T>
        requires { IfOk placed (λ p. IsSome (entry_at self.now p.0)) }
        ensures { ResultShows T.target held placed result self.now }
    {
        let (place, back) = placed?;
        Ok((self.target_at(place), back))
    }

    /// Inserts the value unless `eq` accepts an entry as equal, and returns the target of the entry.
    ///
    /// Arguments and results are those of `place_alone`, with the target in place of the `Place`. Clause `leaves` describes the
    /// table at the end of the loan, that is, once the target is no longer borrowed. Only a proof by hand can use that clause. A
    /// caller that wants a plain clause calls `place_alone` and then `target_at`.
    pub fn insert_alone<
        L: Law<T::Target>,
        E: Fn(&T::Target, &T::Target) -> bool,
        H: Fn(&T::Target) -> u64,
    >(&mut self, hash: u64, value: T, eq: E, hash_fn: H) -> Result<(&T::Target, Option<T>), T>
        requires eq_callable { E.IsAlwaysCallable eq }
        requires hash_callable { H.IsAlwaysCallable hash_fn }
        ensures* leaves { sem 𝓛 (RestsAs (the_row T.row A.row T.Target.row T.AtomicValue A.Allocator)
            self.entry (InsertLeaves T.target L.same L.hash_of (FnReturnsAtPair E.Fn eq)
            (FnReturnsAt H.Fn hash_fn) self.old hash value result)) }
        ensures shows { InsertShows T.target L.same L.hash_of (FnReturnsAtPair E.Fn eq)
            (FnReturnsAt H.Fn hash_fn) self.old hash value result }
    {
        let placed = self.place_by::<L, E, H>(hash, value, eq, hash_fn);
        self.show_placed(placed)
    }

    /// Returns the target of an entry that the test accepts, or `None`. Does not allocate and does not change the table.
    ///
    /// A test is lawful if it is one function of the target and accepts only targets of the given hash. If the test and the table
    /// are lawful, `None` means that the test accepts no entry.
    pub fn lookup_alone<L: Law<T::Target>, F: Fn(&T::Target) -> bool>(
        &self,
        hash: u64,
        test: F,
    ) -> Option<&T::Target>
        requires { F.IsAlwaysCallable test }
        ensures accepted { IfSome result (λ found. FindsOne T.target (FnReturnsAt F.Fn test)
            (entries self.now) found.now) }
        ensures none { IfNone result (FindsNone T.target L.same L.hash_of (FnReturnsAt F.Fn test)
            (IsLawful T.target L.same L.hash_of self.now) (entries self.now) hash) }
        ensures as_list { LooksUpAsList T.target L.same L.hash_of (FnReturnsAt F.Fn test) self.now
            hash (option_copied result) }
    {
        if self.current.capacity() == 0 {
            return None;
        }
        match self.current.probe(&self.home, hash, &test) {
            ProbeEnd::Accepted(_, entry) => Some(entry.value.deref()),
            _ => None,
        }
    }
}

impl<T: AtomicValue, A: Allocator + Copy> Drop for HeldRawTable<T, A> {
    /// Drops the value of each entry once, and frees its block.
    fn drop(self) {
        drop(self.into_iter());
    }
}
