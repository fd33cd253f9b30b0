//! The single-owner set.
ghost use Rattle.std.specs.Prelude.{◌≡◌, ◌↔◌, [], length, IsTrue, MatchBool, option_copied};
ghost use Rattle.std.specs.List.Sorted.{IsPermutation};
ghost use Rattle.table_terms.specs.Capacities.{IsFirstCapacity};
ghost use Rattle.table_sets.specs.Sets.{AllApart, Inserts, InsertLeaves, InsertShows, Finds, OnePasses, NonePasses};

use crate::inserted::{Inserted, Shown};
use crate::lawful::LawfulTable;
use std::alloc::{Allocator, Global};
use std::marker::Model;
use table_held::{AtomicValue, HeldIter, HeldRawTable, IntoIter};
use table_terms::law::{KeyLaw, SetLaw};

/// An insertion-only set with one owner, in which no two values are equal under the law `L`. It takes no lock and never waits.
///
/// A contract sees the list of the entries, in an order that an insert may change.
pub struct HeldSet<T: AtomicValue, L: SetLaw<T::Target>, A: Allocator + Copy = Global> {
    lawful: LawfulTable<T, L, A>,
}

impl<T: AtomicValue, L: SetLaw<T::Target>, A: Allocator + Copy> Model for HeldSet<T, L, A> {
    ghost use Rattle.std.specs.Prelude.{List};
    ghost use Rattle.table_held.specs.Table.{entries};

    ghost Value = { List T };

    ghost view = { λ s. entries s.lawful };
}

impl<T: AtomicValue, L: SetLaw<T::Target>, A: Allocator + Copy> HeldSet<T, L, A> {
    ghost use Rattle.std.specs.Borrow.{sem};
    ghost use Rattle.table_held.specs.Rests.{RestsAs};
    ghost use Rattle.table_held.specs.Table.{entries, IsLawful};
    ghost use Rattle.table_sets.specs.contracts.set.HeldSet.{the_row};

    /// Makes an empty set. Does not allocate.
    pub fn new(alloc: A) -> Self
        ensures { result ≡ [] }
    {
        HeldSet {
            lawful: LawfulTable::new(alloc),
        }
    }

    /// Makes an empty set, whose first generation will have `first_capacity` buckets. It grows as half of them are set. The caller
    /// shows that `is_first_capacity` holds of it. Does not allocate.
    pub fn with_first_capacity(alloc: A, first_capacity: usize) -> Self
        requires { IsFirstCapacity first_capacity }
        ensures { result ≡ [] }
    {
        HeldSet {
            lawful: LawfulTable::with_first_capacity(alloc, first_capacity),
        }
    }

    /// Inserts the value unless an entry is equal. A value that isn't placed is returned, and the entries are those before, in
    /// some order. A value is refused if memory is refused or the capacity can't double. Allocates for the first buckets, for a new
    /// entry, and for growth.
    pub fn insert(&mut self, value: T) -> Inserted<T>
        ensures inserts { Inserts T.target L.same self.old self.new value result }
        ensures apart { AllApart T.target L.same self.new }
    {
        match self.lawful.place(value) {
            Ok((_, None)) => Inserted::Placed,
            Ok((_, Some(value))) => Inserted::Found(value),
            Err(value) => Inserted::Refused(value),
        }
    }

    /// Inserts the value unless an entry is equal, and returns the target of the entry.
    ///
    /// Clause `leaves` describes the set at the end of the loan, that is, once the target is no longer borrowed. Only a proof by
    /// hand can use that clause. A caller that wants a plain clause calls `insert` and then `get`.
    pub fn insert_and_show(&mut self, value: T) -> Shown<&T::Target, T>
        ensures* leaves { sem 𝓛 (RestsAs (the_row T.row L.row A.row T.Target.row T.AtomicValue L.Law
            A.Allocator) self.entry (InsertLeaves T.target L.same self.old value result)) }
        ensures shows { InsertShows T.target L.same self.old value result }
    {
        let placed = self.lawful.place(value);
        self.lawful.show(placed)
    }

    /// Returns the target of the entry that is equal to `target`, or `None` if no entry is. Does not allocate and does not change
    /// the set.
    pub fn get(&self, target: &T::Target) -> Option<&T::Target>
        ensures finds { Finds T.target (L.same target.now) self.now (option_copied result) }
        ensures apart { AllApart T.target L.same self.now }
    {
        self.lawful.table().lookup_alone::<L, _>(
            L::hash(target),
            |entry: &T::Target| L::is_same(target, entry),
        )
    }

    /// Returns the target of an entry that matches the key, or `None` if no entry does. Does not allocate and does not change the
    /// set.
    pub fn get_by_key<K>(&self, key: &K) -> Option<&T::Target>
    where
        L: KeyLaw<K, T::Target>,
        ensures finds { Finds T.target (L.meets key.now) self.now (option_copied result) }
        ensures apart { AllApart T.target L.same self.now }
    {
        self.lawful.table().lookup_alone::<L, _>(
            L::hash_key(key),
            |entry: &T::Target| L::is_met(key, entry),
        )
    }

    /// Returns whether an entry is equal to this target. Does not allocate and does not change the set.
    pub fn contains(&self, target: &T::Target) -> bool
        ensures { MatchBool result (OnePasses T.target (L.same target.now) self.now)
            (NonePasses T.target (L.same target.now) self.now) }
    {
        self.get(target).is_some()
    }

    /// Returns the number of entries.
    pub fn len(&self) -> usize
        ensures length { result ≡ length self.now }
        ensures apart { AllApart T.target L.same self.now }
    {
        self.lawful.table().len_alone()
    }

    /// Returns whether the set has no entry.
    pub fn is_empty(&self) -> bool
        ensures { IsTrue result ↔ (self.now ≡ []) }
    {
        self.lawful.table().is_empty_alone()
    }

    /// Returns an iterator over the targets of the entries, each once. Does not allocate.
    pub fn iter(&self) -> HeldIter<'_, T, A>
        ensures entries { result ≡ self.now }
        ensures apart { AllApart T.target L.same self.now }
    {
        self.lawful.table().iter_alone()
    }

    /// Takes out the raw table of the set, which is lawful. Does not allocate.
    pub fn into_table(self) -> HeldRawTable<T, A>
        ensures entries { entries result ≡ self }
        ensures lawful { IsLawful T.target L.same L.hash_of result }
    {
        let HeldSet { lawful } = self;
        lawful.into_table()
    }
}

impl<T: AtomicValue, L: SetLaw<T::Target>, A: Allocator + Copy> IntoIterator for HeldSet<T, L, A> {
    type Item = T;

    type IntoIter = IntoIter<T, A>;

    ghost into_iter_gives = { λ s it. IsPermutation s it };

    /// Consumes the set and returns an iterator over its values. Does not allocate.
    fn into_iter(self) -> IntoIter<T, A> {
        self.into_table().into_iter()
    }
}

impl<'a, V: 'a, T: AtomicValue<Target = V>, L: SetLaw<V>, A: Allocator + Copy> IntoIterator
    for &'a HeldSet<T, L, A> {
    type Item = &'a V;

    type IntoIter = HeldIter<'a, T, A>;

    ghost into_iter_gives = { λ s it. it ≡ s.now };

    /// Returns an iterator over the targets of the entries, each once. Does not allocate.
    fn into_iter(self) -> HeldIter<'a, T, A> {
        self.iter()
    }
}

impl<T: AtomicValue, L: SetLaw<T::Target>, A: Allocator + Copy> Drop for HeldSet<T, L, A> {
    /// Drops each value once, and frees its block.
    fn drop(self) {
        drop(self.into_table());
    }
}
