//! A raw table whose type says that it is lawful.
ghost use Rattle.std.specs.Prelude.{◌≡◌, [], IfOk, IsSome};
ghost use Rattle.table_terms.specs.Capacities.{IsFirstCapacity};
ghost use Rattle.table_held.specs.Table.{IsLawful, IsCounted, entries, entry_at};
ghost use Rattle.table_sets.specs.Placing.{PlacesByLaw, ShowsByLaw};

use crate::inserted::Shown;
use std::alloc::Allocator;
use std::marker::{Model, PhantomData};
use table_held::alone::InsertAnswer;
use table_held::{AtomicValue, HeldRawTable, Place};
use table_terms::law::SetLaw;

/// A raw table that is lawful by `L`: each entry can be found by its hash, and no two entries are equal. A contract sees the
/// whole table.
pub(crate) struct LawfulTable<T: AtomicValue, L: SetLaw<T::Target>, A: Allocator + Copy> {
    table: HeldRawTable<T, A>,
    law: PhantomData<L>,
}

impl<T: AtomicValue, L: SetLaw<T::Target>, A: Allocator + Copy> Model for LawfulTable<T, L, A> {
    ghost use Rattle.table_held.specs.Table.{HeldTable, IsLawful, IsCounted};

    ghost Value = { HeldTable T };

    ghost view = { λ s. s.table };

    ghost invariant = { λ s. IsLawful T.target L.same L.hash_of s.table × IsCounted s.table };
}

impl<T: AtomicValue, L: SetLaw<T::Target>, A: Allocator + Copy> LawfulTable<T, L, A> {
    /// Makes an empty table. Does not allocate.
    pub(crate) fn new(alloc: A) -> Self
        ensures { entries result ≡ [] }
    {
        LawfulTable {
            table: HeldRawTable::new(alloc),
            law: PhantomData,
        }
    }

    /// Makes an empty table, whose first generation will have `first_capacity` buckets. Does not allocate.
    pub(crate) fn with_first_capacity(alloc: A, first_capacity: usize) -> Self
        requires { IsFirstCapacity first_capacity }
        ensures { entries result ≡ [] }
    {
        LawfulTable {
            table: HeldRawTable::with_first_capacity(alloc, first_capacity),
            law: PhantomData,
        }
    }

    /// Inserts the value unless an entry is equal, and returns the place of the entry. A refused value is returned, and the
    /// entries are unchanged.
    pub(crate) fn place(&mut self, value: T) -> InsertAnswer<Place, T>
        ensures places { PlacesByLaw T.target L.same self.old value result self.new }
        ensures lawful { IsLawful T.target L.same L.hash_of self.new }
    {
        let hash = L::hash(value.deref());
        let eq = |new: &T::Target, entry: &T::Target| L::is_same(new, entry);
        let hash_fn = |entry: &T::Target| L::hash(entry);
        self.table
            .place_alone::<L, _, _>(hash, value, &eq, &hash_fn)
    }

    /// Returns the target of the entry at the place that an insert returned, as a [`Shown`].
    pub(crate) fn show(&self, placed: InsertAnswer<Place, T>) -> Shown<&T::Target, T>
        requires { IfOk placed (λ p. IsSome (entry_at self.now p.0)) }
        ensures { ShowsByLaw T.target placed self.now result }
    {
        match placed {
            Ok((place, None)) => Shown::Placed(self.table.target_at(place)),
            Ok((place, Some(value))) => Shown::Found(self.table.target_at(place), value),
            Err(value) => Shown::Refused(value),
        }
    }

    /// Returns the raw table.
    pub(crate) fn table(&self) -> &HeldRawTable<T, A>
        ensures is { result.now ≡ self.now }
        ensures lawful { IsLawful T.target L.same L.hash_of result.now }
        ensures counted { IsCounted result.now }
    {
        &self.table
    }

    /// Takes the raw table out.
    pub(crate) fn into_table(self) -> HeldRawTable<T, A>
        ensures is { result ≡ self }
        ensures lawful { IsLawful T.target L.same L.hash_of result }
    {
        let LawfulTable { table, law: _ } = self;
        table
    }
}
