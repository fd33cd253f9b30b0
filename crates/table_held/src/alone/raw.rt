//! The raw table as an [`AloneTable`].

use crate::alone::{AloneTable, InsertAnswer, KeepsApart};
use crate::place::Place;
use crate::raw::HeldRawTable;
use std::alloc::Allocator;
use table_generations::atomic_value::{AtomicValue, Law};

impl<T: AtomicValue, A: Allocator + Copy, L: Law<T::Target>> AloneTable<T, L>
    for HeldRawTable<T, A> {
    ghost use Rattle.table_held.specs.Table.{held};
    ghost use Rattle.table_held.specs.Empty.{held_without_entries};

    type Place = Place;

    ghost shows = { held };

    ghost no_entries_is_lawful = { held_without_entries T.target };

    fn place_alone<E, H>(
        &mut self,
        hash: u64,
        value: T,
        eq: &E,
        hash_fn: &H,
    ) -> InsertAnswer<Place, T>
    where
        E: Fn(&T::Target, &T::Target) -> bool,
        H: Fn(&T::Target) -> u64,
    {
        self.place_alone::<L, E, H>(hash, value, eq, hash_fn)
    }

    fn target_at(&self, place: Place) -> &T::Target {
        self.target_at(place)
    }

    fn lookup_alone<F: Fn(&T::Target) -> bool>(&self, hash: u64, test: F) -> Option<&T::Target> {
        self.lookup_alone::<L, F>(hash, test)
    }

    fn len_alone(&self) -> usize {
        self.len_alone()
    }
}

impl<T: AtomicValue, A: Allocator + Copy, L: Law<T::Target>> KeepsApart<T, L>
    for HeldRawTable<T, A> {
    fn entries_are_apart() {}
}
