//! Iteration by value over a single-owner table.
ghost use Rattle.std.specs.Prelude.{◌≡◌};
ghost use Rattle.table_held.specs.Walks.{GivesEntries};

use crate::raw::HeldRawTable;
use std::alloc::Allocator;
use table_generations::atomic_value::AtomicValue;
use table_generations::values::IntoIter;

impl<T: AtomicValue, A: Allocator + Copy> IntoIterator for HeldRawTable<T, A> {
    type Item = T;

    type IntoIter = IntoIter<T, A>;

    ghost into_iter_gives = { λ t it. GivesEntries t it };

    /// Consumes the table and returns an iterator over its values. Does not allocate.
    fn into_iter(self) -> IntoIter<T, A> {
        let left = self.len_alone();
        let HeldRawTable {
            first_capacity: _,
            home,
            earlier,
            current,
            alloc,
        } = self;
        IntoIter::of_generations(home.close(), current, earlier, Vec::new(alloc), left)
    }
}
