//! `HeldSet` as a table of numbers.

use crate::measures::numbers::{HeldTable, NumberTable, Numbers};
use std::alloc::Global;
use table_sets::{HeldSet, Inserted, NumberLaw};
use testkit::counting::made::Made;

/// A `HeldSet` as a set of numbers, stored as `V`.
pub type HeldSetKeys<V> = Numbers<HeldSet<V, NumberLaw>>;

impl<V: Made<Target = u64>> NumberTable for HeldSet<V, NumberLaw> {
    type Value = V;

    fn empty(alloc: Global) -> Self {
        HeldSet::new(alloc)
    }

    fn has(&self, number: u64) -> bool {
        self.contains(&number)
    }
}

impl<V: Made<Target = u64>> HeldTable for HeldSet<V, NumberLaw> {
    fn place(&mut self, _number: u64, value: V) -> bool {
        matches!(self.insert(value), Inserted::Placed)
    }
}
