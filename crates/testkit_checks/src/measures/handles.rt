//! `SharedSet` as a set of numbers.

use crate::measures::numbers::{Empty, KeySet};
use crate::measures::shared::SharedKeys;
use crate::measures::tasks::Task;
use shared_set::{Handle, Inserted, SharedSet};
use std::alloc::{AllocError, Global};
use std::sync::Wait;
use table_terms::law::{NumberLaw, SetLaw};

/// A `SharedSet` of numbers.
pub type SharedSetKeys = SharedSet<u64, NumberLaw>;

impl<V, L: SetLaw<V>> Empty for SharedSet<V, L> {
    fn empty(alloc: Global) -> Result<Self, AllocError> {
        SharedSet::new(alloc)
    }
}

impl<'a> KeySet for Handle<'a, u64, NumberLaw> {
    fn insert(&mut self, number: u64) -> bool {
        matches!(self.insert(number), Inserted::Placed(_, _, _))
    }

    fn contains(&mut self, number: u64) -> bool {
        self.get(&number).is_some()
    }
}

impl SharedKeys for SharedSetKeys {
    fn by_thread<R: Wait, T: Task>(&self, _rt: &R, task: &T) -> T::Answer {
        task.run(&mut self.handle())
    }
}
