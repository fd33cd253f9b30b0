//! Tasks that one thread does with a set of numbers.

use crate::measures::numbers::{Empty, KeySet};
use std::alloc::{AllocError, Global};
use std::marker::PhantomData;

/// A task that one thread does with a set of numbers.
pub trait Task {
    /// The result of the task.
    type Answer;

    /// Does the task with this set.
    fn run<K: KeySet>(&self, keys: &mut K) -> Self::Answer;
}

/// A type of sets. Each task gets an empty one.
pub(crate) trait Sets {
    /// Does the task with an empty set, and drops the set. `Err`: memory was refused.
    fn with_empty<T: Task>(&self, task: &T) -> Result<T::Answer, AllocError>;
}

/// Single-owner sets of the type `S`.
#[derive(Drop)]
pub(crate) struct HeldSets<S> {
    pub(crate) alloc: Global,
    pub(crate) of: PhantomData<S>,
}

impl<S: KeySet + Empty + Drop> Sets for HeldSets<S> {
    fn with_empty<T: Task>(&self, task: &T) -> Result<T::Answer, AllocError> {
        let mut set = S::empty(self.alloc)?;
        Ok(task.run(&mut set))
    }
}
