//! An insert between two steps: the generation that it probes, what it builds and carries, and the lock that it holds.
ghost use Rattle.std.specs.Prelude.{◌≡◌, ◌≢◌};
ghost use Rattle.table_shared.specs.Between.{IsBetween};
ghost use Rattle.table_shared.specs.Carried.{IsAnswer, carried_by};

use crate::growth::Growth;
use crate::locks::{OwnedLock, SharedLock};
use crate::table::LockFreeRawTable;
use std::snapshot::Snapshot;
use table_cell::Low;
use table_core::{CallState, Phase};
use table_generations::atomic_value::AtomicValue;
use table_generations::fixed::Generation;

/// The data that an insert carries: its value, the target of its own entry, or an accepted target with its value.
#[derive(Drop)]
pub(crate) enum Carried<T, R> {
    /// The result was handed out, and nothing is left.
    Gone,
    Value(T),
    Own(R),
    Met(R, T),
}

impl<T, R> Carried<T, R> {
    /// Returns the target and the value that are carried, each if there is one.
    #[inline(always)]
    pub(crate) fn into_parts(self) -> (Option<R>, Option<T>)
        ensures { carried_by result.0 result.1 ≡ self }
    {
        match self {
            Carried::Gone => (None, None),
            Carried::Value(value) => (None, Some(value)),
            Carried::Own(target) => (Some(target), None),
            Carried::Met(target, value) => (Some(target), Some(value)),
        }
    }

    /// Makes the data that carries this target and this value, each if there is one.
    pub(crate) fn of_parts(target: Option<R>, value: Option<T>) -> Self
        ensures { result ≡ carried_by target value }
    {
        match (target, value) {
            (None, None) => Carried::Gone,
            (None, Some(value)) => Carried::Value(value),
            (Some(target), None) => Carried::Own(target),
            (Some(target), Some(value)) => Carried::Met(target, value),
        }
    }

    /// Turns what is carried into the result of the insert.
    #[inline(always)]
    pub(crate) fn into_answer(self) -> Result<(R, Option<T>), T>
        requires there { self ≢ Carried.Gone }
        ensures { IsAnswer self result }
    {
        match self {
            Carried::Value(value) => Err(value),
            Carried::Own(target) => Ok((target, None)),
            Carried::Met(target, value) => Ok((target, Some(value))),
            Carried::Gone => unreachable!(),
        }
    }
}

/// The lock that a call holds.
#[derive(Drop)]
pub(crate) enum HeldLock<'a> {
    Nothing,
    Shared(SharedLock<'a>),
    Owned(OwnedLock<'a>),
}

/// The closures of an insert, and for contracts the value that was handed in.
#[derive(Drop)]
pub(crate) struct Asking<T, E, H> {
    pub(crate) given: Snapshot<T>,
    pub(crate) eq: E,
    pub(crate) hash_fn: H,
}

/// An insert between two steps: its state, the generation that it probes, what it builds and carries, and the lock that it holds.
#[derive(Drop)]
pub(crate) struct Inserting<'a, T: AtomicValue, A: Low + Copy, E, H> {
    pub(crate) table: &'a LockFreeRawTable<T, A>,
    pub(crate) state: CallState,
    pub(crate) generation: Option<&'a Generation<T, A>>,
    pub(crate) growth: Option<Growth<'a, T, A>>,
    pub(crate) carried: Carried<T, &'a T::Target>,
    pub(crate) held: HeldLock<'a>,
    pub(crate) asking: Asking<T, E, H>,
    ghost between: { IsBetween table.now.home T.target asking.given.value state generation growth
        carried held },
}

impl<'a, T: AtomicValue, A: Low + Copy, E, H> Inserting<'a, T, A, E, H> {
    /// Counts the value of an insert that is abandoned, if the value was placed and not counted yet. The state of the call does
    /// not change.
    pub(crate) fn count_placed(&self) {
        if self.state.phase != Phase::Placed {
            return;
        }
        if let HeldLock::Shared(guard) = &self.held {
            let _counted = self.table.count(guard, self.state);
        }
    }
}
