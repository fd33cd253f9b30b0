//! Inserts that run to their end. Their parts are kept in local variables on the common path.
ghost use Rattle.std.specs.Prelude.{◌≡◌, Some, None};
ghost use Rattle.std.specs.Fn.{FnReturnsAtPair};
ghost use Rattle.table_core.specs.declared.call.Outcome.TheVariants.{Pending};
ghost use Rattle.table_core.specs.declared.call.Phase.TheVariants.{AtEmpty, LeaveOk};
ghost use Rattle.table_shared.specs.Between.{Onward, StandsIn};
ghost use Rattle.table_shared.specs.Carried.{carried_by, held_by, state_by};
ghost use Rattle.table_shared.specs.Inserts.{Answers, Places, Finds, GivesBack};

pub(crate) mod between;
mod steps;

use crate::insert::between::{Asking, Carried, HeldLock, Inserting};
use crate::locks::SharedLock;
use crate::probe::{Caller, Matched, Put, Putting, Read, Reading};
use crate::table::LockFreeRawTable;
use std::snapshot::Snapshot;
use std::sync::Wait;
use table_cell::Low;
use table_core::steps::{step, step_loaded};
use table_core::{Answer, CallState, Outcome, Phase};
use table_generations::atomic_value::AtomicValue;
use table_generations::fixed::Generation;

/// Returns the same state, built field by field from what the caller knows of it. The compiler then keeps the state in registers;
/// a state that is copied whole from step to step is kept in memory.
#[inline(always)]
fn spelt(state: CallState, phase: Phase, number: u64, outcome: Outcome) -> CallState
    requires phase { state.phase ≡ phase }
    requires walked { state.walked ≡ Some number }
    requires outcome { state.outcome ≡ outcome }
    ensures same { result ≡ state }
{
    CallState {
        phase,
        hash: state.hash,
        walked: Some(number),
        capacity: state.capacity,
        index: state.index,
        seen: state.seen,
        outcome,
    }
}

impl<T: AtomicValue, A: Low + Copy> LockFreeRawTable<T, A> {
    /// Inserts the value unless `eq` accepts an entry as equal, and returns the target of the entry.
    ///
    /// `hash` is the hash of the value's target. `eq` is called with the target of the value first and the target of an entry
    /// second. `hash_fn` returns the hash of an entry's target and is called during growth.
    ///
    /// - `Ok((target, None))`: the value was placed; `target` is its own.
    /// - `Ok((target, Some(value)))`: the value was not placed and is returned; `eq` accepted `target`.
    /// - `Err(value)`: memory was refused, or the table can't grow. The value is returned and is not in the table.
    ///
    /// A growth that is refused after the value was placed or found doesn't change the result. Any thread may call it at any
    /// time. It takes the table's lock and may wait for it, so no closure may insert into the same table. Before it sets a bucket
    /// it allocates a block for the value; it also allocates when the table grows.
    pub fn insert<R: Wait, E: Fn(&T::Target, &T::Target) -> bool, H: Fn(&T::Target) -> u64>(
        &self,
        rt: &R,
        hash: u64,
        value: T,
        eq: E,
        hash_fn: H,
    ) -> Result<(&T::Target, Option<T>), T>
        requires eq_callable { E.IsAlwaysCallable eq }
        requires hash_callable { H.IsAlwaysCallable hash_fn }
        ensures placed { Places T.target value result }
        ensures found { Finds (FnReturnsAtPair E.Fn eq (T.target value)) result }
        ensures back { GivesBack value result }
    {
        let given = Snapshot::of(&value);
        let asking = Asking { given, eq, hash_fn };
        let guard = self.lock_shared(rt, hash);
        let state = step(CallState::insert(hash), Answer::Taken);
        let Some(current) = self.current(&mut self.note()) else {
            let state = step(state, Answer::NoGeneration);
            return self.go_on(rt, state, None, Carried::Value(value), Some(guard), asking);
        };
        let number = current.number;
        let capacity = current.generation.capacity() as u64;
        let started = step_loaded(state, number, capacity);
        let mut state = spelt(started, Phase::Probe, number, Outcome::Pending);
        while state.phase == Phase::Probe {
            let generation = current.generation;
            let mut note = generation.note_at(state.index as usize);
            let probing = Matched {
                value: &value,
                eq: &asking.eq,
            };
            match self.read_bucket::<Reading, _>(generation, state, &probing, &mut note) {
                Read::Empty(next) => {
                    return self.place(rt, next, number, generation, value, guard, asking);
                }
                Read::Met(next, target) => {
                    let found = Outcome::Existing { index: state.index };
                    let carried = Carried::Met(target, value);
                    return self.settle::<Reading, R, E, H>(
                        rt, next, number, found, generation, carried, guard, asking,
                    );
                }
                Read::Passed(next, _) => {
                    if next.phase != Phase::Probe {
                        let carried = Carried::Value(value);
                        return self.go_on(rt, next, Some(generation), carried, Some(guard), asking);
                    }
                    let on = spelt(next, Phase::Probe, number, Outcome::Pending);
                    state = on;
                }
            }
        }
        unreachable!()
    }

    /// Continues an insert at an empty bucket: offers its value there, and if the value was placed counts it once and releases
    /// the lock. If another entry came first, the insert continues from that entry.
    #[inline(always)]
    fn place<'a, R: Wait, E: Fn(&T::Target, &T::Target) -> bool, H: Fn(&T::Target) -> u64>(
        &'a self,
        rt: &R,
        state: CallState,
        number: u64,
        generation: &'a Generation<T, A>,
        value: T,
        guard: SharedLock<'a>,
        asking: Asking<T, E, H>,
    ) -> Result<(&'a T::Target, Option<T>), T>
        requires { StandsIn self.now.home E.IsAlwaysCallable H.IsAlwaysCallable T.target E.Fn asking
            state AtEmpty number Pending generation (Carried.Value value) (HeldLock.Shared guard) }
        ensures { Answers T.target (FnReturnsAtPair E.Fn asking.eq (T.target asking.given.value))
            asking.given.value result }
    {
        let state = spelt(state, Phase::AtEmpty, number, Outcome::Pending);
        let mut note = generation.note_at(state.index as usize);
        let (next, carried) = match self.put_value::<Putting, E>(
            generation, state, value, &asking.eq, &mut note,
        ) {
            Put::Won(next, target) => {
                let placed = spelt(next, Phase::Placed, number, Outcome::Pending);
                let next = self.count(&guard, placed);
                let own = Outcome::New { index: state.index };
                let carried = Carried::Own(target);
                return self.settle::<Putting, R, E, H>(
                    rt, next, number, own, generation, carried, guard, asking,
                );
            }
            Put::Refused(next, value) => (next, Carried::Value(value)),
            Put::Passed(next, _, value) => (next, Carried::Value(value)),
            Put::Met(next, target, value) => (next, Carried::Met(target, value)),
        };
        self.go_on(rt, next, Some(generation), carried, Some(guard), asking)
    }

    /// Ends an insert that has an outcome: releases the lock, and grows the table if half of its generation is set.
    #[inline(always)]
    fn settle<
        'a,
        C: Caller,
        R: Wait,
        E: Fn(&T::Target, &T::Target) -> bool,
        H: Fn(&T::Target) -> u64,
    >(
        &'a self,
        rt: &R,
        state: CallState,
        number: u64,
        outcome: Outcome,
        generation: &'a Generation<T, A>,
        carried: Carried<T, &'a T::Target>,
        guard: SharedLock<'a>,
        asking: Asking<T, E, H>,
    ) -> Result<(&'a T::Target, Option<T>), T>
        requires { StandsIn self.now.home E.IsAlwaysCallable H.IsAlwaysCallable T.target E.Fn asking
            state LeaveOk number outcome generation carried (HeldLock.Shared guard) }
        ensures { Answers T.target (FnReturnsAtPair E.Fn asking.eq (T.target asking.given.value))
            asking.given.value result }
    {
        let state = spelt(state, Phase::LeaveOk, number, outcome);
        let state = step(state, Answer::Released);
        drop(guard);
        let state = self.ask_size(state);
        if state.phase == Phase::Done {
            return carried.into_answer();
        }
        self.go_on(rt, state, Some(generation), carried, None, asking)
    }

    /// Runs the rest of an insert, from any step but the last. `guard` is the lock if the insert holds it shared.
    #[inline(always)]
    fn go_on<'a, R: Wait, E: Fn(&T::Target, &T::Target) -> bool, H: Fn(&T::Target) -> u64>(
        &'a self,
        rt: &R,
        state: CallState,
        generation: Option<&'a Generation<T, A>>,
        carried: Carried<T, &'a T::Target>,
        guard: Option<SharedLock<'a>>,
        asking: Asking<T, E, H>,
    ) -> Result<(&'a T::Target, Option<T>), T>
        requires { Onward self.now.home E.IsAlwaysCallable H.IsAlwaysCallable T.target E.Fn asking
            state generation carried (held_by HeldLock.Shared guard) }
        ensures { Answers T.target (FnReturnsAtPair E.Fn asking.eq (T.target asking.given.value))
            asking.given.value result }
    {
        let CallState {
            phase,
            hash,
            walked: number,
            capacity,
            index,
            seen,
            outcome,
        } = state;
        let (target, value) = carried.into_parts();
        self.go_on_by_parts(
            rt, phase, hash, number, capacity, index, seen, outcome, generation, target, value,
            guard, asking,
        )
    }

    /// Runs the rest of an insert, as `go_on` does, from the fields of its state. The rare path is kept out of `insert` and gets
    /// these values one by one: the compiler keeps a value that is passed whole in memory from the start, on the common path too.
    #[inline(never)]
    fn go_on_by_parts<'a, R: Wait, E: Fn(&T::Target, &T::Target) -> bool, H: Fn(&T::Target) -> u64>(
        &'a self,
        rt: &R,
        phase: Phase,
        hash: u64,
        number: Option<u64>,
        capacity: u64,
        index: u64,
        seen: u64,
        outcome: Outcome,
        generation: Option<&'a Generation<T, A>>,
        target: Option<&'a T::Target>,
        value: Option<T>,
        guard: Option<SharedLock<'a>>,
        asking: Asking<T, E, H>,
    ) -> Result<(&'a T::Target, Option<T>), T>
        requires { Onward self.now.home E.IsAlwaysCallable H.IsAlwaysCallable T.target E.Fn asking
            (state_by phase hash number capacity index seen outcome) generation
            (carried_by target value) (held_by HeldLock.Shared guard) }
        ensures { Answers T.target (FnReturnsAtPair E.Fn asking.eq (T.target asking.given.value))
            asking.given.value result }
    {
        let held = match guard {
            Some(guard) => HeldLock::Shared(guard),
            None => HeldLock::Nothing,
        };
        let call = Inserting {
            table: self,
            state: CallState {
                phase,
                hash,
                walked: number,
                capacity,
                index,
                seen,
                outcome,
            },
            generation,
            growth: None,
            carried: Carried::of_parts(target, value),
            held,
            asking,
        };
        call.go_on(rt)
    }
}
