//! Calls that take one step at a time, on request.
//!
//! An [`InsertCall`] and a [`LookupCall`] take the same steps as [`LockFreeRawTable::insert`] and [`LockFreeRawTable::lookup`],
//! so one thread can run any schedule of calls on a table.
ghost use Rattle.std.specs.Prelude.{◌≡◌, ◌≢◌, None, true, IfSome};
ghost use Rattle.std.specs.Fn.{FnReturnsAt, FnReturnsAtPair};
ghost use Rattle.table_core.specs.Calls.{insert_start, lookup_start};
ghost use Rattle.table_core.specs.declared.call.Phase.TheVariants.{Done};
ghost use Rattle.table_core.specs.RunningPhases.{Other, reached_by};
ghost use Rattle.table_shared.specs.Inserts.{Answers, told_by};
ghost use Rattle.table_shared.specs.Stepped.{MayStep, Advances, MayBlock, IfMoved, IfBlocked, IfEnded, found_by, accepted_in};

use crate::insert::between::{Asking, Carried, HeldLock, Inserting};
use crate::lookup::steps::Looking;
use crate::table::LockFreeRawTable;
use std::alloc::Allocator;
use std::marker::Model;
use std::snapshot::Snapshot;
use table_cell::Low;
use table_core::{CallState, Phase};
use table_generations::atomic_value::AtomicValue;

/// The result of asking a call for one step.
#[derive(Drop)]
pub enum Progress<R> {
    /// The call has taken a step, and isn't at its end.
    Moved,
    /// The call has taken no step, and nothing has changed: others hold the lock that it needs, or it was at its end.
    Blocked,
    /// The call has taken its last step. This is its result.
    Done(R),
}

/// An insert that runs one step at a time. Between two steps it holds the lock that its phase names.
///
/// Dropping it before its end abandons it. A value that was placed stays and is counted; a value that wasn't is dropped. A
/// generation that it was building is discarded, and its lock is released.
pub struct InsertCall<'a, T: AtomicValue, A: Low + Copy, E, H> {
    call: Inserting<'a, T, A, E, H>,
}

impl<'a, T: AtomicValue, A: Low + Copy, E, H> Model for InsertCall<'a, T, A, E, H> {
    ghost use Rattle.table_shared.specs.Carried.{met_in};
    ghost use Rattle.table_shared.specs.Stepped.{InsertView};

    ghost Value = { InsertView T T.Target E H };

    ghost view = { λ c. record {
      state = c.call.state;
      given = c.call.asking.given.value;
      eq = c.call.asking.eq;
      hash_fn = c.call.asking.hash_fn;
      met = met_in c.call.carried;
    } };
}

impl<'a, T: AtomicValue, A: Low + Copy, E, H> InsertCall<'a, T, A, E, H>
where
    E: Fn(&T::Target, &T::Target) -> bool,
    H: Fn(&T::Target) -> u64,
{
    /// Makes an insert that has taken no step. Does not allocate.
    pub fn new(
        table: &'a LockFreeRawTable<T, A>,
        hash: u64,
        value: T,
        eq: E,
        hash_fn: H,
    ) -> InsertCall<'a, T, A, E, H>
        requires eq_callable { E.IsAlwaysCallable eq }
        requires hash_callable { H.IsAlwaysCallable hash_fn }
        ensures starts { result.state ≡ insert_start hash }
        ensures given { (result.given ≡ value) × (result.eq ≡ eq) × (result.hash_fn ≡ hash_fn) }
        ensures met { result.met ≡ None }
        ensures may_step { MayStep E.IsAlwaysCallable H.IsAlwaysCallable T.target E.Fn result }
    {
        let given = Snapshot::of(&value);
        let call = Inserting {
            table,
            state: CallState::insert(hash),
            generation: None,
            growth: None,
            carried: Carried::Value(value),
            held: HeldLock::Nothing,
            asking: Asking { given, eq, hash_fn },
        };
        InsertCall { call }
    }

    /// Returns the state of the call.
    pub fn state(&self) -> CallState
        ensures { result ≡ self.now.state }
    {
        self.call.state
    }

    /// Takes one step. It tries once for a lock that it needs, so it never waits. It allocates only to place its value and to
    /// begin a growth; a refusal is a step too.
    pub fn advance(&mut self) -> Progress<Result<(&'a T::Target, Option<T>), T>>
        requires may_step { MayStep E.IsAlwaysCallable H.IsAlwaysCallable T.target E.Fn self.old }
        ensures moved { IfMoved result
            (Advances self.old.state self.new.state × (self.new.state.phase ≢ Done)) }
        ensures blocked { IfBlocked result (MayBlock self.old.state.phase) }
        ensures unchanged { IfBlocked result (self.new ≡ self.old) }
        ensures ended { IfEnded result
            (λ reply. Advances self.old.state self.new.state × (self.new.state.phase ≡ Done)) }
        ensures tells { IfEnded result (λ reply. told_by reply ≡ reached_by
            self.new.state.outcome) }
        ensures answers { IfEnded result (λ reply. Answers T.target
            (FnReturnsAtPair E.Fn self.old.eq (T.target self.old.given)) self.old.given reply) }
        ensures names { IfEnded result
            (λ reply. self.old.met ≢ None → accepted_in reply ≡ self.old.met) }
        ensures met { IfMoved result (self.old.met ≢ None → self.new.met ≡ self.old.met) }
        ensures existing { IfMoved result
            (reached_by self.new.state.outcome ≡ Other → self.new.met ≢ None) }
        ensures same { (self.new.given ≡ self.old.given) × (self.new.eq ≡ self.old.eq)
            × (self.new.hash_fn ≡ self.old.hash_fn) }
        ensures may_step { MayStep E.IsAlwaysCallable H.IsAlwaysCallable T.target E.Fn self.new }
    {
        match self.call.try_turn() {
            None => Progress::Blocked,
            Some(_) => {
                if self.call.state.phase == Phase::Done {
                    Progress::Done(self.call.finish())
                } else {
                    Progress::Moved
                }
            }
        }
    }
}

impl<T: AtomicValue, A: Low + Copy, E: Drop, H: Drop> Drop for InsertCall<'_, T, A, E, H> {
    /// Counts a value that was placed and not counted yet, discards a generation that was being built, and releases the lock.
    fn drop(self) {
        let InsertCall { call } = self;
        call.count_placed();
    }
}

/// A look-up that runs one step at a time.
#[derive(Drop)]
pub struct LookupCall<'a, T: AtomicValue, A: Allocator + Copy, F> {
    call: Looking<'a, T, A, F>,
}

impl<'a, T: AtomicValue, A: Allocator + Copy, F> Model for LookupCall<'a, T, A, F> {
    ghost use Rattle.table_shared.specs.Stepped.{LookupView};

    ghost Value = { LookupView F };

    ghost view = { λ c. record { state = c.call.state; test = c.call.test } };
}

impl<'a, T: AtomicValue, A: Allocator + Copy, F: Fn(&T::Target) -> bool> LookupCall<'a, T, A, F> {
    /// Makes a look-up that has taken no step. Does not allocate.
    pub fn new(table: &'a LockFreeRawTable<T, A>, hash: u64, test: F) -> LookupCall<'a, T, A, F>
        ensures starts { result.state ≡ lookup_start hash }
        ensures given { result.test ≡ test }
    {
        LookupCall {
            call: Looking::new(table, hash, test),
        }
    }

    /// Returns the state of the call.
    pub fn state(&self) -> CallState
        ensures { result ≡ self.now.state }
    {
        self.call.state
    }

    /// Takes one step. Takes no lock and does not allocate.
    pub fn advance(&mut self) -> Progress<Option<&'a T::Target>>
        requires callable { F.IsAlwaysCallable self.old.test }
        ensures moved { IfMoved result
            (Advances self.old.state self.new.state × (self.new.state.phase ≢ Done)) }
        ensures blocked { IfBlocked result (self.old.state.phase ≡ Done) }
        ensures unchanged { IfBlocked result (self.new ≡ self.old) }
        ensures ended { IfEnded result
            (λ reply. Advances self.old.state self.new.state × (self.new.state.phase ≡ Done)) }
        ensures tells { IfEnded result
            (λ reply. found_by reply ≡ reached_by self.new.state.outcome) }
        ensures accepted { IfEnded result (λ reply. IfSome reply
            (λ found. FnReturnsAt F.Fn self.old.test found.now true)) }
        ensures same { self.new.test ≡ self.old.test }
    {
        if self.call.state.phase == Phase::Done {
            return Progress::Blocked;
        }
        let (_, found) = self.call.turn();
        if self.call.state.phase == Phase::Done {
            Progress::Done(found)
        } else {
            Progress::Moved
        }
    }
}
