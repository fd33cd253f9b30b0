//! The calls that have begun, by number, and which of them hold the lock.
ghost use Rattle.std.specs.Prelude.{◌≡◌, ℕ, nat_eq, ◌||◌, ◌≤◌, ◌<◌, ◌+◌, ◌^◌, ◌++◌, ◌∷◌, [], Option, Some, None, false, length, slice_set, vec_len, OnOk, OnErr};
ghost use Rattle.std.specs.HashSet as set;
ghost use Rattle.std.specs.List.{slice_get};
ghost use Rattle.table_core.specs.Calls.{new_call, state_of, is_used, is_value, is_used_value, is_owned, is_locked, holds_shared, holds_owned, Call as SpecCall};
ghost use Rattle.table_core.specs.Steps.{IsNewValue};
ghost use Rattle.table_core.specs.Bound.{position_of, one_if};

use crate::call::{CallState, Phase};
use std::alloc::{AllocError, Allocator};
use std::collections::{HashMap, HashSet};
use std::hash::{BuildHasherDefault, FoldHasher};
use std::marker::Model;
use std::mem;

/// A call: its number, the value of an insert, the list that a walk has made so far, and its state.
#[derive(Drop)]
pub struct Call<A: Allocator + Copy> {
    number: u64,
    value: Option<u64>,
    list: Vec<u64, A>,
    state: CallState,
}

impl<A: Allocator + Copy> Model for Call<A> {
    ghost use Rattle.table_core.specs.Calls.{Call};

    ghost Value = { Call };

    ghost view = { λ c. record { number = c.number; value = c.value; list = c.list.items; state = c.state } };
}

/// All calls of a schedule, in the order in which they began. The state of a call, the values in use and the holders of the lock
/// are found without a scan of the calls.
#[derive(Drop)]
pub struct Calls<A: Allocator + Copy> {
    all: Vec<Call<A>, A>,
    positions: HashMap<u64, usize, BuildHasherDefault<FoldHasher>, A>,
    values: HashSet<u64, BuildHasherDefault<FoldHasher>, A>,
    sharing: usize,
    owning: usize,
}

impl<A: Allocator + Copy> Model for Calls<A> {
    ghost use Rattle.std.specs.Prelude.{List};
    ghost use Rattle.table_core.specs.Calls.{Call};
    ghost use Rattle.table_core.specs.Indexed.{IsIndexed};

    ghost Value = { List Call };

    ghost view = { λ c. c.all.items };

    ghost invariant = { λ c. IsIndexed c.all.items c.positions c.values c.sharing c.owning };
}

/// Returns whether a call in this phase holds the lock shared.
fn shares(phase: Phase) -> bool
    ensures { result ≡ holds_shared phase }
{
    matches!(
        phase,
        Phase::Shared
            | Phase::Probe
            | Phase::AtEmpty
            | Phase::Placed
            | Phase::LeaveOk
            | Phase::LeaveGrow
            | Phase::LeaveRefused
    )
}

/// Returns whether a call in this phase holds the lock exclusively.
fn owns(phase: Phase) -> bool
    ensures { result ≡ holds_owned phase }
{
    matches!(
        phase,
        Phase::Owned | Phase::Building | Phase::LeaveOwned | Phase::LeaveFailed
    )
}

/// Returns a count of calls after one of them changed: it was counted if `before`, and is counted now if `after`.
fn recount(count: usize, before: bool, after: bool) -> usize
    requires counted { one_if before ≤ count }
    requires small { count < 2 ^ 63 }
    ensures { result + one_if before ≡ count + one_if after }
{
    match (before, after) {
        (true, false) => count - 1,
        (false, true) => count + 1,
        _ => count,
    }
}

impl<A: Allocator + Copy> Call<A> {
    /// Returns the state of the call.
    pub fn state(&self) -> CallState
        ensures { result ≡ self.now.state }
    {
        self.state
    }

    /// Returns the value of an insert.
    pub fn value(&self) -> Option<u64>
        ensures { result ≡ self.now.value }
    {
        self.value
    }

    fn set_state(&mut self, state: CallState)
        ensures { self.new ≡ record self.old { state = state } }
    {
        self.state = state;
    }

    fn list_value(&mut self, value: u64) -> Result<(), AllocError>
        ensures ok { OnOk result (self.new ≡ record self.old
            { list = self.old.list ++ value ∷ [] }) }
        ensures err { OnErr result (self.new ≡ self.old) }
    {
        self.list.push(value)?;
        Ok(())
    }

    fn take_list(&mut self, alloc: A) -> Vec<u64, A>
        ensures list { result.items ≡ self.old.list }
        ensures left { self.new ≡ record self.old { list = [] } }
    {
        mem::replace(&mut self.list, Vec::new(alloc))
    }
}

/// Marks the value of an insert as used.
fn use_value<A: Allocator + Copy>(
    values: &mut HashSet<u64, BuildHasherDefault<FoldHasher>, A>,
    value: Option<u64>,
) -> Result<(), AllocError>
    ensures ok { OnOk result ((v : ℕ) → set.contains nat_eq values.new v
        ≡ (is_value v value || set.contains nat_eq values.old v)) }
    ensures err { OnErr result (values.new.keys ≡ values.old.keys) }
{
    if let Some(value) = value {
        values.insert(value)?;
    }
    Ok(())
}

/// Returns the state of the call at a position.
fn state_at<A: Allocator + Copy>(all: &[Call<A>], at: usize) -> CallState
    requires { at < length all.now }
    ensures { (c : SpecCall) → slice_get all.now at ≡ Some c → result ≡ c.state }
{
    all[at].state()
}

fn set_state_at<A: Allocator + Copy>(all: &mut Vec<Call<A>, A>, at: usize, state: CallState)
    requires { at < vec_len all.old }
    ensures { (c : SpecCall) → slice_get all.old.items at ≡ Some c
        → all.new.items ≡ slice_set all.old.items at (record c { state = state }) }
{
    let call = &mut all[at];
    call.set_state(state);
}

fn list_value_at<A: Allocator + Copy>(
    all: &mut Vec<Call<A>, A>,
    at: usize,
    value: u64,
) -> Result<(), AllocError>
    requires { at < vec_len all.old }
    ensures ok { (c : SpecCall) → slice_get all.old.items at ≡ Some c
        → OnOk result (all.new.items ≡ slice_set all.old.items at
        (record c { list = c.list ++ value ∷ [] })) }
    ensures err { OnErr result (all.new.items ≡ all.old.items) }
{
    let call = &mut all[at];
    call.list_value(value)
}

fn take_list_at<A: Allocator + Copy>(all: &mut Vec<Call<A>, A>, at: usize, alloc: A) -> Vec<u64, A>
    requires { at < vec_len all.old }
    ensures list { (c : SpecCall) → slice_get all.old.items at ≡ Some c → result.items ≡ c.list }
    ensures left { (c : SpecCall) → slice_get all.old.items at ≡ Some c
        → all.new.items ≡ slice_set all.old.items at (record c { list = [] }) }
{
    let call = &mut all[at];
    call.take_list(alloc)
}

impl<A: Allocator + Copy> Calls<A> {
    /// Makes an empty collection. Does not allocate.
    pub fn new(alloc: A) -> Self
        ensures { result ≡ [] }
    {
        Calls {
            all: Vec::new(alloc),
            positions: HashMap::new(alloc),
            values: HashSet::new(alloc),
            sharing: 0,
            owning: 0,
        }
    }

    /// Returns the position of the call of this number.
    pub fn position(&self, number: u64) -> Option<usize>
        ensures { result ≡ position_of number self.now }
    {
        self.positions.get(&number).copied()
    }

    /// Returns the state of the call of this number, if there is one.
    pub fn state_of(&self, number: u64) -> Option<CallState>
        ensures { result ≡ state_of number self.now }
    {
        match self.position(number) {
            Some(at) => Some(self.get(at).state()),
            None => None,
        }
    }

    /// Returns whether a call has this number.
    pub fn is_used(&self, number: u64) -> bool
        ensures { result ≡ is_used number self.now }
    {
        self.positions.contains_key(&number)
    }

    /// Returns whether an insert has this value.
    pub fn is_used_value(&self, value: u64) -> bool
        ensures { result ≡ is_used_value value self.now }
    {
        self.values.contains(&value)
    }

    /// Returns whether a call holds the lock exclusively.
    pub fn is_owned(&self) -> bool
        ensures { result ≡ is_owned self.now }
    {
        self.owning > 0
    }

    /// Returns whether a call holds the lock.
    pub fn is_locked(&self) -> bool
        ensures { result ≡ is_locked self.now }
    {
        self.sharing > 0 || self.owning > 0
    }

    /// Adds a call, in its first state.
    pub fn begin(
        &mut self,
        alloc: A,
        number: u64,
        value: Option<u64>,
        state: CallState,
    ) -> Result<(), AllocError>
        requires number { is_used number self.old ≡ false }
        requires value { IsNewValue self.old value }
        requires unlocked { (holds_shared state.phase ≡ false) × (holds_owned state.phase ≡ false) }
        ensures ok { OnOk result (self.new ≡ self.old ++ new_call number value state ∷ []) }
        ensures err { OnErr result (self.new ≡ self.old) }
    {
        let call = Call {
            number,
            value,
            list: Vec::new(alloc),
            state,
        };
        self.all.reserve(1)?;
        self.positions.reserve(1)?;
        use_value(&mut self.values, value)?;
        self.positions.insert(number, self.all.len())?;
        self.all.push(call)?;
        Ok(())
    }

    /// Returns the call at a position.
    pub fn get(&self, at: usize) -> &Call<A>
        requires { at < length self.now }
        ensures { slice_get self.now at ≡ Some result.now }
    {
        &self.all[at]
    }

    /// Sets the state of the call at a position.
    pub fn set_state(&mut self, at: usize, state: CallState)
        requires { at < length self.old }
        ensures { (c : SpecCall) → slice_get self.old at ≡ Some c
            → self.new ≡ slice_set self.old at (record c { state = state }) }
    {
        let before = state_at(self.all.as_slice(), at).phase;
        set_state_at(&mut self.all, at, state);
        self.sharing = recount(self.sharing, shares(before), shares(state.phase));
        self.owning = recount(self.owning, owns(before), owns(state.phase));
    }

    /// Appends a value to the list of the walk at a position.
    pub fn list_value(&mut self, at: usize, value: u64) -> Result<(), AllocError>
        requires { at < length self.old }
        ensures ok { (c : SpecCall) → slice_get self.old at ≡ Some c
            → OnOk result (self.new ≡ slice_set self.old at
            (record c { list = c.list ++ value ∷ [] })) }
        ensures err { OnErr result (self.new ≡ self.old) }
    {
        list_value_at(&mut self.all, at, value)?;
        Ok(())
    }

    /// Takes the list out of the walk at a position.
    pub fn take_list(&mut self, alloc: A, at: usize) -> Vec<u64, A>
        requires { at < length self.old }
        ensures list { (c : SpecCall) → slice_get self.old at ≡ Some c → result.items ≡ c.list }
        ensures left { (c : SpecCall) → slice_get self.old at ≡ Some c
            → self.new ≡ slice_set self.old at (record c { list = [] }) }
    {
        take_list_at(&mut self.all, at, alloc)
    }
}
