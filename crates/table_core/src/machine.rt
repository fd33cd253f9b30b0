//! The answers, replies and changes of each event.
ghost use Rattle.std.specs.Prelude.{◌≡◌, ◌≢◌, ◌<◌, true, false, if◌then◌else◌, Option, Some, None, length, slice_set, OnOk, OnErr, IfOk, IfSome};
ghost use Rattle.std.specs.Option.{option_map, is_some};
ghost use Rattle.std.specs.List.{slice_get};
ghost use Rattle.table_core.specs.Replies.{ReplyWalk, reply_of};
ghost use Rattle.table_terms.specs.Capacities.{IsFirstCapacity};
ghost use Rattle.table_core.specs.Generations.{next_copied};
ghost use Rattle.table_core.specs.History.{buckets};
ghost use Rattle.table_core.specs.Calls.{Call as SpecCall, decide as after_answer, new_call, state_of, fits, holds_shared, holds_owned};
ghost use Rattle.table_core.specs.Machine.{empty, happens, finishes, finds, takes_unless, holds, read, read_unasked, exchanged, sized, finds_copy, finds_show, released_after_failure};
ghost use Rattle.table_core.specs.Machine.{walked_gen, walked_entry, with_entry, takes_memory, finding_takes_memory, AsksMemory, kept_list, call_after, bucket_of as bucket_stood_at, place, changed};
ghost use Rattle.table_core.specs.Machine.{refused, by_outcome, by_failure, lookup_reply, last_reply, reply_at_end, reply};
ghost use Rattle.table_core.specs.Openings.{opening};
ghost use Rattle.table_core.specs.Reached.{IsReached, CanChange, reply_placed, reply_found, may_not_begin, with_call_unless, moved, reply_to};

use crate::call::{Answer, CallState, Outcome, Phase};
use crate::calls::{Call, Calls};
use crate::deciding::decide;
use crate::event::Event;
use crate::generation::Entry;
use crate::reply::{Finished, Reply};
use crate::table::Table;
use std::alloc::{AllocError, Allocator};
use std::marker::Model;
use table_terms::probe::bits_of_hash;

/// The table and its calls.
#[derive(Drop)]
pub struct Machine<A: Allocator + Copy> {
    alloc: A,
    table: Table<A>,
    calls: Calls<A>,
}

impl<A: Allocator + Copy> Model for Machine<A> {
    ghost use Rattle.table_core.specs.Machine.{World};

    ghost Value = { World };

    ghost view = { λ m. record { table = m.table; calls = m.calls } };
}

/// Returns what a set bucket shows to a call.
fn show_entry(entry: Entry, hash: u64, accepted: bool) -> Answer
    ensures { result ≡ holds entry hash accepted }
{
    if entry.bits == bits_of_hash(hash) {
        Answer::Holds { accepted }
    } else {
        Answer::HoldsUnasked
    }
}

/// Returns what reading a bucket finds.
fn read_bucket(bucket: Option<Entry>, hash: u64, accepted: bool) -> Answer
    ensures { result ≡ read bucket hash accepted }
{
    match bucket {
        None => Answer::Empty,
        Some(entry) => show_entry(entry, hash, accepted),
    }
}

/// Returns what a walk finds when it reads a bucket.
fn read_bucket_unasked(bucket: Option<Entry>) -> Answer
    ensures { result ≡ read_unasked bucket }
{
    match bucket {
        None => Answer::Empty,
        Some(_) => Answer::HoldsUnasked,
    }
}

/// Returns what an exchange of a bucket finds.
fn exchange(bucket: Option<Entry>, hash: u64, accepted: bool) -> Answer
    ensures { result ≡ exchanged bucket hash accepted }
{
    match bucket {
        None => Answer::Won,
        Some(entry) => show_entry(entry, hash, accepted),
    }
}

/// Returns `Taken`, or `None` if the lock is held.
fn take_unless(held: bool) -> Option<Answer>
    ensures { result ≡ takes_unless held }
{
    if held { None } else { Some(Answer::Taken) }
}

/// Returns the reply of a call that returns its value.
fn tell_refused<A: Allocator + Copy>(value: Option<u64>) -> Option<Reply<A>>
    ensures { option_map reply_of result ≡ refused value }
{
    Some(Reply::Refused(value?))
}

/// Returns the reply of an insert that has placed its value.
fn tell_placed<A: Allocator + Copy>(value: Option<u64>) -> Option<Reply<A>>
    ensures { option_map reply_of result ≡ reply_placed value }
{
    Some(Reply::Placed(value?))
}

/// Returns the reply of an insert that has accepted this entry.
fn tell_found<A: Allocator + Copy>(entry: Option<Entry>, value: Option<u64>) -> Option<Reply<A>>
    ensures { option_map reply_of result ≡ reply_found entry value }
{
    match (entry, value) {
        (Some(entry), Some(value)) => Some(Reply::Found(entry.value, value)),
        _ => None,
    }
}

/// Returns the bucket at which a call stands.
fn bucket_of<A: Allocator + Copy>(table: &Table<A>, state: CallState) -> Option<Entry>
    ensures { result ≡ bucket_stood_at table.now state }
{
    table.at(state.walked, state.index)
}

/// Returns the reply of a call by its outcome.
fn tell_outcome<A: Allocator + Copy>(table: &Table<A>, call: &Call<A>) -> Option<Reply<A>>
    ensures { option_map reply_of result ≡ by_outcome table.now call.now }
{
    let state = call.state();
    match state.outcome {
        Outcome::Pending => None,
        Outcome::New { .. } => tell_placed(call.value()),
        Outcome::Existing { index } => tell_found(table.at(state.walked, index), call.value()),
    }
}

/// Returns the reply of a call that ends after its growth has failed. Without an outcome it returns its value.
fn tell_failure<A: Allocator + Copy>(table: &Table<A>, call: &Call<A>) -> Option<Reply<A>>
    ensures { option_map reply_of result ≡ by_failure table.now call.now }
{
    match call.state().outcome {
        Outcome::Pending => tell_refused(call.value()),
        _ => tell_outcome(table, call),
    }
}

/// Returns the reply of a look-up that ends at a set bucket.
fn tell_lookup<A: Allocator + Copy>(
    table: &Table<A>,
    state: CallState,
    accepted: bool,
) -> Option<Reply<A>>
    ensures { option_map reply_of result ≡ lookup_reply table.now state accepted }
{
    if !accepted {
        return Some(Reply::None);
    }
    let entry = bucket_of(table, state)?;
    Some(Reply::Some(entry.value))
}

/// Returns the reply of a call that ends by this answer. The call is not a walk at a bucket.
fn tell_ended<A: Allocator + Copy>(
    alloc: A,
    table: &Table<A>,
    call: &Call<A>,
    answer: Answer,
) -> Option<Reply<A>>
    requires { call.now.state.phase ≢ Phase.WalkAt }
    ensures { option_map reply_of result ≡ last_reply call.now.state.phase table.now call.now
        answer }
{
    match (call.state().phase, answer) {
        (Phase::LeaveRefused, _) => tell_refused(call.value()),
        (Phase::AskSize, _) => tell_outcome(table, call),
        (Phase::LeaveOwned, _) => tell_outcome(table, call),
        (Phase::LeaveFailed, _) => tell_failure(table, call),
        (Phase::LookLoad, _) => Some(Reply::None),
        (Phase::LookProbe, Answer::Holds { accepted }) => {
            tell_lookup(table, call.state(), accepted)
        }
        (Phase::LookProbe, _) => Some(Reply::None),
        (Phase::LenLoad, _) => Some(Reply::Len(0)),
        (Phase::LenSize, Answer::Sized { size }) => Some(Reply::Len(size)),
        (Phase::WalkLoad, _) => Some(Reply::Walk(Vec::new(alloc))),
        _ => None,
    }
}

/// Returns the reply of a call whose next state is this: none before its end. The call is not a walk at a bucket.
fn tell<A: Allocator + Copy>(
    alloc: A,
    table: &Table<A>,
    call: &Call<A>,
    answer: Answer,
    next: CallState,
) -> Option<Reply<A>>
    requires other { call.now.state.phase ≢ Phase.WalkAt }
    requires fitting { fits call.now.state.phase call.now.state answer ≡ true }
    requires next { next ≡ after_answer call.now.state answer }
    ensures { option_map reply_of result ≡ reply table.now call.now answer }
{
    match next.phase {
        Phase::Done => tell_ended(alloc, table, call, answer),
        _ => None,
    }
}

/// Puts the value of a call into the bucket at which it stands.
fn place_value<A: Allocator + Copy>(
    table: &mut Table<A>,
    value: Option<u64>,
    state: CallState,
) -> Result<(), AllocError>
    requires empty { bucket_stood_at table.old state ≡ None }
    requires settled { table.old.building ≡ None }
    ensures ok { OnOk result (table.new ≡ place table.old state value) }
    ensures err { OnErr result (table.new ≡ table.old) }
{
    let Some(value) = value else {
        return Ok(());
    };
    table.place(
        state.walked,
        Entry {
            index: state.index,
            value,
            bits: bits_of_hash(state.hash),
        },
    )
}

/// Applies what an event changes in the table.
fn change<A: Allocator + Copy>(
    alloc: A,
    table: &mut Table<A>,
    call: &Call<A>,
    event: Event,
    answer: Answer,
) -> Result<(), AllocError>
    requires { CanChange table.old call.now event answer }
    ensures ok { OnOk result (table.new ≡ changed table.old call.now event answer) }
    ensures err { OnErr result (table.new ≡ table.old) }
    ensures asks { OnErr result (takes_memory answer call.now.state.phase ≡ true) }
{
    let state = call.state();
    match (event, answer) {
        (Event::Put { .. }, Answer::Won) => place_value(table, call.value(), state),
        (Event::Add { .. }, Answer::Counted) => {
            table.count(state.walked);
            Ok(())
        }
        (Event::Check { .. }, Answer::Begun) => table.begin_growth(alloc),
        (Event::Copy { hash, .. }, Answer::Copied) => table.copy_next(hash),
        (Event::Show { .. }, Answer::Shown) => table.show(alloc),
        _ => Ok(()),
    }
}

impl<A: Allocator + Copy> Machine<A> {
    /// Makes a machine without generations and calls. The first generation will have `first` buckets.
    pub fn new(alloc: A, first: u64) -> Self
        requires { IsFirstCapacity first }
        ensures { result ≡ empty first }
    {
        Machine {
            alloc,
            table: Table::new(alloc, first),
            calls: Calls::new(alloc),
        }
    }

    /// Returns the number of buckets of all generations together, with the one being built.
    pub fn buckets(&self) -> u64
        ensures { result ≡ buckets self.now.table }
    {
        self.table.buckets()
    }

    /// Returns the state of the call of this number, if there is one.
    pub fn state_of(&self, call: u64) -> Option<CallState>
        ensures { result ≡ state_of call self.now.calls }
    {
        self.calls.state_of(call)
    }

    /// Returns what an event of a call finds, or `None` if the event has no place in the call's phase or has to wait.
    fn answer(&self, state: CallState, event: Event) -> Option<Answer>
        ensures { result ≡ finds self.now state event }
    {
        match (state.phase, event) {
            (Phase::WantShared, Event::Share { .. }) => take_unless(self.calls.is_owned()),
            (Phase::Shared, Event::Load { .. }) => Some(self.table.load()),
            (Phase::Probe, Event::Read { accepted, .. }) => Some(self.read(state, accepted)),
            (
                Phase::AtEmpty,
                Event::Put {
                    accepted,
                    granted,
                    ..
                },
            ) => Some(self.put(state, accepted, granted)),
            (Phase::Placed, Event::Add { .. }) => Some(Answer::Counted),
            (Phase::LeaveOk, Event::Free { .. }) => Some(Answer::Released),
            (Phase::LeaveGrow, Event::Free { .. }) => Some(Answer::Released),
            (Phase::LeaveRefused, Event::Free { .. }) => Some(Answer::Released),
            (Phase::AskSize, Event::Size { .. }) => self.size(state),
            (Phase::WantOwned, Event::Own { .. }) => take_unless(self.calls.is_locked()),
            (Phase::Owned, Event::Check { granted, .. }) => Some(self.table.check(granted)),
            (Phase::Building, Event::Copy { .. }) => self.copy(),
            (Phase::Building, Event::Show { .. }) => self.show(),
            (Phase::LeaveOwned, Event::Free { .. }) => Some(Answer::Released),
            (Phase::LeaveFailed, Event::Free { .. }) => Some(self.free_after_failure(state)),
            (Phase::LookLoad, Event::Load { .. }) => Some(self.table.load()),
            (Phase::LookProbe, Event::Read { accepted, .. }) => Some(self.read(state, accepted)),
            (Phase::LenLoad, Event::Load { .. }) => Some(self.table.load()),
            (Phase::LenSize, Event::Size { .. }) => self.size(state),
            (Phase::WalkLoad, Event::Load { .. }) => Some(self.table.load()),
            (Phase::WalkAt, Event::Read { .. }) => Some(self.read_unasked(state)),
            _ => None,
        }
    }

    /// Returns what a read finds at the call's bucket.
    fn read(&self, state: CallState, accepted: bool) -> Answer
        ensures { result ≡ read (bucket_stood_at self.now.table state) state.hash accepted }
    {
        read_bucket(bucket_of(&self.table, state), state.hash, accepted)
    }

    /// Returns what a walk's read finds at the call's bucket.
    fn read_unasked(&self, state: CallState) -> Answer
        ensures { result ≡ read_unasked (bucket_stood_at self.now.table state) }
    {
        read_bucket_unasked(bucket_of(&self.table, state))
    }

    /// Returns what an exchange finds at the call's bucket.
    fn put(&self, state: CallState, accepted: bool, granted: bool) -> Answer
        ensures { result ≡ (if granted then exchanged (bucket_stood_at self.now.table state)
            state.hash accepted else Answer.MemoryRefused) }
    {
        if granted {
            exchange(bucket_of(&self.table, state), state.hash, accepted)
        } else {
            Answer::MemoryRefused
        }
    }

    /// Returns what releasing the lock finds after a failed growth.
    fn free_after_failure(&self, state: CallState) -> Answer
        ensures { result ≡ released_after_failure self.now.table state }
    {
        Answer::ReleasedAfterFailure {
            still_current: self.table.is_current(state.walked),
        }
    }

    /// Returns what reading the size of the call's generation finds.
    fn size(&self, state: CallState) -> Option<Answer>
        ensures { result ≡ sized (walked_gen self.now.table state) }
    {
        let size = self.table.size(state.walked)?;
        Some(Answer::Sized { size })
    }

    /// Returns `Copied` if an entry is left to copy.
    fn copy(&self) -> Option<Answer>
        ensures { result ≡ finds_copy (next_copied self.now.table) }
    {
        let _next = self.table.next()?;
        Some(Answer::Copied)
    }

    /// Returns `Shown` if all entries are copied.
    fn show(&self) -> Option<Answer>
        ensures { result ≡ finds_show (next_copied self.now.table) }
    {
        match self.table.next() {
            Some(_) => None,
            None => Some(Answer::Shown),
        }
    }
}

/// Returns the entry that an answer shows to a walk.
fn entry_shown<A: Allocator + Copy>(
    table: &Table<A>,
    state: CallState,
    answer: Answer,
) -> Option<Entry>
    ensures { result ≡ walked_entry table.now state answer }
{
    match answer {
        Answer::HoldsUnasked => bucket_of(table, state),
        _ => None,
    }
}

/// Appends an entry to the list of the walk at a position.
fn list_entry<A: Allocator + Copy>(
    calls: &mut Calls<A>,
    at: usize,
    entry: Option<Entry>,
) -> Result<(), AllocError>
    requires { at < length calls.old }
    ensures ok { (c : SpecCall) → slice_get calls.old at ≡ Some c
        → OnOk result (calls.new ≡ slice_set calls.old at
        (record c { list = with_entry c.list entry })) }
    ensures err { OnErr result (calls.new ≡ calls.old) }
    ensures asks { OnErr result (is_some entry ≡ true) }
{
    match entry {
        Some(entry) => calls.list_value(at, entry.value),
        None => Ok(()),
    }
}

/// Sets the next state of the walk at a position, and takes its list if it finishes.
fn end_walk<A: Allocator + Copy>(
    alloc: A,
    calls: &mut Calls<A>,
    at: usize,
    next: CallState,
) -> Option<Reply<A>>
    requires { at < length calls.old }
    ensures left { (c : SpecCall) → slice_get calls.old at ≡ Some c
        → calls.new ≡ slice_set calls.old at (record c
        { list = kept_list next.phase c.list; state = next }) }
    ensures reply { (c : SpecCall) → slice_get calls.old at ≡ Some c
        → option_map reply_of result ≡ reply_at_end next.phase (Some (ReplyWalk c.list)) }
{
    calls.set_state(at, next);
    match next.phase {
        Phase::Done => Some(Reply::Walk(calls.take_list(alloc, at))),
        _ => None,
    }
}

/// Lets the walk at a position read a bucket.
fn walk<A: Allocator + Copy>(
    alloc: A,
    table: &Table<A>,
    calls: &mut Calls<A>,
    at: usize,
    answer: Answer,
) -> Result<Option<Reply<A>>, AllocError>
    requires within { at < length calls.old }
    requires walking { (c : SpecCall) → slice_get calls.old at ≡ Some c
        → (c.state.phase ≡ Phase.WalkAt) × (fits c.state.phase c.state answer ≡ true) }
    ensures ok { (c : SpecCall) → slice_get calls.old at ≡ Some c
        → OnOk result (calls.new ≡ slice_set calls.old at (call_after table.now c answer)) }
    ensures reply { (c : SpecCall) → slice_get calls.old at ≡ Some c
        → IfOk result (λ r. option_map reply_of r ≡ reply table.now c answer) }
    ensures err { OnErr result (calls.new ≡ calls.old) }
    ensures asks { OnErr result (takes_memory answer Phase.WalkAt ≡ true) }
{
    let state = calls.get(at).state();
    let entry = entry_shown(table, state, answer);
    list_entry(calls, at, entry)?;
    Ok(end_walk(alloc, calls, at, decide(state, answer)))
}

impl<A: Allocator + Copy> Machine<A> {
    /// Lets the call at a position take its event, if the table of events has a row for it.
    fn go(&mut self, at: usize, event: Event) -> Result<Option<Reply<A>>, AllocError>
        requires within { at < length self.old.calls }
        requires reached { IsReached self.old }
        ensures ok { (c : SpecCall) → slice_get self.old.calls at ≡ Some c
            → OnOk result (self.new ≡ moved self.old at c event (finds self.old c.state event)) }
        ensures reply { (c : SpecCall) → slice_get self.old.calls at ≡ Some c
            → IfOk result (λ r. option_map reply_of r ≡ reply_to self.old c
            (finds self.old c.state event)) }
        ensures err { OnErr result (self.new ≡ self.old) }
        ensures asks { (c : SpecCall) → slice_get self.old.calls at ≡ Some c
            → OnErr result (finding_takes_memory c.state.phase (finds self.old c.state event)
            ≡ true) }
    {
        let state = self.calls.get(at).state();
        let Some(answer) = self.answer(state, event) else {
            return Ok(None);
        };
        if let Phase::WalkAt = state.phase {
            let reply = walk(self.alloc, &self.table, &mut self.calls, at, answer)?;
            return Ok(reply);
        }
        let call = self.calls.get(at);
        let next = decide(state, answer);
        let reply = tell(self.alloc, &self.table, call, answer, next);
        change(self.alloc, &mut self.table, call, event, answer)?;
        self.calls.set_state(at, next);
        Ok(reply)
    }

    /// Begins a call, unless its number or its value is used.
    fn begin(&mut self, number: u64, opening: Opening) -> Result<(), AllocError>
        requires { (holds_shared opening.state.phase ≡ false)
            × (holds_owned opening.state.phase ≡ false) }
        ensures ok { OnOk result (self.new ≡ with_call_unless self.old
            (may_not_begin number opening.value self.old.calls)
            (new_call number opening.value opening.state)) }
        ensures err { OnErr result (self.new ≡ self.old) }
        ensures asks { OnErr result (may_not_begin number opening.value self.old.calls ≡ false) }
    {
        if self.may_not_begin(number, opening.value) {
            return Ok(());
        }
        self.calls
            .begin(self.alloc, number, opening.value, opening.state)
    }

    /// Returns whether a call of this number, with this value, can't begin, since one of them was used.
    fn may_not_begin(&self, number: u64, value: Option<u64>) -> bool
        ensures { result ≡ may_not_begin number value self.now.calls }
    {
        match value {
            Some(value) => self.calls.is_used(number) || self.calls.is_used_value(value),
            None => self.calls.is_used(number),
        }
    }

    /// Lets the call of an event that begins no call take the event.
    fn go_on(&mut self, event: Event) -> Result<Option<Finished<A>>, AllocError>
        requires reached { IsReached self.old }
        requires going { opening event ≡ None }
        ensures ok { OnOk result (self.new ≡ happens self.old event) }
        ensures reply { IfOk result (λ r. r ≡ finishes self.old event) }
        ensures err { OnErr result (self.new ≡ self.old) }
        ensures asks { OnErr result (AsksMemory self.old event) }
    {
        let call = event.call();
        let Some(at) = self.calls.position(call) else {
            return Ok(None);
        };
        match self.go(at, event)? {
            Some(reply) => Ok(Some(Finished { call, reply })),
            None => Ok(None),
        }
    }

    /// Takes one event. If memory is refused the machine is unchanged.
    pub fn step(&mut self, event: Event) -> Result<Option<Finished<A>>, AllocError>
        requires { IsReached self.old }
        ensures ok { OnOk result (self.new ≡ happens self.old event) }
        ensures reply { IfOk result (λ r. r ≡ finishes self.old event) }
        ensures err { OnErr result (self.new ≡ self.old) }
        ensures asks { OnErr result (AsksMemory self.old event) }
    {
        match opening_of(event) {
            Some(opening) => {
                self.begin(event.call(), opening)?;
                Ok(None)
            }
            None => self.go_on(event),
        }
    }
}

/// The value and the first state of a call.
#[derive(Clone, Copy)]
struct Opening {
    value: Option<u64>,
    state: CallState,
}

/// Returns the value and the first state of the call that an event begins, if it begins one.
fn opening_of(event: Event) -> Option<Opening>
    ensures opening { result ≡ opening event }
    ensures unlocked { IfSome result (λ o. (holds_shared o.state.phase ≡ false)
        × (holds_owned o.state.phase ≡ false)) }
{
    let (value, state) = match event {
        Event::Insert { value, hash, .. } => (Some(value), CallState::insert(hash)),
        Event::Lookup { hash, .. } => (None, CallState::lookup(hash)),
        Event::Len { .. } => (None, CallState::length()),
        Event::Walk { .. } => (None, CallState::walk()),
        _ => return None,
    };
    Some(Opening { value, state })
}
