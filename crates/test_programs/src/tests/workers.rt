//! The calls of workers and of gates, made by one thread.
ghost use Rattle.table_shared.specs.Stepped.{MayStep};

use super::assert_same;
use lock_free_hashtable::raw::{LockFreeRawTable, Low};
use lock_free_hashtable::stepped::InsertCall;
use seated::NumberTable;
use std::alloc::Global;
use std::cell::Cell;
use std::process::Abort;
use std::sync::Wait;
use std::test::Fail;
use tool_commands::endings::Ending;
use tool_commands::gate::{Gate, Gates, MeetingGate, ProgramGates};
use tool_commands::kinds::Kind;
use tool_commands::seats::work;
use tool_commands::workers::{ValueTable, Values, Worker, hash_of, insert_all, make_call};

/// A gate that is closed from this insert on, and to this worker. It also makes such gates.
#[derive(Clone, Copy)]
pub(super) struct Closed(pub(super) usize, pub(super) usize);

/// A number that no worker and no insert has.
pub(super) const NONE: usize = usize::MAX;

/// A gate that lets everyone pass.
pub(super) const OPEN: Closed = Closed(NONE, NONE);

impl Gate for Closed {
    fn may_pass(&self, worker: usize, call: usize) -> bool {
        call < self.0 && worker != self.1
    }

    fn answered(&self, _worker: usize, _call: usize) {}

    fn give_up(&self) {}
}

impl Gates for Closed {
    type Gate = Closed;

    fn gate(&self) -> Closed {
        *self
    }
}

/// Asserts for each row whether the gate lets the worker pass before the insert. A row has the worker, the insert, and whether it passes.
pub(super) fn assert_passes(rt: &impl Abort, gate: &MeetingGate, rows: &[(usize, usize, bool)]) {
    for (worker, call, passes) in rows {
        assert_eq!(rt;
            gate.may_pass(*worker, *call),
            *passes,
            "worker {worker}, call {call}"
        );
    }
}

#[test]
fn one_thread_asks_a_gate(rt: HostRuntime) {
    let gate = MeetingGate::new(1000);
    let alone = [(0, 0, false), (1, 0, true), (1, 1, false), (0, 1, false)];
    assert_passes(&rt, &gate, &alone);
    gate.answered(1, 0);
    gate.answered(2, 0);
    assert_passes(&rt, &gate, &[(0, 1, true), (1, 1, false), (0, 0, true)]);
    assert_passes(&rt, &gate, &[(0, 2, true), (2, 0, true), (63, 1, true)]);
}

#[test]
fn a_gate_that_was_given_up_keeps_nobody_waiting(rt: HostRuntime) {
    // This many looks would take years.
    let gate = MeetingGate::new(u64::MAX);
    gate.give_up();
    assert_passes(&rt, &gate, &[(0, 0, false), (0, 1, false), (1, 1, false)]);
    assert_passes(&rt, &gate, &[(1, 0, true), (2, 0, true)]);
}

/// Asserts how two workers end under a gate if they run one after the other. `first` is the number of the worker that runs first.
fn assert_in_turn<G: Gate>(
    rt: &(impl Wait + AllocGlobal + Abort),
    gate: &G,
    first: usize,
    ending: Ending,
) {
    let table: Values<_> = LockFreeRawTable::new(rt.alloc());
    for number in [first % 2, 1 - first % 2] {
        let worker = Worker::new(Kind::InsertUnique.job(0), number);
        assert_same(rt, insert_all(rt, rt.alloc(), gate, &table, worker), ending);
    }
}

#[test]
fn workers_one_after_the_other_are_stuck(rt: HostRuntime) {
    for first in [0, 1] {
        assert_in_turn(&rt, &MeetingGate::new(1000), first, Ending::Stuck);
    }
    // An open gate lets them pass. The program's own gate doesn't. It gets fewer looks here.
    assert_in_turn(&rt, &OPEN, 0, Ending::Well);
    let mut gate = ProgramGates.gate();
    gate.turns = 1000;
    assert_in_turn(&rt, &gate, 0, Ending::Stuck);
}

/// Asserts how calls on a new table end. A row has the worker, the number of its call, and the ending.
fn assert_calls<G: Gate>(
    rt: &(impl Wait + AllocGlobal + Abort),
    gate: &G,
    calls: &[(usize, usize, Ending)],
) {
    let table: Values<_> = LockFreeRawTable::new(rt.alloc());
    for (number, call, ending) in calls {
        assert!(rt; *number < 2 && *call < 1000);
        let worker = Worker::new(Kind::InsertLookup.job(0), *number);
        let ended = make_call(rt, rt.alloc(), gate, &table, worker, *call);
        assert_eq!(rt; ended, *ending, "worker {number}, call {call}");
    }
}

#[test]
fn workers_call_by_call_are_stuck(rt: HostRuntime) {
    // Each worker's first call, and then the second call of the one that came last.
    for (first, last) in [(0, 1), (1, 0)] {
        let first = (first, 0, Ending::Stuck);
        let calls = [first, (last, 0, Ending::Well), (last, 1, Ending::Stuck)];
        assert_calls(&rt, &MeetingGate::new(1000), &calls);
    }
}

#[test]
fn each_call_looks_for_the_value_before(rt: HostRuntime) {
    assert_calls(&rt, &OPEN, &[(0, 0, Ending::Well)]);
    assert_calls(&rt, &OPEN, &[(0, 1, Ending::Missed)]);
    assert_calls(&rt, &OPEN, &[(0, 2, Ending::Missed)]);
    assert_calls(&rt, &OPEN, &[(0, 999, Ending::Missed)]);
}

/// A gate that notes, when a worker has its answer, whether the table has the first worker's value.
#[derive(Drop)]
struct Watching<'a> {
    table: &'a Values<Global>,
    found: &'a Cell<bool>,
}

impl Gate for Watching<'_> {
    fn may_pass(&self, _worker: usize, _call: usize) -> bool {
        true
    }

    fn answered(&self, _worker: usize, _call: usize) {
        let found = self.table.lookup(hash_of(0), |entry: &u32| *entry == 0);
        self.found.set(found.is_some());
    }

    fn give_up(&self) {}
}

#[test]
fn a_gate_is_called_after_the_value_is_an_entry(rt: HostRuntime) {
    let table: Values<Global> = LockFreeRawTable::new(rt.alloc());
    let found = Cell::new(false);
    let gate = Watching {
        table: &table,
        found: &found,
    };
    let worker = Worker::new(Kind::InsertUnique.job(0), 0);
    let ended = make_call(&rt, rt.alloc(), &gate, &table, worker, 0);
    assert_same(&rt, ended, Ending::Well);
    assert!(rt; found.get());
}

/// How many steps an insert takes until it has taken the lock, made the first generation and placed its value.
const STEPS_TO_PLACE: u64 = 11;

/// Takes `times` steps of an insert.
fn advance_times<A: Low + Copy, E: Fn(&u32, &u32) -> bool, H: Fn(&u32) -> u64>(
    call: &mut InsertCall<'_, Box<u32, A>, A, E, H>,
    times: u64,
)
    requires may_step { MayStep E.IsAlwaysCallable H.IsAlwaysCallable (λ b. b.value) E.Fn call.old }
{
    for _ in 0..times {
        call.advance();
    }
}

#[test]
fn a_walk_shows_what_is_not_counted_yet(rt: HostRuntime) -> Result<(), Fail> {
    let table: Values<Global> = LockFreeRawTable::new(rt.alloc());
    let mut call = InsertCall::new(
        &table,
        hash_of(5),
        Box::new(rt.alloc(), 5u32)?,
        |new: &u32, entry: &u32| *new == *entry,
        |entry: &u32| hash_of(*entry),
    );
    advance_times(&mut call, STEPS_TO_PLACE);
    assert_same(&rt, table.len(), 0);
    assert_same(&rt, table.walked_entries(), 1);
    Ok(())
}

#[test]
fn seats_in_one_thread_are_stuck(rt: HostRuntime) -> Result<(), Fail> {
    let gate = MeetingGate::new(1000);
    let words: usize = 1024;
    assert!(&rt; words.is_power_of_two());
    let (table, seat) = NumberTable::new(rt.alloc(), words)?;
    let Ok((first, second)) = table.split(seat) else {
        unreachable!()
    };
    let (_, first) = work(&gate, 0, &table, first);
    let (_, second) = work(&gate, 1, &table, second);
    assert!(rt; first.is_stuck && second.is_stuck);
    assert_same(&rt, first.placed, 0);
    assert_same(&rt, second.placed, 1);
    Ok(())
}
