//! Runs of many workers, and what ends them.
use super::words::run_called;
use super::workers::{Closed, NONE, OPEN, assert_passes};
use super::{Host, assert_same, run_refusing, run_under};
use lock_free_hashtable::raw::LockFreeRawTable;
use std::alloc::{AllocError, Allocator};
use std::cell::Cell;
use std::sync::Wait;
use std::test::Fail;
use testkit::refusing::{Refusing, Rule};
use testkit::streams::Called;
use tool_commands::faults::Fault;
use tool_commands::gate::{Gates, MeetingGate, ProgramGates};
use tool_commands::jobs::{Crew, run_job};
use tool_commands::kinds::Kind;
use tool_commands::seats::{WORKER_STACK, run_seats};
use tool_commands::stress::run_stress;
use tool_commands::workers::{ValueTable, Values};
use tool_streams::faults::StreamFault;

/// An input that is empty.
const NOTHING: &[u8] = b"";

const STRESS: [&str; 3] = ["stress", "2", "1"];

const SEATS: [&str; 2] = ["seats", "2"];

const UNIQUE: &str = "insert_unique 2000\n";

const ALL: &str = "insert_unique 2000\ninsert_same 10000\ninsert_lookup 2000\n";

const FULL: &str = "placed 1024\nfull 2\n";

/// Asserts that a gate ends a command, and what was printed before.
fn assert_stuck(rt: &impl Host, gate: Closed, words: &[&str], printed: &str) {
    run_under(rt, rt.alloc(), &gate, words, NOTHING).assert(rt, printed, "gate stuck\n", 1);
}

#[test]
fn a_no_of_the_gate_ends_the_run(rt: HostRuntime) {
    for (call, printed) in [(0, ""), (1, ""), (999, ""), (1000, UNIQUE), (9999, UNIQUE)] {
        assert_stuck(&rt, Closed(call, NONE), &STRESS, printed);
    }
    assert_stuck(&rt, Closed(NONE, 1), &STRESS, "");
    for call in [0, 1, 1024] {
        assert_stuck(&rt, Closed(call, NONE), &SEATS, "");
    }
    for worker in 0..3 {
        assert_stuck(&rt, Closed(NONE, worker), &["seats", "3"], "");
    }
    run_under(&rt, rt.alloc(), &Closed(10_000, NONE), &STRESS, NOTHING).assert(&rt, ALL, "", 0);
    run_under(&rt, rt.alloc(), &Closed(1025, NONE), &SEATS, NOTHING).assert(&rt, FULL, "", 0);
}

/// More bytes than a process can have.
const NO_STACK: usize = 1 << 60;

/// Asserts that `stress` ends if its threads can't be started, and prints nothing.
fn assert_no_thread<G: Gates>(rt: &impl Host, gates: &G) {
    let (alloc, crew) = (rt.alloc(), Crew::new(2, NO_STACK));
    let mut output = Vec::new(alloc);
    let ended = run_stress(rt, alloc, crew, 1, gates, &mut output);
    assert_same(rt, ended, Err(Fault::NoThread));
    assert!(rt; output.is_empty());
}

#[test]
fn a_thread_that_cannot_be_started_ends_the_run(rt: HostRuntime) {
    assert_no_thread(&rt, &ProgramGates);
    assert_no_thread(&rt, &Closed(0, NONE));
    // This many looks would take years.
    let gate = MeetingGate::new(u64::MAX);
    let mut output = Vec::new(rt.alloc());
    let ended = run_seats(&rt, rt.alloc(), 2, NO_STACK, &gate, &mut output);
    assert_same(&rt, ended, Err(Fault::NoThread));
    assert!(rt; output.is_empty());
    assert_passes(&rt, &gate, &[(0, 0, false)]);
}

#[test]
fn refused_memory_ends_the_run(rt: HostRuntime) {
    // A number table makes three requests, and the list of threads one.
    for granted in 0..4 {
        let heap = Refusing::new(rt.alloc(), Rule::new(0, usize::MAX, granted, 1));
        run_under(&rt, &heap, &OPEN, &SEATS, NOTHING).assert(&rt, "", "no memory\n", 1);
        run_under(&rt, &heap, &OPEN, &SEATS, NOTHING).assert(&rt, FULL, "", 0);
    }
    for granted in [0, 1, 2, 3, 4, 5, 6, 7, 8, 9, 10, 11, 12, 100, 1000] {
        let rule = Rule::new(0, usize::MAX, granted, u64::MAX);
        run_refusing(&rt, rule, &STRESS, NOTHING).assert(&rt, "", "no memory\n", 1);
    }
}

#[test]
fn refused_memory_is_reported_before_a_stuck_gate(rt: HostRuntime) {
    // The list of threads is granted. The next request is for the first value of worker 0, and is refused.
    let heap = Refusing::new(rt.alloc(), Rule::new(0, usize::MAX, 1, u64::MAX));
    run_under(&rt, &heap, &Closed(NONE, 1), &STRESS, NOTHING).assert(&rt, "", "no memory\n", 1);
}

#[test]
fn output_may_be_refused(rt: HostRuntime) {
    let refused = Err(Fault::Stream(StreamFault::WriteFailed));
    for room in [0, 18, 19, 54] {
        let (mut bytes, crew) = ([0u8; 64], Crew::new(2, WORKER_STACK));
        let mut part = &mut bytes[..room];
        let ended = run_stress(&rt, rt.alloc(), crew, 1, &OPEN, &mut part);
        assert_same(&rt, ended, refused);
    }
    for room in [0, 11, 12] {
        let mut bytes = [0u8; 64];
        let mut part = &mut bytes[..room];
        let ended = run_seats(&rt, rt.alloc(), 2, WORKER_STACK, &OPEN, &mut part);
        assert_same(&rt, ended, refused);
    }
}

/// A table that reports this number of entries, and whose look-ups find each value but one.
#[derive(Clone, Copy)]
struct Faulty(usize, u32);

impl<A: Allocator + Copy> ValueTable<A> for Faulty {
    fn insert_value<R: Wait>(&self, _rt: &R, _alloc: A, value: u32) -> Result<u32, AllocError> {
        Ok(value)
    }

    fn finds_value(&self, value: u32) -> bool {
        value != self.1
    }

    fn walked_entries(&self) -> usize {
        self.0
    }
}

/// Asserts how job 3 of a kind ends with two workers on a faulty table, which reports `entries` entries and misses one of `values`.
fn assert_faulty(rt: &impl Host, kind: Kind, entries: usize, values: &[u32], is_well: bool) {
    let failed = Err(Fault::JobFailed { kind, job: 3 });
    let wanted = if is_well { Ok(entries) } else { failed };
    for missed in values {
        let (crew, faulty) = (Crew::new(2, WORKER_STACK), Faulty(entries, *missed));
        let ended = run_job(rt, rt.alloc(), crew, &OPEN, &faulty, kind.job(3));
        assert_eq!(rt; ended, wanted, "{kind}, {entries}, {missed}");
    }
}

#[test]
fn a_table_that_is_faulty_fails_its_job(rt: HostRuntime) {
    assert_faulty(&rt, Kind::InsertUnique, 2000, &[2], true);
    assert_faulty(&rt, Kind::InsertUnique, 2000, &[3, 1002, 2002], false);
    assert_faulty(&rt, Kind::InsertUnique, 2001, &[2], false);
    assert_faulty(&rt, Kind::InsertSame, 10_000, &[2], true);
    assert_faulty(&rt, Kind::InsertSame, 10_000, &[3, 10_002], false);
    assert_faulty(&rt, Kind::InsertSame, 9999, &[2], false);
    // A worker doesn't look for its last value.
    assert_faulty(&rt, Kind::InsertLookup, 2000, &[1002, 2002], true);
    assert_faulty(&rt, Kind::InsertLookup, 2000, &[3, 1001, 2001], false);
    assert_faulty(&rt, Kind::InsertLookup, 1999, &[2], false);
}

#[test]
fn each_kind_has_its_entries(rt: HostRuntime) {
    for (kind, entries) in [
        (Kind::InsertUnique, 3000),
        (Kind::InsertSame, 10_000),
        (Kind::InsertLookup, 3000),
    ] {
        let table: Values<_> = LockFreeRawTable::new(rt.alloc());
        let crew = Crew::new(3, WORKER_STACK);
        let shown = run_job(&rt, rt.alloc(), crew, &OPEN, &table, kind.job(999));
        assert_same(&rt, shown, Ok(entries));
    }
}

/// Open gates, which count how many gates were made.
#[derive(Drop)]
struct Counting<'a> {
    made: &'a Cell<usize>,
}

impl Gates for Counting<'_> {
    type Gate = Closed;

    fn gate(&self) -> Closed {
        self.made.set(self.made.get().saturating_add(1));
        OPEN
    }
}

#[test]
fn each_job_has_a_gate_of_its_own(rt: HostRuntime) {
    let made = Cell::new(0);
    let gates = Counting { made: &made };
    run_under(&rt, rt.alloc(), &gates, &["stress", "2", "2"], NOTHING).assert(&rt, ALL, "", 0);
    assert_same(&rt, made.get(), 6);
}

#[test]
fn failed_jobs_are_named(rt: HostRuntime) -> Result<(), Fail> {
    for (kind, job, text) in [
        (Kind::InsertUnique, 0, "insert_unique failed at job 0"),
        (Kind::InsertSame, 7, "insert_same failed at job 7"),
        (Kind::InsertLookup, 999, "insert_lookup failed at job 999"),
    ] {
        let message = format!(in rt.alloc(); "{}", Fault::JobFailed { kind, job })?;
        assert_same(&rt, message.as_str(), text);
    }
    Ok(())
}

/// How often the first request of a pair looks for the second. It yields after some of these looks.
const LOOKS: u64 = (1 << 15) + 100;

/// Checks that the program runs its jobs under its gate. A first request for the memory of a value waits for a second. The test makes one,
/// and the first insert of a worker the next. The first insert of the other worker then waits for a fourth request, which the gate holds
/// back until that insert has its result. So the request goes on without it.
#[test]
fn the_program_runs_its_jobs_under_its_gate(rt: HostRuntime) -> Result<(), Fail> {
    let rule = Rule::new(4, 4, u64::MAX, 0).paired(2, LOOKS);
    let heap = Refusing::new(rt.alloc(), rule);
    let own: Box<u32, _> = Box::new(&heap, 0)?;
    assert_same(&rt, heap.went_alone(), 1);
    let called = Called {
        arguments: &[b"tablerun", b"stress", b"2", b"1"],
        alloc: rt.alloc(),
    };
    run_called(&rt, &called, &heap, NOTHING).assert(&rt, ALL, "", 0);
    assert_same(&rt, heap.went_alone(), 2);
    drop(own);
    Ok(())
}
