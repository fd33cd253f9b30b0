//! Two calls that interrupt each other.
use std::alloc::Global;
use std::process::Abort;
use testkit_replay::fault::{ReplayFault, granted};
use testkit_replay::schedules::Ask::{Insert, Lookup};
use testkit_replay::schedules::{Ask, Leg, add_whole, drawn_capacity, run_legs};
use testkit_replay::script::{Manner, Script};

/// The hashes of the entries, and the two calls. The class of an entry is its index.
type Start = (&'static [u64], (Ask, Ask));

const STARTS: [Start; 5] = [
    // Equal values: one insert is first at the bucket.
    (&[1], (Insert(100, 0), Insert(100, 0))),
    // Different values of one hash: one insert goes on to another bucket.
    (&[1], (Insert(100, 0), Insert(101, 0))),
    // No generation: one insert makes it.
    (&[], (Insert(100, 0), Insert(100, 0))),
    // Both inserts want growth, or one finds that the other has grown the table.
    (&SEVEN, (Insert(107, 7), Insert(108, 8))),
    // A look-up during the insert of its value, and during growth.
    (&SEVEN, (Insert(107, 7), Lookup(107, 7))),
];

const SEVEN: [u64; 7] = [0, 1, 2, 3, 4, 5, 6];

/// The maximum number of steps that each call takes before the other.
const AHEAD: u64 = 24;

/// The maximum number of steps of both calls together.
const MOST: u64 = 400;

/// Runs the calls of a start. First the first call takes up to `steps.0` steps, and then the second up to `steps.1`. After that each in turn
/// runs until it is blocked or ends. `Err`: the first fault.
fn cut(alloc: Global, start: &Start, steps: (u64, u64)) -> Result<(), ReplayFault> {
    let (hashes, asks) = *start;
    let mut legs = Vec::new(alloc);
    for (index, hash) in hashes.iter().enumerate() {
        add_whole(&mut legs, index, Insert(index as u64, *hash))?;
    }
    let (first, (one, other)) = (hashes.len(), steps);
    let rest = MOST.saturating_sub(one).saturating_sub(other);
    let last = [
        Leg::Begin(asks.0),
        Leg::Begin(asks.1),
        Leg::Run(first, one),
        Leg::Run(first.saturating_add(1), other),
        Leg::RunAll(first, rest),
    ];
    granted(legs.extend_from_slice(&last))?;
    let script = Script::new(Manner::Lawful, 0);
    run_legs(alloc, drawn_capacity(), &script, legs.as_slice())
}

/// Asserts that the calls of a start do what the machine does, however many steps the first takes ahead.
fn assert_cuts(rt: &impl Abort, alloc: Global, start: &Start, second: u64) {
    let (hashes, _asks) = *start;
    for first in 0..AHEAD.wrapping_add(1) {
        let steps = (first, second);
        let fault = cut(alloc, start, steps).err();
        assert!(rt; fault.is_none(), "{fault:?} {hashes:?} {steps:?}");
    }
}

/// Asserts that the calls of a start do what the machine does, however many steps each takes ahead.
fn assert_start(rt: &impl Abort, alloc: Global, start: &Start) {
    for second in 0..AHEAD.wrapping_add(1) {
        assert_cuts(rt, alloc, start, second);
    }
}

#[test]
fn two_calls_that_cut_into_each_other(rt: HostRuntime) {
    for start in &STARTS {
        assert_start(&rt, rt.alloc(), start);
    }
}
