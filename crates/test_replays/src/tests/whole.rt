//! Whole inserts and look-ups, with other calls inside their closures.
use std::alloc::Global;
use std::process::Abort;
use std::sync::Wait;
use std::thread::Threads;
use table_terms::capacity::is_first_capacity;
use testkit_replay::item::Said;
use testkit_replay::item::Said::{Found, None as Absent, Placed, Refused, Some as Shown};
use testkit_replay::schedules::Ask;
use testkit_replay::schedules::Ask::{Insert, Lookup};
use testkit_replay::script::Manner;
use testkit_replay::whole_calls::{Moment, Plan, Refusals, Top, Worked, run_whole};

/// The number of seeds for each first capacity.
const SEEDS: u64 = 200;

/// The number of calls that run one after the other.
const TOPS: u64 = 40;

/// No request is refused.
const GRANTED: Refusals = (0, 0);

/// The first request is refused.
const REFUSED: Refusals = (0, 1);

/// The block of a value is granted, and the growth after it is refused.
const GROWTH_REFUSED: Refusals = (1, 1);

/// The number of values that are inserted first, the calls after those, the calls inside the first closure that the last of them calls, and
/// the replies after the first inserts, in the order in which the calls end. The first generation has 16 buckets.
type Row = (u64, &'static [Top], &'static [Ask], &'static [(u64, Said)]);

const ROWS: [Row; 6] = [
    // An equal value is placed while the insert calls its closure with another entry.
    (
        1,
        &[(Insert(1, 0), GRANTED)],
        &[Insert(1, 0)],
        &[(2, Placed(2)), (1, Found(2, 1))],
    ),
    // Another value of the same hash is placed meanwhile: the insert goes on to the next bucket.
    (
        1,
        &[(Insert(1, 0), GRANTED)],
        &[Insert(2, 0), Lookup(1, 0), Lookup(2, 0)],
        &[(2, Placed(2)), (3, Absent), (4, Shown(2)), (1, Placed(1))],
    ),
    // The table grows during a look-up, and the value that it looks for is placed only in the new generation.
    (
        7,
        &[(Lookup(8, 0), GRANTED)],
        &[Insert(7, 7), Insert(8, 0), Lookup(8, 0)],
        &[(8, Placed(8)), (9, Placed(9)), (10, Shown(9)), (7, Absent)],
    ),
    // Look-ups while a growth copies: one finds the value whose insert grows the table.
    (
        7,
        &[(Insert(7, 7), GRANTED)],
        &[Lookup(7, 7), Lookup(0, 0), Lookup(9, 9)],
        &[(8, Shown(7)), (9, Shown(0)), (10, Absent), (7, Placed(7))],
    ),
    // A growth is refused. The next insert finds an equal entry, and still grows the table. A look-up in its closure finds the value that
    // was placed.
    (
        7,
        &[(Insert(7, 7), GROWTH_REFUSED), (Insert(0, 0), GRANTED)],
        &[Lookup(7, 7)],
        &[(7, Placed(7)), (9, Shown(7)), (8, Found(0, 8))],
    ),
    // The first generation is refused, and then the block of a value.
    (
        0,
        &[
            (Insert(0, 0), REFUSED),
            (Insert(1, 0), GRANTED),
            (Insert(2, 0), REFUSED),
            (Lookup(1, 0), GRANTED),
        ],
        &[Lookup(0, 0)],
        &[
            (0, Refused(0)),
            (1, Placed(1)),
            (2, Refused(2)),
            (4, Absent),
            (3, Shown(1)),
        ],
    ),
];

/// Asserts that the calls of a plan do what the machine does. The first of them placed their values, and the others have the expected
/// replies.
pub(crate) fn assert_worked<R: Abort + Threads + Wait + Sync>(
    rt: &R,
    alloc: Global,
    worked: Worked<'_>,
    expected: &[(u64, Said)],
) {
    assert!(rt; is_first_capacity(16));
    let run = run_whole(rt, alloc, 16, Manner::Lawful, 0, Plan::Worked(worked));
    let replies = run.expect(rt, "no fault");
    let (first, then) = replies
        .split_at_checked(worked.filled as usize)
        .expect(rt, "the first calls");
    for (call, reply) in first.iter().enumerate() {
        assert_eq!(rt; *reply, (call as u64, Placed(call as u64)));
    }
    assert_eq!(rt; then, expected);
}

#[test]
fn whole_calls_that_are_worked(rt: HostRuntime) {
    for row in &ROWS {
        let (filled, then, others, expected) = *row;
        let worked = Worked {
            filled,
            then,
            moment: Moment::InClosure,
            others,
        };
        assert_worked(&rt, rt.alloc(), worked, expected);
    }
}

/// Asserts that the calls of a seed do what the machine does. Half of the seeds have careless closures, and half have requests refused.
fn assert_seed<R: Abort + Threads + Wait + Sync>(rt: &R, alloc: Global, first: u64, seed: u64) {
    let manner = if seed % 2 == 0 {
        Manner::Lawful
    } else {
        Manner::Careless
    };
    let plan = Plan::Nested {
        tops: TOPS,
        refuses: seed % 4 >= 2,
    };
    assert!(rt; is_first_capacity(first));
    let fault = run_whole(rt, alloc, first, manner, seed, plan).err();
    assert!(rt; fault.is_none(), "{first} {seed} {fault:?}");
}

#[test]
fn whole_calls_that_are_drawn(rt: HostRuntime) {
    for seed in 0..SEEDS {
        assert_seed(&rt, rt.alloc(), 16, seed);
        assert_seed(&rt, rt.alloc(), 64, seed);
    }
}
