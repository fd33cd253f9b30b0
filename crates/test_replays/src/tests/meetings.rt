//! Two whole calls at once: an exchange that an insert loses, and an insert that waits while a growth copies.
use super::whole::assert_worked;
use std::alloc::Global;
use std::process::Abort;
use std::sync::Wait;
use std::thread::Threads;
use testkit_replay::item::Said;
use testkit_replay::item::Said::{Found, Placed, Refused};
use testkit_replay::schedules::Ask;
use testkit_replay::schedules::Ask::Insert;
use testkit_replay::whole_calls::{Moment, Top, Worked};

/// How often each row is run.
const ROUNDS: u64 = 20;

/// An insert whose block is refused. It leaves a table with its first generation, for which it first makes six requests.
const OPENING: Top = (Insert(3, 3), (6, 1));

/// Two inserts at one empty bucket of a table without entries, and the reply of the first, which loses.
const AT_ONE_BUCKET: [(Ask, Ask, Said); 7] = [
    // Different values of one hash: the loser goes on to the next bucket.
    (Insert(1, 0), Insert(2, 0), Placed(1)),
    (Insert(2, 0), Insert(1, 0), Placed(1)),
    // Equal values. The loser's value is returned with the winner's entry.
    (Insert(1, 0), Insert(1, 0), Found(2, 1)),
    // Different marks, and the same first bucket: no closure is called, even if the values are equal.
    (Insert(1, 0), Insert(2, 1 << 32), Placed(1)),
    (Insert(2, 1 << 32), Insert(1, 0), Placed(1)),
    (Insert(1, 0), Insert(1, 1 << 32), Placed(1)),
    (Insert(1, 1 << 32), Insert(1, 0), Placed(1)),
];

/// Inserts that begin while a growth copies, and their replies.
const AT_THE_LOCK: [(Ask, Said); 3] = [
    // Its first bucket is the 17th of 32, which is empty. Of 16 it would be the first, which is set.
    (Insert(8, 16), Placed(8)),
    // It calls its closure with each entry that was copied.
    (Insert(8, 0), Placed(8)),
    // An equal entry was copied.
    (Insert(3, 3), Found(3, 8)),
];

/// Asserts that the first of two inserts loses the exchange of an empty bucket to the second, as in the machine.
fn assert_at_one_bucket<R: Abort + Threads + Wait + Sync>(
    rt: &R,
    alloc: Global,
    first: Ask,
    second: Ask,
    reply: Said,
) {
    let worked = Worked {
        filled: 0,
        then: &[OPENING, (first, (0, 0))],
        moment: Moment::AtBucket,
        others: &[second],
    };
    let expected = [(0, Refused(0)), (2, Placed(2)), (1, reply)];
    assert_worked(rt, alloc, worked, &expected);
}

#[test]
fn an_exchange_that_is_lost(rt: HostRuntime) {
    for (first, second, reply) in &AT_ONE_BUCKET {
        for _round in 0..ROUNDS {
            assert_at_one_bucket(&rt, rt.alloc(), *first, *second, *reply);
        }
    }
}

/// Asserts that an insert that begins while a growth copies goes on in the new generation, as in the machine.
fn assert_at_the_lock<R: Abort + Threads + Wait + Sync>(
    rt: &R,
    alloc: Global,
    ask: Ask,
    reply: Said,
) {
    let worked = Worked {
        filled: 7,
        then: &[(Insert(7, 7), (0, 0))],
        moment: Moment::InGrowth,
        others: &[ask],
    };
    assert_worked(rt, alloc, worked, &[(7, Placed(7)), (8, reply)]);
}

#[test]
fn an_insert_that_waits_while_a_growth_copies(rt: HostRuntime) {
    for (ask, reply) in &AT_THE_LOCK {
        for _round in 0..ROUNDS {
            assert_at_the_lock(&rt, rt.alloc(), *ask, *reply);
        }
    }
}
