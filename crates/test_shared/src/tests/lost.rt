//! Tests of exchanges that surely fail: two threads request blocks for one empty bucket, and no request is granted before both are made.
use super::countings::{Counted, Countings, opened, paired};
use super::numbers::{assert_same, walk_length};
use std::alloc::{AllocError, Global};
use std::process::Abort;
use std::sync::Wait;
use std::test::Fail;
use std::thread::Threads;
use table_cell::Low;
use testkit::counting::Drops;
use testkit::counting::tally::{Tally, Work, at_once};
use testkit::refusing::Refusing;

/// The hash of the first of two values, whose number is 0.
const HASH: u64 = 5;

/// The number and the hash of the second value, how many of the two are placed, and how many blocks are requested.
const MEETINGS: [(u64, u64, u64, u64); 5] = [
    // An equal value.
    (1, HASH, 1, 2),
    // A different value with the same hash, and one with the same first bucket.
    (4, HASH, 2, 3),
    (4, HASH + 1024, 2, 3),
    // A different value and an equal one whose eight bits differ, so that `eq` isn't called.
    (4, HASH + (1 << 32), 2, 3),
    (1, HASH + (1 << 32), 2, 3),
];

/// Two values that two threads insert at once: the number 0, and one with this number and hash.
#[derive(Drop)]
struct Offer<'a, A: Low + Copy> {
    counted: &'a Counted<A>,
    number: u64,
    hash: u64,
}

impl<A: Low + Copy> Work for Offer<'_, A> {
    fn work<R: Wait>(&self, rt: &R, thread: u64) -> Tally {
        Tally::NONE.with(if thread == 0 {
            self.counted.insert(rt, HASH, 0)
        } else {
            self.counted.insert(rt, self.hash, self.number)
        })
    }
}

/// Returns how many of the entries that a walk over the table returns have this number.
fn count_of<A: Low + Copy>(table: &Countings<A>, number: u64) -> u64 {
    let mut count = 0u64;
    for entry in table.iter() {
        if entry.number == number {
            count = count.wrapping_add(1);
        }
    }
    count
}

/// Asserts that a walk over the table returns 0 and this number once each if both were placed, and otherwise one of them once.
fn assert_entries<A: Low + Copy>(rt: &impl Abort, table: &Countings<A>, number: u64, placed: u64) {
    let (zeros, others) = (count_of(table, 0), count_of(table, number));
    assert!(rt; zeros <= 1 && others <= 1);
    assert_same(rt, zeros.wrapping_add(others), placed);
}

/// Inserts 0 and another number at one empty bucket at once, and asserts that the meeting ends as it says. The heap counts the requests
/// of the memory. `Err`: no memory.
fn assert_met<R: Abort + Threads + Wait + Sync, A: Low + Copy + Send + Sync>(
    rt: &R,
    alloc: Global,
    heap: &Refusing<Global>,
    memory: A,
    meeting: (u64, u64, u64, u64),
) -> Result<(), AllocError> {
    let (number, hash, placed, blocks) = meeting;
    let counted = opened(rt, memory, Drops::new(alloc, 8)?, 7);
    let before = heap.granted();
    let offer = Offer {
        counted: &counted,
        number,
        hash,
    };
    let found = 2u64.wrapping_sub(placed);
    assert_same(rt, at_once(rt, alloc, 2, &offer), Tally::of(placed, found));
    let Counted { table, drops } = counted;
    assert_same(
        rt,
        [
            heap.went_alone(),
            heap.granted().wrapping_sub(before),
            heap.given_back(),
            table.len() as u64,
            walk_length(&table),
            drops.dropped(1),
        ],
        [0, blocks, 1, placed, placed, found.wrapping_add(1)],
    );
    assert_entries(rt, &table, number, placed);
    drop(table);
    assert_same(
        rt,
        [drops.dropped(0), drops.dropped(1), heap.given_back()],
        [5, 3, heap.granted()],
    );
    Ok(())
}

#[test]
fn two_threads_at_one_empty_bucket(rt: HostRuntime) -> Result<(), Fail> {
    for meeting in &MEETINGS {
        for _again in 0..10u32 {
            let heap = paired(rt.alloc(), 1);
            assert_met(&rt, rt.alloc(), &heap, &heap, *meeting)?;
        }
    }
    Ok(())
}
