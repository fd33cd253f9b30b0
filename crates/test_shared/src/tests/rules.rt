//! Tests of the allocator `Refusing`: which requests it refuses, at random or by number, what it passes on to the allocator below, and
//! requests that wait in pairs.
use super::numbers::assert_same;
use std::alloc::{AllocError, Allocator, Global};
use std::process::Abort;
use std::sync::atomic::{AtomicU64, Ordering};
use std::test::Fail;
use std::thread;
use testkit::refusing::handover::MOST_LOOKS;
use testkit::refusing::{Refusing, Rule};

/// How many requests are made under a rule that refuses at random.
const REQUESTS: u64 = 6000;

/// The seed and the `one_in` of a rule that refuses at random, and how many requests are refused at least and at most.
const LOTS: [(u64, u64, u64, u64); 5] = [
    (1, 0, 6000, 6000),
    (1, 1, 6000, 6000),
    (1, 6, 900, 1100),
    (2, 6, 900, 1100),
    (3, 100, 30, 90),
];

/// How many pairs of requests wait for each other at most.
const PAIRS: u64 = 200;

/// Returns whether the allocator grants a request of `bytes` bytes. The block is freed again.
fn grants<A: Allocator + Copy>(alloc: A, bytes: usize) -> bool {
    let block: Result<Vec<u8, A>, AllocError> = Vec::with_capacity(alloc, bytes);
    block.is_ok()
}

/// How many requests of 8 to 16 bytes a rule lets pass, and how many it refuses then. Then requests in order: the size of each, and whether
/// it is granted. Requests of other sizes are granted and not counted.
const BY_NUMBER: [(u64, u64, &[(usize, bool)]); 2] = [
    (
        2,
        3,
        &[
            (8, true),
            (16, true),
            (8, false),
            (16, false),
            (12, false),
            (8, true),
            (16, true),
        ],
    ),
    (
        1,
        1,
        &[
            (7, true),
            (17, true),
            (8, true),
            (7, true),
            (17, true),
            (16, false),
            (7, true),
            (17, true),
            (8, true),
        ],
    ),
];

/// Makes the requests in order, and asserts of each whether it is granted.
fn assert_grants<A: Allocator + Copy>(rt: &impl Abort, alloc: A, requests: &[(usize, bool)]) {
    for (bytes, is_granted) in requests {
        assert!(rt;
            grants(alloc, *bytes) == *is_granted,
            "a request of {bytes}"
        );
    }
}

#[test]
fn the_first_of_a_size_pass_and_the_next_are_refused(rt: HostRuntime) {
    for (passing, refused, requests) in &BY_NUMBER {
        let heap = Refusing::new(rt.alloc(), Rule::new(8, 16, *passing, *refused));
        assert_grants(&rt, &heap, *requests);
    }
}

#[test]
fn a_refusal_below_is_passed_on(rt: HostRuntime) -> Result<(), Fail> {
    let below = Refusing::new(rt.alloc(), Rule::new(8, 8, 0, 1));
    let heap = Refusing::new(&below, Rule::new(8, 8, 1, 0));
    assert_grants(&rt, &heap, [(8, false), (8, true)].as_slice());
    let block = Box::new(&heap, [5u32, 6])?;
    assert!(rt; *block == [5, 6]);
    Ok(())
}

/// Makes `requests` requests, and returns how many of them are refused.
fn count_refused(heap: &Refusing<Global>, requests: u64) -> u64 {
    let mut refused = 0u64;
    for _request in 0..requests {
        if !grants(heap, 8) {
            refused = refused.wrapping_add(1);
        }
    }
    refused
}

/// Checks that the number of requests refused at random is within its bounds, and that the others are granted.
#[test]
fn so_many_are_refused_by_lot(rt: HostRuntime) {
    for row in &LOTS {
        let (seed, one_in, least, most) = *row;
        let rule = Rule::new(8, 8, 0, u64::MAX).drawn(seed, one_in);
        let heap = Refusing::new(rt.alloc(), rule);
        let refused = count_refused(&heap, REQUESTS);
        let is_within = least <= refused && refused <= most;
        let counts = [heap.refusals_left(), heap.granted()];
        assert_same(
            &rt,
            [
                u64::from(is_within && grants(&heap, 16)),
                counts[0],
                counts[1],
            ],
            [
                1,
                u64::MAX.wrapping_sub(refused),
                REQUESTS.wrapping_sub(refused),
            ],
        );
    }
}

#[test]
fn a_lot_refuses_no_more_than_the_rule(rt: HostRuntime) {
    let rule = Rule::new(8, 8, 0, 7).drawn(1, 3);
    let heap = Refusing::new(rt.alloc(), rule);
    assert_same(
        &rt,
        [count_refused(&heap, REQUESTS), heap.refusals_left()],
        [7, 0],
    );
}

/// The arguments of a call of `refuse`, and then requests: the size of each, and whether it is granted.
const ANSWERS: [(u64, u64, &[(usize, bool)]); 4] = [
    (0, 0, &[(8, true), (8, true)]),
    (1, 2, &[(8, true), (8, false), (8, false), (8, true)]),
    (0, 3, &[(8, false), (8, false)]),
    (0, 0, &[(8, true), (8, true)]),
];

#[test]
fn requests_are_refused_from_now_on(rt: HostRuntime) {
    let heap = Refusing::new(rt.alloc(), Rule::new(8, 8, 0, 0));
    for row in &ANSWERS {
        let (passing, refused, requests) = *row;
        heap.refuse(passing, refused);
        assert_same(&rt, heap.refusals_left(), refused);
        assert_grants(&rt, &heap, requests);
    }
}

/// Makes requests, and stores the number of each in `said` before. Returns whether each was granted after `other` had this number too.
fn asks_in_pairs(heap: &Refusing<Global>, said: &AtomicU64, other: &AtomicU64) -> bool {
    for asked in 1..PAIRS {
        said.store(asked, Ordering::SeqCst);
        if !grants(heap, 8) || other.load(Ordering::SeqCst) < asked {
            return false;
        }
    }
    true
}

#[test]
fn neither_of_a_pair_is_answered_first(rt: HostRuntime) {
    let heap = Refusing::new(rt.alloc(), Rule::new(8, 8, 0, 0).paired(PAIRS, MOST_LOOKS));
    let one = AtomicU64::new(0);
    let other = AtomicU64::new(0);
    let met = thread::join(
        &rt,
        || asks_in_pairs(&heap, &one, &other),
        || asks_in_pairs(&heap, &other, &one),
    );
    let all_met = met == (true, true) && heap.went_alone() == 0;
    assert!(rt; all_met && heap.pairs_met() == PAIRS - 1);
}

#[test]
fn the_first_of_a_pair_goes_on_alone(rt: HostRuntime) {
    let heap = Refusing::new(rt.alloc(), Rule::new(8, 8, 0, 0).paired(2, 10));
    for alone in [1u64, 1, 2, 2, 2, 2] {
        let granted = grants(&heap, 16) && grants(&heap, 8);
        assert_same(&rt, [u64::from(granted), heap.went_alone()], [1, alone]);
    }
}

#[test]
fn pairs_begin_again(rt: HostRuntime) {
    let heap = Refusing::new(rt.alloc(), Rule::new(8, 8, 0, 0).paired(0, 10));
    for alone in [0u64, 1, 2] {
        let granted = grants(&heap, 8) && grants(&heap, 8) && grants(&heap, 8);
        assert_same(
            &rt,
            [u64::from(granted), heap.pairs_met(), heap.went_alone()],
            [1, 0, alone],
        );
        heap.pair(1);
    }
}
