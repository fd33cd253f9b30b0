//! Tests of threads that insert at once.
use super::numbers::{Boxed, assert_same};
use std::alloc::Global;
use std::process::Abort;
use std::sync::Wait;
use std::thread::Threads;
use testkit::counting::asked::Lawful;
use testkit::counting::numbers::{fill_at_once, seen, those_below};
use testkit::counting::tally::Tally;

/// How many numbers are inserted while a table grows.
const NUMBERS: u64 = 6000;

#[test]
fn equal_values_at_once(rt: HostRuntime) {
    let table: Boxed<Global> = Boxed::new(rt.alloc(), rt.alloc(), Lawful::Spread);
    for number in 0..300u64 {
        let part = (number, number.wrapping_add(1));
        let tally = fill_at_once(&rt, &table, rt.alloc(), [part, part].as_slice());
        assert_same(&rt, tally, Tally::of(1, 1));
    }
    assert_same(&rt, seen(&table, 300), those_below(300));
}

/// Inserts each part by a thread of its own. Asserts that each number is placed once, and that `found` inserts find their number.
fn assert_filled<R: Abort + Threads + Wait + Sync>(
    rt: &R,
    alloc: Global,
    parts: &[(u64, u64)],
    found: u64,
) {
    let table: Boxed<Global> = Boxed::new(alloc, alloc, Lawful::Spread);
    assert_same(
        rt,
        fill_at_once(rt, &table, alloc, parts),
        Tally::of(NUMBERS, found),
    );
    assert_same(rt, seen(&table, NUMBERS), those_below(NUMBERS));
}

#[test]
fn two_threads_through_growth(rt: HostRuntime) {
    let parts = [(0, NUMBERS), (1000, NUMBERS)];
    assert_filled(&rt, rt.alloc(), parts.as_slice(), 5000);
}

#[test]
fn four_threads_through_growth(rt: HostRuntime) {
    let parts = [
        (0, NUMBERS),
        (500, NUMBERS),
        (1000, NUMBERS),
        (1500, NUMBERS),
    ];
    assert_filled(&rt, rt.alloc(), parts.as_slice(), 15_000);
}
