//! A test of threads that insert into a table over sixteen shards at once.
use super::made::sixteen;
use super::numbers::Sharded;
use crate::tests::assert_same;
use testkit::counting::numbers::{fill_at_once, seen, those_below};
use testkit::counting::tally::Tally;

/// The numbers of each of four threads: from the first up to the second, exclusive.
const PARTS: [(u64, u64); 4] = [
    (0, 250_000),
    (250_000, 500_000),
    (500_000, 750_000),
    (750_000, MILLION),
];

const MILLION: u64 = 1_000_000;

#[test]
fn a_million_numbers_of_four_threads(rt: HostRuntime) {
    let alloc = rt.alloc();
    let table = sixteen(alloc);
    let numbers = Sharded {
        table: &table,
        alloc,
    };
    let tally = fill_at_once(&rt, &numbers, alloc, PARTS.as_slice());
    assert_same(&rt, tally, Tally::of(MILLION, 0));
    assert_same(&rt, seen(&numbers, MILLION), those_below(MILLION));
}
