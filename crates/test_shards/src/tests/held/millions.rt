//! A test of a million numbers over sixteen shards.
use super::makers::sixteen_shards;
use super::numbers::{Numbers, count_shown, fill};
use super::walks::count_steps;
use crate::tests::assert_same;
use std::alloc::Global;

const MILLION: u64 = 1_000_000;

type SixteenShards = Numbers<16, Global>;

#[test]
fn a_million_numbers_over_sixteen_shards(rt: HostRuntime) {
    let mut table: SixteenShards = sixteen_shards(rt.alloc());
    let placed = fill(&mut table, rt.alloc(), MILLION);
    let (found, length) = (count_shown(&table, MILLION), table.len_alone() as u64);
    let steps = count_steps(&mut table.iter_alone());
    assert_same(
        &rt,
        [placed, found, length, steps],
        [MILLION, MILLION, MILLION, MILLION],
    );
}
