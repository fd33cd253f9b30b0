//! Tests of the single-owner raw table, and of the sets over it.
mod blocks;
mod careless;
mod drops;
mod growth;
mod memory;
mod pairs;
mod runs;
mod sets;
mod values;

use pairs::{Pair, PairAnswer, Pairs};
use std::fmt::Debug;
use std::process::Abort;
use std::test::Fail;

/// Pairs for a first generation, and the answer to the insert of each. The probe of (15, 9) passes the last bucket and then the first.
const INSERTS: [(Pair, PairAnswer); 5] = [
    ((0, 1), PairAnswer::Placed((0, 1))),
    ((0, 1), PairAnswer::Found((0, 1), (0, 1))),
    ((15, 7), PairAnswer::Placed((15, 7))),
    ((15, 9), PairAnswer::Placed((15, 9))),
    ((15, 7), PairAnswer::Found((15, 7), (15, 7))),
];

/// Pairs, and whether each is an entry after those inserts.
const LOOKUPS: [(Pair, bool); 5] = [
    ((0, 1), true),
    ((15, 9), true),
    ((15, 7), true),
    ((0, 4), false),
    ((1, 1), false),
];

/// Asserts that `got` equals `expected`.
fn assert_same<X: PartialEq + Debug + Drop>(rt: &impl Abort, got: X, expected: X) {
    assert_eq!(rt; got, expected);
}

#[test]
fn a_table_without_entries(rt: HostRuntime) {
    let pairs = Pairs::new(rt.alloc());
    pairs.assert_size(&rt, 0, 0);
    pairs.assert_shown(&rt, (0, 1), false);
    let table = pairs.table;
    assert!(rt; table.is_empty_alone());
    assert_same(&rt, table.buckets_alone(), 0);
    assert_same(&rt, table.iter_alone().count(), 0);
    assert_same(&rt, table.into_iter().count(), 0);
}

#[test]
fn answers_of_a_first_generation(rt: HostRuntime) -> Result<(), Fail> {
    let mut pairs = Pairs::new(rt.alloc());
    for (pair, answer) in &INSERTS {
        pairs.assert_insert(&rt, *pair, *answer)?;
    }
    for (pair, is_entry) in &LOOKUPS {
        pairs.assert_shown(&rt, *pair, *is_entry);
    }
    pairs.assert_size(&rt, 3, 16);
    Ok(())
}

#[test]
fn a_hundred_values_of_one_hash(rt: HostRuntime) -> Result<(), Fail> {
    let mut pairs = Pairs::new(rt.alloc());
    for number in 0..100 {
        let pair = (0, number);
        pairs.assert_insert(&rt, pair, PairAnswer::Placed(pair))?;
    }
    pairs.assert_size(&rt, 100, 256);
    assert_same(&rt, pairs.table.buckets_alone(), 496);
    for number in 0..101 {
        pairs.assert_shown(&rt, (0, number), number < 100);
    }
    Ok(())
}
