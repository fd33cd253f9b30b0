//! Tests with unlawful closures: no value is lost, and none is stored twice.
use super::assert_same;
use super::pairs::{Closures, End, Equality, Hashing, Pair, PairAnswer, Pairs, answer_of};
use std::alloc::{AllocError, Global};
use std::ops::Range;
use std::process::Abort;
use std::test::Fail;
use testkit::counting::numbers::count_first;

/// Pairs that are inserted in this order, the answer to each insert, and how often it calls `eq`.
const INSERT_ASKS: [(Pair, PairAnswer, u64); 3] = [
    ((0, 1), PairAnswer::Placed((0, 1)), 0),
    ((1 << 32, 2), PairAnswer::Placed((1 << 32, 2)), 0),
    ((0, 1), PairAnswer::Found((0, 1), (0, 1)), 1),
];

/// Pairs that are looked up after those inserts, whether each is found, and how often the look-up calls its test.
const LOOKUP_ASKS: [(Pair, bool, u64); 3] = [
    ((0, 1), true, 1),
    ((1 << 32, 2), true, 1),
    ((2 << 32, 3), false, 0),
];

/// Pairs, and the answer to the insert of each if `eq` accepts every entry as equal.
const ALWAYS: [(Pair, PairAnswer); 3] = [
    ((0, 1), PairAnswer::Placed((0, 1))),
    ((0, 2), PairAnswer::Found((0, 1), (0, 2))),
    ((0, 3), PairAnswer::Found((0, 1), (0, 3))),
];

/// Makes closures of which only `hash_fn` is unlawful.
fn hashing(hashing: Hashing) -> Closures {
    Closures::new(Equality::Lawful, hashing)
}

/// Makes a table in which the pair `(number, number)` of each number was placed under the hash `number`. `Err`: no memory.
fn filled(
    rt: &impl Abort,
    closures: &Closures,
    alloc: Global,
    numbers: Range<u64>,
) -> Result<Pairs, AllocError> {
    let mut pairs = Pairs::new(alloc);
    for number in numbers {
        let placed = answer_of(number, End::Placed);
        pairs.assert_insert_by(rt, closures, number, (number, number), placed)?;
    }
    Ok(pairs)
}

/// Asserts that the second parts of the entries are the numbers below `count`, each once. `Err`: no memory.
fn assert_numbers(
    rt: &impl Abort,
    pairs: Pairs,
    alloc: Global,
    count: u64,
) -> Result<(), AllocError> {
    let mut numbers = Vec::new(alloc);
    for pair in pairs.table {
        numbers.push(pair.1)?;
    }
    assert_same(rt, count_first(numbers), (count, count));
    Ok(())
}

#[test]
fn one_place_for_all_in_growth(rt: HostRuntime) -> Result<(), Fail> {
    let pairs = filled(&rt, &hashing(Hashing::Fixed(0)), rt.alloc(), 0..8)?;
    pairs.assert_size(&rt, 8, 32);
    assert_numbers(&rt, pairs, rt.alloc(), 8)?;
    Ok(())
}

#[test]
fn another_place_at_each_call(rt: HostRuntime) -> Result<(), Fail> {
    let closures = hashing(Hashing::Anew);
    let pairs = filled(&rt, &closures, rt.alloc(), 0..40)?;
    assert!(rt; closures.hash_asks() > 0);
    assert_numbers(&rt, pairs, rt.alloc(), 40)?;
    Ok(())
}

#[test]
fn an_equality_that_is_never_met(rt: HostRuntime) -> Result<(), Fail> {
    let never = Closures::new(Equality::Never, Hashing::Lawful);
    let mut pairs = Pairs::new(rt.alloc());
    for _again in 0..2 {
        pairs.assert_insert_by(&rt, &never, 1, (1, 1), PairAnswer::Placed((1, 1)))?;
    }
    pairs.assert_size(&rt, 2, 16);
    Ok(())
}

#[test]
fn an_equality_that_is_always_met(rt: HostRuntime) -> Result<(), Fail> {
    let always = Closures::new(Equality::Always, Hashing::Lawful);
    let mut pairs = Pairs::new(rt.alloc());
    for (pair, answer) in &ALWAYS {
        pairs.assert_insert_by(&rt, &always, 0, *pair, *answer)?;
    }
    pairs.assert_size(&rt, 1, 16);
    Ok(())
}

#[test]
fn a_hash_fn_that_disagrees_with_the_hash_given(rt: HostRuntime) -> Result<(), Fail> {
    let pairs = filled(&rt, &hashing(Hashing::Fixed(9)), rt.alloc(), 3..4)?;
    pairs.assert_shown_at(&rt, 3, (3, 3), Some((3, 3)));
    pairs.assert_shown_at(&rt, 4, (3, 3), None);
    Ok(())
}

#[test]
fn growth_keeps_the_bits_of_the_hash_given(rt: HostRuntime) -> Result<(), Fail> {
    let pairs = filled(&rt, &hashing(Hashing::Fixed(1 << 32)), rt.alloc(), 0..8)?;
    pairs.assert_size(&rt, 8, 32);
    for number in 0..8 {
        let pair = (number, number);
        pairs.assert_shown_at(&rt, 0, pair, Some(pair));
    }
    Ok(())
}

/// Asserts whether a look-up finds the pair, and how often it calls its test.
fn assert_lookup_asks(rt: &impl Abort, pairs: &Pairs, pair: Pair, is_shown: bool, asks: u64) {
    let closures = Closures::lawful();
    let shown = pairs.lookup_by(&closures, pair.0, pair);
    assert_same(rt, (shown.is_some(), closures.eq_asks()), (is_shown, asks));
}

#[test]
fn entries_with_other_bits_are_not_asked_about(rt: HostRuntime) -> Result<(), Fail> {
    let mut pairs = Pairs::new(rt.alloc());
    for (pair, answer, asks) in &INSERT_ASKS {
        let closures = Closures::lawful();
        pairs.assert_insert_by(&rt, &closures, pair.0, *pair, *answer)?;
        assert_same(&rt, closures.eq_asks(), *asks);
    }
    for (pair, is_shown, asks) in &LOOKUP_ASKS {
        assert_lookup_asks(&rt, &pairs, *pair, *is_shown, *asks);
    }
    Ok(())
}
