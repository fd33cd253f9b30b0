//! Tests of when a table grows if no memory is refused, and of how often growth calls `hash_fn`.
use super::assert_same;
use super::pairs::{Closures, End, Pairs, answer_of};
use std::alloc::AllocError;
use std::process::Abort;
use std::test::Fail;

/// The first and the last number of entries with these numbers of buckets: of the current generation, and of all generations together.
const SIZES: [(u64, u64, usize, usize); 4] = [
    (1, 7, 16, 16),
    (8, 15, 32, 48),
    (16, 31, 64, 112),
    (32, 63, 128, 240),
];

#[test]
fn capacities_and_buckets(rt: HostRuntime) -> Result<(), Fail> {
    let mut pairs = Pairs::new(rt.alloc());
    for row in &SIZES {
        let (first, last, capacity, buckets) = *row;
        for number in first..last.saturating_add(1) {
            pairs.assert_placed(&rt, number.saturating_sub(1)..number, capacity)?;
            assert_same(&rt, pairs.table.buckets_alone(), buckets);
        }
    }
    Ok(())
}

/// Asserts that the insert of the pair `(number, number)` ends as `end`, and calls `hash_fn` `asks` times. `Err`: no memory for the pair.
fn assert_asks(
    rt: &impl Abort,
    pairs: &mut Pairs,
    number: u64,
    end: End,
    asks: u64,
) -> Result<(), AllocError> {
    let closures = Closures::lawful();
    pairs.assert_insert_by(
        rt,
        &closures,
        number,
        (number, number),
        answer_of(number, end),
    )?;
    assert_same(rt, closures.hash_asks(), asks);
    Ok(())
}

/// Checks that growth calls `hash_fn` once for each entry, and that an insert without growth never calls it.
#[test]
fn each_entry_is_hashed_once_a_growth(rt: HostRuntime) -> Result<(), Fail> {
    let mut pairs = Pairs::new(rt.alloc());
    for number in 0..40 {
        let entries = number + 1;
        let grows = entries == 8 || entries == 16 || entries == 32;
        let asks = if grows { entries } else { 0 };
        assert_asks(&rt, &mut pairs, number, End::Placed, asks)?;
        assert_asks(&rt, &mut pairs, number / 2, End::Found, 0)?;
    }
    pairs.assert_size(&rt, 40, 128);
    Ok(())
}
