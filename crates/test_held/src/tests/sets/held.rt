//! Tests of `HeldSet`, the single-owner set.
use super::{
    Numbers, assert_insert, assert_numbers, assert_placed_once, assert_same, assert_sums,
    insert_box, shown_end, sum_handed, sum_shown,
};
use std::alloc::{AllocError, Global};
use std::num::{NonZeroU32, NonZeroU64};
use std::ops::Range;
use std::process::Abort;
use std::test::Fail;
use table_sets::{HeldSet, InPlace, Inserted, NumberLaw};
use testkit::counting::numbers::InsertEnd;

/// A set of numbers in place.
type InPlaces = HeldSet<InPlace<u64>, NumberLaw>;

#[test]
fn no_entries(rt: HostRuntime) {
    let set: InPlaces = HeldSet::new(rt.alloc());
    assert!(rt; set.is_empty() && set.get(&7).is_none() && !set.contains(&7));
    assert_same(&rt, set.len() as u64, 0);
    assert_same(&rt, set.iter().count() as u64, 0);
    assert_same(&rt, set.into_iter().count() as u64, 0);
}

/// Inserts the numbers in boxes, and asserts that each insert has the expected answer. `Err`: no memory for a box.
fn insert_all(
    rt: &impl Abort,
    set: &mut Numbers<Global>,
    alloc: Global,
    numbers: Range<u64>,
    expected: InsertEnd,
) -> Result<(), AllocError> {
    for number in numbers {
        assert!(rt; insert_box(set, alloc, number)? == expected);
    }
    Ok(())
}

/// Checks that each number is found after six growths from 16 buckets on.
#[test]
fn boxed_numbers(rt: HostRuntime) -> Result<(), Fail> {
    let mut set: Numbers<Global> = HeldSet::new(rt.alloc());
    insert_all(&rt, &mut set, rt.alloc(), 0..300, InsertEnd::Placed)?;
    insert_all(&rt, &mut set, rt.alloc(), 0..300, InsertEnd::Found)?;
    assert_numbers(&rt, &set, 300);
    Ok(())
}

/// Checks that an insert that finds an equal entry returns its value.
#[test]
fn the_value_comes_back(rt: HostRuntime) {
    let mut set: InPlaces = HeldSet::new(rt.alloc());
    assert_insert(&rt, &mut set, InPlace(7), InsertEnd::Placed);
    match set.insert(InPlace(7)) {
        Inserted::Found(InPlace(back)) => assert_same(&rt, back, 7),
        Inserted::Placed | Inserted::Refused(_) => assert!(rt; false),
    }
    assert!(rt; !set.is_empty());
    assert_same(&rt, set.len() as u64, 1);
}

/// Asserts how many buckets the set has after its first insert.
fn assert_first_buckets(rt: &impl Abort, mut set: InPlaces, buckets: u64) {
    assert_insert(rt, &mut set, InPlace(7), InsertEnd::Placed);
    assert_same(rt, set.into_table().capacity_alone() as u64, buckets);
}

#[test]
fn the_first_generation_has_as_many_buckets_as_were_asked_for(rt: HostRuntime) {
    let alloc = rt.alloc();
    assert_first_buckets(&rt, HeldSet::new(alloc), 16);
    assert_first_buckets(&rt, HeldSet::with_first_capacity(alloc, 64), 64);
    assert_first_buckets(&rt, HeldSet::with_first_capacity(alloc, 4096), 4096);
}

#[test]
fn the_entry_is_shown(rt: HostRuntime) {
    let mut set: InPlaces = HeldSet::new(rt.alloc());
    for expected in [InsertEnd::Placed, InsertEnd::Found] {
        for number in 0..20 {
            assert_same(
                &rt,
                shown_end(set.insert_and_show(InPlace(number)), number),
                expected,
            );
        }
    }
    assert_same(&rt, set.len() as u64, 20);
}

#[test]
fn walks(rt: HostRuntime) -> Result<(), Fail> {
    let mut set: Numbers<Global> = HeldSet::new(rt.alloc());
    insert_all(&rt, &mut set, rt.alloc(), 1..21, InsertEnd::Placed)?;
    let (by_iter, by_loop) = (sum_shown(set.iter()), sum_shown((&set).into_iter()));
    assert_sums(&rt, [by_iter, by_loop, sum_handed(set.into_iter())]);
    Ok(())
}

#[test]
fn numbers_that_are_never_zero(rt: HostRuntime) {
    let mut long: HeldSet<NonZeroU64, NumberLaw> = HeldSet::new(rt.alloc());
    let mut short: HeldSet<NonZeroU32, NumberLaw> = HeldSet::new(rt.alloc());
    assert_placed_once(&rt, &mut long, NonZeroU64::MAX, NonZeroU64::MAX);
    assert_placed_once(&rt, &mut short, NonZeroU32::MIN, NonZeroU32::MIN);
    assert!(rt; long.contains(&NonZeroU64::MAX) && !long.contains(&NonZeroU64::MIN));
    assert!(rt; short.contains(&NonZeroU32::MIN) && !short.contains(&NonZeroU32::MAX));
}

#[test]
fn short_numbers(rt: HostRuntime) {
    let mut words: HeldSet<InPlace<u32>, NumberLaw> = HeldSet::new(rt.alloc());
    let mut halves: HeldSet<InPlace<u16>, NumberLaw> = HeldSet::new(rt.alloc());
    assert_placed_once(&rt, &mut words, InPlace(70_000), InPlace(70_000));
    assert_placed_once(&rt, &mut halves, InPlace(4), InPlace(4));
    assert!(rt; words.contains(&70_000) && !words.contains(&4));
    assert!(rt; halves.contains(&4) && !halves.contains(&5));
}
