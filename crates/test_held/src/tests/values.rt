//! Tests of the kinds of values that a table can hold.
use super::assert_same;
use std::num::{NonZeroU32, NonZeroU64};
use std::ops::Range;
use std::process::Abort;
use std::sync::Arc;
use std::test::Fail;
use table_held::raw::{HeldRawTable, is_first_capacity};
use table_held::{AtomicValue, InPlace};
use table_terms::law::{Law, NumberLaw, hash_number};
use testkit::counting::asked::{Numbered, hash, same};

/// Asserts that `deref`, called through the trait `AtomicValue`, returns a target with this number.
fn assert_target<T: Numbered, V: AtomicValue<Target = T>>(rt: &impl Abort, value: &V, number: u64) {
    assert_same(rt, value.deref().number(), number);
}

/// Inserts the value, and asserts that the insert returns an entry with its number, and whether it places the value.
fn assert_insert<L: Law<T>, T: Numbered, V: AtomicValue<Target = T>>(
    rt: &impl Abort,
    table: &mut HeldRawTable<V>,
    value: V,
    is_placed: bool,
) {
    let number = value.deref().number();
    match table.insert_alone::<L, _, _>(hash_number(number), value, same::<T>, hash::<T>) {
        Ok((shown, back)) => {
            assert_same(rt, shown.number(), number);
            assert!(rt; back.is_none() == is_placed);
        }
        Err(_) => assert!(rt; false),
    }
}

/// Asserts that a look-up finds the number.
fn assert_shown<L: Law<T>, T: Numbered, V: AtomicValue<Target = T>>(
    rt: &impl Abort,
    table: &HeldRawTable<V>,
    number: u64,
) {
    match table.lookup_alone::<L, _>(hash_number(number), |a: &T| a.number() == number) {
        Some(shown) => assert_same(rt, shown.number(), number),
        None => assert!(rt; false),
    }
}

/// Asserts that a look-up finds each of the numbers.
fn assert_all_shown<L: Law<T>, T: Numbered, V: AtomicValue<Target = T>>(
    rt: &impl Abort,
    table: &HeldRawTable<V>,
    numbers: Range<u64>,
) {
    for number in numbers {
        assert_shown::<L, T, V>(rt, table, number);
    }
}

/// Returns how many values the owning iterator yields, and a word in which the bit of each value is set. The values are below 64.
fn bits_of(table: HeldRawTable<Arc<u16>>) -> (u64, u64) {
    let (mut values, mut bits) = (0u64, 0u64);
    for value in table {
        values = values.wrapping_add(1);
        bits |= 1u64.wrapping_shl(u32::from(*value));
    }
    (values, bits)
}

/// Checks the number of each kind of value. The number of a `NonZeroU64` or a `NonZeroU32` is one less than the value.
#[test]
fn values_show_their_targets(rt: HostRuntime) -> Result<(), Fail> {
    assert_target(&rt, &Box::new(rt.alloc(), 7u16)?, 7);
    assert_target(&rt, &Arc::new(rt.alloc(), 8u16)?, 8);
    assert_target(&rt, &InPlace(11u16), 11);
    assert_target(&rt, &NonZeroU64::new(9).ok_or("zero")?, 8);
    assert_target(&rt, &NonZeroU32::new(10).ok_or("zero")?, 9);
    Ok(())
}

#[test]
fn a_hundred_boxes_and_ten_shared_values(rt: HostRuntime) -> Result<(), Fail> {
    let mut boxes: HeldRawTable<Box<u16>> = HeldRawTable::new(rt.alloc());
    for number in 0..100u16 {
        assert_insert::<NumberLaw, _, _>(&rt, &mut boxes, Box::new(rt.alloc(), number)?, true);
    }
    let mut shared: HeldRawTable<Arc<u16>> = HeldRawTable::new(rt.alloc());
    for number in 0..10u16 {
        assert_insert::<NumberLaw, _, _>(&rt, &mut shared, Arc::new(rt.alloc(), number)?, true);
    }
    assert_same(&rt, boxes.len_alone(), 100);
    assert_all_shown::<NumberLaw, _, _>(&rt, &boxes, 0..100);
    assert_same(&rt, bits_of(shared), (10, 0b11_1111_1111));
    Ok(())
}

/// Checks values of 32 bits. The number of a `NonZeroU32` is one less than the value.
#[test]
fn narrow_numbers_are_found(rt: HostRuntime) -> Result<(), Fail> {
    let mut table: HeldRawTable<NonZeroU32> = HeldRawTable::new(rt.alloc());
    for number in 1..10_000u32 {
        let value = NonZeroU32::new(number).ok_or("zero")?;
        assert_insert::<NumberLaw, _, _>(&rt, &mut table, value, true);
    }
    assert_all_shown::<NumberLaw, _, _>(&rt, &table, 0..9_999);
    Ok(())
}

#[test]
fn a_million_numbers(rt: HostRuntime) -> Result<(), Fail> {
    let mut table: HeldRawTable<InPlace<u32>> = HeldRawTable::new(rt.alloc());
    for number in 0..1_000_000u32 {
        assert_insert::<NumberLaw, _, _>(&rt, &mut table, InPlace(number), true);
    }
    assert_all_shown::<NumberLaw, _, _>(&rt, &table, 0..1_000_000);
    assert_same(&rt, table.iter_alone().count() as u64, 1_000_000);
    assert_same(&rt, table.capacity_alone() as u64, 1 << 21);
    Ok(())
}

#[test]
fn wide_numbers_come_back(rt: HostRuntime) -> Result<(), Fail> {
    assert!(rt; is_first_capacity(64) && !is_first_capacity(48));
    let mut table: HeldRawTable<NonZeroU64> = HeldRawTable::with_first_capacity(rt.alloc(), 64);
    for is_placed in [true, false] {
        assert_insert::<NumberLaw, _, _>(&rt, &mut table, NonZeroU64::MAX, is_placed);
    }
    assert_same(&rt, table.capacity_alone() as u64, 64);
    assert_same(&rt, table.buckets_alone() as u64, 64);
    for shown in &table {
        assert_same(&rt, shown.get(), u64::MAX);
    }
    assert_same(&rt, table.into_iter().count() as u64, 1);
    Ok(())
}
