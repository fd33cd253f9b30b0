//! Tests that each value is dropped once.
use super::assert_same;
use std::alloc::{AllocError, Global};
use std::process::Abort;
use std::test::Fail;
use table_held::raw::HeldRawTable;
use table_held::{AtomicValue, InPlace};
use table_terms::law::hash_number;
use testkit::counting::{Counting, CountingLaw, Drops};

type Countings = HeldRawTable<Box<Counting>>;

/// Inserts the value, whose target has this number, and returns whether it was placed. A value that wasn't placed is dropped.
fn places<V: AtomicValue<Target = Counting>>(
    table: &mut HeldRawTable<V>,
    number: u64,
    value: V,
) -> bool {
    let answer = table.insert_alone::<CountingLaw, _, _>(
        hash_number(number),
        value,
        |a: &Counting, b: &Counting| a.number == b.number,
        |a: &Counting| hash_number(a.number),
    );
    matches!(&answer, Ok((_, None)))
}

/// Makes a table of the first `numbers` numbers, whose drops `drops` counts, and asserts its capacity. `Err`: no memory.
fn table_of(
    rt: &impl Abort,
    alloc: Global,
    drops: &Drops,
    numbers: u64,
    capacity: usize,
) -> Result<Countings, AllocError> {
    let mut table = HeldRawTable::new(alloc);
    for number in 0..numbers {
        assert!(rt; places(&mut table, number, drops.counting(number)?));
    }
    assert_same(rt, table.capacity_alone(), capacity);
    Ok(table)
}

/// Takes two values from an owning iterator, drops it and then those, and asserts how many values each step drops. `Err`: no memory.
fn assert_rest_dropped(
    rt: &impl Abort,
    alloc: Global,
    values: u64,
    capacity: usize,
) -> Result<(), AllocError> {
    let drops = Drops::new(alloc, values)?;
    let mut rest = table_of(rt, alloc, &drops, values, capacity)?.into_iter();
    let kept = (rest.next(), rest.next());
    assert!(rt; kept.0.is_some() && kept.1.is_some());
    let counts = [(values, 0), (2, values.saturating_sub(2)), (0, values)];
    assert_same(rt, drops.as_dropped(rest, kept), counts);
    Ok(())
}

#[test]
fn an_owning_iterator_that_ends_early_drops_the_rest(rt: HostRuntime) -> Result<(), Fail> {
    for (values, capacity) in [(5, 16), (20, 64)] {
        assert_rest_dropped(&rt, rt.alloc(), values, capacity)?;
    }
    Ok(())
}

#[test]
fn values_in_the_block_are_dropped_once(rt: HostRuntime) -> Result<(), Fail> {
    let drops = Drops::new(rt.alloc(), 40)?;
    let mut table: HeldRawTable<InPlace<Counting>> = HeldRawTable::new(rt.alloc());
    for number in 0..40 {
        assert!(rt; places(&mut table, number, InPlace(drops.value(number)?)));
    }
    // an equal value is returned
    let again = Drops::new(rt.alloc(), 8)?;
    assert!(rt; !places(&mut table, 7, InPlace(again.value(7)?)));
    assert_same(&rt, again.never_and_once(), (7, 1));
    let mut rest = table.into_iter();
    let kept = rest.next();
    assert_same(
        &rt,
        drops.as_dropped(rest, kept),
        [(40, 0), (1, 39), (0, 40)],
    );
    Ok(())
}

#[test]
fn an_owning_iterator_stays_at_its_end(rt: HostRuntime) -> Result<(), Fail> {
    let drops = Drops::new(rt.alloc(), 20)?;
    let mut rest = table_of(&rt, rt.alloc(), &drops, 20, 64)?.into_iter();
    for _number in 0..20 {
        assert!(rt; rest.next().is_some());
    }
    for _again in 0..3 {
        assert!(rt; rest.next().is_none());
    }
    assert_same(&rt, drops.never_and_once(), (0, 20));
    Ok(())
}

#[test]
fn the_end_of_a_table_drops_each_value(rt: HostRuntime) -> Result<(), Fail> {
    let drops = Drops::new(rt.alloc(), 40)?;
    let table = table_of(&rt, rt.alloc(), &drops, 40, 128)?;
    assert_same(&rt, table.buckets_alone() as u64, 240);
    let mut walk = table.iter_alone();
    assert!(rt; walk.next().is_some());
    drop(walk);
    assert_same(
        &rt,
        drops.as_dropped((), table),
        [(40, 0), (40, 0), (0, 40)],
    );
    Ok(())
}

#[test]
fn a_value_that_is_found_comes_back(rt: HostRuntime) -> Result<(), Fail> {
    let (first, again) = (Drops::new(rt.alloc(), 8)?, Drops::new(rt.alloc(), 8)?);
    let mut table: Countings = HeldRawTable::new(rt.alloc());
    assert!(rt; places(&mut table, 7, first.counting(7)?));
    assert!(rt; !places(&mut table, 7, again.counting(7)?));
    assert_same(&rt, again.never_and_once(), (7, 1));
    assert_same(&rt, first.as_dropped((), table), [(8, 0), (8, 0), (7, 1)]);
    Ok(())
}
