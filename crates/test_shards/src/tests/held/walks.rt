//! Tests of iterators over eight shards, by reference and by value.
ghost use Rattle.std.specs.Iterator.{IsFinite};

use super::makers::eight_shards;
use super::numbers::{Numbers, fill};
use crate::tests::assert_same;
use std::alloc::{AllocError, Global};
use std::process::Abort;
use std::test::Fail;
use testkit::counting::numbers::count_first;

type EightShards = Numbers<8, Global>;

/// Makes a table of the numbers below `count`.
fn filled(rt: &impl Abort, alloc: Global, count: u64) -> EightShards {
    let mut table = eight_shards(alloc);
    assert!(rt; fill(&mut table, alloc, count) == count);
    table
}

/// Returns the numbers that an iterator by reference yields. `Err`: no memory.
pub(crate) fn walked<const SHARDS: usize>(
    table: &Numbers<SHARDS, Global>,
    alloc: Global,
) -> Result<Vec<u64>, AllocError> {
    let mut numbers = Vec::new(alloc);
    for number in table {
        numbers.push(*number)?;
    }
    Ok(numbers)
}

/// Returns the numbers that the owning iterator yields. `Err`: no memory.
fn handed_out(table: EightShards, alloc: Global) -> Result<Vec<u64>, AllocError> {
    let mut numbers = Vec::new(alloc);
    for value in table {
        numbers.push(*value)?;
    }
    Ok(numbers)
}

/// Asserts that these are the numbers below `count`, each once.
fn assert_each_once<R: Abort>(rt: &R, numbers: Vec<u64>, count: u64) {
    let (length, first) = count_first(numbers);
    assert_same(rt, [length, first], [count, count]);
}

#[test]
fn walks_give_a_thousand_numbers_once_each(rt: HostRuntime) -> Result<(), Fail> {
    let table = filled(&rt, rt.alloc(), 1000);
    assert!(rt; table.len_alone() == 1000 && !table.is_empty_alone());
    assert_same(&rt, table.iter_alone().size_hint(), (1000, Some(1000)));
    assert_each_once(&rt, walked(&table, rt.alloc())?, 1000);
    assert_each_once(&rt, handed_out(table, rt.alloc())?, 1000);
    let ten = filled(&rt, rt.alloc(), 10);
    assert_each_once(&rt, handed_out(ten, rt.alloc())?, 10);
    Ok(())
}

/// Runs the iterator to its end, and returns how many items it yields.
pub(super) fn count_steps<T: Drop, I: Iterator<Item = T> + Drop>(walk: &mut I) -> u64
    requires can { I.can_next walk.old }
    requires ends { IsFinite (I.remaining walk.old) }
{
    let mut steps = 0u64;
    for _value in walk {
        steps = steps.wrapping_add(1);
    }
    steps
}

#[test]
fn walks_stay_at_their_ends(rt: HostRuntime) {
    let table = filled(&rt, rt.alloc(), 20);
    let mut walk = table.iter_alone();
    let steps = count_steps(&mut walk);
    assert_same(
        &rt,
        (steps, walk.next().is_none(), walk.next().is_none()),
        (20, true, true),
    );
    let mut values = table.into_iter();
    assert_same(&rt, values.size_hint(), (20, Some(20)));
    let steps = count_steps(&mut values);
    assert_same(
        &rt,
        (steps, values.next().is_none(), values.next().is_none()),
        (20, true, true),
    );
}

#[test]
fn shards_without_entries_give_nothing(rt: HostRuntime) {
    let table: EightShards = eight_shards(rt.alloc());
    let shows_none = table.is_empty_alone() && table.iter_alone().next().is_none();
    assert!(rt; shows_none && table.into_iter().next().is_none());
}
