//! Walks over the entries.
ghost use Rattle.std.specs.Prelude.{◌≡◌};

use super::caller::{
    NumberHandle, NumberSet, Tally, assert_none_out, assert_same, counted, fill, set_with,
};
use std::alloc::{AllocError, Global};
use std::process::Abort;
use std::test::Fail;
use table_cell::Low;
use testkit::counting::numbers::count_first;

/// How many values a set has when a walk begins, and how many it has later: the same number, or eight times as many.
const WALKS: [(u64, u64); 11] = [
    (0, 0),
    (1, 1),
    (8, 8),
    (9, 9),
    (100, 100),
    (1000, 1000),
    (1, 8),
    (8, 64),
    (9, 72),
    (100, 800),
    (1000, 8000),
];

/// Walks over a set of the values below `first`, and inserts those from `first` to `many` meanwhile. Asserts that each value has its own
/// number. Returns the values. `Err`: no memory.
fn walked<A: Low + Copy>(
    rt: &impl Abort,
    alloc: Global,
    set: &NumberSet<A>,
    first: u64,
    many: u64,
) -> Result<Vec<u64>, AllocError> {
    let mut handle = set.handle();
    assert_same(rt, fill(&mut handle, 0, first, 1), Tally::of(first, 0));
    let mut values = Vec::new(alloc);
    let mut next = first;
    let mut walk = handle.iter();
    while let Some((number, entry)) = walk.next() {
        values.push(*entry)?;
        let mut other = set.handle();
        other.hear(&walk.tell());
        assert_same(rt, other.find(entry), Some((number, entry)));
        if next < many {
            let end = next.saturating_add(7);
            assert_same(rt, fill(&mut handle, next, end, 1), Tally::of(7, 0));
            next = end;
        }
    }
    assert_same(rt, walk.next(), None);
    Ok(values)
}

/// Asserts that each value below `first` is there once, and no other value twice.
fn assert_once(rt: &impl Abort, mut values: Vec<u64>, first: u64) {
    let all = values.len();
    values.sort_unstable();
    values.dedup();
    assert_same(rt, values.len(), all);
    assert!(rt; first <= count_first(values).1);
}

/// Returns the values of a walk. `Err`: no memory.
fn values_of<A: Low + Copy>(
    alloc: Global,
    handle: &mut NumberHandle<'_, A>,
) -> Result<Vec<u64>, AllocError> {
    let mut values = Vec::new(alloc);
    for (_number, entry) in handle.iter() {
        values.push(*entry)?;
    }
    Ok(values)
}

/// Makes a handle of a set over this memory before another one fills the set. Asserts that a walk of the first handle shows each value once.
/// `Err`: no memory.
fn assert_late_walk<A: Low + Copy>(
    rt: &impl Abort,
    alloc: Global,
    memory: A,
) -> Result<(), AllocError> {
    let set = set_with(rt, memory, 0);
    let mut late = set.handle();
    assert_same(rt, fill(&mut set.handle(), 0, 100, 1), Tally::of(100, 0));
    let values = values_of(alloc, &mut late)?;
    assert_same(rt, count_first(values), (100, 100));
    Ok(())
}

/// Checks that a handle that was made before the growth walks over the newest generation.
#[test]
fn a_walk_is_over_the_newest_generation(rt: HostRuntime) -> Result<(), Fail> {
    let heap = counted(rt.alloc());
    assert_late_walk(&rt, rt.alloc(), &heap)?;
    assert_none_out(&rt, &heap);
    Ok(())
}

/// Walks over a set over this memory while it gets `many` values, of which it has `first` when the walk begins. Asserts that the walk shows
/// each of the first values once, and no other value twice. `Err`: no memory.
fn assert_walk<A: Low + Copy>(
    rt: &impl Abort,
    alloc: Global,
    memory: A,
    first: u64,
    many: u64,
) -> Result<(), AllocError> {
    let set = set_with(rt, memory, 0);
    let values = walked(rt, alloc, &set, first, many)?;
    if first == many {
        assert_same(rt, count_first(values), (first, first));
    } else {
        assert_once(rt, values, first);
    }
    Ok(())
}

#[test]
fn a_walk_returns_each_entry_once(rt: HostRuntime) -> Result<(), Fail> {
    for (first, many) in &WALKS {
        let heap = counted(rt.alloc());
        assert_walk(&rt, rt.alloc(), &heap, *first, *many)?;
        assert_none_out(&rt, &heap);
    }
    Ok(())
}
