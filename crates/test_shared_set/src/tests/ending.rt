//! The end of a set.
use super::caller::{Heap, Tally, assert_none_out, assert_same, counted, fill, set_with};
use shared_set::IntoValues;
use std::alloc::{AllocError, Global};
use std::process::Abort;
use std::test::Fail;
use table_cell::Low;
use table_terms::law::NumberLaw;
use testkit::counting::numbers::count_first;

/// The values of a set of numbers that has ended.
type Ended<A> = IntoValues<u64, NumberLaw, A>;

/// How many values a set has when it ends.
const COUNTS: [usize; 6] = [0, 1, 7, 8, 9, 1000];

/// Takes all `count` values of an ended set. Asserts that the number of values that are left is exact. `Err`: no memory.
fn take_all<A: Low + Copy>(
    rt: &impl Abort,
    alloc: Global,
    ended: &mut Ended<A>,
    count: usize,
) -> Result<Vec<u64>, AllocError> {
    let mut values = Vec::new(alloc);
    for taken in 0..count {
        let left = count - taken;
        assert_same(rt, ended.len(), left);
        assert_same(rt, ended.size_hint(), (left, Some(left)));
        values.push(ended.next().expect(rt, "a value"))?;
    }
    assert_same(rt, ended.size_hint(), (0, Some(0)));
    assert_same(rt, (ended.next(), ended.next()), (None, None));
    Ok(values)
}

/// Ends a set of `count` values while all memory is refused. Asserts that the end makes no request and returns each value once. The values
/// that handles knew are among them. `Err`: no memory.
fn assert_ends<A: Low + Copy>(
    rt: &impl Abort,
    alloc: Global,
    heap: &Heap,
    memory: A,
    count: usize,
) -> Result<(), AllocError> {
    let set = set_with(rt, memory, 0);
    let early = set.handle().tell();
    let mut handle = set.handle();
    let half = count as u64 / 2;
    assert_same(rt, fill(&mut handle, 0, half, 1), Tally::of(half, 0));
    let known = handle.tell();
    drop(handle);
    let rest = count as u64 - half;
    let tally = fill(&mut set.handle(), half, count as u64, 1);
    assert_same(rt, tally, Tally::of(rest, 0));
    heap.refuse(0, u64::MAX);
    let mut ended = set.into_values();
    ended.has_all(&early);
    ended.has_all(&known);
    let values = take_all(rt, alloc, &mut ended, count)?;
    drop(ended);
    assert_same(rt, count_first(values), (count as u64, count as u64));
    assert_same(rt, heap.refusals_left(), u64::MAX);
    assert_none_out(rt, heap);
    Ok(())
}

#[test]
fn each_value_is_returned_once(rt: HostRuntime) -> Result<(), Fail> {
    for count in &COUNTS {
        let heap = counted(rt.alloc());
        assert_ends(&rt, rt.alloc(), &heap, &heap, *count)?;
    }
    Ok(())
}
