//! Sets that one thread calls.
use super::caller::{
    Heap, InsertEnd, NumberHandle, NumberSet, Tally, assert_none_out, assert_same, counted, end_of,
    fill, insert, set_with,
};
use std::process::Abort;
use table_cell::Low;

/// The room of a set at first, how many numbers are placed, and the step from one number to the next. The low 40 bits of multiples of 2^40
/// are 0.
const SETS: [(usize, u64, u64); 8] = [
    (0, 20_000, 1),
    (0, 1, 1),
    (1, 1000, 1),
    (16, 1000, 1),
    (1000, 1000, 1),
    (0, 10_000, 1 << 8),
    (0, 10_000, 1 << 16),
    (0, 10_000, 1 << 40),
];

/// Twenty thousand entries make fewer requests for memory than this. Each doubling of the slots and of the buckets makes some, and an entry
/// makes none.
const FEW: u64 = 100;

/// Inserts the first `count` multiples of the step. Asserts that each insert ends as expected, that a look-up before it agrees, and that
/// the entries are numbered from 0 on.
fn insert_each<A: Low + Copy>(
    rt: &impl Abort,
    handle: &mut NumberHandle<'_, A>,
    count: u64,
    step: u64,
    expected: InsertEnd,
) {
    for index in 0..count {
        let value = index.wrapping_mul(step);
        assert_same(rt, handle.contains(&value), expected == InsertEnd::Found);
        assert_same(rt, insert(handle, value), (expected, Some(index)));
    }
}

/// Fills a set of this row by one handle. Asserts that this handle and one that was made before find each number, and that the set made few
/// requests to the heap.
fn assert_grows<A: Low + Copy>(rt: &impl Abort, heap: &Heap, memory: A, row: (usize, u64, u64)) {
    let (room, count, step) = row;
    let set = set_with(rt, memory, room);
    let mut handle = set.handle();
    let mut late = set.handle();
    insert_each(rt, &mut handle, count, step, InsertEnd::Placed);
    insert_each(rt, &mut handle, count, step, InsertEnd::Found);
    insert_each(rt, &mut late, count, step, InsertEnd::Found);
    assert_same(rt, handle.get(&count.wrapping_mul(step)), None);
    drop(handle);
    drop(late);
    assert_same(rt, set.len(), count);
    assert!(rt; heap.granted() < FEW, "{}", heap.granted());
}

/// Checks that each number is found while the set grows, also by a handle that was made before the growth.
#[test]
fn each_number_is_found_over_growth(rt: HostRuntime) {
    for row in &SETS {
        let heap = counted(rt.alloc());
        assert_grows(&rt, &heap, &heap, *row);
        assert_none_out(&rt, &heap);
    }
}

/// Inserts a number by the set itself. Returns how the insert ended, with the entry's number.
fn insert_by<A: Low + Copy>(set: &NumberSet<A>, value: u64) -> (InsertEnd, Option<u64>) {
    end_of(set.insert(value), value)
}

/// Places the first `count` multiples of 7 by the set itself. Asserts that the entries are numbered from 0 on, and that calls of the set
/// and of a new handle find them.
fn place_by_the_set<A: Low + Copy>(rt: &impl Abort, set: &NumberSet<A>, count: u64) {
    for index in 0..count {
        let value = index.wrapping_mul(7);
        assert_same(rt, set.contains(&value), false);
        assert_same(rt, insert_by(set, value), (InsertEnd::Placed, Some(index)));
        assert_same(rt, insert_by(set, value), (InsertEnd::Found, Some(index)));
        assert_same(rt, set.handle().find(&value), Some((index, &value)));
        assert_same(rt, set.get(&value), Some(&value));
        assert_same(rt, set.len(), index.wrapping_add(1));
    }
}

/// Fills a set by its own calls. Asserts that it has the last number that was placed, and not the next.
fn assert_called<A: Low + Copy>(rt: &impl Abort, memory: A) {
    let set = set_with(rt, memory, 0);
    place_by_the_set(rt, &set, 300);
    assert_same(rt, set.contains(&2093), true);
    assert_same(rt, set.contains(&2100), false);
    assert_same(rt, set.len(), 300);
}

/// Checks the calls of a set without a handle, over several growths.
#[test]
fn a_set_is_called_without_a_handle(rt: HostRuntime) {
    let heap = counted(rt.alloc());
    assert_called(&rt, &heap);
    assert_none_out(&rt, &heap);
}

/// The numbers that a second handle takes after the first placed four values and was dropped. The first left 4, 5 and 6 of a run of four.
/// The second asks for one number, then two, then four: only the third request is large enough to get the three that were left.
const NEXT: [u64; 8] = [7, 8, 9, 4, 5, 6, 10, 11];

/// Inserts new values, from `from` on, and asserts that they get these numbers.
fn assert_takes<A: Low + Copy>(
    rt: &impl Abort,
    handle: &mut NumberHandle<'_, A>,
    from: u64,
    numbers: &[u64],
) {
    for (index, number) in numbers.iter().enumerate() {
        let value = from.wrapping_add(index as u64);
        assert_same(
            rt,
            insert(handle, value),
            (InsertEnd::Placed, Some(*number)),
        );
    }
}

/// Places values by one handle, and more by the next. Asserts that the second takes the numbers that the first left.
fn assert_left_used<A: Low + Copy>(rt: &impl Abort, memory: A) {
    let set = set_with(rt, memory, 1000);
    assert_takes(rt, &mut set.handle(), 0, [0, 1, 2, 3].as_slice());
    assert_takes(rt, &mut set.handle(), 4, NEXT.as_slice());
    assert_same(rt, set.len(), 12);
}

#[test]
fn numbers_that_a_handle_leaves_are_used(rt: HostRuntime) {
    let heap = counted(rt.alloc());
    assert_left_used(&rt, &heap);
    assert_none_out(&rt, &heap);
}

/// How many values one handle placed, and the length of the set then. A handle counts its first value at once, and the next ones in groups
/// of 2, 4, 8, 16, 32 and 64.
const COUNTED: [(u64, u64); 8] = [
    (0, 0),
    (1, 1),
    (2, 1),
    (3, 3),
    (6, 3),
    (7, 7),
    (127, 127),
    (190, 127),
];

/// Places this many values by one handle. Asserts the length of the set then, and that the end of the handle counts the rest.
fn assert_counted<A: Low + Copy>(rt: &impl Abort, memory: A, placed: u64, length: u64) {
    let set = set_with(rt, memory, 0);
    let mut handle = set.handle();
    assert_same(rt, fill(&mut handle, 0, placed, 1), Tally::of(placed, 0));
    assert_same(rt, (set.len(), set.is_empty()), (length, placed == 0));
    drop(handle);
    assert_same(rt, set.len(), placed);
}

#[test]
fn a_first_value_is_counted_at_once(rt: HostRuntime) {
    for (placed, length) in &COUNTED {
        let heap = counted(rt.alloc());
        assert_counted(&rt, &heap, *placed, *length);
        assert_none_out(&rt, &heap);
    }
}
