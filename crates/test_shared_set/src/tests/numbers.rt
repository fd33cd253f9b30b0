//! Entries by their numbers.
use super::caller::{
    InsertEnd, NumberHandle, Tally, assert_none_out, assert_numbered, assert_same, counted, fill,
    insert, set_with,
};
use std::process::Abort;
use table_cell::Low;

/// How many values are inserted.
const MANY: u64 = 1000;

/// Inserts a new value by the first handle. Asserts that both handles then return it by its number.
fn assert_shown<A: Low + Copy>(
    rt: &impl Abort,
    mine: &mut NumberHandle<'_, A>,
    other: &mut NumberHandle<'_, A>,
    value: u64,
) {
    let (answer, number) = insert(mine, value);
    assert_same(rt, answer, InsertEnd::Placed);
    let number = number.expect(rt, "a number");
    assert_same(rt, mine.entry(number), Some(&value));
    assert_same(rt, other.entry(number), Some(&value));
}

/// Inserts every third value by the first handle, and the others by the second.
fn fill_by_two<A: Low + Copy>(
    rt: &impl Abort,
    one: &mut NumberHandle<'_, A>,
    other: &mut NumberHandle<'_, A>,
) {
    for value in 0..MANY {
        if value % 3 == 0 {
            assert_shown(rt, one, other, value);
        } else {
            assert_shown(rt, other, one, value);
        }
    }
}

/// Numbers that no entry has.
const NONE: [u64; 6] = [MANY + 200, MANY + 201, 1 << 20, 1 << 31, 1 << 32, u64::MAX];

/// Asserts that a handle returns no entry for a number that no entry has.
fn assert_no_other<A: Low + Copy>(rt: &impl Abort, handle: &mut NumberHandle<'_, A>) {
    for number in &NONE {
        assert_same(rt, handle.entry(*number), None);
    }
}

/// Fills a set. Looks up by number before the first insert if it is to be `early`, or else after the last growth. Asserts that each entry
/// is found by its number.
fn assert_found<A: Low + Copy>(rt: &impl Abort, memory: A, early: bool) {
    let set = set_with(rt, memory, 0);
    if early {
        assert_same(rt, set.handle().entry(0), None);
        fill_by_two(rt, &mut set.handle(), &mut set.handle());
    } else {
        let tally = fill(&mut set.handle(), 0, MANY, 1);
        assert_same(rt, tally, Tally::of(MANY, 0));
        assert_same(rt, set.handle().entry(MANY), None);
    }
    let mut handle = set.handle();
    assert_numbered(rt, &mut handle, MANY);
    assert_no_other(rt, &mut handle);
}

/// Checks that each entry is found by its number, whether the first look-up by number comes before the first insert or after the last
/// growth.
#[test]
fn each_entry_is_found_by_its_number(rt: HostRuntime) {
    for early in [true, false] {
        let heap = counted(rt.alloc());
        assert_found(&rt, &heap, early);
        assert_none_out(&rt, &heap);
    }
}
