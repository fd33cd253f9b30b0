//! Sets whose new handles know entries from their beginning.
use super::caller::{
    NumberSet, Tally, assert_has, assert_none_out, assert_same, counted, fill, set_with,
};
use shared_set::Settled;
use std::alloc::{AllocError, Global};
use std::process::Abort;
use std::test::Fail;
use table_cell::Low;
use testkit::counting::numbers::count_first;

/// How many numbers the set has at each call of `begin_with`. It grows in between.
const COUNTS: [u64; 5] = [0, 1, 5, 300, 2000];

/// Places the numbers from `from` to below `end`, and makes new handles know them by `begin_with`.
fn begin<A: Low + Copy>(rt: &impl Abort, set: &mut NumberSet<A>, from: u64, end: u64) {
    let mut handle = set.handle();
    let placed = Tally::of(end.wrapping_sub(from), 0);
    assert_same(rt, fill(&mut handle, from, end, 1), placed);
    let known = handle.tell();
    drop(handle);
    set.begin_with(known);
}

/// Asserts that the set and a new handle find each number below `end`, and not `end`.
fn assert_begins<A: Low + Copy>(rt: &impl Abort, set: &NumberSet<A>, end: u64) {
    assert_has(rt, &mut set.handle(), end);
    for number in 0..end {
        assert_same(rt, set.get(&number), Some(&number));
    }
    assert_same(rt, (set.contains(&end), set.len()), (false, end));
}

/// Asserts that a walk over the set returns each number below `end` once, with the number by which it is found. `Err`: no memory.
fn assert_walked<A: Low + Copy>(
    rt: &impl Abort,
    alloc: Global,
    set: &NumberSet<A>,
    end: u64,
) -> Result<(), AllocError> {
    let mut values = Vec::new(alloc);
    for (number, value) in set.iter() {
        assert_same(rt, set.entry(number), Some(value));
        values.push(*value)?;
    }
    assert_same(rt, count_first(values), (end, end));
    assert_same(rt, set.entry(u64::MAX), None);
    Ok(())
}

/// Fills a set step by step, and asserts after each step that new handles and a walk find the numbers. Then ends the set by an empty
/// account, and asserts that it returns each number. `Err`: no memory.
fn assert_known<A: Low + Copy>(
    rt: &impl Abort,
    alloc: Global,
    memory: A,
) -> Result<(), AllocError> {
    let mut set = set_with(rt, memory, 0);
    let mut from = 0;
    for end in &COUNTS {
        let end = *end;
        begin(rt, &mut set, from, end);
        assert_begins(rt, &set, end);
        assert_walked(rt, alloc, &set, end)?;
        from = end;
    }
    let account = set.account();
    match set.settle(account) {
        Settled::All(_) => assert!(rt; false, "an account without receipts"),
        Settled::More(values) => assert_same(rt, values.len() as u64, from),
    }
    Ok(())
}

#[test]
fn new_handles_find_what_they_begin_with(rt: HostRuntime) -> Result<(), Fail> {
    let heap = counted(rt.alloc());
    assert_known(&rt, rt.alloc(), &heap)?;
    assert_none_out(&rt, &heap);
    Ok(())
}
