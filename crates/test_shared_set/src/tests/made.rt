//! Inserts of values that are made only if they are needed.
use super::caller::{
    Heap, InsertEnd, NumberHandle, assert_has, assert_none_out, assert_same, counted, end_of,
    set_with,
};
use shared_set::{GotOrInserted, KeyLaw, SameAs};
use std::process::Abort;
use table_cell::Low;
use table_terms::law::{NumberLaw, hash_number};

/// A short number as a key of longer ones.
#[derive(Drop)]
struct Short {
    number: u32,
}

impl KeyLaw<Short, u64> for NumberLaw {
    ghost use Rattle.table_terms.specs.Laws.{same_number, number_hash, number_law};
    ghost use Rattle.std.proofs.Common.{sym};

    ghost meets = { λ k v. same_number k.number v };

    ghost key_hash = { λ k. number_hash k.number };

    ghost agrees = { λ k v is. sym (number_law.agrees k.number v is) };

    fn is_met(key: &Short, target: &u64) -> bool {
        u64::from(key.number) == *target
    }

    fn hash_key(key: &Short) -> u64 {
        hash_number(u64::from(key.number))
    }
}

/// Returns how a call that gets or inserts this value ended, with the entry's number.
fn ended(answer: GotOrInserted<'_, u64>, value: u64) -> (InsertEnd, Option<u64>) {
    match answer {
        GotOrInserted::Got(number, entry) if *entry == value => (InsertEnd::Found, Some(number)),
        GotOrInserted::Got(_number, _entry) => (InsertEnd::Wrong, None),
        GotOrInserted::Made(inserted) => end_of(inserted, value),
    }
}

/// Gets the entry that meets the key, or inserts this value. Returns how the call ended, the entry's number, and whether the value was
/// made.
pub(crate) fn get_or_insert<A: Low + Copy>(
    handle: &mut NumberHandle<'_, A>,
    key: u32,
    value: u64,
) -> (InsertEnd, Option<u64>, bool) {
    let mut made = false;
    let answer = handle.get_or_insert_with(&Short { number: key }, || {
        made = true;
        value
    });
    let got = if made { value } else { u64::from(key) };
    let (answer, number) = ended(answer, got);
    (answer, number, made)
}

/// Gets the entry that is the same as the value, or inserts the value. Returns how the call ended, with the entry's number.
pub(crate) fn seek_or_insert<A: Low + Copy>(
    handle: &mut NumberHandle<'_, A>,
    value: u64,
) -> (InsertEnd, Option<u64>) {
    let answer = handle.seek_or_insert_with(&SameAs { target: &value }, || value);
    ended(answer, value)
}

/// Gets the entry that meets the key, or inserts the value if one is given. Returns how the call ended, with the entry's number; `Err` if no
/// value was made.
pub(crate) fn try_to_insert<A: Low + Copy>(
    handle: &mut NumberHandle<'_, A>,
    key: u32,
    value: Option<u64>,
) -> Result<(InsertEnd, Option<u64>), u32> {
    let given = value.ok_or(key);
    let answer = handle.get_or_try_insert_with(&Short { number: key }, || given)?;
    let got = match answer {
        GotOrInserted::Got(_, _) => u64::from(key),
        GotOrInserted::Made(_) => value.unwrap_or(0),
    };
    Ok(ended(answer, got))
}

/// Gets the entry that is the same as the value, or inserts the value. Returns the entry with its number, or the value if it was refused.
fn into_entry<A: Low + Copy>(
    handle: &mut NumberHandle<'_, A>,
    value: u64,
) -> Result<(u64, u64), u64> {
    let answer = handle.seek_or_insert_with(&SameAs { target: &value }, || value);
    let (number, entry) = answer.into_entry()?;
    Ok((number, *entry))
}

/// How many keys are placed first.
const MANY: u64 = 1000;

/// Keys, the values to insert if no entry meets them, how the call ends, the number of the entry, and whether the value is made. A value
/// that doesn't meet its key is inserted too.
const CASES: [(u32, u64, InsertEnd, u64, bool); 7] = [
    (0, 0, InsertEnd::Found, 0, false),
    (999, 7, InsertEnd::Found, 999, false),
    (1000, 1001, InsertEnd::Placed, 1000, true),
    (1000, 1001, InsertEnd::Found, 1000, true),
    (1001, 1002, InsertEnd::Found, 1000, false),
    (1000, 1000, InsertEnd::Placed, 1001, true),
    (1000, 1002, InsertEnd::Found, 1001, false),
];

/// Places the numbers below `MANY`, each by itself as its key.
fn place_all<A: Low + Copy>(rt: &impl Abort, handle: &mut NumberHandle<'_, A>) {
    for key in 0..MANY as u32 {
        let number = Some(u64::from(key));
        let answer = get_or_insert(handle, key, u64::from(key));
        assert_same(rt, answer, (InsertEnd::Placed, number, true));
    }
}

/// Asserts that an insert is refused with its memory, though its value is made, and then that a value is made only if no entry meets the key.
fn assert_made_if_needed<A: Low + Copy>(rt: &impl Abort, heap: &Heap, memory: A) {
    let set = set_with(rt, memory, 0);
    let mut handle = set.handle();
    heap.refuse(0, 1);
    let refused = get_or_insert(&mut handle, 0, 0);
    assert_same(rt, refused, (InsertEnd::Refused, None, true));
    place_all(rt, &mut handle);
    assert_has(rt, &mut handle, MANY);
    for row in &CASES {
        let (key, value, answer, number, made) = *row;
        let got = get_or_insert(&mut handle, key, value);
        assert_same(rt, got, (answer, Some(number), made));
    }
}

#[test]
fn a_value_is_made_only_if_no_entry_meets_the_key(rt: HostRuntime) {
    let heap = counted(rt.alloc());
    assert_made_if_needed(&rt, &heap, &heap);
    assert_none_out(&rt, &heap);
}

/// Checks inserts with the value itself as the key. The first is refused with its memory, the second places the value, and the third finds
/// it without memory.
fn assert_sought<A: Low + Copy>(rt: &impl Abort, heap: &Heap, memory: A) {
    let set = set_with(rt, memory, 0);
    let mut handle = set.handle();
    for (refused, expected) in [
        (1, (InsertEnd::Refused, None)),
        (0, (InsertEnd::Placed, Some(0))),
        (u64::MAX, (InsertEnd::Found, Some(0))),
    ] {
        heap.refuse(0, refused);
        assert_same(rt, seek_or_insert(&mut handle, 7), expected);
    }
}

#[test]
fn a_target_may_be_the_key(rt: HostRuntime) {
    let heap = counted(rt.alloc());
    assert_sought(&rt, &heap, &heap);
    assert_none_out(&rt, &heap);
}

/// Keys, the values to insert if any is made, how many requests are refused, and how the call ends. A value that doesn't meet its key is
/// inserted too.
const TRIES: [(u32, Option<u64>, u64, Result<(InsertEnd, Option<u64>), u32>); 8] = [
    (7, None, 0, Err(7)),
    (7, Some(7), 1, Ok((InsertEnd::Refused, None))),
    (7, None, 0, Err(7)),
    (7, Some(7), 0, Ok((InsertEnd::Placed, Some(0)))),
    (7, None, u64::MAX, Ok((InsertEnd::Found, Some(0)))),
    (8, None, u64::MAX, Err(8)),
    (8, Some(7), u64::MAX, Ok((InsertEnd::Found, Some(0)))),
    (8, Some(9), 0, Ok((InsertEnd::Placed, Some(1)))),
];

/// Checks that nothing is inserted if no value is made, and that an entry that meets the key is found without memory and without a value.
fn assert_tries<A: Low + Copy>(rt: &impl Abort, heap: &Heap, memory: A) {
    let set = set_with(rt, memory, 0);
    let mut handle = set.handle();
    for row in &TRIES {
        let (key, value, refused, expected) = *row;
        heap.refuse(0, refused);
        assert_same(rt, try_to_insert(&mut handle, key, value), expected);
    }
    assert_same(rt, set.get_by_key(&Short { number: 9 }), Some(&9));
    assert_same(rt, set.get_by_key(&Short { number: 8 }), None);
    drop(handle);
    assert_same(rt, set.len(), 2);
}

#[test]
fn a_value_may_fail_to_be_made(rt: HostRuntime) {
    let heap = counted(rt.alloc());
    assert_tries(&rt, &heap, &heap);
    assert_none_out(&rt, &heap);
}

/// Checks the entry of an insert that is refused, one that places its value, and one that finds it.
fn assert_into_entry<A: Low + Copy>(rt: &impl Abort, heap: &Heap, memory: A) {
    let set = set_with(rt, memory, 0);
    let mut handle = set.handle();
    for (refused, expected) in [(1, Err(7)), (0, Ok((0, 7))), (u64::MAX, Ok((0, 7)))] {
        heap.refuse(0, refused);
        assert_same(rt, into_entry(&mut handle, 7), expected);
    }
    match handle.insert(7).into_entry() {
        Ok((number, entry)) => assert_same(rt, (number, *entry), (0, 7)),
        Err(_value) => assert!(rt; false, "a value that is there"),
    }
}

#[test]
fn an_insert_turns_into_its_entry(rt: HostRuntime) {
    let heap = counted(rt.alloc());
    assert_into_entry(&rt, &heap, &heap);
    assert_none_out(&rt, &heap);
}
