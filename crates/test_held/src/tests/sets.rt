//! Tests of the single-owner sets.
mod fields;
mod held;
mod keys;
mod laws;
mod memory;
mod steps;

ghost use Rattle.std.specs.Iterator.{IsFinite};

use super::assert_same;
use std::alloc::{AllocError, Allocator, Global};
use std::process::Abort;
use table_sets::{AtomicValue, HeldSet, Inserted, NumberLaw, SetLaw, Shown, TextLaw};
use testkit::counting::numbers::InsertEnd;

/// A set of boxed texts.
type Texts<A> = HeldSet<Box<String<A>, A>, TextLaw, A>;

/// A set of boxed numbers.
type Numbers<A> = HeldSet<Box<u64>, NumberLaw, A>;

/// Inserts the value, and returns the answer.
fn end_of<T: AtomicValue, L: SetLaw<T::Target>, A: Allocator + Copy>(
    set: &mut HeldSet<T, L, A>,
    value: T,
) -> InsertEnd {
    match set.insert(value) {
        Inserted::Placed => InsertEnd::Placed,
        Inserted::Found(_) => InsertEnd::Found,
        Inserted::Refused(_) => InsertEnd::Refused,
    }
}

/// Asserts that the insert of the value has the expected answer.
fn assert_insert<T: AtomicValue, L: SetLaw<T::Target>, A: Allocator + Copy>(
    rt: &impl Abort,
    set: &mut HeldSet<T, L, A>,
    value: T,
    expected: InsertEnd,
) {
    assert!(rt; end_of(set, value) == expected);
}

/// Asserts that the insert of the first value places it, and that the next insert finds it.
fn assert_placed_once<T: AtomicValue, L: SetLaw<T::Target>, A: Allocator + Copy>(
    rt: &impl Abort,
    set: &mut HeldSet<T, L, A>,
    first: T,
    again: T,
) {
    assert_insert(rt, set, first, InsertEnd::Placed);
    assert_insert(rt, set, again, InsertEnd::Found);
}

/// Inserts the number in a box, and returns the answer. `Err`: no memory for the box.
fn insert_box<A: Allocator + Copy>(
    set: &mut Numbers<A>,
    alloc: Global,
    number: u64,
) -> Result<InsertEnd, AllocError> {
    Ok(end_of(set, Box::new(alloc, number)?))
}

/// Returns the answer of `insert_and_show` for this number: `Wrong` if it has an entry or a value with another number.
fn shown_end<T: AtomicValue<Target = u64>>(shown: Shown<&u64, T>, number: u64) -> InsertEnd {
    match shown {
        Shown::Placed(entry) if *entry == number => InsertEnd::Placed,
        Shown::Found(entry, back) if *entry == number && *back.deref() == number =>
            InsertEnd::Found,
        Shown::Refused(back) if *back.deref() == number => InsertEnd::Refused,
        _ => InsertEnd::Wrong,
    }
}

/// Returns the sum of the numbers that an iterator by reference yields.
fn sum_shown<'a, I: Iterator<Item = &'a u64> + Drop>(walk: I) -> u64
    requires can { I.can_next walk }
    requires ends { IsFinite (I.remaining walk) }
{
    let mut sum = 0u64;
    for number in walk {
        sum = sum.wrapping_add(*number);
    }
    sum
}

/// Returns the sum of the numbers of the values that an owning iterator yields.
fn sum_handed<T: AtomicValue<Target = u64>, I: Iterator<Item = T> + Drop>(values: I) -> u64
    requires can { I.can_next values }
    requires ends { IsFinite (I.remaining values) }
{
    let mut sum = 0u64;
    for value in values {
        sum = sum.wrapping_add(*value.deref());
    }
    sum
}

/// Asserts that each sum is 210, which is the sum of the numbers from 1 to 20.
fn assert_sums(rt: &impl Abort, sums: [u64; 3]) {
    assert_same(rt, sums, [210; 3]);
}

/// Makes a boxed text. `Err`: no memory.
fn boxed_text<A: Allocator + Copy>(alloc: A, text: &str) -> Result<Box<String<A>, A>, AllocError> {
    Ok(Box::new(alloc, String::from_str(alloc, text)?)?)
}

/// Asserts that the entries of the set are the numbers below `end`.
fn assert_numbers<A: Allocator + Copy>(rt: &impl Abort, set: &Numbers<A>, end: u64) {
    assert_same(rt, set.len() as u64, end);
    for number in 0..end {
        assert!(rt; set.get(&number).copied() == Some(number));
    }
    assert!(rt; !set.contains(&end));
}
