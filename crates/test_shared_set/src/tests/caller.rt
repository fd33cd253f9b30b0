//! Sets of numbers, on memory that counts its blocks.
ghost use Rattle.std.specs.Prelude.{◌≡◌};

use shared_set::{Handle, Inserted, SharedSet};
use std::fmt::Debug;
use std::process::Abort;
use table_cell::Low;
use table_terms::law::NumberLaw;
pub(crate) use testkit::counting::numbers::InsertEnd;
pub(crate) use testkit::counting::tally::Tally;
pub(crate) use testkit::refusing::{Heap, counted};

/// A set of numbers.
pub(crate) type NumberSet<A> = SharedSet<u64, NumberLaw, A>;

/// A handle of such a set.
pub(crate) type NumberHandle<'s, A> = Handle<'s, u64, NumberLaw, A>;

/// Asserts that `got` equals `expected`.
pub(crate) fn assert_same<X: PartialEq + Debug + Drop>(rt: &impl Abort, got: X, expected: X) {
    assert_eq!(rt; got, expected);
}

/// Makes an empty set with room for `room` entries.
pub(crate) fn set_with<A: Low + Copy>(rt: &impl Abort, memory: A, room: usize) -> NumberSet<A> {
    SharedSet::with_capacity(memory, room).expect(rt, "a set")
}

/// Asserts that each granted block was freed.
pub(crate) fn assert_none_out(rt: &impl Abort, heap: &Heap) {
    assert_same(rt, heap.given_back(), heap.granted());
}

/// Returns how an insert of this number ended, with the entry's number.
pub(crate) fn end_of(ended: Inserted<'_, u64>, value: u64) -> (InsertEnd, Option<u64>) {
    match ended {
        Inserted::Placed(number, entry, _) if *entry == value => (InsertEnd::Placed, Some(number)),
        Inserted::Found(number, entry, back) if *entry == value && back == value => {
            (InsertEnd::Found, Some(number))
        }
        Inserted::Refused(back) if back == value => (InsertEnd::Refused, None),
        _ => (InsertEnd::Wrong, None),
    }
}

/// Inserts a number. Returns how the insert ended, with the entry's number.
pub(crate) fn insert<A: Low + Copy>(
    handle: &mut NumberHandle<'_, A>,
    value: u64,
) -> (InsertEnd, Option<u64>)
    ensures { handle.new.of ≡ handle.old.of }
{
    let ended = handle.insert(value);
    end_of(ended, value)
}

/// Inserts a number until it isn't refused, at most `tries` times, and then looks it up. Returns how the insert ended.
fn place<A: Low + Copy>(handle: &mut NumberHandle<'_, A>, value: u64, tries: u32) -> InsertEnd
    ensures { handle.new.of ≡ handle.old.of }
{
    for _tried in 0..tries {
        let answer = insert(handle, value).0;
        if answer != InsertEnd::Refused {
            let found = handle.get(&value) == Some(&value);
            return if found { answer } else { InsertEnd::Wrong };
        }
    }
    InsertEnd::Refused
}

/// Inserts the numbers from `from` to below `end`, each at most `tries` times. Returns how many were placed and how many were found.
pub(crate) fn fill<A: Low + Copy>(
    handle: &mut NumberHandle<'_, A>,
    from: u64,
    end: u64,
    tries: u32,
) -> Tally
    ensures { handle.new.of ≡ handle.old.of }
{
    let mut tally = Tally::NONE;
    for value in from..end {
        tally = tally.with(place(handle, value, tries));
    }
    tally
}

/// Returns the first number from `from` to below `end` that isn't found, or `end` if each is found.
pub(crate) fn first_missed<A: Low + Copy>(
    handle: &mut NumberHandle<'_, A>,
    from: u64,
    end: u64,
) -> u64 {
    for value in from..end {
        if handle.get(&value) != Some(&value) {
            return value;
        }
    }
    end
}

/// Asserts that the handle finds each number below `end`, and not `end`.
pub(crate) fn assert_has<A: Low + Copy>(
    rt: &impl Abort,
    handle: &mut NumberHandle<'_, A>,
    end: u64,
) {
    assert_same(rt, first_missed(handle, 0, end), end);
    assert_same(rt, handle.get(&end), None);
}

/// Asserts that each value below `end` has a number, by which it is found. So no two values have the same number.
pub(crate) fn assert_numbered<A: Low + Copy>(
    rt: &impl Abort,
    handle: &mut NumberHandle<'_, A>,
    end: u64,
) {
    for value in 0..end {
        match handle.find(&value) {
            Some((number, entry)) => {
                let known = *handle.known_entry(number);
                assert_same(rt, (*entry, known), (value, value));
                assert_same(rt, handle.entry(number), Some(&value));
            }
            None => assert!(rt; false, "{value} is lost"),
        }
    }
}
