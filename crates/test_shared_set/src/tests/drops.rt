//! Values that count their drops. Each is dropped once, by the set or by the caller to which it is returned.
use super::caller::{Heap, InsertEnd, Tally, assert_none_out, assert_same};
use shared_set::{Handle, Inserted, SharedSet};
use std::alloc::AllocError;
use std::process::Abort;
use std::test::Fail;
use table_cell::Low;
use testkit::counting::{Counting, CountingLaw, Drops};
use testkit::refusing::{Refusing, Rule};

/// How many numbers there are.
const NUMBERS: u64 = 300;

/// The room of a set at first, how many requests are refused at most, `n` if one request of `n` is drawn to be refused, and how many values
/// of the ended set are taken out. The others are dropped with the rest of the set.
const SETS: [(usize, u64, u64, u64); 4] = [
    (0, 0, 1, 0),
    (200, 0, 1, 1),
    (0, u64::MAX, 2, 150),
    (100, u64::MAX, 3, NUMBERS),
];

/// A set of counting values.
type Counts<A> = SharedSet<Counting, CountingLaw, A>;

/// Inserts the value, and tries again if it is refused. Drops a value that is returned. Returns how the insert ended.
fn insert<A: Low + Copy>(
    handle: &mut Handle<'_, Counting, CountingLaw, A>,
    value: Counting,
) -> InsertEnd {
    let mut value = value;
    for _tried in 0..1000u32 {
        match handle.insert(value) {
            Inserted::Placed(_, _, _) => return InsertEnd::Placed,
            Inserted::Found(_, entry, back) => {
                let is_same = entry.number == back.number;
                return if is_same {
                    InsertEnd::Found
                } else {
                    InsertEnd::Wrong
                };
            }
            Inserted::Refused(back) => value = back,
        }
    }
    InsertEnd::Refused
}

/// Inserts a value of each number. Returns how many were placed, and how many were found and returned. `Err`: no memory.
fn insert_all<A: Low + Copy>(set: &Counts<A>, values: &Drops) -> Result<Tally, AllocError> {
    let mut handle = set.handle();
    let mut tally = Tally::NONE;
    for number in 0..NUMBERS {
        tally = tally.with(insert(&mut handle, values.value(number)?));
    }
    Ok(tally)
}

/// Ends the set, takes `taken` values out, and drops the rest. Asserts that each value is dropped once.
fn end<A: Low + Copy>(rt: &impl Abort, set: Counts<A>, values: &Drops, taken: u64) {
    let mut ended = set.into_iter();
    for dropped in 0..taken {
        let never = NUMBERS.wrapping_sub(dropped);
        assert_same(rt, values.never_and_once(), (never, dropped));
        drop(ended.next());
    }
    drop(ended);
    assert_same(rt, values.never_and_once(), (0, NUMBERS));
}

/// Makes a set of this row, inserts the values and then the copies, and ends the set. Asserts that each copy is dropped once, and then each
/// value. `Err`: no memory.
fn assert_dropped<A: Low + Copy>(
    rt: &impl Abort,
    heap: &Heap,
    memory: A,
    row: (usize, u64, u64, u64),
    values: &Drops,
    copies: &Drops,
) -> Result<(), AllocError> {
    let (room, refused, _, taken) = row;
    let set: Counts<A> = SharedSet::with_capacity(memory, room)?;
    heap.refuse(0, refused);
    let tallies = [insert_all(&set, values)?, insert_all(&set, copies)?];
    assert_same(rt, tallies, [Tally::of(NUMBERS, 0), Tally::of(0, NUMBERS)]);
    assert_same(rt, copies.never_and_once(), (0, NUMBERS));
    assert_same(rt, values.never_and_once(), (NUMBERS, 0));
    end(rt, set, values, taken);
    Ok(())
}

#[test]
fn each_value_is_dropped_once(rt: HostRuntime) -> Result<(), Fail> {
    for row in &SETS {
        let (_, _, one_in, _) = *row;
        let values = Drops::new(rt.alloc(), NUMBERS)?;
        let copies = Drops::new(rt.alloc(), NUMBERS)?;
        let rule = Rule::new(0, usize::MAX, 0, 0).drawn(7, one_in);
        let heap = Refusing::new(rt.alloc(), rule);
        assert_dropped(&rt, &heap, &heap, *row, &values, &copies)?;
        assert_none_out(&rt, &heap);
    }
    Ok(())
}
