//! Sets whose requests for memory are refused.
use super::caller::{
    Heap, InsertEnd, NumberHandle, NumberSet, Tally, assert_has, assert_none_out, assert_same,
    counted, end_of, fill, insert, set_with,
};
use super::made::{get_or_insert, seek_or_insert};
use shared_set::SharedSet;
use std::alloc::Global;
use std::process::Abort;
use table_cell::Low;
use testkit::refusing::{Refusing, Rule};

/// How many numbers a run places.
const NUMBERS: u64 = 100;

/// The call by which a run inserts its numbers.
#[derive(Clone, Copy)]
enum By {
    Handle,
    Set,
    Key,
    Sought,
}

/// Makes a set with room for `room` entries, by `new` if that is 0. `None` means that memory was refused.
fn made<A: Low + Copy>(memory: A, room: usize) -> Option<NumberSet<A>> {
    if room == 0 {
        return SharedSet::new(memory).ok();
    }
    SharedSet::with_capacity(memory, room).ok()
}

/// Makes a set with room for `room` entries, and tries again at most `refused` times. Asserts that a refused try leaves no memory
/// allocated. `None` means that the last try was refused.
fn made_at_last<A: Low + Copy>(
    rt: &impl Abort,
    heap: &Heap,
    memory: A,
    room: usize,
    refused: u64,
) -> Option<NumberSet<A>> {
    for _refused in 0..refused {
        if let Some(set) = made(memory, room) {
            return Some(set);
        }
        assert_none_out(rt, heap);
    }
    made(memory, room)
}

/// Inserts the number by this call, and returns how it ended.
fn insert_by<A: Low + Copy>(
    by: By,
    set: &NumberSet<A>,
    handle: &mut NumberHandle<'_, A>,
    value: u64,
) -> InsertEnd {
    match by {
        By::Handle => insert(handle, value).0,
        By::Set => end_of(set.insert(value), value).0,
        By::Key => match u32::try_from(value) {
            Ok(key) => get_or_insert(handle, key, value).0,
            Err(_) => InsertEnd::Wrong,
        },
        By::Sought => seek_or_insert(handle, value).0,
    }
}

/// Places the number, and tries again at most `refused` times. Asserts that a refused insert keeps the numbers below this one.
fn place_at_last<A: Low + Copy>(
    rt: &impl Abort,
    by: By,
    set: &NumberSet<A>,
    handle: &mut NumberHandle<'_, A>,
    value: u64,
    refused: u64,
) {
    for _refused in 0..refused {
        let answer = insert_by(by, set, handle, value);
        if answer == InsertEnd::Placed {
            return;
        }
        assert_same(rt, answer, InsertEnd::Refused);
        assert_has(rt, handle, value);
    }
    assert_same(rt, insert_by(by, set, handle, value), InsertEnd::Placed);
}

/// Places the numbers in a set over this memory. Asserts that each number is placed after some tries, and then found. Returns how many
/// refusals were left once each was placed.
fn place_each<A: Low + Copy>(
    rt: &impl Abort,
    (room, refused, by): Run,
    heap: &Heap,
    memory: A,
) -> u64 {
    let set = made_at_last(rt, heap, memory, room, refused).expect(rt, "a set");
    let mut handle = set.handle();
    for value in 0..NUMBERS {
        place_at_last(rt, by, &set, &mut handle, value, refused);
    }
    drop(handle);
    let left = heap.refusals_left();
    heap.refuse(0, 0);
    let tally = fill(&mut set.handle(), 0, NUMBERS, 1);
    assert_same(rt, tally, Tally::of(0, NUMBERS));
    left
}

/// Makes a run on memory that refuses some requests in a row after the first `granted` ones. Asserts that each number is placed, and that
/// each block is freed. Returns whether all those requests were refused.
fn run(rt: &impl Abort, as_told: Run, alloc: Global, granted: u64) -> bool {
    let (_, refused, _) = as_told;
    let heap = Refusing::new(alloc, Rule::new(0, usize::MAX, granted, refused));
    let left = place_each(rt, as_told, &heap, &heap);
    assert_none_out(rt, &heap);
    left == 0
}

/// Makes runs with 0, 1, 2 and more granted requests. Returns the first of these numbers with which not all refusals took place, at most
/// 200.
fn run_each(rt: &impl Abort, alloc: Global, as_told: Run) -> u64 {
    for granted in 0..200 {
        if !run(rt, as_told, alloc, granted) {
            return granted;
        }
    }
    200
}

/// The room of a set at first, how many requests in a row are refused, and the call that inserts.
type Run = (usize, u64, By);

const RUNS: [Run; 12] = [
    (0, 1, By::Handle),
    (0, 2, By::Handle),
    (0, 8, By::Handle),
    (20, 1, By::Handle),
    (20, 2, By::Handle),
    (20, 8, By::Handle),
    (0, 1, By::Set),
    (20, 2, By::Set),
    (0, 1, By::Key),
    (20, 2, By::Key),
    (0, 1, By::Sought),
    (20, 2, By::Sought),
];

#[test]
fn each_request_refused_in_turn(rt: HostRuntime) {
    for as_told in &RUNS {
        let turns = run_each(&rt, rt.alloc(), *as_told);
        assert!(&rt; 10 < turns && turns < 200, "{turns} turns");
    }
}

/// Makes an allocator that refuses the growth of a set of `buckets` buckets, once `refuse` is called. The growth requests twice as many words
/// of eight bytes.
fn without_growth(alloc: Global, buckets: usize) -> Heap {
    let least = buckets.saturating_mul(16);
    Refusing::new(alloc, Rule::new(least, usize::MAX, 0, 0))
}

/// The room of a set at first, and how many entries fill half of one of its generations, the first or a later one.
const HALVES: [(usize, usize); 7] = [
    (16, 16),
    (128, 128),
    (1024, 1024),
    (1 << 14, 1 << 14),
    (0, 16),
    (0, 1024),
    (20, 1 << 10),
];

/// Asserts that a generation requests no growth until half of it is filled, and that the next insert requests it.
fn assert_grows_after_half<A: Low + Copy>(
    rt: &impl Abort,
    heap: &Heap,
    memory: A,
    (room, half): (usize, usize),
) {
    let set = set_with(rt, memory, room);
    heap.refuse(0, u64::MAX);
    let mut handle = set.handle();
    let count = half as u64;
    assert_same(rt, fill(&mut handle, 0, count, 1), Tally::of(count, 0));
    assert_same(rt, heap.refusals_left(), u64::MAX);
    assert_same(rt, insert(&mut handle, count).0, InsertEnd::Placed);
    assert_same(rt, heap.refusals_left(), u64::MAX - 1);
}

#[test]
fn a_generation_grows_once_half_of_it_is_filled(rt: HostRuntime) {
    for (room, half) in &HALVES {
        let heap = without_growth(rt.alloc(), half.saturating_mul(2));
        assert_grows_after_half(&rt, &heap, &heap, (*room, *half));
        assert_none_out(&rt, &heap);
    }
}

/// The room of a set at first, and how many entries fill it: twice as many.
const FILLED: [(usize, u64); 3] = [(16, 32), (128, 256), (1024, 2048)];

/// Asserts that a set whose growth is refused requests it sixteen times while its second half is filled, and then at each insert.
fn assert_asks_now_and_then<A: Low + Copy>(
    rt: &impl Abort,
    heap: &Heap,
    memory: A,
    (room, full): (usize, u64),
) {
    let set = set_with(rt, memory, room);
    heap.refuse(0, u64::MAX);
    let mut handle = set.handle();
    assert_same(rt, fill(&mut handle, 0, full, 1), Tally::of(full, 0));
    assert_same(rt, heap.refusals_left(), u64::MAX - 16);
    assert_same(rt, insert(&mut handle, full).0, InsertEnd::Refused);
    assert_same(rt, heap.refusals_left(), u64::MAX - 17);
}

#[test]
fn a_refused_growth_is_asked_for_now_and_then(rt: HostRuntime) {
    for (room, full) in &FILLED {
        let heap = without_growth(rt.alloc(), room.saturating_mul(2));
        assert_asks_now_and_then(&rt, &heap, &heap, (*room, *full));
        assert_none_out(&rt, &heap);
    }
}

/// Returns a set of 32 buckets, all of which are filled, since its growth was refused.
pub(crate) fn full_set<A: Low + Copy>(rt: &impl Abort, heap: &Heap, memory: A) -> NumberSet<A> {
    let set = set_with(rt, memory, 16);
    heap.refuse(0, u64::MAX);
    let tally = fill(&mut set.handle(), 0, 32, 1);
    assert_same(rt, tally, Tally::of(32, 0));
    set
}

/// Asserts that a set whose growth is refused fills each bucket, and that it then returns new values and finds each entry.
fn assert_filled<A: Low + Copy>(rt: &impl Abort, heap: &Heap, memory: A) {
    let set = full_set(rt, heap, memory);
    let mut handle = set.handle();
    for _again in 0..3 {
        assert_same(rt, insert(&mut handle, 32), (InsertEnd::Refused, None));
        assert_has(rt, &mut handle, 32);
    }
    heap.refuse(0, 0);
    assert_same(rt, insert(&mut handle, 32).0, InsertEnd::Placed);
    assert_has(rt, &mut handle, 33);
}

#[test]
fn a_set_that_cannot_grow_is_filled(rt: HostRuntime) {
    let heap = without_growth(rt.alloc(), 32);
    assert_filled(&rt, &heap, &heap);
    assert_none_out(&rt, &heap);
}

/// Asserts that a look-up or an insert that finds an entry makes no request for memory.
fn assert_found_without_memory<A: Low + Copy>(rt: &impl Abort, heap: &Heap, memory: A) {
    let set = set_with(rt, memory, 0);
    assert_same(rt, fill(&mut set.handle(), 0, 50, 1), Tally::of(50, 0));
    let granted = heap.granted();
    heap.refuse(0, u64::MAX);
    assert_same(rt, fill(&mut set.handle(), 0, 50, 1), Tally::of(0, 50));
    assert_has(rt, &mut set.handle(), 50);
    assert_same(rt, heap.granted(), granted);
    assert_same(rt, heap.refusals_left(), u64::MAX);
}

#[test]
fn what_is_found_needs_no_memory(rt: HostRuntime) {
    let heap = counted(rt.alloc());
    assert_found_without_memory(&rt, &heap, &heap);
    assert_none_out(&rt, &heap);
}

/// The room that a set is to have, and how many refusals are left afterwards. Only a set with room for 2^31 entries requests memory.
const TOO_MANY: [(usize, u64); 3] = [
    (1 << 31, u64::MAX - 1),
    ((1 << 31) + 1, u64::MAX),
    (usize::MAX, u64::MAX),
];

/// Asserts that a set with so much room is refused, and how many refusals are left.
fn assert_too_many<A: Low + Copy>(
    rt: &impl Abort,
    heap: &Heap,
    memory: A,
    (room, left): (usize, u64),
) {
    heap.refuse(0, u64::MAX);
    let made: Result<NumberSet<A>, _> = SharedSet::with_capacity(memory, room);
    assert!(rt; made.is_err());
    assert_same(rt, heap.refusals_left(), left);
    assert_none_out(rt, heap);
}

/// Checks that room for more than 2^31 entries, half of the greatest number of buckets, is refused without a request for memory.
#[test]
fn too_many_entries_are_refused(rt: HostRuntime) {
    let heap = Refusing::new(rt.alloc(), Rule::new(1 << 30, usize::MAX, 0, u64::MAX));
    for row in &TOO_MANY {
        assert_too_many(&rt, &heap, &heap, *row);
    }
}
