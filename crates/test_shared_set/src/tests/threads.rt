//! Threads that share a set while it grows. Each number is placed by one of them, and each thread finds what it inserted.
use super::caller::{
    Heap, InsertEnd, NumberSet, Tally, assert_has, assert_none_out, assert_numbered, assert_same,
    counted, fill, set_with,
};
use super::memory::full_set;
use std::alloc::Global;
use std::process::Abort;
use std::sync::Wait;
use std::thread::Threads;
use table_cell::Low;
use testkit::counting::tally::{Work, at_once};
use testkit::refusing::handover::MOST_LOOKS;
use testkit::refusing::{Refusing, Rule};

/// Threads that insert numbers into a set, each the numbers of its part. A thread without a part looks up entries by their numbers.
#[derive(Drop)]
struct Filling<'p, A: Low + Copy> {
    set: &'p NumberSet<A>,
    parts: &'p [(u64, u64)],
    /// How often each insert is tried at most.
    tries: u32,
}

impl<A: Low + Copy> Work for Filling<'_, A> {
    fn work<R: Wait>(&self, _rt: &R, thread: u64) -> Tally {
        match self.parts.get(thread as usize) {
            Some((from, end)) => fill(&mut self.set.handle(), *from, *end, self.tries),
            None => ask(self.set),
        }
    }
}

/// How many values are inserted while another thread looks up entries. One handle inserts them, so the number of each is the value itself.
const ASKED: u64 = 300;

/// Looks up each number, and three that no entry has, three times. The tally counts a wrong answer if an entry of another number is
/// returned.
fn ask<A: Low + Copy>(set: &NumberSet<A>) -> Tally {
    for asked in 0..3 * (ASKED + 3) {
        let number = asked % (ASKED + 3);
        if let Some(value) = set.handle().entry(number)
            && (*value != number || number >= ASKED)
        {
            return Tally::NONE.with(InsertEnd::Wrong);
        }
    }
    Tally::NONE
}

/// Lets one thread fill a set over this memory while another looks up entries. Asserts that no look-up was answered wrongly.
fn assert_shown<R: Threads + Wait + Abort + Sync, A: Low + Copy + Send + Sync>(
    rt: &R,
    alloc: Global,
    memory: A,
) {
    let set = set_with(rt, memory, 0);
    let parts = [(0, ASKED)];
    let filling = Filling {
        set: &set,
        parts: parts.as_slice(),
        tries: 1,
    };
    let tally = at_once(rt, alloc, 2, &filling);
    assert_same(rt, tally, Tally::of(ASKED, 0));
    assert_numbered(rt, &mut set.handle(), ASKED);
}

/// Checks that a look-up by number returns only the entry of that number while another thread inserts.
#[test]
fn entries_are_shown_while_a_thread_inserts(rt: HostRuntime) {
    for _round in 0..20 {
        let heap = counted(rt.alloc());
        assert_shown(&rt, rt.alloc(), &heap);
        assert_none_out(&rt, &heap);
    }
}

/// The room of a set at first, the number from which each thread inserts, how many numbers are placed, how many are found by two threads
/// and by four, and how many requests are refused at most. One request of three is drawn to be refused.
type Row = (usize, [u64; 4], u64, [u64; 2], u64);

const SETS: [Row; 5] = [
    (0, [0, 0, 0, 0], 600, [600, 1800], 0),
    (0, [0, 50, 100, 150], 600, [550, 1500], 0),
    (300, [0, 0, 0, 0], 300, [300, 900], 0),
    (0, [0, 150, 300, 450], 600, [450, 900], u64::MAX),
    (100, [0, 0, 0, 0], 300, [300, 900], u64::MAX),
];

/// Lets this many threads fill a set over this memory. Asserts that each number is placed by one of them, and how many are found.
fn assert_filled<R: Threads + Wait + Abort + Sync, A: Low + Copy + Send + Sync>(
    rt: &R,
    alloc: Global,
    heap: &Heap,
    memory: A,
    at: Row,
    (threads, found): (usize, u64),
) {
    let (room, [a, b, c, d], end, _, refused) = at;
    let parts = [(a, end), (b, end), (c, end), (d, end)];
    let set = set_with(rt, memory, room);
    heap.refuse(0, refused);
    let filling = Filling {
        set: &set,
        parts: parts.as_slice(),
        tries: if refused == 0 { 1 } else { 1000 },
    };
    let tally = at_once(rt, alloc, threads, &filling);
    assert_same(rt, tally, Tally::of(end, found));
    assert_has(rt, &mut set.handle(), end);
    assert_numbered(rt, &mut set.handle(), end);
    assert_same(rt, set.len(), end);
}

/// Lets two threads fill a set, and then four fill another one. Asserts that each number is placed by one of them.
fn assert_fills<R: Threads + Wait + Abort + Sync>(rt: &R, alloc: Global, seed: u64, at: Row) {
    let (_, _, _, [by_two, by_four], _) = at;
    for threads in [(2, by_two), (4, by_four)] {
        let rule = Rule::new(0, usize::MAX, 0, 0).drawn(seed, 3);
        let heap = Refusing::new(alloc, rule);
        assert_filled(rt, alloc, &heap, &heap, at, threads);
        assert_none_out(rt, &heap);
    }
}

#[test]
fn threads_insert_over_growth(rt: HostRuntime) {
    for at in &SETS {
        for seed in 0u64..2 {
            assert_fills(&rt, rt.alloc(), seed, *at);
        }
    }
}

/// Lets two threads insert one number. Asserts that one of them places it, and the other finds it.
fn assert_placed_once<R: Threads + Wait + Abort + Sync, A: Low + Copy + Send + Sync>(
    rt: &R,
    alloc: Global,
    set: &NumberSet<A>,
    number: u64,
) {
    let parts = [(number, number.wrapping_add(1)); 2];
    let filling = Filling {
        set,
        parts: parts.as_slice(),
        tries: 1,
    };
    assert_same(rt, at_once(rt, alloc, 2, &filling), Tally::of(1, 1));
}

/// Lets two threads insert the number into a new set over this memory, as one pair. Asserts that each pair so far met, and that the set has
/// the number alone.
fn assert_pair_places<R: Threads + Wait + Abort + Sync, A: Low + Copy + Send + Sync>(
    rt: &R,
    alloc: Global,
    heap: &Heap,
    memory: A,
    number: u64,
) {
    let set = set_with(rt, memory, 0);
    heap.pair(1);
    assert_placed_once(rt, alloc, &set, number);
    let met = number.wrapping_add(1);
    assert_same(rt, (heap.pairs_met(), heap.went_alone()), (met, 0));
    assert_same(rt, set.get(&number), Some(&number));
    assert_same(rt, set.len(), 1);
}

/// Checks that one of two threads places a number. Both probe, and request a chunk for their slot, of 32 values of eight bytes, before
/// either offers its value.
#[test]
fn one_of_two_threads_places_a_number(rt: HostRuntime) {
    let rule = Rule::new(256, 256, 0, 0).paired(0, MOST_LOOKS);
    let heap = Refusing::new(rt.alloc(), rule);
    for number in 0u64..500 {
        assert_pair_places(&rt, rt.alloc(), &heap, &heap, number);
        assert_none_out(&rt, &heap);
    }
}

/// Lets two threads insert each number into a set over this memory. Asserts that one of them places it, and that the set has them all.
fn assert_each_placed_once<R: Threads + Wait + Abort + Sync, A: Low + Copy + Send + Sync>(
    rt: &R,
    alloc: Global,
    memory: A,
) {
    let set = set_with(rt, memory, 0);
    for number in 0u64..1000 {
        assert_placed_once(rt, alloc, &set, number);
    }
    assert_has(rt, &mut set.handle(), 1000);
}

/// Checks that one of two threads places each number while the set grows.
#[test]
fn one_of_two_threads_places_each_number(rt: HostRuntime) {
    let heap = counted(rt.alloc());
    assert_each_placed_once(&rt, rt.alloc(), &heap);
    assert_none_out(&rt, &heap);
}

/// Fills a set over this memory, and lets two threads insert a number each. Asserts that both pairs of requests met, and that the set has
/// all numbers.
fn assert_pair_grows<R: Threads + Wait + Abort + Sync, A: Low + Copy + Send + Sync>(
    rt: &R,
    alloc: Global,
    heap: &Heap,
    memory: A,
) {
    let set = full_set(rt, heap, memory);
    heap.refuse(0, 0);
    heap.pair(2);
    let parts = [(32, 33), (33, 34)];
    let filling = Filling {
        set: &set,
        parts: parts.as_slice(),
        tries: 1,
    };
    let tally = at_once(rt, alloc, 2, &filling);
    assert_same(rt, tally, Tally::of(2, 0));
    assert_same(rt, (heap.pairs_met(), heap.went_alone()), (2, 0));
    assert_has(rt, &mut set.handle(), 34);
}

/// Checks that two threads that find a set full grow it, and that the next generation then has the numbers of both. Both request memory
/// for a generation before either shows one, and then both request the next chunk of slots.
#[test]
fn two_threads_grow_a_full_set(rt: HostRuntime) {
    for _round in 0..200 {
        let rule = Rule::new(512, usize::MAX, 0, 0).paired(0, MOST_LOOKS);
        let heap = Refusing::new(rt.alloc(), rule);
        assert_pair_grows(&rt, rt.alloc(), &heap, &heap);
        assert_none_out(&rt, &heap);
    }
}
