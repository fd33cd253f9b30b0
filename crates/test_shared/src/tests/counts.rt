//! Tests of the length of a table while threads insert, and of the answers to inserts if a generation is full.
use super::numbers::{Boxed, InsertEnd, Inserts, Numbers, assert_insert, assert_same, walk_length};
use std::alloc::Global;
use std::process::Abort;
use std::sync::Wait;
use std::sync::atomic::{AtomicU64, Ordering};
use std::thread;
use std::thread::Threads;
use table_cell::Low;
use table_terms::law::hash_number;
use testkit::counting::asked::{Asked, Lawful};
use testkit::counting::numbers::{fill, fill_at_once, seen, those_below};
use testkit::counting::tally::{Tally, Work, at_once};
use testkit::refusing::handover::{MOST_LOOKS, QUIET_LOOKS, look_for};
use testkit::refusing::{Refusing, Rule};

/// The size in bytes of the block of an entry. Every other request of a table is larger.
const BLOCK: usize = 16;

/// How many numbers a table has after a round of two threads, and how many rounds there are.
const NUMBERS: u64 = 260;

const ROUNDS: u64 = 20;

/// Pairs of the numbers below 17. The first pair is 0 and 0.
const PAIRS: [(u64, u64); 9] = [
    (0, 0),
    (1, 2),
    (3, 4),
    (5, 6),
    (7, 8),
    (9, 10),
    (11, 12),
    (13, 14),
    (15, 16),
];

/// Pairs of the numbers below 10. The first and the last pair are of equal numbers.
const EQUAL_AT_LAST: [(u64, u64); 6] = [(0, 0), (1, 2), (3, 4), (5, 6), (7, 8), (9, 9)];

/// The equality and hash of numbers, pairs of numbers that two threads insert at once, and how many requests of growth are refused at
/// first. Then how many numbers are placed in the end, and how many buckets the current generation has.
type Meeting<'p> = (Lawful, &'p [(u64, u64)], u64, u64, u64);

/// One number of the last pair takes the last vacant bucket, and the insert of the other grows the table. In the second meeting both probes
/// reach this bucket at their end, so the loser has met every bucket.
const AT_THE_LAST_BUCKET: [Meeting<'static>; 2] = [
    (Lawful::ByFives, &PAIRS, 8, 17, 64),
    (Lawful::FromTheFirst, &PAIRS, 8, 17, 64),
];

/// One insert of the last pair finds the other's number. Both then try to grow the table, and one of them is refused.
const FOUND_BY_THE_LOSER: Meeting<'static> = (Lawful::ByFives, &EQUAL_AT_LAST, 3, 10, 32);

/// Asserts that the table reports and an iterator yields `entries` entries, and that the current generation has `buckets` buckets.
fn assert_size<R: Abort, A: Low + Copy>(rt: &R, table: &Boxed<A>, entries: u64, buckets: u64) {
    assert_same(rt, table.size(), [entries, entries, buckets]);
}

/// Makes a heap that refuses nothing at first, and counts only requests that are larger than the block of an entry.
fn heap_of_growth(alloc: Global) -> Refusing<Global> {
    Refusing::new(alloc, Rule::new(BLOCK + 1, usize::MAX, 0, 0))
}

/// Inserts the numbers of each pair by two threads at once, and returns the tally of all answers.
fn offer_all<R: Threads + Wait + Sync, A: Low + Copy + Send + Sync>(
    rt: &R,
    table: &Boxed<A>,
    alloc: Global,
    pairs: &[(u64, u64)],
) -> Tally {
    let mut tally = Tally::NONE;
    for (one, other) in pairs {
        let parts = [(*one, one.wrapping_add(1)), (*other, other.wrapping_add(1))];
        tally = tally.and(fill_at_once(rt, table, alloc, parts.as_slice()));
    }
    tally
}

/// Asserts that the meeting ends as it says, on a table over this memory. The memory refuses the block of the first value, so the meeting
/// begins with a first generation and no entry. `growth` refuses the requests for growth that the meeting names.
fn assert_meets_over<R: Abort + Threads + Wait + Sync, A: Low + Copy + Send + Sync>(
    rt: &R,
    alloc: Global,
    growth: &Refusing<Global>,
    memory: A,
    meeting: Meeting<'_>,
) {
    let (lawful, offers, refused, placed, buckets) = meeting;
    let table: Boxed<A> = Boxed::new(memory, alloc, lawful);
    assert_insert(rt, &table, 0, InsertEnd::Refused);
    assert_same(rt, seen(&table, 0), those_below(0));
    assert_size(rt, &table, 0, 16);
    growth.refuse(0, refused);
    let tally = offer_all(rt, &table, alloc, offers);
    let offered = (offers.len() as u64).wrapping_mul(2);
    let found = offered.wrapping_sub(placed);
    assert_same(rt, tally, Tally::of(placed, found));
    assert_same(rt, growth.refusals_left(), 0);
    assert_size(rt, &table, placed, buckets);
    assert_same(rt, seen(&table, placed), those_below(placed));
}

/// Makes an allocator that refuses blocks of entries, over one that refuses growth. Asserts that the meeting ends as it says over both, and
/// that each paired request for a block met the other one.
fn assert_meets<R: Abort + Threads + Wait + Sync>(rt: &R, alloc: Global, meeting: Meeting<'_>) {
    let (_, offers, ..) = meeting;
    let growth = heap_of_growth(alloc);
    let heap = Refusing::new(
        &growth,
        Rule::new(BLOCK, BLOCK, 0, 1).paired(offers.len() as u64, MOST_LOOKS),
    );
    assert_meets_over(rt, alloc, &growth, &heap, meeting);
    assert_same(rt, heap.went_alone(), 0);
}

#[test]
fn the_loser_at_the_last_bucket_is_placed(rt: HostRuntime) {
    for meeting in &AT_THE_LAST_BUCKET {
        for _again in 0..10u32 {
            assert_meets(&rt, rt.alloc(), *meeting);
        }
    }
}

#[test]
fn growth_comes_after_what_a_loser_found(rt: HostRuntime) {
    for _again in 0..10u32 {
        assert_meets(&rt, rt.alloc(), FOUND_BY_THE_LOSER);
    }
}

/// Makes a table over this memory. Its first generation is full, since the heap refuses growth from the second number on.
fn full<R: Abort + Wait, A: Low + Copy>(
    rt: &R,
    alloc: Global,
    heap: &Refusing<Global>,
    memory: A,
) -> Boxed<A> {
    let table = Boxed::new(memory, alloc, Lawful::Spread);
    assert_insert(rt, &table, 0, InsertEnd::Placed);
    heap.refuse(0, u64::MAX);
    assert_same(rt, fill(rt, &table, 1..16), Tally::of(15, 0));
    table
}

/// Fills the first generation. Asserts that a new number is then refused and a known one found, and that the generation grows once the heap
/// refuses nothing.
fn assert_grows_later<R: Abort + Wait, A: Low + Copy>(
    rt: &R,
    alloc: Global,
    heap: &Refusing<Global>,
    memory: A,
) {
    let table = full(rt, alloc, heap, memory);
    assert_insert(rt, &table, 16, InsertEnd::Refused);
    assert_insert(rt, &table, 4, InsertEnd::Found);
    assert_size(rt, &table, 16, 16);
    heap.refuse(0, 0);
    assert_insert(rt, &table, 4, InsertEnd::Found);
    assert_size(rt, &table, 16, 32);
}

#[test]
fn a_full_generation_grows_once_there_is_memory(rt: HostRuntime) {
    let heap = heap_of_growth(rt.alloc());
    assert_grows_later(&rt, rt.alloc(), &heap, &heap);
}

/// Fills the first generation, and asserts that it grows for a new number once the heap refuses nothing.
fn assert_grows_for_new<R: Abort + Wait, A: Low + Copy>(
    rt: &R,
    alloc: Global,
    heap: &Refusing<Global>,
    memory: A,
) {
    let table = full(rt, alloc, heap, memory);
    heap.refuse(0, 0);
    assert_insert(rt, &table, 16, InsertEnd::Placed);
    assert_same(rt, seen(&table, 17), those_below(17));
    assert_size(rt, &table, 17, 64);
}

#[test]
fn a_full_generation_grows_for_a_new_number(rt: HostRuntime) {
    let heap = heap_of_growth(rt.alloc());
    assert_grows_for_new(&rt, rt.alloc(), &heap, &heap);
}

/// A table, and a sign that one thread has begun. That thread waits for the memory of its entry while another one reads the size.
#[derive(Drop)]
struct Looked<A: Low + Copy> {
    table: Boxed<A>,
    begun: AtomicU64,
}

impl<A: Low + Copy> Looked<A> {
    /// Reads the size again and again, and returns how often the length was above that of a later iterator.
    fn look(&self) -> u64 {
        let mut miscounts = 0u64;
        for _look in 0..QUIET_LOOKS {
            let [counted, shown, _] = self.table.size();
            miscounts = miscounts.wrapping_add(u64::from(shown < counted));
        }
        miscounts
    }
}

impl<A: Low + Copy> Work for Looked<A> {
    fn work<R: Wait>(&self, rt: &R, thread: u64) -> Tally {
        let mut tally = Tally::NONE;
        if thread == 0 {
            self.begun.store(1, Ordering::SeqCst);
        } else {
            let waited = u64::from(!look_for(&self.begun));
            tally.other = waited.wrapping_add(self.look());
        }
        tally.with(self.table.insert(rt, thread))
    }
}

/// Inserts two numbers while one thread reads the size, and asserts that no length was above that of a later iterator. The heap makes
/// the requests for the two blocks wait for each other.
fn assert_looked<R: Abort + Threads + Wait + Sync, A: Low + Copy + Send + Sync>(
    rt: &R,
    alloc: Global,
    heap: &Refusing<Global>,
    memory: A,
) {
    let looked = Looked {
        table: Boxed::new(memory, alloc, Lawful::Spread),
        begun: AtomicU64::new(0),
    };
    assert_insert(rt, &looked.table, 7, InsertEnd::Refused);
    assert_same(rt, at_once(rt, alloc, 2, &looked), Tally::of(2, 0));
    assert_same(rt, heap.went_alone(), 0);
    assert_same(rt, seen(&looked.table, 2), those_below(2));
}

#[test]
fn an_entry_is_counted_once_it_is_there(rt: HostRuntime) {
    let heap = Refusing::new(
        rt.alloc(),
        Rule::new(BLOCK, BLOCK, 0, 1).paired(1, MOST_LOOKS),
    );
    assert_looked(&rt, rt.alloc(), &heap, &heap);
}

/// A table into which two threads insert the same numbers while a third one watches, and what they see meanwhile.
#[derive(Drop)]
struct Watched {
    table: Boxed<Global>,
    /// How often the length wasn't the number of entries while the lock was held exclusively.
    miscounts: AtomicU64,
    /// How many threads have inserted all their numbers.
    done: AtomicU64,
}

/// Growth calls `hash` while it copies. The length must be the number of entries then.
impl Asked for Watched {
    fn hash(&self, number: u64) -> u64 {
        if self.table.table.len() as u64 != walk_length(&self.table.table) {
            self.miscounts.fetch_add(1, Ordering::SeqCst);
        }
        hash_number(number)
    }
}

impl Watched {
    /// Inserts the numbers from 1 up to `NUMBERS`, exclusive, then adds one to `done`, and returns the tally of the answers.
    fn fill<R: Wait>(&self, rt: &R) -> Tally {
        let mut tally = Tally::NONE;
        for number in 1..NUMBERS {
            tally = tally.with(self.table.insert_asking(rt, number, self));
        }
        self.done.fetch_add(1, Ordering::SeqCst);
        tally
    }

    /// Looks until both threads are done. Returns how often the length was above that of a later iterator, or a look-up missed 0.
    fn watch(&self) -> u64 {
        let mut missed = 0u64;
        for _look in 0..MOST_LOOKS {
            let [counted, shown, _] = self.table.size();
            if shown < counted || !self.table.contains(0) {
                missed = missed.wrapping_add(1);
            }
            if self.done.load(Ordering::SeqCst) == 2 {
                break;
            }
            thread::yield_now();
        }
        missed
    }
}

impl Work for Watched {
    fn work<R: Wait>(&self, rt: &R, thread: u64) -> Tally {
        if thread != 0 {
            return self.fill(rt);
        }
        Tally {
            other: self.watch(),
            ..Tally::NONE
        }
    }
}

/// Inserts the same numbers by two threads over several growths while a third thread watches, and asserts that no length was wrong.
fn assert_counts<R: Abort + Threads + Wait + Sync>(rt: &R, alloc: Global) {
    let watched = Watched {
        table: Boxed::new(alloc, alloc, Lawful::Spread),
        miscounts: AtomicU64::new(0),
        done: AtomicU64::new(0),
    };
    assert_insert(rt, &watched.table, 0, InsertEnd::Placed);
    let new = NUMBERS - 1;
    assert_same(rt, at_once(rt, alloc, 3, &watched), Tally::of(new, new));
    assert_same(rt, watched.miscounts.load(Ordering::SeqCst), 0);
    assert_same(rt, seen(&watched.table, NUMBERS), those_below(NUMBERS));
}

#[test]
fn the_count_is_that_of_the_entries_while_a_growth_copies(rt: HostRuntime) {
    for _round in 0..ROUNDS {
        assert_counts(&rt, rt.alloc());
    }
}
