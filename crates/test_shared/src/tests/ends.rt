//! Tests that each value is dropped once, whether it is returned, taken out or left. A class is the equal numbers 4n to 4n + 3.
use super::countings::{Counted, opened, paired};
use super::numbers::assert_same;
use lock_free_hashtable::raw::LockFreeRawTable;
use std::alloc::{AllocError, Global};
use std::process::Abort;
use std::sync::Wait;
use std::test::Fail;
use std::thread::Threads;
use table_cell::Low;
use testkit::counting::Drops;
use testkit::counting::asked::{Asked, Lawful};
use testkit::counting::tally::{Tally, Work, at_once};
use testkit::refusing::{Refusing, Rule};

/// How many classes two threads insert at once. In each class one thread's exchange succeeds, and the other's fails.
const LOST: u64 = 60;

/// How many classes have an entry in the end, after some growth.
const CLASSES: u64 = 3000;

/// How many values are taken out before the rest is dropped.
const TAKEN: [u64; 5] = [0, 1, 2, 1500, 3000];

/// The work of threads that each insert their own number of each class from `from` up to `to`, exclusive.
#[derive(Drop)]
struct Filling<'a, A: Low + Copy> {
    counted: &'a Counted<A>,
    from: u64,
    to: u64,
}

impl<A: Low + Copy> Work for Filling<'_, A> {
    fn work<R: Wait>(&self, rt: &R, thread: u64) -> Tally {
        let mut tally = Tally::NONE;
        for class in self.from..self.to {
            let number = class.wrapping_mul(4).wrapping_add(thread);
            let hash = Lawful::InFours.hash(number);
            tally = tally.with(self.counted.insert(rt, hash, number));
        }
        tally
    }
}

/// Inserts the numbers of these classes by `threads` threads at once, and returns the tally of the answers.
fn fill_at_once<R: Threads + Wait + Sync, A: Low + Copy + Send + Sync>(
    rt: &R,
    alloc: Global,
    counted: &Counted<A>,
    from: u64,
    to: u64,
    threads: usize,
) -> Tally {
    at_once(rt, alloc, threads, &Filling { counted, from, to })
}

/// Takes `taken` values out of a table with one entry of each class, drops the rest, and then drops those. Asserts how many values were
/// dropped before and after each step, which were `gone` at first, and that each block is freed. `Err`: no memory.
fn assert_ends<A: Low + Copy>(
    rt: &impl Abort,
    alloc: Global,
    heap: &Refusing<Global>,
    counted: Counted<A>,
    taken: u64,
    gone: u64,
) -> Result<(), AllocError> {
    let Counted { table, drops } = counted;
    let (entries, before) = (table.len() as u64, drops.dropped(1));
    let mut rest = table.into_iter();
    let length = rest.len() as u64;
    let mut kept = Vec::new(alloc);
    for _value in 0..taken {
        if let Some(value) = rest.next() {
            kept.push(value)?;
        }
    }
    let count = kept.len() as u64;
    let [(_, with_all), (_, with_kept), (_, at_end)] = drops.as_dropped(rest, kept);
    let all = gone.wrapping_add(CLASSES);
    assert_same(
        rt,
        [entries, length, count, before, with_all, with_kept, at_end],
        [
            CLASSES,
            CLASSES,
            taken,
            gone,
            gone,
            all.wrapping_sub(taken),
            all,
        ],
    );
    assert_same(rt, heap.given_back(), heap.granted());
    Ok(())
}

/// Inserts equal values by four threads while the table grows, and asserts that each value is dropped once. The heap counts the requests of
/// the memory. `Err`: no memory.
fn assert_grown<R: Abort + Threads + Wait + Sync, A: Low + Copy + Send + Sync>(
    rt: &R,
    alloc: Global,
    heap: &Refusing<Global>,
    memory: A,
    taken: u64,
) -> Result<(), AllocError> {
    let counted = Counted {
        table: LockFreeRawTable::new(memory),
        drops: Drops::new(alloc, 4 * CLASSES)?,
    };
    let tally = fill_at_once(rt, alloc, &counted, 0, CLASSES, 4);
    assert_same(rt, tally, Tally::of(CLASSES, 3 * CLASSES));
    assert!(rt; heap.granted() != 0);
    assert_ends(rt, alloc, heap, counted, taken, 3 * CLASSES)
}

/// Inserts equal values by two threads, so that each exchange of one meets one of the other, and then more by one thread while the table
/// grows. Asserts that each value is dropped once. The heap counts the requests of the memory. `Err`: no memory.
fn assert_lost<R: Abort + Threads + Wait + Sync, A: Low + Copy + Send + Sync>(
    rt: &R,
    alloc: Global,
    heap: &Refusing<Global>,
    memory: A,
    taken: u64,
) -> Result<(), AllocError> {
    let counted = opened(rt, memory, Drops::new(alloc, 4 * CLASSES)?, 3);
    let before = heap.granted();
    let tally = fill_at_once(rt, alloc, &counted, 0, LOST, 2);
    assert_same(rt, tally, Tally::of(LOST, LOST));
    assert_same(
        rt,
        [
            heap.went_alone(),
            heap.granted().wrapping_sub(before),
            heap.given_back(),
            counted.table.len() as u64,
        ],
        [0, 2 * LOST, LOST, LOST],
    );
    let tally = fill_at_once(rt, alloc, &counted, LOST, CLASSES, 1);
    assert_same(rt, tally, Tally::of(CLASSES - LOST, 0));
    assert_ends(rt, alloc, heap, counted, taken, LOST + 1)
}

#[test]
fn values_over_growth_and_of_lost_exchanges(rt: HostRuntime) -> Result<(), Fail> {
    for taken in &TAKEN {
        let grown = Refusing::new(rt.alloc(), Rule::new(0, 0, 0, 0));
        assert_grown(&rt, rt.alloc(), &grown, &grown, *taken)?;
        let lost = paired(rt.alloc(), LOST);
        assert_lost(&rt, rt.alloc(), &lost, &lost, *taken)?;
    }
    Ok(())
}
