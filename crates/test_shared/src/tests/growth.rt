//! Tests of when a table grows, of its length in each generation, and of references that are kept over growth.
ghost use Rattle.table_terms.specs.Capacities.{IsFirstCapacity};

use super::numbers::{Boxed, InsertEnd, Inserts, assert_same, insert_and_show, shown};
use lock_free_hashtable::raw::{HeldRawTable, LockFreeRawTable, Share, is_first_capacity};
use std::alloc::{AllocError, Global};
use std::process::Abort;
use std::sync::Wait;
use std::sync::atomic::{AtomicU64, Ordering};
use std::test::Fail;
use std::thread::Threads;
use table_terms::law::{NumberLaw, hash_number};
use testkit::counting::asked::{Lawful, Numbered, hash, same};
use testkit::counting::numbers::{fill_at_once, seen, those_below};
use testkit::counting::tally::Tally;

/// How many numbers are placed one by one.
const PLACED: u64 = 256;

/// The first capacity of a table, its number of entries when it becomes shared, and its number of entries in the end.
const SHARED: [(usize, u64, u64); 8] = [
    (16, 0, 100),
    (16, 1, 100),
    (16, 7, 8),
    (16, 8, 1000),
    (16, 500, 3000),
    (32, 15, 2000),
    (64, 31, 33),
    (1024, 3, 3000),
];

/// How many references to targets are kept.
const KEPT: u64 = 3000;

/// Returns the capacity for this number of entries if no growth was refused: the least power of two from 16 on that is less than half set.
fn buckets_for(entries: u64) -> u64 {
    let buckets = entries
        .wrapping_mul(2)
        .wrapping_add(1)
        .checked_next_power_of_two();
    buckets.unwrap_or(0).max(16)
}

/// Inserts the number, and asserts that it is placed, and that the length, the number of entries and the capacity are right.
fn assert_placed<R: Abort + Wait>(rt: &R, table: &Boxed<Global>, number: u64) {
    let placed = table.insert(rt, number) == InsertEnd::Placed;
    let [counted, shown, buckets] = table.size();
    let entries = number.wrapping_add(1);
    assert_same(
        rt,
        [u64::from(placed), counted, shown, buckets],
        [1, entries, entries, buckets_for(entries)],
    );
}

#[test]
fn one_count_serves_every_generation(rt: HostRuntime) {
    let table: Boxed<Global> = Boxed::new(rt.alloc(), rt.alloc(), Lawful::Spread);
    for number in 0..PLACED {
        assert_placed(&rt, &table, number);
    }
}

/// Makes a single-owner table of the numbers below `numbers`. `Err`: no memory.
fn held(
    alloc: Global,
    first_capacity: usize,
    numbers: u64,
) -> Result<HeldRawTable<Box<u64>>, AllocError>
    requires { IsFirstCapacity first_capacity }
{
    let mut table = HeldRawTable::with_first_capacity(alloc, first_capacity);
    for number in 0..numbers {
        let value = Box::new(alloc, number)?;
        let _told = table.place_alone::<NumberLaw, _, _>(hash_number(number), value, &same, &hash);
    }
    Ok(table)
}

/// Shares a single-owner table of `before` entries, and inserts the numbers below `after` by two threads. Asserts that it then has the
/// entries and the capacity of a single-owner table of these numbers. `Err`: no memory.
fn assert_filled_on<R: Abort + Threads + Wait + Sync>(
    rt: &R,
    alloc: Global,
    first_capacity: usize,
    before: u64,
    after: u64,
) -> Result<(), AllocError>
    requires { IsFirstCapacity first_capacity }
{
    let expected = held(alloc, first_capacity, after)?;
    let table = Boxed::of(
        held(alloc, first_capacity, before)?.share(),
        alloc,
        Lawful::Spread,
    );
    let [counted, _, _] = table.size();
    let tally = fill_at_once(rt, &table, alloc, [(0, after), (0, after)].as_slice());
    let [_, _, buckets] = table.size();
    assert_same(
        rt,
        tally,
        Tally::of(after.wrapping_sub(before), after.wrapping_add(before)),
    );
    assert_same(
        rt,
        [counted, expected.len_alone() as u64, buckets],
        [before, after, expected.capacity_alone() as u64],
    );
    assert_same(rt, seen(&table, after), those_below(after));
    Ok(())
}

#[test]
fn a_table_held_alone_is_filled_on(rt: HostRuntime) -> Result<(), Fail> {
    for row in &SHARED {
        let (first_capacity, before, after) = *row;
        assert!(rt; is_first_capacity(first_capacity));
        assert_filled_on(&rt, rt.alloc(), first_capacity, before, after)?;
    }
    Ok(())
}

/// A number with a mark that tells it from a copy.
#[derive(Drop)]
struct Marked {
    number: u64,
    mark: AtomicU64,
}

impl Numbered for Marked {
    fn number(&self) -> u64 {
        self.number
    }
}

/// A shared table of numbers with marks.
type Marks = LockFreeRawTable<Box<Marked>>;

/// Inserts the number. Returns the entry, or `None` if it was not placed. `Err`: no memory.
fn place<'a, R: Wait>(
    rt: &R,
    table: &'a Marks,
    alloc: Global,
    number: u64,
) -> Result<Option<&'a Marked>, AllocError> {
    let mark = AtomicU64::new(0);
    let value = Box::new(alloc, Marked { number, mark })?;
    match insert_and_show(rt, table, hash_number(number), value, &Lawful::Spread) {
        (InsertEnd::Placed, shown) => Ok(shown),
        _ => Ok(None),
    }
}

/// Sets the mark of a kept target, and asserts that the target still has its number and that a look-up finds the mark.
fn assert_kept(rt: &impl Abort, table: &Marks, number: u64, kept: &Marked) {
    let left = number.wrapping_add(1);
    kept.mark.store(left, Ordering::SeqCst);
    let mark = match shown(table, hash_number(number), number) {
        Some(shown) => shown.mark.load(Ordering::SeqCst),
        None => 0,
    };
    assert_same(rt, [kept.number, mark], [number, left]);
}

/// Inserts the numbers, and returns the entries of those that are placed. `Err`: no memory.
fn place_all<'a, R: Wait>(
    rt: &R,
    table: &'a Marks,
    alloc: Global,
) -> Result<Vec<&'a Marked>, AllocError> {
    let mut kept = Vec::new(alloc);
    for number in 0..KEPT {
        if let Some(target) = place(rt, table, alloc, number)? {
            kept.push(target)?;
        }
    }
    Ok(kept)
}

#[test]
fn targets_are_kept_over_growth(rt: HostRuntime) -> Result<(), Fail> {
    let table: Marks = LockFreeRawTable::new(rt.alloc());
    let kept = place_all(&rt, &table, rt.alloc())?;
    assert!(rt; kept.len() as u64 == KEPT);
    for (number, target) in (0u64..).zip(kept.as_slice()) {
        assert_kept(&rt, &table, number, target);
    }
    Ok(())
}
