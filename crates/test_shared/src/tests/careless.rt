//! Tests of threads with unlawful closures, for which the number of entries in the end is known.
use super::numbers::{assert_same, handed, insert_at};
use lock_free_hashtable::raw::LockFreeRawTable;
use std::alloc::{AllocError, Global};
use std::process::Abort;
use std::sync::Wait;
use std::sync::atomic::{AtomicU64, Ordering};
use std::test::Fail;
use std::thread::Threads;
use testkit::counting::asked::Asked;
use testkit::counting::numbers::{InsertEnd, count_first};
use testkit::counting::tally::{Tally, Work, at_once};

/// How many numbers each thread inserts.
const NUMBERS: u64 = 40;

/// How many threads there are.
const THREADS: u64 = 4;

/// How many numbers all threads insert together.
const ALL: u64 = THREADS * NUMBERS;

/// How the closures break the law.
#[derive(Clone, Copy)]
enum Kind {
    /// `eq` accepts every entry, and each number has the hash 0.
    AlwaysMet,
    /// `eq` accepts no entry, and there are four hashes.
    NeverMet,
    /// `hash_fn` returns another hash at each call.
    Anew,
}

/// Unlawful closures, and how often `hash_fn` was called under `Kind::Anew`.
#[derive(Drop)]
struct Careless {
    kind: Kind,
    asked: AtomicU64,
}

impl Careless {
    /// Returns the hash under which the number is inserted.
    fn given(&self, number: u64) -> u64 {
        match self.kind {
            Kind::AlwaysMet => 0,
            Kind::NeverMet => number & 3,
            Kind::Anew => number,
        }
    }
}

impl Asked for Careless {
    fn agrees(&self, new: u64, entry: u64) -> bool {
        match self.kind {
            Kind::AlwaysMet => true,
            Kind::NeverMet => false,
            Kind::Anew => new == entry,
        }
    }

    fn hash(&self, number: u64) -> u64 {
        match self.kind {
            Kind::Anew => self.asked.fetch_add(1, Ordering::SeqCst),
            _ => self.given(number),
        }
    }
}

/// The work of threads that insert numbers into a table.
#[derive(Drop)]
struct Giving<'a> {
    table: &'a LockFreeRawTable<Box<u64>>,
    careless: &'a Careless,
    alloc: Global,
}

impl<'a> Giving<'a> {
    /// Inserts the number, and returns the answer.
    fn give<R: Wait>(&self, rt: &R, number: u64) -> InsertEnd {
        match Box::new(self.alloc, number) {
            Ok(value) => insert_at(
                rt,
                self.table,
                self.careless.given(number),
                value,
                self.careless,
            ),
            Err(_) => InsertEnd::Wrong,
        }
    }
}

impl<'a> Work for Giving<'a> {
    fn work<R: Wait>(&self, rt: &R, thread: u64) -> Tally {
        let first = thread.wrapping_mul(NUMBERS);
        let mut tally = Tally::NONE;
        for number in first..first.wrapping_add(NUMBERS) {
            tally = tally.with(self.give(rt, number));
        }
        tally
    }
}

/// Asserts that the table has `placed` entries, and that the owning iterator yields as many inserted numbers, each once. `placed` is 1 or
/// `ALL`. `Err`: no memory.
fn assert_handed<R: Abort>(
    rt: &R,
    table: LockFreeRawTable<Box<u64>>,
    alloc: Global,
    placed: u64,
) -> Result<(), AllocError> {
    let counted = table.len() as u64;
    let numbers = handed(table, alloc)?;
    let one = numbers.first().copied().unwrap_or(ALL);
    let (shown, first) = count_first(numbers);
    let given = if placed == 1 {
        u64::from(one < ALL)
    } else {
        first
    };
    assert_same(rt, [counted, shown, given], [placed; 3]);
    Ok(())
}

/// Inserts all numbers by threads at once. Asserts that `placed` of them are placed, that the others are returned, and that the table then
/// has `placed` of the numbers, each once. Returns how often `hash_fn` was called under `Kind::Anew`. `Err`: no memory.
fn assert_kept<R: Abort + Threads + Wait + Sync>(
    rt: &R,
    alloc: Global,
    kind: Kind,
    placed: u64,
) -> Result<u64, AllocError> {
    let table: LockFreeRawTable<Box<u64>> = LockFreeRawTable::new(alloc);
    let careless = Careless {
        kind,
        asked: AtomicU64::new(0),
    };
    let giving = Giving {
        table: &table,
        careless: &careless,
        alloc,
    };
    let tally = at_once(rt, alloc, THREADS as usize, &giving);
    assert_same(rt, tally, Tally::of(placed, ALL.wrapping_sub(placed)));
    assert_handed(rt, table, alloc, placed)?;
    Ok(careless.asked.load(Ordering::SeqCst))
}

#[test]
fn an_equality_that_is_always_met(rt: HostRuntime) -> Result<(), Fail> {
    assert_kept(&rt, rt.alloc(), Kind::AlwaysMet, 1)?;
    Ok(())
}

#[test]
fn an_equality_that_is_never_met(rt: HostRuntime) -> Result<(), Fail> {
    assert_kept(&rt, rt.alloc(), Kind::NeverMet, ALL)?;
    Ok(())
}

#[test]
fn hashes_that_change_from_call_to_call(rt: HostRuntime) -> Result<(), Fail> {
    assert!(rt; assert_kept(&rt, rt.alloc(), Kind::Anew, ALL)? > 0);
    Ok(())
}
