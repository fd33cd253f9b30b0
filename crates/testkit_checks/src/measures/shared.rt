//! Measurements of sets that threads share, with one thread to four.

use crate::measures::held::{Once, Spread, count_spread, insert_spread, measure_rows};
use crate::measures::numbers::{COUNT, Empty, KeySet, NumberTable, Numbers, total};
use crate::measures::report::{Report, refuse_words};
use crate::measures::tasks::{Sets, Task};
use crate::measures::work::{MOST, ROUNDS, SAME, Work, part_for};
use std::alloc::{AllocError, Global};
use std::marker::PhantomData;
use std::rt::{Clock, Files};
use std::sync::Wait;
use std::thread::Threads;
use std::time::Instant;
use std::{io, thread};
use table_shared::LockFreeRawTable;
use table_terms::law::hash_number;
use testkit::counting::asked::{hash, same};
use testkit::counting::made::Made;

/// A set of numbers that threads share.
pub trait SharedKeys {
    /// Does the task with this set, as one thread calls it.
    fn by_thread<R: Wait, T: Task>(&self, rt: &R, task: &T) -> T::Answer;
}

/// A table of numbers that threads share.
pub trait SharedTable: NumberTable {
    /// Inserts this value of the number. Returns whether it was placed: the number is new, and memory was granted.
    fn place<R: Wait>(&self, rt: &R, number: u64, value: Self::Value) -> bool;
}

/// A shared table as a set of numbers, as one thread calls it.
#[derive(Drop)]
struct ByThread<'a, T, R> {
    keys: &'a Numbers<T>,
    rt: &'a R,
}

impl<'a, T: SharedTable, R: Wait> KeySet for ByThread<'a, T, R> {
    fn insert(&mut self, number: u64) -> bool {
        let (keys, rt) = (self.keys, self.rt);
        T::Value::made(keys.alloc, number).is_some_and(|value| keys.table.place(rt, number, value))
    }

    fn contains(&mut self, number: u64) -> bool {
        self.keys.table.has(number)
    }
}

impl<T: SharedTable> SharedKeys for Numbers<T> {
    fn by_thread<R: Wait, K: Task>(&self, rt: &R, task: &K) -> K::Answer {
        task.run(&mut ByThread { keys: self, rt })
    }
}

/// Shared sets of the type `S`.
#[derive(Drop)]
struct SharedSets<'a, S, R> {
    rt: &'a R,
    of: PhantomData<S>,
}

impl<'a, S: SharedKeys + Empty + Drop, R: Wait + AllocGlobal> Sets for SharedSets<'a, S, R> {
    fn with_empty<T: Task>(&self, task: &T) -> Result<T::Answer, AllocError> {
        let set = S::empty(self.rt.alloc())?;
        Ok(set.by_thread(self.rt, task))
    }
}

/// A shared raw table as a set of numbers, stored as `V`.
pub type SharedNumbers<V> = Numbers<LockFreeRawTable<V>>;

impl<V: Made<Target = u64> + Send + Sync> NumberTable for LockFreeRawTable<V> {
    type Value = V;

    fn empty(alloc: Global) -> Self {
        LockFreeRawTable::new(alloc)
    }

    fn has(&self, number: u64) -> bool {
        self.lookup(hash_number(number), |entry: &u64| *entry == number)
            .is_some()
    }
}

impl<V: Made<Target = u64> + Send + Sync> SharedTable for LockFreeRawTable<V> {
    fn place<R: Wait>(&self, rt: &R, number: u64, value: V) -> bool {
        let placed = self.insert(rt, hash_number(number), value, same, hash);
        matches!(placed, Ok((_, None)))
    }
}

/// Runs a group of measurements of a shared set. The groups `same`, `ins` and `hit` run with `threads` threads, or with one to four in
/// turn. `Err`: the group is unknown, `threads` isn't one to four or the group takes no threads, or a measurement failed.
pub fn measure_shared<
    S: SharedKeys + Empty + Sync + Drop,
    R: Print + Eprint + Clock + Files + Threads + Wait + Sync + AllocGlobal,
>(rt: &R, report: &Report<'_>, group: &str, threads: Option<&str>) -> io::Result<()> {
    match (group, threads) {
        ("one", None) => measure_one(rt, report, &S::empty(rt.alloc())?),
        ("same", _) => measure_work::<R, S>(rt, report, Work::Same, threads),
        ("ins", _) => measure_work::<R, S>(rt, report, Work::Inserts, threads),
        ("hit", _) => measure_work::<R, S>(rt, report, Work::Hits, threads),
        (_, None) => {
            let sets: SharedSets<'_, S, R> = SharedSets {
                rt,
                of: PhantomData,
            };
            measure_rows(rt, report, group, &sets)
        }
        _ => refuse_words(rt),
    }
}

/// Measures spread keys in an empty set by one thread, and then hits by four. `Err`: a wrong count or an I/O error.
fn measure_one<
    R: Print + Clock + Files + Threads + Wait + Sync + AllocGlobal,
    S: SharedKeys + Sync,
>(rt: &R, report: &Report<'_>, set: &S) -> io::Result<()> {
    set.by_thread(rt, &Spread { rt, report })?;
    time_work(rt, report, set, Work::Hits, MOST)
}

/// Measures the work with `threads` threads or with one to four in turn, each in a new set. `Err`: a wrong word or count, or an I/O error.
pub(crate) fn measure_work<
    R: Print + Eprint + Clock + Threads + Wait + Sync + AllocGlobal,
    S: SharedKeys + Empty + Sync + Drop,
>(rt: &R, report: &Report<'_>, work: Work, threads: Option<&str>) -> io::Result<()> {
    let Some(word) = threads else {
        for threads in 1..=MOST {
            measure_team::<R, S>(rt, report, work, threads)?;
        }
        return Ok(());
    };
    match word.parse::<u64>() {
        Ok(threads) if 1 <= threads && threads <= MOST => measure_team::<R, S>(
            rt, report, work, threads,
        ),
        _ => refuse_words(rt),
    }
}

/// Measures the work with `threads` threads, in a new set. Before hits one thread inserts all keys. `Err`: a wrong count or an I/O error.
fn measure_team<
    R: Print + Clock + Threads + Wait + Sync + AllocGlobal,
    S: SharedKeys + Empty + Sync + Drop,
>(rt: &R, report: &Report<'_>, work: Work, threads: u64) -> io::Result<()> {
    let set = S::empty(rt.alloc())?;
    if let Work::Hits = work {
        let _ = set.by_thread(rt, &Part::ALL);
    }
    time_work(rt, report, &set, work, threads)
}

/// Times the work with this number of threads, and prints the result. `Err`: a wrong count or an I/O error.
fn time_work<R: Print + Clock + Threads + Wait + Sync + AllocGlobal, S: SharedKeys + Sync>(
    rt: &R,
    report: &Report<'_>,
    set: &S,
    work: Work,
    threads: u64,
) -> io::Result<()> {
    let name = work.name(rt.alloc(), threads)?;
    let (wanted, operations) = work.wanted(threads);
    let start = Instant::now(rt)?;
    let done = count_work(rt, rt.alloc(), set, work, threads)?;
    report.time(rt, name.as_str(), start, done, wanted, operations)
}

/// Does the work with this number of threads. Returns how many keys they place or find. `Err`: memory for the threads was refused.
pub(crate) fn count_work<R: Threads + Wait + Sync, S: SharedKeys + Sync>(
    rt: &R,
    alloc: Global,
    set: &S,
    work: Work,
    threads: u64,
) -> Result<u64, AllocError> {
    let keys = part_for(threads);
    let counts = thread::map_indices(
        rt,
        alloc,
        threads as usize,
        &|worker: usize| {
            let from = keys.wrapping_mul(worker as u64);
            set.by_thread(rt, &Part { work, keys, from })
        },
    )?;
    Ok(total(counts.as_slice()))
}

/// The part of the work that one thread does. It begins at index `from`, and has `keys` keys if the work is `Inserts`.
#[derive(Clone, Copy)]
struct Part {
    work: Work,
    keys: u64,
    from: u64,
}

impl Part {
    /// The inserts of all keys by one thread.
    const ALL: Part = Part {
        work: Work::Inserts,
        keys: COUNT,
        from: 0,
    };
}

/// The answer is how many keys the thread places or finds.
impl Task for Part {
    type Answer = u64;

    fn run<K: KeySet>(&self, keys: &mut K) -> u64 {
        match self.work {
            Work::Same => insert_same(keys),
            Work::Inserts => insert_spread(keys, self.from, self.keys),
            Work::Hits => count_spread(keys, self.from, 0),
        }
    }
}

/// Runs workloads of one thread and of four on a shared set, without a clock, and prints counts. `Err`: refused memory or an I/O error.
pub fn check_shared<
    S: SharedKeys + Empty + Sync + Drop,
    R: Print + Threads + Wait + Sync + AllocGlobal,
>(rt: &R, name: &str) -> io::Result<()> {
    check_hits(rt, name, &S::empty(rt.alloc())?)?;
    check_same(rt, name, &S::empty(rt.alloc())?)
}

/// Lets one thread insert spread keys into an empty set, and then four look them up. `Err`: refused memory or an I/O error.
fn check_hits<S: SharedKeys + Sync, R: Print + Threads + Wait + Sync + AllocGlobal>(
    rt: &R,
    name: &str,
    set: &S,
) -> io::Result<()> {
    let (placed, hits, found) = set.by_thread(rt, &Once {});
    println!(rt; "{name} spread: {placed} placed, {hits} hits, {found} of the absent found")?;
    let hits = count_work(rt, rt.alloc(), set, Work::Hits, MOST)?;
    println!(rt; "{name} by four: {hits} hits")
}

/// Lets four threads insert the same keys into an empty set. `Err`: refused memory or an I/O error.
fn check_same<S: SharedKeys + Sync, R: Print + Threads + Wait + Sync + AllocGlobal>(
    rt: &R,
    name: &str,
    set: &S,
) -> io::Result<()> {
    let placed = count_work(rt, rt.alloc(), set, Work::Same, MOST)?;
    println!(rt; "{name} by four: {placed} placed")
}

/// Inserts the same keys in each round. Returns how many were placed.
fn insert_same<S: KeySet>(set: &mut S) -> u64 {
    let mut placed = 0u64;
    for _round in 0..ROUNDS {
        placed = placed.wrapping_add(insert_spread(set, 0, SAME));
    }
    placed
}
