//! Measurements of a set by one thread, with fewer keys than a million, and with more.

use crate::measures::held::insert_spread;
use crate::measures::memory::{print_bytes, resident_bytes};
use crate::measures::numbers::{ABSENT, KeySet, START, STRIDE, spread};
use crate::measures::report::{Report, refuse_words};
use crate::measures::tasks::{Sets, Task};
use std::alloc::AllocError;
use std::io;
use std::rt::{Clock, Files};
use std::time::Instant;

/// The number of keys of a table, the number of rounds, and the names of the measurements.
type Size = (u64, u64, [&'static str; 3]);

const SIZE_1E4: Size = (10_000, 100, ["ins_1e4", "hit_1e4", "miss_1e4"]);

const SIZE_1E5: Size = (100_000, 10, ["ins_1e5", "hit_1e5", "miss_1e5"]);

const SIZE_1E7: Size = (10_000_000, 1, ["ins_1e7", "hit_1e7", "miss_1e7"]);

/// The number of keys of the largest table, which is made once.
const LARGEST: u64 = 100_000_000;

/// Runs the group of measurements for a number of keys, such as `1e4`. `Err`: the group is unknown, or a measurement failed.
pub(crate) fn measure_sizes<S: Sets, R: Print + Eprint + Clock + Files + AllocGlobal>(
    rt: &R,
    report: &Report<'_>,
    group: &str,
    sets: &S,
) -> io::Result<()> {
    match group {
        "1e4" => measure_size(rt, report, &SIZE_1E4, sets),
        "1e5" => measure_size(rt, report, &SIZE_1E5, sets),
        "1e7" => measure_size(rt, report, &SIZE_1E7, sets),
        "1e8" => sets.with_empty(&Largest { rt, report })?,
        _ => refuse_words(rt),
    }
}

/// Measures inserts of spread keys into a new table each round, and then hits and misses in one table, over all its keys each round. `Err`:
/// a wrong count or an I/O error.
fn measure_size<S: Sets, R: Print + Clock>(
    rt: &R,
    report: &Report<'_>,
    size: &Size,
    sets: &S,
) -> io::Result<()> {
    let (keys, rounds, [inserts, _, _]) = *size;
    let operations = keys.wrapping_mul(rounds);

    let start = Instant::now(rt)?;
    let placed = fill_tables(sets, keys, rounds)?;
    report.time(rt, inserts, start, placed, operations, operations)?;

    sets.with_empty(&Looks { rt, report, size })?
}

/// The task that inserts `keys` spread keys.
#[derive(Drop)]
struct Fill {
    keys: u64,
}

impl Task for Fill {
    type Answer = u64;

    fn run<K: KeySet>(&self, keys: &mut K) -> u64 {
        insert_spread(keys, 0, self.keys)
    }
}

/// Fills a new table with `keys` keys in each round, and drops it. Returns how many keys were placed. `Err`: memory was refused.
fn fill_tables<S: Sets>(sets: &S, keys: u64, rounds: u64) -> Result<u64, AllocError> {
    let mut placed: u64 = 0;
    for _round in 0..rounds {
        placed = placed.wrapping_add(sets.with_empty(&Fill { keys })?);
    }
    Ok(placed)
}

/// The task that measures hits and misses of spread keys.
#[derive(Drop)]
struct Looks<'a, R> {
    rt: &'a R,
    report: &'a Report<'a>,
    size: &'a Size,
}

impl<'a, R: Print + Clock> Task for Looks<'a, R> {
    type Answer = io::Result<()>;

    fn run<K: KeySet>(&self, set: &mut K) -> io::Result<()> {
        let (keys, rounds, [_, hits, misses]) = *self.size;
        let operations = keys.wrapping_mul(rounds);
        let _ = insert_spread(set, 0, keys);

        let start = Instant::now(self.rt)?;
        let found = look_rounds(set, keys, rounds, 0);
        self.report
            .time(self.rt, hits, start, found, operations, operations)?;

        let start = Instant::now(self.rt)?;
        let found = look_rounds(set, keys, rounds, ABSENT);
        self.report
            .time(self.rt, misses, start, found, 0, operations)
    }
}

/// Looks up all keys in each round, with `further` added to each index. Returns how many look-ups found an entry.
fn look_rounds<S: KeySet>(set: &mut S, keys: u64, rounds: u64, further: u64) -> u64 {
    let mut found: u64 = 0;
    for _round in 0..rounds {
        found = found.wrapping_add(look_all(set, keys, further));
    }
    found
}

/// Looks up all keys in an order that jumps, with `further` added to each index. Returns how many look-ups found an entry.
fn look_all<S: KeySet>(set: &mut S, keys: u64, further: u64) -> u64 {
    let mut found: u64 = 0;
    for index in 0..keys {
        let at = index.wrapping_mul(STRIDE).wrapping_add(START) % keys;
        found = found.wrapping_add(u64::from(set.contains(spread(at.wrapping_add(further)))));
    }
    found
}

/// The task that measures a hundred million spread keys in an empty set: inserts, resident bytes, hits and misses. `Err`: a wrong count or
/// an I/O error.
#[derive(Drop)]
struct Largest<'a, R> {
    rt: &'a R,
    report: &'a Report<'a>,
}

impl<'a, R: Print + Clock + Files + AllocGlobal> Task for Largest<'a, R> {
    type Answer = io::Result<()>;

    fn run<K: KeySet>(&self, set: &mut K) -> io::Result<()> {
        let (rt, report) = (self.rt, self.report);
        let before = resident_bytes(rt)?;

        let start = Instant::now(rt)?;
        let placed = insert_spread(set, 0, LARGEST);
        report.time(rt, "ins_1e8", start, placed, LARGEST, LARGEST)?;

        print_bytes(rt, report, "rss_1e8", before, LARGEST)?;

        let start = Instant::now(rt)?;
        let hits = look_all(set, LARGEST, 0);
        report.time(rt, "hit_1e8", start, hits, LARGEST, LARGEST)?;

        let start = Instant::now(rt)?;
        let found = look_all(set, LARGEST, ABSENT);
        report.time(rt, "miss_1e8", start, found, 0, LARGEST)
    }
}
