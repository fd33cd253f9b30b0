//! Measurements of a set by one thread.

use crate::measures::memory::{print_bytes, resident_bytes};
use crate::measures::numbers::{ABSENT, COUNT, Empty, KeySet, spread, turn};
use crate::measures::report::Report;
use crate::measures::sizes::measure_sizes;
use crate::measures::tasks::{HeldSets, Sets, Task};
use std::io;
use std::marker::PhantomData;
use std::rt::{Clock, Files};
use std::time::Instant;

/// A row of keys. The first key is 0.
#[derive(Clone, Copy)]
struct Row {
    /// The step from a key to the next one.
    step: u64,
    name: &'static str,
    /// The names of the measurements of inserts and hits.
    inserts: &'static str,
    hits: &'static str,
}

const IN_ORDER: Row = Row {
    step: 1,
    name: "in order",
    inserts: "seq_ins1",
    hits: "seq_hit1",
};

/// Multiples of a power of two. They collide under a hash whose low bits depend only on the low bits of a key.
const IN_STEPS: Row = Row {
    step: 65_536,
    name: "in steps of 65536",
    inserts: "step_ins1",
    hits: "step_hit1",
};

/// Runs a group of measurements of a single-owner set. `Err`: the group is unknown, or a measurement failed.
pub fn measure_held<S: KeySet + Empty + Drop, R: Print + Eprint + Clock + Files + AllocGlobal>(
    rt: &R,
    report: &Report<'_>,
    group: &str,
) -> io::Result<()> {
    let sets: HeldSets<S> = HeldSets {
        alloc: rt.alloc(),
        of: PhantomData,
    };
    match group {
        "one" => sets.with_empty(&Spread { rt, report })?,
        _ => measure_rows(rt, report, group, &sets),
    }
}

/// Runs a group of measurements of rows of keys, or of fewer or more keys than a million. `Err`: an unknown group, or a failed measurement.
pub(crate) fn measure_rows<S: Sets, R: Print + Eprint + Clock + Files + AllocGlobal>(
    rt: &R,
    report: &Report<'_>,
    group: &str,
    sets: &S,
) -> io::Result<()> {
    let row = match group {
        "seq" => IN_ORDER,
        "step" => IN_STEPS,
        _ => return measure_sizes(rt, report, group, sets),
    };
    sets.with_empty(&InRow { rt, report, row })?
}

/// The task that measures spread keys in an empty set: inserts, resident bytes, hits and misses. `Err`: a wrong count or an I/O error.
#[derive(Drop)]
pub(crate) struct Spread<'a, R> {
    pub(crate) rt: &'a R,
    pub(crate) report: &'a Report<'a>,
}

impl<'a, R: Print + Clock + Files + AllocGlobal> Task for Spread<'a, R> {
    type Answer = io::Result<()>;

    fn run<K: KeySet>(&self, set: &mut K) -> io::Result<()> {
        let (rt, report) = (self.rt, self.report);
        let before = resident_bytes(rt)?;

        let start = Instant::now(rt)?;
        let placed = insert_spread(set, 0, COUNT);
        report.time(rt, "a_ins1", start, placed, COUNT, COUNT)?;

        print_bytes(rt, report, "g_rss", before, COUNT)?;

        let start = Instant::now(rt)?;
        let hits = count_spread(set, 0, 0);
        report.time(rt, "b_hit1", start, hits, COUNT, COUNT)?;

        let start = Instant::now(rt)?;
        let found = count_spread(set, 0, ABSENT);
        report.time(rt, "c_miss1", start, found, 0, COUNT)
    }
}

/// The task that measures a row of keys in an empty set: inserts and hits. `Err`: a wrong count or an I/O error.
#[derive(Drop)]
struct InRow<'a, R> {
    rt: &'a R,
    report: &'a Report<'a>,
    row: Row,
}

impl<'a, R: Print + Clock> Task for InRow<'a, R> {
    type Answer = io::Result<()>;

    fn run<K: KeySet>(&self, set: &mut K) -> io::Result<()> {
        let (rt, report) = (self.rt, self.report);
        let row = self.row;

        let start = Instant::now(rt)?;
        let placed = insert_row(set, row.step);
        report.time(rt, row.inserts, start, placed, COUNT, COUNT)?;

        let start = Instant::now(rt)?;
        let found = count_row(set, row.step);
        report.time(rt, row.hits, start, found, COUNT, COUNT)
    }
}

/// Runs each workload once on a single-owner set, without a clock, and prints counts. `Err`: memory was refused, or the output failed.
pub fn check_held<S: KeySet + Empty + Drop, R: Print + AllocGlobal>(
    rt: &R,
    name: &str,
) -> io::Result<()> {
    check_spread(rt, name, &mut S::empty(rt.alloc())?)?;
    check_row(rt, name, &mut S::empty(rt.alloc())?, IN_ORDER)?;
    check_row(rt, name, &mut S::empty(rt.alloc())?, IN_STEPS)
}

/// Inserts spread keys into an empty set, and prints counts. `Err`: the output failed.
fn check_spread<S: KeySet, R: Print>(rt: &R, name: &str, set: &mut S) -> io::Result<()> {
    let (placed, hits, found) = Once {}.run(set);
    let misses = COUNT.saturating_sub(found);
    println!(rt; "{name} spread: {placed} placed, {hits} hits, {misses} misses")
}

/// Inserts a row of keys into an empty set, and prints counts. `Err`: the output failed.
fn check_row<S: KeySet, R: Print>(rt: &R, name: &str, set: &mut S, row: Row) -> io::Result<()> {
    let placed = insert_row(set, row.step);
    let hits = count_row(set, row.step);
    println!(rt; "{name} {}: {placed} placed, {hits} hits", row.name)
}

/// The task that inserts the spread keys into an empty set. The answer is how many were placed, how many are entries then, and how many
/// absent keys are.
#[derive(Drop)]
pub(crate) struct Once {}

impl Task for Once {
    type Answer = (u64, u64, u64);

    fn run<K: KeySet>(&self, keys: &mut K) -> (u64, u64, u64) {
        let placed = insert_spread(keys, 0, COUNT);
        let hits = count_spread(keys, 0, 0);
        (placed, hits, count_spread(keys, 0, ABSENT))
    }
}

/// Inserts `count` spread keys, from the index `from` on. Returns how many were placed.
pub(crate) fn insert_spread<S: KeySet>(set: &mut S, from: u64, count: u64) -> u64 {
    let mut placed = 0u64;
    for index in 0..count {
        let key = spread(from.wrapping_add(index));
        placed = placed.wrapping_add(u64::from(set.insert(key)));
    }
    placed
}

/// Inserts the keys 0, 1, 2, .. times the step. Returns how many were placed.
fn insert_row<S: KeySet>(set: &mut S, step: u64) -> u64 {
    let mut placed = 0u64;
    for index in 0..COUNT {
        placed = placed.wrapping_add(u64::from(set.insert(index.wrapping_mul(step))));
    }
    placed
}

/// Looks up spread keys in the order of `turn`, from position `start` on, with `further` added to each index. Returns how many are entries.
pub(crate) fn count_spread<S: KeySet>(set: &mut S, start: u64, further: u64) -> u64 {
    let mut found = 0u64;
    for index in 0..COUNT {
        let key = spread(turn(index.wrapping_add(start) % COUNT).wrapping_add(further));
        found = found.wrapping_add(u64::from(set.contains(key)));
    }
    found
}

/// Looks up the keys 0, 1, 2, .. times the step, in the order of `turn`. Returns how many are entries.
fn count_row<S: KeySet>(set: &mut S, step: u64) -> u64 {
    let mut found = 0u64;
    for index in 0..COUNT {
        found = found.wrapping_add(u64::from(set.contains(turn(index).wrapping_mul(step))));
    }
    found
}
