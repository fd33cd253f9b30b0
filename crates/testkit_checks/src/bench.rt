//! Runs measurements by their names. Each printed line has the name, the measurement and the nanoseconds of wall time per operation
//! (`g_rss`, `t_rss`, `rss_1e8`: resident bytes per entry).
use crate::measures::handles::SharedSetKeys;
use crate::measures::held::{check_held, measure_held};
use crate::measures::interning::{check_texts, measure_texts};
use crate::measures::numbers::NumberSet;
use crate::measures::records::SharedSetRecords;
use crate::measures::report::{Report, refuse_words};
use crate::measures::schedules::{check_schedules, measure_schedules};
use crate::measures::seats::{check_seats, measure_seats};
use crate::measures::sets::HeldSetKeys;
use crate::measures::sharded::{HeldShards, SharedShards};
use crate::measures::shared::{SharedNumbers, check_shared, measure_shared};
use crate::measures::texts::{check_interner, measure_interner};
use lock_free_hashtable::atomic_value::InPlace;
use std::convert::AsStr;
use std::fs::Files;
use std::io;
use std::rt::Clock;
use std::sync::Wait;
use std::thread::Threads;

const HELD: &str = "held";

const HELD_IN_PLACE: &str = "held-in-place";

const HELD_SET: &str = "held-set";

const HELD_SHARDS: &str = "held-shards";

const SHARED: &str = "shared";

const SHARED_IN_PLACE: &str = "shared-in-place";

const SHARED_SET: &str = "shared-set";

const SHARED_SHARDS: &str = "shared-shards";

const RECORDS: &str = "records-shared-set";

const TEXTS: &str = "texts-shared-interner";

/// Runs a workload of each measurement once, without a clock, and prints counts. `Err`: memory was refused, or the output failed.
pub fn check_all<R: Print + Threads + Wait + Sync + AllocGlobal>(rt: &R) -> io::Result<()> {
    check_by_one(rt)?;
    check_by_threads(rt)?;
    check_texts(rt, TEXTS)?;
    check_seats(rt)?;
    check_schedules(rt)?;
    check_interner(rt)
}

/// Runs a workload of each measurement of a single-owner set. `Err`: memory was refused, or the output failed.
fn check_by_one<R: Print + AllocGlobal>(rt: &R) -> io::Result<()> {
    check_held::<NumberSet<Box<u64>>, R>(rt, HELD)?;
    check_held::<NumberSet<InPlace<u64>>, R>(rt, HELD_IN_PLACE)?;
    check_held::<HeldSetKeys<InPlace<u64>>, R>(rt, HELD_SET)?;
    check_held::<HeldShards<InPlace<u64>>, R>(rt, HELD_SHARDS)
}

/// Runs a workload of each measurement of a set that threads share. `Err`: memory was refused, or the output failed.
fn check_by_threads<R: Print + Threads + Wait + Sync + AllocGlobal>(rt: &R) -> io::Result<()> {
    check_shared::<SharedNumbers<Box<u64>>, R>(rt, SHARED)?;
    check_shared::<SharedNumbers<InPlace<u64>>, R>(rt, SHARED_IN_PLACE)?;
    check_shared::<SharedSetKeys, R>(rt, SHARED_SET)?;
    check_shared::<SharedShards<InPlace<u64>>, R>(rt, SHARED_SHARDS)?;
    check_shared::<SharedSetRecords, R>(rt, RECORDS)
}

/// Runs the measurement that the words name. `list` prints the names. Without words it runs `check_all`. Other words print the usage.
/// `Err`: the words name no measurement, or a measurement failed.
pub fn run_bench<R: Print + Eprint + Clock + Files + Threads + Wait + Sync + AllocGlobal, S: AsStr>(
    rt: &R,
    words: &[S],
) -> io::Result<()> {
    match words {
        [] => check_all(rt),
        [word] if word.as_str() == "list" => println!(rt;
            "{HELD}\n{HELD_IN_PLACE}\n{HELD_SET}\n{HELD_SHARDS}\n{SHARED}\n{SHARED_IN_PLACE}\n{SHARED_SET}\n\
            {SHARED_SHARDS}\n{RECORDS}\n{TEXTS}\nseats\ncore\ninterner"
        ),
        [name, group] => measure(rt, name.as_str(), group.as_str(), None),
        [name, group, threads] => measure(
            rt,
            name.as_str(),
            group.as_str(),
            Some(threads.as_str()),
        ),
        _ => refuse_words(rt),
    }
}

/// Runs a group of the measurements with this name, with `threads` threads if it names a shared set. `Err`: the name or the group is
/// unknown, it takes no such number of threads, or a measurement failed.
fn measure<R: Print + Eprint + Clock + Files + Threads + Wait + Sync + AllocGlobal>(
    rt: &R,
    name: &str,
    group: &str,
    threads: Option<&str>,
) -> io::Result<()> {
    let report = Report { name };
    match (name, threads) {
        (HELD | HELD_IN_PLACE | HELD_SET | HELD_SHARDS, None) => measure_by_one(rt, &report, group),
        (TEXTS, None) => measure_texts(rt, &report, group),
        ("seats", None) => measure_seats(rt, &report, group),
        ("core", None) => measure_schedules(rt, &report, group),
        ("interner", None) => measure_interner(rt, &report, group),
        _ => measure_by_threads(rt, &report, group, threads),
    }
}

/// Runs a group of the measurements of a single-owner set. `Err`: the name or the group is unknown, or a measurement failed.
fn measure_by_one<R: Print + Eprint + Clock + Files + AllocGlobal>(
    rt: &R,
    report: &Report<'_>,
    group: &str,
) -> io::Result<()> {
    match report.name {
        HELD => measure_held::<NumberSet<Box<u64>>, R>(rt, report, group),
        HELD_IN_PLACE => measure_held::<NumberSet<InPlace<u64>>, R>(rt, report, group),
        HELD_SET => measure_held::<HeldSetKeys<InPlace<u64>>, R>(rt, report, group),
        HELD_SHARDS => measure_held::<HeldShards<InPlace<u64>>, R>(rt, report, group),
        _ => refuse_words(rt),
    }
}

/// Runs a group of the measurements of a shared set, with `threads` threads. `Err`: the name or the group is unknown, it takes no such number
/// of threads, or a measurement failed.
fn measure_by_threads<R: Print + Eprint + Clock + Files + Threads + Wait + Sync + AllocGlobal>(
    rt: &R,
    report: &Report<'_>,
    group: &str,
    threads: Option<&str>,
) -> io::Result<()> {
    match report.name {
        SHARED => measure_shared::<SharedNumbers<Box<u64>>, R>(rt, report, group, threads),
        SHARED_IN_PLACE => measure_shared::<SharedNumbers<InPlace<u64>>, R>(
            rt, report, group, threads,
        ),
        SHARED_SET => measure_shared::<SharedSetKeys, R>(rt, report, group, threads),
        SHARED_SHARDS => measure_shared::<SharedShards<InPlace<u64>>, R>(
            rt, report, group, threads,
        ),
        RECORDS => measure_shared::<SharedSetRecords, R>(rt, report, group, threads),
        _ => refuse_words(rt),
    }
}
