//! Measurements of the machine of all schedules: many calls, one after another.

use crate::measures::report::{Report, refuse_words};
use std::alloc::Global;
use std::io;
use std::rt::Clock;
use std::time::Instant;
use table_core::event::Event;
use table_core::state::{NoMemory, State};
use testkit::schedules::load::{Hashes, INSERTS, LOOKUPS, load_events};

/// Measures the time per event, if the group is `one`. Each number is its own hash. `Err`: another group, a wrong count or an I/O error.
pub fn measure_schedules<R: Print + Eprint + Clock + AllocGlobal>(
    rt: &R,
    report: &Report<'_>,
    group: &str,
) -> io::Result<()> {
    match group {
        "one" => time_events(rt, report, load_events(rt.alloc(), Hashes::Own)?.as_slice()),
        _ => refuse_words(rt),
    }
}

/// Measures the time per event of these. `Err`: a wrong count or an I/O error.
fn time_events<R: Print + Clock + AllocGlobal>(
    rt: &R,
    report: &Report<'_>,
    events: &[Event],
) -> io::Result<()> {
    let mut state = State::new(rt.alloc());
    let start = Instant::now(rt)?;
    let replies = take_all(&mut state, events)?;
    let operations = events.len() as u64;
    report.time(rt, "event", start, replies, INSERTS + LOOKUPS, operations)
}

/// Runs the schedule once, without a clock, and prints counts. `Err`: memory was refused, or the output failed.
pub fn check_schedules<R: Print + AllocGlobal>(rt: &R) -> io::Result<()> {
    let events = load_events(rt.alloc(), Hashes::Own)?;
    let (replies, buckets) = counts_of(rt.alloc(), events.as_slice())?;
    let taken = events.len();
    println!(rt; "core: {taken} events, {replies} replies, {buckets} buckets")
}

/// Runs these events. Returns how many calls they finish, and how many buckets there are then. `Err`: memory was refused.
fn counts_of(alloc: Global, events: &[Event]) -> io::Result<(u64, u64)> {
    let mut state = State::new(alloc);
    let replies = take_all(&mut state, events)?;
    Ok((replies, state.buckets()))
}

/// Runs these events. Returns how many calls they finish. `Err`: memory was refused.
fn take_all(state: &mut State, events: &[Event]) -> io::Result<u64> {
    let mut replies = 0u64;
    for event in events {
        match state.step(*event) {
            Ok(None) => {}
            Ok(Some(_)) => replies = replies.wrapping_add(1),
            Err(NoMemory) => return Err(io::Error::from(io::ErrorKind::OutOfMemory)),
        }
    }
    Ok(replies)
}
