//! Schedules of a million events.

use std::alloc::Global;
use std::process::Abort;
use std::test::Fail;
use table_core::event::Event;
use table_core::reply::{Finished, Reply};
use table_core::state::{State, run};
use testkit::schedules::load::{Hashes, INSERTS, LOOKUPS, load_events};

/// Checks that each insert of a load places its number, that each look-up finds its number, and how many buckets there are at the end.
/// `Err`: no memory.
fn check_load(rt: &impl Abort, alloc: Global, hashes: Hashes) -> Result<(), Fail> {
    let events = load_events(alloc, hashes)?;
    // 8 events per insert and 3 per look-up, 7 for the first generation, and 4 for each of 14 more, which copy 8 + 16 + .. + 65,536 entries
    assert_eq!(rt; events.len(), 1_006_127);
    let replies = run(alloc, events.as_slice())?;
    assert_eq!(rt; replies.len() as u64, INSERTS + LOOKUPS);
    for (turn, finished) in replies.iter().enumerate() {
        check_reply(rt, turn as u64, finished);
    }
    // 16 + 32 + .. + 262,144
    assert_eq!(rt; buckets_after(alloc, events.as_slice())?, 524_272);
    Ok(())
}

/// Checks that the call of this turn has its reply.
fn check_reply(rt: &impl Abort, turn: u64, finished: &Finished) {
    assert_eq!(rt; finished.call, turn);
    assert_eq!(rt; turn_of(&finished.reply), Some(turn));
}

/// Returns the turn of the call that has this reply, or `None` if no call of a load has it.
fn turn_of(reply: &Reply) -> Option<u64> {
    match reply {
        Reply::Placed(value) => Some(*value),
        Reply::Some(value) => value.checked_add(LOOKUPS),
        _ => None,
    }
}

/// Returns the number of buckets of all generations after these events. `Err`: no memory.
fn buckets_after(alloc: Global, events: &[Event]) -> Result<u64, Fail> {
    let mut state = State::new(alloc);
    for event in events {
        state.step(*event)?;
    }
    Ok(state.buckets())
}

#[test]
fn many_calls_run_in_turn(rt: HostRuntime) -> Result<(), Fail> {
    check_load(&rt, rt.alloc(), Hashes::Own)
}

#[test]
fn many_copies_of_one_hash(rt: HostRuntime) -> Result<(), Fail> {
    check_load(&rt, rt.alloc(), Hashes::OneForCopies)
}
