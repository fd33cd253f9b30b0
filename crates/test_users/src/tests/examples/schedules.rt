//! A schedule of calls, run by `run_as_list`.
use super::assert_same;
use demo_examples::schedules::run_as_list;
use std::process::Abort;
use std::test::Fail;
use table_core::{Event, Finished, Reply};

/// In this schedule a look-up finds no generation, a length and a walk begin, the first generation of an insert is refused, and the length
/// and the walk find no generation either.
const EVENTS: [Event; 14] = [
    Event::Lookup { call: 1, hash: 7 },
    Event::Load { call: 1 },
    Event::Len { call: 2 },
    Event::Walk { call: 3 },
    Event::Insert {
        call: 4,
        value: 40,
        hash: 7,
    },
    Event::Share { call: 4 },
    Event::Load { call: 4 },
    Event::Free { call: 4 },
    Event::Own { call: 4 },
    Event::Check {
        call: 4,
        granted: false,
    },
    Event::Free { call: 4 },
    Event::Load { call: 2 },
    Event::Load { call: 3 },
    // No call of this number has begun, so nothing happens.
    Event::Load { call: 5 },
];

/// The calls in the order in which they finish.
const CALLS: [u64; 4] = [1, 4, 2, 3];

/// Returns whether a finished call has its expected reply.
fn has_reply(finished: &Finished) -> bool {
    match &finished.reply {
        Reply::None => finished.call == 1,
        Reply::Refused(value) => finished.call == 4 && *value == 40,
        Reply::Len(length) => finished.call == 2 && *length == 0,
        Reply::Walk(entries) => finished.call == 3 && entries.is_empty(),
        _ => false,
    }
}

#[test]
fn calls_answer_as_a_list(rt: HostRuntime) -> Result<(), Fail> {
    let replies = run_as_list(rt.alloc(), &EVENTS)?;
    assert_same(&rt, replies.len(), CALLS.len());
    for (finished, call) in replies.iter().zip(CALLS.iter()) {
        assert_same(&rt, finished.call, *call);
        assert!(rt; has_reply(finished), "at {call}");
    }
    Ok(())
}
