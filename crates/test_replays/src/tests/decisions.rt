//! Answers that don't fit the phase of a call, and states with impossible numbers.

use std::process::Abort;
use table_core::call::{Answer, CallState, Outcome, Phase};
use table_core::deciding::decide;

const HOLDS: Answer = Answer::Holds { accepted: true };

const LOADED: Answer = Answer::Loaded {
    number: 1,
    capacity: 32,
};

const AFTER_FAILURE: Answer = Answer::ReleasedAfterFailure {
    still_current: true,
};

const SIZED: Answer = Answer::Sized { size: 8 };

const ANSWERS: [Answer; 17] = [
    Answer::Taken,
    Answer::Released,
    AFTER_FAILURE,
    Answer::NoGeneration,
    LOADED,
    Answer::Empty,
    HOLDS,
    Answer::HoldsUnasked,
    Answer::Won,
    Answer::MemoryRefused,
    Answer::Counted,
    SIZED,
    Answer::Begun,
    Answer::Unwanted,
    Answer::Failed,
    Answer::Copied,
    Answer::Shown,
];

/// Each phase with the answers that fit it.
const FITTING: [(Phase, &[Answer]); 21] = [
    (Phase::WantShared, &[Answer::Taken]),
    (Phase::Shared, &[Answer::NoGeneration, LOADED]),
    (Phase::Probe, &[Answer::Empty, HOLDS, Answer::HoldsUnasked]),
    (
        Phase::AtEmpty,
        &[
            Answer::MemoryRefused,
            Answer::Won,
            HOLDS,
            Answer::HoldsUnasked,
        ],
    ),
    (Phase::Placed, &[Answer::Counted]),
    (Phase::LeaveOk, &[Answer::Released]),
    (Phase::LeaveGrow, &[Answer::Released]),
    (Phase::LeaveRefused, &[Answer::Released]),
    (Phase::AskSize, &[SIZED]),
    (Phase::WantOwned, &[Answer::Taken]),
    (
        Phase::Owned,
        &[Answer::Begun, Answer::Unwanted, Answer::Failed],
    ),
    (Phase::Building, &[Answer::Copied, Answer::Shown]),
    (Phase::LeaveOwned, &[Answer::Released]),
    (Phase::LeaveFailed, &[AFTER_FAILURE]),
    (Phase::LookLoad, &[Answer::NoGeneration, LOADED]),
    (
        Phase::LookProbe,
        &[Answer::Empty, HOLDS, Answer::HoldsUnasked],
    ),
    (Phase::LenLoad, &[Answer::NoGeneration, LOADED]),
    (Phase::LenSize, &[SIZED]),
    (Phase::WalkLoad, &[Answer::NoGeneration, LOADED]),
    (Phase::WalkAt, &[Answer::Empty, Answer::HoldsUnasked]),
    (Phase::Done, &[]),
];

/// A call at bucket 3 of 16, which has passed two buckets.
const STANDING: CallState = CallState {
    phase: Phase::Done,
    hash: 1,
    walked: Some(0),
    capacity: 16,
    index: 3,
    seen: 2,
    outcome: Outcome::Pending,
};

/// Asserts that this answer changes the state of a call in this phase, or that it doesn't if `moves` is false.
fn check_answer(rt: &impl Abort, at: CallState, phase: Phase, answer: Answer, moves: bool) {
    let state = CallState { phase, ..at };
    assert_eq!(rt;
        decide(state, answer) != state,
        moves,
        "{phase:?} {answer:?}"
    );
}

/// Asserts that in this phase these answers change this state of a call, and no others. A copy leaves the state as it is.
fn check_phase(rt: &impl Abort, at: CallState, phase: Phase, fitting: &[Answer]) {
    for answer in &ANSWERS {
        let moves = fitting.contains(answer) && *answer != Answer::Copied;
        check_answer(rt, at, phase, *answer, moves);
    }
}

#[test]
fn answers_that_do_not_fit_change_nothing(rt: HostRuntime) {
    for (phase, fitting) in &FITTING {
        check_phase(&rt, STANDING, *phase, *fitting);
    }
}

/// The phases that load a generation.
const LOADING: [Phase; 4] = [
    Phase::Shared,
    Phase::LookLoad,
    Phase::LenLoad,
    Phase::WalkLoad,
];

const LOADED_NOTHING: Answer = Answer::Loaded {
    number: 0,
    capacity: 0,
};

/// The phases of a call at a bucket.
const AT_A_BUCKET: [Phase; 4] = [
    Phase::Probe,
    Phase::AtEmpty,
    Phase::Placed,
    Phase::LookProbe,
];

/// Other phases that need a generation with buckets.
const OF_A_GENERATION: [Phase; 3] = [Phase::AskSize, Phase::LenSize, Phase::WalkAt];

/// States of a call whose bucket doesn't exist, or that has passed all buckets.
const AT_NO_BUCKET: [CallState; 3] = [
    CallState {
        index: 16,
        ..STANDING
    },
    CallState {
        seen: 16,
        ..STANDING
    },
    WITHOUT_BUCKETS,
];

/// A call whose generation has no bucket.
const WITHOUT_BUCKETS: CallState = CallState {
    capacity: 0,
    ..STANDING
};

#[test]
fn numbers_that_can_not_be_change_nothing(rt: HostRuntime) {
    for phase in &LOADING {
        check_answer(&rt, STANDING, *phase, LOADED_NOTHING, false);
    }
    for phase in &AT_A_BUCKET {
        for state in &AT_NO_BUCKET {
            check_phase(&rt, *state, *phase, &[]);
        }
    }
    for phase in &OF_A_GENERATION {
        check_phase(&rt, WITHOUT_BUCKETS, *phase, &[]);
    }
}
