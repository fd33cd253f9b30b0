//! One step of a running call, by what it found.
//!
//! A call on a running table keeps a `CallState`, and each of its steps is `decide`. The driver of a call does
//! what the phase says, and passes the answer to one of these functions. `step` is enough if phase and answer are known. The
//! others also promise what holds afterwards if the next phase depends on numbers.
ghost use Rattle.std.specs.Prelude.{◌≡◌, ◌⊎◌, true};
ghost use Rattle.std.specs.Int.{IsPowerOfTwo};
ghost use Rattle.table_core.specs.Calls.{decided, fits};
ghost use Rattle.table_core.specs.declared.call.Phase.TheVariants.{Probe, Shared, LookLoad, LookProbe};
ghost use Rattle.table_core.specs.declared.call.Answer.TheVariants.{Loaded};
ghost use Rattle.table_core.specs.RunningPhases.{Leaves};
ghost use Rattle.table_core.specs.RunningSteps.{Went, LeavesWith, Leaving, Starting};
ghost use Rattle.table_core.specs.RunningSteps.{passed as passed_answer, released as released_answer};

use crate::{Answer, CallState, Phase, decide};
use table_terms::probe::first_bucket;

/// Returns the state of a call after an answer that fits its phase.
#[inline(always)]
pub fn step(state: CallState, answer: Answer) -> CallState
    requires fits { fits state.phase state answer ≡ true }
    ensures went { Went state result answer }
    ensures decided { result ≡ decided state.phase state answer }
{
    decide(state, answer)
}

/// Returns the state of a call that starts its probe in generation `number`, of `capacity` buckets. The capacity is a power of two,
/// so a mask finds the first bucket. `decide` takes any capacity, and tests whether it is a power of two.
#[inline(always)]
pub fn step_loaded(state: CallState, number: u64, capacity: u64) -> CallState
    requires phase { (state.phase ≡ Shared) ⊎ (state.phase ≡ LookLoad) }
    requires power { IsPowerOfTwo capacity }
    ensures went { Went state result (Loaded number capacity) }
    ensures starting { Starting state result number capacity }
    ensures insert { state.phase ≡ Shared → result.phase ≡ Probe }
    ensures look { state.phase ≡ LookLoad → result.phase ≡ LookProbe }
{
    let started = step(state, Answer::Loaded { number, capacity });
    CallState {
        index: first_bucket(state.hash, capacity as usize) as u64,
        ..started
    }
}

/// Returns the answer of a call that passes an entry: `asked` tells whether its closure was called.
#[inline(always)]
pub fn passed(asked: bool) -> Answer
    ensures { result ≡ passed_answer asked }
{
    if asked {
        Answer::Holds { accepted: false }
    } else {
        Answer::HoldsUnasked
    }
}

/// Returns the answer of a call that releases its lock in this phase. `still_current` matters only after a failed growth.
#[inline(always)]
pub fn released(phase: Phase, still_current: bool) -> Answer
    ensures { result ≡ released_answer phase still_current }
{
    match phase {
        Phase::LeaveFailed => Answer::ReleasedAfterFailure { still_current },
        _ => Answer::Released,
    }
}

/// Returns the state of an insert that releases its lock.
#[inline(always)]
pub fn step_released(state: CallState, still_current: bool) -> CallState
    requires leaves { Leaves state.phase }
    requires had { LeavesWith state }
    ensures went { Went state result (released_answer state.phase still_current) }
    ensures leaving { Leaving state result }
{
    step(state, released(state.phase, still_current))
}
