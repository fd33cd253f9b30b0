//! The next state of a call after an answer: the table of events as code.
ghost use Rattle.std.specs.Prelude.{◌≡◌, true, Some, None, nat_lt, ◌/◌, ◌%◌, ◌+◌, ◌<◌, if◌then◌else◌};
ghost use Rattle.table_core.specs.Calls.{decide as after_answer, stands_at_bucket, to, probes, passes, finds_entry};
ghost use Rattle.table_core.specs.Calls.{at_set_bucket, insert_meets, lookup_meets, walk_passes, growth_ends, growth_fails};

use crate::call::Answer::*;
use crate::call::Phase::*;
use crate::call::{Answer, CallState, Outcome, Phase};
use table_terms::probe::remainder;

/// Returns the state of a call after the answer to its event.
///
/// This function holds every rule for the next state of a call, and nothing else does. It does not allocate. It returns the state
/// unchanged for an answer that has no place in the call's phase, or whose numbers are impossible (a capacity of 0, a bucket or a
/// count of buckets beyond the capacity).
#[inline(always)]
pub fn decide(state: CallState, answer: Answer) -> CallState
    ensures { result ≡ after_answer state answer }
{
    match (state.phase, answer) {
        (WantShared, Taken) => in_phase(state, Shared),
        (Shared, NoGeneration) => after_empty_load(state),
        (Shared, Loaded { number, capacity }) => probe(state, Probe, number, capacity),
        (Probe, Empty) => at_bucket(state, AtEmpty),
        (Probe, Holds { accepted }) => after_insert_met(state, accepted),
        (Probe, HoldsUnasked) => after_insert_met(state, false),
        (AtEmpty, MemoryRefused) => at_bucket(state, LeaveRefused),
        (AtEmpty, Won) => at_bucket(state, Placed),
        (AtEmpty, Holds { accepted }) => after_insert_met(state, accepted),
        (AtEmpty, HoldsUnasked) => after_insert_met(state, false),
        (Placed, Counted) => after_count(state),
        (LeaveOk, Released) => in_phase(state, AskSize),
        (LeaveGrow, Released) => in_phase(state, WantOwned),
        (LeaveRefused, Released) => in_phase(state, Done),
        (AskSize, Sized { size }) => after_insert_size(state, size),
        (WantOwned, Taken) => in_phase(state, Owned),
        (Owned, Begun) => in_phase(state, Building),
        (Owned, Unwanted) => in_phase(state, LeaveOwned),
        (Owned, Failed) => in_phase(state, LeaveFailed),
        (Building, Copied) => in_phase(state, Building),
        (Building, Shown) => in_phase(state, LeaveOwned),
        (LeaveOwned, Released) => after_growth(state),
        (LeaveFailed, ReleasedAfterFailure { still_current }) => {
            after_failed_growth(state, still_current)
        }
        (LookLoad, NoGeneration) => in_phase(state, Done),
        (LookLoad, Loaded { number, capacity }) => probe(state, LookProbe, number, capacity),
        (LookProbe, Empty) => at_bucket(state, Done),
        (LookProbe, Holds { accepted }) => after_lookup_met(state, accepted),
        (LookProbe, HoldsUnasked) => after_lookup_met(state, false),
        (LenLoad, NoGeneration) => in_phase(state, Done),
        (LenLoad, Loaded { number, capacity }) => after_length_load(state, number, capacity),
        (LenSize, Sized { .. }) => after_length_size(state),
        (WalkLoad, NoGeneration) => in_phase(state, Done),
        (WalkLoad, Loaded { number, capacity }) => after_walk_load(state, number, capacity),
        (WalkAt, Empty) => after_walk_read(state),
        (WalkAt, HoldsUnasked) => after_walk_read(state),
        _ => state,
    }
}

/// Returns the state with another phase.
#[inline(always)]
fn in_phase(state: CallState, phase: Phase) -> CallState
    ensures { result ≡ to phase state }
{
    CallState { phase, ..state }
}

/// Returns whether a probe stands at a bucket of its generation.
#[inline(always)]
fn stands(state: CallState) -> bool
    ensures { result ≡ stands_at_bucket state }
{
    state.index < state.capacity && state.seen < state.capacity
}

/// Returns the state with another phase, at the same bucket.
#[inline(always)]
fn at_bucket(state: CallState, phase: Phase) -> CallState
    ensures { result ≡ (if stands_at_bucket state then to phase state else state) }
{
    if stands(state) {
        in_phase(state, phase)
    } else {
        state
    }
}

/// Returns the state of an insert that found no generation.
#[inline(always)]
fn after_empty_load(state: CallState) -> CallState
    ensures { result ≡ record state { phase = Phase.LeaveGrow; walked = None } }
{
    CallState {
        phase: Phase::LeaveGrow,
        walked: None,
        ..state
    }
}

/// Returns the state of a call that has loaded this generation.
#[inline(always)]
fn in_generation(state: CallState, phase: Phase, number: u64, capacity: u64) -> CallState
    ensures { result ≡ record state { phase = phase; walked = Some number; capacity = capacity } }
{
    CallState {
        phase,
        walked: Some(number),
        capacity,
        ..state
    }
}

/// Returns the state of a probe that begins at the bucket of its hash.
#[inline(always)]
fn probe(state: CallState, phase: Phase, number: u64, capacity: u64) -> CallState
    ensures { result ≡ (if nat_lt 0 capacity then probes phase state number capacity else state) }
{
    if capacity == 0 {
        return state;
    }
    CallState {
        index: remainder(state.hash, capacity),
        seen: 0,
        ..in_generation(state, phase, number, capacity)
    }
}

/// Returns the index of the bucket after this one. Wraps around at the end.
#[inline(always)]
fn bucket_after(index: u64, capacity: u64) -> u64
    requires { index < capacity }
    ensures { result ≡ (index + 1) % capacity }
{
    let next = index + 1;
    if next < capacity { next } else { 0 }
}

/// Returns the state at the next bucket, or in the phase `turned` after all buckets were passed.
#[inline(always)]
fn pass(state: CallState, on: Phase, turned: Phase) -> CallState
    requires { stands_at_bucket state ≡ true }
    ensures { result ≡ passes on turned state }
{
    let seen = state.seen + 1;
    if seen < state.capacity {
        CallState {
            phase: on,
            index: bucket_after(state.index, state.capacity),
            seen,
            ..state
        }
    } else {
        CallState {
            phase: turned,
            seen,
            ..state
        }
    }
}

/// Returns the state of a call that accepts the entry in its bucket.
#[inline(always)]
fn accept_here(state: CallState, phase: Phase) -> CallState
    ensures { result ≡ finds_entry phase state }
{
    CallState {
        phase,
        outcome: Outcome::Existing { index: state.index },
        ..state
    }
}

/// Returns the state of a call at a set bucket, which accepts the entry or passes it.
#[inline(always)]
fn after_met(state: CallState, accepted: bool, found: Phase, on: Phase, turned: Phase) -> CallState
    ensures { result ≡ (if stands_at_bucket state then at_set_bucket found on turned state accepted
        else state) }
{
    if !stands(state) {
        state
    } else if accepted {
        accept_here(state, found)
    } else {
        pass(state, on, turned)
    }
}

/// Returns the state of an insert at a set bucket.
#[inline(always)]
fn after_insert_met(state: CallState, accepted: bool) -> CallState
    ensures { result ≡ (if stands_at_bucket state then insert_meets state accepted else state) }
{
    after_met(state, accepted, LeaveOk, Probe, LeaveGrow)
}

/// Returns the state of a look-up at a set bucket.
#[inline(always)]
fn after_lookup_met(state: CallState, accepted: bool) -> CallState
    ensures { result ≡ (if stands_at_bucket state then lookup_meets state accepted else state) }
{
    after_met(state, accepted, Done, LookProbe, Done)
}

/// Returns the state of an insert whose value is counted.
#[inline(always)]
fn after_count(state: CallState) -> CallState
    ensures { result ≡ (if stands_at_bucket state then record state
        { phase = Phase.LeaveOk; outcome = Outcome.New state.index } else state) }
{
    if !stands(state) {
        return state;
    }
    CallState {
        phase: Phase::LeaveOk,
        outcome: Outcome::New { index: state.index },
        ..state
    }
}

/// Returns the state of an insert that has read the size of its generation. Growth is due if the size is at least half of the
/// capacity.
#[inline(always)]
fn after_insert_size(state: CallState, size: u64) -> CallState
    ensures { result ≡ (if nat_lt 0 state.capacity then
        (if nat_lt size (state.capacity / 2) then to Phase.Done state else to Phase.WantOwned state)
        else state) }
{
    if state.capacity == 0 {
        state
    } else if size < state.capacity / 2 {
        in_phase(state, Phase::Done)
    } else {
        in_phase(state, Phase::WantOwned)
    }
}

/// Returns the state of a length that has read the size.
#[inline(always)]
fn after_length_size(state: CallState) -> CallState
    ensures { result ≡ (if nat_lt 0 state.capacity then to Phase.Done state else state) }
{
    if state.capacity == 0 {
        return state;
    }
    in_phase(state, Phase::Done)
}

/// Returns the state of a length that has loaded its generation.
#[inline(always)]
fn after_length_load(state: CallState, number: u64, capacity: u64) -> CallState
    ensures { result ≡ (if nat_lt 0 capacity then record state
        { phase = Phase.LenSize; walked = Some number; capacity = capacity } else state) }
{
    if capacity == 0 {
        return state;
    }
    in_generation(state, Phase::LenSize, number, capacity)
}

/// Returns the state of a walk that has loaded its generation.
#[inline(always)]
fn after_walk_load(state: CallState, number: u64, capacity: u64) -> CallState
    ensures { result ≡ (if nat_lt 0 capacity then record state
        { phase = Phase.WalkAt; walked = Some number; capacity = capacity; index = 0 } else state) }
{
    if capacity == 0 {
        return state;
    }
    CallState {
        index: 0,
        ..in_generation(state, Phase::WalkAt, number, capacity)
    }
}

/// Returns the state of a walk that has read a bucket: at the next bucket, or at the end.
#[inline(always)]
fn after_walk_read(state: CallState) -> CallState
    ensures { result ≡ (if nat_lt state.index state.capacity then walk_passes state else state) }
{
    if state.index >= state.capacity {
        return state;
    }
    let index = state.index + 1;
    let phase = if index < state.capacity {
        Phase::WalkAt
    } else {
        Phase::Done
    };
    CallState {
        phase,
        index,
        ..state
    }
}

/// Returns the state of an insert whose growth is over. Without an outcome it begins again.
#[inline(always)]
fn after_growth(state: CallState) -> CallState
    ensures { result ≡ growth_ends state }
{
    match state.outcome {
        Outcome::Pending => in_phase(state, Phase::WantShared),
        _ => in_phase(state, Phase::Done),
    }
}

/// Returns the state of an insert whose growth has failed. Without an outcome it begins again if another generation is current by
/// now.
#[inline(always)]
fn after_failed_growth(state: CallState, still_current: bool) -> CallState
    ensures { result ≡ growth_fails state still_current }
{
    match (state.outcome, still_current) {
        (Outcome::Pending, false) => in_phase(state, Phase::WantShared),
        _ => in_phase(state, Phase::Done),
    }
}
