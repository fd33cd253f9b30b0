//! Runs drawn rounds.
use super::plan::{End, Plan};
use super::stop::Stop;
use super::sum::Sum;
use crate::{Round, run_round};
use std::alloc::Global;
use std::convert::AsStr;
use std::io::Write;
use std::rt::Clock;
use std::sync::Wait;
use std::thread::Threads;
use std::time::Instant;

/// The status of rounds without a fault.
const WELL: u8 = 0;

/// The status of a round with a fault, of a failed clock or output, or of arguments that name no plan.
const BAD: u8 = 1;

/// The seconds of a minute.
const MINUTE: u64 = 60;

/// Runs the rounds that the words ask for, and returns the status. The words are the number of minutes and the seed of the first round.
/// Without words a few small rounds run. Writes the first fault to `messages`, with its round.
pub fn run_rounds<R: Threads + Wait + Sync + Clock, S: AsStr, O: Write, M: Write>(
    rt: &R,
    alloc: Global,
    words: &[S],
    output: &mut O,
    messages: &mut M,
) -> u8 {
    let Some(plan) = Plan::of_words(words) else {
        let _ = writeln!(messages, "usage: tool_checks stress [MINUTES [FIRST-SEED]]");
        return BAD;
    };
    match run_plan(rt, alloc, plan, output) {
        Ok(()) => WELL,
        Err(stop) => {
            let _ = writeln!(messages, "{stop}");
            BAD
        }
    }
}

/// Runs the rounds of a plan, and writes their number at the end. `Err`: a round had a fault, or the clock or the output failed.
fn run_plan<R: Threads + Wait + Sync + Clock, O: Write>(
    rt: &R,
    alloc: Global,
    plan: Plan,
    output: &mut O,
) -> Result<(), Stop> {
    let rounds = count_rounds(rt, alloc, plan, output)?;
    writeln!(output, "{rounds} rounds: each value is accounted for")?;
    Ok(())
}

/// Runs the rounds of a plan, and returns how many there were. Writes their sum every minute if the plan ends after minutes. `Err`: a fault, or
/// a failed clock or output.
fn count_rounds<R: Threads + Wait + Sync + Clock, O: Write>(
    rt: &R,
    alloc: Global,
    plan: Plan,
    output: &mut O,
) -> Result<u64, Stop> {
    let start = Instant::now(rt)?;
    let mut sum = Sum::none();
    let mut reported = 0u64;
    for seed in plan.first_seed..u64::MAX {
        let minutes = start.elapsed(rt)?.as_secs() / MINUTE;
        if reported < minutes && matches!(plan.end, End::Minutes(_)) {
            writeln!(output, "minute {minutes}: {sum}")?;
            reported = minutes;
        }
        if plan.is_over(sum.rounds, minutes) {
            break;
        }
        let round = Round::drawn(seed, plan.most);
        match run_round(rt, alloc, round) {
            Ok(account) => sum = sum.with(round, account),
            Err(fault) => return Err(Stop::Fault(round, fault)),
        }
    }
    Ok(sum.rounds)
}
