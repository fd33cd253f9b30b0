//! Replays random schedules, as many as the arguments ask for.
use crate::fault::ReplayFault;
use crate::schedules::{first_fault, run_seed};
use crate::whole_calls::run_interleaved;
use std::alloc::Global;
use std::convert::AsStr;
use std::io::Write;
use std::sync::Wait;
use std::thread::Threads;

/// The number of seeds if the arguments name none.
const FEW: u64 = 20;

/// The status of a run without a fault.
const WELL: u8 = 0;

/// The status of a run that has a fault or wrong arguments, or whose output fails.
const BAD: u8 = 1;

/// Replays the schedules of some seeds, and returns the status. `words` are the number of seeds and the first seed; by default 20 seeds
/// run, from 0 on. Each seed has a schedule of stepped calls, and one of whole calls on two threads. The first fault is written to
/// `messages`, with its seed.
pub fn run_replays<R: Threads + Wait + Sync, S: AsStr, O: Write, M: Write>(
    rt: &R,
    alloc: Global,
    words: &[S],
    output: &mut O,
    messages: &mut M,
) -> u8 {
    let Some((seeds, first_seed)) = parse_words(words) else {
        let _ = writeln!(
            messages,
            "usage: tool_checks replays [SCHEDULES [FIRST-SEED]]"
        );
        return BAD;
    };
    let faulty = first_fault(first_seed, seeds, |seed: u64| run_both(rt, alloc, seed));
    if let Some((seed, fault)) = faulty {
        let _ = writeln!(messages, "seed {seed}: {fault:?}");
        return BAD;
    }
    match writeln!(output, "{seeds} schedules agree") {
        Ok(()) => WELL,
        Err(_error) => BAD,
    }
}

/// Replays the schedule of stepped calls and that of whole calls of a seed. `Err`: the first fault.
fn run_both<R: Threads + Wait + Sync>(rt: &R, alloc: Global, seed: u64) -> Result<(), ReplayFault> {
    run_seed(alloc, seed)?;
    run_interleaved(rt, alloc, seed)
}

/// Parses the number of seeds and the first seed. Returns `None` for other words.
fn parse_words<S: AsStr>(words: &[S]) -> Option<(u64, u64)> {
    match words {
        [] => Some((FEW, 0)),
        [seeds] => Some((parse_word(seeds)?, 0)),
        [seeds, first_seed] => Some((parse_word(seeds)?, parse_word(first_seed)?)),
        _ => None,
    }
}

/// Parses a word as a number. Returns `None` if it isn't one.
fn parse_word<S: AsStr>(word: &S) -> Option<u64> {
    word.as_str().parse::<u64>().ok()
}
