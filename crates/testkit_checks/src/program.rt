//! The program, over its arguments and streams.
use crate::bench::{check_all, run_bench};
use crate::check::{Check, parse_check};
use crate::set_rounds::run_set_rounds;
use std::alloc::Global;
use std::convert::AsStr;
use std::fs::Files;
use std::io;
use std::io::Write;
use std::rt::{Clock, Env};
use std::sync::Wait;
use std::thread::Threads;
use testkit_replay::run_replays;
use testkit_rounds::drawn::run_rounds;
use tool_streams::arguments::read_words;
use tool_streams::messages::end_with;

/// The status of checks without a fault.
const WELL: u8 = 0;

/// The status of a check with a fault, or of words that name no check.
const BAD: u8 = 1;

const USAGE: &str = "usage: tool_checks [replays .. | stress [set] .. | bench ..]";

/// Runs the check that the program's arguments name, and returns the status. Writes the first fault of a check to `messages`.
pub fn run_program<
    R: Print + Eprint + Clock + Files + Threads + Wait + Sync + Env + AllocGlobal,
    O: Write,
    M: Write,
>(rt: &R, output: &mut O, messages: &mut M) -> u8 {
    let words = match read_words(rt) {
        Ok(Some(words)) => words,
        Ok(None) => return refuse(messages),
        Err(fault) => return end_with(&fault, messages),
    };
    match parse_check(words.as_slice()) {
        Some((check, rest)) => run_check(rt, check, rest, output, messages),
        None => refuse(messages),
    }
}

/// Writes the usage to `messages`, and returns the status.
fn refuse<M: Write>(messages: &mut M) -> u8 {
    let _ = writeln!(messages, "{USAGE}");
    BAD
}

/// Runs the check with these words for it, and returns the status.
fn run_check<
    R: Print + Eprint + Clock + Files + Threads + Wait + Sync + AllocGlobal,
    S: AsStr,
    O: Write,
    M: Write,
>(rt: &R, check: Check, words: &[S], output: &mut O, messages: &mut M) -> u8 {
    let alloc: Global = rt.alloc();
    match check {
        Check::All => {
            let replayed = run_replays(rt, alloc, words, output, messages);
            let rounds = run_rounds(rt, alloc, words, output, messages);
            let of_sets = run_set_rounds(rt, alloc, words, output, messages);
            let measured = status_of(check_all(rt), messages);
            replayed.max(rounds).max(of_sets).max(measured)
        }
        Check::Replays => run_replays(rt, alloc, words, output, messages),
        Check::Stress => run_stress(rt, alloc, words, output, messages),
        Check::Bench => status_of(run_bench(rt, words), messages),
    }
}

/// Runs rounds on a set if the first word is `set`, and else on a raw table. Returns the status.
fn run_stress<R: Threads + Wait + Sync + Clock, S: AsStr, O: Write, M: Write>(
    rt: &R,
    alloc: Global,
    words: &[S],
    output: &mut O,
    messages: &mut M,
) -> u8 {
    match words {
        [of, rest @ ..] if of.as_str() == "set" => {
            run_set_rounds(rt, alloc, rest, output, messages)
        }
        _ => run_rounds(rt, alloc, words, output, messages),
    }
}

/// Returns the status of measurements with this result. Writes an error to `messages`.
fn status_of<M: Write>(ended: io::Result<()>, messages: &mut M) -> u8 {
    match ended {
        Ok(()) => WELL,
        Err(error) => {
            let _ = writeln!(messages, "{error}");
            BAD
        }
    }
}
