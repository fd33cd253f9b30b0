//! The program `tool_memo`, over its arguments and streams.
ghost use Rattle.std.specs.Prelude.{◌≡◌, ◌⊎◌, ◌≤◌, ℕ, map, Some, IfSome, IfNone};
ghost use Rattle.tool_lines.specs.MemoArguments.{memo_usage, AsksMemo, NamesThreads};
ghost use Rattle.tool_lines.specs.declared.memo_program.MemoRequest.{MemoRequest as RequestOf};

use crate::memo_lines::run_memo;
use crate::memo_threads::run_memo_by;
use crate::tool::parse_thread_count;
use std::convert::AsStr;
use std::fmt;
use std::io::{Read, Write};
use std::rt::Env;
use std::thread::Threads;
use table_cell::Low;
use tool_streams::arguments::words_or_status;
use tool_streams::faults::RunFault;
use tool_streams::messages::end_with;

/// The request that the arguments after the program's name make.
#[derive(Clone, Copy)]
pub enum MemoRequest {
    /// Answer each line before more input is read.
    Lines,
    /// Answer batches of lines, each by this number of threads.
    Batches(usize),
}

/// Parses the arguments after the program's name: none, or `--threads N`. Returns `None` if they make no request.
pub fn parse_memo_request<S: AsStr>(words: &[S]) -> Option<MemoRequest>
    ensures asked { IfSome result (AsksMemo (map S.text words.now)) }
    ensures wrong { IfNone result ((request : RequestOf)
        → ¬ AsksMemo (map S.text words.now) request) }
{
    let [name, rest @ ..] = words else {
        return Some(MemoRequest::Lines);
    };
    match name.as_str().as_bytes() {
        b"--threads" => {
            let threads = parse_threads(rest)?;
            Some(MemoRequest::Batches(threads))
        }
        _ => None,
    }
}

/// Parses the argument after `--threads`: a number of threads, from 1 to 64.
fn parse_threads<S: AsStr>(words: &[S]) -> Option<usize>
    ensures named { IfSome result (NamesThreads (map S.text words.now)) }
    ensures wrong { IfNone result ((threads : ℕ) → ¬ NamesThreads (map S.text words.now) threads) }
{
    match words {
        [word] => parse_thread_count(word.as_str().as_bytes()),
        _ => None,
    }
}

/// The fault of arguments that make no request.
#[derive(Clone, Copy)]
struct MemoUsage;

impl fmt::Display for MemoUsage {
    ghost output = { λ _. Some memo_usage };

    fn fmt<W: fmt::Write>(&self, f: &mut fmt::Formatter<W>) -> fmt::Result {
        write!(f, "usage: tool_memo [--threads N]")
    }
}

impl RunFault for MemoUsage {
    ghost status_of = { λ _. 2 };

    fn status(&self) -> u8 {
        2
    }
}

/// Answers the lines of the input as the arguments in the environment ask, and returns the exit status. Arguments that are not UTF-8
/// ask for nothing.
pub fn run_memo_program<
    E: Env + Alloc + Threads + Sync,
    A: Low + Copy + Send + Sync,
    I: Read + Drop,
    O: Write,
    M: Write,
>(env: &E, alloc: A, input: I, output: &mut O, messages: &mut M) -> u8 {
    match words_or_status(env, &MemoUsage, messages) {
        Ok(words) => run_memo_over(env, alloc, words.as_slice(), input, output, messages),
        Err(status) => status,
    }
}

/// Answers the lines of the input as the arguments ask, and returns the exit status.
///
/// - 0: everything was written.
/// - 2: the arguments ask for nothing, or a line is wrong.
/// - 1: the system refused something.
///
/// If the arguments ask for nothing, nothing is read and only the usage is written.
pub fn run_memo_over<
    R: Threads + Sync,
    A: Low + Copy + Send + Sync,
    S: AsStr,
    I: Read + Drop,
    O: Write,
    M: Write,
>(rt: &R, alloc: A, words: &[S], input: I, output: &mut O, messages: &mut M) -> u8
    ensures status { (result ≡ 0) ⊎ ((result ≡ 1) ⊎ (result ≡ 2)) }
    ensures well { result ≡ 0 → messages.new ≡ messages.old }
    ensures wrong { ((request : RequestOf) → ¬ AsksMemo (map S.text words.now) request)
        → (result ≡ 2) × (output.new ≡ output.old) }
{
    match parse_memo_request(words) {
        Some(MemoRequest::Lines) => run_memo(alloc, input, output, messages),
        Some(MemoRequest::Batches(threads)) => {
            run_memo_by(rt, alloc, threads, input, output, messages)
        }
        None => end_with(&MemoUsage, messages),
    }
}
