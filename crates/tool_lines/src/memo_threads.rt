//! The memo table over lines of numbers, by several threads.
ghost use Rattle.std.specs.Prelude.{◌≡◌, ◌≢◌, ◌⊎◌, ◌<◌, ◌≤◌, OnOk, IfErr};
ghost use Rattle.std.specs.Io.KnownBytes.{Appends};
ghost use Rattle.tool_streams.specs.Faults.{IsCountedFromOne, line_status};
ghost use Rattle.tool_streams.specs.declared.faults.LineFault.{LineFault as FaultOf};
ghost use Rattle.tool_lines.specs.Replies.{reply, replies};

use crate::memo_shared::{Answers, Solver};
use shared_set::SharedSet;
use std::alloc::AllocError;
use std::io::{Read, Write};
use std::thread;
use std::thread::Threads;
use table_cell::Low;
use tool_streams::faults::{LineFault, StreamFault};
use tool_streams::messages::end_with;
use tool_streams::numbers::parse_decimal;
use tool_streams::output::Output;
use tool_streams::short_lines::{Next, ShortLines};

/// The most lines that are read before they are answered.
const MOST_LINES: usize = 4096;

/// Why lines that were read are answered now.
#[derive(Clone, Copy)]
enum Pause {
    /// There are as many as may be.
    Full,
    /// The input has ended.
    End,
    /// The next line can't be parsed.
    BadLine,
    /// The system refused something.
    Fault(StreamFault),
}

/// Computes the Fibonacci numbers of the arguments, and stores them. An `Err` means that memory was refused.
fn solve_part<A: Low + Copy>(answers: &Answers<A>, arguments: &[u64]) -> Result<(), AllocError> {
    let mut solver = Solver::new(answers);
    for argument in arguments {
        solver.fibonacci(*argument)?;
    }
    Ok(())
}

/// Computes the Fibonacci numbers of the arguments by at most `threads` threads, and stores them. If memory is refused, some are not stored.
fn solve<R: Threads + Sync, A: Low + Copy + Send + Sync>(
    rt: &R,
    alloc: A,
    threads: usize,
    answers: &Answers<A>,
    arguments: &[u64],
)
    requires { 0 < threads }
{
    let size = arguments.len().div_ceil(threads).max(1);
    let _ = thread::map_chunks(
        rt,
        alloc,
        arguments,
        size,
        &|_, part: &[u64]| { solve_part(answers, part).is_ok() },
    );
}

/// Writes the Fibonacci number of the argument, modulo 2^64, on a line of its own.
fn write_reply<A: Low + Copy, W: Write>(
    solver: &mut Solver<'_, A>,
    argument: u64,
    output: &mut W,
) -> Result<(), StreamFault>
    ensures fault { IfErr result (λ fault. fault ≢ StreamFault.ReadFailed) }
    ensures answered { OnOk result (Appends (W.contents output.old) (W.contents output.new)
        (reply argument)) }
{
    let Ok(answer) = solver.fibonacci(argument) else {
        return Err(StreamFault::NoMemory);
    };
    match writeln!(output, "{answer}") {
        Ok(()) => Ok(()),
        Err(_) => Err(StreamFault::WriteFailed),
    }
}

/// Writes the Fibonacci number of each argument, modulo 2^64, on a line of its own, in the order of the arguments.
fn write_replies<A: Low + Copy, W: Write>(
    solver: &mut Solver<'_, A>,
    arguments: &[u64],
    output: &mut W,
) -> Result<(), StreamFault>
    ensures fault { IfErr result (λ fault. fault ≢ StreamFault.ReadFailed) }
    ensures answered { OnOk result (Appends (W.contents output.old) (W.contents output.new)
        (replies arguments.now)) }
{
    for argument in arguments {
        write_reply(solver, *argument, output)?;
    }
    Ok(())
}

/// Reads lines, and adds their numbers to the batch, until there are as many as may be or the next line can't be had.
fn read_batch<A: Low + Copy, I: Read, O: Write>(
    lines: &mut ShortLines<I>,
    output: &mut Output<O>,
    batch: &mut Vec<u64, A>,
) -> Pause {
    for _read in 0..MOST_LINES {
        let text = match lines.next_line(output) {
            Ok(Next::Line(text)) => text,
            Ok(Next::TooLong) => return Pause::BadLine,
            Ok(Next::End) => return Pause::End,
            Err(fault) => return Pause::Fault(fault),
        };
        let Some(argument) = parse_decimal(text) else {
            return Pause::BadLine;
        };
        if batch.push(argument).is_err() {
            return Pause::Fault(StreamFault::NoMemory);
        }
    }
    Pause::Full
}

/// Answers the lines of the input, batch by batch.
fn answer_batches<R: Threads + Sync, A: Low + Copy + Send + Sync, I: Read, O: Write>(
    rt: &R,
    alloc: A,
    threads: usize,
    lines: &mut ShortLines<I>,
    output: &mut Output<O>,
) -> Result<(), LineFault>
    requires { 0 < threads }
    ensures counted { IfErr result IsCountedFromOne }
{
    let Ok(answers) = SharedSet::new(alloc) else {
        return Err(LineFault::Stream(StreamFault::NoMemory));
    };
    let mut solver = Solver::new(&answers);
    let mut batch = Vec::new(alloc);
    let mut before = 0u64;
    // Counted only so that the loop has an end.
    for _batch in 0..u64::MAX {
        batch.clear();
        let pause = read_batch(lines, output, &mut batch);
        solve(rt, alloc, threads, &answers, batch.as_slice());
        write_replies(&mut solver, batch.as_slice(), output)?;
        before = before.saturating_add(batch.len() as u64);
        match pause {
            Pause::Full => {}
            Pause::End => return Ok(()),
            Pause::BadLine => return Err(LineFault::BadLine(before.saturating_add(1))),
            Pause::Fault(fault) => return Err(LineFault::Stream(fault)),
        }
    }
    Err(LineFault::Stream(StreamFault::ReadFailed))
}

/// Answers the lines of the input by `threads` threads, in the order of the lines, and returns the exit status. It answers up to 4096 lines
/// at once. If there is a fault, it writes the message to `messages`, after the answers to the lines before it.
pub fn run_memo_by<
    R: Threads + Sync,
    A: Low + Copy + Send + Sync,
    I: Read + Drop,
    O: Write,
    M: Write,
>(rt: &R, alloc: A, threads: usize, input: I, output: &mut O, messages: &mut M) -> u8
    requires { 0 < threads }
    ensures status { (result ≡ 0) ⊎ ((fault : FaultOf) × (result ≡ line_status fault)) }
    ensures well { result ≡ 0 → messages.new ≡ messages.old }
{
    match answer_lines_by(rt, alloc, threads, input, output) {
        Ok(()) => 0,
        Err(fault) => end_with(&fault, messages),
    }
}

/// Answers the lines of the input by `threads` threads.
fn answer_lines_by<R: Threads + Sync, A: Low + Copy + Send + Sync, I: Read + Drop, O: Write>(
    rt: &R,
    alloc: A,
    threads: usize,
    input: I,
    output: &mut O,
) -> Result<(), LineFault>
    requires { 0 < threads }
    ensures counted { IfErr result IsCountedFromOne }
{
    let mut lines = ShortLines::new(input);
    let mut output = Output::new(output);
    let ended = answer_batches(rt, alloc, threads, &mut lines, &mut output);
    if output.flush().is_err() {
        return Err(LineFault::Stream(StreamFault::WriteFailed));
    }
    ended
}
