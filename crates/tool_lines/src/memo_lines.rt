//! The memo table over lines of numbers.
ghost use Rattle.std.specs.Prelude.{◌≡◌, ◌≢◌, ◌⊎◌, ◌++◌, ℕ, OnOk, IfErr, IfSome, IfNone, codes, decimal};
ghost use Rattle.std.specs.Io.KnownBytes.{Appends};
ghost use Rattle.tool_streams.specs.Faults.{IsCountedFromOne, line_status};
ghost use Rattle.tool_streams.specs.Numbers.{Writes};
ghost use Rattle.tool_streams.specs.declared.faults.LineFault.{LineFault as FaultOf};
ghost use Rattle.tool_lines.specs.Fibonacci.{fibonacci_word};

use crate::memo::Memo;
use std::alloc::Allocator;
use std::io::{Read, Write};
use tool_streams::faults::{LineFault, StreamFault};
use tool_streams::line_command::{LineCommand, take_lines};
use tool_streams::messages::end_with;
use tool_streams::numbers::parse_decimal;
use tool_streams::output::Output;
use tool_streams::short_lines::ShortLines;

impl<A: Allocator + Copy> LineCommand for Memo<A> {
    type Line = u64;

    ghost spells = { Writes 10 20 };

    /// Parses a line: 1 to 20 decimal digits of a number below 2^64.
    fn parse(text: &[u8]) -> Option<u64> {
        parse_decimal(text)
    }

    /// Writes the Fibonacci number of the argument, modulo 2^64, on a line of its own.
    fn take<W: Write>(&mut self, line: u64, output: &mut W) -> Result<(), StreamFault>
        ensures fault { IfErr result (λ fault. fault ≢ StreamFault.ReadFailed) }
        ensures answered { OnOk result (Appends (W.contents output.old) (W.contents output.new)
            (decimal (fibonacci_word line) ++ codes "\n")) }
    {
        let Ok(answer) = self.fibonacci(line) else {
            return Err(StreamFault::NoMemory);
        };
        match writeln!(output, "{answer}") {
            Ok(()) => Ok(()),
            Err(_) => Err(StreamFault::WriteFailed),
        }
    }
}

/// Answers the lines of the input, each before it reads more input, and returns the exit status. If there is a fault, it writes
/// the message to `messages`, after the answers to the lines before it.
pub fn run_memo<A: Allocator + Copy, I: Read + Drop, O: Write, M: Write>(
    alloc: A,
    input: I,
    output: &mut O,
    messages: &mut M,
) -> u8
    ensures status { (result ≡ 0) ⊎ ((fault : FaultOf) × (result ≡ line_status fault)) }
    ensures well { result ≡ 0 → messages.new ≡ messages.old }
{
    match answer_lines(alloc, input, output) {
        Ok(()) => 0,
        Err(fault) => end_with(&fault, messages),
    }
}

/// Answers the lines of the input.
fn answer_lines<A: Allocator + Copy, I: Read + Drop, O: Write>(
    alloc: A,
    input: I,
    output: &mut O,
) -> Result<(), LineFault>
    ensures counted { IfErr result IsCountedFromOne }
{
    let mut memo = Memo::new(alloc);
    let mut lines = ShortLines::new(input);
    let mut output = Output::new(output);
    let ended = take_lines(&mut memo, &mut lines, &mut output);
    if output.flush().is_err() {
        return Err(LineFault::Stream(StreamFault::WriteFailed));
    }
    ended
}
