//! The program, over its arguments and streams.
ghost use Rattle.std.specs.Prelude.{◌≡◌, ◌⊎◌, IfErr, map};
ghost use Rattle.tool_commands.specs.Arguments.{NamesCommand, IsRunnable, IsFaultOf};
ghost use Rattle.tool_commands.specs.Faults.{status_of};
ghost use Rattle.tool_commands.specs.declared.arguments.Command.{Command as CommandOf};
ghost use Rattle.tool_commands.specs.declared.faults.Fault.{Fault as FaultOf};

use crate::arguments::{Command, parse_command};
use crate::calls::run_pairs;
use crate::faults::Fault;
use crate::gate::{Gates, ProgramGates};
use crate::jobs::Crew;
use crate::lines::run_lines;
use crate::schedules::Schedule;
use crate::seats::{WORKER_STACK, run_seats};
use crate::shards::run_shards;
use crate::stores::RawPairs;
use crate::stress::run_stress;
use std::convert::AsStr;
use std::io::{Read, Write};
use std::rt::Env;
use std::sync::Wait;
use std::thread::Threads;
use table_cell::Low;
use tool_streams::arguments::words_or_status;
use tool_streams::faults::StreamFault;
use tool_streams::messages::end_with;
use tool_streams::output::Output;
use tool_streams::short_lines::ShortLines;

/// Runs the command that the arguments in the environment name, and returns the exit status; see `run_words`. Arguments that are
/// not UTF-8 name no command.
pub fn run_program<
    R: Threads + Wait + Sync,
    E: Env + Alloc,
    A: Low + Copy + Send + Sync,
    I: Read + Drop,
    O: Write,
    M: Write,
>(rt: &R, env: &E, alloc: A, input: I, output: &mut O, messages: &mut M) -> u8 {
    match words_or_status(env, &Fault::Usage, messages) {
        Ok(words) => run_words(rt, alloc, words.as_slice(), input, output, messages),
        Err(status) => status,
    }
}

/// Runs the command that is named by the arguments after the program's name, and returns the exit status. Replies go to the
/// output and the message of a fault to `messages`, each on a line of its own. A message that can't be written is dropped. If the
/// arguments name no command, nothing is read and only the usage is written.
pub fn run_words<
    R: Threads + Wait + Sync,
    A: Low + Copy + Send + Sync,
    S: AsStr,
    I: Read + Drop,
    O: Write,
    M: Write,
>(rt: &R, alloc: A, words: &[S], input: I, output: &mut O, messages: &mut M) -> u8
    ensures status { (result ≡ 0) ⊎ ((fault : FaultOf) × (result ≡ status_of fault)) }
    ensures well { result ≡ 0 → messages.new ≡ messages.old }
    ensures wrong { ((command : CommandOf) → ¬ NamesCommand (map S.text words.now) command)
        → (result ≡ status_of Fault.Usage) × (output.new ≡ output.old) }
{
    run_words_under(rt, alloc, &ProgramGates, words, input, output, messages)
}

/// Does what `run_words` does, with these gates in place of the program's own.
pub fn run_words_under<
    R: Threads + Wait + Sync,
    A: Low + Copy + Send + Sync,
    G: Gates,
    S: AsStr,
    I: Read + Drop,
    O: Write,
    M: Write,
>(rt: &R, alloc: A, gates: &G, words: &[S], input: I, output: &mut O, messages: &mut M) -> u8
    ensures status { (result ≡ 0) ⊎ ((fault : FaultOf) × (result ≡ status_of fault)) }
    ensures well { result ≡ 0 → messages.new ≡ messages.old }
    ensures wrong { ((command : CommandOf) → ¬ NamesCommand (map S.text words.now) command)
        → (result ≡ status_of Fault.Usage) × (output.new ≡ output.old) }
{
    let Some(command) = parse_command(words) else {
        return end_with(&Fault::Usage, messages);
    };
    match run_command(rt, alloc, gates, command, input, output) {
        Ok(()) => 0,
        Err(fault) => end_with(&fault, messages),
    }
}

/// Runs the command under these gates. The replies to the lines before a fault are written.
fn run_command<
    R: Threads + Wait + Sync,
    A: Low + Copy + Send + Sync,
    G: Gates,
    I: Read + Drop,
    O: Write,
>(rt: &R, alloc: A, gates: &G, command: Command, input: I, output: &mut O) -> Result<(), Fault>
    requires { IsRunnable command }
    ensures fault { IfErr result (IsFaultOf command) }
{
    let mut lines = ShortLines::new(input);
    let mut output = Output::new(output);
    let ended = run_lines_of(rt, alloc, gates, command, &mut lines, &mut output);
    match output.flush() {
        Ok(()) => ended,
        Err(_) => Err(Fault::Stream(StreamFault::WriteFailed)),
    }
}

/// Runs the command on these lines, under these gates. The output may still hold back replies.
fn run_lines_of<R: Threads + Wait + Sync, A: Low + Copy + Send + Sync, G: Gates, I: Read, O: Write>(
    rt: &R,
    alloc: A,
    gates: &G,
    command: Command,
    lines: &mut ShortLines<I>,
    output: &mut Output<O>,
) -> Result<(), Fault>
    requires { IsRunnable command }
    ensures fault { IfErr result (IsFaultOf command) }
{
    match command {
        Command::Calls { first } => run_pairs(alloc, RawPairs::new(alloc, first), lines, output),
        Command::Shards { shards, first } => run_shards(&alloc, shards, first, lines, output),
        Command::Core { first } => {
            let mut schedule = Schedule::new(alloc, first);
            run_lines(&mut schedule, lines, output)
        }
        Command::Stress { threads, jobs } => {
            let crew = Crew::new(threads, WORKER_STACK);
            run_stress(rt, alloc, crew, jobs, gates, output)
        }
        Command::Seats { threads } => {
            run_seats(rt, alloc, threads, WORKER_STACK, &gates.gate(), output)
        }
    }
}
