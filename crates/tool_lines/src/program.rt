//! The program, over its arguments, files and streams.
ghost use Rattle.std.specs.Prelude.{◌≡◌, ◌⊎◌, ◌++◌, ℕ, List, map, codes, OnOk, IfSome};
ghost use Rattle.std.specs.Io.KnownBytes.{Appends};
ghost use Rattle.tool_lines.specs.Tools.{AsksTool, AsksHelp, help, written_by};
ghost use Rattle.tool_lines.specs.declared.tool.Tool.{Tool as ToolOf};

use crate::faults::Fault;
use crate::line_set::LineSet;
use crate::line_tool::take_texts;
use crate::parallel::rounds;
use crate::parallel::rounds::{RoundTool, Split};
use crate::texts::{NamedTexts, OneText, TextFiles, Texts};
use crate::tool::{Help, Request, Tool, ToolFault, Usage, parse_request};
use crate::word_counts::WordCounts;
use bumpalo::Bump;
use std::alloc::Allocator;
use std::convert::AsStr;
use std::io::{Read, Write};
use std::rt::Env;
use std::thread::Threads;
use tool_streams::arguments::words_or_status;
use tool_streams::faults::StreamFault;
use tool_streams::messages::end_with;
use tool_streams::output::Output;

/// The bytes of a piece of a text in the program.
pub const PIECE: usize = 1 << 20;

/// What a run stands on.
#[derive(Clone, Copy)]
pub struct Host<'a, R, F, A> {
    pub rt: &'a R,
    pub files: &'a F,
    pub alloc: A,
    /// The number of bytes after which a piece of a text ends with the line, if several threads run.
    pub piece: usize,
}

/// Runs the tool that the arguments in the environment name, and returns the exit status; see `run_over`. Arguments that are not
/// UTF-8 name no tool.
pub fn run_program<
    E: Env + Alloc,
    R: Threads + Sync,
    F: TextFiles,
    A: Allocator + Copy + Send + Sync,
    I: Read + Drop,
    O: Write,
    M: Write,
>(env: &E, host: &Host<'_, R, F, A>, input: I, output: &mut O, messages: &mut M) -> u8 {
    match words_or_status(env, &Usage, messages) {
        Ok(words) => run_over(host, words.as_slice(), input, output, messages),
        Err(status) => status,
    }
}

/// Runs the tool that the arguments name, or writes help, and returns the exit status.
///
/// - 0: everything was written.
/// - 2: the arguments name nothing, or a line is wrong.
/// - 1: the system refused something.
///
/// If the arguments name nothing, nothing is read and only the usage is written. The message of a fault goes to `messages`, on a
/// line of its own, after the tool's name. A message that can't be written is dropped. If the reader of the output has closed it
/// there is no message.
pub fn run_over<
    R: Threads + Sync,
    F: TextFiles,
    A: Allocator + Copy + Send + Sync,
    S: AsStr,
    I: Read + Drop,
    O: Write,
    M: Write,
>(host: &Host<'_, R, F, A>, words: &[S], input: I, output: &mut O, messages: &mut M) -> u8
    ensures status { (result ≡ 0) ⊎ ((result ≡ 1) ⊎ (result ≡ 2)) }
    ensures well { result ≡ 0 → messages.new ≡ messages.old }
    ensures wrong { ((tool : ToolOf) (threads : ℕ) (names : List (List ℕ))
        → ¬ AsksTool (map S.text words.now) tool threads names) → ¬ AsksHelp (map S.text words.now)
        → (result ≡ 2) × (output.new ≡ output.old) }
{
    match parse_request(words) {
        Some(Request::Help) => write_help(output, messages),
        Some(
            Request::Run {
                tool,
                threads,
                names: [],
            },
        ) => run_over_texts(host, tool, threads, OneText::new(input), output, messages),
        Some(
            Request::Run {
                tool,
                threads,
                names,
            },
        ) => {
            let texts = NamedTexts::new(host.files, names, input);
            run_over_texts(host, tool, threads, texts, output, messages)
        }
        None => end_with(&Usage, messages),
    }
}

/// Writes the help text, and returns the exit status.
fn write_help<O: Write, M: Write>(output: &mut O, messages: &mut M) -> u8
    ensures status { (result ≡ 0) ⊎ (result ≡ 1) }
    ensures well { result ≡ 0 → messages.new ≡ messages.old }
    ensures written { result ≡ 0 → Appends (O.contents output.old) (O.contents output.new)
        (help ++ codes "\n") }
{
    match writeln!(output, "{Help}") {
        Ok(()) => 0,
        Err(_) => end_with(&StreamFault::WriteFailed, messages),
    }
}

/// Runs the tool over the texts, writes the message of a fault, and returns the exit status.
fn run_over_texts<
    R: Threads + Sync,
    F,
    A: Allocator + Copy + Send + Sync,
    T: Texts + Drop,
    O: Write,
    M: Write,
>(
    host: &Host<'_, R, F, A>,
    tool: Tool,
    threads: usize,
    mut texts: T,
    output: &mut O,
    messages: &mut M,
) -> u8
    ensures status { (result ≡ 0) ⊎ ((result ≡ 1) ⊎ (result ≡ 2)) }
    ensures well { result ≡ 0 → messages.new ≡ messages.old }
{
    match run_buffered(host, tool, threads, &mut texts, output) {
        Ok(()) => 0,
        Err(Fault::ReaderGone) => 1,
        Err(fault) => {
            let text = blamed(texts.name(), fault);
            end_with(&ToolFault { tool, text, fault }, messages)
        }
    }
}

/// Returns the name of the text that was read last, if the fault lies in it.
fn blamed(name: Option<&str>, fault: Fault) -> Option<&str> {
    if fault.is_of_text() {
        return name;
    }
    None
}

/// Runs the tool over the texts through a buffered output. Buffered bytes are written before a fault is returned, too.
fn run_buffered<R: Threads + Sync, F, A: Allocator + Copy + Send + Sync, T: Texts, O: Write>(
    host: &Host<'_, R, F, A>,
    tool: Tool,
    threads: usize,
    texts: &mut T,
    output: &mut O,
) -> Result<(), Fault> {
    let mut output = Output::new(output);
    let ended = if threads == 1 {
        run_tool(tool, host.alloc, texts, &mut output)
    } else {
        let split = Split {
            threads,
            piece: host.piece,
        };
        run_rounds(host.rt, host.alloc, split, tool, texts, &mut output)
    };
    let flushed = output.flush();
    if output.is_reader_gone() {
        return Err(Fault::ReaderGone);
    }
    flushed.map_err(|_error| StreamFault::WriteFailed)?;
    ended
}

/// Runs the tool over the texts.
///
/// `dedup` writes each line that is not equal to an earlier one, with a line break, as it comes. `words` reads the texts to their
/// ends, and then writes each different word with its number and its count, in the order of first appearance. If a line is not
/// UTF-8, `words` writes nothing. What the lines so far have to write is flushed before more input is waited for.
pub fn run_tool<A: Allocator + Copy, T: Texts, O: Write>(
    tool: Tool,
    alloc: A,
    texts: &mut T,
    output: &mut O,
) -> Result<(), Fault>
    ensures { OnOk result (IfSome (T.left texts.old) (λ all.
        Appends (O.contents output.old) (O.contents output.new) (written_by tool all))) }
{
    let arena = Bump::new(alloc);
    match tool {
        Tool::Words => {
            let mut words = WordCounts::new(alloc, &arena);
            take_texts(alloc, &mut words, texts, output)?;
            words.write_to(output)
        }
        Tool::Dedup => {
            let mut seen = LineSet::<&[u8], _>::new(&arena);
            take_texts(alloc, &mut seen, texts, output)
        }
    }
}

/// Runs the tool over the texts by several threads, as `run_tool` does.
pub fn run_rounds<R: Threads + Sync, A: Allocator + Copy + Send + Sync, T: Texts, O: Write>(
    rt: &R,
    alloc: A,
    split: Split,
    tool: Tool,
    texts: &mut T,
    output: &mut O,
) -> Result<(), Fault> {
    let mut tool = RoundTool::new(tool, alloc, split.threads)?;
    rounds::take_texts(rt, alloc, split, &mut tool, texts, output)?;
    tool.end(rt, output)
}
