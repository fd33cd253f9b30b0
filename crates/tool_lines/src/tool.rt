//! The request of the arguments, and the fault by which a tool ends.
ghost use Rattle.std.specs.Prelude.{◌≡◌, ◌<◌, ◌≤◌, ◌↔◌, List, ℕ, map, IfSome, IfNone, IsTrue, Some};
ghost use Rattle.tool_lines.specs.Faults.{status_of};
ghost use Rattle.tool_lines.specs.Tools.{name_of, Asks, AsksTool, AsksRun, AsksThreads, HasOption, TakesCount, IsThreadCount, AsksHelp, IsHelp, names_in, usage, help};
ghost use Rattle.tool_lines.specs.declared.tool.Tool.{Tool as ToolOf};

use crate::faults::Fault;
use std::convert::AsStr;
use std::fmt;
use tool_streams::faults::RunFault;
use tool_streams::numbers::parse_decimal;

/// The most threads that a run may have.
pub const MOST_THREADS: u64 = 64;

/// A tool.
#[derive(Clone, Copy)]
pub enum Tool {
    Words,
    Dedup,
}

/// The request that the arguments after the program's name make.
pub enum Request<'a, S> {
    /// Write the help text.
    Help,
    /// Run this tool by `threads` threads over the texts of these names, or over standard input if there are none.
    Run {
        tool: Tool,
        threads: usize,
        names: &'a [S],
    },
}

/// Parses the arguments after the program's name. Returns `None` if they make no request.
pub fn parse_request<S: AsStr>(words: &[S]) -> Option<Request<'_, S>>
    ensures asked { IfSome result (Asks (map S.text) (map S.text words.now)) }
    ensures no_tool { IfNone result ((tool : ToolOf) (threads : ℕ) (names : List (List ℕ))
        → ¬ AsksTool (map S.text words.now) tool threads names) }
    ensures no_help { IfNone result (¬ AsksHelp (map S.text words.now)) }
{
    if is_help(words) {
        return Some(Request::Help);
    }
    let [first, rest @ ..] = words else {
        return None;
    };
    let tool = parse_tool(first.as_str())?;
    if is_help(rest) {
        return Some(Request::Help);
    }
    match parse_run(rest) {
        Some((threads, names)) => Some(Request::Run {
            tool,
            threads,
            names,
        }),
        None => None,
    }
}

/// Returns the number of threads that the arguments after a tool's name ask for, and the names of texts.
fn parse_run<S: AsStr>(words: &[S]) -> Option<(usize, &[S])>
    ensures asked { IfSome result (λ r. AsksRun (map S.text words.now) r.0 (map S.text r.1.now)) }
    ensures none { IfNone result ((threads : ℕ) (names : List (List ℕ))
        → ¬ AsksRun (map S.text words.now) threads names) }
{
    match parse_threads(words) {
        Some((threads, rest)) => Some((threads, parse_names(rest))),
        None => None,
    }
}

/// Returns the number of threads that the arguments after a tool's name ask for, and the arguments after that.
fn parse_threads<S: AsStr>(words: &[S]) -> Option<(usize, &[S])>
    ensures asked { IfSome result (λ r. AsksThreads (map S.text words.now) r.0 (map S.text r.1.now)) }
    ensures none { IfNone result ((threads : ℕ) (rest : List (List ℕ))
        → ¬ AsksThreads (map S.text words.now) threads rest) }
{
    match after_option(words) {
        Some(behind) => take_count(behind),
        None => Some((1, words)),
    }
}

/// Returns the arguments after a first `--threads`.
fn after_option<S: AsStr>(words: &[S]) -> Option<&[S]>
    ensures behind { IfSome result (λ behind. HasOption (map S.text words.now) (map S.text behind.now)) }
    ensures none { IfNone result ((behind : List (List ℕ)) → ¬ HasOption (map S.text words.now) behind) }
{
    match words {
        [option, behind @ ..] if option.as_str() == "--threads" => Some(behind),
        _ => None,
    }
}

/// Returns the number of threads that the arguments begin with, and the others.
fn take_count<S: AsStr>(words: &[S]) -> Option<(usize, &[S])>
    ensures asked { IfSome result (λ r. TakesCount (map S.text words.now) r.0 (map S.text r.1.now)) }
    ensures none { IfNone result ((threads : ℕ) (rest : List (List ℕ))
        → ¬ TakesCount (map S.text words.now) threads rest) }
{
    let [number, rest @ ..] = words else {
        return None;
    };
    let threads = parse_thread_count(number.as_str().as_bytes())?;
    Some((threads, rest))
}

/// Parses a number of threads: 1 to 64, in 1 to 20 decimal digits.
pub(crate) fn parse_thread_count(text: &[u8]) -> Option<usize>
    ensures count { IfSome result (IsThreadCount text.now) }
    ensures none { IfNone result ((threads : ℕ) → ¬ IsThreadCount text.now threads) }
{
    let threads = parse_decimal(text)?;
    if threads == 0 || threads > MOST_THREADS {
        return None;
    }
    Some(threads as usize)
}

/// Returns whether the arguments are just `--help` or just `-h`.
fn is_help<S: AsStr>(words: &[S]) -> bool
    ensures { IsTrue result ↔ IsHelp (map S.text words.now) }
{
    match words {
        [word] => match word.as_str().as_bytes() {
            b"--help" | b"-h" => true,
            _ => false,
        },
        _ => false,
    }
}

/// Returns the tool of this name.
pub fn parse_tool(name: &str) -> Option<Tool>
    ensures named { IfSome result (λ tool. name.now ≡ name_of tool) }
    ensures wrong { IfNone result ((tool : ToolOf) → ¬ (name.now ≡ name_of tool)) }
{
    match name.as_bytes() {
        b"words" => Some(Tool::Words),
        b"dedup" => Some(Tool::Dedup),
        _ => None,
    }
}

/// Returns the names of texts among the arguments after a tool's name: all of them, without a first `--`.
fn parse_names<S: AsStr>(words: &[S]) -> &[S]
    ensures { map S.text result.now ≡ names_in (map S.text words.now) }
{
    match words {
        [first, names @ ..] if first.as_str() == "--" => names,
        _ => words,
    }
}

impl fmt::Display for Tool {
    ghost output = { λ t. Some (name_of t) };

    fn fmt<W: fmt::Write>(&self, f: &mut fmt::Formatter<W>) -> fmt::Result {
        match self {
            Tool::Words => write!(f, "words"),
            Tool::Dedup => write!(f, "dedup"),
        }
    }
}

/// A fault of a tool. It is printed after the tool's name and, if the fault lies in a text with a name, that name.
#[derive(Clone, Copy)]
pub(crate) struct ToolFault<'a> {
    pub(crate) tool: Tool,
    pub(crate) text: Option<&'a str>,
    pub(crate) fault: Fault,
}

impl fmt::Display for ToolFault<'_> {
    fn fmt<W: fmt::Write>(&self, f: &mut fmt::Formatter<W>) -> fmt::Result {
        match self.text {
            Some(text) => write!(f, "{}: {}: {}", self.tool, text, self.fault),
            None => write!(f, "{}: {}", self.tool, self.fault),
        }
    }
}

impl RunFault for ToolFault<'_> {
    ghost status_of = { λ f. status_of f.fault };

    fn status(&self) -> u8 {
        self.fault.status()
    }
}

/// The fault of arguments that make no request.
#[derive(Clone, Copy)]
pub(crate) struct Usage;

impl fmt::Display for Usage {
    ghost output = { λ _. Some usage };

    fn fmt<W: fmt::Write>(&self, f: &mut fmt::Formatter<W>) -> fmt::Result {
        write!(
            f,
            "usage: tool_text words [--threads N] [FILE..] | tool_text dedup [--threads N] [FILE..] | tool_text --help"
        )
    }
}

impl RunFault for Usage {
    ghost status_of = { λ _. 2 };

    fn status(&self) -> u8 {
        2
    }
}

/// The help text.
#[derive(Clone, Copy)]
pub(crate) struct Help;

impl fmt::Display for Help {
    ghost output = { λ _. Some help };

    fn fmt<W: fmt::Write>(&self, f: &mut fmt::Formatter<W>) -> fmt::Result {
        write!(
            f,
            "{Usage}\n\n  words  counts the words: for each different word its number, the word and its count\n"
        )?;
        write!(
            f,
            "  dedup  writes each different line once, in the order of first appearance\n\n"
        )?;
        write!(
            f,
            "Without a FILE, or where FILE is -, standard input is read. After -- each word is a FILE.\n"
        )?;
        write!(
            f,
            "N threads, from 1 to 64, read in large pieces, and write what one thread writes."
        )
    }
}
