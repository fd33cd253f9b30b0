//! Tests of the program's commands, over streams in memory.
mod lines;
mod memory;
mod rows;
mod runs;
mod schedules;
mod streams;
mod words;
mod workers;

use lock_free_hashtable::raw::Low;
use std::alloc::Global;
use std::fmt::Debug;
use std::io::Read;
use std::process::Abort;
use std::str;
use std::sync::Wait;
use std::test::Fail;
use std::thread::Threads;
use testkit::refusing::{Refusing, Rule};
use tool_commands::gate::{Gates, ProgramGates};
use tool_commands::program::run_words_under;

/// What a run of the program and a test of it need from the runtime.
trait Host: Threads + Wait + AllocGlobal + Abort + Sync {}

impl<R: Threads + Wait + AllocGlobal + Abort + Sync> Host for R {}

/// What a run printed, and its status.
#[derive(Drop)]
struct Ended {
    status: u8,
    output: Vec<u8>,
    messages: Vec<u8>,
}

impl Ended {
    /// Returns what was printed. The program prints ASCII only.
    fn text(&self) -> &str {
        str::from_utf8(self.output.as_slice()).unwrap_or("no text")
    }

    /// Asserts what was printed, the message, and the status.
    fn assert(&self, rt: &impl Abort, output: &str, message: &str, status: u8) {
        assert_same(rt, self.output.as_slice(), output.as_bytes());
        assert_same(rt, self.messages.as_slice(), message.as_bytes());
        assert_same(rt, self.status, status);
    }
}

/// Asserts that `got` equals `wanted`.
fn assert_same<X: PartialEq + Debug + Drop>(rt: &impl Abort, got: X, wanted: X) {
    assert_eq!(rt; got, wanted);
}

/// Runs the command with these words under these gates. Its memory comes from `alloc`.
fn run_under<A: Low + Copy + Send + Sync, G: Gates, I: Read + Drop>(
    rt: &impl Host,
    alloc: A,
    gates: &G,
    words: &[&str],
    input: I,
) -> Ended {
    let (mut output, mut messages) = (Vec::new(rt.alloc()), Vec::new(rt.alloc()));
    let status = run_words_under(rt, alloc, gates, words, input, &mut output, &mut messages);
    Ended {
        status,
        output,
        messages,
    }
}

/// Runs the command with these words over the input.
fn run(rt: &impl Host, words: &[&str], input: &[u8]) -> Ended {
    run_under(rt, rt.alloc(), &ProgramGates, words, input)
}

/// Runs the command with these words over the input, on memory that refuses requests by this rule.
fn run_refusing(rt: &impl Host, rule: Rule, words: &[&str], input: &[u8]) -> Ended {
    let memory = Refusing::new(rt.alloc(), rule);
    run_under(rt, &memory, &ProgramGates, words, input)
}

/// Returns the first `count` lines of a text. `Err`: no memory.
fn first_lines(alloc: Global, text: &str, count: usize) -> Result<String, Fail> {
    let mut first = String::new(alloc);
    for line in text.lines().take(count) {
        writeln!(first, "{line}")?;
    }
    Ok(first)
}

/// Returns how many lines end in these bytes.
fn line_ends(bytes: &[u8]) -> usize {
    bytes.iter().filter(|byte| **byte == b'\n').count()
}

/// Lines of input, and the replies to them.
///
/// A script is a text of lines with `; ` between them. A line with a reply is `LINE = REPLY`. `A..B` means the lines `i K K` for each K
/// from A to B - 1, and `A..B << N` means such lines whose hashes are shifted left by N bits.
#[derive(Drop)]
struct Script {
    input: String,
    replies: String,
}

impl Script {
    /// Parses a script. `Err` means that a number can't be parsed, or that memory was refused.
    fn new(alloc: Global, text: &str) -> Result<Script, Fail> {
        let mut script = Script {
            input: String::new(alloc),
            replies: String::new(alloc),
        };
        for part in text.split("; ") {
            match part.split_once(" = ") {
                Some((line, reply)) => script.push(line, Some(reply))?,
                None => script.push(part, None)?,
            }
        }
        Ok(script)
    }

    /// Adds a line or a range of lines, each with this reply. `Err` means that a number can't be parsed, or that memory was refused.
    fn push(&mut self, line: &str, reply: Option<&str>) -> Result<(), Fail> {
        if let Some((from, rest)) = line.split_once("..") {
            let (to, shift) = rest.split_once(" << ").unwrap_or((rest, "0"));
            return self.push_range(from.parse()?, to.parse()?, shift.parse()?, reply);
        }
        writeln!(self.input, "{line}")?;
        self.push_reply(reply)
    }

    /// Adds an insert of each of these numbers, whose hashes are shifted left by `shift` bits. `Err` means that memory was refused.
    fn push_range(
        &mut self,
        from: u64,
        to: u64,
        shift: u32,
        reply: Option<&str>,
    ) -> Result<(), Fail> {
        for k in from..to {
            writeln!(self.input, "i {} {k}", k.wrapping_shl(shift))?;
            self.push_reply(reply)?;
        }
        Ok(())
    }

    fn push_reply(&mut self, reply: Option<&str>) -> Result<(), Fail> {
        if let Some(reply) = reply {
            writeln!(self.replies, "{reply}")?;
        }
        Ok(())
    }
}
