//! Readers and writers that fail, and replies that are written before the next line is read.
use super::{Host, assert_same, first_lines, line_ends, run_under};
use std::alloc::Global;
use std::cell::Cell;
use std::io;
use std::io::{ErrorKind, Read, Write};
use std::test::Fail;
use testkit::streams::Failing;
use tool_commands::gate::ProgramGates;
use tool_commands::program::run_words;

const INPUT: &str = "i 0 1\ni 0 1\nl 0 1\nn\nw\n";

const REPLIES: &str = "placed\nfound\nsome 1\n1\n[1]\n";

/// Asserts that the replies to the lines read are printed if the first `given` reads succeed and the next one fails. `fails` says whether
/// the next one is made. `Err`: no memory.
fn assert_given(rt: &impl Host, at_once: usize, given: usize, fails: bool) -> Result<(), Fail> {
    let reader = Failing::new(INPUT.as_bytes(), at_once, given as u64);
    let bytes = given.saturating_mul(at_once).min(INPUT.len());
    let lines = line_ends(&INPUT.as_bytes()[..bytes]);
    let wanted = first_lines(rt.alloc(), REPLIES, lines)?;
    let (message, status) = if fails { ("read failed\n", 1) } else { ("", 0) };
    let ended = run_under(rt, rt.alloc(), &ProgramGates, &[], reader);
    ended.assert(rt, wanted.as_str(), message, status);
    Ok(())
}

#[test]
fn a_reader_that_fails_at_each_call(rt: HostRuntime) -> Result<(), Fail> {
    for at_once in [1, 2, 7, 100] {
        // The last call finds the end of the input.
        let calls = INPUT.len().div_ceil(at_once) + 1;
        for given in 0..=calls {
            assert_given(&rt, at_once, given, given < calls)?;
        }
    }
    Ok(())
}

#[test]
fn an_interrupted_read_is_tried_again(rt: HostRuntime) {
    for at_once in [1, 7, 100] {
        let reader = Failing::new(INPUT.as_bytes(), at_once, u64::MAX).interrupted();
        run_under(&rt, rt.alloc(), &ProgramGates, &[], reader).assert(&rt, REPLIES, "", 0);
    }
}

#[test]
fn a_reader_that_fails_in_a_long_line(rt: HostRuntime) -> Result<(), Fail> {
    let long = "0".repeat(rt.alloc(), 100_000)?;
    for given in [1, 2, 50] {
        let reader = Failing::new(long.as_bytes(), 1000, given);
        run_under(&rt, rt.alloc(), &ProgramGates, &[], reader).assert(&rt, "", "read failed\n", 1);
    }
    Ok(())
}

/// A writer into memory, some of whose calls fail. It notes how many bytes it has sent.
#[derive(Drop)]
struct Writer<'a> {
    /// The first call that fails, counted from 0, and the first after it that doesn't.
    failing: (u64, u64),
    /// Whether it takes one byte at a call, and sends what it took only when it is flushed.
    keeps: bool,
    calls: u64,
    taken: Vec<u8>,
    sent: &'a Cell<usize>,
}

impl<'a> Writer<'a> {
    fn new(alloc: Global, failing: (u64, u64), keeps: bool, sent: &'a Cell<usize>) -> Writer<'a> {
        Writer {
            failing,
            keeps,
            calls: 0,
            taken: Vec::new(alloc),
            sent,
        }
    }
}

impl Write for Writer<'_> {
    fn write(&mut self, buf: &[u8]) -> io::Result<usize> {
        let (from, to) = self.failing;
        let call = self.calls;
        self.calls = call.saturating_add(1);
        if from <= call && call < to {
            let is_full = to == u64::MAX;
            let kind = if is_full {
                ErrorKind::StorageFull
            } else {
                ErrorKind::Other
            };
            return Err(io::Error::from(kind));
        }
        let most = if self.keeps { 1 } else { usize::MAX };
        let count = buf.len().min(most);
        self.taken.extend_from_slice(&buf[..count])?;
        if !self.keeps {
            self.sent.set(self.taken.len());
        }
        Ok(count)
    }

    fn flush(&mut self) -> io::Result<()> {
        self.sent.set(self.taken.len());
        Ok(())
    }
}

/// Asserts what `calls` sends to a writer, the message, and the status.
fn assert_sent<I: Read + Drop>(
    rt: &impl Host,
    input: I,
    mut output: Writer<'_>,
    sent: &str,
    message: &str,
    status: u8,
) {
    let (alloc, words) = (rt.alloc(), ["calls"]);
    let mut messages = Vec::new(alloc);
    let ended = run_words(rt, alloc, &words, input, &mut output, &mut messages);
    assert_same(rt, output.taken.as_slice(), sent.as_bytes());
    assert_same(rt, output.sent.get(), sent.len());
    assert_same(rt, messages.as_slice(), message.as_bytes());
    assert_same(rt, ended, status);
}

#[test]
fn a_writer_that_fails_at_each_call(rt: HostRuntime) -> Result<(), Fail> {
    for given in 0..=5u8 {
        // One byte is read at a time, so each reply is written by a call of its own, before the next line is read.
        let reader = Failing::new(INPUT.as_bytes(), 1, u64::MAX);
        let sent = Cell::new(0);
        let output = Writer::new(rt.alloc(), (u64::from(given), u64::MAX), false, &sent);
        let wanted = first_lines(rt.alloc(), REPLIES, usize::from(given))?;
        let message = if given < 5 { "write failed\n" } else { "" };
        let status = u8::from(given < 5);
        assert_sent(&rt, reader, output, wanted.as_str(), message, status);
    }
    Ok(())
}

#[test]
fn the_first_failure_wins(rt: HostRuntime) {
    for (input, failing, message, status) in [
        // The reply before the bad line can't be written. Nothing is written before a bad first line, so its message is printed.
        ("i 0 1\nx\n", (0, u64::MAX), "write failed\n", 1),
        ("x\n", (0, u64::MAX), "bad line 1\n", 2),
        // A reply that could not be written isn't sent again.
        ("i 0 1\nn\n", (0, 1), "write failed\n", 1),
    ] {
        let sent = Cell::new(0);
        let output = Writer::new(rt.alloc(), failing, false, &sent);
        assert_sent(&rt, input.as_bytes(), output, "", message, status);
    }
}

#[test]
fn a_message_that_cannot_be_written_is_dropped(rt: HostRuntime) {
    for words in [["calls", "16"], ["calls", "24"]] {
        let sent = Cell::new(0);
        let mut output = Vec::new(rt.alloc());
        let mut messages = Writer::new(rt.alloc(), (0, u64::MAX), false, &sent);
        let input = b"n\nx\n".as_slice();
        let status = run_words(&rt, rt.alloc(), &words, input, &mut output, &mut messages);
        assert_same(&rt, status, 2);
        assert_same(&rt, sent.get(), 0);
    }
}

/// A reader that gives one line a call, and notes how many bytes were written before.
#[derive(Drop)]
pub(super) struct Asking<'a> {
    rest: &'a [u8],
    written: &'a Cell<usize>,
    seen: &'a mut Vec<usize>,
}

impl<'a> Asking<'a> {
    /// Makes a reader of this input.
    pub(super) fn new(
        rest: &'a [u8],
        written: &'a Cell<usize>,
        seen: &'a mut Vec<usize>,
    ) -> Asking<'a> {
        Asking {
            rest,
            written,
            seen,
        }
    }
}

impl Read for Asking<'_> {
    fn read(&mut self, buf: &mut [u8]) -> io::Result<usize> {
        self.seen.push(self.written.get())?;
        let line = match self.rest.iter().position(|byte| *byte == b'\n') {
            Some(end) => end.saturating_add(1),
            None => self.rest.len(),
        };
        let count = line.min(buf.len()).min(self.rest.len());
        let (now, later) = self.rest.split_at(count);
        buf[..count].copy_from_slice(now);
        self.rest = later;
        Ok(count)
    }
}

#[test]
fn each_reply_is_there_when_the_next_line_is_asked_for(rt: HostRuntime) {
    // The program flushes a writer that keeps what it takes.
    for keeps in [false, true] {
        let sent = Cell::new(0);
        let mut seen = Vec::new(rt.alloc());
        let reader = Asking::new(b"i 0 1\ni 0 1\nl 0 1\nn\nw", &sent, &mut seen);
        let output = Writer::new(rt.alloc(), (0, 0), keeps, &sent);
        assert_sent(&rt, reader, output, REPLIES, "", 0);
        // Nothing is written before the first call, and one more reply before each next one. The last line ends only with the input.
        assert_same(&rt, seen.as_slice(), [0, 7, 13, 20, 22, 22].as_slice());
    }
}
