//! Readers and writers that fail, and lines that are written before the tool reads on.
use super::{ALONE, DEDUP, EMPTY_SHELF, Split, WORDS, assert_ended, assert_same, run, run_writing};
use std::cell::RefCell;
use std::fmt::Debug;
use std::io;
use std::io::{ErrorKind, Read, Write};
use std::process::Abort;
use std::test::Fail;
use std::thread::Threads;
use testkit::streams::Failing;

pub(super) const INPUT: &[u8] = b"one\ntwo\none\n\nthree\ntwo";

/// What `dedup` writes for the input.
pub(super) const DEDUPED: &[u8] = b"one\ntwo\n\nthree\n";

/// Returns what `dedup` writes for the whole lines among the first `bytes` bytes of the input.
fn deduped_of(bytes: usize) -> &'static [u8] {
    match bytes {
        0..=3 => b"",
        4..=7 => b"one\n",
        8..=12 => b"one\ntwo\n",
        13..=18 => b"one\ntwo\n\n",
        _ => DEDUPED,
    }
}

/// How many bytes a reader gives at a call, and how many calls `dedup` by one thread makes for the 22 bytes of the input, besides interrupted
/// ones. The last call finds the end of the input, and no call follows it.
const CALLS: [(usize, u64); 4] = [(1, 23), (2, 12), (7, 5), (100, 2)];

/// Asserts what `dedup` writes, for each split, if the read after the first `given` ones fails. A read gives `at_once` bytes. `Err`: no
/// memory.
fn assert_fails_after(
    rt: &(impl Abort + Threads + AllocGlobal + Sync),
    at_once: usize,
    given: u64,
) -> Result<(), Fail> {
    let wanted = deduped_of((given as usize).saturating_mul(at_once));
    for split in [ALONE, ("2", 1), ("3", 5), ("8", 100)] {
        let input = Failing::new(INPUT, at_once, given).interrupted();
        let ended = run(rt, rt.alloc(), &EMPTY_SHELF, split, &[DEDUP], input)?;
        assert_ended(rt, &ended, wanted, "dedup: read failed\n", 1);
    }
    Ok(())
}

/// Asserts what `dedup` writes if each of `calls` reads fails in turn, and that by one thread it makes no more. A read gives `at_once`
/// bytes. `Err`: no memory.
fn fail_at_each_call(
    rt: &(impl Abort + Threads + AllocGlobal + Sync),
    at_once: usize,
    calls: u64,
) -> Result<(), Fail> {
    for given in 0..calls {
        assert_fails_after(rt, at_once, given)?;
    }
    let input = Failing::new(INPUT, at_once, calls).interrupted();
    let ended = run(rt, rt.alloc(), &EMPTY_SHELF, ALONE, &[DEDUP], input)?;
    assert_ended(rt, &ended, DEDUPED, "", 0);
    Ok(())
}

#[test]
fn a_reader_that_fails_at_each_call(rt: HostRuntime) -> Result<(), Fail> {
    for (at_once, calls) in &CALLS {
        fail_at_each_call(&rt, *at_once, *calls)?;
    }
    Ok(())
}

/// Asserts that `words` writes nothing if the read after the first `given` ones fails. `Err`: no memory.
fn assert_writes_no_words(
    rt: &(impl Abort + Threads + AllocGlobal + Sync),
    given: u64,
) -> Result<(), Fail> {
    for split in [ALONE, ("3", 4)] {
        let input = Failing::new(INPUT, 7, given).interrupted();
        let ended = run(rt, rt.alloc(), &EMPTY_SHELF, split, &[WORDS], input)?;
        assert_ended(rt, &ended, b"", "words: read failed\n", 1);
    }
    Ok(())
}

#[test]
fn words_of_a_reader_that_fails_are_not_written(rt: HostRuntime) -> Result<(), Fail> {
    for given in 0..5 {
        assert_writes_no_words(&rt, given)?;
    }
    Ok(())
}

/// A writer that takes `room` bytes and then fails with the error `then`.
#[derive(Drop)]
struct Full {
    room: usize,
    then: ErrorKind,
}

impl Write for Full {
    fn write(&mut self, bytes: &[u8]) -> io::Result<usize> {
        if self.room == 0 {
            return Err(io::Error::from(self.then));
        }
        let count = bytes.len().min(self.room);
        self.room -= count;
        Ok(count)
    }

    fn flush(&mut self) -> io::Result<()> {
        Ok(())
    }
}

/// Asserts the messages and the status of a tool that writes the output of its run over the input to `output`. `Err`: no memory.
fn assert_fills(
    rt: &(impl Abort + Threads + AllocGlobal + Sync),
    (tool, split): (&str, Split),
    mut output: Full,
    message: &str,
    wanted: u8,
) -> Result<(), Fail> {
    let (status, messages) = run_writing(rt, split, tool, INPUT, &mut output)?;
    assert_same(rt, messages.as_slice(), message.as_bytes());
    assert_same(rt, status, wanted);
    Ok(())
}

/// Tools, the splits of their runs, how many bytes their output takes before it fails, their messages and statuses.
const FULL: [(&str, Split, usize, &str, u8); 8] = [
    (DEDUP, ALONE, 0, "dedup: write failed\n", 1),
    (DEDUP, ALONE, 14, "dedup: write failed\n", 1),
    (DEDUP, ALONE, 15, "", 0),
    (DEDUP, ("3", 4), 3, "dedup: write failed\n", 1),
    (WORDS, ALONE, 0, "words: write failed\n", 1),
    (WORDS, ALONE, 25, "words: write failed\n", 1),
    (WORDS, ALONE, 26, "", 0),
    (WORDS, ("3", 4), 3, "words: write failed\n", 1),
];

#[test]
fn a_writer_that_is_full(rt: HostRuntime) -> Result<(), Fail> {
    for row in &FULL {
        let (tool, split, room, message, status) = *row;
        let then = ErrorKind::StorageFull;
        assert_fills(&rt, (tool, split), Full { room, then }, message, status)?;
    }
    Ok(())
}

/// Tools, and the splits of their runs.
const RUNS: [(&str, Split); 4] = [
    (WORDS, ALONE),
    (DEDUP, ALONE),
    (WORDS, ("3", 4)),
    (DEDUP, ("3", 4)),
];

#[test]
fn where_the_reader_has_gone_there_is_no_message(rt: HostRuntime) -> Result<(), Fail> {
    for (tool, split) in &RUNS {
        let then = ErrorKind::BrokenPipe;
        assert_fills(&rt, (*tool, *split), Full { room: 3, then }, "", 1)?;
    }
    Ok(())
}

/// Returns the error of a log that is in use.
fn busy() -> io::Error {
    io::Error::from(ErrorKind::ResourceBusy)
}

/// Asserts that the log holds these items.
fn assert_holds<T: PartialEq + Debug>(rt: &impl Abort, log: &RefCell<Vec<T>>, wanted: &[T]) {
    match log.try_borrow() {
        Ok(held) => assert_eq!(rt; held.as_slice(), wanted),
        Err(_) => assert!(rt; false),
    }
}

/// A reader that gives one piece a call. At each call it notes how many bytes were written before.
#[derive(Drop)]
struct Watching<'a> {
    pieces: &'a [&'a [u8]],
    written: &'a RefCell<Vec<u8>>,
    seen: &'a RefCell<Vec<usize>>,
}

impl Read for Watching<'_> {
    fn read(&mut self, buf: &mut [u8]) -> io::Result<usize> {
        let count = self.written.try_borrow().map_err(|_used| busy())?.len();
        self.seen
            .try_borrow_mut()
            .map_err(|_used| busy())?
            .push(count)?;
        let [piece, later @ ..] = self.pieces else {
            return Ok(0);
        };
        let taken = piece.len().min(buf.len());
        buf[..taken].copy_from_slice(&piece[..taken]);
        self.pieces = later;
        Ok(taken)
    }
}

/// A writer into a log that a reader can look at.
#[derive(Drop)]
struct Shown<'a> {
    written: &'a RefCell<Vec<u8>>,
}

impl Write for Shown<'_> {
    fn write(&mut self, bytes: &[u8]) -> io::Result<usize> {
        self.written
            .try_borrow_mut()
            .map_err(|_used| busy())?
            .extend_from_slice(bytes)?;
        Ok(bytes.len())
    }

    fn flush(&mut self) -> io::Result<()> {
        Ok(())
    }
}

/// The input, one line a call, and how many bytes were written before each call.
const BY_LINES: (&[&[u8]], &[usize]) = (
    &[b"one\n", b"two\n", b"one\n", b"\n", b"three\n", b"two"],
    &[0, 4, 8, 8, 9, 15, 15],
);

/// The input in pieces that end within a line, and how many bytes were written before each call. A whole line doesn't wait for the rest of
/// the next one.
const BY_HALVES: (&[&[u8]], &[usize]) = (
    &[b"one\ntw", b"o\none\n\nth", b"ree\ntwo"],
    &[0, 4, 9, 15],
);

/// Asserts how many bytes `dedup` has written before each call of a reader that gives these pieces. `Err`: no memory.
fn assert_written_before(
    rt: &(impl Abort + Threads + AllocGlobal + Sync),
    pieces: &[&[u8]],
    before: &[usize],
) -> Result<(), Fail> {
    let written = RefCell::new(Vec::new(rt.alloc()));
    let seen = RefCell::new(Vec::new(rt.alloc()));
    let input = Watching {
        pieces,
        written: &written,
        seen: &seen,
    };
    let mut output = Shown { written: &written };
    let (status, _) = run_writing(rt, ALONE, DEDUP, input, &mut output)?;
    assert_same(rt, status, 0);
    assert_holds(rt, &seen, before);
    assert_holds(rt, &written, DEDUPED);
    Ok(())
}

#[test]
fn a_line_is_there_when_the_next_is_asked_for(rt: HostRuntime) -> Result<(), Fail> {
    for (pieces, before) in [BY_LINES, BY_HALVES] {
        assert_written_before(&rt, pieces, before)?;
    }
    Ok(())
}
