//! Tools read their input and write their output a block at a time, so they make few calls of the system.
use super::{ALONE, DEDUP, WORDS, assert_same, numbered_lines, run_writing};
use std::cell::Cell;
use std::io;
use std::io::{Read, Write};
use std::process::Abort;
use std::test::Fail;
use std::thread::Threads;

/// The number of bytes that a tool asks of its input at once.
const READ: usize = 65536;

/// The number of bytes of output that a tool keeps before it writes them.
const WRITTEN: usize = 16384;

/// How many lines the input has. Each has a hundred bytes.
const LINES: u64 = 1_500;

/// Adds `more` to the sum.
fn add_to(sum: &Cell<usize>, more: usize) {
    let before = sum.replace(0);
    sum.set(before.wrapping_add(more));
}

/// A reader that counts its calls.
#[derive(Drop)]
struct CountedReads<'a> {
    rest: &'a [u8],
    calls: &'a Cell<usize>,
}

impl Read for CountedReads<'_> {
    fn read(&mut self, buf: &mut [u8]) -> io::Result<usize> {
        add_to(self.calls, 1);
        self.rest.read(buf)
    }
}

/// A writer that counts its calls and the bytes that it takes.
#[derive(Drop)]
struct CountedWrites<'a> {
    calls: &'a Cell<usize>,
    bytes: &'a Cell<usize>,
}

impl Write for CountedWrites<'_> {
    fn write(&mut self, bytes: &[u8]) -> io::Result<usize> {
        add_to(self.calls, 1);
        add_to(self.bytes, bytes.len());
        Ok(bytes.len())
    }

    fn flush(&mut self) -> io::Result<()> {
        Ok(())
    }
}

/// Asserts that a tool makes at most one read for each block of input, and one write for each block of output and of input, plus three.
/// `Err`: no memory.
fn assert_by_blocks(
    rt: &(impl Abort + Threads + AllocGlobal + Sync),
    tool: &str,
    text: &str,
) -> Result<(), Fail> {
    let (reads, writes, written) = (Cell::new(0), Cell::new(0), Cell::new(0));
    let input = CountedReads {
        rest: text.as_bytes(),
        calls: &reads,
    };
    let mut output = CountedWrites {
        calls: &writes,
        bytes: &written,
    };
    let (status, _) = run_writing(rt, ALONE, tool, input, &mut output)?;
    assert_same(rt, status, 0);
    assert!(rt; written.get() >= text.len());
    assert!(rt; reads.get() <= text.len() / READ + 3);
    assert!(rt; writes.get() <= written.get() / WRITTEN + text.len() / READ + 3);
    Ok(())
}

#[test]
fn input_and_output_go_by_blocks(rt: HostRuntime) -> Result<(), Fail> {
    let text = numbered_lines(rt.alloc(), LINES, 100)?;
    for tool in [WORDS, DEDUP] {
        assert_by_blocks(&rt, tool, text.as_str())?;
    }
    Ok(())
}
