//! The lines of a reader, none longer than a block. They need no heap memory.
ghost use Rattle.std.specs.Prelude.{◌≢◌, ◌≤◌, ◌<◌, IfSome, IfErr};
ghost use Rattle.tool_streams.specs.declared.blocks.TheConstants.{BLOCK};

use crate::blocks::{BLOCK, empty_block};
use crate::faults::StreamFault;
use std::io;
use std::io::{ErrorKind, Read, Write};

/// The next part of the input that ends at a line break or at the end.
#[derive(Clone, Copy)]
pub enum Next<'a> {
    /// A line, without its line break.
    Line(&'a [u8]),
    /// A line that is longer than a block.
    TooLong,
    End,
}

/// The lines of a reader. A last part without a line break is a line too, unless it is empty.
#[derive(Drop)]
pub struct ShortLines<R> {
    reader: R,
    block: [u8; BLOCK],
    /// The index at which the next line begins.
    start: usize,
    /// No line break lies between `start` and this index.
    searched: usize,
    /// The index at which the bytes read so far end.
    end: usize,
    /// True if the next line has lost its first bytes.
    too_long: bool,
    /// True after the reader has reported its end. The reader is not called again then.
    at_end: bool,
    ghost begun: { start ≤ searched },
    ghost found: { searched ≤ end },
    ghost in_block: { end ≤ BLOCK },
}

impl<R: Read> ShortLines<R> {
    /// Makes the lines of this reader, of which nothing is read yet.
    pub fn new(reader: R) -> ShortLines<R> {
        ShortLines {
            reader,
            block: empty_block(),
            start: 0,
            searched: 0,
            end: 0,
            too_long: false,
            at_end: false,
        }
    }

    /// Returns the next line. Flushes the output before each read, since a read may wait.
    pub fn next_line<W: Write>(&mut self, output: &mut W) -> Result<Next<'_>, StreamFault>
        ensures memory { IfErr result (λ fault. fault ≢ StreamFault.NoMemory) }
    {
        // Counted only so that the loop has an end.
        for _read in 0..u64::MAX {
            if let Some(line_break) = self.find_break() {
                let start = self.start;
                self.start = line_break + 1;
                self.searched = line_break + 1;
                return Ok(self.ended_line(start, line_break));
            }
            if self.at_end {
                return Ok(self.last_line());
            }
            output.flush().map_err(|_error| StreamFault::WriteFailed)?;
            self.refill().map_err(|_error| StreamFault::ReadFailed)?;
        }
        Err(StreamFault::ReadFailed)
    }

    /// Returns the index of the next line break.
    fn find_break(&mut self) -> Option<usize>
        ensures { IfSome result (λ at. (self.new.start ≤ at) × (at < self.new.end)) }
    {
        let found = self.block[self.searched..self.end]
            .iter()
            .position(|byte| *byte == b'\n');
        match found {
            Some(distance) => Some(self.searched + distance),
            None => {
                self.searched = self.end;
                None
            }
        }
    }

    /// Reads more bytes after those that are there. An interrupted read is no failure: the caller reads again.
    fn refill(&mut self) -> io::Result<()> {
        self.make_room();
        match self.reader.read(&mut self.block[self.end..]) {
            Ok(0) => self.at_end = true,
            Ok(count) => self.end += count,
            Err(error) if error.kind() == ErrorKind::Interrupted => (),
            Err(error) => return Err(error),
        }
        Ok(())
    }

    /// Moves the line that was begun to the front. If it fills the block, discards it as too long.
    fn make_room(&mut self) {
        if self.start == 0 && self.end == BLOCK {
            self.too_long = true;
            self.start = self.end;
            self.searched = self.end;
        }
        let start = self.start;
        let rest = self.end - start;
        self.block[..].copy_within(start..self.end, 0);
        self.start = 0;
        self.searched = rest;
        self.end = rest;
    }

    /// Returns the line from `start` to its line break.
    fn ended_line(&mut self, start: usize, line_break: usize) -> Next<'_>
        requires order { start ≤ line_break }
        requires in_block { line_break ≤ BLOCK }
    {
        if self.too_long {
            self.too_long = false;
            return Next::TooLong;
        }
        let lines = &*self;
        Next::Line(&lines.block[start..line_break])
    }

    /// Returns what is left at the end of the input.
    fn last_line(&mut self) -> Next<'_> {
        let start = self.start;
        self.start = self.end;
        self.searched = self.end;
        if self.too_long {
            self.too_long = false;
            return Next::TooLong;
        }
        let lines = &*self;
        if start == lines.end {
            return Next::End;
        }
        Next::Line(&lines.block[start..lines.end])
    }
}
