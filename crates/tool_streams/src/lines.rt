//! The lines of a reader, of any length.
ghost use Rattle.std.specs.Prelude.{◌≡◌, IfOk};
ghost use Rattle.std.specs.Io.KnownBytes.{Keeps};
ghost use Rattle.tool_streams.specs.Lines.{lines_left, ReadsLine};

use crate::faults::StreamFault;
use std::alloc::Allocator;
use std::io::{BufRead, BufReader, ErrorKind, Read, Write};

/// The number of bytes that are read from the input at once.
const BLOCK: usize = 65536;

/// The lines of a reader: its bytes between line breaks (0A). A last part without a line break is a line too, unless it is empty.
#[derive(Drop)]
pub struct Lines<R: Read, A: Allocator + Copy> {
    reader: BufReader<R, A>,
    line: Vec<u8, A>,
    /// True after the reader's end was seen. The reader is not called again then.
    at_end: bool,
}

impl<R: Read + Drop, A: Allocator + Copy> Lines<R, A> {
    /// Makes the lines of this reader, of which nothing is read yet. Allocates a buffer.
    pub fn new(alloc: A, reader: R) -> Result<Lines<R, A>, StreamFault>
        ensures { IfOk result (λ lines. Keeps (R.remaining reader) (lines_left R.remaining lines)) }
    {
        match BufReader::with_capacity(alloc, BLOCK, reader) {
            Ok(reader) => Ok(Lines {
                reader,
                line: Vec::new(alloc),
                at_end: false,
            }),
            Err(_) => Err(StreamFault::NoMemory),
        }
    }

    /// Reads the next line, which `line` then returns, and returns whether there was one. If no whole line is buffered, it
    /// flushes the output first, since a read may wait. After the reader has reported its end it is not called again.
    pub fn read_line<W: Write>(&mut self, output: &mut W) -> Result<bool, StreamFault>
        ensures reads { IfOk result (λ found. ReadsLine (lines_left R.remaining self.old)
            (lines_left R.remaining self.new) self.new.line.items found) }
        ensures output { IfOk result (λ _. Keeps (W.contents output.old) (W.contents output.new)) }
    {
        if self.at_end {
            return Ok(false);
        }
        if !self.reader.buffer().contains(&b'\n') {
            output.flush().map_err(|_error| StreamFault::WriteFailed)?;
        }
        self.line.clear();
        match self.reader.read_until(b'\n', &mut self.line) {
            Ok(0) => {
                self.at_end = true;
                return Ok(false);
            }
            Ok(_) => {}
            Err(error) if error.kind() == ErrorKind::OutOfMemory => return Err(
                StreamFault::NoMemory,
            ),
            Err(_) => return Err(StreamFault::ReadFailed),
        }
        let last = self.line.len() - 1;
        if self.line[last] == b'\n' {
            self.line.truncate(last);
        } else {
            self.at_end = true;
        }
        Ok(true)
    }

    /// Returns the line that was read last, without its line break.
    pub fn line(&self) -> &[u8]
        ensures { result.now ≡ self.now.line.items }
    {
        self.line.as_slice()
    }
}
