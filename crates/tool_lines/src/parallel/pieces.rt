//! The pieces of a text.
use std::alloc::Allocator;
use std::io;
use std::io::{BufRead, BufReader, ErrorKind, Read};
use tool_streams::faults::StreamFault;

/// The number of bytes that are read from the input at once.
const BLOCK: usize = 65536;

/// The pieces of a reader. A piece has `length` bytes and the rest of their last line, or else it is the last one.
#[derive(Drop)]
pub struct Pieces<R: Read, A: Allocator + Copy> {
    reader: BufReader<R, A>,
    alloc: A,
    /// The number of bytes after which a piece ends with the line.
    length: usize,
    /// True after the reader's end was seen, or a call of it has failed. The reader is not called again then.
    at_end: bool,
    /// The reason for which the reader is not called again, if that isn't its end.
    fault: Option<StreamFault>,
}

impl<R: Read + Drop, A: Allocator + Copy> Pieces<R, A> {
    /// Makes the pieces of this reader, of which nothing is read yet. Allocates a buffer.
    pub fn new(alloc: A, reader: R, length: usize) -> Result<Pieces<R, A>, StreamFault> {
        match BufReader::with_capacity(alloc, BLOCK, reader) {
            Ok(reader) => Ok(Pieces {
                reader,
                alloc,
                length,
                at_end: false,
                fault: None,
            }),
            Err(_) => Err(StreamFault::NoMemory),
        }
    }

    /// Returns the reason for which there is no other piece, if that isn't the reader's end.
    pub fn fault(&self) -> Option<StreamFault> {
        self.fault
    }

    /// Reads the next pieces, at most `most`. There are fewer only if no other piece is left.
    pub fn read_round(&mut self, most: usize) -> Result<Vec<Vec<u8, A>, A>, StreamFault> {
        let Ok(mut pieces) = Vec::with_capacity(self.alloc, most) else {
            return Err(StreamFault::NoMemory);
        };
        for _piece in 0..most {
            if self.at_end {
                break;
            }
            let piece = self.read_piece();
            if !piece.is_empty() && pieces.push(piece).is_err() {
                return Err(StreamFault::NoMemory);
            }
        }
        Ok(pieces)
    }

    /// Reads the next piece, which is empty only if no line is left. If a call of the reader fails, the piece has the whole lines
    /// before that.
    fn read_piece(&mut self) -> Vec<u8, A> {
        let mut bytes = Vec::new(self.alloc);
        if let Err(fault) = self.fill(&mut bytes) {
            self.at_end = true;
            self.fault = Some(fault);
            cut_last_line(&mut bytes);
        }
        bytes
    }

    /// Appends the bytes of the next piece.
    fn fill(&mut self, bytes: &mut Vec<u8, A>) -> Result<(), StreamFault> {
        self.at_end = self.append_length(bytes)?;
        if !self.at_end && bytes.last() != Some(&b'\n') {
            self.reader
                .read_until(b'\n', bytes)
                .map_err(|error| fault_of(&error))?;
            self.at_end = bytes.last() != Some(&b'\n');
        }
        Ok(())
    }

    /// Appends as many bytes as a piece has at least, or all that are left. Returns whether the reader's end was seen.
    fn append_length(&mut self, bytes: &mut Vec<u8, A>) -> Result<bool, StreamFault> {
        if bytes.reserve(self.length.saturating_add(BLOCK)).is_err() {
            return Err(StreamFault::NoMemory);
        }
        // Counted only so that the loop has an end.
        for _read in 0..u64::MAX {
            let left = self.length.saturating_sub(bytes.len());
            if left == 0 {
                return Ok(false);
            }
            if self.append_block(bytes, left)? {
                return Ok(true);
            }
        }
        Err(StreamFault::ReadFailed)
    }

    /// Appends bytes of one read, at most `most`. Returns whether the reader's end was seen. An interrupted read appends nothing.
    fn append_block(&mut self, bytes: &mut Vec<u8, A>, most: usize) -> Result<bool, StreamFault> {
        let block = match self.reader.fill_buf() {
            Ok(block) => block,
            Err(error) if error.kind() == ErrorKind::Interrupted => return Ok(false),
            Err(error) => return Err(fault_of(&error)),
        };
        let taken = most.min(block.len());
        if taken == 0 {
            return Ok(true);
        }
        if bytes.extend_from_slice(&block[..taken]).is_err() {
            return Err(StreamFault::NoMemory);
        }
        self.reader.consume(taken);
        Ok(false)
    }
}

/// Returns the fault of a read that has failed.
fn fault_of(error: &io::Error) -> StreamFault {
    if error.kind() == ErrorKind::OutOfMemory {
        return StreamFault::NoMemory;
    }
    StreamFault::ReadFailed
}

/// Cuts off the last line, if it has no line break.
fn cut_last_line<A: Allocator>(bytes: &mut Vec<u8, A>) {
    match bytes.as_slice().iter().rposition(|byte| *byte == b'\n') {
        Some(at) => bytes.truncate(at + 1),
        None => bytes.clear(),
    }
}
