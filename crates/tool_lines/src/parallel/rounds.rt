//! The rounds in which several threads take the pieces of texts.
use crate::faults::Fault;
use crate::parallel::dedup::RoundLines;
use crate::parallel::pieces::Pieces;
use crate::parallel::words::RoundWords;
use crate::texts::Texts;
use crate::tool::Tool;
use std::alloc::{AllocError, Allocator};
use std::io::{Read, Write};
use std::thread::Threads;
use tool_streams::faults::StreamFault;

/// How a run is split.
#[derive(Clone, Copy)]
pub struct Split {
    /// The number of threads.
    pub threads: usize,
    /// The number of bytes after which a piece ends with the line.
    pub piece: usize,
}

/// A tool that takes the pieces of texts, a round at a time.
#[derive(Drop)]
pub enum RoundTool<A: Allocator + Copy> {
    Words(RoundWords<A>),
    Dedup(RoundLines<A>),
}

impl<A: Allocator + Copy> RoundTool<A> {
    /// Makes the tool, which has taken no line, for `threads` threads. `Err`: memory was refused.
    pub fn new(tool: Tool, alloc: A, threads: usize) -> Result<Self, AllocError> {
        match tool {
            Tool::Words => Ok(RoundTool::Words(RoundWords::new(alloc, threads)?)),
            Tool::Dedup => Ok(RoundTool::Dedup(RoundLines::new(alloc, threads)?)),
        }
    }

    /// Begins a text: the next line is its first one.
    fn begin_text(&mut self) {
        match self {
            RoundTool::Words(words) => words.begin_text(),
            RoundTool::Dedup(_) => {}
        }
    }
}

impl<A: Allocator + Copy + Send + Sync> RoundTool<A> {
    /// Takes the lines of the pieces, each of which is read by a thread of its own.
    fn take_round<R: Threads + Sync, W: Write>(
        &mut self,
        rt: &R,
        pieces: &[Vec<u8, A>],
        output: &mut W,
    ) -> Result<(), Fault> {
        match self {
            RoundTool::Words(words) => words.take_round(rt, pieces),
            RoundTool::Dedup(lines) => lines.take_round(rt, pieces, output),
        }
    }

    /// Writes what is to be written at the end of all texts, and gives memory back by several threads.
    pub fn end<R: Threads + Sync, W: Write>(
        &mut self,
        rt: &R,
        output: &mut W,
    ) -> Result<(), Fault> {
        match self {
            RoundTool::Words(words) => words.write_to(output),
            RoundTool::Dedup(lines) => {
                lines.clear(rt);
                Ok(())
            }
        }
    }
}

/// Takes each line of the texts. It flushes what the lines so far have written before it reads a round.
pub fn take_texts<R: Threads + Sync, A: Allocator + Copy + Send + Sync, T: Texts, O: Write>(
    rt: &R,
    alloc: A,
    split: Split,
    tool: &mut RoundTool<A>,
    texts: &mut T,
    output: &mut O,
) -> Result<(), Fault> {
    // Counted only so that the loop has an end.
    for _text in 0..u64::MAX {
        let Some(text) = texts.next_text()? else {
            return Ok(());
        };
        tool.begin_text();
        let mut pieces = Pieces::new(alloc, text, split.piece)?;
        take_pieces(rt, split.threads, tool, &mut pieces, output)?;
    }
    Err(Fault::Stream(StreamFault::ReadFailed))
}

/// Takes each line of the pieces, `most` pieces at a time.
fn take_pieces<R: Threads + Sync, A: Allocator + Copy + Send + Sync, I: Read + Drop, O: Write>(
    rt: &R,
    most: usize,
    tool: &mut RoundTool<A>,
    pieces: &mut Pieces<I, A>,
    output: &mut O,
) -> Result<(), Fault> {
    // Counted only so that the loop has an end.
    for _round in 0..u64::MAX {
        output.flush().map_err(|_error| StreamFault::WriteFailed)?;
        let round = pieces.read_round(most)?;
        if round.is_empty() {
            break;
        }
        tool.take_round(rt, round.as_slice(), output)?;
    }
    match pieces.fault() {
        Some(fault) => Err(Fault::Stream(fault)),
        None => Ok(()),
    }
}
