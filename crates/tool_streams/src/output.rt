//! Output that is held back in a block until it is flushed.
ghost use Rattle.std.specs.Prelude.{◌≡◌, ◌≤◌, None, IfErr};
ghost use Rattle.std.specs.Io.KnownBytes.{Keeps, WriteAppends};
ghost use Rattle.std.specs.Io.{WritesAtMost};
ghost use Rattle.tool_streams.specs.declared.blocks.TheConstants.{BLOCK};

use crate::blocks::{BLOCK, empty_block};
use std::io;
use std::io::{ErrorKind, Write};

/// A writer that holds back its bytes until `flush` is called or the block is full.
#[derive(Drop)]
pub struct Output<W> {
    writer: W,
    block: [u8; BLOCK],
    kept: usize,
    /// True after a write failed because the reader has closed the output.
    reader_gone: bool,
    ghost in_block: { kept ≤ BLOCK },
}

impl<W: Write> Output<W> {
    ghost use Rattle.tool_streams.specs.Output.{KeepsNothing};

    /// Makes an output to this writer, with nothing held back yet.
    pub fn new(writer: W) -> Output<W>
        ensures { KeepsNothing result }
    {
        Output {
            writer,
            block: empty_block(),
            kept: 0,
            reader_gone: false,
        }
    }

    /// Returns whether a write has failed because the reader of the output, such as the next program of a pipe, has closed it.
    pub fn is_reader_gone(&self) -> bool
        ensures { result ≡ self.now.reader_gone }
    {
        self.reader_gone
    }

    /// Writes what is held back. Nothing is held back afterwards, whatever the writer returns. After a failure some of it may
    /// have been written.
    fn send(&mut self) -> io::Result<()>
        ensures kept { KeepsNothing self.new }
    {
        let kept = self.kept;
        self.kept = 0;
        let sent = self.writer.write_all(&self.block[..kept]);
        self.note(sent)
    }

    /// Records the reason if the writer has failed, and returns its result.
    fn note(&mut self, done: io::Result<()>) -> io::Result<()>
        ensures { self.new.kept ≡ self.old.kept }
    {
        if let Err(error) = &done {
            self.reader_gone = error.kind() == ErrorKind::BrokenPipe;
        }
        done
    }
}

impl<W: Write> Write for Output<W> {
    ghost use Rattle.tool_streams.specs.Output.{KeepsNothing};

    /// Holds back as many of the bytes as the block has room for; writes a full block first. If that fails, nothing is held back.
    fn write(&mut self, bytes: &[u8]) -> io::Result<usize>
        ensures bound { WritesAtMost result bytes.now }
        ensures bytes { WriteAppends None None result bytes.now }
        ensures kept { IfErr result (λ _. KeepsNothing self.new) }
    {
        if self.kept == BLOCK {
            self.send()?;
        }
        let start = self.kept;
        let taken = bytes.len().min(BLOCK - start);
        self.block[start..start + taken].copy_from_slice(&bytes[..taken]);
        self.kept = start + taken;
        Ok(taken)
    }

    /// Writes what is held back and flushes the writer; calls neither if nothing is. Nothing is held back afterwards, whatever
    /// the writer returns.
    fn flush(&mut self) -> io::Result<()>
        ensures bytes { Keeps None None }
        ensures kept { KeepsNothing self.new }
    {
        if self.kept == 0 {
            return Ok(());
        }
        self.send()?;
        let flushed = self.writer.flush();
        self.note(flushed)
    }
}
