//! Tests of the tools over text, with streams in memory.
mod blocks;
mod colliding;
mod files;
mod memory;
mod program;
mod streams;
mod texts;
mod threads;

use super::{Ended, assert_ended, assert_same};
use std::alloc::{Allocator, Global};
use std::io;
use std::io::{ErrorKind, Read, Write};
use std::process::Abort;
use std::test::Fail;
use std::thread::Threads;
use tool_lines::program::{Host, PIECE, run_over};
use tool_lines::texts::TextFiles;

/// The usage message of the program.
const USAGE: &str =
    "usage: tool_text words [--threads N] [FILE..] | tool_text dedup [--threads N] [FILE..] | tool_text --help\n";

/// The help text of the program.
const HELP: &str =
    "usage: tool_text words [--threads N] [FILE..] | tool_text dedup [--threads N] [FILE..] | tool_text --help

  words  counts the words: for each different word its number, the word and its count
  dedup  writes each different line once, in the order of first appearance

Without a FILE, or where FILE is -, standard input is read. After -- each word is a FILE.
N threads, from 1 to 64, read in large pieces, and write what one thread writes.
";

/// The tool that counts words.
const WORDS: &str = "words";

/// The tool that writes each different line once.
const DEDUP: &str = "dedup";

/// Files in memory, each a name and its bytes. A name that begins with a slash can't be opened.
#[derive(Clone, Copy)]
struct Shelf {
    files: &'static [(&'static str, &'static [u8])],
}

/// A shelf without files.
const EMPTY_SHELF: Shelf = Shelf { files: &[] };

impl TextFiles for Shelf {
    type File = &'static [u8];

    fn open_text(&self, name: &str) -> io::Result<&'static [u8]> {
        if name.as_bytes().starts_with(b"/") {
            return Err(io::Error::from(ErrorKind::PermissionDenied));
        }
        for (file, bytes) in self.files {
            if *file == name {
                return Ok(*bytes);
            }
        }
        Err(io::Error::from(ErrorKind::NotFound))
    }
}

/// How a run is split: the number of threads, as an argument, and the number of bytes after which a piece ends, at the end of its line. An
/// empty number stands for a run without the argument `--threads`.
type Split = (&'static str, usize);

/// The split of a run without `--threads`. Its pieces are as long as those of the program.
const ALONE: Split = ("", PIECE);

/// Numbers of threads, as arguments. The empty one stands for a run without `--threads`.
const THREADS: [&str; 5] = ["", "1", "2", "3", "8"];

/// Numbers of bytes after which a piece ends, at the end of its line.
const PIECES: [usize; 6] = [1, 2, 3, 7, 100, PIECE];

/// Returns these arguments, with `--threads` and the number after the first one. An empty number adds nothing. `Err`: no memory.
fn with_threads<'w>(
    heap: Global,
    words: &[&'w str],
    threads: &'w str,
) -> Result<Vec<&'w str>, Fail> {
    let mut all = Vec::new(heap);
    let [tool, names @ ..] = words else {
        return Ok(all);
    };
    all.push(*tool)?;
    if !threads.is_empty() {
        all.push("--threads")?;
        all.push(threads)?;
    }
    all.extend_from_slice(names)?;
    Ok(all)
}

/// Runs the program of this host with these arguments, and with this number of threads after the first one, over the input. Returns the
/// status. `Err`: no memory for the arguments.
fn run_into<
    'w,
    R: Threads + AllocGlobal + Sync,
    A: Allocator + Copy + Send + Sync,
    I: Read + Drop,
    O: Write,
>(
    host: &Host<'_, R, Shelf, A>,
    threads: &'w str,
    words: &[&'w str],
    input: I,
    output: &mut O,
    messages: &mut Vec<u8>,
) -> Result<u8, Fail> {
    let all = with_threads(host.rt.alloc(), words, threads)?;
    Ok(run_over(host, all.as_slice(), input, output, messages))
}

/// Runs the tool of this name over the input, and writes to `output`. Returns the status and the messages. `Err`: no memory.
fn run_writing<R: Threads + AllocGlobal + Sync, I: Read + Drop, O: Write>(
    rt: &R,
    (threads, piece): Split,
    tool: &str,
    input: I,
    output: &mut O,
) -> Result<(u8, Vec<u8>), Fail> {
    let host = Host {
        rt,
        files: &EMPTY_SHELF,
        alloc: rt.alloc(),
        piece,
    };
    let mut messages = Vec::new(rt.alloc());
    let status = run_into(&host, threads, &[tool], input, output, &mut messages)?;
    Ok((status, messages))
}

/// Runs the program with these arguments over the files and the input. Its memory comes from `alloc`. Returns what it printed, and its
/// status. `Err`: no memory.
fn run<R: Threads + AllocGlobal + Sync, A: Allocator + Copy + Send + Sync, I: Read + Drop>(
    rt: &R,
    alloc: A,
    files: &Shelf,
    (threads, piece): Split,
    words: &[&str],
    input: I,
) -> Result<Ended, Fail> {
    let host = Host {
        rt,
        files,
        alloc,
        piece,
    };
    let (mut output, mut messages) = (Vec::new(rt.alloc()), Vec::new(rt.alloc()));
    let status = run_into(&host, threads, words, input, &mut output, &mut messages)?;
    Ok(Ended {
        status,
        output,
        messages,
    })
}

/// Asserts the output, the messages and the status of a run over the files and the input, for each split. `Err`: no memory.
fn assert_splits(
    rt: &(impl Abort + Threads + AllocGlobal + Sync),
    files: &Shelf,
    words: &[&str],
    input: &[u8],
    wanted: (&[u8], &str, u8),
) -> Result<(), Fail> {
    let (output, messages, status) = wanted;
    for threads in &THREADS {
        for piece in &PIECES {
            let ended = run(rt, rt.alloc(), files, (*threads, *piece), words, input)?;
            assert_ended(rt, &ended, output, messages, status);
        }
    }
    Ok(())
}

/// Returns `count` different lines. Each is a number, padded with hyphens to `bytes` bytes. `Err`: no memory.
fn numbered_lines(heap: Global, count: u64, bytes: usize) -> Result<String, Fail> {
    let mut text = String::new(heap);
    for n in 0..count {
        let line = format!(in heap; "{n:-<bytes$}\n")?;
        text.push_str(line.as_str())?;
    }
    Ok(text)
}
