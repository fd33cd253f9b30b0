//! The arguments of the program.
use super::{Ended, HELP, Shelf, USAGE, assert_ended};
use std::alloc::{Allocator, Global};
use std::process::Abort;
use std::thread::Threads;
use testkit::refusing::{Refusing, Rule};
use testkit::streams::Called;
use tool_lines::program::{Host, PIECE, run_program};

/// The arguments of a run, its output, its messages and its status.
type Row = (&'static [&'static [u8]], &'static str, &'static str, u8);

/// Runs over the input `in in` and a line break. The file `file` has `of` and a line break.
const ROWS: [Row; 8] = [
    (&[b"tool_text", b"words"], "1 in 2\n", "", 0),
    (&[b"tool_text", b"dedup"], "in in\n", "", 0),
    (&[b"tool_text", b"words", b"file"], "1 of 1\n", "", 0),
    (
        &[b"tool_text", b"words", b"gone"],
        "",
        "words: gone: no such file\n",
        1,
    ),
    (&[b"tool_text", b"--help"], HELP, "", 0),
    (&[b"tool_text"], "", USAGE, 2),
    (&[b"words", b"tool_text"], "", USAGE, 2),
    // An argument that isn't UTF-8.
    (&[b"tool_text", b"words\xff"], "", USAGE, 2),
];

const SHELF: Shelf = Shelf {
    files: &[("file", b"of\n")],
};

/// Runs the program over the input, with the arguments of `called`.
fn run_called<R: Threads + Sync, A: Allocator + Copy>(
    rt: &R,
    heap: Global,
    called: &Called<A>,
    input: &[u8],
) -> Ended {
    let host = Host {
        rt,
        files: &SHELF,
        alloc: heap,
        piece: PIECE,
    };
    let (mut output, mut messages) = (Vec::new(heap), Vec::new(heap));
    let status = run_program(called, &host, input, &mut output, &mut messages);
    Ended {
        status,
        output,
        messages,
    }
}

/// Asserts the output, the messages and the status of a run with the arguments of the row.
fn assert_row(rt: &(impl Abort + Threads + Sync), alloc: Global, row: &Row) {
    let (arguments, printed, said, status) = *row;
    let ended = run_called(rt, alloc, &Called { arguments, alloc }, b"in in\n");
    assert_ended(rt, &ended, printed.as_bytes(), said, status);
}

#[test]
fn arguments_are_the_words(rt: HostRuntime) {
    for row in &ROWS {
        assert_row(&rt, rt.alloc(), row);
    }
}

const CALLED: &[&[u8]] = &[b"tool_text", b"words", b"file"];

/// Runs the program while the request after the first `granted` ones for the memory of its arguments is refused. Returns 1 if the program
/// reports it, and asserts that it writes no output then. Otherwise returns 0, and asserts that the run writes its output.
fn reports_after(rt: &(impl Abort + Threads + Sync), heap: Global, granted: u64) -> u64 {
    let memory = Refusing::new(heap, Rule::new(0, usize::MAX, granted, 1));
    let called = Called {
        arguments: CALLED,
        alloc: &memory,
    };
    let ended = run_called(rt, heap, &called, b"");
    if ended.status == 0 {
        assert_ended(rt, &ended, b"1 of 1\n", "", 0);
        return 0;
    }
    assert_ended(rt, &ended, b"", "no memory\n", 1);
    1
}

/// More requests than the arguments take.
const ENOUGH: u64 = 20;

#[test]
fn refused_memory_for_the_arguments_is_reported(rt: HostRuntime) {
    let mut reports = 0u64;
    for granted in 0..ENOUGH {
        reports = reports.saturating_add(reports_after(&rt, rt.alloc(), granted));
    }
    // Each of the three arguments takes memory, and so does the list of them.
    assert!(rt; 4 <= reports && reports < ENOUGH, "{reports}");
}
