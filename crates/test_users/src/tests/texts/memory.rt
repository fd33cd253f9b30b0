//! Tools whose requests for memory are refused.
use super::streams::{DEDUPED, INPUT};
use super::{
    ALONE, DEDUP, EMPTY_SHELF, Ended, Split, WORDS, assert_ended, assert_same, numbered_lines, run,
};
use std::process::Abort;
use std::test::Fail;
use std::thread::Threads;
use testkit::refusing::{Refusing, Rule};

/// Lines and words enough for a second generation of a table.
const TEXT: &[u8] = b"one\ntwo\nthree\nfour\none\nfive\nsix\nseven\neight\nnine\ntwo\n";

const COUNTED: &[u8] =
    b"1 one 2\n2 two 2\n3 three 1\n4 four 1\n5 five 1\n6 six 1\n7 seven 1\n8 eight 1\n9 nine 1\n";

const FIRSTS: &[u8] = b"one\ntwo\nthree\nfour\nfive\nsix\nseven\neight\nnine\n";

/// A tool and the split of its run, its input and what it writes, and numbers below and above that of its requests.
type Row = (
    (&'static str, Split),
    (&'static [u8], &'static [u8]),
    (u64, u64),
);

const ROWS: [Row; 4] = [
    ((WORDS, ALONE), (TEXT, COUNTED), (5, 40)),
    ((DEDUP, ALONE), (TEXT, FIRSTS), (1, 20)),
    (
        (WORDS, ("3", 6)),
        (INPUT, b"1 one 2\n2 two 2\n3 three 1\n"),
        (20, 2_000),
    ),
    ((DEDUP, ("3", 6)), (INPUT, DEDUPED), (20, 2_000)),
];

/// Runs the tool while the request after the first `granted` ones is refused. Returns whether a request was refused. Asserts that a run of
/// status 0 has written all, and that any other has written a first part, which for `words` is empty. `Err`: no memory.
fn is_refused_after(
    rt: &(impl Abort + Threads + AllocGlobal + Sync),
    row: &Row,
    granted: u64,
) -> Result<bool, Fail> {
    let ((tool, split), (input, all), _) = *row;
    let memory = Refusing::new(rt.alloc(), Rule::new(0, usize::MAX, granted, 1));
    let ended = run(rt, &memory, &EMPTY_SHELF, split, &[tool], input)?;
    if ended.status == 0 {
        assert_ended(rt, &ended, all, "", 0);
    } else {
        assert_begun(rt, &ended, if tool == DEDUP { all } else { b"" });
    }
    Ok(memory.refusals_left() == 0)
}

/// Asserts that a run ended for want of memory, and has written a first part of this.
fn assert_begun(rt: &impl Abort, ended: &Ended, all: &[u8]) {
    assert_same(rt, ended.status, 1);
    assert!(rt; ended.messages.as_slice().ends_with(b": no memory\n"));
    assert!(rt; all.starts_with(ended.output.as_slice()));
}

/// Refuses each request of a run in turn, up to the number `most`. Returns how many requests a run makes. `Err`: no memory.
fn requests_of(
    rt: &(impl Abort + Threads + AllocGlobal + Sync),
    row: &Row,
    most: u64,
) -> Result<u64, Fail> {
    for granted in 0..most {
        if !is_refused_after(rt, row, granted)? {
            return Ok(granted);
        }
    }
    Ok(most)
}

/// Refuses each request of a run in turn, and asserts about how many it makes. `Err`: no memory.
fn assert_requests(
    rt: &(impl Abort + Threads + AllocGlobal + Sync),
    row: &Row,
) -> Result<(), Fail> {
    let (_, _, (least, most)) = *row;
    let requests = requests_of(rt, row, most)?;
    assert!(rt; least < requests && requests < most);
    Ok(())
}

#[test]
fn each_request_is_refused_in_turn(rt: HostRuntime) -> Result<(), Fail> {
    for row in &ROWS {
        assert_requests(&rt, row)?;
    }
    Ok(())
}

/// How many different lines the long text has.
const DIFFERENT: usize = 9;

/// The length of each long line in bytes. It is more than the first block of an arena has.
const LONG: usize = 600;

/// More requests than a run over the long text makes.
const ENOUGH: u64 = 200;

/// Runs `dedup` over different lines while all requests after the first `granted` ones are refused. Returns how many lines it has written.
/// Asserts that these are the first lines, each whole, and that the status is 0 if and only if they are all lines. `Err`: no memory.
fn lines_before(
    rt: &(impl Abort + Threads + AllocGlobal + Sync),
    text: &[u8],
    granted: u64,
) -> Result<usize, Fail> {
    let memory = Refusing::new(rt.alloc(), Rule::new(0, usize::MAX, granted, u64::MAX));
    let ended = run(rt, &memory, &EMPTY_SHELF, ALONE, &[DEDUP], text)?;
    assert!(rt; text.starts_with(ended.output.as_slice()));
    let lines = whole_lines(rt, ended.output.as_slice());
    assert!(rt; (ended.status == 0) == (lines == DIFFERENT));
    Ok(lines)
}

/// Returns how many lines were written. Asserts that each is whole.
fn whole_lines(rt: &impl Abort, written: &[u8]) -> usize {
    assert!(rt; written.is_empty() || written.ends_with(b"\n"));
    written.iter().filter(|byte| **byte == b'\n').count()
}

#[test]
fn each_line_before_the_one_without_memory_is_written(rt: HostRuntime) -> Result<(), Fail> {
    let text = numbered_lines(rt.alloc(), DIFFERENT as u64, LONG)?;
    let (mut most, mut parts): (usize, usize) = (0, 0);
    for granted in 0..ENOUGH {
        let lines = lines_before(&rt, text.as_bytes(), granted)?;
        assert!(rt; most <= lines);
        if most < lines && lines < DIFFERENT {
            parts = parts.saturating_add(1);
        }
        most = lines;
        if most == DIFFERENT {
            break;
        }
    }
    assert!(rt; most == DIFFERENT);
    assert!(rt; 1 < parts);
    Ok(())
}
