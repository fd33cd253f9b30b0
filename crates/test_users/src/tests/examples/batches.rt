//! The memo program, which answers lines by one thread or by several.
use super::super::{Ended, assert_ended, assert_same};
use std::process::Abort;
use std::test::Fail;
use std::thread::Threads;
use table_cell::Low;
use testkit::refusing::{Refusing, Rule};
use tool_lines::memo_program::run_memo_over;

/// Runs the program with these arguments over the input. Its memory comes from `alloc`. Returns what it printed, and its status.
fn run<R: Threads + AllocGlobal + Sync, A: Low + Copy + Send + Sync>(
    rt: &R,
    alloc: A,
    words: &[&str],
    input: &str,
) -> Ended {
    let (mut output, mut messages) = (Vec::new(rt.alloc()), Vec::new(rt.alloc()));
    let status = run_memo_over(
        rt,
        alloc,
        words,
        input.as_bytes(),
        &mut output,
        &mut messages,
    );
    Ended {
        status,
        output,
        messages,
    }
}

/// Inputs, each with the answers, the message and the status of its run.
const ROWS: [(&str, &str, &str, u8); 11] = [
    ("", "", "", 0),
    ("7\n", "13\n", "", 0),
    ("0\n1\n2\n10\n", "0\n1\n1\n55\n", "", 0),
    ("10\n0\n10\n2", "55\n0\n55\n1\n", "", 0),
    (
        "18446744073709551615\n90\n",
        "800812746651928290\n2880067194370816120\n",
        "",
        0,
    ),
    (
        "18446744073709551615\n00000000000000000010",
        "800812746651928290\n55\n",
        "",
        0,
    ),
    ("3\n18446744073709551616\n4\n", "2\n", "bad line 2\n", 2),
    ("3\n\n4\n", "2\n", "bad line 2\n", 2),
    ("\n", "", "bad line 1\n", 2),
    ("-1\n", "", "bad line 1\n", 2),
    ("0x10\n", "", "bad line 1\n", 2),
];

/// The arguments of runs by one thread, and by one, three and sixty-four threads in batches.
const ARGUMENTS: [&[&str]; 4] = [
    &[],
    &["--threads", "1"],
    &["--threads", "3"],
    &["--threads", "64"],
];

/// Checks that any number of threads prints what one thread prints.
#[test]
fn threads_answer_lines_in_order(rt: HostRuntime) {
    for words in &ARGUMENTS {
        for (input, output, messages, status) in &ROWS {
            let ended = run(&rt, rt.alloc(), *words, *input);
            assert_ended(&rt, &ended, output.as_bytes(), *messages, *status);
        }
    }
}

/// Checks that more lines than one batch holds are answered, and that the bad line after them has the right number.
#[test]
fn more_than_one_batch(rt: HostRuntime) -> Result<(), Fail> {
    let mut input = "11\n".repeat(rt.alloc(), 5000)?;
    input.push_str("x\n")?;
    let output = "89\n".repeat(rt.alloc(), 5000)?;
    let ended = run(&rt, rt.alloc(), &["--threads", "2"], &input);
    assert_ended(&rt, &ended, output.as_bytes(), "bad line 5001\n", 2);
    Ok(())
}

/// Wrong arguments.
const WRONG: [&[&str]; 6] = [
    &["--threads"],
    &["--threads", "0"],
    &["--threads", "65"],
    &["--threads", "2", "2"],
    &["--thread", "2"],
    &["2"],
];

/// Checks that wrong arguments print the usage and no answer.
#[test]
fn wrong_words(rt: HostRuntime) {
    for words in &WRONG {
        let ended = run(&rt, rt.alloc(), *words, "1\n");
        assert_ended(&rt, &ended, b"", "usage: tool_memo [--threads N]\n", 2);
    }
}

/// Checks that a run to which all memory is refused prints the answer that needs none, and a message.
#[test]
fn refused_memory_ends_the_run(rt: HostRuntime) {
    let memory = Refusing::new(rt.alloc(), Rule::new(0, usize::MAX, 0, u64::MAX));
    let ended = run(&rt, &memory, &[], "0\n5\n1\n");
    assert_ended(&rt, &ended, b"0\n", "no memory\n", 1);
}

/// Runs the program while the request after the first `granted` ones is refused. Asserts that the run prints all answers, or the first ones
/// and a message. Returns whether a request was refused.
fn is_refused_after(rt: &(impl Abort + Threads + AllocGlobal + Sync), granted: u64) -> bool {
    let heap = Refusing::new(rt.alloc(), Rule::new(0, usize::MAX, granted, 1));
    let ended = run(rt, &heap, &["--threads", "2"], "40\n1000\n9\n");
    let output = "102334155\n817770325994397771\n34\n".as_bytes();
    if ended.status == 0 {
        assert_ended(rt, &ended, output, "", 0);
    } else {
        assert!(rt; output.starts_with(ended.output.as_slice()));
        assert_same(rt, ended.messages.as_slice(), "no memory\n".as_bytes());
        assert_same(rt, ended.status, 1);
    }
    heap.refusals_left() == 0
}

#[test]
fn each_request_of_a_run_is_refused_in_turn(rt: HostRuntime) {
    let mut refused = 0u64;
    for granted in 0..60 {
        if is_refused_after(&rt, granted) {
            refused = refused.saturating_add(1);
        }
    }
    assert!(rt; 5 < refused && refused < 60);
}
