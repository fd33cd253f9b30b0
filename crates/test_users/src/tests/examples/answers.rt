//! The answers of a memo table, which don't depend on earlier calls.
use super::{ask, slow_fibonacci};
use std::process::Abort;
use tool_lines::memo::Memo;

/// How many small arguments the tests ask for.
const ARGUMENTS: u64 = 400;

/// Large arguments with their answers, which were computed by powers of a matrix.
const GREAT: [(u64, u64); 4] = [
    (4_294_967_296, 14_555_514_507_530_727_995),
    (1_000_000_000_000_000_000, 13_142_498_416_641_831_483),
    (9_223_372_036_854_775_808, 1_601_625_493_303_856_581),
    (18_446_744_073_709_551_615, 800_812_746_651_928_290),
];

fn assert_answers(rt: &impl Abort, memo: &mut Memo, argument: u64, answer: u64) {
    assert_eq!(rt; ask(memo, argument), Some(answer), "at {argument}");
}

/// Returns the argument of a turn. The arguments rise from 0, or fall from `ARGUMENTS`.
fn argument_in(turn: u64, is_upward: bool) -> u64 {
    if is_upward {
        turn
    } else {
        ARGUMENTS.saturating_sub(turn)
    }
}

/// Asserts what the memo answers for each large argument, and then for each small one.
fn assert_all(rt: &impl Abort, memo: &mut Memo, is_upward: bool) {
    for (argument, answer) in &GREAT {
        assert_answers(rt, memo, *argument, *answer);
    }
    for turn in 0..ARGUMENTS {
        let argument = argument_in(turn, is_upward);
        assert_answers(rt, memo, argument, slow_fibonacci(argument));
    }
}

#[test]
fn answers_are_those_of_additions(rt: HostRuntime) {
    let mut memo = Memo::new(rt.alloc());
    assert_all(&rt, &mut memo, true);
    // All answers are kept now. Another memo is asked in the other order.
    assert_all(&rt, &mut memo, true);
    let mut other = Memo::new(rt.alloc());
    assert_all(&rt, &mut other, false);
}
