//! A memo table whose requests for memory are refused.
use super::{ask, assert_same, slow_fibonacci};
use std::alloc::{Allocator, Global};
use std::process::Abort;
use std::test::Fail;
use testkit::refusing::{Refusing, Rule};
use tool_lines::memo::Memo;

/// More requests than one call makes.
const ENOUGH: u64 = 200;

const ARGUMENT: u64 = 1000;

/// The size of an answer in bytes.
const ANSWER: usize = 16;

/// Asks a new memo over this memory twice while the heap refuses one of its requests. Returns whether the first call was refused. `None`
/// means that no request was refused.
fn is_refused_over<A: Allocator + Copy>(
    rt: &impl Abort,
    heap: &Refusing<Global>,
    memory: A,
) -> Option<bool> {
    let mut memo = Memo::new(memory);
    let first = ask(&mut memo, ARGUMENT);
    let requested = heap.refusals_left() == 0;
    assert!(rt; requested || first.is_some());
    assert!(rt; first.is_none() || first == Some(slow_fibonacci(ARGUMENT)));
    assert_same(rt, ask(&mut memo, ARGUMENT), Some(slow_fibonacci(ARGUMENT)));
    if requested {
        Some(first.is_none())
    } else {
        None
    }
}

/// Asks a new memo twice while the request after the first `granted` ones is refused. Returns whether the first call was refused, or `None`
/// if no request was.
fn is_refused_after(rt: &impl Abort, alloc: Global, granted: u64) -> Option<bool> {
    let heap = Refusing::new(alloc, Rule::new(0, usize::MAX, granted, 1));
    is_refused_over(rt, &heap, &heap)
}

#[test]
fn each_request_is_refused_in_turn(rt: HostRuntime) -> Result<(), Fail> {
    let answers: Vec<bool> = (0..ENOUGH)
        .map_while(|granted: u64| is_refused_after(&rt, rt.alloc(), granted))
        .collect(rt.alloc())?;
    let refused = answers
        .iter()
        .filter(|is_refused: &&bool| **is_refused)
        .count();
    // A growth that is refused after an answer was placed doesn't refuse the call.
    assert!(rt; 20 < refused && answers.len() < 60);
    Ok(())
}

/// Asks a new memo over this memory. Returns whether it answers. If it does, asserts that it answers the same argument again, and doesn't
/// answer another one.
fn is_answered_over<A: Allocator + Copy>(rt: &impl Abort, memory: A) -> bool {
    let mut memo = Memo::new(memory);
    if ask(&mut memo, ARGUMENT).is_none() {
        return false;
    }
    assert_same(rt, ask(&mut memo, ARGUMENT), Some(slow_fibonacci(ARGUMENT)));
    assert_same(rt, ask(&mut memo, u64::MAX), None);
    true
}

/// Returns whether a new memo answers while all requests after the first `granted` ones are refused.
fn is_answered_with(rt: &impl Abort, alloc: Global, granted: u64) -> bool {
    let heap = Refusing::new(alloc, Rule::new(0, usize::MAX, granted, u64::MAX));
    is_answered_over(rt, &heap)
}

#[test]
fn a_kept_answer_needs_no_memory(rt: HostRuntime) {
    assert!(rt; (0..ENOUGH).any(|granted: u64| is_answered_with(&rt, rt.alloc(), granted)));
}

#[test]
fn fewer_than_200_answers_are_computed(rt: HostRuntime) {
    let heap = Refusing::new(rt.alloc(), Rule::new(ANSWER, ANSWER, 199, 1));
    let mut memo = Memo::new(&heap);
    assert_same(&rt, ask(&mut memo, u64::MAX), Some(800_812_746_651_928_290));
    assert_same(&rt, heap.refusals_left(), 1);
}
