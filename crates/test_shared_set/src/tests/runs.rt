//! Drawn runs, whose calls are compared with those of a plain list.
ghost use Rattle.std.specs.Prelude.{◌≡◌};

use super::caller::{
    Heap, InsertEnd, NumberHandle, NumberSet, assert_none_out, assert_same, insert, set_with,
};
use rand_core::{Rng, SeedableRng};
use rand_xoshiro::SplitMix64;
use std::alloc::{AllocError, Global};
use std::process::Abort;
use std::test::Fail;
use table_cell::Low;
use testkit::refusing::{Refusing, Rule};

/// How many calls a run has.
const CALLS: u64 = 800;

/// Numbers are drawn below this one.
const BOUND: u64 = 400;

/// The room of a set at first, and how many requests are refused at most. One request of four is drawn to be refused.
const RUNS: [(usize, u64); 4] = [(0, 0), (100, 0), (0, u64::MAX), (100, u64::MAX)];

/// Draws a number below `bound`, or 0 if `bound` is 0.
fn draw(numbers: &mut SplitMix64, bound: u64) -> u64 {
    numbers.next_u64().checked_rem(bound).unwrap_or(0)
}

/// Inserts the number into the set and into the list. Asserts that it is refused only if a request was refused and no entry is equal.
/// `Err`: no memory.
fn insert_into_both<A: Low + Copy>(
    rt: &impl Abort,
    heap: &Heap,
    handle: &mut NumberHandle<'_, A>,
    list: &mut Vec<u64>,
    number: u64,
) -> Result<(), AllocError>
    ensures { handle.new.of ≡ handle.old.of }
{
    let before = heap.refusals_left();
    let answer = insert(handle, number).0;
    if list.contains(&number) {
        assert_same(rt, answer, InsertEnd::Found);
    } else if answer == InsertEnd::Placed {
        list.push(number)?;
    } else {
        assert!(rt; answer == InsertEnd::Refused && heap.refusals_left() < before);
    }
    Ok(())
}

/// Asserts that the handle finds the number if and only if the list has it.
fn assert_agrees<A: Low + Copy>(
    rt: &impl Abort,
    handle: &mut NumberHandle<'_, A>,
    list: &Vec<u64>,
    number: u64,
)
    ensures { handle.new.of ≡ handle.old.of }
{
    assert_same(rt, handle.contains(&number), list.contains(&number));
}

/// Draws a call of the first handle, and makes it. By one of the calls the handle learns what the other one knows. `Err`: no memory.
fn call<'s, A: Low + Copy>(
    rt: &impl Abort,
    heap: &Heap,
    handle: &mut NumberHandle<'s, A>,
    other: &NumberHandle<'s, A>,
    list: &mut Vec<u64>,
    numbers: &mut SplitMix64,
) -> Result<(), AllocError>
    requires { other.now.of ≡ handle.old.of }
    ensures { handle.new.of ≡ handle.old.of }
{
    let number = draw(numbers, BOUND);
    match draw(numbers, 8) {
        0..=4 => insert_into_both(rt, heap, handle, list, number)?,
        5 | 6 => assert_agrees(rt, handle, list, number),
        _ => handle.learn(other),
    }
    Ok(())
}

/// Makes drawn calls of two handles, which are made while the set is empty. Asserts that they agree with a list. `Err`: no memory.
fn run<A: Low + Copy>(
    rt: &impl Abort,
    alloc: Global,
    heap: &Heap,
    set: &NumberSet<A>,
    seed: u64,
) -> Result<(), AllocError> {
    let mut numbers = SplitMix64::seed_from_u64(seed);
    let mut list = Vec::new(alloc);
    let mut one = set.handle();
    let mut other = set.handle();
    for _call in 0..CALLS {
        if draw(&mut numbers, 2) == 0 {
            call(rt, heap, &mut one, &other, &mut list, &mut numbers)?;
        } else {
            call(rt, heap, &mut other, &one, &mut list, &mut numbers)?;
        }
    }
    for number in 0..BOUND {
        assert_agrees(rt, &mut one, &list, number);
    }
    drop(one);
    drop(other);
    assert_same(rt, set.len(), list.len() as u64);
    Ok(())
}

/// Makes a set with this room, and then a run of two handles, in which at most `refused` requests are refused. Asserts that the set does
/// what a list does. `Err`: no memory.
fn run_on<A: Low + Copy>(
    rt: &impl Abort,
    alloc: Global,
    heap: &Heap,
    memory: A,
    (room, refused): (usize, u64),
    seed: u64,
) -> Result<(), AllocError> {
    let set = set_with(rt, memory, room);
    heap.refuse(0, refused);
    run(rt, alloc, heap, &set, seed)
}

#[test]
fn drawn_runs_answer_as_a_list(rt: HostRuntime) -> Result<(), Fail> {
    for row in &RUNS {
        for seed in 0u64..6 {
            let rule = Rule::new(0, usize::MAX, 0, 0).drawn(seed, 4);
            let heap = Refusing::new(rt.alloc(), rule);
            run_on(&rt, rt.alloc(), &heap, &heap, *row, seed)?;
            assert_none_out(&rt, &heap);
        }
    }
    Ok(())
}
