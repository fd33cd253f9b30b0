//! Lists of calls on every kind of single-owner table, in which each reply is compared with that of a list.
use super::makers::{eight_shards, four_shards, one_shard, sixteen_shards, two_shards};
use lock_free_hashtable::alone::{AloneTable, Call, Reply, run_calls};
use lock_free_hashtable::raw::HeldRawTable;
use rand_core::{Rng, SeedableRng};
use rand_xoshiro::SplitMix64;
use std::alloc::{AllocError, Allocator, Global};
use std::process::Abort;
use std::test::Fail;
use table_terms::law::{NumberLaw, hash_number};
use testkit::reply::{PlainReply, plain_reply};

/// A call on a table of numbers.
#[derive(Clone, Copy)]
pub enum Step {
    Insert(u64),
    Lookup(u64),
    Len,
}

/// Returns the calls of these steps, each with the hash of its number. `Err`: no memory.
pub fn calls<A: Allocator + Copy>(
    alloc: A,
    boxes: Global,
    steps: &[Step],
) -> Result<Vec<Call<Box<u64>, u64>, A>, AllocError> {
    let mut calls = Vec::with_capacity(alloc, steps.len())?;
    for step in steps {
        let call = match *step {
            Step::Insert(number) => Call::Insert {
                hash: hash_number(number),
                value: Box::new(boxes, number)?,
            },
            Step::Lookup(number) => Call::Lookup {
                hash: hash_number(number),
                key: number,
            },
            Step::Len => Call::Len,
        };
        calls.push(call)?;
    }
    Ok(calls)
}

/// Returns the replies with numbers in place of values. `Err`: no memory.
pub fn plain_replies(
    alloc: Global,
    replies: &[Reply<Box<u64>>],
) -> Result<Vec<PlainReply>, AllocError> {
    let mut plain = Vec::with_capacity(alloc, replies.len())?;
    for reply in replies {
        plain.push(plain_reply(reply))?;
    }
    Ok(plain)
}

/// Makes the calls under the law of numbers, and returns the replies. `Err`: the calls, if the memory for the replies was refused.
pub fn run_numbers<B: AloneTable<Box<u64>, NumberLaw>, A: Allocator + Copy>(
    alloc: A,
    table: &mut B,
    calls: Vec<Call<Box<u64>, u64>, A>,
) -> Result<Vec<Reply<Box<u64>>, A>, Vec<Call<Box<u64>, u64>, A>> {
    run_calls::<Box<u64>, NumberLaw, u64, B, _, _, _, A>(
        alloc,
        table,
        calls,
        |new: &u64, entry: &u64| *new == *entry,
        |entry: &u64| hash_number(*entry),
        |key: &u64, entry: &u64| *key == *entry,
    )
}

/// Takes the steps on this table, and returns the answers. `Err`: no memory.
fn run<B: AloneTable<Box<u64>, NumberLaw>>(
    alloc: Global,
    table: &mut B,
    steps: &[Step],
) -> Result<Vec<PlainReply>, AllocError> {
    match run_numbers(alloc, table, calls(alloc, alloc, steps)?) {
        Ok(replies) => plain_replies(alloc, replies.as_slice()),
        Err(_) => Err(AllocError),
    }
}

/// Takes the steps on this table, and returns whether it gives the expected answers.
fn answers_as<B: AloneTable<Box<u64>, NumberLaw>>(
    alloc: Global,
    table: &mut B,
    steps: &[Step],
    expected: &[PlainReply],
) -> bool {
    match run(alloc, table, steps) {
        Ok(replies) => replies.as_slice() == expected,
        Err(_) => false,
    }
}

/// Asserts that a new table of each kind gives the expected answers: the raw table, and tables over shards.
fn assert_replies(rt: &impl Abort, alloc: Global, steps: &[Step], expected: &[PlainReply]) {
    assert!(rt; answers_as(alloc, &mut HeldRawTable::new(alloc), steps, expected));
    assert!(rt; answers_as_over_shards(alloc, steps, expected));
}

/// Returns whether new tables over one, two, four, eight and sixteen shards all give the expected answers.
fn answers_as_over_shards(alloc: Global, steps: &[Step], expected: &[PlainReply]) -> bool {
    answers_as(alloc, &mut one_shard(alloc), steps, expected)
        && answers_as(alloc, &mut two_shards(alloc), steps, expected)
        && answers_as(alloc, &mut four_shards(alloc), steps, expected)
        && answers_as(alloc, &mut eight_shards(alloc), steps, expected)
        && answers_as(alloc, &mut sixteen_shards(alloc), steps, expected)
}

const STEPS: [Step; 7] = [
    Step::Insert(1),
    Step::Insert(1),
    Step::Lookup(1),
    Step::Len,
    Step::Insert(2),
    Step::Lookup(3),
    Step::Len,
];

const REPLIES: [PlainReply; 7] = [
    PlainReply::Placed(1),
    PlainReply::Found(1, 1),
    PlainReply::Some(1),
    PlainReply::Len(1),
    PlainReply::Placed(2),
    PlainReply::None,
    PlainReply::Len(2),
];

#[test]
fn calls_answer_as_a_list(rt: HostRuntime) {
    assert_replies(&rt, rt.alloc(), STEPS.as_slice(), REPLIES.as_slice());
}

/// Takes the step on a list of numbers, and returns the answer. `Err`: no memory.
pub fn list_reply(list: &mut Vec<u64>, step: Step) -> Result<PlainReply, AllocError> {
    match step {
        Step::Insert(number) => {
            if list.contains(&number) {
                return Ok(PlainReply::Found(number, number));
            }
            list.push(number)?;
            Ok(PlainReply::Placed(number))
        }
        Step::Lookup(number) => {
            if list.contains(&number) {
                Ok(PlainReply::Some(number))
            } else {
                Ok(PlainReply::None)
            }
        }
        Step::Len => Ok(PlainReply::Len(list.len())),
    }
}

/// Draws a step with one of 300 numbers.
fn draw(numbers: &mut SplitMix64) -> Step {
    let number = numbers.next_u64().checked_rem(300).unwrap_or(0);
    match numbers.next_u64().checked_rem(4).unwrap_or(0) {
        0 => Step::Lookup(number),
        1 => Step::Len,
        _ => Step::Insert(number),
    }
}

#[test]
fn generated_calls_answer_as_a_list(rt: HostRuntime) -> Result<(), Fail> {
    let mut numbers = SplitMix64::seed_from_u64(7);
    let mut list = Vec::new(rt.alloc());
    let mut steps = Vec::new(rt.alloc());
    let mut expected = Vec::new(rt.alloc());
    for _ in 0..1000 {
        let step = draw(&mut numbers);
        steps.push(step)?;
        expected.push(list_reply(&mut list, step)?)?;
    }
    assert_replies(&rt, rt.alloc(), steps.as_slice(), expected.as_slice());
    Ok(())
}
