//! A test in which each request for memory of a shared table is refused in turn.
use super::numbers::{Boxed, assert_same};
use std::alloc::Global;
use std::sync::Wait;
use table_cell::Low;
use testkit::counting::asked::Lawful;
use testkit::counting::numbers::{refused_in_turn, refused_inserts};
use testkit::refusing::{Refusing, Rule};

/// How many numbers are inserted. The table grows from 16 buckets to 32, and then to 64.
const NUMBERS: u64 = 17;

/// How many requests make an insert fail if they are refused: the block of each number, and six for the first generation. The six are its
/// marks, its words, its own block, the words for later generations, the room to take those generations out, and the block of these words
/// and this room. A refused growth changes no answer, since the number was placed before.
const REFUSED: u64 = NUMBERS + 6;

/// Inserts the numbers into a table over this memory. Returns how many are refused, or `None` after a wrong answer.
fn refused_over<R: Wait, A: Low + Copy>(rt: &R, alloc: Global, memory: A) -> Option<u64> {
    let table: Boxed<A> = Boxed::new(memory, alloc, Lawful::Spread);
    refused_inserts(rt, &table, NUMBERS)
}

/// Inserts the numbers while the request after `passing` ones is refused. Returns how many are refused, or `None` after a wrong answer.
fn refused<R: Wait + AllocGlobal>(rt: &R, passing: u64) -> Option<u64> {
    let heap = Refusing::new(rt.alloc(), Rule::new(0, usize::MAX, passing, 1));
    refused_over(rt, rt.alloc(), &heap)
}

#[test]
fn each_request_refused_in_turn(rt: HostRuntime) {
    assert_same(&rt, refused_in_turn(&rt, 40, refused), Some(REFUSED));
}
