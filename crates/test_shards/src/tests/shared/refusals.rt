//! A test in which each request for memory of a table over two shards is refused in turn.
use super::made::two;
use super::numbers::Sharded;
use crate::tests::assert_same;
use std::process::Abort;
use std::sync::Wait;
use testkit::counting::numbers::{refused_in_turn, refused_inserts};
use testkit::refusing::{Refusing, Rule};

/// How many numbers are inserted. Each shard grows from 16 buckets to 32.
const NUMBERS: u64 = 17;

/// How many requests make an insert fail if they are refused: the block of each number, and six for the first generation of each shard. The
/// six are its marks, its words, its own block, the words for later generations, the room to take those generations out, and the block of
/// these words and this room. A refused growth changes no answer, since the number was placed before.
const REFUSED: u64 = NUMBERS + 2 * 6;

/// Inserts the numbers while the request after the first `passing` ones is refused, and asserts that each block is freed in the end.
/// Returns how many inserts were refused, or `None` after a wrong answer.
fn refused<R: Wait + Abort + AllocGlobal>(rt: &R, passing: u64) -> Option<u64> {
    let alloc = rt.alloc();
    let memory = Refusing::new(alloc, Rule::new(0, usize::MAX, passing, 1));
    let table = two(&memory);
    let numbers = Sharded {
        table: &table,
        alloc,
    };
    let count = refused_inserts(rt, &numbers, NUMBERS);
    drop(table);
    assert_same(rt, memory.given_back(), memory.granted());
    count
}

#[test]
fn each_request_refused_in_turn(rt: HostRuntime) {
    assert_same(&rt, refused_in_turn(&rt, 60, refused), Some(REFUSED));
}
