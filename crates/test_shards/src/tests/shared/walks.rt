//! Tests of look-ups and iterators with a thousand numbers over eight shards.
use super::made::eight;
use super::numbers::{InsertEnd, Inserts, Sharded, Table, assert_handed};
use crate::tests::assert_same;
use crate::tests::held::makers::eight_shards;
use lock_free_hashtable::sharded::{HeldShardedTable, Share};
use std::alloc::{AllocError, Global};
use std::process::Abort;
use std::sync::Wait;
use std::test::Fail;
use table_terms::law::{NumberLaw, hash_number};
use testkit::counting::asked::{hash, same};
use testkit::counting::numbers::{fill, seen, those_below};
use testkit::counting::tally::Tally;

/// How many numbers are inserted into an empty table.
const NUMBERS: u64 = 1000;

/// Asserts that the entries of the table are the numbers below `from`, inserts all below `to`, and asserts that look-ups and both kinds of
/// iterators then find these, each once. `Err`: no memory.
fn assert_filled_on<R: Abort + Wait>(
    rt: &R,
    table: Table<8, Global>,
    alloc: Global,
    from: u64,
    to: u64,
) -> Result<(), AllocError> {
    let numbers = Sharded {
        table: &table,
        alloc,
    };
    assert_same(rt, seen(&numbers, from), those_below(from));
    assert_same(rt, fill(rt, &numbers, 0..from), Tally::of(0, from));
    assert_same(
        rt,
        fill(rt, &numbers, from..to),
        Tally::of(to.wrapping_sub(from), 0),
    );
    assert_same(rt, seen(&numbers, to), those_below(to));
    assert_handed(rt, table, alloc, to)
}

#[test]
fn what_is_inserted_is_walked_and_handed_out_once(rt: HostRuntime) -> Result<(), Fail> {
    assert_filled_on(&rt, eight(rt.alloc()), rt.alloc(), 0, NUMBERS)?;
    Ok(())
}

/// Makes a single-owner table of the numbers below `NUMBERS`. `Err`: no memory.
fn held(alloc: Global) -> Result<HeldShardedTable<Box<u64>, 8>, AllocError> {
    let mut table = eight_shards(alloc);
    for number in 0..NUMBERS {
        let value = Box::new(alloc, number)?;
        let _told = table.place_alone::<NumberLaw, _, _>(hash_number(number), value, &same, &hash);
    }
    Ok(table)
}

#[test]
fn what_is_shared_is_walked_and_handed_out_once(rt: HostRuntime) -> Result<(), Fail> {
    let table = held(rt.alloc())?.share();
    assert_filled_on(&rt, table, rt.alloc(), NUMBERS, 2 * NUMBERS)?;
    Ok(())
}

/// Inserts a new number. Returns whether it was placed and the shard of its hash then has one entry more.
fn lengthens<R: Wait>(rt: &R, numbers: &Sharded<'_, Table<8, Global>>, number: u64) -> bool {
    let shard = numbers.table.shard(hash_number(number));
    let before = shard.len();
    let is_placed = numbers.insert(rt, number) == InsertEnd::Placed;
    is_placed && shard.len() == before.saturating_add(1)
}

/// Returns the sum of the lengths of the shards.
fn lengths(table: &Table<8, Global>) -> u64 {
    let mut sum = 0u64;
    for shard in 0..8u64 {
        sum = sum.wrapping_add(table.shard(shard << 61).len() as u64);
    }
    sum
}

/// Checks that each number is an entry of the shard of its hash, and of no other one.
#[test]
fn a_number_lies_in_the_shard_of_its_hash(rt: HostRuntime) {
    let table = eight(rt.alloc());
    let numbers = Sharded {
        table: &table,
        alloc: rt.alloc(),
    };
    let mut lengthened = 0u64;
    for number in 0..NUMBERS {
        lengthened = lengthened.wrapping_add(u64::from(lengthens(&rt, &numbers, number)));
    }
    assert_same(&rt, [lengthened, lengths(&table)], [NUMBERS, NUMBERS]);
}
