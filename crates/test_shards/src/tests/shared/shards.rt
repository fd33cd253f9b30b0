//! Tests with one entry in one shard. A call uses only the shard of its hash, or all shards.
use super::made::{eight, eight_of, one};
use super::numbers::{InsertEnd, Table, insert_at};
use crate::tests::assert_same;
use lock_free_hashtable::raw::is_first_capacity;
use std::alloc::{AllocError, Allocator, Global};
use std::process::Abort;
use std::sync::Wait;
use std::test::Fail;

/// How many shards there are, and how many bits of a hash choose one.
const SHARDS: u64 = 8;

const SHARD_BITS: u32 = 3;

/// The low bits of hashes. They choose the first bucket and the eight bits that an entry keeps, whatever the shard.
const ENDS: [u64; 4] = [0, 5, 15, (200 << 32) | 5];

/// A first capacity other than the default one.
const WIDE: usize = 64;

/// A number that no test inserts. It means that there is no number.
const NONE: u64 = u64::MAX;

/// Returns the hash with these low bits whose shard is this one.
fn hash_in(shard: u64, end: u64) -> u64 {
    (shard << (64 - SHARD_BITS)) | end
}

/// Returns the number that a look-up under this hash finds with a test that accepts every number, or `NONE`.
fn shown<const N: usize, A: Allocator + Copy>(table: &Table<N, A>, hash: u64) -> u64 {
    match table.lookup(hash, |_| true) {
        Some(number) => *number,
        None => NONE,
    }
}

/// Returns the first two numbers of an iterator by reference, with `NONE` for a missing one.
fn first_two<const N: usize, A: Allocator + Copy>(table: &Table<N, A>) -> [u64; 2] {
    let mut walk = table.iter();
    let first = walk.next().copied().unwrap_or(NONE);
    [first, walk.next().copied().unwrap_or(NONE)]
}

/// Asserts that this shard has one entry, that a look-up with these low bits finds it, and that every other shard is empty.
fn assert_shown_in<R: Abort>(rt: &R, table: &Table<8, Global>, shard: u64, end: u64, number: u64) {
    for asked in 0..SHARDS {
        let hash = hash_in(asked, end);
        let seen = [shown(table, hash), table.shard(hash).len() as u64];
        let expected = if asked == shard {
            [number, 1]
        } else {
            [NONE, 0]
        };
        assert_same(rt, seen, expected);
    }
}

/// Inserts one number into a shard of an empty table, and asserts that it is then the only entry and lies in this shard.
fn assert_alone_in<R: Abort + Wait>(
    rt: &R,
    table: &Table<8, Global>,
    shard: u64,
    end: u64,
    value: Box<u64>,
) {
    let number = *value;
    let was_empty = table.is_empty();
    let is_placed = insert_at(rt, table, hash_in(shard, end), value) == InsertEnd::Placed;
    let [first, second] = first_two(table);
    assert_same(
        rt,
        [
            u64::from(was_empty && is_placed && !table.is_empty()),
            table.len() as u64,
            first,
            second,
        ],
        [1, 1, number, NONE],
    );
    assert_shown_in(rt, table, shard, end, number);
}

/// Returns the first two numbers of the owning iterator, with `NONE` for a missing one.
fn handed_two(table: Table<8, Global>) -> [u64; 2] {
    let mut values = table.into_iter();
    [number_of(values.next()), number_of(values.next())]
}

/// Returns the number of the value, or `NONE`.
fn number_of(value: Option<Box<u64>>) -> u64 {
    match value {
        Some(value) => *value,
        None => NONE,
    }
}

/// Inserts one number into a shard of a new table, and asserts that it is the only one that the owning iterator yields. `Err`: no memory.
fn assert_lies_in<R: Abort + Wait>(
    rt: &R,
    alloc: Global,
    shard: u64,
    end: u64,
) -> Result<(), AllocError> {
    let table: Table<8, Global> = eight(alloc);
    assert_alone_in(rt, &table, shard, end, Box::new(alloc, end)?);
    assert_same(rt, handed_two(table), [end, NONE]);
    Ok(())
}

#[test]
fn an_entry_is_in_the_shard_of_its_hash_alone(rt: HostRuntime) -> Result<(), Fail> {
    for shard in 0..SHARDS {
        for end in &ENDS {
            assert_lies_in(&rt, rt.alloc(), shard, *end)?;
        }
    }
    Ok(())
}

/// Returns how many values the owning iterator of a table over one shard yields.
fn count_handed(table: Table<1, Global>) -> u64 {
    let mut handed = 0u64;
    for _value in table {
        handed = handed.wrapping_add(1);
    }
    handed
}

/// Inserts the number, and asserts that a look-up finds it and that the table and its one shard have `number` entries.
fn assert_taken<R: Abort + Wait>(rt: &R, table: &Table<1, Global>, hash: u64, value: Box<u64>) {
    let number = *value;
    let is_placed = insert_at(rt, table, hash, value) == InsertEnd::Placed;
    let seen = [
        u64::from(is_placed),
        shown(table, hash),
        table.len() as u64,
        table.shard(0).len() as u64,
    ];
    assert_same(rt, seen, [1, number, number, number]);
}

#[test]
fn one_shard_takes_every_hash(rt: HostRuntime) -> Result<(), Fail> {
    let table = one(rt.alloc());
    assert!(rt; table.is_empty());
    for (number, hash) in [(1, 0), (2, (1 << 63) | 3), (3, u64::MAX)] {
        assert_taken(&rt, &table, hash, Box::new(rt.alloc(), number)?);
    }
    let walked = table.iter().count() as u64;
    assert_same(&rt, [walked, count_handed(table)], [3, 3]);
    Ok(())
}

/// Returns how many buckets the current generation of the hash's shard has, or 0 if it has no generation.
fn buckets_at(table: &Table<8, Global>, hash: u64) -> u64 {
    let shard = table.shard(hash);
    match shard.current(&mut shard.note()) {
        Some(current) => current.generation.capacity() as u64,
        None => 0,
    }
}

#[test]
fn each_shard_has_the_first_capacity(rt: HostRuntime) -> Result<(), Fail> {
    assert!(rt; is_first_capacity(WIDE));
    for shard in 0..SHARDS {
        let table = eight_of(rt.alloc(), WIDE);
        assert_alone_in(&rt, &table, shard, 5, Box::new(rt.alloc(), shard)?);
        let buckets = buckets_at(&table, hash_in(shard, 5));
        assert_same(&rt, buckets, WIDE as u64);
    }
    Ok(())
}
