//! Tests over eight shards with values that count their drops.
use super::made::eight;
use super::numbers::{InsertEnd, insert_at};
use crate::tests::assert_same;
use lock_free_hashtable::sharded::ShardedLockFreeRawTable;
use std::alloc::{AllocError, Global};
use std::process::Abort;
use std::sync::Wait;
use std::test::Fail;
use table_terms::law::hash_number;
use testkit::counting::{Counting, Drops};

/// How many values are inserted.
const VALUES: u64 = 200;

/// How many of them are taken from an owning iterator before it is dropped: none, one, most, or all.
const TAKEN: [u64; 4] = [0, 1, 120, VALUES];

type Table = ShardedLockFreeRawTable<Box<Counting>, 8>;

/// Makes a table of the values of the numbers below `VALUES`. `Err`: no memory.
fn filled<R: Wait + Abort>(rt: &R, alloc: Global, drops: &Drops) -> Result<Table, AllocError> {
    let table = eight(alloc);
    let mut placed = 0u64;
    for number in 0..VALUES {
        let answer = insert_at(rt, &table, hash_number(number), drops.counting(number)?);
        placed = placed.wrapping_add(u64::from(answer == InsertEnd::Placed));
    }
    assert!(rt; placed == VALUES);
    Ok(table)
}

/// Takes `taken` values from an owning iterator, drops it and then those, and asserts how many values each step drops. `Err`: no memory.
fn assert_taken<R: Wait + Abort>(rt: &R, alloc: Global, taken: u64) -> Result<(), AllocError> {
    let drops = Drops::new(alloc, VALUES)?;
    let mut values = filled(rt, alloc, &drops)?.into_iter();
    let mut kept = Vec::new(alloc);
    for _value in 0..taken {
        if let Some(value) = values.next() {
            kept.push(value)?;
        }
    }
    let left = VALUES.wrapping_sub(taken);
    let expected = [(VALUES, 0), (taken, left), (0, VALUES)];
    assert_same(rt, drops.as_dropped(values, kept), expected);
    Ok(())
}

#[test]
fn an_iterator_that_ends_early_drops_the_rest(rt: HostRuntime) -> Result<(), Fail> {
    for taken in &TAKEN {
        assert_taken(&rt, rt.alloc(), *taken)?;
    }
    Ok(())
}

#[test]
fn the_end_of_a_table_drops_each_value_once(rt: HostRuntime) -> Result<(), Fail> {
    let drops = Drops::new(rt.alloc(), VALUES)?;
    let table = filled(&rt, rt.alloc(), &drops)?;
    let expected = [(VALUES, 0), (VALUES, 0), (0, VALUES)];
    assert_same(&rt, drops.as_dropped((), table), expected);
    Ok(())
}
