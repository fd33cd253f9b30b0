//! Tests that each value of a table over eight shards is dropped once.
use super::makers::eight_shards;
use crate::tests::assert_same;
use lock_free_hashtable::sharded::HeldShardedTable;
use std::alloc::{AllocError, Global};
use std::process::Abort;
use std::test::Fail;
use testkit::counting::{Counting, Drops};

type Countings = HeldShardedTable<Box<Counting>, 8>;

/// Makes a table of the first `numbers` numbers, whose drops `drops` counts. `Err`: no memory.
fn filled(
    rt: &impl Abort,
    alloc: Global,
    drops: &Drops,
    numbers: u64,
) -> Result<Countings, AllocError> {
    let mut table = eight_shards(alloc);
    drops.place_in(&mut table, numbers)?;
    assert!(rt; table.len_alone() as u64 == numbers);
    Ok(table)
}

#[test]
fn an_owning_walk_that_ends_early_drops_the_rest(rt: HostRuntime) -> Result<(), Fail> {
    let drops = Drops::new(rt.alloc(), 10)?;
    let mut rest = filled(&rt, rt.alloc(), &drops, 10)?.into_iter();
    let kept = [rest.next(), rest.next(), rest.next()];
    let seen = drops.as_dropped(rest, kept);
    assert_same(&rt, seen, [(10, 0), (3, 7), (0, 10)]);
    Ok(())
}

#[test]
fn a_walk_drops_nothing_and_the_end_of_a_table_each_value(rt: HostRuntime) -> Result<(), Fail> {
    let drops = Drops::new(rt.alloc(), 40)?;
    let table = filled(&rt, rt.alloc(), &drops, 40)?;
    assert!(rt; table.iter_alone().next().is_some());
    let seen = drops.as_dropped((), table);
    assert_same(&rt, seen, [(40, 0), (40, 0), (0, 40)]);
    Ok(())
}
