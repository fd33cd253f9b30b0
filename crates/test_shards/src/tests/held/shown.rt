//! Tests of `insert_alone` over shards: the entry that it returns, and the table that it leaves, compared with `place_alone`.
use super::makers::{eight_shards, one_shard, two_shards};
use super::numbers::{Numbers, holds, insert, show};
use super::walks::walked;
use crate::tests::assert_same;
use std::alloc::{AllocError, Global};
use std::process::Abort;
use std::test::Fail;
use table_terms::law::NumberLaw;
use testkit::counting::asked::hash;
use testkit::counting::numbers::InsertEnd;

/// Returns whether the tables have the same entries in the same order, and equally many buckets. `Err`: no memory.
fn are_alike<const SHARDS: usize>(
    shows: &Numbers<SHARDS, Global>,
    places: &Numbers<SHARDS, Global>,
    alloc: Global,
) -> Result<bool, AllocError> {
    let same_walk = walked(shows, alloc)?.as_slice() == walked(places, alloc)?.as_slice();
    Ok(
        same_walk
            && shows.len_alone() == places.len_alone()
            && shows.capacity_alone() == places.capacity_alone()
            && shows.buckets_alone() == places.buckets_alone(),
    )
}

/// Inserts the number by `insert_alone`, and asserts that the answer is `expected` and the tables are alike after it. `Err`: no memory.
fn assert_insert<const SHARDS: usize>(
    rt: &impl Abort,
    shows: &mut Numbers<SHARDS, Global>,
    places: &Numbers<SHARDS, Global>,
    alloc: Global,
    number: u64,
    expected: InsertEnd,
) -> Result<(), AllocError> {
    assert_eq!(rt; show(shows, alloc, number), expected, "{number}");
    assert!(rt; are_alike(shows, places, alloc)?, "{number}");
    Ok(())
}

/// Inserts each number below `numbers` twice by `insert_alone`. Asserts that it is placed and then found, that the table is always like one
/// that `place_alone` fills, and that look-ups find all numbers in the end. `Err`: no memory.
fn assert_shows_as_placed<const SHARDS: usize>(
    rt: &impl Abort,
    mut shows: Numbers<SHARDS, Global>,
    mut places: Numbers<SHARDS, Global>,
    alloc: Global,
    numbers: u64,
) -> Result<(), AllocError> {
    for number in 0..numbers {
        assert!(rt; insert(&mut places, alloc, number) == InsertEnd::Placed);
        assert_insert(rt, &mut shows, &places, alloc, number, InsertEnd::Placed)?;
        assert_insert(rt, &mut shows, &places, alloc, number, InsertEnd::Found)?;
    }
    assert!(rt; holds(&shows, numbers));
    Ok(())
}

#[test]
fn leaves_what_place_alone_leaves(rt: HostRuntime) -> Result<(), Fail> {
    let alloc = rt.alloc();
    assert_shows_as_placed::<8>(&rt, eight_shards(alloc), eight_shards(alloc), alloc, 300)?;
    assert_shows_as_placed::<1>(&rt, one_shard(alloc), one_shard(alloc), alloc, 100)?;
    Ok(())
}

/// A number that means that there is no value.
const NONE: u64 = u64::MAX;

/// The hash and the number of each insert with an `eq` that accepts every entry, and the entry and the value that it returns.
const CARELESS: [(u64, u64, [u64; 2]); 4] = [
    (0, 1, [1, NONE]),
    (1 << 63, 2, [2, NONE]),
    (0, 3, [1, 3]),
    (1 << 63, 4, [2, 4]),
];

/// Accepts every entry as equal.
fn always(_new: &u64, _entry: &u64) -> bool {
    true
}

/// Inserts the value with an `eq` that accepts every entry. Returns the entry and the returned value, with `NONE` for a missing one.
fn show_careless(table: &mut Numbers<2, Global>, hash_of: u64, value: Box<u64>) -> [u64; 2] {
    match table.insert_alone::<NumberLaw, _, _>(hash_of, value, always, hash) {
        Ok((shown, None)) => [*shown, NONE],
        Ok((shown, Some(back))) => [*shown, *back],
        Err(back) => [NONE, *back],
    }
}

/// Checks that an insert compares its value only with entries in the shard of its hash.
#[test]
fn shows_an_entry_of_its_own_shard(rt: HostRuntime) -> Result<(), Fail> {
    let mut table: Numbers<2, Global> = two_shards(rt.alloc());
    for (hash_of, number, expected) in &CARELESS {
        let shown = show_careless(&mut table, *hash_of, Box::new(rt.alloc(), *number)?);
        assert_same(&rt, shown, *expected);
    }
    assert!(rt; table.len_alone() == 2);
    Ok(())
}
