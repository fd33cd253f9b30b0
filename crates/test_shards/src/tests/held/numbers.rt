//! Calls on single-owner tables of numbers over shards. Each number is equal only to itself.
use lock_free_hashtable::sharded::HeldShardedTable;
use std::alloc::{Allocator, Global};
use table_terms::law::{NumberLaw, hash_number};
use testkit::counting::asked::{hash, same};
use testkit::counting::numbers::{InsertEnd, insert_end};

/// A table of boxed numbers over `SHARDS` shards.
pub type Numbers<const SHARDS: usize, A> = HeldShardedTable<Box<u64>, SHARDS, A>;

/// Inserts the number by `place_alone`, and returns the answer.
pub fn insert<const SHARDS: usize, A: Allocator + Copy>(
    table: &mut Numbers<SHARDS, A>,
    alloc: Global,
    number: u64,
) -> InsertEnd {
    let Ok(value) = Box::new(alloc, number) else {
        return InsertEnd::Wrong;
    };
    match table.place_alone::<NumberLaw, _, _>(hash_number(number), value, &same, &hash) {
        Ok((_, None)) => InsertEnd::Placed,
        Ok((_, Some(back))) if *back == number => InsertEnd::Found,
        Err(back) if *back == number => InsertEnd::Refused,
        _ => InsertEnd::Wrong,
    }
}

/// Inserts the number by `insert_alone`, and returns the answer.
pub fn show<const SHARDS: usize, A: Allocator + Copy>(
    table: &mut Numbers<SHARDS, A>,
    alloc: Global,
    number: u64,
) -> InsertEnd {
    match Box::new(alloc, number) {
        Ok(value) => insert_end(
            table.insert_alone::<NumberLaw, _, _>(hash_number(number), value, same, hash),
            number,
        ),
        Err(_) => InsertEnd::Wrong,
    }
}

/// Inserts the numbers below `count`, and returns how many were placed.
pub fn fill<const SHARDS: usize>(
    table: &mut Numbers<SHARDS, Global>,
    alloc: Global,
    count: u64,
) -> u64 {
    let mut placed = 0u64;
    for number in 0..count {
        placed = placed.wrapping_add(u64::from(insert(table, alloc, number) == InsertEnd::Placed));
    }
    placed
}

/// Returns the number that a look-up finds.
pub fn shown<const SHARDS: usize, A: Allocator + Copy>(
    table: &Numbers<SHARDS, A>,
    number: u64,
) -> Option<u64> {
    let hash = hash_number(number);
    table
        .lookup_alone::<NumberLaw, _>(hash, |entry: &u64| *entry == number)
        .copied()
}

/// Returns how many of the numbers below `count` a look-up finds.
pub fn count_shown<const SHARDS: usize, A: Allocator + Copy>(
    table: &Numbers<SHARDS, A>,
    count: u64,
) -> u64 {
    let mut found = 0u64;
    for number in 0..count {
        found = found.wrapping_add(u64::from(shown(table, number) == Some(number)));
    }
    found
}

/// Returns whether the entries of the table are the numbers below `count`.
pub fn holds<const SHARDS: usize, A: Allocator + Copy>(
    table: &Numbers<SHARDS, A>,
    count: u64,
) -> bool {
    table.len_alone() as u64 == count && count_shown(table, count) == count
}
