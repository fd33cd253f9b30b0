//! An insert that makes a generation and an insert of any hash exclude each other from the lock.

use std::alloc::Global;
use std::process::Abort;
use table_generations::atomic_value::InPlace;
use table_shared::{InsertCall, LockFreeRawTable, Progress};

type Table = LockFreeRawTable<InPlace<u64>>;

/// The number of hashes that are tried: more than a table has lanes.
const HASHES: u64 = 64;

/// Returns whether the value and the entry are equal.
fn same(value: &u64, entry: &u64) -> bool {
    *value == *entry
}

/// Returns the entry, which is its own hash.
fn own(entry: &u64) -> u64 {
    *entry
}

/// Returns whether an insert of this hash is blocked at its first step.
fn is_kept_out(table: &Table, hash: u64) -> bool {
    let mut call = InsertCall::new(table, hash, InPlace(hash), same, own);
    matches!(call.advance(), Progress::Blocked)
}

/// Returns whether an insert of this hash that holds its lock blocks the insert that makes the first generation, and whether that then
/// blocks an insert of this hash.
fn excludes(table: &Table, hash: u64) -> bool {
    let mut growing = InsertCall::new(table, 1, InPlace(1), same, own);
    // It takes its lock, finds no generation, and releases the lock.
    growing.advance();
    growing.advance();
    growing.advance();
    let mut placing = InsertCall::new(table, hash, InPlace(hash), same, own);
    placing.advance();
    let waits = matches!(growing.advance(), Progress::Blocked);
    drop(placing);
    let goes_on = matches!(growing.advance(), Progress::Moved);
    waits && goes_on && is_kept_out(table, hash)
}

/// Counts the hashes whose inserts exclude a growth, each in a new table.
fn count_exclusive(alloc: Global) -> u64 {
    let mut exclusive: u64 = 0;
    for hash in 0..HASHES {
        if excludes(&Table::new(alloc), hash) {
            exclusive = exclusive.saturating_add(1);
        }
    }
    exclusive
}

#[test]
fn a_growth_and_an_insert_of_any_hash_exclude_each_other(rt: HostRuntime) {
    let exclusive = count_exclusive(rt.alloc());
    assert_eq!(rt; exclusive, HASHES);
}
