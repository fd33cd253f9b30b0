//! Threads that place numbers in one set, tell each other of them, or own the set together.
use super::super::assert_same;
use demo_examples::accounts::insert_lists;
use demo_examples::owned::place_by_two;
use demo_examples::tell::tell;
use shared_set::SharedSet;
use std::alloc::{AllocError, Global};
use std::test::Fail;

/// How many sets two threads fill.
const ROUNDS: u64 = 100;

/// Checks that a handle that hears of two threads' numbers finds both.
#[test]
fn a_handle_that_is_told_of_both_numbers_finds_both(rt: HostRuntime) -> Result<(), Fail> {
    for round in 0..ROUNDS {
        let set = SharedSet::new(rt.alloc())?;
        let found = tell(&rt, &set, round, round + 1, 200);
        assert_same(&rt, found, Some((true, true)));
    }
    Ok(())
}

/// Checks that two threads that own a set together place each number once.
#[test]
fn two_owners_place_each_number_once(rt: HostRuntime) -> Result<(), Fail> {
    assert_same(&rt, place_by_two(&rt, rt.alloc(), 1000)?, 1000);
    Ok(())
}

/// The numbers of three lists. Two lists beside each other share half of theirs.
const LISTS: [(u64, u64); 3] = [(0, 1000), (500, 1500), (1000, 2000)];

/// Returns the lists. `Err`: no memory.
fn lists(alloc: Global) -> Result<Vec<Vec<u64>>, AllocError> {
    let mut all = Vec::new(alloc);
    for (from, end) in &LISTS {
        all.push((*from..*end).collect(alloc)?)?;
    }
    Ok(all)
}

/// Checks that each of 2000 numbers comes out once, and that each that is in two lists is found once.
#[test]
fn numbers_of_long_lists_come_out_once(rt: HostRuntime) -> Result<(), Fail> {
    let lists = lists(rt.alloc())?;
    match insert_lists(&rt, rt.alloc(), rt.alloc(), lists) {
        Ok(all) => assert_same(
            &rt,
            (all.out.len(), all.found.len(), all.refused.len()),
            (2000, 1000, 0),
        ),
        Err(_) => assert!(rt; false, "no outcome"),
    }
    Ok(())
}
