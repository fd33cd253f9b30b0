//! Threads that take numbers of one slab.
use super::numbers::numbers;
use std::alloc::{AllocError, Global};
use std::test::Fail;
use std::thread::{Threads, join};
use table_slab::{Run, Slab};
use testkit::counting::numbers::count_first;

/// How many numbers a thread takes one by one: enough for two threads to meet at the counter.
const MANY: usize = 20_000;

/// How many numbers two such threads take.
const ALL: u64 = 40_000;

/// Returns the numbers of both threads. `Err`: no memory.
fn both(mut one: Vec<u64>, other: Vec<u64>) -> Result<Vec<u64>, AllocError> {
    one.extend_from_slice(&other)?;
    Ok(one)
}

/// Takes a number of each of `count` runs, and gives the rest of each run back to the slab. Returns the numbers.
fn one_of_each_run(slab: &Slab<u64, Global>, alloc: Global, count: usize) -> Vec<u64> {
    let mut found = Vec::new(alloc);
    for _taken in 0..count {
        let mut run = Run::new();
        let Ok((number, _right)) = slab.number(&mut run, 4) else {
            return found;
        };
        slab.give_back(run);
        if found.push(number).is_err() {
            return found;
        }
    }
    found
}

#[test]
fn two_threads_take_each_number_once(rt: HostRuntime) -> Result<(), Fail> {
    let slab = Slab::new(rt.alloc(), 0)?;
    let (shared, alloc) = (&slab, rt.alloc());
    let (one, other) = join(
        &rt,
        move || numbers(shared, alloc, MANY),
        move || numbers(shared, alloc, MANY),
    );
    assert_eq!(rt; [one.len(), other.len()], [MANY, MANY]);
    assert_eq!(rt; count_first(both(one, other)?), (ALL, ALL));
    Ok(())
}

#[test]
fn two_threads_return_runs_and_take_each_number_once(rt: HostRuntime) -> Result<(), Fail> {
    let slab = Slab::new(rt.alloc(), 3)?;
    let (shared, alloc) = (&slab, rt.alloc());
    let (one, other) = join(
        &rt,
        move || one_of_each_run(shared, alloc, 300),
        move || one_of_each_run(shared, alloc, 300),
    );
    assert_eq!(rt; [one.len(), other.len()], [300, 300]);
    let mut all = both(one, other)?;
    all.sort_unstable();
    all.dedup();
    assert_eq!(rt; all.len(), 600);
    Ok(())
}
