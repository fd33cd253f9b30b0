//! Lists that threads insert into a set, and an account of every number.
use super::super::assert_same;
use demo_examples::accounts::{NoOutcome, Outcome, insert_lists};
use std::alloc::{AllocError, Global};
use std::process::Abort;
use std::sync::Wait;
use std::thread::Threads;
use testkit::refusing::{Refusing, Rule};

/// How many threads insert a list each.
const LISTS: u64 = 3;

/// How many numbers a list has. Each list shares half of its numbers with the next one.
const EACH: u64 = 100;

/// How many different numbers the lists have.
const DIFFERENT: u64 = 200;

/// How many numbers are in two lists.
const TWICE: u64 = 100;

/// A run grants fewer requests than this, and refuses all later ones.
const GRANTED: u64 = 60;

/// Returns the lists of numbers that threads insert. `Err`: no memory.
fn lists(heap: Global) -> Result<Vec<Vec<u64>>, AllocError> {
    let mut all = Vec::new(heap);
    for list in 0..LISTS {
        let first = list * (EACH / 2);
        all.push((first..first + EACH).collect(heap)?)?;
    }
    Ok(all)
}

/// How many numbers were returned at the end, were found, and were refused.
type Counts = (u64, u64, u64);

/// Returns how many numbers were returned at the end, were found, and were refused.
fn counts_of(outcome: &Outcome<u64>) -> Counts {
    (
        outcome.out.len() as u64,
        outcome.found.len() as u64,
        outcome.refused.len() as u64,
    )
}

/// Lets threads insert the lists into a set on memory that grants the first `granted` requests and refuses all others. Returns the counts
/// of the numbers. `None` means that memory for the set itself was refused.
fn run<R: Threads + Wait + Abort + Sync>(rt: &R, alloc: Global, granted: u64) -> Option<Counts> {
    let heap = Refusing::new(alloc, Rule::new(0, usize::MAX, granted, u64::MAX));
    let lists = lists(alloc).expect(rt, "lists");
    let counts = match insert_lists(rt, alloc, &heap, lists) {
        Ok(outcome) => Some(counts_of(&outcome)),
        Err(NoOutcome::Memory) => None,
        Err(NoOutcome::Others) => panic!(rt; "others came out"),
    };
    assert_same(rt, heap.given_back(), heap.granted());
    counts
}

/// Asserts that each number of the lists is counted once, and that no more were returned or found than the lists have.
fn assert_counted(rt: &impl Abort, counts: Counts) {
    let (out, found, refused) = counts;
    let all = out.saturating_add(found).saturating_add(refused);
    assert_same(rt, all, LISTS * EACH);
    assert!(rt; out <= DIFFERENT, "{out} came out");
    assert!(rt; found <= TWICE, "{found} were found");
}

#[test]
fn each_number_comes_out_or_back(rt: HostRuntime) {
    let mut some: u64 = 0;
    for granted in 0..GRANTED {
        if let Some(counts) = run(&rt, rt.alloc(), granted) {
            assert_counted(&rt, counts);
            some = some.wrapping_add(u64::from(counts.2 > 0));
        }
    }
    assert!(&rt; some > 0, "memory was refused in no run");
    let ample = run(&rt, rt.alloc(), u64::MAX);
    assert_same(&rt, ample, Some((DIFFERENT, TWICE, 0)));
}
