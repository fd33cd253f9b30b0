//! A set in an `Arc`, which two threads own together. The last one that lets go of it ends the set.

use crate::tell::Numbers;
use shared_set::{Inserted, SharedSet};
use std::alloc::Global;
use std::io;
use std::sync::{Arc, Wait};
use std::thread::{Threads, spawn};

/// Inserts the numbers below `count`. Returns how many of them this call placed.
pub fn place_below(set: &Numbers<Global>, count: u64) -> u64 {
    let mut mine = set.handle();
    let mut placed = 0u64;
    for number in 0..count {
        if let Inserted::Placed(_, _, _) = mine.insert(number) {
            placed = placed.saturating_add(1);
        }
    }
    placed
}

/// Inserts the numbers below `count` from two threads. Returns how many the two placed. `Err`: memory or a thread was refused.
pub fn place_by_two<R: Threads + Wait>(rt: &R, alloc: Global, count: u64) -> io::Result<u64> {
    let set = Arc::new(alloc, SharedSet::new(alloc)?)?;
    let theirs = set.clone()?;
    let other = spawn(rt, move || place_below(&theirs, count))?;
    let here = place_below(&set, count);
    let there = other.join(rt);
    Ok(here.saturating_add(there))
}
