//! Inserts the same thousand numbers into one set from two threads: one thread places a number, and the other finds it.
#![tactic(auto)]

use shared_set::{Inserted, SharedSet};
use std::alloc::AllocError;
use std::{io, thread};
use table_sets::NumberLaw;

/// Inserts the numbers below a thousand, and returns how many of them this call placed. An `Err` means that memory was refused.
fn insert_all(set: &SharedSet<u64, NumberLaw>) -> Result<u64, AllocError> {
    let mut mine = set.handle();
    let mut placed: u64 = 0;
    for number in 0..1000 {
        match mine.insert(number) {
            Inserted::Placed(_, _, _) => placed = placed.saturating_add(1),
            Inserted::Found(_, _, _) => {}
            Inserted::Refused(_) => return Err(AllocError),
        }
    }
    Ok(placed)
}

fn main(rt: HostRuntime) -> io::Result<()> {
    let set: SharedSet<u64, NumberLaw> = SharedSet::new(rt.alloc())?;
    let shared = &set;
    let placed = thread::scope(thread::scope_env(), &rt, move |scope| -> io::Result<u64> {
        let other = scope.spawn(move || insert_all(shared))?;
        let here = insert_all(shared)?;
        let there = other.join(&rt)?;
        Ok(here.saturating_add(there))
    })?;
    println!(rt; "placed: {placed}, entries: {}", set.len())?;
    let found = set.get(&999);
    println!(rt; "look-up of 999: {found:?}")?;
    Ok(())
}
