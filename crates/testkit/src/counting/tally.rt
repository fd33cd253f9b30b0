//! Counts of the outcomes of inserts, and threads that insert at once.
use crate::counting::numbers::InsertEnd;
use std::alloc::Global;
use std::sync::Wait;
use std::thread;
use std::thread::Threads;

/// How many inserts had which outcome.
#[derive(Clone, Copy, Debug, PartialEq)]
pub struct Tally {
    pub placed: u64,
    pub found: u64,
    /// How many inserts had another outcome, and how many other faults there were.
    pub other: u64,
}

impl Tally {
    pub const NONE: Tally = Tally {
        placed: 0,
        found: 0,
        other: 0,
    };

    /// Returns the tally of these counts, with no other outcome.
    pub fn of(placed: u64, found: u64) -> Tally {
        Tally {
            placed,
            found,
            other: 0,
        }
    }

    /// Adds one outcome.
    pub fn with(mut self, answer: InsertEnd) -> Tally {
        let count = match answer {
            InsertEnd::Placed => &mut self.placed,
            InsertEnd::Found => &mut self.found,
            InsertEnd::Refused | InsertEnd::Wrong => &mut self.other,
        };
        *count = count.wrapping_add(1);
        self
    }

    /// Adds the counts of another thread.
    pub fn and(self, more: Tally) -> Tally {
        Tally {
            placed: self.placed.wrapping_add(more.placed),
            found: self.found.wrapping_add(more.found),
            other: self.other.wrapping_add(more.other),
        }
    }
}

/// The work of threads that run at once.
pub trait Work {
    /// Does the work of this thread, and returns the outcomes of its inserts.
    fn work<R: Wait>(&self, rt: &R, thread: u64) -> Tally;
}

/// Runs threads that do the work at once, and returns the outcomes of all. If memory for the threads is refused, it is one Wrong outcome.
pub fn at_once<R: Threads + Wait + Sync, W: Work + Sync>(
    rt: &R,
    alloc: Global,
    threads: usize,
    work: &W,
) -> Tally {
    let tallies = thread::map_indices(
        rt,
        alloc,
        threads,
        &|thread: usize| work.work(rt, thread as u64),
    );
    match tallies {
        Ok(tallies) => sum(tallies.as_slice()),
        Err(_) => Tally::NONE.with(InsertEnd::Wrong),
    }
}

/// Adds the counts of all threads.
fn sum(tallies: &[Tally]) -> Tally {
    let mut sum = Tally::NONE;
    for tally in tallies {
        sum = sum.and(*tally);
    }
    sum
}
