//! The stops of whole calls, at which they are compared with what was rehearsed.
use crate::item::Said;
use crate::replay::{Ground, Refusals};
use crate::schedules::Ask;
use table_cell::Low;

/// What a table shows: its length, its number of buckets, and a number that is made of its entries in order.
#[derive(Clone, Copy, PartialEq)]
pub(crate) struct Sight {
    length: u64,
    buckets: u64,
    entries: u64,
}

/// Returns a number that is made of the one that was made so far and of the next part.
fn joined(made: u64, part: u64) -> u64 {
    made.wrapping_mul(1_000_003)
        .wrapping_add(part)
        .wrapping_add(1)
}

impl Sight {
    /// Returns what the table of this ground shows now.
    pub(crate) fn of<A: Low + Copy>(ground: Ground<'_, A>) -> Sight {
        let mut entries = 0u64;
        for entry in ground.table.iter() {
            entries = joined(
                joined(joined(entries, entry.number), entry.class),
                entry.hash,
            );
        }
        Sight {
            length: ground.table.len() as u64,
            buckets: ground.buckets(),
            entries,
        }
    }
}

/// Something that happens. The number of a call is its place among those that have begun.
#[derive(Clone, Copy, PartialEq)]
pub(crate) enum Milestone {
    /// The next call begins. A top call has refusals, which apply from then on.
    Began(Ask, Option<Refusals>),
    /// A call runs a closure on the entry with this number. The closure says whether it accepts the entry.
    Asked(u64, u64, bool),
    /// A call runs a closure on the entry with this number. The closure returns this hash.
    Hashed(u64, u64, u64),
    /// A call has come to an empty bucket, and will next try to set it to its value.
    AtEmpty,
    /// A call waits for the lock.
    Waits,
    /// A call ended with this reply.
    Ended(u64, Said),
}

/// A stop of a thread: its turn, its milestone, and what the table shows then if no other thread runs.
#[derive(Clone, Copy)]
pub(crate) struct Stop {
    pub(crate) turn: u64,
    /// The number of the call.
    pub(crate) call: u64,
    pub(crate) milestone: Milestone,
    pub(crate) sight: Option<Sight>,
    /// Whether the thread ends the turn. It then waits for turn `resumes`. If there is none, it goes on to a lock, to its end, or to the
    /// watcher's next stop.
    pub(crate) ends_turn: bool,
    pub(crate) resumes: Option<u64>,
}

/// An entry that a growth copies while both threads run, its hash, and what the table shows then.
#[derive(Clone, Copy, PartialEq)]
pub(crate) struct Copied {
    pub(crate) entry: u64,
    pub(crate) hash: u64,
    pub(crate) sight: Option<Sight>,
}
