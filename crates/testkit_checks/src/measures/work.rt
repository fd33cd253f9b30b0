//! The work that several threads do at once.
use crate::measures::numbers::COUNT;
use std::alloc::{AllocError, Global};

/// How often each thread inserts the same keys.
pub(crate) const ROUNDS: u64 = 25;

/// How many keys each thread inserts again and again.
pub(crate) const SAME: u64 = 10_000;

/// The largest number of threads that is measured.
pub(crate) const MOST: u64 = 4;

/// The work that several threads do at once.
#[derive(Clone, Copy)]
pub(crate) enum Work {
    /// Each thread inserts the same keys, again and again.
    Same,
    /// Each thread inserts its own part of the keys.
    Inserts,
    /// Each thread looks up all keys. Each begins at another key.
    Hits,
}

impl Work {
    /// Returns the name of the measurement with this number of threads. `Err`: memory was refused.
    pub(crate) fn name(self, alloc: Global, threads: u64) -> Result<String, AllocError> {
        let name = match self {
            Work::Same => "d_same",
            Work::Inserts => "e_ins",
            Work::Hits => "f_hit",
        };
        format!(in alloc; "{name}{threads}")
    }

    /// Returns how many keys this number of threads places or finds, and by how many calls.
    pub(crate) fn wanted(self, threads: u64) -> (u64, u64) {
        let all = match self {
            Work::Same => return (SAME, (ROUNDS * SAME).wrapping_mul(threads)),
            Work::Inserts => part_for(threads).wrapping_mul(threads),
            Work::Hits => COUNT.wrapping_mul(threads),
        };
        (all, all)
    }
}

/// Returns the number of keys in each thread's part, which is also how far apart the threads begin.
pub(crate) fn part_for(threads: u64) -> u64 {
    COUNT.checked_div(threads).unwrap_or(COUNT)
}
