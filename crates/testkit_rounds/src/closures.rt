//! Closures that keep no law.
use crate::value::Given;
use rand_core::{Rng, SeedableRng};
use rand_xoshiro::SplitMix64;
use std::sync::atomic::{AtomicU64, Ordering};

/// A mask of hashes with at most 256 first buckets and with four marks.
const NARROW: u64 = 0x3_0000_00FF;

/// A mask of hashes with any first bucket and with four marks.
const WIDE: u64 = 0x3_FFFF_FFFF;

/// Closures with drawn results. A result depends on a seed, on the arguments and on the number of results before.
#[derive(Drop)]
pub(crate) struct Whims {
    seed: u64,
    asked: AtomicU64,
}

impl Whims {
    /// Makes closures whose results are drawn by this seed.
    pub(crate) fn new(seed: u64) -> Whims {
        Whims {
            seed,
            asked: AtomicU64::new(0),
        }
    }

    fn draw(&self, about: u64) -> u64 {
        let asked = self.asked.fetch_add(1, Ordering::SeqCst);
        let seed = self.seed ^ about ^ asked.rotate_left(32);
        SplitMix64::seed_from_u64(seed).next_u64()
    }

    /// Draws whether the new value is equal to the entry: true for one draw in four on average.
    pub(crate) fn agree(&self, new: &Given, entry: &Given) -> bool {
        self.draw(new.id ^ entry.id.rotate_left(16)) % 4 == 0
    }

    /// Draws a hash of the value. The next draw can have another result.
    pub(crate) fn hash(&self, given: &Given) -> u64 {
        let mask = if self.seed % 2 == 0 { NARROW } else { WIDE };
        self.draw(given.id) & mask
    }
}
