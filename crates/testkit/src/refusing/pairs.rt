//! Requests for memory that wait for one another.
use std::sync::atomic::{AtomicU64, Ordering};
use std::{hint, thread};

/// How many looks a request takes before it begins to yield between looks. A wait of fewer looks is short on a loaded machine, too.
const SPINS: u64 = 1 << 15;

/// Pairs of requests: neither request of a pair is granted before the other one has come.
#[derive(Drop)]
pub(crate) struct Pairs {
    pairs: AtomicU64,
    looks: u64,
    come: AtomicU64,
    met: AtomicU64,
    alone: AtomicU64,
}

impl Pairs {
    /// Makes `pairs` pairs of the first requests. The first request of a pair looks at most `looks` times for the second one before it goes on alone.
    pub(crate) fn new(pairs: u64, looks: u64) -> Pairs {
        Pairs {
            pairs: AtomicU64::new(pairs),
            looks,
            come: AtomicU64::new(0),
            met: AtomicU64::new(0),
            alone: AtomicU64::new(0),
        }
    }

    /// Makes `pairs` pairs of the next requests. No other thread may make a request meanwhile.
    pub(crate) fn begin(&self, pairs: u64) {
        self.pairs.store(pairs, Ordering::SeqCst);
        self.come.store(0, Ordering::SeqCst);
    }

    /// Waits for the second request of a pair, if this is the first one.
    pub(crate) fn meet(&self) {
        let turn = self.come.fetch_add(1, Ordering::SeqCst);
        if turn / 2 < self.pairs.load(Ordering::SeqCst) && turn % 2 == 0 {
            let count = if self.comes(turn) {
                &self.met
            } else {
                &self.alone
            };
            count.fetch_add(1, Ordering::SeqCst);
        }
    }

    /// Returns whether a request comes after the one of this turn, within `looks` looks.
    fn comes(&self, turn: u64) -> bool {
        for look in 0..self.looks {
            if self.come.load(Ordering::SeqCst).wrapping_sub(turn) > 1 {
                return true;
            }
            if look < SPINS {
                hint::spin_loop();
            } else {
                thread::yield_now();
            }
        }
        false
    }

    /// Returns how many pairs met.
    pub(crate) fn met(&self) -> u64 {
        self.met.load(Ordering::SeqCst)
    }

    /// Returns how many requests went on alone.
    pub(crate) fn alone(&self) -> u64 {
        self.alone.load(Ordering::SeqCst)
    }
}
