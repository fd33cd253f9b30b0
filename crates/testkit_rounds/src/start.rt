//! The common start of threads.
use std::sync::atomic::{AtomicU64, Ordering};
use std::{hint, thread};

/// How often a thread looks for the others before it begins without them.
const LOOKS: u64 = 1 << 22;

/// How many looks a thread takes before it lets another thread run first.
const LOOKS_TO_YIELD: u64 = 64;

/// A start at which threads wait for one another.
#[derive(Drop)]
pub(crate) struct Start {
    threads: u64,
    come: AtomicU64,
}

impl Start {
    /// Makes a start for this number of threads, none of which has come.
    pub(crate) fn new(threads: u64) -> Start {
        Start {
            threads,
            come: AtomicU64::new(0),
        }
    }

    /// Notes that one more thread has come. Waits until all have come, or until it has looked `LOOKS` times.
    pub(crate) fn wait(&self) {
        self.come.fetch_add(1, Ordering::SeqCst);
        for look in 0..LOOKS {
            if self.threads <= self.come.load(Ordering::SeqCst) {
                return;
            }
            if look % LOOKS_TO_YIELD == 0 {
                thread::yield_now();
            } else {
                hint::spin_loop();
            }
        }
    }
}
