//! A handover between two threads, each of which waits until the other one has come to a certain place.
use std::sync::atomic::{AtomicU64, Ordering};
use std::thread;

/// How often a thread looks for another one before it goes on without it. A thread that waits so long yields between looks. So this takes
/// seconds at least, and longer while other threads are running.
pub const MOST_LOOKS: u64 = 1 << 25;

/// How many more looks give another thread the time to come to a lock.
pub const QUIET_LOOKS: u64 = 20_000;

/// Looks at the sign until it is 1, at most `MOST_LOOKS` times. Returns whether it was 1.
pub fn look_for(sign: &AtomicU64) -> bool {
    for _look in 0..MOST_LOOKS {
        if sign.load(Ordering::SeqCst) == 1 {
            return true;
        }
        thread::yield_now();
    }
    false
}

/// Two signs between two threads: that a call of the first one is inside (a closure, say), and that a call of the second one begins.
#[derive(Drop)]
pub struct Handover {
    inside: AtomicU64,
    begins: AtomicU64,
    alone: AtomicU64,
}

impl Handover {
    /// Makes a handover in which neither sign is set.
    pub fn new() -> Handover {
        Handover {
            inside: AtomicU64::new(0),
            begins: AtomicU64::new(0),
            alone: AtomicU64::new(0),
        }
    }

    /// Waits for this sign of the other thread, and counts the wait if it doesn't come.
    fn wait_for(&self, sign: &AtomicU64) {
        if !look_for(sign) {
            self.alone.fetch_add(1, Ordering::SeqCst);
        }
    }

    /// Returns how many waits ended without the other thread's sign.
    pub fn went_alone(&self) -> u64 {
        self.alone.load(Ordering::SeqCst)
    }

    /// Signals that the first thread's call is inside. Waits until the second thread's call begins and has had time to come to a lock.
    /// Later calls return at once.
    pub fn hand_over(&self) {
        if self.inside.swap(1, Ordering::SeqCst) == 0 {
            self.wait_for(&self.begins);
            for _look in 0..QUIET_LOOKS {
                let _begun = self.begins.load(Ordering::SeqCst);
            }
        }
    }

    /// Waits until the first thread's call is inside, and signals that the second thread's call begins.
    pub fn take_over(&self) {
        self.wait_for(&self.inside);
        self.begins.store(1, Ordering::SeqCst);
    }
}
