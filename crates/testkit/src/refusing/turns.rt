//! Turns that threads take one after the other.
use std::sync::Wait;
use std::sync::atomic::{AtomicU64, Ordering};
use std::thread;
use std::time::Duration;

/// The value of `resumes` if no request is to be held.
const NONE: u64 = u64::MAX;

/// The most milliseconds that a thread sleeps before it looks again.
const SLEEP: u64 = 5;

/// How many looks of a held request take the place of one look of a thread. A thread sleeps between two looks, and a request can't.
const YIELDS: u64 = 1 << 14;

/// A turn after those of all schedules. Once it has begun, no thread waits.
const ENDED: u64 = 1 << 62;

/// Turns with numbers from 0 on. A thread waits for its turn, and then begins the next one. A request for memory inside a call on a table
/// can wait too: it begins the next turn, and is granted in a later one.
#[derive(Drop)]
pub struct Turns {
    now: AtomicU64,
    looks: u64,
    missed: AtomicU64,
    /// The turn in which the next counted request is granted, or `NONE`.
    resumes: AtomicU64,
}

impl Turns {
    /// Makes turns of which turn 0 has begun. A thread looks at most `looks` times for a turn.
    pub(crate) fn new(looks: u64) -> Turns {
        Turns {
            now: AtomicU64::new(0),
            looks,
            missed: AtomicU64::new(0),
            resumes: AtomicU64::new(NONE),
        }
    }

    /// Begins the next turn.
    pub fn pass(&self) {
        self.now.fetch_add(1, Ordering::SeqCst);
        self.now.wake_all();
    }

    /// Returns whether this turn has begun.
    fn has_begun(&self, turn: u64) -> bool {
        turn <= self.now.load(Ordering::SeqCst)
    }

    /// Waits until this turn has begun. After `looks` looks it counts the turn as missed, and ends all waiting.
    pub fn wait_for<R: Wait>(&self, rt: &R, turn: u64) {
        for _look in 0..self.looks {
            let seen = self.now.load(Ordering::SeqCst);
            if turn <= seen {
                return;
            }
            let sleep = Duration::from_millis(SLEEP);
            self.now
                .park_timeout(rt, (seen & 0xffff_ffff) as u32, sleep);
        }
        self.miss();
    }

    /// Counts a turn as missed, and ends all waiting.
    fn miss(&self) {
        self.missed.fetch_add(1, Ordering::SeqCst);
        self.end();
    }

    /// Ends all waiting, now and later: every turn has begun.
    pub fn end(&self) {
        self.now.store(ENDED, Ordering::SeqCst);
        self.now.wake_all();
    }

    /// Returns whether all waiting was ended.
    pub fn has_ended(&self) -> bool {
        self.has_begun(ENDED)
    }

    /// Returns how many turns were missed.
    pub fn missed(&self) -> u64 {
        self.missed.load(Ordering::SeqCst)
    }

    /// Makes the next counted request begin a turn, and wait until turn `resumes` has begun.
    pub fn hold_next(&self, resumes: u64) {
        self.resumes.store(resumes, Ordering::SeqCst);
    }

    /// Returns whether a request is still to be held.
    pub fn holds_next(&self) -> bool {
        self.resumes.load(Ordering::SeqCst) != NONE
    }

    /// Makes this request begin a turn and wait, if `hold_next` was called for it.
    pub(crate) fn hold(&self) {
        let resumes = self.resumes.swap(NONE, Ordering::SeqCst);
        if resumes == NONE {
            return;
        }
        self.pass();
        for _look in 0..self.looks.saturating_mul(YIELDS) {
            if self.has_begun(resumes) {
                return;
            }
            thread::yield_now();
        }
        self.miss();
    }
}
