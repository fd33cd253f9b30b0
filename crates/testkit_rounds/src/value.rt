//! The values of rounds.
use std::alloc::{AllocError, Global};
use std::sync::atomic::{AtomicU64, Ordering};

/// What identifies a value. It is equal to the values of its class, and has its own id.
#[derive(Clone, Copy, PartialEq)]
pub(crate) struct Given {
    pub class: u64,
    pub id: u64,
}

/// A value on which threads can leave marks. A mark distinguishes the value from a copy of it.
#[derive(Drop)]
pub(crate) struct Value {
    pub given: Given,
    marks: AtomicU64,
}

impl Value {
    /// Makes a box with the value, which has no mark. `Err`: memory was refused.
    pub(crate) fn boxed(alloc: Global, given: Given) -> Result<Box<Value>, AllocError> {
        let marks = AtomicU64::new(0);
        Ok(Box::new(alloc, Value { given, marks })?)
    }

    /// Leaves the thread's mark.
    pub(crate) fn mark(&self, thread: u64) {
        self.marks.fetch_or(mark_of(thread), Ordering::SeqCst);
    }

    /// Returns whether the thread left its mark.
    pub(crate) fn has_mark(&self, thread: u64) -> bool {
        self.marks.load(Ordering::SeqCst) & mark_of(thread) != 0
    }
}

/// Returns the thread's bit. Each of 64 threads has its own.
fn mark_of(thread: u64) -> u64 {
    1u64.wrapping_shl(u32::try_from(thread).unwrap_or(0))
}
