//! A value that counts its drops.
use std::sync::atomic::AtomicU64;
use std::sync::atomic::Ordering::SeqCst;

/// A number that counts its drops.
pub(crate) struct Counting<'d> {
    pub(crate) number: u64,
    drops: &'d AtomicU64,
}

impl<'d> Counting<'d> {
    pub(crate) fn new(number: u64, drops: &'d AtomicU64) -> Counting<'d> {
        Counting { number, drops }
    }
}

impl Drop for Counting<'_> {
    fn drop(self) {
        let Counting { number: _, drops } = self;
        drops.fetch_add(1, SeqCst);
    }
}
