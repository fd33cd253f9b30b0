//! Values that are made of a number.
use std::alloc::Global;
use std::num::NonZeroU32;
use std::sync::Arc;
use table_generations::atomic_value::{AtomicValue, InPlace};

/// A value that can be made of a number.
pub trait Made: AtomicValue {
    /// Makes the value of this number. `None`: memory was refused, or no value has this number.
    fn made(alloc: Global, number: u64) -> Option<Self>;
}

impl Made for Box<u64> {
    fn made(alloc: Global, number: u64) -> Option<Self> {
        Box::new(alloc, number).ok()
    }
}

impl Made for Arc<u16> {
    fn made(alloc: Global, number: u64) -> Option<Self> {
        Arc::new(alloc, u16::try_from(number).ok()?).ok()
    }
}

impl Made for NonZeroU32 {
    fn made(_alloc: Global, number: u64) -> Option<Self> {
        NonZeroU32::new(u32::try_from(number.wrapping_add(1)).ok()?)
    }
}

impl Made for InPlace<u64> {
    fn made(_alloc: Global, number: u64) -> Option<Self> {
        Some(InPlace(number))
    }
}
