//! A lottery of the requests for memory that may be refused.
use std::sync::atomic::{AtomicU64, Ordering};

/// A lottery that draws one request in `one_in`. A draw depends on the seed and on the number of draws before it.
#[derive(Drop)]
pub(crate) struct Lot {
    seed: u64,
    one_in: u64,
    asked: AtomicU64,
}

impl Lot {
    /// Makes a lottery that draws each request with a chance of one in `one_in`. If `one_in` is 0 or 1, each request is drawn.
    pub(crate) fn new(seed: u64, one_in: u64) -> Lot {
        Lot {
            seed,
            one_in,
            asked: AtomicU64::new(0),
        }
    }

    /// Returns whether the next request is drawn.
    pub(crate) fn falls(&self) -> bool {
        let number = self.asked.fetch_add(1, Ordering::SeqCst);
        let drawn = spread(spread(self.seed).wrapping_add(number));
        drawn.checked_rem(self.one_in).unwrap_or(0) == 0
    }
}

/// Returns a number that looks drawn. Different numbers have different results (splitmix64).
fn spread(number: u64) -> u64 {
    let z = number.wrapping_mul(0x9E37_79B9_7F4A_7C15);
    let z = (z ^ (z >> 30)).wrapping_mul(0xBF58_476D_1CE4_E5B9);
    let z = (z ^ (z >> 27)).wrapping_mul(0x94D0_49BB_1331_11EB);
    z ^ (z >> 31)
}
