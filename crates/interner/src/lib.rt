//! A single-owner interner: each different text gets one number, from 1 on, in the order of first appearance.
//!
//! An [`Interner`] stores its texts; an [`InternerOf`] takes texts that the caller has made. A contract sees an interner as the
//! list of its texts, the text of number 1 first.
#![tactic(auto)]

pub mod hash;
pub mod interner;
pub mod interner_of;
pub mod laws;
mod numbered;
pub mod refused;

pub use hash::{Mixed, TextHash, Times31};
pub use interner::Interner;
pub use interner_of::InternerOf;
pub use refused::Refused;
