//! A set of numbers that threads share without a lock.
//!
//! A [`NumberTable`] has a fixed number of words. Each thread uses it through a [`Seat`] of its own, a permit that takes no
//! bytes. Contracts say of a seat which numbers it knows to be in the table, and which of them it placed. No number is placed for
//! two seats. A seat finds again each number that it knows, or that it learned from another seat.
#![tactic(auto)]

mod rule;
mod seat;
mod table;

pub use seat::{NumberAnswer, Seat};
pub use table::NumberTable;
