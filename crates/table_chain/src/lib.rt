//! An append-only chain of values that threads share: each value is shown in the next slot, for good, and follows the one before it.
#![tactic(auto)]

mod chain;
mod ending;
mod event;
mod laws;
mod rule;
mod show;
mod trade;
mod word;

pub use chain::Chain;
pub use ending::Ending;
pub use event::{Event, Stored};
pub use laws::{end_knows_all, values_are_all};
pub use rule::{ChainRule, Follows, Token};
pub use show::Showing;
