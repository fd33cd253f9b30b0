//! The steps of the table as a pure state machine: any number of threads, growth, iteration and refusals are lists of events.
//!
//! Module [`steps`] has the steps of a call on a running table. Each is [`decide`], with the postconditions that its caller needs.
#![tactic(auto)]

pub mod call;
mod calls;
pub mod deciding;
pub mod event;
mod generation;
mod machine;
pub mod reply;
pub mod state;
pub mod steps;
mod table;
pub mod theorems;

pub use call::{Answer, CallState, Outcome, Phase};
pub use deciding::decide;
pub use event::Event;
pub use reply::{Finished, Reply};
pub use state::{NoMemory, State, run, run_with};
