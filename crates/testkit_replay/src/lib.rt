//! Runs a schedule of calls on a running table, and compares what each step returns with what the machine of `table_core` returns.
#![tactic(auto)]

mod events;
pub mod fault;
pub mod item;
mod program;
mod replay;
mod running;
pub mod schedules;
pub mod script;
pub mod whole_calls;

pub use crate::program::run_replays;
