//! What a developer runs on the tables by `tool_checks`: `replays` compares schedules, `stress` runs rounds of threads, `bench` measures.
//!
//! - [`set_rounds`] runs rounds in which threads insert values into one set, and accounts for each value.
//! - [`measures`] has the measurements, whose workloads can also be counted without a clock. [`bench`] has their names.
#![tactic(auto)]

pub mod bench;
pub mod check;
pub mod measures;
pub mod program;
pub mod set_rounds;
