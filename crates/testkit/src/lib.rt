//! What tests share: an allocator that refuses, values that count their drops, replies of calls, schedules, and streams.
//!
//! - [`refusing`] has the allocator. It also makes requests wait for one another, and counts blocks.
//! - [`counting`] has the values that tests insert into tables, and counts of the outcomes.
//! - [`reply`] has what calls on tables of numbers return.
//! - [`schedules`] has schedules for tests and measurements of the machine.
//! - [`streams`] has arguments for programs, and a reader that fails.
#![tactic(auto)]

pub mod counting;
pub mod refusing;
pub mod reply;
pub mod schedules;
pub mod streams;
