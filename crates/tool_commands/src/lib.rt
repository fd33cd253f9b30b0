//! The commands of `tablerun`, over its arguments and streams: calls on tables of pairs, events of the machine, and jobs of threads.
//!
//! - [`program`] runs the command that the arguments name ([`arguments`]).
//! - [`calls`], [`pairs`], [`shards`] and [`stores`] run calls on tables. [`spelling`] reads them, and [`replies`] and [`answers`] write
//!   what they return.
//! - [`stress`], [`jobs`], [`workers`], [`gate`] and [`seats`] run threads. A [`job`] has a kind ([`kinds`]), and its workers have an
//!   ending ([`endings`]).
//! - [`schedules`] runs schedules on the state machine, by lines of [`events`].
//! - [`faults`] has what a command ends by.
#![tactic(auto)]

pub mod answers;
pub mod arguments;
pub mod calls;
pub mod endings;
pub mod events;
pub mod faults;
pub mod gate;
pub mod job;
pub mod jobs;
mod joining;
pub mod kinds;
mod lines;
pub mod pairs;
pub mod program;
pub mod replies;
pub mod schedules;
pub mod seats;
pub mod shards;
pub mod spelling;
pub mod stores;
pub mod stress;
pub mod workers;
