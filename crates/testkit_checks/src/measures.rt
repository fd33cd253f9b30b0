//! Measurements of the tables, the interners and the machine of all schedules. Workloads can also be counted without a clock.
pub mod handles;
pub mod held;
pub mod interning;
mod memory;
pub mod numbers;
pub mod records;
pub mod report;
pub mod schedules;
pub mod seats;
pub mod sets;
pub mod sharded;
pub mod shared;
mod sizes;
pub mod tasks;
pub mod texts;
mod work;
