//! A single-owner, insertion-only hash table.
//!
//! A [`HeldRawTable`] is a set of values: of several equal ones it keeps the first. It compares and hashes the target of a value,
//! which [`AtomicValue`] defines. Each call takes the hash of a target and closures that compare and hash; a [`Law`] is a type
//! that names, for contracts only, the equality and the hash that the caller means. A [`Place`] is the address of a bucket that
//! shows an entry; it stays valid when the table grows. [`runs`] has lists of calls on any single-owner table, and theorems about them. This crate and those below it use no threads and no locks.
#![tactic(auto)]

pub mod alone;
pub mod place;
pub mod raw;
pub mod runs;

pub use place::Place;
pub use raw::{FIRST_CAPACITY, HeldIter, HeldRawTable, IntoIter, is_first_capacity};
pub use table_generations::atomic_value::{AtomicValue, InPlace, Law};
