//! An insertion-only hash table, for one owner or shared by threads, with proved contracts.
//!
//! - A [`HeldRawTable`] has one owner.
//! - A [`LockFreeRawTable`] is shared by threads.
//! - [`sharded`] has both over several shards.
//! - [`alone`] runs lists of calls on any single-owner table.
//! - [`stepped`] has calls on a shared table that take one step at a time.
//!
//! A table holds values and compares their targets, which [`AtomicValue`] defines. Calls take the hash of a target and closures
//! that compare and hash; a [`Law`] is a type that names, for contracts only, the equality and the hash that the caller means. A
//! [`Place`] is the address of a bucket that shows an entry; it stays valid when the table grows.
//!
//! This crate re-exports what the crates below it define and has no code of its own. A program that needs only the single-owner
//! table can name `table_held`, which uses no threads.
#![tactic(auto)]

pub mod raw;
pub mod sharded;
pub mod stepped;

pub use raw::{
    FIRST_CAPACITY, HeldIter, HeldRawTable, InsertCall, IntoIter, Iter, LockFreeRawTable,
    LookupCall, Low, Progress, Share, is_first_capacity,
};
pub use table_generations::atomic_value;
pub use table_generations::atomic_value::{AtomicValue, InPlace, Law};
pub use table_held::place::Place;
pub use table_held::{place, runs as alone};
