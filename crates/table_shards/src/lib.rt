//! Tables over several shards, of one owner or shared by threads, and the conversion of a single-owner table into a shared one.
//!
//! Users name them through `lock_free_hashtable`. Module [`sharded`] has the single-owner tables, and [`shared`] the others.
#![tactic(auto)]

pub mod sharded;
pub mod shared;
