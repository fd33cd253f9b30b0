//! Tables over several shards, each a table of its own. [`Share::share`] turns a [`HeldShardedTable`] into a
//! [`ShardedLockFreeRawTable`].

pub use table_held::runs::laws;
pub use table_shards::sharded::{HeldIntoIter, HeldIter, HeldShardedTable, ShardPlace, place};
pub use table_shards::shared::{IntoIter, Iter, ShardedLockFreeRawTable, Share};
