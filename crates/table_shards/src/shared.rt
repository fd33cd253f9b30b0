//! Tables over several shards that threads share, and the conversion of a single-owner table into a shared one. Users name them
//! through `lock_free_hashtable`.
mod sharing;
mod table;

pub use sharing::Share;
pub use table::{IntoIter, Iter, ShardedLockFreeRawTable};
