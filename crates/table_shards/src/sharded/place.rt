//! The address of an entry in a table over shards.

use table_held::place::Place;

/// The place of an entry in a table over shards. It stays valid as a `Place` does, and is meant only for the table that made it.
#[derive(Clone, Copy, Debug, PartialEq, Eq)]
pub struct ShardPlace {
    /// The number of the shard. The first is 0.
    pub shard: usize,
    /// The place in that shard.
    pub place: Place,
}
