//! The table over shards as an `AloneTable`.

use crate::sharded::{HeldShardedTable, ShardPlace};
use std::alloc::Allocator;
use table_generations::atomic_value::{AtomicValue, Law};
use table_held::alone::{AloneTable, InsertAnswer, KeepsApart};

impl<T: AtomicValue, const SHARDS: usize, A: Allocator + Copy, L: Law<T::Target>> AloneTable<T, L>
    for HeldShardedTable<T, SHARDS, A> {
    ghost use Rattle.table_shards.specs.Shards.{sharded};
    ghost use Rattle.table_shards.specs.Empty.{shards_without_entries};

    type Place = ShardPlace;

    ghost shows = { sharded };

    ghost no_entries_is_lawful = { shards_without_entries T.target };

    fn place_alone<E, H>(
        &mut self,
        hash: u64,
        value: T,
        eq: &E,
        hash_fn: &H,
    ) -> InsertAnswer<ShardPlace, T>
    where
        E: Fn(&T::Target, &T::Target) -> bool,
        H: Fn(&T::Target) -> u64,
    {
        self.place_alone::<L, E, H>(hash, value, eq, hash_fn)
    }

    fn target_at(&self, place: ShardPlace) -> &T::Target {
        self.target_at(place)
    }

    fn lookup_alone<F: Fn(&T::Target) -> bool>(&self, hash: u64, test: F) -> Option<&T::Target> {
        self.lookup_alone::<L, F>(hash, test)
    }

    fn len_alone(&self) -> usize {
        self.len_alone()
    }
}

impl<T: AtomicValue, const SHARDS: usize, A: Allocator + Copy, L: Law<T::Target>> KeepsApart<T, L>
    for HeldShardedTable<T, SHARDS, A> {
    fn entries_are_apart() {}
}
