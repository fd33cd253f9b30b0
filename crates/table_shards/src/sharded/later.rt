//! Shards that are taken out of a table one after the other.
ghost use Rattle.std.specs.Prelude.{◌≡◌, ◌+◌, ◌<◌, ◌∷◌, drop, length};
ghost use Rattle.std.specs.Iterator.{YieldsFirst};

use std::alloc::Allocator;
use std::marker::Model;
use std::mem;
use table_generations::atomic_value::AtomicValue;
use table_held::raw::HeldRawTable;

/// The shards that are still to be taken out. A contract sees their list. A shard that was taken out is replaced by an empty
/// table.
#[derive(Drop)]
pub(super) struct Later<T: AtomicValue, const SHARDS: usize, A: Allocator + Copy> {
    pub(super) shards: [HeldRawTable<T, A>; SHARDS],
    pub(super) begun: usize,
}

impl<T: AtomicValue, const SHARDS: usize, A: Allocator + Copy> Model for Later<T, SHARDS, A> {
    ghost use Rattle.std.specs.Prelude.{◌≡◌, ◌≤◌, List, drop, length};
    ghost use Rattle.table_held.specs.Table.{HeldTable};

    ghost Value = { List (HeldTable T) };

    ghost view = { λ l. drop l.begun l.shards };

    ghost invariant = { λ l. (length l.shards ≡ SHARDS) × (l.begun ≤ SHARDS) };
}

/// Takes a shard out, and leaves an empty table in its place.
fn take_at<T: AtomicValue, A: Allocator + Copy>(
    shards: &mut [HeldRawTable<T, A>],
    number: usize,
) -> HeldRawTable<T, A>
    requires { number < length shards.old }
    ensures { drop number shards.old ≡ result ∷ drop (number + 1) shards.new }
{
    let shard = &mut shards[number];
    let empty = shard.new_like();
    mem::replace(shard, empty)
}

impl<T: AtomicValue, const SHARDS: usize, A: Allocator + Copy> Later<T, SHARDS, A> {
    /// Takes out the next shard, or returns `None` if none is left. Does not allocate.
    pub(super) fn next_shard(&mut self) -> Option<HeldRawTable<T, A>>
        ensures { YieldsFirst (λ rest. rest) self.old result self.new }
    {
        let number = self.begun;
        if number == SHARDS {
            return None;
        }
        self.begun = number + 1;
        Some(take_at(self.shards.as_mut_slice(), number))
    }

    /// Returns the shards that are left.
    pub(super) fn as_slice(&self) -> &[HeldRawTable<T, A>]
        ensures { result.now ≡ self.now }
    {
        let shards = self.shards.as_slice();
        &shards[self.begun..]
    }
}
