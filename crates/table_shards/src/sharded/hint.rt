//! The number of entries that an iterator over shards has left.
ghost use Rattle.std.specs.Prelude.{◌≡◌, ◌+◌, ◌≤◌, ◌^◌, length, MatchOption};
ghost use Rattle.std.specs.Iterator.SizeHint.{IsExactHint};
ghost use Rattle.std.specs.List.{flat_map};
ghost use Rattle.table_held.specs.Table.{entries};

use std::alloc::Allocator;
use table_generations::atomic_value::AtomicValue;
use table_held::raw::HeldRawTable;

/// Returns `entries_before` plus the number of entries of these shards, or `None` if the sum passes `usize::MAX`.
fn count_with<T: AtomicValue, A: Allocator + Copy>(
    entries_before: usize,
    shards: &[HeldRawTable<T, A>],
) -> Option<usize>
    ensures { let all = entries_before + length (flat_map entries shards.now) in MatchOption result
        (2 ^ 64 ≤ all) (λ count. count ≡ all) }
{
    let mut count = entries_before;
    for shard in shards {
        count = count.checked_add(shard.len_alone())?;
    }
    Some(count)
}

/// Returns the size hint of an iterator that has `entries_before` entries left in one shard, and then those of these shards.
pub(super) fn hint_with<T: AtomicValue, A: Allocator + Copy>(
    entries_before: usize,
    shards: &[HeldRawTable<T, A>],
) -> (usize, Option<usize>)
    ensures { IsExactHint result (entries_before + length (flat_map entries shards.now)) }
{
    match count_with(entries_before, shards) {
        Some(count) => (count, Some(count)),
        None => (usize::MAX, None),
    }
}
