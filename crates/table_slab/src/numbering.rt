//! Which slot has which number, in chunks that double.
ghost use Rattle.std.specs.Prelude.{◌≡◌, ℕ, ◌+◌, ◌^◌, ◌<◌, ◌≤◌};
ghost use Rattle.table_slab.specs.Numbering.{chunk_len, IsAt, IsSmall};

use std::cmp::min;

/// Returns the number of slots of the chunk at this place: `2 ^ bits` at place 0, and twice as many at each next place.
pub fn chunk_len(bits: u32, place: u32) -> u64
    requires { bits + place < 32 }
    ensures len { result ≡ chunk_len bits place }
    ensures few { result < 2 ^ 32 }
{
    1 << (bits + place)
}

/// Returns where a number lies: the place of its chunk, and its offset there.
pub fn where_is(bits: u32, number: u64) -> (u32, u64)
    requires bits { bits < 32 }
    requires number { number < 2 ^ 32 }
    ensures { IsAt bits number result.0 result.1 }
{
    let counted = number + (1 << bits);
    let top = counted.ilog2();
    (top - bits, counted - (1 << top))
}

/// Returns the number of the slot at this offset of the chunk at this place.
pub fn number_at(bits: u32, place: u32, offset: u64) -> u64
    requires few { bits + place < 32 }
    requires within { offset < chunk_len bits place }
    ensures at { IsAt bits result place offset }
    ensures few { result < 2 ^ 32 }
{
    chunk_len(bits, place) - chunk_len(bits, 0) + offset
}

/// Returns how many slots of the chunk at this place may be handed out, from its first one on: those with numbers below
/// `2 ^ 32 - 2`.
pub(crate) fn usable_len(bits: u32, place: u32) -> u64
    requires { bits + place < 32 }
    ensures within { result ≤ chunk_len bits place }
    ensures small { (number offset : ℕ) → IsAt bits number place offset → offset < result → IsSmall number }
    ensures all { (number offset : ℕ) → IsAt bits number place offset → IsSmall number → offset < result }
{
    let before = number_at(bits, place, 0);
    min(chunk_len(bits, place), (1 << 32) - 2 - before)
}
