//! A generation moved to another home after its own has ended.
ghost use Rattle.std.specs.Prelude.{◌≡◌, ◌≤◌, [], ◌∷◌, length};
ghost use Rattle.table_cell.specs.Rehomed.{AreRehomed};
ghost use Rattle.table_generations.specs.Buckets.{owned_values, shown_entries};

use crate::atomic_value::AtomicValue;
use crate::fixed::Generation;
use std::alloc::Allocator;
use table_cell::{BucketRef, Closed, Home, Mark, Row};

/// Returns 1 for a bucket that was set through `&mut`, and 0 for any other.
fn count_one<T: AtomicValue, A: Allocator + Copy>(bucket: &BucketRef<'_, T, A>) -> usize
    ensures counted { result ≡ length (shown_entries (bucket.now.content ∷ [])) }
    ensures one { result ≤ 1 }
{
    match bucket.mark() {
        Mark::Unmarked => 0,
        _ => 1,
    }
}

/// Returns the number of buckets that were set through `&mut`.
fn count_set<T: AtomicValue, A: Allocator + Copy>(row: &Row<T, A>) -> usize
    ensures { result ≡ length (shown_entries row.now.contents) }
{
    let mut count = 0;
    for index in 0..row.len() {
        count += count_one(&row.at(index));
    }
    count
}

impl<T: AtomicValue, A: Allocator + Copy> Generation<T, A> {
    /// Moves the generation to another home, without the buckets that name entries. Each bucket keeps the entry that it owns,
    /// whether it was set through `&mut` or `&`, and counts as set through `&mut` from then on. Does not allocate.
    pub fn rehomed(self, closed: &Closed, home: &Home) -> Self
        requires { self.home ≡ closed.now.id }
        ensures home { result.home ≡ home.now.id }
        ensures from { result.from ≡ self.from }
        ensures own { AreRehomed self.contents result.contents }
        ensures counted { result.size ≡ length (owned_values result.contents) }
    {
        let row = self.row.rehomed(closed, home);
        let size = count_set(&row);
        Generation { row, size }
    }
}
