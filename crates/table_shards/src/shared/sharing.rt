//! The conversion of a single-owner table into one that threads share.
ghost use Rattle.std.specs.Prelude.{◌≡◌, ℕ, List, [], ◌∷◌};
ghost use Rattle.table_shards.specs.SharedTables.{IsCurrent};

use std::alloc::Allocator;
use table_generations::atomic_value::AtomicValue;
use table_held::raw::{HeldParts, HeldRawTable};
use table_shared::LockFreeRawTable;

/// A single-owner table that can become one that threads share.
pub trait Share {
    ghost use Rattle.table_shards.specs.SharedTables.{Rows};

    /// The values of the table.
    type Value;

    /// The table that threads share.
    type Shared;

    ghost capacities: { Self → List ℕ };

    ghost rows: { Self → List (Rows Self.Value) };

    ghost shared_capacities: { Self.Shared → List ℕ };

    ghost shared_rows: { Self.Shared → List (Rows Self.Value) };

    /// Turns the table into one that threads share. Each shard keeps its first capacity and its generations, bucket by bucket.
    /// Does not allocate, and can't be refused.
    fn share(self) -> Self::Shared
        ensures first { shared_capacities result ≡ capacities self }
        ensures shared { shared_rows result ≡ rows self };
}

impl<T: AtomicValue, A: Allocator + Copy> Share for HeldRawTable<T, A> {
    type Value = T;

    type Shared = LockFreeRawTable<T, A>;

    ghost capacities = { λ t. t.first_capacity ∷ [] };

    ghost rows = { λ t. t.generations ∷ [] };

    ghost shared_capacities = { λ t. t.first_capacity ∷ [] };

    ghost shared_rows = { λ t. t.shared ∷ [] };

    /// Turns the table into one that threads share, bucket by bucket. Does not allocate, and can't be refused.
    fn share(self) -> LockFreeRawTable<T, A>
        ensures first { result.first_capacity ≡ self.first_capacity }
        ensures shared { result.shared ≡ self.generations }
        ensures current { IsCurrent self.buckets result.shared }
    {
        let HeldParts {
            first_capacity,
            home,
            earlier,
            current,
            alloc,
        } = self.into_parts();
        LockFreeRawTable::of_parts(first_capacity, home, earlier, current, alloc)
    }
}
