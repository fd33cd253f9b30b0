//! The parts of a single-owner table, for a caller that goes on with its generations.
ghost use Rattle.std.specs.Prelude.{◌≡◌};
ghost use Rattle.table_generations.specs.Buckets.{shown_all};
ghost use Rattle.table_terms.specs.Capacities.{IsFirstCapacity};
ghost use Rattle.table_held.specs.Table.{contents_in, shown_rows, AreOfHome};

use crate::raw::HeldRawTable;
use std::alloc::Allocator;
use table_cell::Home;
use table_generations::atomic_value::AtomicValue;
use table_generations::fixed::Generation;

/// The parts of a single-owner table. The blocks of its entries live in `home`. Dropping the parts leaks those blocks.
pub struct HeldParts<T: AtomicValue, A: Allocator + Copy> {
    /// The number of buckets that the first generation has, or will have.
    pub first_capacity: usize,
    pub home: Home,
    /// The generations before the current one, oldest first.
    pub earlier: Vec<Generation<T, A>, A>,
    /// The current generation. It has no bucket until the first insert makes one.
    pub current: Generation<T, A>,
    pub alloc: A,
}

impl<T: AtomicValue, A: Allocator + Copy> HeldRawTable<T, A> {
    /// Takes the table apart. Each bucket still shows the entry that it showed. Does not allocate and reads no bucket.
    pub fn into_parts(self) -> HeldParts<T, A>
        ensures first { result.first_capacity ≡ self.first_capacity }
        ensures allowed { IsFirstCapacity result.first_capacity }
        ensures current { shown_all result.current.contents ≡ self.buckets }
        ensures shown { shown_rows (contents_in result.earlier.items) result.current.contents
            ≡ self.generations }
        ensures home { AreOfHome result.home.id result.earlier.items result.current }
    {
        let HeldRawTable {
            first_capacity,
            home,
            earlier,
            current,
            alloc,
        } = self;
        HeldParts {
            first_capacity,
            home,
            earlier,
            current,
            alloc,
        }
    }
}
