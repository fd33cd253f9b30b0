//! The values of one generation, taken out after its home has ended.
ghost use Rattle.std.specs.Prelude.{◌≡◌, []};
ghost use Rattle.std.specs.Iterator.{YieldsFirst};
ghost use Rattle.table_generations.specs.Buckets.{owned_values};

use crate::atomic_value::AtomicValue;
use crate::fixed::Generation;
use std::alloc::Allocator;
use std::marker::Model;
use table_cell::{Buckets, Closed};

/// An iterator over the values that the buckets of a generation own, in the order of the buckets. A contract sees the list of
/// those that are left. `drop_rest` drops them; dropping the iterator instead leaks their blocks.
#[derive(Drop)]
pub struct OwnValues<T: AtomicValue, A: Allocator + Copy> {
    buckets: Buckets<T, A>,
}

impl<T: AtomicValue, A: Allocator + Copy> Model for OwnValues<T, A> {
    ghost use Rattle.table_generations.specs.Generations.{OwnValuesView, own_values_of};

    ghost Value = { OwnValuesView T };

    ghost view = { λ it. own_values_of it.buckets };
}

impl<T: AtomicValue, A: Allocator + Copy> OwnValues<T, A> {
    /// Returns the next value, moved out of its block, which is freed.
    pub fn next_value(&mut self, closed: &Closed) -> Option<T>
        requires { self.old.home ≡ closed.now.id }
        ensures home { self.new.home ≡ self.old.home }
        ensures first { YieldsFirst (λ rest. rest) self.old.values result self.new.values }
    {
        let alloc = self.buckets.alloc();
        while let Some(bucket) = self.buckets.next_bucket() {
            if let Some(value) = bucket.take_alone(closed, alloc) {
                return Some(value);
            }
        }
        None
    }

    /// Drops the values that are left, and frees their blocks.
    pub fn drop_rest(&mut self, closed: &Closed)
        requires { self.old.home ≡ closed.now.id }
        ensures { self.new.values ≡ [] }
    {
        while let Some(value) = self.next_value(closed) {
            drop(value);
        }
    }
}

impl<T: AtomicValue, A: Allocator + Copy> Generation<T, A> {
    /// Takes the generation apart. Does not allocate.
    pub fn into_own_values(self) -> OwnValues<T, A>
        ensures home { result.home ≡ self.home }
        ensures values { result.values ≡ owned_values self.contents }
    {
        OwnValues {
            buckets: self.row.into_buckets(),
        }
    }

    /// Drops the generation: drops each value that a bucket owns, whether it was set through `&mut` or `&`, and frees its block.
    /// Does not allocate.
    pub fn drop_values(self, closed: &Closed)
        requires { self.home ≡ closed.now.id }
    {
        let mut buckets = self.row.into_buckets();
        let alloc = buckets.alloc();
        while let Some(bucket) = buckets.next_bucket() {
            let note = bucket.as_ref().note();
            drop(bucket.take(closed, alloc, note));
        }
    }
}
