//! What rights, receipts and what stands for good say of each other.
ghost use Rattle.std.specs.Prelude.{◌≡◌, ◌≢◌, ℕ};
ghost use Rattle.table_slab.specs.Held.{IsRightTo, StandsAt, AreDistinct};
ghost use Rattle.table_slab.specs.Slabs.{SlabView};

use crate::rights::{Receipt, Receipts, Room, Written};
use crate::site::Site;
use crate::slab::{Right, Standing};
use std::alloc::Allocator;

/// States that a slot holds one value for good.
pub fn same_value<T>(_one: &Written<T>, _other: &Written<T>)
    requires { _one.now.of ≡ _other.now.of }
    ensures { _one.now.value ≡ _other.now.value }
{}

/// States that a word holds one value for good.
pub fn same_site<X>(_one: &Site<X>, _other: &Site<X>)
    ensures { _one.now.cell ≡ _other.now.cell → _one.now.value ≡ _other.now.value }
{}

/// States that two rights are of different slots.
pub fn rooms_apart<T>(_one: &mut Room<T>, _other: &mut Room<T>)
    ensures { (_one.new ≡ _one.old) × (_other.new ≡ _other.old)
        × (_one.old.of ≢ _other.old.of) }
{}

impl<T, A: Allocator> Right<T, A> {
    /// States that two rights are to different numbers of a slab.
    pub fn apart(&mut self, other: &mut Right<T, A>)
        ensures same { (self.new ≡ self.old) × (other.new ≡ other.old) }
        ensures apart { (s : SlabView) (m n : ℕ) → IsRightTo s m self.old → IsRightTo s n other.old → m ≢ n }
    {
        same_site(&self.site, &other.site);
        rooms_apart(&mut self.room, &mut other.room);
    }
}

impl<T> Receipt<T> {
    /// States that two receipts of one slab are of different numbers.
    pub fn apart(&mut self, _other: &mut Receipt<T>)
        requires slab { self.old.slab ≡ _other.old.slab }
        ensures same { (self.new ≡ self.old) × (_other.new ≡ _other.old) }
        ensures apart { self.old.number ≢ _other.old.number }
    {}
}

impl<T> Receipts<T> {
    /// States that no two of the receipts are of one number.
    pub fn apart(&mut self)
        ensures same { self.new ≡ self.old }
        ensures apart { AreDistinct self.old.entries }
    {}
}

impl<T, A: Allocator> Standing<T, A> {
    /// States that a number holds one value for good.
    pub fn agree(&self, other: &Standing<T, A>)
        requires { (s : SlabView) × (n : ℕ) × StandsAt s n self.now × StandsAt s n other.now }
        ensures { self.now.written.value ≡ other.now.written.value }
    {
        same_site(&self.site, &other.site);
        same_value(&self.written, &other.written);
    }
}
