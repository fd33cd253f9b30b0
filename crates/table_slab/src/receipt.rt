//! Receipts for rights that were given up.
ghost use Rattle.std.specs.Prelude.{◌≡◌, ◌≤◌, ◌++◌, [], ◌∷◌, length, Some, IsSome};
ghost use Rattle.table_slab.specs.Held.{IsRightTo, StandsAt};
ghost use Rattle.table_slab.specs.Slabs.{IsSlot};

use crate::chunk::Chunk;
use crate::rights::{Receipt, Receipts, Room, Written};
use crate::site::Site;
use crate::slab::{Right, Slab, Standing};
use std::alloc::Allocator;
use std::marker::PhantomData;
use table_cell::Low;

impl<T> Receipt<T> {
    /// Returns what shows that the number holds the value for good.
    pub fn shows<A: Allocator>(&self) -> Standing<T, A>
        ensures of { StandsAt self.now.slab self.now.number result }
        ensures value { result.written.value ≡ self.now.value }
    {
        let (site, written) = shown(self);
        Standing { site, written }
    }
}

/// Returns what everyone may know of the cell and of the slot of a number that has a receipt.
fn shown<T, A: Allocator>(_receipt: &Receipt<T>) -> (Site<Chunk<T, A>>, Written<T>)
    ensures of { IsSlot _receipt.now.slab _receipt.now.number result.0.cell result.0.value result.1.of }
    ensures value { result.1.value ≡ _receipt.now.value }
{
    (
        Site {
            marker: PhantomData,
        },
        Written {
            marker: PhantomData,
        },
    )
}

/// Exchanges the right to a number for its receipt.
fn receipt_for<T, A: Low + Copy>(
    _slab: &Slab<T, A>,
    _number: u64,
    site: Site<Chunk<T, A>>,
    room: Room<T>,
) -> Receipt<T>
    requires of { IsSlot _slab.now _number site.cell site.value room.of }
    requires full { IsSome room.value }
    ensures of { (result.slab ≡ _slab.now) × (result.number ≡ _number) }
    ensures value { room.value ≡ Some result.value }
{
    let Site { marker: _ } = site;
    let Room { marker: _ } = room;
    Receipt {
        marker: PhantomData,
    }
}

impl<T, A: Low + Copy> Slab<T, A> {
    /// Gives the right to this number up for a receipt, so that from here on everyone may read the value. Nothing happens in memory.
    pub fn publish(&self, number: u64, right: Right<T, A>) -> Receipt<T>
        requires number { IsRightTo self.now number right }
        requires full { IsSome right.room.value }
        ensures of { (result.slab ≡ self.now) × (result.number ≡ number) }
        ensures value { right.room.value ≡ Some result.value }
    {
        let Right { site, room } = right;
        receipt_for(self, number, site, room)
    }
}

impl<T> Receipts<T> {
    /// Returns the receipts of no number, of this slab.
    pub fn none<A: Low + Copy>(_slab: &Slab<T, A>) -> Receipts<T>
        ensures { (result.slab ≡ _slab.now) × (result.entries ≡ []) }
    {
        Receipts {
            marker: PhantomData,
        }
    }

    /// Puts a receipt behind these.
    pub fn with(self, receipt: Receipt<T>) -> Receipts<T>
        requires { receipt.slab ≡ self.slab }
        ensures slab { result.slab ≡ self.slab }
        ensures entries { result.entries ≡ self.entries ++ (receipt.number, receipt.value) ∷ [] }
    {
        let Receipt { marker: _ } = receipt;
        let Receipts { marker: _ } = self;
        Receipts {
            marker: PhantomData,
        }
    }

    /// Puts the other receipts behind these.
    pub fn join(self, other: Receipts<T>) -> Receipts<T>
        requires { other.slab ≡ self.slab }
        ensures slab { result.slab ≡ self.slab }
        ensures entries { result.entries ≡ self.entries ++ other.entries }
    {
        let Receipts { marker: _ } = other;
        let Receipts { marker: _ } = self;
        Receipts {
            marker: PhantomData,
        }
    }

    /// Returns the first `count` receipts, and the others.
    pub fn split(self, count: usize) -> (Receipts<T>, Receipts<T>)
        requires { count ≤ length self.entries }
        ensures slab { (result.0.slab ≡ self.slab) × (result.1.slab ≡ self.slab) }
        ensures entries { self.entries ≡ result.0.entries ++ result.1.entries }
        ensures count { length result.0.entries ≡ count }
    {
        let Receipts { marker: _ } = self;
        let _ = count;
        (
            Receipts {
                marker: PhantomData,
            },
            Receipts {
                marker: PhantomData,
            },
        )
    }
}
