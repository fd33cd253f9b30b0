//! Who may write a slot, and who may read it. None of these has bytes.
ghost use Rattle.std.specs.Prelude.{◌≡◌, ℕ, ◌<◌, ◌≤◌, List, [], ◌∷◌, ◌++◌, length, Option, Some, None, IsSome};
ghost use denote.Sharing.{said};
ghost use Rattle.std.specs.Coded.{coded_option, coded_list, coded×, coded_ℕ};
ghost use Rattle.table_slab.specs.Rights.{room, rooms, written};
ghost use Rattle.table_slab.specs.Shelved.{coded_slab, standing};
ghost use Rattle.table_slab.specs.Slabs.{SlabView};
ghost use Rattle.table_slab.specs.Spent.{spent, spents};

use std::fmt;
use std::fmt::{Debug, Formatter, Write};
use std::marker::{Model, PhantomData, Send, Sync};

/// The right to the slot `of`, which holds `value`, and which no one else reads.
#[derive(Drop)]
pub struct Room<T> {
    pub marker: PhantomData<T>,
    pub ghost of: { ℕ },
    pub ghost value: { Option T } by { coded_option T.code },
}

impl<T> Model for Room<T> {
    ghost also_owns = { λ r. room T.row r.of r.value };
}

/// The rights to the slots `names`, all empty.
#[derive(Drop)]
pub struct Rooms<T> {
    pub marker: PhantomData<T>,
    pub ghost names: { List ℕ } by { coded_list coded_ℕ },
}

impl<T> Model for Rooms<T> {
    ghost also_owns = { λ r. rooms T.row r.names };
}

/// What shows that the slot `of` holds `value` for good.
#[derive(Drop)]
pub struct Written<T> {
    pub marker: PhantomData<T>,
    pub ghost of: { ℕ },
    pub ghost value: { T },
}

impl<T> Model for Written<T> {
    ghost also_owns = { λ w. written T.row w.of w.value };

    ghost also_shares = { λ w _ κ. said (written T.row w.of w.value) κ };
}

/// What is left of a right to a number that was given up. It shows that the number `number` of the slab `slab` holds `value` for good. It
/// has no bytes, it can be sent, and there is only one for a number.
#[derive(Drop)]
pub struct Receipt<T> {
    pub marker: PhantomData<T>,
    pub ghost slab: { SlabView } by { coded_slab },
    pub ghost number: { ℕ },
    pub ghost value: { T },
}

impl<T> Model for Receipt<T> {
    ghost also_owns = { λ r. spent T.row r.slab r.number r.value };

    ghost also_shares = { λ r _ κ. said (standing T.row r.slab r.number r.value) κ };
}

/// The receipts of these numbers of the slab `slab`, with the value that each of them holds for good. No two are of one number. They have no
/// bytes, and can be sent.
#[derive(Drop)]
pub struct Receipts<T> {
    pub marker: PhantomData<T>,
    pub ghost slab: { SlabView } by { coded_slab },
    pub ghost entries: { List (ℕ × T) } by { coded_list (coded× coded_ℕ T.code) },
}

impl<T> Model for Receipts<T> {
    ghost also_owns = { λ r. spents T.row r.slab r.entries };
}

impl<T> Debug for Receipt<T> {
    /// Writes the word `Receipt`.
    fn fmt<W: Write>(&self, f: &mut Formatter<W>) -> fmt::Result {
        f.write_str("Receipt")
    }
}

impl<T> Room<T> {
    /// Gives the right up, so that from here on everyone may read the value. Nothing happens in memory.
    pub fn publish(self) -> Written<T>
        requires full { IsSome self.value }
        ensures of { result.of ≡ self.of }
        ensures value { self.value ≡ Some result.value }
    {
        let Room { marker: _ } = self;
        Written {
            marker: PhantomData,
        }
    }
}

impl<T> Rooms<T> {
    /// Returns the rights to no slot.
    pub fn none() -> Rooms<T>
        ensures { result.names ≡ [] }
    {
        Rooms {
            marker: PhantomData,
        }
    }

    /// Returns the right to the first slot, and the others.
    pub fn first(self) -> (Room<T>, Rooms<T>)
        requires { 0 < length self.names }
        ensures names { self.names ≡ result.0.of ∷ result.1.names }
        ensures empty { result.0.value ≡ None }
    {
        let Rooms { marker: _ } = self;
        (
            Room {
                marker: PhantomData,
            },
            Rooms {
                marker: PhantomData,
            },
        )
    }

    /// Returns the rights to the first `count` slots, and the others.
    pub fn split(self, count: usize) -> (Rooms<T>, Rooms<T>)
        requires { count ≤ length self.names }
        ensures names { self.names ≡ result.0.names ++ result.1.names }
        ensures count { length result.0.names ≡ count }
    {
        let Rooms { marker: _ } = self;
        let _ = count;
        (
            Rooms {
                marker: PhantomData,
            },
            Rooms {
                marker: PhantomData,
            },
        )
    }
}

impl<T> Written<T> {
    /// Returns a copy.
    pub fn again(&self) -> Written<T>
        ensures { (result.of ≡ self.now.of) × (result.value ≡ self.now.value) }
    {
        Written {
            marker: PhantomData,
        }
    }
}

unsafe impl<T> Send for Room<T> {}

unsafe impl<T> Send for Rooms<T> {}

unsafe impl<T> Send for Written<T> {}

unsafe impl<T> Sync for Written<T> {}

unsafe impl<T> Send for Receipt<T> {}

unsafe impl<T> Sync for Receipt<T> {}

unsafe impl<T> Send for Receipts<T> {}
