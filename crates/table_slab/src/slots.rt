//! A row of slots with the memory that it lies in.
ghost use Rattle.std.specs.Prelude.{◌≡◌, ◌≢◌, ℕ, ◌<◌, List, length, Option, Some, None, get_or, slice_set, IfOk, IsSome};

use crate::rights::{Room, Rooms, Written};
use crate::row::{Deed, Row, Start, allocate, free};
use std::alloc::{AllocError, Allocator};
use std::marker::Model;
use std_alloc::room::may_hold;

/// Memory for values that threads share: each slot is written by who has the right to it, and read by everybody once it is
/// published. A clause sees the names of the slots, in order.
///
/// Dropping it frees the memory, and forgets the values that lie in it.
pub struct Slots<T, A: Allocator> {
    start: Start<T>,
    count: usize,
    row: Row<T>,
    deed: Deed<T, A>,
    alloc: A,
}

impl<T, A: Allocator> Model for Slots<T, A> {
    ghost use Rattle.std.specs.Prelude.{ℕ, List};
    ghost use Rattle.std.specs.Coded.{coded_list, coded_ℕ};
    ghost use Rattle.table_slab.specs.Slots.{BelongTogether};

    ghost Value = { List ℕ };

    ghost coded = { coded_list coded_ℕ };

    ghost view = { λ s. s.row.names };

    ghost invariant = { λ s. BelongTogether s.start s.count s.row s.deed s.alloc };
}

impl<T, A: Allocator> Slots<T, A> {
    /// Asks for memory for `count` values, and returns it with the right to each slot. A refusal leaves nothing.
    pub fn new(alloc: A, count: usize) -> Result<(Slots<T, A>, Rooms<T>), AllocError>
        ensures count { IfOk result (λ r. length r.0 ≡ count) }
        ensures rights { IfOk result (λ r. r.1.names ≡ r.0) }
    {
        if !may_hold::<T>(count) {
            return Err(AllocError);
        }
        let (start, row, rooms, deed) = allocate(&alloc, count)?;
        let slots = Slots {
            start,
            count,
            row,
            deed,
            alloc,
        };
        Ok((slots, rooms))
    }

    /// Returns the number of slots.
    pub fn count(&self) -> usize
        ensures { result ≡ length self.now }
    {
        self.count
    }

    /// Writes `value` into the slot at `offset`, by the right to it. Nothing is read or dropped.
    pub fn put(&self, offset: usize, room: Room<T>, value: T) -> Room<T>
        requires inside { offset < length self.now }
        requires of { room.of ≡ get_or self.now offset 0 }
        requires empty { room.value ≡ None }
        ensures of { result.of ≡ room.of }
        ensures value { result.value ≡ Some value }
    {
        self.row.put(self.start, offset, room, value)
    }

    /// Moves the value out of the slot at `offset`, by the right to it, and leaves the slot empty.
    pub fn take(&self, offset: usize, room: Room<T>) -> (T, Room<T>)
        requires inside { offset < length self.now }
        requires of { room.of ≡ get_or self.now offset 0 }
        requires full { IsSome room.value }
        ensures value { room.value ≡ Some result.0 }
        ensures of { result.1.of ≡ room.of }
        ensures empty { result.1.value ≡ None }
    {
        self.row.take(self.start, offset, room)
    }

    /// Returns the value in the slot at `offset`, to whoever shows that it is there for good.
    pub fn get<'a>(&'a self, offset: usize, written: &Written<T>) -> &'a T
        requires inside { offset < length self.now }
        requires of { written.now.of ≡ get_or self.now offset 0 }
        ensures { result.now ≡ written.now.value }
    {
        self.row.get(self.start, offset, written)
    }

    /// Moves a published value out of the slot at `offset`. The slot is empty, and has another name from then on.
    pub fn take_out(&mut self, offset: usize, written: &Written<T>) -> (T, Room<T>)
        requires inside { offset < length self.old }
        requires of { written.now.of ≡ get_or self.old offset 0 }
        ensures value { result.0 ≡ written.now.value }
        ensures empty { result.1.value ≡ None }
        ensures other { result.1.of ≢ written.now.of }
        ensures names { self.new ≡ slice_set self.old offset result.1.of }
    {
        self.row.take_out(self.start, offset, written)
    }
}

impl<T, A: Allocator> Drop for Slots<T, A> {
    fn drop(self) {
        let Slots {
            start,
            count,
            row,
            deed,
            alloc,
        } = self;
        free(&alloc, start, count, row, deed);
    }
}
