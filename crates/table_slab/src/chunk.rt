//! A chunk of slots, with the counter that hands them out.
ghost use Rattle.std.specs.Prelude.{◌≡◌, ℕ, ◌<◌, ◌≤◌, ◌+◌, ◌^◌, length, IfOk, IfSome};
ghost use Rattle.table_slab.specs.Counting.{part};

use crate::counter::{Counter, Handed};
use crate::rights::Rooms;
use crate::slots::Slots;
use std::alloc::{AllocError, Allocator};
use std::marker::Model;
use table_cell::Homed;

/// Slots, with the counter that hands out the rights to them. A clause sees the names of the slots.
#[derive(Drop)]
pub struct Chunk<T, A: Allocator> {
    slots: Slots<T, A>,
    counter: Counter<T>,
}

impl<T, A: Allocator> Model for Chunk<T, A> {
    ghost use Rattle.std.specs.Prelude.{List, ℕ, ◌≡◌};

    ghost Value = { List ℕ };

    ghost view = { λ c. c.slots };

    ghost invariant = { λ c. c.counter.1 ≡ c.slots };
}

/// A chunk fits every home: it names no block.
impl<T, A: Allocator> Homed for Chunk<T, A> {
    ghost fits = { λ _ _. Unit {0} };
}

impl<T, A: Allocator> Chunk<T, A> {
    /// Returns the slots.
    pub(crate) fn slots(&self) -> &Slots<T, A>
        ensures { result.now ≡ self.now }
    {
        &self.slots
    }

    /// Takes the slots out, and ends the counter.
    pub(crate) fn into_slots(self) -> Slots<T, A>
        ensures { result ≡ self }
    {
        let Chunk { slots, counter: _ } = self;
        slots
    }

    /// Hands out slots in a row, up to `most`, of those below the offset `end`: the returned ones, or else the next ones. `None`:
    /// `most` is 0, no such slot is left but those that other threads take or return, or more than `most` were returned.
    pub(crate) fn next(&self, most: u64, end: u64) -> Option<Handed<T>>
        ensures some { IfSome result (λ h. (0 < h.count) × (h.count ≤ most)) }
        ensures within { IfSome result (λ h. (h.offset + h.count ≤ end) × (h.offset + h.count ≤ length self.now)) }
        ensures rooms { IfSome result (λ h. h.rooms.names ≡ part self.now h.offset h.count) }
    {
        self.counter.next(most, end)
    }

    /// Keeps `count` slots from `offset` on, to hand them out again. If the chunk already keeps returned slots, it drops the rights
    /// instead, and these slots are never handed out again.
    pub(crate) fn give_back(&self, offset: u64, count: u64, rooms: Rooms<T>)
        requires { rooms.names ≡ part self.now offset count }
    {
        self.counter.give_back(offset, count, rooms);
    }
}

impl<T, A: Allocator + Copy> Chunk<T, A> {
    /// Makes a chunk of `count` slots. A refused request leaves nothing.
    pub(crate) fn new(alloc: A, count: usize) -> Result<Self, AllocError>
        ensures { IfOk result (λ c. length c ≡ count) }
    {
        let (slots, rooms) = Slots::new(alloc, count)?;
        let counter = Counter::new(rooms, count as u64);
        Ok(Chunk { slots, counter })
    }
}
