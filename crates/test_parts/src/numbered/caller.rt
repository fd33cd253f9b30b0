//! A generation of numbers with its slab, and the calls that the rows of tests name.
ghost use Rattle.std.specs.Prelude.{◌≡◌, IfOk, IfSome, None};
ghost use Rattle.table_slab.specs.Held.{IsRightTo};
ghost use Rattle.table_numbered.specs.Words.{IsNumber};

use super::laws::Fours;
use crate::same::assert_same;
use std::alloc::AllocError;
use std::process::Abort;
use table_cell::Low;
use table_numbered::{NumberedGeneration, Placing, Probed, SameAs};
use table_slab::{Right, Run, Slab};

/// The call that a row makes with its number.
#[derive(Clone, Copy)]
pub(crate) enum By {
    /// Places the number in a slot of its own.
    Put,
    /// Places the number. If it is returned, places the number after it in the slot that was returned.
    PutOrNext,
    /// Probes for the number.
    Probe,
    /// Looks the number up, and reads the entry once more by the number of its slot.
    Show,
    /// Asks whether an entry has this number.
    Has,
}

/// How a call ended. A number that was placed or found comes with the number of its slot.
#[derive(PartialEq, Debug, Clone, Copy)]
pub(crate) enum CallEnd {
    Placed(u64),
    Found(u64),
    Full,
    NoSlot,
    Vacant,
    Shown(u64),
    Missed,
    Has(bool),
}

/// A call, its number, and how it should end.
pub(crate) type Row = (By, u64, CallEnd);

/// Makes a generation of `buckets` buckets. `Err`: no memory, or `buckets` isn't 1, 2, 4 or 8.
pub(crate) fn made<A: Low + Copy>(
    alloc: A,
    slab: &Slab<u64, A>,
    buckets: usize,
) -> Result<NumberedGeneration<u64, Fours, A>, AllocError>
    ensures slab { IfOk result (λ g. g.of.slab ≡ slab.now) }
{
    if buckets.is_power_of_two() && buckets <= 8 {
        NumberedGeneration::new(alloc, slab, buckets)
    } else {
        Err(AllocError)
    }
}

/// A generation of numbers, and the slab that they lie in.
#[derive(Drop)]
pub(crate) struct Numbers<'a, A: Low + Copy> {
    pub(crate) set: &'a NumberedGeneration<u64, Fours, A>,
    pub(crate) slab: &'a Slab<u64, A>,
    ghost of: { slab.now ≡ set.now.of.slab },
}

impl<'a, A: Low + Copy> Numbers<'a, A> {
    /// Returns the number of an empty slot, and the right to it. `None` means that memory was refused.
    fn slot(&self) -> Option<(u64, Right<u64, A>)>
        ensures number { IfSome result (λ r. IsNumber r.0) }
        ensures right { IfSome result (λ r. IsRightTo self.now.slab.now r.0 r.1) }
        ensures empty { IfSome result (λ r. r.1.room.value ≡ None) }
    {
        let mut run = Run::new();
        self.slab.number(&mut run, 1).ok()
    }

    /// Places the number in the slot. Returns the right too, unless the number was placed.
    fn put_at(
        &self,
        slot: u64,
        right: Right<u64, A>,
        number: u64,
    ) -> (CallEnd, Option<Right<u64, A>>)
        requires number { IsNumber slot }
        requires right { IsRightTo self.now.slab.now slot right }
        requires empty { right.room.value ≡ None }
        ensures right { IfSome result.1 (λ r. IsRightTo self.now.slab.now slot r) }
        ensures empty { IfSome result.1 (λ r. r.room.value ≡ None) }
    {
        let mut seen = self.set.start();
        match self.set.place(self.slab, &mut seen, slot, right, number) {
            Placing::Placed(_entry, _receipt) => (CallEnd::Placed(slot), None),
            Placing::Found(met, _entry, _back, right) => (CallEnd::Found(met), Some(right)),
            Placing::Full(_back, right) => (CallEnd::Full, Some(right)),
        }
    }

    /// Places the number in a slot of its own.
    pub(crate) fn put(&self, number: u64) -> CallEnd {
        match self.slot() {
            Some((slot, right)) => self.put_at(slot, right, number).0,
            None => CallEnd::NoSlot,
        }
    }

    /// Places the number. If it is returned, places the number after it in the slot that was returned.
    fn put_or_next(&self, number: u64) -> CallEnd {
        let Some((slot, right)) = self.slot() else {
            return CallEnd::NoSlot;
        };
        match self.put_at(slot, right, number) {
            (_, Some(right)) => self.put_at(slot, right, number.wrapping_add(1)).0,
            (answer, None) => answer,
        }
    }

    /// Probes for the number.
    pub(crate) fn probe(&self, number: u64) -> CallEnd {
        let mut seen = self.set.start();
        let sought = SameAs { target: &number };
        match self.set.probe(self.slab, &mut seen, &sought) {
            Probed::Found(slot, _entry) => CallEnd::Found(slot),
            Probed::Vacant => CallEnd::Vacant,
            Probed::Full => CallEnd::Full,
        }
    }

    /// Looks the number up, and reads the entry once more by the number of its slot.
    fn show(&self, number: u64) -> CallEnd {
        let mut seen = self.set.start();
        let sought = SameAs { target: &number };
        match self.set.seek(self.slab, &mut seen, &sought) {
            Some((slot, _entry)) => CallEnd::Shown(*self.set.entry(self.slab, &seen, slot)),
            None => CallEnd::Missed,
        }
    }

    /// Makes the call with the number.
    fn call(&self, by: By, number: u64) -> CallEnd {
        match by {
            By::Put => self.put(number),
            By::PutOrNext => self.put_or_next(number),
            By::Probe => self.probe(number),
            By::Show => self.show(number),
            By::Has => CallEnd::Has(self.set.has_number(&mut self.set.start(), number)),
        }
    }

    /// Makes each call, and asserts that it ends as it should.
    pub(crate) fn assert_ends(&self, rt: &impl Abort, rows: &[Row]) {
        for (by, number, answer) in rows {
            let got = self.call(*by, *number);
            assert_same(rt, (*number, got), (*number, *answer));
        }
    }
}
