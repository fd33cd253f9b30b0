//! The numbers that a handle has taken ahead.
ghost use Rattle.std.specs.Prelude.{◌≡◌, suc, ◌<◌, Some, IfSome, IfOk, IfErr, MatchOption};
ghost use Rattle.table_slab.specs.Slabs.{SlabView};
ghost use Rattle.shared_set.specs.Supplies.{IsVacant, IsSupplyOf, count_of};

use std::alloc::Allocator;
use std::cmp::min;
use table_cell::Low;
use table_slab::{Refused, Right, Run, Slab};

/// Numbers of a slab that no other handle has, with the rights to their slots.
#[derive(Drop)]
pub(crate) struct Supply<V, A: Allocator> {
    pub(crate) spare: Option<(u64, Right<V, A>)>,
    pub(crate) run: Run<V, A>,
    pub(crate) want: u64,
}

impl<V, A: Allocator> Supply<V, A> {
    /// Returns a supply with no number.
    pub(crate) fn new() -> Self
        ensures { (s : SlabView) → IsSupplyOf s result }
    {
        Supply {
            spare: None,
            run: Run::new(),
            want: 1,
        }
    }

    /// Takes the spare number, or else the next one of the run. `None` means that there is none.
    pub(crate) fn take(&mut self) -> Option<(u64, Right<V, A>)>
        requires { (s : SlabView) × IsSupplyOf s self.old }
        ensures number { (s : SlabView) → IsSupplyOf s self.old → IfSome result (IsVacant s) }
        ensures rest { (s : SlabView) → IsSupplyOf s self.old → IsSupplyOf s self.new }
        ensures left { MatchOption result (count_of self.old ≡ 0) (λ _. count_of self.old ≡ suc (count_of self.new)) }
    {
        match self.spare.take() {
            Some(spare) => Some(spare),
            None => self.run.take(),
        }
    }

    /// Keeps a number whose slot is empty as the spare one.
    pub(crate) fn keep(&mut self, number: u64, right: Right<V, A>)
        ensures of { (s : SlabView) → IsVacant s (number, right) → IsSupplyOf s self.old → IsSupplyOf s self.new }
        ensures spare { self.new.spare ≡ Some (number, right) }
        ensures run { self.new.run ≡ self.old.run }
    {
        self.spare = Some((number, right));
    }
}

impl<V, A: Low + Copy> Supply<V, A> {
    /// Asks the slab for a run of numbers, and takes one. Each run is twice as long as the one before it, up to `most`. A refusal
    /// leaves the numbers that are there.
    pub(crate) fn fetch(
        &mut self,
        slab: &Slab<V, A>,
        most: u64,
    ) -> Result<(u64, Right<V, A>), Refused>
        requires { IsSupplyOf slab.now self.old }
        ensures number { IfOk result (IsVacant slab.now) }
        ensures rest { IsSupplyOf slab.now self.new }
        ensures spare { self.new.spare ≡ self.old.spare }
        ensures refused { IfErr result (λ _. self.new ≡ self.old) }
    {
        let next = slab.number(&mut self.run, self.want)?;
        if self.want < most {
            self.want = longer(self.want, most);
        }
        Ok(next)
    }

    /// Gives the rest of the run back to the slab. The spare number stays unused.
    pub(crate) fn give_back(self, slab: &Slab<V, A>)
        requires { IsSupplyOf slab.now self }
    {
        let Supply {
            spare: _,
            run,
            want: _,
        } = self;
        slab.give_back(run);
    }
}

/// Returns twice the length, or else `most`.
fn longer(length: u64, most: u64) -> u64
    requires some { 0 < length }
    requires less { length < most }
    ensures { 0 < result }
{
    min(most, length.saturating_mul(2))
}
