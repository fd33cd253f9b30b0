//! Growth of a shared table, step by step, under all of its locks.
ghost use Rattle.std.specs.Prelude.{◌≡◌, ◌+◌, IfOk, IsSome, MatchOption, [], length};
ghost use Rattle.std.specs.Int.{IsPowerOfTwo};
ghost use Rattle.std.specs.Option.{IsSomeAnd};
ghost use Rattle.table_shared.specs.Begun.{Begins, IsThrough};
ghost use Rattle.table_shared.specs.Growths.{PassedAll};

use crate::growth::Growth;
use crate::lineage::slot::Published;
use crate::locks::OwnedLock;
use crate::table::{Current, LockFreeRawTable};
use std::alloc::{AllocError, Allocator};
use table_cell::Low;
use table_generations::atomic_value::AtomicValue;
use table_generations::fixed::Generation;

/// The result of looking at the size while all locks are held.
#[derive(Drop)]
pub enum Wanted<'a, T: AtomicValue, A: Allocator + Copy> {
    /// There is a generation, and fewer than half of its buckets are set.
    Unwanted,
    /// Memory was refused, or the capacity can't double. The current generation stays; words that were made for later generations
    /// are kept.
    Failed,
    /// The next generation, to be filled and published.
    Begun(Growth<'a, T, A>),
}

impl<T: AtomicValue, A: Low + Copy> LockFreeRawTable<T, A> {
    /// Begins the first generation, without an entry. Allocates for its buckets and its block.
    fn begin_first(&self, _held: &OwnedLock<'_>) -> Result<Growth<'_, T, A>, AllocError>
        requires lock { _held.now.home ≡ self.now.home }
        ensures home { IfOk result (λ g. g.home ≡ self.now.home) }
        ensures before { IfOk result (λ g. (g.before ≡ []) × (g.passed ≡ 0)) }
        ensures word { IfOk result (λ g. IsThrough self.now 0 g) }
    {
        let (slot, words) = self.lineage.slot(&self.home, 0)?;
        let built = Generation::with_capacity(self.alloc, &self.home, self.first_capacity)?;
        Growth::begun(&self.home, None, built, slot, words)
    }

    /// Begins the generation after the current one, with twice the capacity. Allocates for its buckets and its block. An `Err`
    /// means that memory was refused or that the capacity can't double.
    fn begin_after<'a>(
        &'a self,
        _held: &OwnedLock<'_>,
        current: Current<'a, T, A>,
    ) -> Result<Growth<'a, T, A>, AllocError>
        requires lock { _held.now.home ≡ self.now.home }
        requires home { current.generation.now.home ≡ self.now.home }
        requires power { IsPowerOfTwo (length current.generation.now.contents) }
        ensures home { IfOk result (λ g. g.home ≡ self.now.home) }
        ensures before { IfOk result (λ g. (g.before ≡ current.entry.generation.now.contents)
            × (g.passed ≡ 0)) }
        ensures word { IfOk result (λ g. IsThrough self.now (current.entry.number + 1) g) }
    {
        let Some(number) = (current.number as usize).checked_add(1) else {
            return Err(AllocError);
        };
        let Some(capacity) = current.generation.doubled() else {
            return Err(AllocError);
        };
        let (slot, words) = self.lineage.slot(&self.home, number)?;
        let built = current.generation.sibling(&self.home, capacity)?;
        Growth::begun(&self.home, Some(current.generation), built, slot, words)
    }

    /// Checks again whether growth is wanted, and if so allocates all the memory of the next generation. The caller holds all
    /// locks of the table.
    pub(crate) fn begin(&self, held: &OwnedLock<'_>) -> Wanted<'_, T, A>
        requires lock { held.now.home ≡ self.now.home }
        ensures { Begins self.now result }
    {
        let begun = match self.current(&mut self.note()) {
            None => self.begin_first(held),
            Some(current) => {
                if !self.wants_growth(current.generation) {
                    return Wanted::Unwanted;
                }
                self.begin_after(held, current)
            }
        };
        match begun {
            Ok(growth) => Wanted::Begun(growth),
            Err(_) => Wanted::Failed,
        }
    }

    /// Publishes the generation that was built, which is the current one from then on. The caller holds all locks of the table.
    pub(crate) fn show(
        &self,
        _held: &OwnedLock<'_>,
        growth: Growth<'_, T, A>,
    ) -> Published<Generation<T, A>, A>
        requires lock { _held.now.home ≡ self.now.home }
        requires home { growth.home ≡ self.now.home }
        requires whole { PassedAll growth }
        ensures since { (result.latest ≡ self.now.latest) × IsSome result.since }
        ensures word { result.word ≡ growth.entry.word }
        ensures shows { MatchOption result.back
            (IsSomeAnd result.holds (λ g. g.contents ≡ growth.entry.built))
            (λ g. g.contents ≡ growth.entry.built) }
    {
        let (slot, block) = growth.into_block();
        self.shown.publish(slot, &self.home, block)
    }
}
