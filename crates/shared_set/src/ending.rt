//! The end of a set: its values come out one by one.
ghost use Rattle.std.specs.Prelude.{◌≡◌, ℕ, ⊤, length, Some, IfSome};
ghost use Rattle.std.specs.Iterator.{YieldsFirst, MakesProgress, item_count, at_most, UpTo};
ghost use Rattle.std.specs.Iterator.SizeHint.{IsWithinCount};
ghost use Rattle.table_slab.specs.Endings.{IsLeft};
ghost use Rattle.shared_set.specs.Known.{shared_view, IsChainOver, IsCursor, Keeps};
ghost use Rattle.shared_set.specs.Ending.{Ends, IsSameEnd};

use crate::cursor::{Cursor, Stages};
use crate::known::Known;
use crate::set::SharedSet;
use crate::stage::{Grows, Stage};
use std::alloc::Global;
use std::iter::FusedIterator;
use std::marker::Model;
use table_cell::Low;
use table_chain::Chain;
use table_numbered::{LeftValues, SetLaw};
use table_slab::Ending;

/// The values of a set that has ended, each once, in some order. It asks for no memory. Dropping it drops the values that are left, and
/// frees the memory of the set.
///
/// A contract sees which set it is of, the history that the set ended with, and the values that are still to come.
pub struct IntoValues<V, L: SetLaw<V>, A: Low + Copy = Global> {
    chain: Chain<Stage<V, L, A>, Grows<V, L, A>, A>,
    stages: Stages<V, L, A>,
    /// The slot of the newest stage.
    slot: usize,
    values: LeftValues<V, L, A>,
}

impl<V, L: SetLaw<V>, A: Low + Copy> Model for IntoValues<V, L, A> {
    ghost use Rattle.shared_set.specs.Ending.{EndedView, ended_view, IsEnded};

    ghost Value = { EndedView V };

    ghost view = { λ i. ended_view i.chain i.values };

    ghost invariant = { λ i. IsEnded L.same L.hash_of i.chain i.stages.book i.stages.names i.stages.log i.slot
        i.values };
}

/// Closes the chain, and ends its newest generation.
fn ended<V, L: SetLaw<V>, A: Low + Copy>(
    slab: Ending<V, A>,
    mut chain: Chain<Stage<V, L, A>, Grows<V, L, A>, A>,
) -> IntoValues<V, L, A>
    requires over { IsChainOver chain slab.slab }
    requires left { (k : ℕ) → IsLeft slab k }
    ensures { Ends L.same (shared_view chain slab.slab) result }
{
    let mut stages = chain.start();
    let count = chain.close(&mut stages);
    let slot = count - 1;
    let stage = chain.get(&stages, slot);
    let generation = stage.generation();
    let mut entries = generation.start();
    let values = generation.end(slab, &mut entries);
    IntoValues {
        chain,
        stages,
        slot,
        values,
    }
}

impl<V, L: SetLaw<V>, A: Low + Copy> SharedSet<V, L, A> {
    /// Takes the set apart, and returns its values. It asks for no memory, and always succeeds.
    pub fn into_values(self) -> IntoValues<V, L, A>
        ensures { Ends L.same self.of result }
    {
        let (slab, chain) = self.into_parts();
        ended(slab.end(), chain)
    }
}

impl<V: Drop, L: SetLaw<V>, A: Low + Copy> IntoIterator for SharedSet<V, L, A> {
    type Item = V;

    type IntoIter = IntoValues<V, L, A>;

    ghost into_iter_gives = { λ s it. Ends L.same s.of it };

    /// Takes the set apart, and returns its values, as `into_values` does.
    fn into_iter(self) -> IntoValues<V, L, A> {
        self.into_values()
    }
}

impl<V, L: SetLaw<V>, A: Low + Copy> IntoValues<V, L, A> {
    /// States that each entry known to a thread is one of the history that the set ended with.
    pub fn has_all(&self, known: &Known<V, L, A>)
        requires of { known.now.of ≡ self.now.of }
        ensures { Keeps known.now.history self.now.history }
    {
        self.reaches(known.cursor.again());
    }

    /// Returns the number of values that are left.
    pub(crate) fn values_left(&self) -> usize
        ensures { result ≡ length self.now.left }
    {
        self.values.len()
    }

    /// Moves a cursor on to the newest stage, whose history has what the cursor knows.
    pub(crate) fn reaches(&self, from: Cursor<V, L, A>)
        requires at { IsCursor L.same L.hash_of self.now.of from }
        ensures { Keeps from.entries.log self.now.history }
    {
        let mut cursor = from;
        cursor.stages.learn(&self.stages);
        for slot in cursor.slot..self.slot {
            let stage = self.chain.get(&cursor.stages, slot + 1);
            stage.carry_over(&mut cursor.entries);
            cursor.slot = slot + 1;
        }
        self.values.has_all(&cursor.entries);
    }
}

impl<V: Drop, L: SetLaw<V>, A: Low + Copy> Iterator for IntoValues<V, L, A> {
    type Item = V;

    ghost next_gives = { YieldsFirst (λ v. v.left) };

    ghost remaining = { item_count (λ v. v.left) };

    /// Returns the next value. `None` means that no value is left.
    fn next(&mut self) -> Option<V>
        ensures steps { YieldsFirst (λ v. v.left) self.old result self.new }
        ensures goes { MakesProgress (λ _. ⊤) (item_count (λ v. v.left)) self.old result self.new }
        ensures same { IsSameEnd self.old self.new }
    {
        let stage = self.chain.get(&self.stages, self.slot);
        self.values.next(stage.generation())
    }

    /// Returns the number of values that are left, as both bounds.
    fn size_hint(&self) -> (usize, Option<usize>)
        ensures lower { IsWithinCount result.0 (at_most (length self.now.left)) }
        ensures upper { IfSome result.1 (UpTo (at_most (length self.now.left))) }
        ensures exact { result ≡ (length self.now.left, Some (length self.now.left)) }
    {
        let left = self.values_left();
        (left, Some(left))
    }
}

impl<V: Drop, L: SetLaw<V>, A: Low + Copy> ExactSizeIterator for IntoValues<V, L, A> {
    /// Returns the number of values that are left.
    fn len(&self) -> usize {
        self.values_left()
    }
}

impl<V: Drop, L: SetLaw<V>, A: Low + Copy> FusedIterator for IntoValues<V, L, A> {}

impl<V: Drop, L: SetLaw<V>, A: Low + Copy> Drop for IntoValues<V, L, A> {
    /// Drops the values that are left, and frees the memory.
    fn drop(self) {
        let IntoValues {
            chain,
            stages,
            slot,
            values,
        } = self;
        let stage = chain.get(&stages, slot);
        values.drop_all(stage.generation());
    }
}
