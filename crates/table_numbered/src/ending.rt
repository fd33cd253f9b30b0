//! The values of a generation, once its slab ends.
ghost use Rattle.std.specs.Prelude.{◌≡◌, ℕ, ◌<◌, ◌+◌, [], ◌∷◌, length};
ghost use Rattle.std.specs.Iterator.{YieldsFirst};
ghost use mathlib.Core.List.{IsPrefix};
ghost use Rattle.table_slab.specs.Endings.{IsLeft};
ghost use Rattle.table_numbered.specs.History.{IsEntry, IsFull};
ghost use Rattle.table_numbered.specs.Generations.{IsOf};
ghost use Rattle.table_numbered.specs.Ending.{AreLeft, TakesAt, AreValues, IsSameEnd};

use crate::generation::NumberedGeneration;
use crate::rule::Token;
use crate::trade::known;
use std::marker::Model;
use table_cell::Low;
use table_slab::Ending;
use table_terms::law::SetLaw;

/// The values of a generation that has ended, which leave the slab one by one, in the order of buckets. Each call is handed the
/// generation. Dropping it drops no value: `drop_all` does.
///
/// A contract sees which generation it is, the history that it ended with, and the values that are left.
#[derive(Drop)]
pub struct LeftValues<V, L: SetLaw<V>, A: Low + Copy> {
    slab: Ending<V, A>,
    seen: Token<V, L>,
    /// The buckets before this one have no value any more.
    index: usize,
    count: usize,
}

impl<V, L: SetLaw<V>, A: Low + Copy> Model for LeftValues<V, L, A> {
    ghost use Rattle.table_numbered.specs.Ending.{LeftView, left_view, IsLeaving};

    ghost Value = { LeftView V };

    ghost view = { λ v. left_view v.seen.book v.seen.log v.slab.slab v.index };

    ghost invariant = { λ v. IsLeaving L.same L.hash_of v.seen.book v.seen.names v.seen.log v.slab v.index
        v.count };
}

impl<V, L: SetLaw<V>, A: Low + Copy> NumberedGeneration<V, L, A> {
    /// Ends the generation: each bucket that is empty is closed, so that its history has no later entry. It asks for no memory.
    pub fn end(&self, slab: Ending<V, A>, seen: &mut Token<V, L>) -> LeftValues<V, L, A>
        requires slab { slab.slab ≡ self.now.of.slab }
        requires left { (k : ℕ) → IsLeft slab k }
        requires of { IsOf L.same L.hash_of self.now.of seen.old.book seen.old.names seen.old.log }
        ensures of { IsOf L.same L.hash_of self.now.of seen.new.book seen.new.names seen.new.log }
        ensures longer { IsPrefix seen.old.log seen.new.log }
        ensures full { IsFull self.now.of.size seen.new.log }
        ensures is { result.of ≡ self.now.of }
        ensures history { result.history ≡ seen.new.log }
        ensures values { AreValues L.same result.history result.left }
    {
        let count = self.close_all(seen);
        LeftValues {
            slab,
            seen: seen.again(),
            index: 0,
            count,
        }
    }

    /// Takes the value of the bucket's entry out of the slab, if it has one. The generation has ended.
    fn take_at(&self, slab: &mut Ending<V, A>, seen: &Token<V, L>, index: usize) -> Option<V>
        requires of { IsOf L.same L.hash_of self.now.of seen.now.book seen.now.names seen.now.log }
        requires inside { index < self.now.of.size }
        requires full { IsFull self.now.of.size seen.now.log }
        requires slab { slab.old.slab ≡ self.now.of.slab }
        requires left { AreLeft index seen.now.log slab.old }
        ensures slab { slab.new.slab ≡ slab.old.slab }
        ensures left { AreLeft (index + 1) seen.now.log slab.new }
        ensures taken { TakesAt seen.now.log index result }
    {
        let mut later = seen.again();
        let number = self.number_at(&mut later, index)?;
        let standing = known(&later, index as u64, number);
        Some(slab.take_out(number, &standing))
    }
}

impl<V, L: SetLaw<V>, A: Low + Copy> LeftValues<V, L, A> {
    /// Returns the number of values that are left.
    pub fn len(&self) -> usize
        ensures { result ≡ length self.now.left }
    {
        self.count
    }

    /// Takes the next value out. `None` means that no value is left.
    pub fn next(&mut self, generation: &NumberedGeneration<V, L, A>) -> Option<V>
        requires of { generation.now.of ≡ self.old.of }
        ensures same { IsSameEnd self.old self.new }
        ensures next { YieldsFirst (λ v. v.left) self.old result self.new }
    {
        while self.index < generation.buckets() {
            let index = self.index;
            self.index = index + 1;
            if let Some(value) = generation.take_at(&mut self.slab, &self.seen, index) {
                self.count -= 1;
                return Some(value);
            }
        }
        None
    }

    /// States that each entry of this generation that any thread knows is one of the history that it ended with.
    pub fn has_all(&self, known: &Token<V, L>)
        requires of { known.now.book ≡ self.now.of.book }
        ensures { (e : _) → IsEntry known.now.log e → IsEntry self.now.history e }
    {
        let mut both = self.seen.again();
        both.learn(known);
    }
}

impl<V: Drop, L: SetLaw<V>, A: Low + Copy> LeftValues<V, L, A> {
    /// Drops the values that are left.
    pub fn drop_all(self, generation: &NumberedGeneration<V, L, A>)
        requires of { generation.now.of ≡ self.of }
    {
        let mut left = self;
        while let Some(value) = left.next(generation) {
            drop(value);
        }
    }
}
