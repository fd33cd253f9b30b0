//! The next generation of a full one.
ghost use Rattle.std.specs.Prelude.{◌≡◌, ◌*◌, ◌^◌, ℕ, ◌<◌, ◌≤◌, IfOk, IfErr, Err};
ghost use mathlib.Core.List.{IsPrefix};
ghost use Rattle.table_numbered.specs.Words.{alike, marked};
ghost use Rattle.table_numbered.specs.History.{IsFull, IsWhole, Says, Stands, due_of};
ghost use Rattle.table_numbered.specs.Generations.{IsOf, IsKnown};
ghost use Rattle.table_numbered.specs.Hints.{AreHints};
ghost use Rattle.table_numbered.specs.Carrying.{IsOldEntry, AreOwed, IsCarried, Carries, BeginsAs, entry_of};
ghost use Rattle.table_numbered.specs.declared.growth.Refused.TheVariants.{Buckets};

use crate::carrying::OldEntry;
use crate::generation::NumberedGeneration;
use crate::hints::{Hints, words_for};
use crate::row::Row;
use crate::rule::Token;
use crate::trade::known;
use crate::word::number_of_word;
use std::alloc::Allocator;
use table_cell::Low;
use table_terms::law::SetLaw;

/// Why there is no next generation. Nothing is closed.
#[derive(Debug, PartialEq, Eq, Drop)]
pub enum Refused {
    /// Memory was refused.
    Memory,
    /// Twice the buckets are more than 2^32.
    Buckets,
}

impl<V, L: SetLaw<V>, A: Allocator> Row<V, L, A> {
    /// Makes the row a generation that begins with what the token knows, with these hints.
    fn begun(self, seen: Token<V, L>, hints: Hints<V, L, A>) -> NumberedGeneration<V, L, A>
        requires known { IsKnown L.same L.hash_of self.of seen.book seen.names seen.log }
        requires whole { IsWhole seen.log }
        requires hints { AreHints seen.book hints }
        ensures of { result.of ≡ self.of }
        ensures start { result.start ≡ seen.log }
    {
        let Row { words, start: _ } = self;
        let row = Row { words, start: seen };
        NumberedGeneration { row, hints }
    }
}

impl<V, L: SetLaw<V>, A: Low + Copy> NumberedGeneration<V, L, A> {
    /// Returns the entry that this word of the bucket names.
    fn old_entry(&self, seen: &Token<V, L>, index: usize, word: u64) -> OldEntry<V, A>
        requires of { IsOf L.same L.hash_of self.now.of seen.now.book seen.now.names seen.now.log }
        requires set { 2 ≤ word }
        requires says { Says (alike L.same) (marked L.hash_of) index word seen.now.log }
        ensures entry { IsOldEntry L.hash_of self.now.of.slab result }
        ensures stands { Stands seen.now.log index (entry_of result) }
    {
        let number = number_of_word(word);
        let standing = known(seen, index as u64, number);
        OldEntry {
            standing,
            number,
            word,
        }
    }

    /// Carries the entry that the bucket has, if it has one.
    fn carry_bucket(
        &self,
        seen: &mut Token<V, L>,
        index: usize,
        next: &Row<V, L, A>,
        fresh: &mut Token<V, L>,
    )
        requires of { IsOf L.same L.hash_of self.now.of seen.old.book seen.old.names seen.old.log }
        requires inside { index < self.now.of.size }
        requires full { IsFull self.now.of.size seen.old.log }
        requires next { IsKnown L.same L.hash_of next.now.of fresh.old.book fresh.old.names
            fresh.old.log }
        requires same { next.now.of.slab ≡ self.now.of.slab }
        requires owed { AreOwed L.same next.now.of.size seen.old.log (due_of fresh.old.log) }
        ensures of { IsOf L.same L.hash_of self.now.of seen.new.book seen.new.names seen.new.log }
        ensures longer { IsPrefix seen.old.log seen.new.log }
        ensures next { IsKnown L.same L.hash_of next.now.of fresh.new.book fresh.new.names
            fresh.new.log }
        ensures fresh { IsPrefix fresh.old.log fresh.new.log }
        ensures carried { IsCarried seen.new.log index fresh.new.log }
    {
        let word = self.look_at(seen, index);
        if word < 2 {
            return;
        }
        let entry = self.old_entry(seen, index, word);
        next.carry(fresh, &entry);
    }

    /// Carries each entry. All buckets are set.
    fn carry_all(&self, seen: &mut Token<V, L>, next: &Row<V, L, A>, fresh: &mut Token<V, L>)
        requires of { IsOf L.same L.hash_of self.now.of seen.old.book seen.old.names seen.old.log }
        requires full { IsFull self.now.of.size seen.old.log }
        requires next { IsKnown L.same L.hash_of next.now.of fresh.old.book fresh.old.names
            fresh.old.log }
        requires same { next.now.of.slab ≡ self.now.of.slab }
        requires owed { AreOwed L.same next.now.of.size seen.old.log (due_of fresh.old.log) }
        ensures of { IsOf L.same L.hash_of self.now.of seen.new.book seen.new.names seen.new.log }
        ensures longer { IsPrefix seen.old.log seen.new.log }
        ensures next { IsKnown L.same L.hash_of next.now.of fresh.new.book fresh.new.names
            fresh.new.log }
        ensures fresh { IsPrefix fresh.old.log fresh.new.log }
        ensures carried { Carries seen.new.log fresh.new.log }
    {
        for index in 0..self.buckets() {
            self.carry_bucket(seen, index, next, fresh);
        }
    }

    /// Makes the next generation, of twice the buckets. This one is closed, and each of its entries is carried: none is moved, and
    /// none is read. It takes two blocks of memory, before a bucket is closed. A refusal closes nothing.
    pub fn grown(&self, alloc: A, seen: &mut Token<V, L>) -> Result<Self, Refused>
        requires of { IsOf L.same L.hash_of self.now.of seen.old.book seen.old.names seen.old.log }
        ensures of { IsOf L.same L.hash_of self.now.of seen.new.book seen.new.names seen.new.log }
        ensures longer { IsPrefix seen.old.log seen.new.log }
        ensures refused { IfErr result (λ _. seen.new.log ≡ seen.old.log) }
        ensures buckets { result ≡ Err Buckets → 2 ^ 31 < self.now.of.size }
        ensures full { IfOk result (λ _. IsFull self.now.of.size seen.new.log) }
        ensures size { IfOk result (λ g. g.of.size ≡ 2 * self.now.of.size) }
        ensures slab { IfOk result (λ g. g.of.slab ≡ self.now.of.slab) }
        ensures carried { IfOk result (λ g. Carries seen.new.log g.start) }
        ensures back { IfOk result (λ g. BeginsAs seen.new.log g.start) }
    {
        let count = self.buckets();
        if count > 2147483648 {
            return Err(Refused::Buckets);
        }
        let Ok(room) = Vec::with_capacity(alloc, 2 * count) else {
            return Err(Refused::Memory);
        };
        let words = words_for(2 * count);
        let Ok(more) = Vec::with_capacity(alloc, words) else {
            return Err(Refused::Memory);
        };
        let _entries = self.close_all(seen);
        let next = Row::after(room, seen, 2 * count);
        let mut fresh = next.begin();
        self.carry_all(seen, &next, &mut fresh);
        let hints = Hints::new(more, &fresh, words, self.hints.are_wanted());
        Ok(next.begun(fresh, hints))
    }
}
