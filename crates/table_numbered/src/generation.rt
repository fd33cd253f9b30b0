//! One generation of buckets that threads set, each once.
ghost use Rattle.std.specs.Prelude.{◌≡◌, ◌≢◌, ◌≤◌, ◌<◌, ◌^◌, ℕ, [], ◌∷◌, None, IfOk, length};
ghost use Rattle.std.specs.Int.{IsPowerOfTwo};
ghost use mathlib.Core.List.{IsPrefix};
ghost use Rattle.table_numbered.specs.Words.{numbered, alike, marked};
ghost use Rattle.table_numbered.specs.History.{event, Has, Stands, IsEntry, IsFull, OneValue, Says};
ghost use Rattle.table_numbered.specs.Generations.{IsOf};
ghost use Rattle.table_numbered.specs.Ending.{values_from};
ghost use Rattle.table_numbered.specs.declared.event.Stored.TheVariants.{Closed};

use crate::bucket::{close, look};
use crate::hints::{Hints, words_for};
use crate::row::Row;
use crate::rule::Token;
use crate::trade::{known, known_by};
use std::alloc::{AllocError, Allocator};
use std::marker::Model;
use table_cell::Low;
use table_slab::Slab;
use table_terms::law::SetLaw;

/// A fixed number of buckets, each of which is set once by any thread: to the number of an entry, which lies in the slab that is
/// handed to each call.
///
/// A contract sees which generation it is, how many buckets it has, its slab, and the history that it was made with.
#[derive(Drop)]
pub struct NumberedGeneration<V, L: SetLaw<V>, A: Allocator> {
    pub(crate) row: Row<V, L, A>,
    pub(crate) hints: Hints<V, L, A>,
}

impl<V, L: SetLaw<V>, A: Allocator> Model for NumberedGeneration<V, L, A> {
    ghost use Rattle.table_numbered.specs.History.{IsWhole};
    ghost use Rattle.table_numbered.specs.Generations.{GenerationView};
    ghost use Rattle.table_numbered.specs.Hints.{AreHints};

    ghost Value = { GenerationView V };

    ghost view = { λ g. g.row };

    ghost invariant = { λ g. IsWhole g.row.start × AreHints g.row.of.book g.hints };
}

impl<V, L: SetLaw<V>, A: Low + Copy> NumberedGeneration<V, L, A> {
    /// Makes a generation of this many empty buckets, a power of two, over the slab. It takes two blocks of memory, for the buckets and
    /// for hints. A refusal leaves nothing.
    pub fn new(alloc: A, slab: &Slab<V, A>, buckets: usize) -> Result<Self, AllocError>
        requires power { IsPowerOfTwo buckets }
        requires few { buckets ≤ 2 ^ 32 }
        ensures size { IfOk result (λ g. g.of.size ≡ buckets) }
        ensures slab { IfOk result (λ g. g.of.slab ≡ slab.now) }
        ensures empty { IfOk result (λ g. g.start ≡ event buckets None ∷ []) }
    {
        let room = Vec::with_capacity(alloc, buckets)?;
        let words = words_for(buckets);
        let more = Vec::with_capacity(alloc, words)?;
        let row = Row::empty(room, slab, buckets);
        let hints = Hints::new(more, &row.begin(), words, false);
        Ok(NumberedGeneration { row, hints })
    }

    /// Returns a token that knows the history with which the generation was made.
    pub fn start(&self) -> Token<V, L>
        ensures of { IsOf L.same L.hash_of self.now.of result.book result.names result.log }
        ensures log { result.log ≡ self.now.start }
    {
        self.row.begin()
    }

    /// Returns how many buckets there are.
    pub fn buckets(&self) -> usize
        ensures size { result ≡ self.now.of.size }
        ensures power { IsPowerOfTwo result }
        ensures few { result ≤ 2 ^ 32 }
    {
        self.row.buckets()
    }

    /// Returns the word that the bucket has by now.
    pub(crate) fn look_at(&self, seen: &mut Token<V, L>, index: usize) -> u64
        requires of { IsOf L.same L.hash_of self.now.of seen.old.book seen.old.names seen.old.log }
        requires inside { index < self.now.of.size }
        ensures of { IsOf L.same L.hash_of self.now.of seen.new.book seen.new.names seen.new.log }
        ensures longer { IsPrefix seen.old.log seen.new.log }
        ensures says { Says (alike L.same) (marked L.hash_of) index result seen.new.log }
    {
        look(self.row.word(index), seen)
    }

    /// Closes the bucket, unless it was set before. Returns the word that it had.
    pub(crate) fn close_at(&self, seen: &mut Token<V, L>, index: usize) -> u64
        requires of { IsOf L.same L.hash_of self.now.of seen.old.book seen.old.names seen.old.log }
        requires inside { index < self.now.of.size }
        ensures of { IsOf L.same L.hash_of self.now.of seen.new.book seen.new.names seen.new.log }
        ensures longer { IsPrefix seen.old.log seen.new.log }
        ensures closed { result ≡ 0 → Has seen.new.log index Closed }
        ensures says { result ≢ 0
            → Says (alike L.same) (marked L.hash_of) index result seen.new.log }
    {
        close(self.row.word(index), seen, index as u64)
    }

    /// Closes each bucket that is empty. Returns how many buckets have an entry.
    pub(crate) fn close_all(&self, seen: &mut Token<V, L>) -> usize
        requires of { IsOf L.same L.hash_of self.now.of seen.old.book seen.old.names seen.old.log }
        ensures of { IsOf L.same L.hash_of self.now.of seen.new.book seen.new.names seen.new.log }
        ensures longer { IsPrefix seen.old.log seen.new.log }
        ensures full { IsFull self.now.of.size seen.new.log }
        ensures counted { result ≡ length (values_from seen.new.log 0 self.now.of.size) }
    {
        let mut count = 0;
        for index in 0..self.buckets() {
            let word = self.close_at(seen, index);
            if word > 1 {
                count += 1;
            }
        }
        count
    }

    /// Returns the entry of the bucket, which has this number.
    pub(crate) fn entry_at<'a>(
        &self,
        slab: &'a Slab<V, A>,
        seen: &Token<V, L>,
        index: usize,
        number: u64,
    ) -> &'a V
        requires slab { slab.now ≡ self.now.of.slab }
        requires of { IsOf L.same L.hash_of self.now.of seen.now.book seen.now.names seen.now.log }
        requires there { (x : V) × Stands seen.now.log index (numbered number x) }
        ensures stands { Stands seen.now.log index (numbered number result.now) }
        ensures one { OneValue seen.now.log }
    {
        let standing = known(seen, index as u64, number);
        slab.get(number, &standing)
    }

    /// Returns the entry of this number. The caller knows that there is one. It looks at no bucket.
    pub fn entry<'a>(&self, slab: &'a Slab<V, A>, seen: &Token<V, L>, number: u64) -> &'a V
        requires slab { slab.now ≡ self.now.of.slab }
        requires of { IsOf L.same L.hash_of self.now.of seen.now.book seen.now.names seen.now.log }
        requires there { (x : V) × IsEntry seen.now.log (numbered number x) }
        ensures is { IsEntry seen.now.log (numbered number result.now) }
        ensures one { (x : V) → IsEntry seen.now.log (numbered number x) → result.now ≡ x }
    {
        let standing = known_by(seen, number);
        slab.get(number, &standing)
    }
}
