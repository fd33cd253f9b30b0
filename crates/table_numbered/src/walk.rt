//! Walks over the buckets of a generation.
ghost use Rattle.std.specs.Prelude.{◌≡◌, ◌<◌, true, false, MatchOption, IfSome};
ghost use mathlib.Core.List.{IsPrefix};
ghost use Rattle.table_numbered.specs.Words.{numbered};
ghost use Rattle.table_numbered.specs.History.{Stands, IsFree};
ghost use Rattle.table_numbered.specs.Generations.{IsOf};
ghost use Rattle.table_numbered.specs.Walking.{IsTaken, HasAt, IsOnlyAt};

use crate::generation::NumberedGeneration;
use crate::rule::Token;
use crate::word::number_of_word;
use table_cell::Low;
use table_slab::Slab;
use table_terms::law::SetLaw;

impl<V, L: SetLaw<V>, A: Low + Copy> NumberedGeneration<V, L, A> {
    /// Returns the number of the entry that the bucket has by now. `None` means that it has no entry. It reads no entry.
    pub(crate) fn number_at(&self, seen: &mut Token<V, L>, index: usize) -> Option<u64>
        requires of { IsOf L.same L.hash_of self.now.of seen.old.book seen.old.names seen.old.log }
        requires inside { index < self.now.of.size }
        ensures of { IsOf L.same L.hash_of self.now.of seen.new.book seen.new.names seen.new.log }
        ensures longer { IsPrefix seen.old.log seen.new.log }
        ensures number { MatchOption result (IsFree seen.new.log index) (HasAt seen.new.log index) }
    {
        let word = self.look_at(seen, index);
        if word < 2 {
            return None;
        }
        Some(number_of_word(word))
    }

    /// Returns the entry that the bucket has by now, with its number. `None` means that it has no entry.
    pub fn visit<'a>(
        &self,
        slab: &'a Slab<V, A>,
        seen: &mut Token<V, L>,
        index: usize,
    ) -> Option<(u64, &'a V)>
        requires slab { slab.now ≡ self.now.of.slab }
        requires of { IsOf L.same L.hash_of self.now.of seen.old.book seen.old.names seen.old.log }
        requires inside { index < self.now.of.size }
        ensures of { IsOf L.same L.hash_of self.now.of seen.new.book seen.new.names seen.new.log }
        ensures longer { IsPrefix seen.old.log seen.new.log }
        ensures shown { MatchOption result (IsFree seen.new.log index)
            (λ e. Stands seen.new.log index (numbered e.0 e.1.now)) }
        ensures only { IfSome result (λ e. IsOnlyAt seen.new.log index e.0) }
    {
        let number = self.number_at(seen, index)?;
        Some((number, self.entry_at(slab, seen, index, number)))
    }

    /// Returns true if the entry that the bucket has by now has this number.
    fn has_at(&self, seen: &mut Token<V, L>, index: usize, number: u64) -> bool
        requires of { IsOf L.same L.hash_of self.now.of seen.old.book seen.old.names seen.old.log }
        requires inside { index < self.now.of.size }
        ensures of { IsOf L.same L.hash_of self.now.of seen.new.book seen.new.names seen.new.log }
        ensures longer { IsPrefix seen.old.log seen.new.log }
        ensures there { result ≡ true → HasAt seen.new.log index number }
        ensures other { result ≡ false → HasAt seen.new.log index number → ⊥ }
    {
        match self.number_at(seen, index) {
            Some(theirs) => theirs == number,
            None => false,
        }
    }

    /// Returns true if the entry of a bucket has this number by now. `false` means that no entry known to the caller before has it. It
    /// looks at each bucket until it comes to the number, and it reads no entry.
    fn is_in_buckets(&self, seen: &mut Token<V, L>, number: u64) -> bool
        requires of { IsOf L.same L.hash_of self.now.of seen.old.book seen.old.names seen.old.log }
        ensures of { IsOf L.same L.hash_of self.now.of seen.new.book seen.new.names seen.new.log }
        ensures longer { IsPrefix seen.old.log seen.new.log }
        ensures there { result ≡ true → IsTaken seen.new.log number }
        ensures none { result ≡ false → IsTaken seen.old.log number → ⊥ }
    {
        for index in 0..self.buckets() {
            if self.has_at(seen, index, number) {
                return true;
            }
        }
        false
    }

    /// Returns true if an entry has this number by now. `false` means that no entry known to the caller before has it. It reads no entry.
    ///
    /// A number that a hint names costs the read of one word. The first call in a generation that finds no hint reads each bucket,
    /// and hints the number of each entry. A call that still finds no hint reads buckets until it comes to the number.
    pub fn has_number(&self, seen: &mut Token<V, L>, number: u64) -> bool
        requires of { IsOf L.same L.hash_of self.now.of seen.old.book seen.old.names seen.old.log }
        ensures of { IsOf L.same L.hash_of self.now.of seen.new.book seen.new.names seen.new.log }
        ensures longer { IsPrefix seen.old.log seen.new.log }
        ensures there { result ≡ true → IsTaken seen.new.log number }
        ensures none { result ≡ false → IsTaken seen.old.log number → ⊥ }
    {
        if self.is_hinted(seen, number) {
            return true;
        }
        self.hint_all(seen);
        if self.is_hinted(seen, number) {
            return true;
        }
        self.is_in_buckets(seen, number)
    }
}
