//! A row takes up the entries that are due in it.
ghost use Rattle.std.specs.Prelude.{◌≡◌, ◌≢◌, ℕ, ◌<◌};
ghost use mathlib.Core.List.{IsPrefix};
ghost use Rattle.table_numbered.specs.Words.{alike, marked};
ghost use Rattle.table_numbered.specs.History.{Stands, Says, Reaches, due_of};
ghost use Rattle.table_numbered.specs.Generations.{IsKnown};
ghost use Rattle.table_numbered.specs.Carrying.{IsOldEntry, IsOwed, TakesBucket, entry_of};

use crate::bucket::carry;
use crate::row::Row;
use crate::rule::Token;
use crate::trade::known;
use crate::word::{first_bucket, mark_of_word};
use std::alloc::Allocator;
use table_cell::Low;
use table_slab::Standing;
use table_terms::law::SetLaw;
use table_terms::probe::next_bucket;

/// An entry that growth names in the next row: its number, its word, and what shows its value. The value doesn't move.
#[derive(Drop)]
pub(crate) struct OldEntry<V, A: Allocator> {
    pub standing: Standing<V, A>,
    pub number: u64,
    pub word: u64,
}

impl<V, L: SetLaw<V>, A: Low + Copy> Row<V, L, A> {
    /// Stores the entry in this bucket by one exchange, unless the bucket was set before. Returns the word that the bucket had: 0 if
    /// this call stored the entry.
    fn store(&self, seen: &mut Token<V, L>, index: usize, entry: &OldEntry<V, A>) -> u64
        requires known { IsKnown L.same L.hash_of self.now.of seen.old.book seen.old.names seen.old.log }
        requires inside { index < self.now.of.size }
        requires entry { IsOldEntry L.hash_of self.now.of.slab entry.now }
        requires owed { IsOwed L.same self.now.of.size (due_of seen.old.log) (entry_of entry.now) }
        requires reached { Reaches (alike L.same) (marked L.hash_of) self.now.of.size seen.old.log
            (entry_of entry.now) index }
        ensures known { IsKnown L.same L.hash_of self.now.of seen.new.book seen.new.names seen.new.log }
        ensures longer { IsPrefix seen.old.log seen.new.log }
        ensures stored { result ≡ 0 → Stands seen.new.log index (entry_of entry.now) }
        ensures says { result ≢ 0
            → Says (alike L.same) (marked L.hash_of) index result seen.new.log }
    {
        let standing = entry.standing.again();
        let place = index as u64;
        carry(
            self.word(index),
            seen,
            place,
            entry.number,
            entry.word,
            standing,
        )
    }

    /// Stores the entry in this bucket if it is empty. Returns whether the entry is there then. No entry is read.
    fn take_bucket(&self, seen: &mut Token<V, L>, index: usize, entry: &OldEntry<V, A>) -> bool
        requires known { IsKnown L.same L.hash_of self.now.of seen.old.book seen.old.names seen.old.log }
        requires inside { index < self.now.of.size }
        requires entry { IsOldEntry L.hash_of self.now.of.slab entry.now }
        requires owed { IsOwed L.same self.now.of.size (due_of seen.old.log) (entry_of entry.now) }
        requires reached { Reaches (alike L.same) (marked L.hash_of) self.now.of.size seen.old.log
            (entry_of entry.now) index }
        ensures known { IsKnown L.same L.hash_of self.now.of seen.new.book seen.new.names seen.new.log }
        ensures longer { IsPrefix seen.old.log seen.new.log }
        ensures takes { TakesBucket L.same entry.now index seen.new.log result }
    {
        let found = self.store(seen, index, entry);
        if found == 0 {
            return true;
        }
        if found != entry.word {
            return false;
        }
        let theirs = known(seen, index as u64, entry.number);
        entry.standing.agree(&theirs);
        true
    }

    /// Stores the entry in the first empty bucket of its probe. One is empty, since fewer entries are due than there are buckets.
    pub(crate) fn carry(&self, seen: &mut Token<V, L>, entry: &OldEntry<V, A>)
        requires known { IsKnown L.same L.hash_of self.now.of seen.old.book seen.old.names seen.old.log }
        requires entry { IsOldEntry L.hash_of self.now.of.slab entry.now }
        requires owed { IsOwed L.same self.now.of.size (due_of seen.old.log) (entry_of entry.now) }
        ensures known { IsKnown L.same L.hash_of self.now.of seen.new.book seen.new.names seen.new.log }
        ensures longer { IsPrefix seen.old.log seen.new.log }
        ensures carried { (q : ℕ) × Stands seen.new.log q (entry_of entry.now) }
    {
        let count = self.buckets();
        let mut index = first_bucket(mark_of_word(entry.word), count);
        for _tried in 0..count {
            if self.take_bucket(seen, index, entry) {
                return;
            }
            index = next_bucket(index, count);
        }
        unreachable!()
    }
}
