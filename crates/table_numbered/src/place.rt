//! How a value is placed.
ghost use Rattle.std.specs.Prelude.{◌≡◌, ◌≢◌, ℕ, ◌<◌, None};
ghost use mathlib.Core.List.{IsPrefix};
ghost use Rattle.table_slab.specs.Held.{IsRightTo};
ghost use Rattle.table_numbered.specs.Words.{IsNumber, alike, marked, numbered};
ghost use Rattle.table_numbered.specs.History.{Says, Reaches};
ghost use Rattle.table_numbered.specs.Generations.{IsOf, IsComing, Claims, Inserts, GivesBack, IsFullBy};

use crate::bucket::{Lost, publish};
use crate::generation::NumberedGeneration;
use crate::rule::Token;
use crate::word::{first_bucket, mark_of_hash, mark_of_word, number_of_word, word_of_entry};
use std::alloc::Allocator;
use table_cell::Low;
use table_slab::{Receipt, Right, Slab};
use table_terms::law::SetLaw;
use table_terms::probe::next_bucket;

/// How an insert ended.
#[derive(Drop)]
pub enum Placing<'a, V, A: Allocator> {
    /// The value is an entry now, which is shown. Nothing else has its receipt.
    Placed(&'a V, Receipt<V>),
    /// This entry, which has this number, is the same. The value comes back, and the right to the empty slot.
    Found(u64, &'a V, V, Right<V, A>),
    /// No bucket is left for the value, and no entry that is known then is the same. The value comes back, and the right to the
    /// empty slot.
    Full(V, Right<V, A>),
}

/// A value to be placed, with its mark, its number, and the right to the empty slot of that number.
#[derive(Drop)]
pub(crate) struct Coming<V, A: Allocator> {
    pub value: V,
    pub mark: u64,
    pub number: u64,
    pub right: Right<V, A>,
}

/// What a probe for a place does in one bucket.
#[derive(Drop)]
pub(crate) enum Claim<'a, V, A: Allocator> {
    /// The value was placed there.
    Placed(&'a V, Receipt<V>),
    /// The bucket has this entry, which is the same, with its number.
    Found(u64, &'a V, Coming<V, A>),
    /// The bucket has another entry.
    Differs(Coming<V, A>),
    /// The bucket is closed.
    Closed(Coming<V, A>),
}

impl<V, L: SetLaw<V>, A: Low + Copy> NumberedGeneration<V, L, A> {
    /// Compares the value with what the bucket has.
    fn compare<'a>(
        &self,
        slab: &'a Slab<V, A>,
        seen: &Token<V, L>,
        index: usize,
        word: u64,
        coming: Coming<V, A>,
    ) -> Claim<'a, V, A>
        requires slab { slab.now ≡ self.now.of.slab }
        requires of { IsOf L.same L.hash_of self.now.of seen.now.book seen.now.names seen.now.log }
        requires inside { index < self.now.of.size }
        requires set { word ≢ 0 }
        requires says { Says (alike L.same) (marked L.hash_of) index word seen.now.log }
        requires coming { IsComing L.same L.hash_of self.now.of.slab coming.value coming.number
            coming }
        ensures told { (old : _) → Claims L.same L.hash_of self.now.of.slab coming.value
            coming.number index old seen.now.log result }
    {
        if word == 1 {
            return Claim::Closed(coming);
        }
        if mark_of_word(word) != coming.mark {
            return Claim::Differs(coming);
        }
        let number = number_of_word(word);
        let entry = self.entry_at(slab, seen, index, number);
        if L::is_same(&coming.value, entry) {
            Claim::Found(number, entry, coming)
        } else {
            Claim::Differs(coming)
        }
    }

    /// Writes the value into its slot and sets the bucket by one exchange, unless it was set before.
    fn offer<'a>(
        &self,
        slab: &'a Slab<V, A>,
        seen: &mut Token<V, L>,
        index: usize,
        coming: Coming<V, A>,
    ) -> Claim<'a, V, A>
        requires slab { slab.now ≡ self.now.of.slab }
        requires of { IsOf L.same L.hash_of self.now.of seen.old.book seen.old.names seen.old.log }
        requires inside { index < self.now.of.size }
        requires coming { IsComing L.same L.hash_of self.now.of.slab coming.value coming.number
            coming }
        requires reached { Reaches (alike L.same) (marked L.hash_of) self.now.of.size seen.old.log
            (numbered coming.number coming.value) index }
        ensures of { IsOf L.same L.hash_of self.now.of seen.new.book seen.new.names seen.new.log }
        ensures longer { IsPrefix seen.old.log seen.new.log }
        ensures told { Claims L.same L.hash_of self.now.of.slab coming.value coming.number index
            seen.old.log seen.new.log result }
    {
        let Coming {
            value,
            mark,
            number,
            right,
        } = coming;
        let bits = word_of_entry(mark, number);
        let right = slab.put(number, right, value);
        let place = index as u64;
        match publish(self.row.word(index), seen, place, number, bits, right) {
            Ok(receipt) => Claim::Placed(slab.get(number, &receipt.shows()), receipt),
            Err(Lost { found, right }) => {
                let (value, right) = slab.take(number, right);
                let back = Coming {
                    value,
                    mark,
                    number,
                    right,
                };
                self.compare(slab, seen, index, found, back)
            }
        }
    }

    /// Sets the bucket, or compares the value with what it has.
    fn claim<'a>(
        &self,
        slab: &'a Slab<V, A>,
        seen: &mut Token<V, L>,
        index: usize,
        coming: Coming<V, A>,
    ) -> Claim<'a, V, A>
        requires slab { slab.now ≡ self.now.of.slab }
        requires of { IsOf L.same L.hash_of self.now.of seen.old.book seen.old.names seen.old.log }
        requires inside { index < self.now.of.size }
        requires coming { IsComing L.same L.hash_of self.now.of.slab coming.value coming.number
            coming }
        requires reached { Reaches (alike L.same) (marked L.hash_of) self.now.of.size seen.old.log
            (numbered coming.number coming.value) index }
        ensures of { IsOf L.same L.hash_of self.now.of seen.new.book seen.new.names seen.new.log }
        ensures longer { IsPrefix seen.old.log seen.new.log }
        ensures told { Claims L.same L.hash_of self.now.of.slab coming.value coming.number index
            seen.old.log seen.new.log result }
    {
        let found = self.look_at(seen, index);
        if found != 0 {
            return self.compare(slab, seen, index, found, coming);
        }
        self.offer(slab, seen, index, coming)
    }

    /// Places the value in the slot of this number, the right to which is handed in. It takes no memory.
    pub fn place<'a>(
        &self,
        slab: &'a Slab<V, A>,
        seen: &mut Token<V, L>,
        number: u64,
        right: Right<V, A>,
        value: V,
    ) -> Placing<'a, V, A>
        requires slab { slab.now ≡ self.now.of.slab }
        requires of { IsOf L.same L.hash_of self.now.of seen.old.book seen.old.names seen.old.log }
        requires number { IsNumber number }
        requires right { IsRightTo self.now.of.slab number right }
        requires empty { right.room.value ≡ None }
        ensures of { IsOf L.same L.hash_of self.now.of seen.new.book seen.new.names seen.new.log }
        ensures longer { IsPrefix seen.old.log seen.new.log }
        ensures told { Inserts L.same L.hash_of value number seen.old.log seen.new.log result }
        ensures back { GivesBack L.same L.hash_of self.now.of.slab value number result }
        ensures full { IsFullBy L.same L.hash_of self.now.of.size value seen.new.log result }
    {
        let count = self.buckets();
        let mark = mark_of_hash(L::hash(&value));
        let mut index = first_bucket(mark, count);
        let mut coming = Coming {
            value,
            mark,
            number,
            right,
        };
        for _claimed in 0..count {
            match self.claim(slab, seen, index, coming) {
                Claim::Placed(entry, receipt) => {
                    self.hint_placed(seen, number);
                    return Placing::Placed(entry, receipt);
                }
                Claim::Found(met, entry, back) => {
                    return Placing::Found(met, entry, back.value, back.right);
                }
                Claim::Closed(back) => return Placing::Full(back.value, back.right),
                Claim::Differs(back) => coming = back,
            }
            index = next_bucket(index, count);
        }
        Placing::Full(coming.value, coming.right)
    }
}
