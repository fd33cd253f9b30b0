//! Probes for what is sought.
ghost use Rattle.std.specs.Prelude.{◌≡◌, ℕ, ◌<◌};
ghost use mathlib.Core.List.{IsPrefix};
ghost use Rattle.table_numbered.specs.Words.{mark_of};
ghost use Rattle.table_numbered.specs.History.{IsEntry};
ghost use Rattle.table_numbered.specs.Generations.{IsOf, Meets, Finds, ProbeFinds, Ends};

use crate::generation::NumberedGeneration;
use crate::rule::Token;
use crate::sought::Sought;
use crate::word::{first_bucket, mark_of_hash, mark_of_word, number_of_word};
use table_cell::Low;
use table_slab::Slab;
use table_terms::law::SetLaw;
use table_terms::probe::next_bucket;

/// What a probe meets in one bucket.
#[derive(Drop)]
pub(crate) enum Meeting<'a, V> {
    /// What is sought, with its number.
    Found(u64, &'a V),
    /// Another entry.
    Differs,
    /// No entry, and the bucket is open.
    Vacant,
    /// The bucket is closed.
    Closed,
}

/// How a probe ended.
#[derive(Debug, PartialEq, Eq, Drop)]
pub enum Probed<'a, V> {
    /// What is sought is there, with its number.
    Found(u64, &'a V),
    /// No entry that is known then is it, and the probe came to an empty bucket.
    Vacant,
    /// No entry that is known then is it, and the probe came to a closed bucket or has read all buckets.
    Full,
}

impl<V, L: SetLaw<V>, A: Low + Copy> NumberedGeneration<V, L, A> {
    /// Compares what is sought with what the bucket has. An entry is read only where its mark is that of what is sought.
    pub(crate) fn meet<'a, S: Sought<V, L>>(
        &self,
        slab: &'a Slab<V, A>,
        seen: &mut Token<V, L>,
        index: usize,
        mark: u64,
        sought: &S,
    ) -> Meeting<'a, V>
        requires slab { slab.now ≡ self.now.of.slab }
        requires of { IsOf L.same L.hash_of self.now.of seen.old.book seen.old.names seen.old.log }
        requires inside { index < self.now.of.size }
        requires mark { mark ≡ mark_of (S.sought_hash sought.now) }
        ensures of { IsOf L.same L.hash_of self.now.of seen.new.book seen.new.names seen.new.log }
        ensures longer { IsPrefix seen.old.log seen.new.log }
        ensures meets { Meets (S.accepts sought.now) index seen.new.log result }
    {
        let word = self.look_at(seen, index);
        if word == 0 {
            return Meeting::Vacant;
        }
        if word == 1 {
            return Meeting::Closed;
        }
        if mark_of_word(word) != mark {
            return Meeting::Differs;
        }
        let number = number_of_word(word);
        let entry = self.entry_at(slab, seen, index, number);
        if sought.is(entry) {
            Meeting::Found(number, entry)
        } else {
            Meeting::Differs
        }
    }

    /// Probes for what is sought, and says where the probe ended. It takes no memory and changes nothing but what is known.
    pub fn probe<'a, S: Sought<V, L>>(
        &self,
        slab: &'a Slab<V, A>,
        seen: &mut Token<V, L>,
        sought: &S,
    ) -> Probed<'a, V>
        requires slab { slab.now ≡ self.now.of.slab }
        requires of { IsOf L.same L.hash_of self.now.of seen.old.book seen.old.names seen.old.log }
        ensures of { IsOf L.same L.hash_of self.now.of seen.new.book seen.new.names seen.new.log }
        ensures longer { IsPrefix seen.old.log seen.new.log }
        ensures finds { ProbeFinds (S.accepts sought.now) (IsEntry seen.new.log) result }
        ensures ends { Ends (S.accepts sought.now) self.now.of.size
            (mark_of (S.sought_hash sought.now)) seen.new.log result }
    {
        let count = self.buckets();
        let mark = mark_of_hash(sought.hash());
        let mut index = first_bucket(mark, count);
        for _tried in 0..count {
            match self.meet(slab, seen, index, mark, sought) {
                Meeting::Found(number, entry) => return Probed::Found(number, entry),
                Meeting::Differs => {}
                Meeting::Vacant => return Probed::Vacant,
                Meeting::Closed => return Probed::Full,
            }
            index = next_bucket(index, count);
        }
        Probed::Full
    }

    /// Returns the entry that is sought, with its number. `None`: no entry that the caller knew matches. It requests no memory, and
    /// changes only what the caller knows.
    pub fn seek<'a, S: Sought<V, L>>(
        &self,
        slab: &'a Slab<V, A>,
        seen: &mut Token<V, L>,
        sought: &S,
    ) -> Option<(u64, &'a V)>
        requires slab { slab.now ≡ self.now.of.slab }
        requires of { IsOf L.same L.hash_of self.now.of seen.old.book seen.old.names seen.old.log }
        ensures of { IsOf L.same L.hash_of self.now.of seen.new.book seen.new.names seen.new.log }
        ensures longer { IsPrefix seen.old.log seen.new.log }
        ensures finds { Finds (S.accepts sought.now) (IsEntry seen.new.log) result }
    {
        match self.probe(slab, seen, sought) {
            Probed::Found(number, entry) => Some((number, entry)),
            Probed::Vacant => None,
            Probed::Full => None,
        }
    }
}
