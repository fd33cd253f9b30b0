//! The end of a chain: its owner takes the values out.
ghost use Rattle.std.specs.Prelude.{◌≡◌, ℕ, ◌+◌, ◌<◌, ◌≤◌, MatchOption, IfOk, IfErr, length, vec_capacity};
ghost use mathlib.Core.List.{IsPrefix};
ghost use Rattle.table_chain.specs.History.{Stands, HasSize, IsReached};
ghost use Rattle.table_chain.specs.Chains.{IsOf, IsWhole, IsFinal, AreValues, AreWords};

use crate::chain::Chain;
use crate::rule::{Follows, SlotWord, Token};
use crate::trade::known;
use crate::word::{close, look};
use std::alloc::Allocator;
use std::marker::Model;
use table_cell::Low;
use table_slab::Ending as SlabEnding;

/// A chain that no thread shares any more. It returns the values one by one; dropping it drops the rest.
pub struct Ending<G: Drop, F: Follows<G>, A: Low + Copy> {
    words: Vec<SlotWord<G, F>, A>,
    left: SlabEnding<G, A>,
    seen: Token<G, F>,
    count: usize,
    taken: usize,
}

impl<G: Drop, F: Follows<G>, A: Low + Copy> Model for Ending<G, F, A> {
    ghost use Rattle.table_chain.specs.Chains.{EndingView, ending_view, IsEnding};

    ghost Value = { EndingView G };

    ghost view = { λ e. ending_view e.seen.log e.count e.taken };

    ghost invariant = { λ e. IsEnding F.begins F.follows e.seen.book e.seen.names e.seen.log e.words.items
        e.left e.count e.taken };
}

/// Closes the first empty slot, so that no value can be shown any more. Returns the number of values.
fn close_behind<G, F: Follows<G>, A: Allocator>(
    words: &Vec<SlotWord<G, F>, A>,
    seen: &mut Token<G, F>,
) -> usize
    requires words { AreWords seen.old.book words.now.items }
    requires size { HasSize (length words.now.items) seen.old.log }
    requires reached { IsReached F.begins F.follows seen.old.log }
    ensures same { (seen.new.book ≡ seen.old.book) × (seen.new.names ≡ seen.old.names) }
    ensures longer { IsPrefix seen.old.log seen.new.log }
    ensures reached { IsReached F.begins F.follows seen.new.log }
    ensures whole { IsWhole (length words.now.items) result seen.new.log }
{
    for slot in 0..words.len() {
        if close(&words[slot], seen, slot as u64) {
            return slot;
        }
    }
    words.len()
}

impl<G: Drop, F: Follows<G>, A: Low + Copy> Chain<G, F, A> {
    /// Closes the chain: no value can be shown any more, and the values stay where they are. Returns the number of values. Threads that share
    /// the chain can't call it.
    pub fn close(&mut self, seen: &mut Token<G, F>) -> usize
        requires of { IsOf F.begins F.follows self.old seen.old.book seen.old.names seen.old.log }
        ensures same { self.new ≡ self.old }
        ensures of { IsOf F.begins F.follows self.old seen.new.book seen.new.names seen.new.log }
        ensures longer { IsPrefix seen.old.log seen.new.log }
        ensures whole { IsWhole self.old.slots result seen.new.log }
        ensures counted { (p : ℕ) (g : G) → Stands seen.new.log p g → p < result }
        ensures ended { IsFinal F.begins F.follows seen.new.log }
    {
        close_behind(&self.words, seen)
    }

    /// Ends the chain. No value can be shown any more. It asks for no memory.
    pub fn into_ending(mut self, seen: &mut Token<G, F>) -> Ending<G, F, A>
        requires of { IsOf F.begins F.follows self seen.old.book seen.old.names seen.old.log }
        ensures of { IsOf F.begins F.follows self seen.new.book seen.new.names seen.new.log }
        ensures longer { IsPrefix seen.old.log seen.new.log }
        ensures log { result.log ≡ seen.new.log }
        ensures taken { result.taken ≡ 0 }
        ensures whole { IsWhole self.slots result.count seen.new.log }
        ensures counted { (p : ℕ) (g : G) → Stands seen.new.log p g → p < result.count }
        ensures ended { IsFinal F.begins F.follows seen.new.log }
    {
        let count = self.close(seen);
        let (words, slab, _start) = self.into_parts();
        Ending {
            words,
            left: slab.end(),
            seen: seen.again(),
            count,
            taken: 0,
        }
    }

    /// Ends the chain, and returns all values that were ever shown, in the order of slots. `Err` returns the chain unchanged: memory was
    /// refused.
    pub fn into_values<B: Allocator>(
        self,
        alloc: B,
        seen: &mut Token<G, F>,
    ) -> Result<Vec<G, B>, Chain<G, F, A>>
        requires of { IsOf F.begins F.follows self seen.old.book seen.old.names seen.old.log }
        ensures of { IsOf F.begins F.follows self seen.new.book seen.new.names seen.new.log }
        ensures longer { IsPrefix seen.old.log seen.new.log }
        ensures values { IfOk result (λ v. AreValues seen.new.log v.items) }
        ensures ended { IfOk result (λ _. IsFinal F.begins F.follows seen.new.log) }
        ensures back { IfErr result (λ c. c ≡ self) }
    {
        let Ok(mut values) = Vec::with_capacity(alloc, self.words.len()) else {
            return Err(self);
        };
        let mut ending = self.into_ending(seen);
        while let Some(value) = ending.next() {
            values.push_reserved(value);
        }
        Ok(values)
    }
}

impl<G: Drop, F: Follows<G>, A: Low + Copy> Ending<G, F, A> {
    /// Returns the value of the next slot. `None` means that all values were returned.
    pub fn next(&mut self) -> Option<G>
        ensures log { self.new.log ≡ self.old.log }
        ensures count { self.new.count ≡ self.old.count }
        ensures some { MatchOption result ((self.old.taken ≡ self.old.count) × (self.new.taken ≡ self.old.taken))
            (λ g. Stands self.old.log self.old.taken g × (self.old.taken < self.old.count)
            × (self.new.taken ≡ self.old.taken + 1)) }
    {
        if self.taken == self.count {
            return None;
        }
        let slot = self.taken;
        let mut later = self.seen.again();
        let number = look(&self.words[slot], &mut later) - 2;
        let standing = known(&later, slot as u64, number);
        self.taken = slot + 1;
        Some(self.left.take_out(number, &standing))
    }
}

impl<G: Drop, F: Follows<G>, A: Low + Copy> Drop for Ending<G, F, A> {
    /// Drops each value that `next` did not return.
    fn drop(mut self) {
        while let Some(value) = self.next() {
            drop(value);
        }
        let Ending {
            words: _,
            left: _,
            seen: _,
            count: _,
            taken: _,
        } = self;
    }
}
