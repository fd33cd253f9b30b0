//! What threads know of a chain, put together. A law is a call that does nothing, and whose contract states it.
ghost use Rattle.std.specs.Prelude.{◌≡◌, ℕ, suc, ◌<◌, ◌≤◌, length, slice_index_or};
ghost use mathlib.Core.List.{IsPrefix};
ghost use Rattle.table_chain.specs.History.{Stands};
ghost use Rattle.table_chain.specs.Chains.{IsOf, IsFinal, AreValues};

use crate::chain::Chain;
use crate::rule::{Follows, Token};
use std::alloc::Allocator;
use table_cell::Low;

impl<G: Drop, F: Follows<G>, A: Low + Copy> Chain<G, F, A> {
    /// Adds what `other` knows to `seen`. Each of the two histories is a prefix of the result.
    pub fn learn(&self, seen: &mut Token<G, F>, other: &Token<G, F>)
        requires of { IsOf F.begins F.follows self.now seen.old.book seen.old.names seen.old.log }
        requires other { IsOf F.begins F.follows self.now other.now.book other.now.names other.now.log }
        ensures of { IsOf F.begins F.follows self.now seen.new.book seen.new.names seen.new.log }
        ensures longer { IsPrefix seen.old.log seen.new.log }
        ensures others { IsPrefix other.now.log seen.new.log }
    {
        seen.learn(other)
    }

    /// States that the first value may begin a chain, and that each later one follows the one before it.
    pub fn each_follows(&self, seen: &Token<G, F>)
        requires of { IsOf F.begins F.follows self.now seen.now.book seen.now.names seen.now.log }
        ensures first { (g : G) → Stands seen.now.log 0 g → F.begins g }
        ensures later { (p : ℕ) (g : G) → Stands seen.now.log (suc p) g
            → (f : G) × Stands seen.now.log p f × F.follows f g }
        ensures follows { (p : ℕ) (f g : G) → Stands seen.now.log p f → Stands seen.now.log (suc p) g → F.follows f g }
    {
        let _ = seen;
    }

    /// States that each slot before one with a value has a value.
    pub fn none_is_left_out(&self, seen: &Token<G, F>)
        requires of { IsOf F.begins F.follows self.now seen.now.book seen.now.names seen.now.log }
        ensures below { (p q : ℕ) (g : G) → Stands seen.now.log p g → q ≤ p → (f : G) × Stands seen.now.log q f }
    {
        let _ = seen;
    }

    /// States that any two threads know the same value of a slot.
    pub fn slots_agree(&self, one: &Token<G, F>, other: &Token<G, F>)
        requires one { IsOf F.begins F.follows self.now one.now.book one.now.names one.now.log }
        requires other { IsOf F.begins F.follows self.now other.now.book other.now.names other.now.log }
        ensures { (p : ℕ) (f g : G) → Stands one.now.log p f → Stands other.now.log p g → f ≡ g }
    {
        let mut both = one.again();
        both.learn(other);
    }
}

/// States that whatever any thread knows of a slot stands in the history that the chain ended with.
pub fn end_knows_all<G: Drop, F: Follows<G>>(seen: &Token<G, F>, other: &Token<G, F>)
    requires ended { IsFinal F.begins F.follows seen.now.log }
    requires book { other.now.book ≡ seen.now.book }
    ensures { (p : ℕ) (g : G) → Stands other.now.log p g → Stands seen.now.log p g }
{
    let mut both = seen.again();
    both.learn(other);
}

/// States that whatever any thread knows of a slot is the value that was returned for it when the chain ended.
pub fn values_are_all<G: Drop, F: Follows<G>, B: Allocator>(
    values: &Vec<G, B>,
    seen: &Token<G, F>,
    other: &Token<G, F>,
)
    requires values { AreValues seen.now.log values.now.items }
    requires ended { IsFinal F.begins F.follows seen.now.log }
    requires book { other.now.book ≡ seen.now.book }
    ensures count { (p : ℕ) (g : G) → Stands other.now.log p g → p < length values.now.items }
    ensures each { (p : ℕ) (g : G) → Stands other.now.log p g → slice_index_or values.now.items p g ≡ g }
{
    let _ = values;
    let mut both = seen.again();
    both.learn(other);
}
