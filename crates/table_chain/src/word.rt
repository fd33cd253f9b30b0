//! The steps on a slot's word.
ghost use Rattle.std.specs.Prelude.{◌≡◌, ◌≢◌, ℕ, true, false, Some, IsSome, IfOk, IfErr};
ghost use mathlib.Core.List.{IsPrefix};
ghost use Rattle.table_slab.specs.Held.{IsRightTo};
ghost use Rattle.table_slab.specs.Numbering.{IsSmall};
ghost use Rattle.table_chain.specs.History.{event, Has, Stands, IsInside, Told, IsReached, MayStand, Adds};
ghost use Rattle.table_chain.specs.Chains.{IsWord};
ghost use Rattle.table_slab.specs.Shelved.{slab_of};
ghost use Rattle.table_chain.specs.declared.event.Stored.TheVariants.{Shown, End};

use crate::rule::{Follows, Look, Nothing, SlotWord, Store, Token};
use crate::trade::{Offering, Plainly, Trade, closing, offering, right_back};
use std::alloc::Allocator;
use table_slab::Right;

/// What comes back from a slot that was set before.
#[derive(Drop)]
pub struct Lost<G, A: Allocator> {
    pub found: u64,
    pub right: Right<G, A>,
}

/// Returns the number that the word has by now.
pub(crate) fn look<G, F: Follows<G>>(word: &SlotWord<G, F>, seen: &mut Token<G, F>) -> u64
    requires word { IsWord seen.old.book word.now }
    requires inside { IsInside word.now.key seen.old.log }
    ensures same { (seen.new.book ≡ seen.old.book) × (seen.new.names ≡ seen.old.names) }
    ensures longer { IsPrefix seen.old.log seen.new.log }
    ensures told { Told F.begins F.follows word.now.key result seen.new.log }
    ensures reached { IsReached F.begins F.follows seen.new.log }
{
    let mut offer = seen.plain::<Nothing, (), Look<G, F>>(&());
    word.load::<Look<G, F>, Nothing>(seen, &mut offer)
}

/// Shows what lies under the number by one exchange, unless the slot was set before.
pub(crate) fn publish<G, F: Follows<G>, A: Allocator>(
    word: &SlotWord<G, F>,
    seen: &mut Token<G, F>,
    slot: u64,
    number: u64,
    right: Right<G, A>,
) -> Result<(), Lost<G, A>>
    requires word { IsWord seen.old.book word.now }
    requires slot { slot ≡ word.now.key }
    requires inside { IsInside word.now.key seen.old.log }
    requires small { IsSmall number }
    requires of { IsRightTo (slab_of seen.old.names) number right }
    requires full { IsSome right.room.value }
    requires may { (x : G) → right.room.value ≡ Some x → MayStand F.begins F.follows seen.old.log word.now.key x }
    ensures same { (seen.new.book ≡ seen.old.book) × (seen.new.names ≡ seen.old.names) }
    ensures longer { IsPrefix seen.old.log seen.new.log }
    ensures reached { IsReached F.begins F.follows seen.new.log }
    ensures ok { IfOk result (λ _. (x : G) × (right.room.value ≡ Some x)
        × Adds F.begins F.follows (event slot number (Some (Shown x))) slot seen.old.log seen.new.log) }
    ensures err { IfErr result (λ l. IsRightTo (slab_of seen.old.names) number l.right
        × (l.right.room.value ≡ right.room.value) × (l.found ≢ 0) × Told F.begins F.follows slot l.found seen.new.log) }
{
    let Right { site, room } = right;
    let mut offer: Offering<G, F> = offering(seen, slot, number, site, room);
    let mut pen = seen.no_pen();
    let found = word.compare_exchange::<Store<G, F>, Trade<G>>(
        0,
        number + 2,
        seen,
        &mut offer,
        &mut pen,
    );
    if found == 0 {
        return Ok(());
    }
    let right = right_back(offer.into_gain(), slot, number);
    Err(Lost { found, right })
}

/// Ends the chain before the slot by one exchange, unless a value is in the slot. Returns false if one is.
pub(crate) fn close<G, F: Follows<G>>(
    word: &SlotWord<G, F>,
    seen: &mut Token<G, F>,
    slot: u64,
) -> bool
    requires word { IsWord seen.old.book word.now }
    requires slot { slot ≡ word.now.key }
    requires inside { IsInside word.now.key seen.old.log }
    ensures same { (seen.new.book ≡ seen.old.book) × (seen.new.names ≡ seen.old.names) }
    ensures longer { IsPrefix seen.old.log seen.new.log }
    ensures reached { IsReached F.begins F.follows seen.new.log }
    ensures ended { result ≡ true → (k : ℕ) × Has seen.new.log slot k End }
    ensures value { result ≡ false → (g : G) × Stands seen.new.log slot g }
{
    let mut offer: Plainly<G, F> = closing(seen, slot);
    let mut pen = seen.no_pen();
    let found = word.compare_exchange::<Store<G, F>, Nothing>(0, 1, seen, &mut offer, &mut pen);
    found < 2
}
