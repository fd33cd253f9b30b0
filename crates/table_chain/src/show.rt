//! How threads show values.
ghost use Rattle.std.specs.Prelude.{◌≡◌, ◌≢◌, ◌<◌, None};
ghost use mathlib.Core.List.{IsPrefix};
ghost use Rattle.table_slab.specs.Held.{IsRightTo};
ghost use Rattle.table_slab.specs.Numbering.{IsSmall};
ghost use Rattle.table_chain.specs.History.{Told, MayStand};
ghost use Rattle.table_chain.specs.Chains.{IsOf, Shows};
ghost use Rattle.table_slab.specs.Shelved.{slab_of};

use crate::chain::Chain;
use crate::rule::{Follows, Token};
use crate::trade::known;
use crate::word::{Lost, publish};
use table_cell::Low;
use table_slab::{Right, Run};

/// The outcome of `Chain::show`.
#[derive(Drop)]
pub enum Showing<'a, G> {
    /// The value is in the slot.
    Shown(&'a G),
    /// The slot has this other value. The caller's value is returned.
    Other(&'a G, G),
    /// The call found no value in the slot and stored none: memory was refused, no number was left, or the chain had ended. The caller's
    /// value is returned.
    Refused(G),
}

impl<G: Drop, F: Follows<G>, A: Low + Copy> Chain<G, F, A> {
    /// Returns `next` to the caller, beside the value that the slot has.
    fn other<'a>(&'a self, seen: &Token<G, F>, slot: usize, found: u64, next: G) -> Showing<'a, G>
        requires of { IsOf F.begins F.follows self.now seen.now.book seen.now.names seen.now.log }
        requires set { found ≢ 0 }
        requires told { Told F.begins F.follows slot found seen.now.log }
        ensures told { (old : _) → Shows F.begins F.follows slot next old seen.now.log result }
    {
        match self.shown(seen, slot, found) {
            Some(there) => Showing::Other(there, next),
            None => Showing::Refused(next),
        }
    }

    /// Shows `next` in a slot by one exchange. If another value is there already, or wins the exchange, that value is returned beside `next`.
    pub fn show<'a>(&'a self, seen: &mut Token<G, F>, slot: usize, next: G) -> Showing<'a, G>
        requires of { IsOf F.begins F.follows self.now seen.old.book seen.old.names seen.old.log }
        requires inside { slot < self.now.slots }
        requires fits { MayStand F.begins F.follows seen.old.log slot next }
        ensures of { IsOf F.begins F.follows self.now seen.new.book seen.new.names seen.new.log }
        ensures longer { IsPrefix seen.old.log seen.new.log }
        ensures told { Shows F.begins F.follows slot next seen.old.log seen.new.log result }
    {
        let found = self.look_at(seen, slot);
        if found != 0 {
            return self.other(seen, slot, found, next);
        }
        let Ok((number, right)) = self.slab.number(&mut Run::new(), 1) else {
            return Showing::Refused(next);
        };
        self.show_under(seen, slot, number, right, next)
    }

    /// Shows `next` under a number that no other value has.
    fn show_under<'a>(
        &'a self,
        seen: &mut Token<G, F>,
        slot: usize,
        number: u64,
        right: Right<G, A>,
        next: G,
    ) -> Showing<'a, G>
        requires of { IsOf F.begins F.follows self.now seen.old.book seen.old.names seen.old.log }
        requires inside { slot < self.now.slots }
        requires small { IsSmall number }
        requires right { IsRightTo (slab_of self.now.names) number right }
        requires empty { right.room.value ≡ None }
        requires may { MayStand F.begins F.follows seen.old.log slot next }
        ensures of { IsOf F.begins F.follows self.now seen.new.book seen.new.names seen.new.log }
        ensures longer { IsPrefix seen.old.log seen.new.log }
        ensures told { Shows F.begins F.follows slot next seen.old.log seen.new.log result }
    {
        let right = self.slab.put(number, right, next);
        match publish(&self.words[slot], seen, slot as u64, number, right) {
            Ok(()) => {
                let standing = known(seen, slot as u64, number);
                Showing::Shown(self.slab.get(number, &standing))
            }
            Err(lost) => {
                let Lost { found, right } = lost;
                let (next, _right) = self.slab.take(number, right);
                self.other(seen, slot, found, next)
            }
        }
    }
}
