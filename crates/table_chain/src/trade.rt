//! What the step that shows a value trades: the right to its number for what everyone may know, or else the right comes back.
ghost use Rattle.std.specs.Prelude.{◌≡◌, ℕ, Some, None, [], ◌∷◌, IsSome};
ghost use Rattle.table_slab.specs.Held.{IsRightTo, StandsAt};
ghost use Rattle.table_slab.specs.Slabs.{IsSlot};
ghost use Rattle.table_chain.specs.History.{event, Has, NumbersDiffer};
ghost use Rattle.table_slab.specs.Shelved.{slab_of};
ghost use Rattle.table_chain.specs.declared.event.Stored.TheVariants.{Shown, End};

use crate::event::Event;
use crate::rule::{ChainRule, Follows, Nothing, Token};
use logbook::{Gain, Gained, Offer, Start};
use std::alloc::Allocator;
use std::marker::PhantomData;
use table_slab::{Chunk, Right, Room, Site, Standing, Written};

/// What the step is to trade.
pub struct Trade<G> {
    of: PhantomData<G>,
}

impl<G> Gain<Event<G>, u64> for Trade<G> {
    ghost use Rattle.table_chain.specs.Kept.{traded};

    ghost after = { λ names about answer. traded G.row names about answer };
}

/// The update of a step that shows a value.
pub(crate) type Offering<G, F> = Offer<Event<G>, u64, ChainRule<G, F>, Trade<G>>;

/// The names that a slab has.
pub trait Names<X> {
    ghost use Rattle.std.specs.Prelude.{List};

    ghost names: { X → List ℕ };
}

/// Makes the start of a chain of `_slots` slots over this slab.
pub(crate) fn start<X, N: Names<X>, G, F: Follows<G>>(
    _about: &X,
    _slots: u64,
) -> Start<Event<G>, u64, ChainRule<G, F>>
    ensures names { result.names ≡ N.names _about.now }
    ensures shown { result.shown ≡ event _slots 0 None ∷ [] }
{
    Start {
        marker: PhantomData,
    }
}

/// Makes the update that shows the value of this number in this slot of the chain.
pub(crate) fn offering<G, F: Follows<G>, A: Allocator>(
    _seen: &Token<G, F>,
    _slot: u64,
    _number: u64,
    site: Site<Chunk<G, A>>,
    room: Room<G>,
) -> Offering<G, F>
    requires of { IsSlot (slab_of _seen.now.names) _number site.cell site.value room.of }
    requires full { IsSome room.value }
    ensures names { result.names ≡ _seen.now.names }
    ensures ask { (x : G) × (room.value ≡ Some x)
        × (result.ask ≡ event _slot _number (Some (Shown x))) }
    ensures about { result.about ≡ result.ask ∷ [] }
    ensures state { result.state ≡ None }
{
    let Site { marker: _ } = site;
    let Room { marker: _ } = room;
    Offer {
        marker: PhantomData,
    }
}

/// The update of a step that trades nothing.
pub(crate) type Plainly<G, F> = Offer<Event<G>, u64, ChainRule<G, F>, Nothing>;

/// Makes the update that ends the chain before the slot.
pub(crate) fn closing<G, F: Follows<G>>(_seen: &Token<G, F>, _slot: u64) -> Plainly<G, F>
    ensures names { result.names ≡ _seen.now.names }
    ensures ask { result.ask ≡ event _slot 0 (Some End) }
    ensures state { result.state ≡ None }
{
    Offer {
        marker: PhantomData,
    }
}

/// Returns the two parts of the right after an exchange that was lost: the slot was set before.
fn returned<G, A: Allocator>(
    gained: Gained<Event<G>, u64, Trade<G>>,
    _slot: u64,
    _number: u64,
) -> (Site<Chunk<G, A>>, Room<G>)
    requires lost { gained.answer ≡ 0 }
    requires about { (x : G) × (gained.about ≡ event _slot _number (Some (Shown x)) ∷ []) }
    ensures of { IsSlot (slab_of gained.names) _number result.0.cell result.0.value result.1.of }
    ensures value { (x : G) × (gained.about ≡ event _slot _number (Some (Shown x)) ∷ [])
        × (result.1.value ≡ Some x) }
{
    let Gained { marker: _ } = gained;
    (
        Site {
            marker: PhantomData,
        },
        Room {
            marker: PhantomData,
        },
    )
}

/// Returns the right after an exchange that was lost: the slot was set before.
pub(crate) fn right_back<G, A: Allocator>(
    gained: Gained<Event<G>, u64, Trade<G>>,
    slot: u64,
    number: u64,
) -> Right<G, A>
    requires lost { gained.answer ≡ 0 }
    requires about { (x : G) × (gained.about ≡ event slot number (Some (Shown x)) ∷ []) }
    ensures of { IsRightTo (slab_of gained.names) number result }
    ensures value { (x : G) × (gained.about ≡ event slot number (Some (Shown x)) ∷ [])
        × (result.room.value ≡ Some x) }
{
    let (site, room) = returned(gained, slot, number);
    Right { site, room }
}

/// Returns the two parts of what everyone knows of the value that stands in a slot. It also states that no two slots have one number.
fn recalled<G, F: Follows<G>, A: Allocator>(
    _seen: &Token<G, F>,
    _slot: u64,
    _number: u64,
) -> (Site<Chunk<G, A>>, Written<G>)
    requires there { (x : G) × Has _seen.now.log _slot _number (Shown x) }
    ensures of { IsSlot (slab_of _seen.now.names) _number result.0.cell result.0.value result.1.of }
    ensures value { Has _seen.now.log _slot _number (Shown result.1.value) }
    ensures numbers { NumbersDiffer _seen.now.log }
{
    (
        Site {
            marker: PhantomData,
        },
        Written {
            marker: PhantomData,
        },
    )
}

/// Returns what everyone knows of the value that stands in a slot. It also states that no two slots have one number.
pub(crate) fn known<G, F: Follows<G>, A: Allocator>(
    seen: &Token<G, F>,
    slot: u64,
    number: u64,
) -> Standing<G, A>
    requires there { (x : G) × Has seen.now.log slot number (Shown x) }
    ensures of { StandsAt (slab_of seen.now.names) number result }
    ensures value { Has seen.now.log slot number (Shown result.written.value) }
    ensures numbers { NumbersDiffer seen.now.log }
{
    let (site, written) = recalled(seen, slot, number);
    Standing { site, written }
}
