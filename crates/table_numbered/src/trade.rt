//! What the step that publishes an entry trades: the right to its slot for a receipt, or else the right comes back.
ghost use Rattle.std.specs.Prelude.{◌≡◌, ℕ, Some, None, [], ◌∷◌, IsSome};
ghost use Rattle.table_slab.specs.Held.{StandsAt, IsReceiptFor};
ghost use Rattle.table_slab.specs.Shelved.{slab_of};
ghost use Rattle.table_slab.specs.Slabs.{IsSlot};
ghost use Rattle.table_numbered.specs.Words.{numbered};
ghost use Rattle.table_numbered.specs.History.{event, opening, Stands, IsEntry, OneValue};
ghost use Rattle.table_numbered.specs.declared.event.Stored.TheVariants.{Entry, Closed};

use crate::event::{Event, Numbered, Stored};
use crate::rule::{Nothing, SetRule, Token};
use logbook::{Gain, Gained, Offer, Start};
use std::alloc::Allocator;
use std::marker::PhantomData;
use table_slab::{Chunk, Receipt, Room, Site, Standing, Written};
use table_terms::law::Law;

/// What the step is to trade.
pub struct Trade<V> {
    of: PhantomData<V>,
}

impl<V> Gain<Event<Stored<Numbered<V>>>, u64> for Trade<V> {
    ghost use Rattle.table_numbered.specs.Kept.{traded};

    ghost after = { λ names about answer. traded V.row names about answer };
}

/// The update of a step that publishes an entry.
pub(crate) type Publishing<V, L> = Offer<Event<Stored<Numbered<V>>>, u64, SetRule<V, L>, Trade<V>>;

/// The update of a step that stores what everyone may know.
pub(crate) type Carrying<V, L> = Offer<Event<Stored<Numbered<V>>>, u64, SetRule<V, L>, Nothing>;

/// What a history is begun from: the names of the slab, and what is due.
pub trait Begins<X, V> {
    ghost use Rattle.std.specs.Prelude.{List};
    ghost use Rattle.table_numbered.specs.declared.event.Numbered.{Numbered};
    ghost use Rattle.table_numbered.specs.declared.event.Stored.{Stored};

    ghost ids: { X → List ℕ };

    ghost due: { X → List (Stored (Numbered V)) };
}

/// Makes the start of a history of `_count` buckets.
pub(crate) fn start<X, M: Begins<X, V>, V, L: Law<V>>(
    _about: &X,
    _count: u64,
) -> Start<Event<Stored<Numbered<V>>>, u64, SetRule<V, L>>
    ensures names { result.names ≡ M.ids _about.now }
    ensures shown { result.shown ≡ opening _count (M.due _about.now) ∷ [] }
{
    Start {
        marker: PhantomData,
    }
}

/// Makes the update that publishes the value of the slot by storing it in the bucket.
pub(crate) fn publishing<V, L: Law<V>, A: Allocator>(
    _seen: &Token<V, L>,
    _place: u64,
    _number: u64,
    site: Site<Chunk<V, A>>,
    room: Room<V>,
) -> Publishing<V, L>
    requires of { IsSlot (slab_of _seen.now.names) _number site.cell site.value room.of }
    requires full { IsSome room.value }
    ensures names { result.names ≡ _seen.now.names }
    ensures ask { (x : V) × (room.value ≡ Some x)
        × (result.ask ≡ event _place (Some (Entry (numbered _number x)))) }
    ensures about { result.about ≡ result.ask ∷ [] }
    ensures state { result.state ≡ None }
{
    let Site { marker: _ } = site;
    let Room { marker: _ } = room;
    Offer {
        marker: PhantomData,
    }
}

/// Makes the update that stores in the bucket what the slot is known to hold.
pub(crate) fn carrying<V, L: Law<V>, A: Allocator>(
    _seen: &Token<V, L>,
    _place: u64,
    _number: u64,
    site: Site<Chunk<V, A>>,
    written: Written<V>,
) -> Carrying<V, L>
    requires of { IsSlot (slab_of _seen.now.names) _number site.cell site.value written.of }
    ensures names { result.names ≡ _seen.now.names }
    ensures ask { result.ask ≡ event _place (Some (Entry (numbered _number written.value))) }
    ensures state { result.state ≡ None }
{
    let Site { marker: _ } = site;
    let Written { marker: _ } = written;
    Offer {
        marker: PhantomData,
    }
}

/// Makes the update that closes the bucket.
pub(crate) fn closing<V, L: Law<V>>(_seen: &Token<V, L>, _place: u64) -> Carrying<V, L>
    ensures names { result.names ≡ _seen.now.names }
    ensures ask { result.ask ≡ event _place (Some Closed) }
    ensures state { result.state ≡ None }
{
    Offer {
        marker: PhantomData,
    }
}

/// Returns the receipt for an entry that was published.
pub(crate) fn won<V>(
    gained: Gained<Event<Stored<Numbered<V>>>, u64, Trade<V>>,
    _place: u64,
    _number: u64,
) -> Receipt<V>
    requires won { gained.answer ≡ 1 }
    requires about { (x : V)
        × (gained.about ≡ event _place (Some (Entry (numbered _number x))) ∷ []) }
    ensures receipt { (x : V)
        × (gained.about ≡ event _place (Some (Entry (numbered _number x))) ∷ [])
        × IsReceiptFor (slab_of gained.names) _number x result }
{
    let Gained { marker: _ } = gained;
    Receipt {
        marker: PhantomData,
    }
}

/// Returns the right to the slot if the bucket was set before.
pub(crate) fn returned<V, A: Allocator>(
    gained: Gained<Event<Stored<Numbered<V>>>, u64, Trade<V>>,
    _place: u64,
    _number: u64,
) -> (Site<Chunk<V, A>>, Room<V>)
    requires lost { gained.answer ≡ 0 }
    requires about { (x : V)
        × (gained.about ≡ event _place (Some (Entry (numbered _number x))) ∷ []) }
    ensures of { IsSlot (slab_of gained.names) _number result.0.cell result.0.value result.1.of }
    ensures value { (x : V)
        × (gained.about ≡ event _place (Some (Entry (numbered _number x))) ∷ [])
        × (result.1.value ≡ Some x) }
{
    let Gained { marker: _ } = gained;
    (
        Site {
            marker: PhantomData,
        },
        Room {
            marker: PhantomData,
        },
    )
}

/// Returns what everyone may know of the cell and of the slot of an entry. States that a number has one value.
pub(crate) fn recalled<V, L: Law<V>, A: Allocator>(
    _seen: &Token<V, L>,
    _number: u64,
) -> (Site<Chunk<V, A>>, Written<V>)
    requires there { (p : ℕ) × (x : V) × Stands _seen.now.log p (numbered _number x) }
    ensures of { IsSlot (slab_of _seen.now.names) _number result.0.cell result.0.value result.1.of }
    ensures value { IsEntry _seen.now.log (numbered _number result.1.value) }
    ensures one { OneValue _seen.now.log }
{
    (
        Site {
            marker: PhantomData,
        },
        Written {
            marker: PhantomData,
        },
    )
}

/// Returns what everyone may know of the entry of this number. States that a number has one value.
pub(crate) fn known_by<V, L: Law<V>, A: Allocator>(
    seen: &Token<V, L>,
    number: u64,
) -> Standing<V, A>
    requires there { (p : ℕ) × (x : V) × Stands seen.now.log p (numbered number x) }
    ensures of { StandsAt (slab_of seen.now.names) number result }
    ensures value { IsEntry seen.now.log (numbered number result.written.value) }
    ensures one { OneValue seen.now.log }
{
    let (site, written) = recalled(seen, number);
    Standing { site, written }
}

/// Returns what everyone may know of the entry of this number, which is in this bucket. States that a number has one value.
pub(crate) fn known<V, L: Law<V>, A: Allocator>(
    seen: &Token<V, L>,
    _place: u64,
    number: u64,
) -> Standing<V, A>
    requires there { (x : V) × Stands seen.now.log _place (numbered number x) }
    ensures of { StandsAt (slab_of seen.now.names) number result }
    ensures value { Stands seen.now.log _place (numbered number result.written.value) }
    ensures one { OneValue seen.now.log }
{
    known_by(seen, number)
}

/// States that a number has one value. Nothing happens.
pub fn one_value<V, L: Law<V>>(_seen: &Token<V, L>)
    ensures { OneValue _seen.now.log }
{}
