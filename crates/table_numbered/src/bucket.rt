//! The steps on a bucket's word.
ghost use Rattle.std.specs.Prelude.{◌≡◌, ◌≢◌, ℕ, ◌<◌, true, Some, IsSome, IfOk, IfErr};
ghost use mathlib.Core.List.{IsPrefix};
ghost use Rattle.table_slab.specs.Held.{IsRightTo, StandsAt, IsReceiptFor};
ghost use Rattle.table_slab.specs.Shelved.{slab_of};
ghost use Rattle.table_numbered.specs.Words.{numbered, alike, marked, word_of};
ghost use Rattle.table_numbered.specs.History.{Has, Stands, IsInside, size_of, Fits, Says, IsReached, IsWhole, Adds};
ghost use Rattle.table_numbered.specs.Generations.{IsWord};
ghost use Rattle.table_numbered.specs.declared.event.Stored.TheVariants.{Entry, Closed};

use crate::rule::{Bucket, Look, Nothing, Publish, Token};
use crate::trade::{Carrying, Publishing, Trade, carrying, closing, publishing, returned, won};
use std::alloc::Allocator;
use table_slab::{Receipt, Right, Standing};
use table_terms::law::SetLaw;

/// What comes back from a bucket that was set before.
#[derive(Drop)]
pub(crate) struct Lost<V, A: Allocator> {
    pub found: u64,
    pub right: Right<V, A>,
}

/// Returns the word that the bucket has by now.
pub(crate) fn look<V, L: SetLaw<V>>(word: &Bucket<V, L>, seen: &mut Token<V, L>) -> u64
    requires word { IsWord seen.old.book word.now }
    requires inside { IsInside word.now.key seen.old.log }
    ensures same { (seen.new.book ≡ seen.old.book) × (seen.new.names ≡ seen.old.names) }
    ensures longer { IsPrefix seen.old.log seen.new.log }
    ensures says { Says (alike L.same) (marked L.hash_of) word.now.key result seen.new.log }
    ensures reached { IsReached (alike L.same) (marked L.hash_of) seen.new.log }
{
    let mut offer = seen.plain::<Nothing, (), Look<V, L>>(&());
    word.load::<Look<V, L>, Nothing>(seen, &mut offer)
}

/// Publishes what lies in the slot by one exchange, unless the bucket was set before. Returns the receipt of the entry.
pub(crate) fn publish<V, L: SetLaw<V>, A: Allocator>(
    word: &Bucket<V, L>,
    seen: &mut Token<V, L>,
    place: u64,
    number: u64,
    bits: u64,
    right: Right<V, A>,
) -> Result<Receipt<V>, Lost<V, A>>
    requires word { IsWord seen.old.book word.now }
    requires place { place ≡ word.now.key }
    requires inside { IsInside word.now.key seen.old.log }
    requires of { IsRightTo (slab_of seen.old.names) number right }
    requires full { IsSome right.room.value }
    requires bits { (x : V) → right.room.value ≡ Some x
        → bits ≡ word_of (marked L.hash_of) (Entry (numbered number x)) }
    requires fits { (x : V) → right.room.value ≡ Some x
        → Fits (alike L.same) (marked L.hash_of) (size_of seen.old.log) seen.old.log
        (Entry (numbered number x)) place }
    ensures same { (seen.new.book ≡ seen.old.book) × (seen.new.names ≡ seen.old.names) }
    ensures longer { IsPrefix seen.old.log seen.new.log }
    ensures reached { IsReached (alike L.same) (marked L.hash_of) seen.new.log }
    ensures ok { IfOk result (λ r. (x : V) × (right.room.value ≡ Some x)
        × Adds (alike L.same) (marked L.hash_of) (Entry (numbered number x)) place seen.old.log
        seen.new.log
        × IsReceiptFor (slab_of seen.old.names) number x r) }
    ensures err { IfErr result (λ l. IsRightTo (slab_of seen.old.names) number l.right
        × (l.right.room.value ≡ right.room.value)
        × (l.found ≢ 0)
        × Says (alike L.same) (marked L.hash_of) place l.found seen.new.log) }
{
    let Right { site, room } = right;
    let mut offer: Publishing<V, L> = publishing(seen, place, number, site, room);
    let mut pen = seen.no_pen();
    let found = word.compare_exchange::<Publish<V, L>, Trade<V>>(
        0, bits, seen, &mut offer, &mut pen,
    );
    if found == 0 {
        return Ok(won(offer.into_gain(), place, number));
    }
    let (site, room) = returned(offer.into_gain(), place, number);
    let right = Right { site, room };
    Err(Lost { found, right })
}

/// Stores an entry that lies in its slot for good, by one exchange, unless the bucket was set before. Returns the word that the bucket
/// had: 0 if this call stored the entry.
pub(crate) fn carry<V, L: SetLaw<V>, A: Allocator>(
    word: &Bucket<V, L>,
    seen: &mut Token<V, L>,
    place: u64,
    number: u64,
    bits: u64,
    standing: Standing<V, A>,
) -> u64
    requires word { IsWord seen.old.book word.now }
    requires place { place ≡ word.now.key }
    requires inside { IsInside word.now.key seen.old.log }
    requires of { StandsAt (slab_of seen.old.names) number standing }
    requires bits { bits ≡ word_of (marked L.hash_of) (Entry (numbered number standing.written.value)) }
    requires fits { Fits (alike L.same) (marked L.hash_of) (size_of seen.old.log) seen.old.log
        (Entry (numbered number standing.written.value)) place }
    ensures same { (seen.new.book ≡ seen.old.book) × (seen.new.names ≡ seen.old.names) }
    ensures longer { IsPrefix seen.old.log seen.new.log }
    ensures reached { IsReached (alike L.same) (marked L.hash_of) seen.new.log }
    ensures carried { result ≡ 0 → Stands seen.new.log place (numbered number standing.written.value) }
    ensures says { result ≢ 0
        → Says (alike L.same) (marked L.hash_of) place result seen.new.log }
{
    let Standing { site, written } = standing;
    let mut offer: Carrying<V, L> = carrying(seen, place, number, site, written);
    let mut pen = seen.no_pen();
    word.compare_exchange::<Publish<V, L>, Nothing>(0, bits, seen, &mut offer, &mut pen)
}

/// Closes the bucket by one exchange, unless it was set before. Returns the word that the bucket had: 0 if this call closed it.
pub(crate) fn close<V, L: SetLaw<V>>(word: &Bucket<V, L>, seen: &mut Token<V, L>, place: u64) -> u64
    requires word { IsWord seen.old.book word.now }
    requires place { place ≡ word.now.key }
    requires inside { IsInside word.now.key seen.old.log }
    requires whole { IsWhole seen.old.log }
    ensures same { (seen.new.book ≡ seen.old.book) × (seen.new.names ≡ seen.old.names) }
    ensures longer { IsPrefix seen.old.log seen.new.log }
    ensures reached { IsReached (alike L.same) (marked L.hash_of) seen.new.log }
    ensures closed { result ≡ 0 → Has seen.new.log place Closed }
    ensures says { result ≢ 0
        → Says (alike L.same) (marked L.hash_of) place result seen.new.log }
{
    let mut offer: Carrying<V, L> = closing(seen, place);
    let mut pen = seen.no_pen();
    word.compare_exchange::<Publish<V, L>, Nothing>(0, 1, seen, &mut offer, &mut pen)
}
