//! The generations of a shared table, in order.
ghost use Rattle.std.specs.Prelude.{◌≡◌, ◌*◌, ◌^◌, ◌≤◌, IfOk, IfSome, IfNone, Some, IsSomeAnd, length, vec_capacity};
ghost use Rattle.std.specs.Int.{IsPowerOfTwo};
ghost use Rattle.table_shared.specs.Lineages.{AreOfHome, AreRoomy, HasPlace, IsOpen, IsNumber, IsWordFor, LastIsBare, names_of, shown_in};

pub(crate) mod later;
pub(crate) mod slot;

use crate::ending::{drop_earlier, drop_later, hand_out, rehome_all, rehome_shown};
use crate::lineage::later::Later;
use crate::lineage::slot::{Slot, show_block};
use std::alloc::{AllocError, Allocator};
use std::marker::Model;
use table_cell::{Closed, Home, Low, Note, Word};
use table_generations::atomic_value::AtomicValue;
use table_generations::fixed::Generation;
use table_generations::values::IntoIter;

/// The generations of a shared table: those that it had when it was shared, and the later ones, each published once. The words
/// that hold the later ones are made with the first of them.
#[derive(Drop)]
pub(crate) struct Lineage<T: AtomicValue, A: Allocator + Copy> {
    earlier: Vec<Generation<T, A>, A>,
    base: Generation<T, A>,
    later: Word<Later<T, A>, A>,
    alloc: A,
}

impl<T: AtomicValue, A: Allocator + Copy> Model for Lineage<T, A> {
    ghost use Rattle.table_shared.specs.Lineages.{LineageView, lineage_of, IsLineage};

    ghost Value = { LineageView A T };

    ghost view = { λ l. lineage_of l.alloc l.earlier.items l.base l.later.id };

    ghost invariant = { λ l. IsLineage l.alloc l.earlier.items l.base l.later };
}

/// Returns how often the smaller capacity is doubled to make the larger one. Both are powers of two.
fn doublings(small: usize, large: usize) -> u32
    requires powers { IsPowerOfTwo small × IsPowerOfTwo large }
    ensures { small ≤ large → large ≡ small * 2 ^ result }
{
    large.ilog2().saturating_sub(small.ilog2())
}

impl<T: AtomicValue, A: Allocator + Copy> Lineage<T, A> {
    /// Makes the list of generations of a table that is shared now. Does not allocate.
    pub(crate) fn new(
        alloc: A,
        home: &Home,
        earlier: Vec<Generation<T, A>, A>,
        base: Generation<T, A>,
    ) -> Self
        requires { AreOfHome home.now.id earlier.items base }
        ensures home { result.home ≡ base.home }
        ensures shared { result.shared ≡ shown_in earlier.items base }
    {
        let later = Word::new(&alloc, home);
        Lineage {
            earlier,
            base,
            later,
            alloc,
        }
    }

    /// Returns the place of the word for the generation of this number among the words for later generations, or `None` if the
    /// table had that generation when it was shared.
    fn place_of(&self, number: usize) -> Option<usize>
        ensures { IfSome result (λ p. HasPlace self.now.shared number p) }
    {
        if !self.base.has_buckets() {
            return Some(number);
        }
        number.checked_sub(self.earlier.len())?.checked_sub(1)
    }

    /// Returns the words for the later generations, if they were made, with a note that knows them.
    fn later<'a>(&'a self, home: &'a Home) -> Option<(&'a Later<T, A>, Note<Later<T, A>>)>
        requires { self.now.home ≡ home.now.id }
        ensures roomy { IfSome result (λ l. AreRoomy home.now.id l.0.now.alloc l.0.now.words.items
            l.0.now.room.items (vec_capacity l.0.now.room)) }
        ensures known { IfSome result (λ l. (l.1.of ≡ self.now.later) × (l.1.known ≡ Some l.0.now)) }
    {
        let mut note = self.later.note();
        match self.later.name_if_set(&mut note) {
            Some(name) => Some((name.get(home), note)),
            None => None,
        }
    }

    /// Returns the number of the generation that has this many buckets. The first is 0, and each has twice as many buckets as the
    /// one before, so the capacity determines the number. Loading the number separately could give that of another generation.
    #[inline(always)]
    pub(crate) fn number_of(&self, first_capacity: usize, capacity: usize) -> u64
        requires powers { IsPowerOfTwo first_capacity × IsPowerOfTwo capacity }
        ensures { IsNumber first_capacity self.now.shared capacity result }
    {
        let (known, number) = if self.base.has_buckets() {
            (self.base.capacity(), self.earlier.len())
        } else {
            (first_capacity, 0)
        };
        number as u64 + u64::from(doublings(known, capacity))
    }

    /// Returns the last of the generations that the table had when it was shared, if that one has a bucket.
    pub(crate) fn last_held(&self) -> Option<&Generation<T, A>>
        ensures none { IfNone result (LastIsBare self.now.shared) }
        ensures home { IfSome result (λ g. g.now.home ≡ self.now.home) }
        ensures power { IfSome result (λ g. IsPowerOfTwo (length g.now.contents)) }
    {
        if self.base.has_buckets() {
            return Some(&self.base);
        }
        None
    }
}

impl<T: AtomicValue, A: Allocator + Copy> Lineage<T, A> {
    /// Consumes the generations after their home has ended, and returns an iterator over the values that their buckets own. Does
    /// not allocate.
    pub(crate) fn into_values(self, closed: &Closed) -> IntoIter<T, A>
        requires { self.home ≡ closed.now.id }
    {
        let Lineage {
            mut earlier,
            base,
            later,
            alloc,
        } = self;
        let home = Home::new();
        let base = base.rehomed(closed, &home);
        rehome_all(&mut earlier, closed, &home, alloc);
        let later = rehome_shown(later, closed, &home, alloc);
        hand_out(home.close(), base, earlier, later, alloc)
    }

    /// Drops the generations after their home has ended: drops each value that a bucket owns, and frees its block. Does not
    /// allocate. It reads each bucket once, while `into_values` moves all of them first.
    pub(crate) fn drop_values(self, closed: &Closed)
        requires { self.home ≡ closed.now.id }
    {
        let Lineage {
            earlier,
            base,
            later,
            alloc,
        } = self;
        base.drop_values(closed);
        drop_earlier(earlier, closed);
        drop_later(later, closed, alloc);
    }
}

impl<T: AtomicValue, A: Low + Copy> Lineage<T, A> {
    /// Returns the words for the later generations, with a note that knows them. Makes the words if there are none. An `Err` leaves
    /// the generations unchanged.
    fn opened<'a>(
        &'a self,
        home: &'a Home,
    ) -> Result<(&'a Later<T, A>, Note<Later<T, A>>), AllocError>
        requires { self.now.home ≡ home.now.id }
        ensures roomy { IfOk result (λ l. AreRoomy home.now.id l.0.now.alloc l.0.now.words.items
            l.0.now.room.items (vec_capacity l.0.now.room)) }
        ensures known { IfOk result (λ l. (l.1.of ≡ self.now.later) × (l.1.known ≡ Some l.0.now)) }
    {
        if let Some(later) = self.later(home) {
            return Ok(later);
        }
        let Ok(block) = Box::new(self.alloc, Later::new(self.alloc, home)?) else {
            return Err(AllocError);
        };
        let _seen = show_block(&self.later, home, self.alloc, block);
        match self.later(home) {
            Some(later) => Ok(later),
            None => Err(AllocError),
        }
    }

    /// Returns the word for the generation of this number, which isn't published yet, with a note that knows the words for later
    /// generations. Returns an `Err` if memory is refused or no word is left.
    pub(crate) fn slot<'a>(
        &'a self,
        home: &'a Home,
        number: usize,
    ) -> Result<(Slot<'a, Generation<T, A>, A>, Note<Later<T, A>>), AllocError>
        requires { self.now.home ≡ home.now.id }
        ensures open { IfOk result (λ s. IsOpen home.now.id s.0.from s.0) }
        ensures of { IfOk result (λ s. s.1.of ≡ self.now.later) }
        ensures word { IfOk result (λ s. IsSomeAnd s.1.known (λ l. IsWordFor self.now.shared number
            (names_of l.words.items) s.0.id)) }
    {
        let Some(place) = self.place_of(number) else {
            return Err(AllocError);
        };
        let (later, words) = self.opened(home)?;
        match later.slot(home, place) {
            Some(slot) => Ok((slot, words)),
            None => Err(AllocError),
        }
    }
}
