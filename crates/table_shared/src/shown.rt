//! Which generation of a table is the current one.
ghost use Rattle.std.specs.Prelude.{◌≡◌, IfSome, IfNone, IsSome, Some, None, MatchOption, length};
ghost use Rattle.std.specs.Box.{box_allocator};
ghost use Rattle.std.specs.Int.{IsPowerOfTwo};
ghost use Rattle.table_shared.specs.Lineages.{IsOpen};

use crate::lineage::slot::{Published, Slot};
use std::alloc::Allocator;
use std::marker::Model;
use table_cell::{Home, Latest, Low, Note};
use table_generations::atomic_value::AtomicValue;
use table_generations::fixed::Generation;

/// The generation that was published last. Storing to it is the moment at which a generation becomes the current one.
#[derive(Drop)]
pub(crate) struct Shown<T: AtomicValue, A: Allocator + Copy> {
    latest: Latest<Generation<T, A>, A>,
}

impl<T: AtomicValue, A: Allocator + Copy> Model for Shown<T, A> {
    ghost use Rattle.table_cell.specs.Latest.{LatestView};

    ghost Value = { LatestView };

    ghost view = { λ s. s.latest };
}

impl<T: AtomicValue, A: Allocator + Copy> Shown<T, A> {
    /// Makes it with no generation published since the table was shared.
    pub(crate) fn new(alloc: A, home: &Home) -> Self
        ensures { result.home ≡ home.now.id }
    {
        Shown {
            latest: Latest::new(&alloc, home),
        }
    }

    /// Makes a note of what was published, which knows nothing yet.
    #[inline(always)]
    pub(crate) fn note(&self) -> Note<()>
        ensures { (result.of ≡ self.now.id) × (result.known ≡ None) }
    {
        self.latest.note()
    }

    /// Returns the generation that was published last, or `None` if none was since the table was shared. The note then knows that
    /// one was; with such a note the result is never `None`.
    #[inline(always)]
    pub(crate) fn latest<'a>(
        &'a self,
        home: &'a Home,
        note: &mut Note<()>,
    ) -> Option<&'a Generation<T, A>>
        requires home { self.now.home ≡ home.now.id }
        requires of { note.old.of ≡ self.now.id }
        ensures of { note.new.of ≡ note.old.of }
        ensures home { IfSome result (λ g. g.now.home ≡ home.now.id) }
        ensures power { IfSome result (λ g. IsPowerOfTwo (length g.now.contents)) }
        ensures none { IfNone result (note.old.known ≡ None) }
        ensures known { IfSome result (λ g. IsSome note.new.known) }
    {
        match self.latest.name(note) {
            Some(name) => Some(name.get(home)),
            None => None,
        }
    }
}

impl<T: AtomicValue, A: Low + Copy> Shown<T, A> {
    /// Publishes a generation through a slot: it is the last one from now on.
    pub(crate) fn publish(
        &self,
        slot: Slot<'_, Generation<T, A>, A>,
        home: &Home,
        block: Box<Generation<T, A>, A>,
    ) -> Published<Generation<T, A>, A>
        requires open { IsOpen home.now.id slot.from slot }
        requires from { box_allocator block ≡ slot.from }
        requires fits { (block.value.home ≡ home.now.id) × IsPowerOfTwo (length block.value.contents) }
        requires home { self.now.home ≡ home.now.id }
        ensures since { (result.latest ≡ self.now.id) × IsSome result.since }
        ensures word { result.word ≡ slot.entry.id }
        ensures seen { IsSome result.holds }
        ensures shows { MatchOption result.back (result.holds ≡ Some block.value) (λ b. b ≡ block.value) }
    {
        slot.publish(home, block, &self.latest)
    }
}
