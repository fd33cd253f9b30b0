//! The next generation of a shared table while it is built.
ghost use Rattle.std.specs.Prelude.{◌≡◌, IfOk, length};
ghost use Rattle.std.specs.Option.{option_map};
ghost use Rattle.std.specs.Box.{box_allocator};
ghost use Rattle.std.specs.Fn.{FnReturnsAt};
ghost use Rattle.std.specs.Int.{IsPowerOfTwo};
ghost use Rattle.table_shared.specs.Lineages.{IsOpen, names_of, words_of};
ghost use Rattle.table_shared.specs.Growths.{IsFresh, AreNamed, CopiesNext, growth_of};

pub(crate) mod ahead;
pub(crate) mod begin;

use crate::lineage::later::Later;
use crate::lineage::slot::Slot;
use std::alloc::{AllocError, Allocator};
use std::marker::Model;
use table_cell::{Bucket, Home, Note};
use table_generations::atomic_value::AtomicValue;
use table_generations::fixed::Generation;

/// The next generation while it is built, with all the memory that it needs. Dropping it abandons the generation; no value is
/// lost, since its buckets name entries and own none.
#[derive(Drop)]
pub struct Growth<'a, T: AtomicValue, A: Allocator + Copy> {
    home: &'a Home,
    from: Option<&'a Generation<T, A>>,
    /// The number of buckets of the earlier generation that were copied.
    copied: usize,
    built: Generation<T, A>,
    slot: Slot<'a, Generation<T, A>, A>,
    /// A note of the words for later generations, for contracts only.
    words: Note<Later<T, A>>,
    /// The heap block that the generation will be moved to.
    block: Box<Generation<T, A>, A>,
}

impl<'a, T: AtomicValue, A: Allocator + Copy> Model for Growth<'a, T, A> {
    ghost use Rattle.std.specs.Box.{box_allocator};
    ghost use Rattle.std.specs.Option.{option_map};
    ghost use Rattle.table_shared.specs.Lineages.{names_of, words_of};
    ghost use Rattle.table_shared.specs.Growths.{GrowthView, IsUnderWay, growth_of};

    ghost Value = { GrowthView T };

    ghost view = { λ g. growth_of g.home.now.id g.from g.copied g.built g.slot.id
        (words_of g.words.of (option_map (λ l. names_of l.words.items) g.words.known)) };

    ghost invariant = { λ g. IsUnderWay g.home.now.id g.from g.copied g.built g.slot.from
        g.slot (box_allocator g.block) };
}

impl<'a, T: AtomicValue, A: Allocator + Copy> Growth<'a, T, A> {
    /// Makes a growth with no entry copied yet. Allocates the block of the generation; an `Err` means that this was refused.
    pub(crate) fn begun(
        home: &'a Home,
        from: Option<&'a Generation<T, A>>,
        built: Generation<T, A>,
        slot: Slot<'a, Generation<T, A>, A>,
        words: Note<Later<T, A>>,
    ) -> Result<Self, AllocError>
        requires fresh { IsFresh home.now.id from built }
        requires open { IsOpen home.now.id slot.from slot }
        ensures { IfOk result (λ g. g ≡ growth_of home.now.id from.entry 0 built slot.entry.id
            (words_of words.of (option_map (λ l. names_of l.words.items) words.known))) }
    {
        let Ok(block) = Box::new(slot.alloc(), Generation::none(slot.alloc(), home)) else {
            return Err(AllocError);
        };
        Ok(Growth {
            home,
            from,
            copied: 0,
            built,
            slot,
            words,
            block,
        })
    }

    /// Copies the next entry: names it in the generation that is built. Returns false if every bucket was copied.
    pub fn copy_next<H: Fn(&T::Target) -> u64>(&mut self, hash_fn: &H) -> bool
        requires { H.IsAlwaysCallable hash_fn.now }
        ensures home { self.new.home ≡ self.old.home }
        ensures before { self.new.before ≡ self.old.before }
        ensures word { (self.new.word ≡ self.old.word) × (self.new.words ≡ self.old.words) }
        ensures copies { CopiesNext T.target (FnReturnsAt H.Fn hash_fn.now) self.old result
            self.new }
        ensures named { AreNamed self.new.before self.new.passed self.new.built }
    {
        let Some(from) = self.from else {
            return false;
        };
        while self.copied < from.capacity() {
            let index = self.copied;
            self.copied += 1;
            let mut note = from.note_at(index);
            if let Some(word) = from.naming_at(index, &mut note) {
                let hash = hash_fn(word.name().get(self.home).value.deref());
                self.built
                    .insert_unique(self.home, hash, Bucket::of_naming(self.home, word));
                return true;
            }
        }
        false
    }

    /// Moves the generation into its block, and returns it with the slot through which it is to be published.
    pub(crate) fn into_block(self) -> (Slot<'a, Generation<T, A>, A>, Box<Generation<T, A>, A>)
        ensures built { result.1.value.contents ≡ self.entry.built }
        ensures fits { (result.1.value.home ≡ self.entry.home) × IsPowerOfTwo (length result.1.value.contents) }
        ensures open { IsOpen self.entry.home result.0.from result.0 }
        ensures from { box_allocator result.1 ≡ result.0.from }
        ensures word { result.0.id ≡ self.entry.word }
    {
        let Growth {
            built,
            slot,
            mut block,
            ..
        } = self;
        drop(Box::replace(&mut block, built));
        (slot, block)
    }
}
