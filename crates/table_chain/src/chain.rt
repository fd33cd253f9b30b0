//! The chain, and how threads read it.
ghost use Rattle.std.specs.Prelude.{◌≡◌, ◌≢◌, ℕ, ◌+◌, ◌<◌, ◌≤◌, MatchOption, IfOk, IfErr};
ghost use mathlib.Core.List.{IsPrefix};
ghost use Rattle.table_chain.specs.History.{Stands, Told};
ghost use Rattle.table_chain.specs.Chains.{IsOf, IsOpen, IsEnd, IsLaid, chain_view};
ghost use Rattle.table_slab.specs.Shelved.{names_of};

use crate::rule::{ChainRule, Follows, SlotWord, Token};
use crate::show::Showing;
use crate::trade::{Names, known, start};
use crate::word::look;
use logbook::Word;
use std::alloc::AllocError;
use std::marker::Model;
use table_cell::Low;
use table_slab::Slab;

/// The first chunk of a chain's slab has one slot.
const FIRST_CHUNK_BITS: u32 = 0;

/// A fixed number of slots, filled in order: any thread may show a value in the next slot, where it stays until the chain is dropped.
/// Each value follows the one before it, as `F` says. No call takes a lock.
pub struct Chain<G: Drop, F: Follows<G>, A: Low + Copy> {
    pub(crate) words: Vec<SlotWord<G, F>, A>,
    pub(crate) slab: Slab<G, A>,
    pub(crate) start: Token<G, F>,
}

impl<G: Drop, F: Follows<G>, A: Low + Copy> Model for Chain<G, F, A> {
    ghost use Rattle.std.specs.Prelude.{◌≡◌};
    ghost use Rattle.table_chain.specs.Chains.{ChainView, chain_view, IsLaid};
    ghost use Rattle.table_slab.specs.Shelved.{names_of};

    ghost Value = { ChainView G };

    ghost view = { λ c. chain_view c.start.book c.words.items c.start.names c.start.log };

    ghost invariant = { λ c. IsLaid F.begins F.follows c.start.book c.start.log c.words.items
        × (names_of c.slab ≡ c.start.names) };
}

/// The names of a slab.
pub(crate) struct SlabNames;

impl<G: Drop, A: Low + Copy> Names<Slab<G, A>> for SlabNames {
    ghost use Rattle.table_slab.specs.Shelved.{names_of};

    ghost names = { λ slab. names_of slab };
}

impl<G: Drop, F: Follows<G>, A: Low + Copy> Chain<G, F, A> {
    /// Returns a token that knows what the chain had when it was made: its first value.
    pub fn start(&self) -> Token<G, F>
        ensures of { IsOf F.begins F.follows self.now result.book result.names result.log }
        ensures log { result.log ≡ self.now.start }
    {
        self.start.again()
    }

    /// Returns the number of slots.
    pub fn slots(&self) -> usize
        ensures { result ≡ self.now.slots }
    {
        self.words.len()
    }

    /// Loads the word of a slot.
    pub(crate) fn look_at(&self, seen: &mut Token<G, F>, slot: usize) -> u64
        requires of { IsOf F.begins F.follows self.now seen.old.book seen.old.names seen.old.log }
        requires inside { slot < self.now.slots }
        ensures of { IsOf F.begins F.follows self.now seen.new.book seen.new.names seen.new.log }
        ensures longer { IsPrefix seen.old.log seen.new.log }
        ensures told { Told F.begins F.follows slot result seen.new.log }
    {
        look(&self.words[slot], seen)
    }

    /// Returns the value that a slot's word names. `None` means that the chain ends before the slot.
    pub(crate) fn shown<'a>(&'a self, seen: &Token<G, F>, slot: usize, found: u64) -> Option<&'a G>
        requires of { IsOf F.begins F.follows self.now seen.now.book seen.now.names seen.now.log }
        requires set { found ≢ 0 }
        requires told { Told F.begins F.follows slot found seen.now.log }
        ensures told { MatchOption result (IsEnd seen.now.log slot) (λ g. Stands seen.now.log slot g.now) }
    {
        if found == 1 {
            return None;
        }
        let number = found - 2;
        let standing = known(seen, slot as u64, number);
        Some(self.slab.get(number, &standing))
    }

    /// Loads the word of a slot, and returns the slot's value. `None` means that the slot had no value at that moment.
    pub fn look<'a>(&'a self, seen: &mut Token<G, F>, slot: usize) -> Option<&'a G>
        requires of { IsOf F.begins F.follows self.now seen.old.book seen.old.names seen.old.log }
        requires inside { slot < self.now.slots }
        ensures of { IsOf F.begins F.follows self.now seen.new.book seen.new.names seen.new.log }
        ensures longer { IsPrefix seen.old.log seen.new.log }
        ensures told { MatchOption result (IsOpen seen.new.log slot) (λ g. Stands seen.new.log slot g.now) }
    {
        let found = self.look_at(seen, slot);
        if found == 0 {
            return None;
        }
        self.shown(seen, slot, found)
    }

    /// Returns the value of a slot that the caller knows to have one.
    pub fn get<'a>(&'a self, seen: &Token<G, F>, slot: usize) -> &'a G
        requires of { IsOf F.begins F.follows self.now seen.now.book seen.now.names seen.now.log }
        requires there { (g : G) × Stands seen.now.log slot g }
        ensures there { Stands seen.now.log slot result.now }
    {
        let mut later = seen.again();
        let found = self.look_at(&mut later, slot);
        let number = found - 2;
        let standing = known(&later, slot as u64, number);
        self.slab.get(number, &standing)
    }

    /// Returns the last slot, from `from` on, that has a value.
    fn last(&self, seen: &mut Token<G, F>, from: usize) -> usize
        requires of { IsOf F.begins F.follows self.now seen.old.book seen.old.names seen.old.log }
        requires there { (g : G) × Stands seen.old.log from g }
        ensures of { IsOf F.begins F.follows self.now seen.new.book seen.new.names seen.new.log }
        ensures longer { IsPrefix seen.old.log seen.new.log }
        ensures forth { from ≤ result }
        ensures inside { result < self.now.slots }
        ensures there { (g : G) × Stands seen.new.log result g }
        ensures last { result + 1 < self.now.slots → IsOpen seen.new.log (result + 1) }
    {
        let mut last = from;
        while last + 1 < self.words.len() {
            match self.look(seen, last + 1) {
                Some(_) => last += 1,
                None => return last,
            }
        }
        last
    }

    /// Returns the newest value and its slot. The search begins at `from`, which the caller knows to have a value; at the moment of the last
    /// load the next slot had none.
    pub fn newest<'a>(&'a self, seen: &mut Token<G, F>, from: usize) -> (usize, &'a G)
        requires of { IsOf F.begins F.follows self.now seen.old.book seen.old.names seen.old.log }
        requires there { (g : G) × Stands seen.old.log from g }
        ensures of { IsOf F.begins F.follows self.now seen.new.book seen.new.names seen.new.log }
        ensures longer { IsPrefix seen.old.log seen.new.log }
        ensures forth { from ≤ result.0 }
        ensures inside { result.0 < self.now.slots }
        ensures there { Stands seen.new.log result.0 result.1.now }
        ensures last { result.0 + 1 < self.now.slots → IsOpen seen.new.log (result.0 + 1) }
    {
        let slot = self.last(seen, from);
        (slot, self.get(seen, slot))
    }
}

impl<G: Drop, F: Follows<G>, A: Low + Copy> Chain<G, F, A> {
    /// Takes the chain apart. Its values stay in the slab.
    pub(crate) fn into_parts(self) -> (Vec<SlotWord<G, F>, A>, Slab<G, A>, Token<G, F>)
        ensures view { self ≡ chain_view result.2.book result.0.items result.2.names result.2.log }
        ensures laid { IsLaid F.begins F.follows result.2.book result.2.log result.0.items }
        ensures slab { names_of result.1 ≡ result.2.names }
    {
        let Chain { words, slab, start } = self;
        (words, slab, start)
    }
}

impl<G: Drop, F: Follows<G>, A: Low + Copy> Drop for Chain<G, F, A> {
    /// Drops each value, and frees the memory.
    fn drop(self) {
        let mut seen = self.start();
        drop(self.into_ending(&mut seen));
    }
}

impl<G: Drop, F: Follows<G>, A: Low + Copy> Chain<G, F, A> {
    /// Allocates the words of `slots` slots, and an empty slab. A refused request leaves nothing.
    pub(crate) fn empty(alloc: A, slots: usize) -> Result<Chain<G, F, A>, AllocError>
        ensures slots { IfOk result (λ c. c.slots ≡ slots) }
    {
        let slab = Slab::new(alloc, FIRST_CHUNK_BITS)?;
        let mut words = Vec::with_capacity(alloc, slots)?;
        let begun = start::<Slab<G, A>, SlabNames, G, F>(&slab, slots as u64);
        let (seen, mut pens) = Token::open_row::<(), ChainRule<G, F>>(&(), begun, slots);
        for _made in 0..slots {
            words.push_reserved(Word::tracked(0, &mut pens.take()));
        }
        Ok(Chain {
            words,
            slab,
            start: seen,
        })
    }

    /// Shows the first value. `Err` returns it.
    fn begin(&self, seen: &mut Token<G, F>, first: G) -> Result<(), G>
        requires of { IsOf F.begins F.follows self.now seen.old.book seen.old.names seen.old.log }
        requires slots { 0 < self.now.slots }
        requires begins { F.begins first }
        ensures of { IsOf F.begins F.follows self.now seen.new.book seen.new.names seen.new.log }
        ensures first { IfOk result (λ _. Stands seen.new.log 0 first) }
        ensures back { IfErr result (λ g. g ≡ first) }
    {
        match self.show(seen, 0, first) {
            Showing::Shown(_) => Ok(()),
            Showing::Other(_, first) => Err(first),
            Showing::Refused(first) => Err(first),
        }
    }

    /// Makes a chain of `slots` slots whose first value is `first`. Memory for later values is asked for as they are shown. `Err` returns
    /// `first`: memory was refused.
    pub fn new(alloc: A, slots: usize, first: G) -> Result<Chain<G, F, A>, G>
        requires slots { 0 < slots }
        requires begins { F.begins first }
        ensures slots { IfOk result (λ c. c.slots ≡ slots) }
        ensures first { IfOk result (λ c. Stands c.start 0 first) }
        ensures back { IfErr result (λ g. g ≡ first) }
    {
        let mut chain = match Chain::empty(alloc, slots) {
            Ok(chain) => chain,
            Err(_) => return Err(first),
        };
        let mut seen = chain.start();
        chain.begin(&mut seen, first)?;
        chain.start = seen;
        Ok(chain)
    }
}
