//! A walk over the texts of an interner while threads intern.
ghost use Rattle.std.specs.Prelude.{◌≡◌};
ghost use Rattle.std.specs.Iterator.{at_most};
ghost use Rattle.table_numbered.specs.Walking.{IsTaken};
ghost use Rattle.shared_set.specs.Known.{Keeps, KnowsMore, known_view};
ghost use Rattle.shared_set.specs.Walks.{Begins};
ghost use Rattle.shared_interner.specs.Symbols.{number_of};
ghost use Rattle.shared_interner.specs.Walks.{WalksOn, NeverTwice, GivesNamed, GivesAllOf};

use crate::interning::SharedInterner;
use crate::names::{KnownNames, Names};
use crate::symbol::Symbol;
use crate::text::Text;
use std::alloc::Global;
use std::iter::FusedIterator;
use std::marker::Model;
use table_cell::Low;
use table_sets::TextLaw;

/// An iterator over the texts of an interner, each with its symbol. It returns each text that was known when it was made, and perhaps
/// texts that threads intern meanwhile.
///
/// A contract sees which interner it is of, what was known when it was made, and what is known by now.
#[derive(Drop)]
pub struct Iter<'a, A: Low + Copy = Global> {
    entries: shared_set::Iter<'a, Text<A>, TextLaw, A>,
}

impl<'a, A: Low + Copy> Model for Iter<'a, A> {
    ghost use Rattle.shared_interner.specs.Walks.{TextWalk};

    ghost Value = { TextWalk };

    ghost view = { λ it. it.entries };
}

impl<'a, A: Low + Copy> Iter<'a, A> {
    /// Returns what is known by now: what was known when the iterator was made, and each text that it has returned.
    pub fn tell(&self) -> KnownNames<A>
        ensures { result ≡ known_view self.now.of self.now.history }
    {
        self.entries.tell()
    }

    /// Returns the symbol of the entry with this number.
    fn symbol(&self, number: u64) -> Symbol
        requires known { IsTaken self.now.history number }
        ensures { number_of result ≡ number }
    {
        let known = self.tell();
        known.apart();
        Symbol::of_number(number)
    }
}

impl<'a, A: Low + Copy> Iterator for Iter<'a, A> {
    type Item = (Symbol, &'a str);

    ghost next_gives = { WalksOn };

    ghost remaining = { λ it. at_most it.left };

    /// Returns the next text, after its symbol, or `None` at the end.
    fn next(&mut self) -> Option<(Symbol, &'a str)> {
        match self.entries.next() {
            Some((number, text)) => Some((self.symbol(number), text.as_str())),
            None => None,
        }
    }
}

impl<'a, A: Low + Copy> FusedIterator for Iter<'a, A> {}

impl<'a, A: Low + Copy> Names<'a, A> {
    /// Returns an iterator over texts, each with its symbol. It returns each text known to this handle, and no symbol twice. It takes no lock
    /// and does not allocate, and this handle can intern meanwhile.
    pub fn iter(&mut self) -> Iter<'a, A>
        ensures known { KnowsMore self.old self.new }
        ensures begins { Begins self.new result }
        ensures apart { NeverTwice result }
        ensures named { GivesNamed result }
        ensures all { GivesAllOf self.new.history result }
    {
        Iter {
            entries: self.handle.iter(),
        }
    }
}

impl<A: Low + Copy> SharedInterner<A> {
    /// Returns an iterator over texts, each with its symbol, as a new handle does. It returns each text that `begin_with` was given, and no
    /// symbol twice. It takes no lock and does not allocate, and threads can intern meanwhile.
    pub fn iter(&self) -> Iter<'_, A>
        ensures of { result.of ≡ self.now.of }
        ensures keeps { Keeps self.now.known result.history }
        ensures apart { NeverTwice result }
        ensures named { GivesNamed result }
        ensures all { GivesAllOf self.now.known result }
    {
        let mut names = self.names();
        names.iter()
    }
}
