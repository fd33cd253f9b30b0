//! A walk over the entries of a set while threads insert.
ghost use Rattle.std.specs.Prelude.{◌≡◌, ◌<◌};
ghost use Rattle.std.specs.Iterator.{at_most};
ghost use Rattle.shared_set.specs.Known.{Keeps, KnowsMore, known_view};
ghost use Rattle.shared_set.specs.Walks.{
  Begins,
  ComesNext,
  Visits,
  WalksOn,
  NeverTwice,
  GivesEntries,
  GivesAllOf,
};

use crate::cursor::Cursor;
use crate::handle::Handle;
use crate::known::Known;
use crate::set::SharedSet;
use crate::stage::Stage;
use std::alloc::Global;
use std::iter::FusedIterator;
use std::marker::Model;
use table_cell::Low;
use table_numbered::{SetLaw, Token};

/// An iterator over the entries of a set, each with its number. It stays with the generation that was the newest when it was made, and
/// reads each bucket when it comes to it. So it returns each entry that was known when it was made, and perhaps entries that
/// threads place meanwhile.
///
/// A contract sees which set it is of, what was known when it was made, what is known by now, the bucket that comes next, and how many
/// buckets are left.
#[derive(Drop)]
pub struct Iter<'a, V, L: SetLaw<V>, A: Low + Copy = Global> {
    set: &'a SharedSet<V, L, A>,
    /// The stage at the cursor's slot.
    stage: &'a Stage<V, L, A>,
    cursor: Cursor<V, L, A>,
    begun: Token<V, L>,
    /// How many buckets are left.
    left: usize,
}

impl<'a, V, L: SetLaw<V>, A: Low + Copy> Model for Iter<'a, V, L, A> {
    ghost use Rattle.shared_set.specs.Walks.{WalkView, walk_view, IsWalk};

    ghost Value = { WalkView V };

    ghost view = { λ it. walk_view it.set.now.of it.begun.log it.cursor.entries.log it.stage.now.of.of.size it.left };

    ghost invariant = { λ it. IsWalk L.same L.hash_of it.set.now.of it.stage.now it.cursor it.begun.log it.left };
}

impl<'a, V, L: SetLaw<V>, A: Low + Copy> Iter<'a, V, L, A> {
    /// Returns the index of the bucket that comes next. `None` means that none is left.
    fn next_index(&self) -> Option<usize>
        ensures comes { ComesNext self.now result }
    {
        let left = self.left;
        if left == 0 {
            return None;
        }
        let count = self.stage.generation().buckets();
        Some(count - left)
    }

    /// Passes the bucket that comes next, and returns its entry.
    fn visit(&mut self, index: usize) -> Option<(u64, &'a V)>
        requires next { index ≡ self.old.next }
        requires left { 0 < self.old.left }
        ensures visits { Visits self.old result self.new }
    {
        let set = self.set;
        let generation = self.stage.generation();
        self.left -= 1;
        generation.visit(&set.slab, &mut self.cursor.entries, index)
    }

    /// Returns what is known by now: what was known when the iterator was made, and each entry that it has returned.
    pub fn tell(&self) -> Known<V, L, A>
        ensures { result ≡ known_view self.now.of self.now.history }
    {
        Known {
            cursor: self.cursor.again(),
        }
    }
}

impl<'a, V, L: SetLaw<V>, A: Low + Copy> Iterator for Iter<'a, V, L, A> {
    type Item = (u64, &'a V);

    ghost next_gives = { WalksOn };

    ghost remaining = { λ it. at_most it.left };

    /// Returns the next entry, with its number, or `None` at the end.
    fn next(&mut self) -> Option<(u64, &'a V)> {
        while let Some(index) = self.next_index() {
            if let Some(entry) = self.visit(index) {
                return Some(entry);
            }
        }
        None
    }
}

impl<'a, V, L: SetLaw<V>, A: Low + Copy> FusedIterator for Iter<'a, V, L, A> {}

impl<'a, V, L: SetLaw<V>, A: Low + Copy> Handle<'a, V, L, A> {
    /// Returns an iterator over the entries of the newest generation, each with its number. It returns each entry known to this handle,
    /// and none twice. It takes no lock and does not allocate, and this handle can insert meanwhile.
    pub fn iter(&mut self) -> Iter<'a, V, L, A>
        ensures known { KnowsMore self.old self.new }
        ensures begins { Begins self.new result }
        ensures apart { NeverTwice result }
        ensures entries { GivesEntries result }
        ensures all { GivesAllOf self.new.history result }
    {
        self.advance();
        let stage = self.stage;
        Iter {
            set: self.set,
            stage,
            cursor: self.cursor.again(),
            begun: self.cursor.entries.again(),
            left: stage.generation().buckets(),
        }
    }
}

impl<V, L: SetLaw<V>, A: Low + Copy> SharedSet<V, L, A> {
    /// Returns an iterator over the entries of the newest generation, each with its number, as a new handle does. It returns each entry that
    /// `begin_with` was given, and none twice. It takes no lock and does not allocate, and threads can insert meanwhile.
    pub fn iter(&self) -> Iter<'_, V, L, A>
        ensures of { result.of ≡ self.now.of }
        ensures keeps { Keeps self.now.known result.history }
        ensures apart { NeverTwice result }
        ensures entries { GivesEntries result }
        ensures all { GivesAllOf self.now.known result }
    {
        let mut handle = self.handle();
        handle.iter()
    }
}
