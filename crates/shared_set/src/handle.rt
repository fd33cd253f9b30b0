//! Handles, by which threads call a set.
ghost use Rattle.std.specs.Prelude.{◌≡◌, true, false};
ghost use Rattle.table_numbered.specs.Words.{of_value};
ghost use Rattle.table_numbered.specs.History.{IsEntry, NonePasses};
ghost use Rattle.table_numbered.specs.Generations.{Finds};
ghost use Rattle.shared_set.specs.Known.{Keeps, KnowsMore, SomePasses, Gets};

use crate::cursor::Cursor;
use crate::known::Known;
use crate::set::{STAGES, SharedSet};
use crate::stage::Stage;
use crate::supply::Supply;
use std::alloc::Global;
use std::marker::Model;
use std::sync::atomic::Ordering::SeqCst;
use table_cell::Low;
use table_numbered::{KeyLaw, MetBy, SameAs, SetLaw, Sought};

/// What one thread calls a set by. It knows the entries that its calls have met, and it takes numbers for new entries ahead.
///
/// A contract sees which set it is of, and the history of the newest generation that it has met.
pub struct Handle<'a, V, L: SetLaw<V>, A: Low + Copy = Global> {
    pub(crate) set: &'a SharedSet<V, L, A>,
    /// The stage at the cursor's slot.
    pub(crate) stage: &'a Stage<V, L, A>,
    pub(crate) cursor: Cursor<V, L, A>,
    pub(crate) supply: Supply<V, A>,
    /// How many values this handle placed that the set has not counted.
    pub(crate) uncounted: u64,
    /// How many values this handle places before the set counts them.
    pub(crate) portion: u64,
}

impl<'a, V, L: SetLaw<V>, A: Low + Copy> Model for Handle<'a, V, L, A> {
    ghost use Rattle.shared_set.specs.Known.{KnownView, known_view, IsHandle};

    ghost Value = { KnownView V };

    ghost view = { λ h. known_view h.set.now.of h.cursor.entries.log };

    ghost invariant = { λ h. IsHandle L.same L.hash_of h.set.now.of h.stage.now h.cursor h.supply };
}

impl<'a, V, L: SetLaw<V>, A: Low + Copy> Handle<'a, V, L, A> {
    /// Moves on to the next generation. Returns false if none was shown.
    fn follow(&mut self) -> bool
        ensures known { KnowsMore self.old self.new }
    {
        let set = self.set;
        match set.step(&mut self.cursor) {
            Some(stage) => {
                self.stage = stage;
                true
            }
            None => false,
        }
    }

    /// Moves on to the newest generation.
    pub(crate) fn advance(&mut self)
        ensures known { KnowsMore self.old self.new }
    {
        for _passed in 0..STAGES {
            if !self.follow() {
                return;
            }
        }
    }

    /// Returns what is sought, with its number. `None` means that no entry known to this handle is it.
    pub fn seek<S: Sought<V, L>>(&mut self, sought: &S) -> Option<(u64, &'a V)>
        ensures known { KnowsMore self.old self.new }
        ensures finds { Finds (S.accepts sought.now) (IsEntry self.new.history) result }
    {
        self.advance();
        let set = self.set;
        let generation = self.stage.generation();
        generation.seek(&set.slab, &mut self.cursor.entries, sought)
    }

    /// Returns the entry that is the same as the target, with its number. `None` means that no entry known to this handle is the same.
    pub fn find(&mut self, target: &V) -> Option<(u64, &'a V)>
        ensures known { KnowsMore self.old self.new }
        ensures finds { Finds (L.same target.now) (IsEntry self.new.history) result }
    {
        self.seek(&SameAs { target })
    }

    /// Returns the entry that is the same as the target. `None` means that no entry known to this handle is the same.
    pub fn get(&mut self, target: &V) -> Option<&'a V>
        ensures known { KnowsMore self.old self.new }
        ensures finds { Gets (L.same target.now) (IsEntry self.new.history) result }
    {
        match self.find(target) {
            Some(found) => Some(found.1),
            None => None,
        }
    }

    /// Returns an entry that meets the key. `None` means that no entry known to this handle meets it.
    pub fn get_by_key<K>(&mut self, key: &K) -> Option<&'a V>
    where
        L: KeyLaw<K, V>,
        ensures known { KnowsMore self.old self.new }
        ensures finds { Gets (L.meets key.now) (IsEntry self.new.history) result }
    {
        match self.seek(&MetBy { key }) {
            Some(found) => Some(found.1),
            None => None,
        }
    }

    /// Returns true if an entry is the same as the target. `false` means that no entry known to this handle is the same.
    pub fn contains(&mut self, target: &V) -> bool
        ensures known { KnowsMore self.old self.new }
        ensures some { result ≡ true → SomePasses (L.same target.now) (IsEntry self.new.history) }
        ensures none { result ≡ false → NonePasses (of_value (L.same target.now)) (IsEntry self.new.history) }
    {
        match self.get(target) {
            Some(_) => true,
            None => false,
        }
    }

    /// Returns what this handle knows.
    pub fn tell(&self) -> Known<V, L, A>
        ensures { result ≡ self.now }
    {
        Known {
            cursor: self.cursor.again(),
        }
    }

    /// Adds what is known to what this handle knows.
    pub fn hear(&mut self, known: &Known<V, L, A>)
        requires of { known.now.of ≡ self.old.of }
        ensures known { KnowsMore self.old self.new }
        ensures theirs { Keeps known.now.history self.new.history }
    {
        let set = self.set;
        set.join(&mut self.cursor, known.cursor.again());
        self.stage = set.chain.get(&self.cursor.stages, self.cursor.slot);
    }

    /// Adds what the other handle knows to what this handle knows.
    pub fn learn(&mut self, other: &Handle<'_, V, L, A>)
        requires of { other.now.of ≡ self.old.of }
        ensures known { KnowsMore self.old self.new }
        ensures theirs { Keeps other.now.history self.new.history }
    {
        self.hear(&other.tell());
    }
}

impl<V, L: SetLaw<V>, A: Low + Copy> Drop for Handle<'_, V, L, A> {
    /// Gives the rest of its run of numbers back, and adds what this handle placed to what the set counts. A spare number stays unused.
    fn drop(self) {
        let Handle {
            set,
            stage: _,
            cursor: _,
            supply,
            uncounted,
            portion: _,
        } = self;
        supply.give_back(&set.slab);
        if uncounted > 0 {
            set.placed.fetch_add(uncounted, SeqCst);
        }
    }
}
