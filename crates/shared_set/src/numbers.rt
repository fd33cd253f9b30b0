//! Entries by their numbers.
ghost use Rattle.std.specs.Prelude.{◌≡◌, true, false, MatchOption, IfSome};
ghost use Rattle.table_numbered.specs.Words.{numbered};
ghost use Rattle.table_numbered.specs.History.{IsEntry};
ghost use Rattle.table_numbered.specs.Walking.{IsTaken};
ghost use Rattle.shared_set.specs.Known.{KnowsMore, Later};
ghost use Rattle.shared_set.specs.Apart.{IsApart};

use crate::handle::Handle;
use crate::set::SharedSet;
use table_cell::Low;
use table_numbered::SetLaw;

impl<'a, V, L: SetLaw<V>, A: Low + Copy> Handle<'a, V, L, A> {
    /// Returns true if an entry has this number. `false` means that no entry known to this handle has it.
    fn learn_number(&mut self, number: u64) -> bool
        ensures known { KnowsMore self.old self.new }
        ensures there { result ≡ true → IsTaken self.new.history number }
        ensures none { result ≡ false → IsTaken self.new.history number → ⊥ }
    {
        let generation = self.stage.generation();
        let mut seen = self.cursor.entries.again();
        let there = generation.has_number(&mut seen, number);
        if there {
            self.cursor.entries = seen;
        }
        there
    }

    /// Returns the entry of a number that this handle knows. It reads that entry, and nothing else.
    pub fn known_entry(&self, number: u64) -> &'a V
        requires known { IsTaken self.now.history number }
        ensures is { IsEntry self.now.history (numbered number result.now) }
        ensures one { (x : V) → IsEntry self.now.history (numbered number x) → result.now ≡ x }
    {
        let set = self.set;
        let generation = self.stage.generation();
        generation.entry(&set.slab, &self.cursor.entries, number)
    }

    /// Returns the entry of this number, which it has for good. `None` means that no entry known to this handle has the number.
    ///
    /// It reads one word if a hint names the number. The first call that finds no hint in a generation reads each bucket and hints the number
    /// of each entry; after that inserts hint what they place. A call reads buckets again for a number that nobody has, for one that no
    /// hint covers (they cover as many numbers as there are buckets), and for one whose insert hasn't hinted it yet. `known_entry` reads
    /// no bucket.
    pub fn entry(&mut self, number: u64) -> Option<&'a V>
        ensures known { KnowsMore self.old self.new }
        ensures finds { MatchOption result (IsTaken self.new.history number → ⊥)
            (λ e. IsEntry self.new.history (numbered number e.now)) }
        ensures one { IfSome result
            (λ e. (x : V) → IsEntry self.new.history (numbered number x) → e.now ≡ x) }
    {
        self.advance();
        if self.learn_number(number) {
            Some(self.known_entry(number))
        } else {
            None
        }
    }
}

impl<V, L: SetLaw<V>, A: Low + Copy> SharedSet<V, L, A> {
    /// Returns the entry of this number, which it has for good, as a new handle does. `None` means that no entry that `begin_with` was given
    /// has the number.
    pub fn entry(&self, number: u64) -> Option<&V>
        ensures finds { Later self.now.known (λ log. IsApart L.same log
            × MatchOption result (IsTaken log number → ⊥) (λ e. IsEntry log (numbered number e.now))) }
    {
        let mut handle = self.handle();
        let found = handle.entry(number);
        handle.apart();
        found
    }
}
