//! Inserts.
ghost use Rattle.std.specs.Prelude.{◌≡◌};
ghost use Rattle.shared_set.specs.Known.{KnowsMore};
ghost use Rattle.shared_set.specs.Inserting.{Inserts, InsertsHere, Attempts, HasEntry, HasReceipt, HasReceiptHere};
ghost use Rattle.shared_set.specs.Supplies.{IsVacant};

use crate::handle::Handle;
use crate::set::STAGES;
use std::alloc::Allocator;
use std::cmp::{max, min};
use std::sync::atomic::Ordering::SeqCst;
use table_cell::Low;
use table_numbered::{Placing, Probed, SameAs, SetLaw};
use table_slab::{Receipt, Right};

/// How an insert ended.
#[derive(Debug, Drop)]
pub enum Inserted<'a, V> {
    /// The value is a new entry, with this number. No other call gets a receipt for it.
    Placed(u64, &'a V, Receipt<V>),
    /// This entry, which has this number, is the same. The value is returned.
    Found(u64, &'a V, V),
    /// There is no memory, or no number or generation is left. The value is returned.
    Refused(V),
}

impl<'a, V: Drop> Inserted<'a, V> {
    /// Returns the entry with its number, whether it is new or was found. `Err` returns the value that was refused. If an entry was found, the
    /// value is dropped.
    pub fn into_entry(self) -> Result<(u64, &'a V), V>
        ensures { HasEntry self.entry result }
    {
        match self {
            Inserted::Placed(number, entry, _) => Ok((number, entry)),
            Inserted::Found(number, entry, _) => Ok((number, entry)),
            Inserted::Refused(value) => Err(value),
        }
    }
}

/// How an insert into one generation ended.
#[derive(Drop)]
pub(crate) enum Attempt<'a, V> {
    /// The insert is done.
    Done(Inserted<'a, V>),
    /// The generation has no bucket for the value, which is returned.
    Full(V),
}

/// The longest run of numbers that a handle asks for.
const LONGEST_RUN: usize = 64;

/// The most values that a handle places before the set counts them.
const MOST_UNCOUNTED: u64 = 64;

/// How often inserts try to grow a generation that is more than half full, if memory is refused each time.
const TRIES: u64 = 16;

/// Returns true if an insert that placed its value with this number is to grow a generation of this many buckets: at the first number past
/// half of them, and then at each sixteenth part of the rest.
fn is_due(number: u64, buckets: u64) -> bool {
    let half = buckets / 2;
    if number < half {
        return false;
    }
    (number - half) % max(1, half / TRIES) == 0
}

impl<'a, V, L: SetLaw<V>, A: Low + Copy> Handle<'a, V, L, A> {
    /// Counts a value that was placed with this number, and grows the set if a growth is due. The set counts a handle's first value at once,
    /// and then the values in portions of 2, 4 and so on up to 64.
    fn count(&mut self, number: u64)
        ensures { self.new ≡ self.old }
    {
        let set = self.set;
        self.uncounted = self.uncounted.wrapping_add(1);
        if self.uncounted >= self.portion {
            set.placed.fetch_add(self.uncounted, SeqCst);
            self.uncounted = 0;
            self.portion = min(MOST_UNCOUNTED, self.portion.saturating_mul(2));
        }
        if is_due(number, self.stage.generation().buckets() as u64) {
            set.grow_if_free(&self.cursor, self.stage);
        }
    }

    /// Places the value with this number in the newest generation.
    fn place(&mut self, number: u64, right: Right<V, A>, value: V) -> Attempt<'a, V>
        requires vacant { IsVacant self.old.of.slab (number, right) }
        ensures known { KnowsMore self.old self.new }
        ensures told { InsertsHere L.same L.hash_of value self.old.history self.new.history result }
        ensures receipt { HasReceiptHere self.new.of result }
    {
        let set = self.set;
        let generation = self.stage.generation();
        match generation.place(&set.slab, &mut self.cursor.entries, number, right, value) {
            Placing::Placed(entry, receipt) => {
                self.count(number);
                Attempt::Done(Inserted::Placed(number, entry, receipt))
            }
            Placing::Found(found, entry, back, right) => {
                self.supply.keep(number, right);
                Attempt::Done(Inserted::Found(found, entry, back))
            }
            Placing::Full(left, right) => {
                self.supply.keep(number, right);
                Attempt::Full(left)
            }
        }
    }

    /// Looks for an entry that is the same first. If there is none, and a bucket is left, it asks for a number and places the value.
    fn place_if_new(&mut self, value: V) -> Attempt<'a, V>
        ensures known { KnowsMore self.old self.new }
        ensures told { InsertsHere L.same L.hash_of value self.old.history self.new.history result }
        ensures receipt { HasReceiptHere self.new.of result }
    {
        let set = self.set;
        let generation = self.stage.generation();
        let sought = SameAs { target: &value };
        match generation.probe(&set.slab, &mut self.cursor.entries, &sought) {
            Probed::Found(number, entry) => {
                return Attempt::Done(Inserted::Found(number, entry, value));
            }
            Probed::Full => return Attempt::Full(value),
            Probed::Vacant => {}
        }
        let most = max(1, min(LONGEST_RUN, generation.buckets() / 64)) as u64;
        match self.supply.fetch(&set.slab, most) {
            Ok((number, right)) => self.place(number, right, value),
            Err(_) => Attempt::Done(Inserted::Refused(value)),
        }
    }

    /// Makes sure that a stage is behind the one of this handle. Returns false if memory was refused, or no slot is left.
    fn grow(&self) -> bool {
        let set = self.set;
        set.grow(&self.cursor, self.stage).is_some()
    }

    /// Inserts the value in the newest generation.
    fn insert_here(&mut self, value: V) -> Attempt<'a, V>
        ensures known { KnowsMore self.old self.new }
        ensures told { InsertsHere L.same L.hash_of value self.old.history self.new.history result }
        ensures receipt { HasReceiptHere self.new.of result }
    {
        match self.supply.take() {
            Some((number, right)) => self.place(number, right, value),
            None => self.place_if_new(value),
        }
    }

    /// Inserts the value in the newest generation. If that has no bucket for it, this makes sure that a stage is behind it.
    fn insert_or_grow(&mut self, value: V) -> Attempt<'a, V>
        ensures known { KnowsMore self.old self.new }
        ensures told { Attempts L.same L.hash_of value self.old.history self.new.history result }
        ensures receipt { HasReceiptHere self.new.of result }
    {
        self.advance();
        match self.insert_here(value) {
            Attempt::Done(inserted) => Attempt::Done(inserted),
            Attempt::Full(back) => {
                if self.grow() {
                    Attempt::Full(back)
                } else {
                    Attempt::Done(Inserted::Refused(back))
                }
            }
        }
    }

    /// Inserts the value, unless an entry is the same.
    ///
    /// `Placed`: no entry that was placed before it is the same, and the receipt is of this set and of the entry. `Found`: the entry that is
    /// returned is the same. `Refused`: no entry known to this handle is the same, and the handle has read the buckets of the
    /// value's probe up to an empty or closed one, or to the last.
    pub fn insert(&mut self, value: V) -> Inserted<'a, V>
        ensures known { KnowsMore self.old self.new }
        ensures told { Inserts L.same L.hash_of value self.old.history self.new.history result }
        ensures receipt { HasReceipt self.new.of result }
    {
        let mut value = value;
        for _tried in 0..STAGES {
            match self.insert_or_grow(value) {
                Attempt::Done(inserted) => return inserted,
                Attempt::Full(back) => value = back,
            }
        }
        Inserted::Refused(value)
    }
}
