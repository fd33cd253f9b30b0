//! Inserts of values that are made only if they are needed.
ghost use Rattle.std.specs.Prelude.{IfOk};
ghost use Rattle.table_numbered.specs.Words.{of_value};
ghost use Rattle.table_numbered.specs.History.{IsEntry, NonePasses};
ghost use Rattle.shared_set.specs.Known.{KnowsMore};
ghost use Rattle.shared_set.specs.Getting.{GetsOrInserts, TriesToInsert, GetsEntry, GetsReceipt};

use crate::handle::Handle;
use crate::insert::Inserted;
use table_cell::Low;
use table_numbered::{KeyLaw, MetBy, SetLaw, Sought};

/// How a call of `get_or_insert_with` ended.
#[derive(Debug, Drop)]
pub enum GotOrInserted<'a, V> {
    /// This entry, which has this number, is what was sought. No value was made.
    Got(u64, &'a V),
    /// No entry known to the handle was what was sought. A value was made, and its insert ended so.
    Made(Inserted<'a, V>),
}

impl<'a, V: Drop> GotOrInserted<'a, V> {
    /// Returns the entry with its number, whether it is new or was there before. `Err` returns the value that was refused.
    pub fn into_entry(self) -> Result<(u64, &'a V), V>
        ensures { GetsEntry self.entry result }
    {
        match self {
            GotOrInserted::Got(number, entry) => Ok((number, entry)),
            GotOrInserted::Made(inserted) => inserted.into_entry(),
        }
    }
}

impl<'a, V, L: SetLaw<V>, A: Low + Copy> Handle<'a, V, L, A> {
    /// Returns what is sought. If no entry known to this handle is it, inserts the value that `make` makes, as `insert` does: whether the
    /// value is what was sought is not asked. `make` runs at most once, and only then.
    pub fn seek_or_insert_with<S: Sought<V, L>, F: FnOnce() -> V>(
        &mut self,
        sought: &S,
        make: F,
    ) -> GotOrInserted<'a, V>
        requires callable { NonePasses (of_value (S.accepts sought.now)) (IsEntry self.old.history) → F.pre make }
        ensures known { KnowsMore self.old self.new }
        ensures told { GetsOrInserts L.same L.hash_of (S.accepts sought.now) (F.post make) self.old.history
            self.new.history result }
        ensures receipt { GetsReceipt self.new.of result }
    {
        match self.seek(sought) {
            Some((number, entry)) => GotOrInserted::Got(number, entry),
            None => GotOrInserted::Made(self.insert(make())),
        }
    }

    /// Returns an entry that meets the key. If no entry known to this handle meets it, inserts the value that `make` makes, as `insert`
    /// does: whether the value meets the key is not asked. `make` runs at most once, and only then.
    pub fn get_or_insert_with<K, F: FnOnce() -> V>(
        &mut self,
        key: &K,
        make: F,
    ) -> GotOrInserted<'a, V>
    where
        L: KeyLaw<K, V>,
        requires callable { NonePasses (of_value (L.meets key.now)) (IsEntry self.old.history) → F.pre make }
        ensures known { KnowsMore self.old self.new }
        ensures told { GetsOrInserts L.same L.hash_of (L.meets key.now) (F.post make) self.old.history
            self.new.history result }
        ensures receipt { GetsReceipt self.new.of result }
    {
        self.seek_or_insert_with(&MetBy { key }, make)
    }

    /// Returns what is sought, as `seek_or_insert_with` does, with a `make` that may fail. `Err` is what `make` returned then: no entry known
    /// to this handle is what was sought, and nothing was inserted.
    pub fn seek_or_try_insert_with<S: Sought<V, L>, E, F: FnOnce() -> Result<V, E>>(
        &mut self,
        sought: &S,
        make: F,
    ) -> Result<GotOrInserted<'a, V>, E>
        requires callable { NonePasses (of_value (S.accepts sought.now)) (IsEntry self.old.history) → F.pre make }
        ensures known { KnowsMore self.old self.new }
        ensures told { TriesToInsert L.same L.hash_of (S.accepts sought.now) (F.post make) self.old.history
            self.new.history result }
        ensures receipt { IfOk result (GetsReceipt self.new.of) }
    {
        match self.seek(sought) {
            Some((number, entry)) => Ok(GotOrInserted::Got(number, entry)),
            None => match make() {
                Ok(value) => Ok(GotOrInserted::Made(self.insert(value))),
                Err(error) => Err(error),
            },
        }
    }

    /// Returns an entry that meets the key, as `get_or_insert_with` does, with a `make` that may fail, since it allocates for instance. `Err`
    /// is what `make` returned then: no entry known to this handle meets the key, and nothing was inserted.
    pub fn get_or_try_insert_with<K, E, F: FnOnce() -> Result<V, E>>(
        &mut self,
        key: &K,
        make: F,
    ) -> Result<GotOrInserted<'a, V>, E>
    where
        L: KeyLaw<K, V>,
        requires callable { NonePasses (of_value (L.meets key.now)) (IsEntry self.old.history) → F.pre make }
        ensures known { KnowsMore self.old self.new }
        ensures told { TriesToInsert L.same L.hash_of (L.meets key.now) (F.post make) self.old.history
            self.new.history result }
        ensures receipt { IfOk result (GetsReceipt self.new.of) }
    {
        self.seek_or_try_insert_with(&MetBy { key }, make)
    }
}
