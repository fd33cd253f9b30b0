//! The interface of single-owner tables, by which runs of calls are stated for any such table.
ghost use Rattle.std.specs.Prelude.{◌≡◌, IfSome, IfNone, IsSome, option_copied};
ghost use Rattle.std.specs.Fn.{FnReturnsAt, FnReturnsAtPair};
ghost use Rattle.table_held.specs.Shown.{IsLater, entries_of};

mod raw;

use table_generations::atomic_value::{AtomicValue, Law};

/// The result of an insert into a table whose entries live at places of type `P`. `Ok((place, None))`: the value was placed.
/// `Ok((place, Some(value)))`: an equal entry lives at `place`, and the value is returned. `Err(value)`: the insert was refused,
/// and the value is returned.
pub type InsertAnswer<P, T> = Result<(P, Option<T>), T>;

/// A table with one owner, under the equality and hash of `L`. A contract sees the table by its entries, the entry at each place,
/// whether its number of entries is right (`counted`), and whether it is lawful, as [`HeldRawTable`](crate::HeldRawTable) says.
///
/// An implementor also promises, by `no_entries_is_lawful`, that a table without entries is lawful.
pub trait AloneTable<T: AtomicValue, L: Law<T::Target>> {
    ghost use Rattle.table_held.specs.Shown.{Shows, value_of, CountsAsList, PlacesAsList, LooksUpAsList, LawfulWithoutEntries};
    ghost use Rattle.table_held.specs.Shown.{ShowsAt, FindsOne, FindsNone, InsertKeeps, InsertAnswers};

    /// The address of an entry in the table.
    type Place: Copy;

    ghost shows: { Shows Self T Self.Place };

    /// Inserts the value unless `eq` accepts an entry as equal, and returns the place of the entry.
    ///
    /// `hash` is the hash of the value's target. `eq` is called with the target of the value first and the target of an entry
    /// second. `hash_fn` returns the hash of an entry's target.
    ///
    /// - `Ok((place, None))`: the value is now an entry, at `place`.
    /// - `Ok((place, Some(value)))`: the value was not placed and is returned; `eq` accepted the entry at `place`.
    /// - `Err(value)`: the insert was refused; the value is returned, and the entries are unchanged.
    fn place_alone<E, H>(
        &mut self,
        hash: u64,
        value: T,
        eq: &E,
        hash_fn: &H,
    ) -> InsertAnswer<Self::Place, T>
    where
        E: Fn(&T::Target, &T::Target) -> bool,
        H: Fn(&T::Target) -> u64,
        requires eq_callable { E.IsAlwaysCallable eq.now }
        requires hash_callable { H.IsAlwaysCallable hash_fn.now }

        // with any closures
        ensures keeps { InsertKeeps T.target (FnReturnsAtPair E.Fn eq.now (T.target value))
            (value_of shows self.new) (entries_of shows self.old) value result
            (entries_of shows self.new) }
        ensures later { IsLater shows self.old self.new }
        ensures counted { shows.counted self.new }

        // with lawful closures
        ensures lawful { InsertAnswers T.target L.same L.hash_of (FnReturnsAtPair E.Fn eq.now)
            (FnReturnsAt H.Fn hash_fn.now) (shows.lawful T.Target T.target L.same L.hash_of
            self.old) (entries_of shows self.old) hash value result
            (shows.lawful T.Target T.target L.same L.hash_of self.new) }
        ensures as_list { PlacesAsList T.target L.same L.hash_of shows (FnReturnsAtPair E.Fn eq.now)
            (FnReturnsAt H.Fn hash_fn.now) self.old hash value result self.new };

    /// Returns the target of the entry at a place. The caller shows that an entry of this table lives there.
    fn target_at(&self, place: Self::Place) -> &T::Target
        requires { IsSome (value_of shows self.now place) }
        ensures { ShowsAt (value_of shows self.now place) (λ v. result.now ≡ T.target v) };

    /// Returns the target of an entry that the test accepts, or `None`. Does not change the table.
    ///
    /// If the test and the table are lawful, `None` means that the test accepts no entry.
    fn lookup_alone<F: Fn(&T::Target) -> bool>(&self, hash: u64, test: F) -> Option<&T::Target>
        requires { F.IsAlwaysCallable test }
        ensures accepted { IfSome result (λ found. FindsOne T.target (FnReturnsAt F.Fn test)
            (entries_of shows self.now) found.now) }
        ensures none { IfNone result (FindsNone T.target L.same L.hash_of (FnReturnsAt F.Fn test)
            (shows.lawful T.Target T.target L.same L.hash_of self.now) (entries_of shows self.now)
            hash) }
        ensures as_list { LooksUpAsList T.target L.same L.hash_of shows (FnReturnsAt F.Fn test)
            self.now hash (option_copied result) };

    /// Returns the number of entries, or `usize::MAX` if there are more.
    fn len_alone(&self) -> usize
        ensures counted { shows.counted self.now }
        ensures as_list { CountsAsList shows self.now result };

    ghost no_entries_is_lawful: { LawfulWithoutEntries shows T.target };
}

/// A single-owner table in which no two entries are equal, if it is lawful.
pub trait KeepsApart<T: AtomicValue, L: Law<T::Target>>: AloneTable<T, L> {
    ghost use Rattle.table_held.specs.Again.{LawfulIsApart};

    /// Does nothing. A caller calls it for its clause: a lawful table has no two equal entries.
    fn entries_are_apart()
        ensures { LawfulIsApart Self.shows T.target L.same L.hash_of };
}
