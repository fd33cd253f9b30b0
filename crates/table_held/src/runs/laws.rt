//! Theorems about single-owner tables and lists of calls on them, each the contract of a function that does nothing.
ghost use Rattle.std.specs.Fn.{FnReturnsAt, FnReturnsAtPair};
ghost use Rattle.table_held.specs.Calls.{FnReturnsAtTwo};
ghost use Rattle.table_held.specs.Settled.{RepliesAgree, RepliesAgreeByClass, NewTablesAgree, NewTablesAgreeByClass};
ghost use Rattle.table_held.specs.Again.{LaterIsReflexive, LaterIsTransitive, AnswersLive, FindsAgain};
ghost use Rattle.table_held.specs.Shown.{LawfulWithoutEntries};

use crate::alone::{AloneTable, KeepsApart};
use table_generations::atomic_value::{AtomicValue, Law};

/// States that a place stays valid. A later table keeps every entry at its place. The relation "later" is reflexive and
/// transitive, and every `place_alone` leaves a later table.
pub fn places_stay_good<T: AtomicValue, L: Law<T::Target>, B: AloneTable<T, L>>()
    ensures reflexive { LaterIsReflexive B.shows }
    ensures transitive { LaterIsTransitive B.shows }
{}

/// States that a table without entries is lawful for every equality and every hash.
pub fn no_entries_is_lawful<T: AtomicValue, L: Law<T::Target>, B: AloneTable<T, L>>()
    ensures { LawfulWithoutEntries B.shows T.target }
{}

/// States that an insert by `eq` that was not refused returns the place of an entry in the table that it leaves.
pub fn answers_live<
    T: AtomicValue,
    L: Law<T::Target>,
    B: AloneTable<T, L>,
    E: Fn(&T::Target, &T::Target) -> bool,
>(eq: &E)
    ensures { AnswersLive B.shows T.target (FnReturnsAtPair E.Fn eq.now) }
{}

/// States that an inserted value is found again. Suppose that an insert of a value by `eq` and `hash_fn` was lawful and not
/// refused, and that `test` is equality with the value. Then a look-up by `test` returns the very entry at the place that the
/// insert returned, on every later table that is still lawful. Lawful inserts keep a table lawful.
pub fn inserted_is_found_again<
    T: AtomicValue,
    L: Law<T::Target>,
    B: KeepsApart<T, L>,
    E: Fn(&T::Target, &T::Target) -> bool,
    H: Fn(&T::Target) -> u64,
    F: Fn(&T::Target) -> bool,
>(eq: &E, hash_fn: &H, test: &F)
    ensures { FindsAgain B.shows T.target L.same L.hash_of
        (FnReturnsAtPair E.Fn eq.now) (FnReturnsAt H.Fn hash_fn.now) (FnReturnsAt F.Fn test.now) }
{
    B::entries_are_apart();
}

/// States when two runs of the same calls agree. Both begin with one list without equal entries, and no reply is `Refused`. If
/// the key of each look-up matches at most one entry of the list at that moment, they have the same replies and end with the same
/// list. This is so if all targets that match a key are equal, which can be checked without the list.
pub fn replies_agree<T: AtomicValue, L: Law<T::Target>, K: Drop>()
    ensures by_list { RepliesAgree T.target K L.same }
    ensures by_class { RepliesAgreeByClass T.target K L.same }
{}

/// States when `run_calls` agrees on two tables without entries, of any kinds: for example a new raw table, and new tables over
/// any number of shards. If the calls are lawful, no reply is `Refused`, and the key of each look-up matches at most one entry at
/// that moment, the replies are the same and the same entries are left. The last condition holds if all targets that match a key
/// are equal.
pub fn new_tables_agree<
    T: AtomicValue,
    L: Law<T::Target>,
    K: Drop,
    B: AloneTable<T, L>,
    C: AloneTable<T, L>,
    E: Fn(&T::Target, &T::Target) -> bool,
    H: Fn(&T::Target) -> u64,
    P: Fn(&K, &T::Target) -> bool,
>(eq: &E, hash_fn: &H, test: &P)
    ensures by_list { NewTablesAgree T.target L.same L.hash_of B.shows C.shows
        (FnReturnsAtPair E.Fn eq.now) (FnReturnsAt H.Fn hash_fn.now)
        (FnReturnsAtTwo P.Fn test.now) }
    ensures by_class { NewTablesAgreeByClass T.target L.same L.hash_of B.shows C.shows
        (FnReturnsAtPair E.Fn eq.now) (FnReturnsAt H.Fn hash_fn.now)
        (FnReturnsAtTwo P.Fn test.now) }
{}
