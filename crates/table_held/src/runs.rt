//! Lists of calls on a single-owner table, written once for every such table.
ghost use Rattle.std.specs.Prelude.{◌≡◌, ◌++◌, ◌∷◌, [], All, length, IfOk, IfErr, IsOk, vec_len};
ghost use Rattle.std.specs.Fn.{FnReturnsAt, FnReturnsAtPair};
ghost use Rattle.std.specs.List.Sorted.{IsPermutation};
ghost use Rattle.table_held.specs.Calls.{FnReturnsAtTwo, given, handed_back};
ghost use Rattle.table_held.specs.Runs.{InsertRepliesAsList, LookupRepliesAsList, CallStaysLawful, CallAnswers};
ghost use Rattle.table_held.specs.Runs.{OnlyAsks, RunKeeps, RunStaysLawful, RunAnswers};
ghost use Rattle.table_held.specs.Shown.{IsLater, entries_of};

pub mod laws;

pub use crate::alone::{AloneTable, InsertAnswer, KeepsApart};
use std::alloc::Allocator;
use table_generations::atomic_value::{AtomicValue, Law};

/// A call on a table that holds values of type `T` and is searched with keys of type `K`.
#[derive(Drop)]
pub enum Call<T: Drop, K: Drop> {
    /// Insert the value, whose target has this hash.
    Insert { hash: u64, value: T },
    /// Look up an entry that matches the key and has this hash.
    Lookup { hash: u64, key: K },
    /// Count the entries.
    Len,
}

/// The reply to a call. It shows entries by copies of their targets.
#[derive(Drop)]
pub enum Reply<T: AtomicValue>
where
    T::Target: Copy,
{
    /// The value is now an entry, with this target.
    Placed(T::Target),
    /// An entry with this target was there, and the value is returned.
    Found(T::Target, T),
    /// Memory was refused, or the capacity can't double. The value is returned, and the entries are unchanged.
    Refused(T),
    /// The look-up accepts the entry with this target.
    Some(T::Target),
    /// The look-up finds no entry.
    None,
    /// The number of entries, or `usize::MAX` if there are more.
    Len(usize),
}

/// Inserts the value and returns the reply.
fn reply_insert<
    T: AtomicValue,
    L: Law<T::Target>,
    B: AloneTable<T, L>,
    E: Fn(&T::Target, &T::Target) -> bool,
    H: Fn(&T::Target) -> u64,
>(table: &mut B, hash: u64, value: T, eq: &E, hash_fn: &H) -> Reply<T>
where
    T::Target: Copy,
    requires eq_callable { E.IsAlwaysCallable eq.now }
    requires hash_callable { H.IsAlwaysCallable hash_fn.now }
    ensures keeps { IsPermutation (entries_of B.shows table.old ++ value ∷ [])
        (entries_of B.shows table.new ++ handed_back result) }
    ensures later { IsLater B.shows table.old table.new }
    ensures counted { B.shows.counted table.new }
    ensures as_list { InsertRepliesAsList T.target L.same L.hash_of B.shows
        (FnReturnsAtPair E.Fn eq.now) (FnReturnsAt H.Fn hash_fn.now) table.old hash value result
        table.new }
{
    match table.place_alone(hash, value, eq, hash_fn) {
        Ok((place, back)) => {
            let shown = *table.target_at(place);
            match back {
                None => Reply::Placed(shown),
                Some(value) => Reply::Found(shown, value),
            }
        }
        Err(value) => Reply::Refused(value),
    }
}

/// Looks up the key and returns the reply.
fn reply_lookup<
    T: AtomicValue,
    L: Law<T::Target>,
    K: Drop,
    B: AloneTable<T, L>,
    P: Fn(&K, &T::Target) -> bool,
>(table: &B, hash: u64, key: &K, test: &P) -> Reply<T>
where
    T::Target: Copy,
    requires { P.IsAlwaysCallable test.now }
    ensures keeps { handed_back result ≡ [] }
    ensures as_list { LookupRepliesAsList T.target L.same L.hash_of B.shows
        (FnReturnsAtTwo P.Fn test.now key.now) table.now hash result }
{
    match table.lookup_alone(hash, |target: &T::Target| test(key, target)) {
        Some(target) => Reply::Some(*target),
        None => Reply::None,
    }
}

/// Runs the call and returns the reply.
fn reply_call<
    T: AtomicValue,
    L: Law<T::Target>,
    K: Drop,
    B: AloneTable<T, L>,
    E: Fn(&T::Target, &T::Target) -> bool,
    H: Fn(&T::Target) -> u64,
    P: Fn(&K, &T::Target) -> bool,
>(table: &mut B, call: Call<T, K>, eq: &E, hash_fn: &H, test: &P) -> Reply<T>
where
    T::Target: Copy,
    requires eq_callable { E.IsAlwaysCallable eq.now }
    requires hash_callable { H.IsAlwaysCallable hash_fn.now }
    requires test_callable { P.IsAlwaysCallable test.now }
    ensures keeps { IsPermutation (entries_of B.shows table.old ++ given call)
        (entries_of B.shows table.new ++ handed_back result) }
    ensures later { IsLater B.shows table.old table.new }
    ensures counted { B.shows.counted table.old → B.shows.counted table.new }
    ensures unchanged { OnlyAsks call → table.new ≡ table.old }
    ensures lawful { CallStaysLawful T.target L.same L.hash_of B.shows (FnReturnsAtPair E.Fn eq.now)
        (FnReturnsAt H.Fn hash_fn.now) table.old call table.new }
    ensures as_list { CallAnswers T.target L.same L.hash_of B.shows (FnReturnsAtPair E.Fn eq.now)
        (FnReturnsAt H.Fn hash_fn.now) (FnReturnsAtTwo P.Fn test.now) table.old call result
        table.new }
{
    match call {
        Call::Insert { hash, value } => reply_insert(table, hash, value, eq, hash_fn),
        Call::Lookup { hash, key } => reply_lookup(table, hash, &key, test),
        Call::Len => Reply::Len(table.len_alone()),
    }
}

/// Runs the calls, one after the other, and returns their replies in order.
///
/// Every insert uses `eq` and `hash_fn`. `test` is called with the key of a look-up and the target of an entry, and returns
/// whether the entry matches the key. `L` names their equality and hash, for contracts only.
///
/// The replies are stored in memory of `alloc`, which is reserved before the first call. `Err`: that memory was refused; the
/// calls are returned, and the table is unchanged. An empty list of calls needs no memory and is never refused.
pub fn run_calls<
    T: AtomicValue,
    L: Law<T::Target>,
    K: Drop,
    B: AloneTable<T, L>,
    E: Fn(&T::Target, &T::Target) -> bool,
    H: Fn(&T::Target) -> u64,
    P: Fn(&K, &T::Target) -> bool,
    A: Allocator + Copy,
>(
    alloc: A,
    table: &mut B,
    calls: Vec<Call<T, K>, A>,
    eq: E,
    hash_fn: H,
    test: P,
) -> Result<Vec<Reply<T>, A>, Vec<Call<T, K>, A>>
where
    T::Target: Copy,
    requires eq_callable { E.IsAlwaysCallable eq }
    requires hash_callable { H.IsAlwaysCallable hash_fn }
    requires test_callable { P.IsAlwaysCallable test }

    // with any closures
    ensures keeps { IfOk result (λ replies. RunKeeps (entries_of B.shows table.old) calls.items
        replies.items (entries_of B.shows table.new)) }
    ensures later { IfOk result (λ _. IsLater B.shows table.old table.new) }
    ensures counted { IfOk result (λ _. B.shows.counted table.new) }
    ensures unchanged { IfOk result (λ _. All OnlyAsks calls.items → table.new ≡ table.old) }
    ensures each { IfOk result (λ replies. length replies.items ≡ length calls.items) }
    ensures refused { IfErr result (λ back. (back ≡ calls) × (table.new ≡ table.old)) }
    ensures of_none { vec_len calls ≡ 0 → IsOk result }

    // with lawful closures
    ensures lawful { IfOk result (λ _. RunStaysLawful T.target L.same L.hash_of B.shows
        (FnReturnsAtPair E.Fn eq) (FnReturnsAt H.Fn hash_fn) table.old calls.items table.new) }
    ensures as_list { IfOk result (λ replies. RunAnswers T.target L.same L.hash_of B.shows
        (FnReturnsAtPair E.Fn eq) (FnReturnsAt H.Fn hash_fn) (FnReturnsAtTwo P.Fn test) table.old
        calls.items replies.items table.new) }
{
    let Ok(mut replies) = Vec::with_capacity(alloc, calls.len()) else {
        return Err(calls);
    };
    // Called for its contract, which says that the table is counted. That is needed if there is no call.
    let _ = table.len_alone();
    for call in calls {
        let reply = reply_call(table, call, &eq, &hash_fn, &test);
        replies.push_reserved(reply);
    }
    Ok(replies)
}
