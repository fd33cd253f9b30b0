//! The table that `insert_alone` leaves, for callers that need to name it.
ghost use Rattle.std.specs.Prelude.{◌≡◌, Some, IfOk};
ghost use Rattle.std.specs.Fn.{FnReturnsAt, FnReturnsAtPair};
ghost use Rattle.demo_examples.specs.Unshown.{IsUnshown, LeavesUnshown};
ghost use Rattle.demo_examples.specs.Words.{HoldsWords};

use crate::held::Words;
use lock_free_hashtable::raw::laws::inserted_is_found_again;
use lock_free_hashtable::{AtomicValue, HeldRawTable, Law};
use std::alloc::Allocator;

/// Drops the target that an insert returns.
fn unshown<T, V>(told: Result<(&V, Option<T>), T>) -> Result<Option<T>, T>
    ensures { IsUnshown told.entry result }
{
    match told {
        Ok((_, back)) => Ok(back),
        Err(value) => Err(value),
    }
}

/// Inserts the value by `insert_alone`, and drops the target that it returns, so its contract can say what the table is.
///
/// It is proved by hand, once for all tables and closures. Its callers need no proof by hand.
pub fn insert_unshown<
    T: AtomicValue<Target = V>,
    A: Allocator + Copy,
    V,
    L: Law<V>,
    E: Fn(&V, &V) -> bool,
    H: Fn(&V) -> u64,
>(table: &mut HeldRawTable<T, A>, hash: u64, value: T, eq: E, hash_fn: H) -> Result<Option<T>, T>
    requires eq_callable { E.IsAlwaysCallable eq }
    requires hash_callable { H.IsAlwaysCallable hash_fn }
    ensures { LeavesUnshown T.target L.same L.hash_of (FnReturnsAtPair E.Fn eq)
        (FnReturnsAt H.Fn hash_fn) table.old hash value result table.new }
{
    let told = table.insert_alone::<L, E, H>(hash, value, eq, hash_fn);
    unshown(told)
}

/// Inserts both words, one after the other, and then looks up the first. The look-up returns it, whatever the second insert did.
///
/// `Err`: an insert was refused, and its word is returned. The table holds words before and after.
pub fn insert_two_then_find(
    table: &mut HeldRawTable<Box<u64>>,
    one: Box<u64>,
    two: Box<u64>,
) -> Result<Option<u64>, Box<u64>>
    requires { HoldsWords (λ b. b.value) table.old }
    ensures holds { HoldsWords (λ b. b.value) table.new }
    ensures first { IfOk result (λ shown. shown ≡ Some one.value) }
{
    let wanted = *one;
    let same = |a: &u64, b: &u64| *a == *b;
    let hash = |a: &u64| *a;
    let is_wanted = |a: &u64| *a == wanted;
    drop(insert_unshown::<_, _, _, Words, _, _>(table, wanted, one, same, hash)?);
    let other = *two;
    drop(insert_unshown::<_, _, _, Words, _, _>(table, other, two, same, hash)?);
    inserted_is_found_again::<Box<u64>, Words, HeldRawTable<Box<u64>>, _, _, _>(
        &same, &hash, &is_wanted,
    );
    Ok(table.lookup_alone::<Words, _>(wanted, is_wanted).copied())
}
