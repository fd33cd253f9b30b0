//! Accounts of the values that were placed.
ghost use Rattle.std.specs.Prelude.{◌≡◌, IfSome, length};

use super::caller::{NumberHandle, NumberSet, assert_none_out, assert_same, counted, set_with};
use shared_set::{Account, Inserted, Settled};
use std::process::Abort;
use table_cell::Low;
use table_terms::law::NumberLaw;

/// An account of a set of numbers.
type Numbered<A> = Account<u64, NumberLaw, A>;

/// Inserts the number, and adds its receipt to the account. Returns whether it was placed.
fn place<A: Low + Copy>(
    handle: &mut NumberHandle<'_, A>,
    account: &mut Numbered<A>,
    number: u64,
) -> bool
    requires of { handle.old.of ≡ account.old.of }
    ensures of { (handle.new.of ≡ handle.old.of) × (account.new.of ≡ account.old.of) }
{
    match handle.insert(number) {
        Inserted::Placed(_, _, receipt) => {
            account.add(receipt, handle);
            true
        }
        _ => false,
    }
}

/// Places the numbers 7, 8 and 9. Returns the account of them.
fn account_of_three<A: Low + Copy>(rt: &impl Abort, set: &NumberSet<A>) -> Numbered<A>
    ensures { result.of ≡ set.now.of }
{
    let mut handle = set.handle();
    let mut account = set.account();
    let first = place(&mut handle, &mut account, 7);
    let second = place(&mut handle, &mut account, 8);
    let third = place(&mut handle, &mut account, 9);
    assert_same(rt, (first, second, third), (true, true, true));
    assert_same(
        rt,
        (place(&mut handle, &mut account, 8), account.len()),
        (false, 3),
    );
    account
}

/// Asserts that a handle that hears of the account finds the numbers 7, 8 and 9.
fn assert_shows<A: Low + Copy>(rt: &impl Abort, set: &NumberSet<A>, account: &Numbered<A>)
    requires { account.now.of ≡ set.now.of }
{
    let mut handle = set.handle();
    handle.hear(&account.known());
    let found = (
        handle.contains(&7),
        handle.contains(&8),
        handle.contains(&9),
    );
    assert_same(rt, found, (true, true, true));
}

/// Splits the account, and joins its parts in the other order. `None` means that the account is empty.
fn turned<A: Low + Copy>(
    rt: &impl Abort,
    set: &NumberSet<A>,
    account: Numbered<A>,
) -> Option<Numbered<A>>
    requires { account.of ≡ set.now.of }
    ensures { IfSome result (λ a. a.of ≡ set.now.of) }
{
    if account.len() < 1 {
        return None;
    }
    let (one, mut others) = account.split(1);
    assert_same(rt, (one.len(), others.len()), (1, 2));
    others.join(set, one);
    assert_same(rt, others.len(), 3);
    Some(others)
}

/// Cuts an account of three numbers, and puts it together. Asserts that it shows the numbers, and that the set ends with them and with one
/// that the account lacks.
fn assert_put_together<A: Low + Copy>(rt: &impl Abort, memory: A) {
    let set = set_with(rt, memory, 0);
    let account = account_of_three(rt, &set);
    let account = turned(rt, &set, account).expect(rt, "an account");
    assert_same(rt, account.len(), 3);
    assert_shows(rt, &set, &account);
    let beside = set.insert(10);
    assert!(rt;
        matches!(beside, Inserted::Placed(_, _, _)),
        "a number without account"
    );
    drop(beside);
    assert_same(rt, ended(set, account), (false, 4));
}

#[test]
fn accounts_are_cut_and_put_together(rt: HostRuntime) {
    let heap = counted(rt.alloc());
    assert_put_together(&rt, &heap);
    assert_none_out(&rt, &heap);
}

/// Ends the set by `settle`. Returns whether it returned only the values of the account, and how many values it returned.
fn ended<A: Low + Copy>(set: NumberSet<A>, account: Numbered<A>) -> (bool, usize)
    requires { account.of ≡ set.of }
{
    match set.settle(account) {
        Settled::All(values) => (true, values.len()),
        Settled::More(values) => (false, values.len()),
    }
}

/// Ends a set whose account has each of its numbers. Asserts that they are all that the set returns.
fn assert_ends_with_account<A: Low + Copy>(rt: &impl Abort, memory: A) {
    let set = set_with(rt, memory, 0);
    let mut account = account_of_three(rt, &set);
    account.apart();
    assert_same(rt, ended(set, account), (true, 3));
}

#[test]
fn a_set_ends_with_what_its_account_has(rt: HostRuntime) {
    let heap = counted(rt.alloc());
    assert_ends_with_account(&rt, &heap);
    assert_none_out(&rt, &heap);
}
