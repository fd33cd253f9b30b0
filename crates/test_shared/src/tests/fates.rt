//! Tests that the account of a round reports what is wrong.
use std::alloc::Global;
use std::process::Abort;
use testkit_rounds::RoundFault;
use testkit_rounds::fates::{Fate, Fates};

/// Accounts of three values: which of them were returned, which are entries in the end, and the result.
const ACCOUNTS: [(&[u64], &[u64], Result<(), RoundFault>); 7] = [
    (&[], &[2, 0, 1], Ok(())),
    (&[1], &[2, 0], Ok(())),
    (&[1], &[2], Err(RoundFault::Lost(0))),
    (&[], &[], Err(RoundFault::Lost(0))),
    (&[0, 1], &[2, 0], Err(RoundFault::Doubled(0))),
    (&[0, 1], &[2, 2], Err(RoundFault::Doubled(2))),
    (&[0, 1], &[3], Err(RoundFault::Unknown(3))),
];

/// Accounts for three values, of which some were returned and some are entries. `Err`: the first fault.
fn account(alloc: Global, back: &[u64], entries: &[u64]) -> Result<(), RoundFault> {
    let mut fates = Fates::new(alloc, 3)?;
    fates.settle_all(back, Fate::Found)?;
    fates.settle_all(entries, Fate::Entry)?;
    fates.check_settled()
}

/// Asserts that a result is the expected one.
fn assert_result(rt: &impl Abort, got: Result<(), RoundFault>, expected: Result<(), RoundFault>) {
    assert_eq!(rt; got, expected);
}

#[test]
fn each_value_is_accounted_for(rt: HostRuntime) {
    for (back, entries, expected) in &ACCOUNTS {
        assert_result(&rt, account(rt.alloc(), *back, *entries), *expected);
    }
}

/// The values that an iterator by reference yields, those that the owning iterator yields, and the result of the comparison.
const WALKS: [(&[u64], &[u64], Result<(), RoundFault>); 3] = [
    (&[0, 2], &[2, 0], Ok(())),
    (&[0], &[2, 0], Err(RoundFault::Walk(2))),
    (&[0, 1, 2], &[2, 0], Err(RoundFault::Walk(1))),
];

/// Compares the values of an iterator by reference with those of the owning iterator. `Err`: the first fault.
fn compare(alloc: Global, walked: &[u64], handed: &[u64]) -> Result<(), RoundFault> {
    let mut shown = Fates::new(alloc, 3)?;
    shown.settle_all(walked, Fate::Entry)?;
    let mut fates = Fates::new(alloc, 3)?;
    fates.settle_all(handed, Fate::Entry)?;
    fates.check_same_entries(&shown)
}

#[test]
fn a_walk_is_what_is_handed_out(rt: HostRuntime) {
    for (walked, handed, expected) in &WALKS {
        assert_result(&rt, compare(rt.alloc(), *walked, *handed), *expected);
    }
}
