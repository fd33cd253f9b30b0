//! Receipts of values that were placed.
ghost use Rattle.std.specs.Prelude.{◌≡◌, ◌≢◌, IfSome};

use super::caller::{NumberHandle, NumberSet, assert_none_out, assert_same, counted};
use shared_set::{Inserted, Receipt, SharedSet};
use std::process::Abort;
use table_cell::Low;

/// Places a value, and returns its number and its receipt. `None` means that it wasn't placed.
fn place<A: Low + Copy>(handle: &mut NumberHandle<'_, A>, value: u64) -> Option<(u64, Receipt<u64>)>
    ensures same { handle.new.of ≡ handle.old.of }
    ensures set { IfSome result (λ p. p.1.slab ≡ handle.old.of.slab) }
    ensures number { IfSome result (λ p. p.1.number ≡ p.0) }
    ensures value { IfSome result (λ p. p.1.value ≡ value) }
{
    match handle.insert(value) {
        Inserted::Placed(number, _, receipt) => Some((number, receipt)),
        _ => None,
    }
}

/// Places two values. Returns their numbers, which differ, and the entries of their receipts. `None` means that one wasn't placed.
fn two_receipts<A: Low + Copy>(set: &NumberSet<A>, a: u64, b: u64) -> Option<(u64, u64, u64, u64)>
    ensures numbers { IfSome result (λ r. r.0 ≢ r.1) }
    ensures entries { IfSome result (λ r. (r.2 ≡ a) × (r.3 ≡ b)) }
{
    let mut handle = set.handle();
    let (m, mut one) = place(&mut handle, a)?;
    let (n, mut other) = place(&mut handle, b)?;
    one.apart(&mut other);
    Some((m, n, *handle.entry_of(m, &one), *set.entry_of(n, &other)))
}

/// Places two values in a set over this memory, and asserts that their receipts show them. Asserts that a value that is there already gets no
/// receipt.
fn assert_receipts<A: Low + Copy>(rt: &impl Abort, memory: A) {
    let set: NumberSet<A> = SharedSet::new(memory).expect(rt, "a set");
    assert_same(rt, two_receipts(&set, 7, 8), Some((0, 1, 7, 8)));
    assert_same(rt, two_receipts(&set, 9, 8), None);
}

#[test]
fn receipts_are_of_different_entries(rt: HostRuntime) {
    let heap = counted(rt.alloc());
    assert_receipts(&rt, &heap);
    assert_none_out(&rt, &heap);
}
