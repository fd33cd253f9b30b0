//! Growth: the next generation carries the entries, and the old one is closed.
ghost use Rattle.std.specs.Prelude.{◌≡◌, IfOk};

use super::caller::{By, CallEnd, Numbers, Row, made};
use super::laws::Fours;
use crate::same::assert_same;
use std::alloc::{AllocError, Global};
use std::process::Abort;
use std::test::Fail;
use table_cell::Low;
use table_numbered::{NumberedGeneration, Refused};
use table_slab::Slab;

/// Slots are numbered from 0 on, in the order in which they are taken. The first call of `has_number` finds no hint. Later calls find one,
/// also for a number that is placed after the first call.
const BEFORE: [Row; 9] = [
    (By::Put, 4, CallEnd::Placed(0)),
    (By::Put, 5, CallEnd::Placed(1)),
    (By::Has, 0, CallEnd::Has(true)),
    (By::Has, 1, CallEnd::Has(true)),
    (By::Has, 2, CallEnd::Has(false)),
    (By::Has, u64::MAX, CallEnd::Has(false)),
    (By::Put, 9, CallEnd::Placed(2)),
    (By::Has, 2, CallEnd::Has(true)),
    (By::Probe, 6, CallEnd::Vacant),
];

/// The next generation has each entry by its number. A new number is placed there.
const NEXT: [Row; 12] = [
    (By::Has, 0, CallEnd::Has(true)),
    (By::Has, 1, CallEnd::Has(true)),
    (By::Has, 2, CallEnd::Has(true)),
    (By::Has, 3, CallEnd::Has(false)),
    (By::Probe, 4, CallEnd::Found(0)),
    (By::Probe, 5, CallEnd::Found(1)),
    (By::Probe, 9, CallEnd::Found(2)),
    (By::Probe, 6, CallEnd::Vacant),
    (By::Put, 6, CallEnd::Placed(3)),
    (By::Has, 3, CallEnd::Has(true)),
    (By::Has, u64::MAX, CallEnd::Has(false)),
    (By::Put, 5, CallEnd::Found(1)),
];

/// The old generation finds its entries, and takes no new one.
const CLOSED: [Row; 4] = [
    (By::Probe, 5, CallEnd::Found(1)),
    (By::Probe, 6, CallEnd::Full),
    (By::Put, 6, CallEnd::Full),
    (By::Show, 6, CallEnd::Missed),
];

/// Grows the generation, and returns the next one. `Err`: no memory, or there would be too many buckets.
pub(crate) fn grown<A: Low + Copy>(
    set: &NumberedGeneration<u64, Fours, A>,
    alloc: A,
) -> Result<NumberedGeneration<u64, Fours, A>, Refused>
    ensures slab { IfOk result (λ g. g.of.slab ≡ set.now.of.slab) }
{
    let mut seen = set.start();
    set.grown(alloc, &mut seen)
}

/// Ends the generation. Returns how often each of the numbers 0 to 9 is among its values.
fn tally(set: &NumberedGeneration<u64, Fours, Global>, slab: Slab<u64, Global>) -> [u64; 10]
    requires slab { slab ≡ set.now.of.slab }
{
    let mut counts = [0u64; 10];
    let mut left = set.end(slab.end(), &mut set.start());
    while let Some(value) = left.next(set) {
        if let Some(count) = counts.get_mut(value as usize) {
            *count = count.wrapping_add(1);
        }
    }
    counts
}

/// Asserts that the next generation carries each entry, that the old one is closed, and that each value is returned once at the end.
/// `Err`: no memory.
fn assert_carries(rt: &impl Abort, alloc: Global) -> Result<(), AllocError> {
    let slab = Slab::new(alloc, 1)?;
    let set = made(alloc, &slab, 4)?;
    let old = Numbers {
        set: &set,
        slab: &slab,
    };
    old.assert_ends(rt, BEFORE.as_slice());
    let Ok(next) = grown(&set, alloc) else {
        return Err(AllocError);
    };
    let new = Numbers {
        set: &next,
        slab: &slab,
    };
    new.assert_ends(rt, NEXT.as_slice());
    old.assert_ends(rt, CLOSED.as_slice());
    assert_same(rt, tally(&next, slab), [0, 0, 0, 0, 1, 1, 1, 0, 0, 1]);
    Ok(())
}

#[test]
fn growth_carries_each_entry_with_its_number(rt: HostRuntime) -> Result<(), Fail> {
    assert_carries(&rt, rt.alloc())?;
    Ok(())
}
