//! One thread and one generation, which is empty, has entries, or is full.
use super::caller::{By, CallEnd, Numbers, Row, made};
use std::alloc::{AllocError, Global};
use std::process::Abort;
use std::test::Fail;
use table_slab::Slab;

/// Asserts how the calls of the rows end in a new generation of `buckets` buckets. `Err`: no memory.
fn assert_calls(
    rt: &impl Abort,
    alloc: Global,
    buckets: usize,
    rows: &[Row],
) -> Result<(), AllocError> {
    let slab = Slab::new(alloc, 2)?;
    let set = made(alloc, &slab, buckets)?;
    let numbers = Numbers {
        set: &set,
        slab: &slab,
    };
    numbers.assert_ends(rt, rows);
    Ok(())
}

/// Calls of a generation of eight buckets. An insert that finds its value returns the slot, which the next value takes. Numbers 4 to 7 have
/// one mark.
const EIGHT: [Row; 15] = [
    (By::Probe, 0, CallEnd::Vacant),
    (By::Probe, u64::MAX, CallEnd::Vacant),
    (By::Show, 5, CallEnd::Missed),
    (By::Put, 5, CallEnd::Placed(0)),
    (By::PutOrNext, 5, CallEnd::Placed(1)),
    (By::Show, 5, CallEnd::Shown(5)),
    (By::Show, 6, CallEnd::Shown(6)),
    (By::Show, 7, CallEnd::Missed),
    (By::Put, 4, CallEnd::Placed(2)),
    (By::Put, 1, CallEnd::Placed(3)),
    (By::Put, 6, CallEnd::Found(1)),
    (By::Probe, 4, CallEnd::Found(2)),
    (By::Probe, 6, CallEnd::Found(1)),
    (By::Probe, 1, CallEnd::Found(3)),
    (By::Probe, 7, CallEnd::Vacant),
];

#[test]
fn a_value_is_placed_once_and_found(rt: HostRuntime) -> Result<(), Fail> {
    assert_calls(&rt, rt.alloc(), 8, EIGHT.as_slice())?;
    Ok(())
}

/// Calls of a generation of two buckets. An insert returns a value that finds no empty bucket, or that is found.
const TWO: [Row; 6] = [
    (By::Put, 1, CallEnd::Placed(0)),
    (By::Put, 2, CallEnd::Placed(1)),
    (By::Put, 9, CallEnd::Full),
    (By::Put, 1, CallEnd::Found(0)),
    (By::Probe, 9, CallEnd::Full),
    (By::Show, 9, CallEnd::Missed),
];

#[test]
fn a_full_generation_gives_the_value_back(rt: HostRuntime) -> Result<(), Fail> {
    assert_calls(&rt, rt.alloc(), 2, TWO.as_slice())?;
    Ok(())
}
