//! A single-owner set that becomes one that threads share.
use super::caller::{Heap, assert_none_out, assert_same, counted};
use shared_set::{Handle, Inserted, Partly, Share, Shared, SharedSet, Unshared};
use std::alloc::{AllocError, Global};
use std::process::Abort;
use std::test::Fail;
use table_cell::Low;
use table_sets::{HeldSet, Inserted as Put, OfTarget};
use testkit::counting::{Counting, CountingLaw, Drops};

/// How many values the sets have.
const COUNTS: [u64; 6] = [0, 1, 2, 16, 17, 1000];

/// A single-owner set of boxes whose drops are counted.
type Held<A> = HeldSet<Box<Counting>, CountingLaw, A>;

/// The set that threads share.
type Boxes<A> = SharedSet<Box<Counting>, OfTarget<CountingLaw>, A>;

/// A handle of the shared set.
type Boxing<'s, A> = Handle<'s, Box<Counting>, OfTarget<CountingLaw>, A>;

/// A shared set, with what is known of its entries.
type SharedBoxes<A> = Shared<Box<Counting>, OfTarget<CountingLaw>, A>;

/// What is left of a set that could not be shared.
type Left<A> = Unshared<Box<Counting>, CountingLaw, OfTarget<CountingLaw>, A>;

/// Makes a single-owner set of the numbers below `count`. `Err`: no memory.
fn held<A: Low + Copy>(memory: A, values: &Drops, count: u64) -> Result<Held<A>, AllocError> {
    let mut set: Held<A> = HeldSet::new(memory);
    for number in 0..count {
        match set.insert(values.counting(number)?) {
            Put::Placed => {}
            Put::Found(_) | Put::Refused(_) => return Err(AllocError),
        }
    }
    Ok(set)
}

/// Returns whether the handle finds the number. `Err`: no memory.
fn has<A: Low + Copy>(
    handle: &mut Boxing<'_, A>,
    probes: &Drops,
    number: u64,
) -> Result<bool, AllocError> {
    let probe = probes.counting(number)?;
    Ok(handle.contains(&probe))
}

/// Asserts that a handle finds each number below `count`, and not `count`. `Err`: no memory.
fn assert_finds<A: Low + Copy>(
    rt: &impl Abort,
    alloc: Global,
    set: &Boxes<A>,
    count: u64,
) -> Result<(), AllocError> {
    let probes = Drops::new(alloc, 0)?;
    let mut handle = set.handle();
    for number in 0..count {
        assert_same(rt, has(&mut handle, &probes, number)?, true);
    }
    assert_same(rt, has(&mut handle, &probes, count)?, false);
    Ok(())
}

/// Inserts the values that were left into the shared set, by a handle. Returns the set.
fn insert_left<A: Low + Copy>(
    rt: &impl Abort,
    partly: Partly<Box<Counting>, OfTarget<CountingLaw>, A>,
) -> Boxes<A> {
    let Partly {
        shared,
        refused,
        rest,
    } = partly;
    let Shared { set, known: _ } = shared;
    let mut handle = set.handle();
    assert!(rt; matches!(handle.insert(refused), Inserted::Placed(_, _, _)));
    for value in rest {
        assert!(rt; matches!(handle.insert(value), Inserted::Placed(_, _, _)));
    }
    drop(handle);
    set
}

/// Asserts that what was left has `count` values, and shares it now that memory is granted. Returns the shared set.
fn share_left<A: Low + Copy>(rt: &impl Abort, memory: A, left: Left<A>, count: u64) -> Boxes<A> {
    match left {
        Unshared::Held(held) => {
            assert_same(rt, held.len() as u64, count);
            let Shared { set, known: _ } = held.share(memory).ok().expect(rt, "a shared set");
            set
        }
        Unshared::Partly(partly) => {
            let kept = partly.shared.set.len().wrapping_add(1);
            assert_same(rt, kept.wrapping_add(partly.rest.len() as u64), count);
            insert_left(rt, partly)
        }
    }
}

/// Returns the shared set. If the sharing was refused, shares now what was left.
fn set_of<A: Low + Copy>(
    rt: &impl Abort,
    memory: A,
    answer: Result<SharedBoxes<A>, Left<A>>,
    count: u64,
) -> Boxes<A> {
    match answer {
        Ok(shared) => {
            let Shared { set, known: _ } = shared;
            set
        }
        Err(left) => share_left(rt, memory, left, count),
    }
}

/// Shares a set of `count` values over this memory while the request after the first `granted` ones is refused. Asserts that the shared set
/// then has each value once. Returns whether no request was refused. `Err`: no memory.
fn share_over<A: Low + Copy>(
    rt: &impl Abort,
    alloc: Global,
    heap: &Heap,
    memory: A,
    count: u64,
    granted: u64,
) -> Result<bool, AllocError> {
    let values = Drops::new(alloc, count)?;
    let held = held(memory, &values, count)?;
    heap.refuse(granted, 1);
    let answer = held.share(memory);
    let whole = heap.refusals_left() == 1;
    heap.refuse(0, 0);
    assert_same(rt, values.never_and_once(), (count, 0));
    let set = set_of(rt, memory, answer, count);
    assert_finds(rt, alloc, &set, count)?;
    assert_same(rt, (set.len(), set.is_empty()), (count, count == 0));
    assert_same(rt, values.never_and_once(), (count, 0));
    drop(set);
    assert_same(rt, values.never_and_once(), (0, count));
    Ok(whole)
}

/// Shares a set of `count` values as `share_over` does, on a heap of its own. Asserts that each of its blocks is freed. Returns whether no
/// request was refused. `Err`: no memory.
fn share(rt: &impl Abort, alloc: Global, count: u64, granted: u64) -> Result<bool, AllocError> {
    let heap = counted(alloc);
    let whole = share_over(rt, alloc, &heap, &heap, count, granted)?;
    assert_none_out(rt, &heap);
    Ok(whole)
}

#[test]
fn each_value_is_an_entry(rt: HostRuntime) -> Result<(), Fail> {
    for count in &COUNTS {
        assert!(rt; share(&rt, rt.alloc(), *count, 1 << 32)?);
    }
    Ok(())
}

/// How many values are shared while requests are refused.
const NUMBERS: u64 = 300;

#[test]
fn a_refused_value_is_returned_with_the_rest(rt: HostRuntime) -> Result<(), Fail> {
    for granted in 0..100 {
        if share(&rt, rt.alloc(), NUMBERS, granted)? {
            assert!(rt; granted > 5, "{granted}");
            return Ok(());
        }
    }
    assert!(rt; false);
    Ok(())
}

/// Shares a set while each request after the first `granted` ones is refused, and drops the answer. Asserts that each value is dropped once.
/// `Err`: no memory.
fn assert_dropped_once<A: Low + Copy>(
    rt: &impl Abort,
    alloc: Global,
    heap: &Heap,
    memory: A,
    granted: u64,
) -> Result<(), AllocError> {
    let values = Drops::new(alloc, NUMBERS)?;
    let held = held(memory, &values, NUMBERS)?;
    heap.refuse(granted, u64::MAX);
    drop(held.share(memory));
    assert_same(rt, values.never_and_once(), (0, NUMBERS));
    Ok(())
}

/// Checks that each value is dropped once if what is left of a set is dropped.
#[test]
fn what_is_left_may_be_dropped(rt: HostRuntime) -> Result<(), Fail> {
    for granted in 0..20 {
        let heap = counted(rt.alloc());
        assert_dropped_once(&rt, rt.alloc(), &heap, &heap, granted)?;
        assert_none_out(&rt, &heap);
    }
    Ok(())
}

/// How many values a set begins with before it grows.
const FIRST: u64 = 17;

/// Shares a set and lets it grow. Asserts that a new handle finds each value after each insert. `Err`: no memory.
fn assert_found_after_growth<A: Low + Copy>(
    rt: &impl Abort,
    alloc: Global,
    memory: A,
) -> Result<(), AllocError> {
    let values = Drops::new(alloc, NUMBERS)?;
    let answer = held(memory, &values, FIRST)?.share(memory);
    let set = set_of(rt, memory, answer, FIRST);
    for number in FIRST..NUMBERS {
        assert!(rt;
            matches!(
                set.insert(values.counting(number)?),
                Inserted::Placed(_, _, _)
            )
        );
        assert_finds(rt, alloc, &set, number.wrapping_add(1))?;
    }
    drop(set);
    assert_same(rt, values.never_and_once(), (0, NUMBERS));
    Ok(())
}

/// Checks that new handles find the values that the set began with in each later generation.
#[test]
fn new_handles_find_each_value_after_growth(rt: HostRuntime) -> Result<(), Fail> {
    let heap = counted(rt.alloc());
    assert_found_after_growth(&rt, rt.alloc(), &heap)?;
    assert_none_out(&rt, &heap);
    Ok(())
}
