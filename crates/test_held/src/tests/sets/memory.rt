//! Tests of sets in which each request for memory is refused in turn.
use super::{Numbers, assert_numbers, assert_same, insert_box};
use std::alloc::{AllocError, Allocator, Global};
use std::process::Abort;
use std::test::Fail;
use table_sets::{HeldSet, Shown};
use testkit::counting::numbers::{InsertEnd, refused_in_turn};
use testkit::refusing::{Heap, Refusing, Rule};

/// How many numbers are inserted. The set grows from 16 buckets to 32, and then to 64.
const NUMBERS: u64 = 17;

/// How many requests make an insert fail if they are refused: the block of each number, and the marks and the words of the first
/// generation. A refused growth changes no answer, since the number was placed before.
const REFUSED: u64 = NUMBERS + 2;

/// Inserts the numbers into a set over this memory, and each again after a refusal. Returns how many inserts were refused. `Err`: no memory
/// for a box of a number.
fn refused_inserts<A: Allocator + Copy>(
    rt: &impl Abort,
    memory: A,
    alloc: Global,
) -> Result<u64, AllocError> {
    let mut set: Numbers<A> = HeldSet::new(memory);
    let mut refused = 0u64;
    for number in 0..NUMBERS {
        if insert_box(&mut set, alloc, number)? == InsertEnd::Refused {
            refused = refused.wrapping_add(1);
            assert_numbers(rt, &set, number);
            assert!(rt; insert_box(&mut set, alloc, number)? == InsertEnd::Placed);
        }
    }
    assert_numbers(rt, &set, NUMBERS);
    assert!(rt; insert_box(&mut set, alloc, 4)? == InsertEnd::Found);
    Ok(refused)
}

/// Inserts the numbers while the request after the first `passing` ones is refused. Returns how many inserts were refused. `Err`: no memory
/// for a box of a number.
fn refused_after(rt: &impl Abort, alloc: Global, passing: u64) -> Result<u64, AllocError> {
    let heap = Refusing::new(alloc, Rule::new(0, usize::MAX, passing, 1));
    refused_inserts(rt, &heap, alloc)
}

#[test]
fn each_request_refused_in_turn(rt: HostRuntime) {
    let refused = |rt: &HostRuntime, passing: u64| refused_after(rt, rt.alloc(), passing).ok();
    assert_same(&rt, refused_in_turn(&rt, 40, refused), Some(REFUSED));
}

/// Asserts that `insert_and_show` returns a refused value too, and that an insert that finds its value needs no memory. `Err`: no memory for
/// a box of a number.
fn assert_none_needed<A: Allocator + Copy>(
    rt: &impl Abort,
    heap: &Heap,
    memory: A,
    alloc: Global,
) -> Result<(), AllocError> {
    let mut set: Numbers<A> = HeldSet::new(memory);
    match set.insert_and_show(Box::new(alloc, 9)?) {
        Shown::Refused(back) => assert_same(rt, *back, 9),
        Shown::Placed(_) | Shown::Found(_, _) => assert!(rt; false),
    }
    assert_numbers(rt, &set, 0);
    heap.refuse(3, u64::MAX);
    for (number, answer) in [
        (0, InsertEnd::Placed),
        (1, InsertEnd::Refused),
        (0, InsertEnd::Found),
    ] {
        assert!(rt; insert_box(&mut set, alloc, number)? == answer);
    }
    assert_numbers(rt, &set, 1);
    Ok(())
}

#[test]
fn no_memory_at_all(rt: HostRuntime) -> Result<(), Fail> {
    let heap = Refusing::new(rt.alloc(), Rule::new(0, usize::MAX, 0, u64::MAX));
    assert_none_needed(&rt, &heap, &heap, rt.alloc())?;
    Ok(())
}
