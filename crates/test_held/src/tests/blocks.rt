//! Tests that a table frees each block that it requests, once.
use super::assert_same;
use super::pairs::{End, Pair, Pairs};
use std::alloc::{AllocError, Allocator, Global};
use std::process::Abort;
use std::test::Fail;
use table_held::raw::IntoIter;
use testkit::refusing::{Heap, Refusing, Rule, counted};

/// The number of entries of a table, and how many blocks it holds at least: one for each entry, and two for each generation.
const TABLES: [(u64, u64); 6] = [(0, 0), (1, 3), (7, 9), (8, 12), (20, 26), (40, 48)];

/// The number of entries of a table, and how many of them are taken out before the rest is dropped.
const TAKEN: [(u64, u64); 6] = [(0, 0), (5, 0), (5, 2), (20, 10), (20, 19), (20, 20)];

/// The request that is refused: the least and the greatest size that is counted, and how many such requests pass before. A request for the
/// block of an entry is smaller than 32 bytes, and every other request is not.
const REFUSED: [(usize, usize, u64); 9] = [
    (32, usize::MAX, 0),
    (32, usize::MAX, 1),
    (32, usize::MAX, 2),
    (32, usize::MAX, 3),
    (32, usize::MAX, 4),
    (32, usize::MAX, 5),
    (0, 31, 0),
    (0, 31, 7),
    (0, 31, 19),
];

/// The owning iterator of a table of pairs.
type Values<A> = IntoIter<Box<Pair>, A>;

/// Makes a table with the pairs `(number, number)` of the numbers below `entries`. `Err`: no memory for a pair.
fn table_of<A: Allocator + Copy>(
    rt: &impl Abort,
    memory: A,
    alloc: Global,
    entries: u64,
) -> Result<Pairs<A>, AllocError> {
    let mut pairs = Pairs::of(memory, alloc);
    for number in 0..entries {
        pairs.assert_end(rt, number, End::Placed)?;
    }
    Ok(pairs)
}

/// Asserts how many blocks the heap has granted, and how many of them were freed.
fn assert_blocks(rt: &impl Abort, heap: &Heap, granted: u64, given_back: u64) {
    assert_same(
        rt,
        (heap.granted(), heap.given_back()),
        (granted, given_back),
    );
}

/// Drops the owner, and asserts that the heap had at least `least` blocks in use before and has none after.
fn assert_gives_back<T: Drop>(rt: &impl Abort, heap: &Heap, owner: T, least: u64) {
    assert!(rt; heap.granted().saturating_sub(heap.given_back()) >= least);
    drop(owner);
    assert_same(rt, heap.given_back(), heap.granted());
}

/// Takes `taken` values out, and asserts that at least one block is freed for each.
fn take<A: Allocator + Copy>(rt: &impl Abort, heap: &Heap, values: &mut Values<A>, taken: u64) {
    let before = heap.given_back();
    for _value in 0..taken {
        assert!(rt; values.next().is_some());
    }
    assert!(rt; heap.given_back().saturating_sub(before) >= taken);
}

/// Takes `taken` of the `entries` values out, drops the rest, and asserts that each block is freed. `Err`: no memory for a pair.
fn assert_taken<A: Allocator + Copy>(
    rt: &impl Abort,
    heap: &Heap,
    memory: A,
    alloc: Global,
    entries: u64,
    taken: u64,
) -> Result<(), AllocError> {
    let mut values = table_of(rt, memory, alloc, entries)?.table.into_iter();
    assert!(rt; heap.granted().saturating_sub(heap.given_back()) >= entries);
    take(rt, heap, &mut values, taken);
    assert_gives_back(rt, heap, values, entries.saturating_sub(taken));
    Ok(())
}

/// Inserts 20 pairs while one request is refused, and asserts that the end of the table frees each block. `Err`: no memory for a pair.
fn assert_refused_once<A: Allocator + Copy>(
    rt: &impl Abort,
    heap: &Heap,
    memory: A,
    alloc: Global,
) -> Result<(), AllocError> {
    let mut pairs = Pairs::of(memory, alloc);
    for number in 0..20 {
        pairs.insert((number, number))?;
    }
    assert_same(rt, heap.refusals_left(), 0);
    assert_gives_back(rt, heap, pairs, 19);
    Ok(())
}

/// Asserts that a table of `entries` entries holds at least `blocks` blocks, and that its end frees all. `Err`: no memory for a pair.
fn assert_end_of<A: Allocator + Copy>(
    rt: &impl Abort,
    heap: &Heap,
    memory: A,
    alloc: Global,
    entries: u64,
    blocks: u64,
) -> Result<(), AllocError> {
    let table = table_of(rt, memory, alloc, entries)?;
    assert_gives_back(rt, heap, table, blocks);
    Ok(())
}

#[test]
fn the_end_of_a_table(rt: HostRuntime) -> Result<(), Fail> {
    for (entries, blocks) in &TABLES {
        let heap = counted(rt.alloc());
        assert_end_of(&rt, &heap, &heap, rt.alloc(), *entries, *blocks)?;
    }
    Ok(())
}

#[test]
fn values_taken_out(rt: HostRuntime) -> Result<(), Fail> {
    for (entries, taken) in &TAKEN {
        let heap = counted(rt.alloc());
        assert_taken(&rt, &heap, &heap, rt.alloc(), *entries, *taken)?;
    }
    Ok(())
}

#[test]
fn a_request_refused(rt: HostRuntime) -> Result<(), Fail> {
    for (least, most, passing) in &REFUSED {
        let heap = Refusing::new(rt.alloc(), Rule::new(*least, *most, *passing, 1));
        assert_refused_once(&rt, &heap, &heap, rt.alloc())?;
    }
    Ok(())
}

/// Inserts a pair whose block is refused. Asserts that the table has a first generation and no entry. `Err`: no memory for the pair.
fn assert_no_entry<A: Allocator + Copy>(
    rt: &impl Abort,
    heap: &Heap,
    memory: A,
    alloc: Global,
) -> Result<(), AllocError> {
    let mut pairs = Pairs::of(memory, alloc);
    pairs.insert((1, 1))?;
    pairs.assert_size(rt, 0, 16);
    assert_blocks(rt, heap, 2, 0);
    Ok(())
}

/// Checks a table with a first generation and no entry: marks and words were granted, and the block of the entry was refused.
#[test]
fn a_generation_without_entries(rt: HostRuntime) -> Result<(), Fail> {
    let heap = Refusing::new(rt.alloc(), Rule::new(0, 31, 0, 1));
    assert_no_entry(&rt, &heap, &heap, rt.alloc())?;
    assert_blocks(&rt, &heap, 2, 2);
    Ok(())
}
