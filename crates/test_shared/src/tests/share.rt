//! Tests of a single-owner table that becomes shared: its entries, buckets that are set through `&` later, and the drops of its values.
use super::numbers::assert_same;
use lock_free_hashtable::raw::{HeldRawTable, LockFreeRawTable, Share};
use std::alloc::{AllocError, Global};
use std::process::Abort;
use std::test::Fail;
use table_cell::{Low, Missed};
use table_generations::fixed::shared::Look;
use table_terms::law::hash_number;
use table_terms::probe::bits_of_hash;
use testkit::counting::numbers::count_first;
use testkit::counting::{Counting, Drops};
use testkit::refusing::{Refusing, Rule};

type Held<A> = HeldRawTable<Box<Counting>, A>;

type Shared<A> = LockFreeRawTable<Box<Counting>, A>;

/// The number of entries of a single-owner table, and how many values are set through `&` after it became shared.
type Sizes = (u64, u64);

const TABLES: [Sizes; 6] = [(0, 0), (1, 0), (1, 1), (7, 9), (20, 0), (40, 24)];

/// Makes a single-owner table of the first `entries` numbers. `Err`: no memory.
fn held<A: Low + Copy>(memory: A, entries: u64, drops: &Drops) -> Result<Held<A>, AllocError> {
    let mut table = HeldRawTable::new(memory);
    drops.place_in(&mut table, entries)?;
    Ok(table)
}

/// Sets the first vacant bucket of the current generation to the value. Returns whether there was one and it was set.
fn sets<A: Low + Copy>(table: &Shared<A>, value: Box<Counting>) -> bool {
    let Some(current) = table.current(&mut table.note()) else {
        return false;
    };
    let generation = current.generation;
    let hash = hash_number(value.number);
    let bits = bits_of_hash(hash);
    for index in 0..generation.capacity() {
        let mut note = generation.note_at(index);
        if let Look::Vacant = generation.look_at(table.home(), index, bits, &mut note) {
            return match generation.place_at(table.home(), index, value, bits, &mut note) {
                Ok(entry) => entry.bits == bits,
                Err(Missed::Taken(_, _)) => false,
                Err(Missed::NoMemory(_)) => false,
            };
        }
    }
    false
}

/// Sets buckets through `&` to the numbers from `from` up to `to`, exclusive. Returns how many were set. `Err`: no memory.
fn set_more<A: Low + Copy>(
    table: &Shared<A>,
    from: u64,
    to: u64,
    drops: &Drops,
) -> Result<u64, AllocError> {
    let mut set = 0u64;
    for number in from..to {
        let value = drops.counting(number)?;
        set = set.wrapping_add(u64::from(sets(table, value)));
    }
    Ok(set)
}

/// Returns the numbers that an iterator by reference yields. `Err`: no memory.
fn walked<A: Low + Copy>(table: &Shared<A>, alloc: Global) -> Result<Vec<u64>, AllocError> {
    let mut seen = Vec::new(alloc);
    for entry in table {
        seen.push(entry.number)?;
    }
    Ok(seen)
}

/// Asserts that these are the first `numbers` numbers, each once.
fn assert_first(rt: &impl Abort, seen: Vec<u64>, numbers: u64) {
    let (length, first) = count_first(seen);
    assert_same(rt, [length, first], [numbers, numbers]);
}

/// Returns the length of the owning iterator, whether it stays at its end, and the numbers that it yields. `Err`: no memory.
fn handed_to_the_end<A: Low + Copy>(
    table: Shared<A>,
    alloc: Global,
) -> Result<(u64, bool, Vec<u64>), AllocError> {
    let mut seen = Vec::new(alloc);
    let mut values = table.into_iter();
    let length = values.len() as u64;
    while let Some(value) = values.next() {
        seen.push(value.number)?;
    }
    Ok((length, values.next().is_none(), seen))
}

/// If `is_handed`, asserts that the owning iterator yields the first `numbers` numbers. Otherwise drops the table. `Err`: no memory.
fn assert_ended<A: Low + Copy>(
    rt: &impl Abort,
    table: Shared<A>,
    alloc: Global,
    numbers: u64,
    is_handed: bool,
) -> Result<(), AllocError> {
    if is_handed {
        let (length, stays, seen) = handed_to_the_end(table, alloc)?;
        assert_same(rt, [length, u64::from(stays)], [numbers, 1]);
        assert_first(rt, seen, numbers);
    }
    Ok(())
}

/// Shares a table of `entries` entries, sets `more` values through `&`, and ends the table. Asserts that each value is an entry and is
/// dropped once, and that only the set values request memory. The heap counts the requests of the memory. `Err`: no memory.
fn assert_shared<A: Low + Copy>(
    rt: &impl Abort,
    alloc: Global,
    heap: &Refusing<Global>,
    memory: A,
    (entries, more): Sizes,
    is_handed: bool,
) -> Result<(), AllocError> {
    let all = entries.wrapping_add(more);
    let drops = Drops::new(alloc, all)?;
    let held = held(memory, entries, &drops)?;
    let before = heap.granted();
    let table = held.share();
    let (length, is_empty) = (table.len() as u64, table.is_empty());
    let set = set_more(&table, entries, all, &drops)?;
    assert_first(rt, walked(&table, alloc)?, all);
    assert_same(
        rt,
        [length, u64::from(is_empty), set, drops.dropped(0)],
        [entries, u64::from(entries == 0), more, all],
    );
    assert_ended(rt, table, alloc, all, is_handed)?;
    assert_same(
        rt,
        [drops.dropped(1), heap.granted(), heap.given_back()],
        [all, before.wrapping_add(more), heap.granted()],
    );
    Ok(())
}

#[test]
fn a_shared_table_shows_and_hands_out_each_value_once(rt: HostRuntime) -> Result<(), Fail> {
    for sizes in &TABLES {
        for is_handed in [true, false] {
            let heap = Refusing::new(rt.alloc(), Rule::new(0, 0, 0, 0));
            assert_shared(&rt, rt.alloc(), &heap, &heap, *sizes, is_handed)?;
        }
    }
    Ok(())
}
