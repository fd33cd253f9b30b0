//! A shared table of values that count their drops, and an allocator that refuses some requests. The numbers 4n to 4n + 3 are equal.
use super::numbers::{InsertEnd, insert_at};
use lock_free_hashtable::raw::{LockFreeRawTable, is_first_capacity};
use std::alloc::Global;
use std::process::Abort;
use std::sync::Wait;
use table_cell::Low;
use testkit::counting::asked::Lawful;
use testkit::counting::{Counting, Drops};
use testkit::refusing::handover::MOST_LOOKS;
use testkit::refusing::{Refusing, Rule};

/// The size in bytes of the block of an entry. No other request of a table with `CAPACITY` buckets is that small.
const BLOCK: usize = 16;

/// A first capacity at which the inserts in pairs need no growth.
const CAPACITY: usize = 1024;

/// A shared table of boxed values that count their drops.
pub(crate) type Countings<A> = LockFreeRawTable<Box<Counting>, A>;

/// A table, and how often each of its values was dropped.
#[derive(Drop)]
pub(crate) struct Counted<A: Low + Copy> {
    pub table: Countings<A>,
    pub drops: Drops,
}

impl<A: Low + Copy> Counted<A> {
    /// Inserts the number under this hash, and returns the answer.
    pub(crate) fn insert<R: Wait>(&self, rt: &R, hash: u64, number: u64) -> InsertEnd {
        match self.drops.counting(number) {
            Ok(value) => insert_at(rt, &self.table, hash, value, &Lawful::InFours),
            Err(_) => InsertEnd::Wrong,
        }
    }
}

/// Makes a heap that refuses the first block of an entry, and grants the next ones in `pairs` pairs, whose requests wait for each other.
pub(crate) fn paired(alloc: Global, pairs: u64) -> Refusing<Global> {
    Refusing::new(
        alloc,
        Rule::new(BLOCK, BLOCK, 0, 1).paired(pairs, MOST_LOOKS),
    )
}

/// Makes a table with a first generation and no entry, since this memory refuses the block of the value.
pub(crate) fn opened<R: Abort + Wait, A: Low + Copy>(
    rt: &R,
    memory: A,
    drops: Drops,
    number: u64,
) -> Counted<A> {
    assert!(rt; is_first_capacity(CAPACITY));
    let opened = Counted {
        table: LockFreeRawTable::with_first_capacity(memory, CAPACITY),
        drops,
    };
    let is_refused = opened.insert(rt, 0, number) == InsertEnd::Refused;
    let is_open = opened.table.is_empty()
        && opened.table.current(&mut opened.table.note()).is_some();
    assert!(rt; is_refused && is_open);
    opened
}
