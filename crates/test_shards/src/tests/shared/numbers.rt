//! Calls on tables over shards, in which values are equal if their numbers are.
use crate::tests::assert_same;
use lock_free_hashtable::AtomicValue;
use lock_free_hashtable::sharded::ShardedLockFreeRawTable;
use std::alloc::{AllocError, Allocator, Global};
use std::process::Abort;
use std::sync::Wait;
use table_cell::Low;
use table_terms::law::hash_number;
use testkit::counting::asked;
use testkit::counting::asked::Numbered;
use testkit::counting::numbers::{count_first, insert_end};
pub(crate) use testkit::counting::numbers::{InsertEnd, Inserts, Numbers};

/// A table of boxed numbers over `SHARDS` shards.
pub(crate) type Table<const SHARDS: usize, A> = ShardedLockFreeRawTable<Box<u64>, SHARDS, A>;

/// Inserts the value under this hash, and returns the answer. Values are equal if their numbers are.
pub(crate) fn insert_at<R: Wait, T: AtomicValue, const SHARDS: usize, A: Low + Copy>(
    rt: &R,
    table: &ShardedLockFreeRawTable<T, SHARDS, A>,
    hash: u64,
    value: T,
) -> InsertEnd
where
    T::Target: Numbered,
{
    let number = value.deref().number();
    let (eq, hash_fn) = (asked::same::<T::Target>, asked::hash::<T::Target>);
    insert_end(table.insert(rt, hash, value, eq, hash_fn), number)
}

/// A table of boxed numbers, each under its own hash, over any number of shards and any allocator.
pub(crate) trait OverShards {
    /// Inserts the number in a box of `alloc`, and returns the answer.
    fn insert_of<R: Wait>(&self, rt: &R, alloc: Global, number: u64) -> InsertEnd;

    /// Returns whether a look-up finds the number.
    fn has(&self, number: u64) -> bool;

    /// Returns the length of the table, and whether it reports that it is empty.
    fn counted(&self) -> (u64, bool);

    /// Returns the numbers that an iterator by reference yields. `Err`: no memory.
    fn shown(&self, alloc: Global) -> Result<Vec<u64>, AllocError>;
}

impl<const SHARDS: usize, A: Low + Copy> OverShards
    for ShardedLockFreeRawTable<Box<u64>, SHARDS, A> {
    fn insert_of<R: Wait>(&self, rt: &R, alloc: Global, number: u64) -> InsertEnd {
        match Box::new(alloc, number) {
            Ok(value) => insert_at(rt, self, hash_number(number), value),
            Err(_) => InsertEnd::Wrong,
        }
    }

    fn has(&self, number: u64) -> bool {
        match self.lookup(hash_number(number), |entry: &u64| *entry == number) {
            Some(found) => *found == number,
            None => false,
        }
    }

    fn counted(&self) -> (u64, bool) {
        (self.len() as u64, self.is_empty())
    }

    fn shown(&self, alloc: Global) -> Result<Vec<u64>, AllocError> {
        let mut numbers = Vec::new(alloc);
        for number in self.iter() {
            numbers.push(*number)?;
        }
        Ok(numbers)
    }
}

/// A table over shards, and the allocator of the boxes.
#[derive(Drop)]
pub(crate) struct Sharded<'a, T> {
    pub table: &'a T,
    pub alloc: Global,
}

impl<'a, T: OverShards> Inserts for Sharded<'a, T> {
    fn insert<R: Wait>(&self, rt: &R, number: u64) -> InsertEnd {
        self.table.insert_of(rt, self.alloc, number)
    }
}

impl<'a, T: OverShards> Numbers for Sharded<'a, T> {
    fn contains(&self, number: u64) -> bool {
        self.table.has(number)
    }

    fn length(&self) -> (u64, bool) {
        self.table.counted()
    }

    fn walked(&self) -> Result<Vec<u64>, AllocError> {
        self.table.shown(self.alloc)
    }
}

/// Asserts that the owning iterator yields the numbers below `count`, each once, and stays at its end. `Err`: no memory.
pub(crate) fn assert_handed(
    rt: &impl Abort,
    table: Table<8, Global>,
    alloc: Global,
    count: u64,
) -> Result<(), AllocError> {
    let mut handed = Vec::new(alloc);
    let mut values = table.into_iter();
    while let Some(value) = values.next() {
        handed.push(*value)?;
    }
    let stays = values.next().is_none();
    let (length, first) = count_first(handed);
    assert_same(rt, [length, first, u64::from(stays)], [count, count, 1]);
    Ok(())
}
