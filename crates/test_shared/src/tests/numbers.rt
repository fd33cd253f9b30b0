//! Calls on tables that threads share, whose values have numbers.
use lock_free_hashtable::AtomicValue;
use lock_free_hashtable::raw::{LockFreeRawTable, Low};
use std::alloc::{AllocError, Allocator, Global};
use std::fmt::Debug;
use std::process::Abort;
use std::sync::Wait;
use testkit::counting::asked::{Asked, Lawful, Numbered};
use testkit::counting::made::Made;
pub(crate) use testkit::counting::numbers::{InsertEnd, Inserts, Numbers};

/// Inserts the value under this hash. Returns the answer, and the entry that the insert returns.
pub(crate) fn insert_and_show<'a, R: Wait, T: AtomicValue, A: Low + Copy, L: Asked>(
    rt: &R,
    table: &'a LockFreeRawTable<T, A>,
    hash: u64,
    value: T,
    asked: &L,
) -> (InsertEnd, Option<&'a T::Target>)
where
    T::Target: Numbered,
{
    let target = value.deref();
    let number = target.number();
    match table.insert(
        rt,
        hash,
        value,
        |new: &T::Target, entry: &T::Target| asked.agrees(new.number(), entry.number()),
        |entry: &T::Target| asked.hash(entry.number()),
    ) {
        Ok((shown, None)) if shown.number() == number => (InsertEnd::Placed, Some(shown)),
        Ok((shown, Some(back)))
            if asked.agrees(number, shown.number()) && back.deref().number() == number => (
            InsertEnd::Found,
            Some(shown),
        ),
        Err(back) if back.deref().number() == number => (InsertEnd::Refused, None),
        _ => (InsertEnd::Wrong, None),
    }
}

/// Inserts the value under this hash, and returns the answer.
pub(crate) fn insert_at<R: Wait, T: AtomicValue, A: Low + Copy, L: Asked>(
    rt: &R,
    table: &LockFreeRawTable<T, A>,
    hash: u64,
    value: T,
    asked: &L,
) -> InsertEnd
where
    T::Target: Numbered,
{
    let (answer, _shown) = insert_and_show(rt, table, hash, value, asked);
    answer
}

/// Returns the target with this number that a look-up under this hash finds.
pub(crate) fn shown<T: AtomicValue, A: Allocator + Copy>(
    table: &LockFreeRawTable<T, A>,
    hash: u64,
    number: u64,
) -> Option<&T::Target>
where
    T::Target: Numbered,
{
    table.lookup(hash, |entry: &T::Target| entry.number() == number)
}

/// A shared table of values that are made of numbers.
#[derive(Drop)]
pub(crate) struct Shared<T: AtomicValue, A: Allocator + Copy = Global> {
    pub table: LockFreeRawTable<T, A>,
    lawful: Lawful,
    alloc: Global,
}

/// A shared table of boxed numbers.
pub(crate) type Boxed<A> = Shared<Box<u64>, A>;

impl<T: AtomicValue, A: Allocator + Copy> Shared<T, A> {
    /// Makes an empty table that requests its memory from `memory`.
    pub(crate) fn new(memory: A, alloc: Global, lawful: Lawful) -> Self {
        Shared::of(LockFreeRawTable::new(memory), alloc, lawful)
    }

    /// Wraps the table.
    pub(crate) fn of(table: LockFreeRawTable<T, A>, alloc: Global, lawful: Lawful) -> Self {
        Shared {
            table,
            lawful,
            alloc,
        }
    }

    /// Returns the length, the number of entries that an iterator yields, and the number of buckets of the current generation.
    pub(crate) fn size(&self) -> [u64; 3] {
        let buckets = match self.table.current(&mut self.table.note()) {
            Some(current) => current.generation.capacity(),
            None => 0,
        };
        [
            self.table.len() as u64,
            walk_length(&self.table),
            buckets as u64,
        ]
    }
}

/// Returns how many entries an iterator yields.
pub(crate) fn walk_length<T: AtomicValue, A: Allocator + Copy>(
    table: &LockFreeRawTable<T, A>,
) -> u64 {
    table.iter().count() as u64
}

impl<T: Made, A: Low + Copy> Shared<T, A>
where
    T::Target: Numbered,
{
    /// Inserts the number with the closures of `asked`, and returns the answer.
    pub(crate) fn insert_asking<R: Wait, L: Asked>(
        &self,
        rt: &R,
        number: u64,
        asked: &L,
    ) -> InsertEnd {
        match T::made(self.alloc, number) {
            Some(value) => insert_at(rt, &self.table, self.lawful.hash(number), value, asked),
            None => InsertEnd::Wrong,
        }
    }
}

impl<T: Made, A: Low + Copy> Inserts for Shared<T, A>
where
    T::Target: Numbered,
{
    fn insert<R: Wait>(&self, rt: &R, number: u64) -> InsertEnd {
        self.insert_asking(rt, number, &self.lawful)
    }
}

impl<T: Made, A: Low + Copy> Numbers for Shared<T, A>
where
    T::Target: Numbered,
{
    fn contains(&self, number: u64) -> bool {
        match shown(&self.table, self.lawful.hash(number), number) {
            Some(found) => found.number() == number,
            None => false,
        }
    }

    fn length(&self) -> (u64, bool) {
        (self.table.len() as u64, self.table.is_empty())
    }

    fn walked(&self) -> Result<Vec<u64>, AllocError> {
        let mut numbers = Vec::new(self.alloc);
        for entry in self.table.iter() {
            numbers.push(entry.number())?;
        }
        Ok(numbers)
    }
}

/// Returns the numbers of the values that the owning iterator yields. `Err`: no memory.
pub(crate) fn handed<T: AtomicValue, A: Allocator + Copy>(
    table: LockFreeRawTable<T, A>,
    alloc: Global,
) -> Result<Vec<u64>, AllocError>
where
    T::Target: Numbered,
{
    let mut numbers = Vec::new(alloc);
    for value in table {
        numbers.push(value.deref().number())?;
    }
    Ok(numbers)
}

/// Asserts that `seen` equals `expected`.
pub(crate) fn assert_same<X: PartialEq + Debug + Drop>(rt: &impl Abort, seen: X, expected: X) {
    assert_eq!(rt; seen, expected);
}

/// Inserts the number, and asserts that the answer is the expected one.
pub(crate) fn assert_insert<R: Abort + Wait, T: Inserts>(
    rt: &R,
    table: &T,
    number: u64,
    expected: InsertEnd,
) {
    assert_eq!(rt; table.insert(rt, number), expected, "{number}");
}
