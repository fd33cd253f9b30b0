//! Single-owner sets of numbers, the raw table as such a set, and the keys of measurements.
ghost use Rattle.std.specs.Prelude.{◌≡◌, ◌<◌};
ghost use Rattle.testkit_checks.specs.Numbers.{index_of_turn};

use lock_free_hashtable::raw::HeldRawTable;
use std::alloc::{AllocError, Global};
use table_terms::law::{NumberLaw, hash_number};
use testkit::counting::asked::{hash, same};
use testkit::counting::made::Made;

/// The number of keys of a measurement.
pub const COUNT: u64 = 1_000_000;

/// The index that is looked up first.
pub const START: u64 = 12_345;

/// The distance from one looked-up index to the next one, modulo the number of keys.
pub const STRIDE: u64 = 618_033;

/// The distance from the indices of the keys to those of absent keys.
pub(crate) const ABSENT: u64 = 1 << 40;

/// Spreads 0, 1, 2, .. over all of `u64`, one to one (splitmix64).
pub fn spread(index: u64) -> u64 {
    let z = index.wrapping_add(0x9E37_79B9_7F4A_7C15);
    let z = (z ^ (z >> 30)).wrapping_mul(0xBF58_476D_1CE4_E5B9);
    let z = (z ^ (z >> 27)).wrapping_mul(0x94D0_49BB_1331_11EB);
    z ^ (z >> 31)
}

/// Returns the index that is looked up at this position. The order is a fixed permutation of 0 to `COUNT - 1`.
pub fn turn(index: u64) -> u64
    requires { index < COUNT }
    ensures below { result < COUNT }
    ensures one_to_one { index_of_turn result ≡ index }
{
    (index * STRIDE + START) % COUNT
}

/// Adds the counts of threads.
pub fn total(counts: &[u64]) -> u64 {
    counts.iter().fold(0, |sum, &count| sum.wrapping_add(count))
}

/// A set that begins empty.
pub trait Empty {
    /// Makes an empty set. `Err`: memory was refused.
    fn empty(alloc: Global) -> Result<Self, AllocError>;
}

/// A set of numbers, as one thread calls it.
pub trait KeySet {
    /// Inserts the number. Returns whether it was placed: it is new, and memory was granted.
    fn insert(&mut self, number: u64) -> bool;

    /// Returns whether the number is an entry.
    fn contains(&mut self, number: u64) -> bool;
}

/// A table of numbers.
pub trait NumberTable {
    /// The type of the values.
    type Value: Made<Target = u64>;

    /// Makes an empty table.
    fn empty(alloc: Global) -> Self;

    /// Returns whether the number is an entry.
    fn has(&self, number: u64) -> bool;
}

/// A single-owner table of numbers.
pub trait HeldTable: NumberTable {
    /// Inserts this value of the number. Returns whether it was placed: the number is new, and memory was granted.
    fn place(&mut self, number: u64, value: Self::Value) -> bool;
}

/// A table as a set of numbers, and the allocator of its values.
#[derive(Drop)]
pub struct Numbers<T> {
    pub(crate) table: T,
    pub(crate) alloc: Global,
}

impl<T: NumberTable> Empty for Numbers<T> {
    fn empty(alloc: Global) -> Result<Self, AllocError> {
        let table = T::empty(alloc);
        Ok(Numbers { table, alloc })
    }
}

impl<T: HeldTable> KeySet for Numbers<T> {
    fn insert(&mut self, number: u64) -> bool {
        match T::Value::made(self.alloc, number) {
            Some(value) => self.table.place(number, value),
            None => false,
        }
    }

    fn contains(&mut self, number: u64) -> bool {
        self.table.has(number)
    }
}

/// A raw table as a set of numbers, stored as `V`.
pub type NumberSet<V> = Numbers<HeldRawTable<V>>;

impl<V: Made<Target = u64>> NumberTable for HeldRawTable<V> {
    type Value = V;

    fn empty(alloc: Global) -> Self {
        HeldRawTable::new(alloc)
    }

    fn has(&self, number: u64) -> bool {
        self.lookup_alone::<NumberLaw, _>(hash_number(number), |entry: &u64| *entry == number)
            .is_some()
    }
}

impl<V: Made<Target = u64>> HeldTable for HeldRawTable<V> {
    fn place(&mut self, number: u64, value: V) -> bool {
        let placed = self.insert_alone::<NumberLaw, _, _>(hash_number(number), value, same, hash);
        matches!(placed, Ok((_, None)))
    }
}
