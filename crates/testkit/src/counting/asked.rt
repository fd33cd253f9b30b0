//! Values that are compared and hashed by a number, and answers of the closures that compare and hash them.
use crate::counting::Counting;
use std::num::{NonZeroU32, NonZeroU64};
use table_terms::law::hash_number;

/// A target with a number. Tests put values with such targets into tables.
pub trait Numbered {
    /// Returns the number by which the target is compared and hashed.
    fn number(&self) -> u64;
}

impl Numbered for u64 {
    fn number(&self) -> u64 {
        *self
    }
}

impl Numbered for u32 {
    fn number(&self) -> u64 {
        u64::from(*self)
    }
}

impl Numbered for u16 {
    fn number(&self) -> u64 {
        u64::from(*self)
    }
}

/// The value 1 has number 0.
impl Numbered for NonZeroU64 {
    fn number(&self) -> u64 {
        self.get().wrapping_sub(1)
    }
}

/// The value 1 has number 0.
impl Numbered for NonZeroU32 {
    fn number(&self) -> u64 {
        u64::from(self.get()).wrapping_sub(1)
    }
}

impl Numbered for Counting {
    fn number(&self) -> u64 {
        self.number
    }
}

/// Returns whether the new target and the entry have the same number.
pub fn same<N: Numbered>(new: &N, entry: &N) -> bool {
    new.number() == entry.number()
}

/// Returns the hash of the entry's number.
pub fn hash<N: Numbered>(entry: &N) -> u64 {
    hash_number(entry.number())
}

/// The results of a caller's closures, by the numbers of the targets.
pub trait Asked {
    /// Returns whether the new target is equal to the entry. By default each number is equal only to itself.
    fn agrees(&self, new: u64, entry: u64) -> bool {
        new == entry
    }

    /// Returns the hash of the target with this number.
    fn hash(&self, number: u64) -> u64;
}

/// Closures whose results keep a law.
#[derive(Clone, Copy)]
pub enum Lawful {
    /// Each number is equal only to itself. Its hash is its `hash_number`.
    Spread,
    /// Each number is equal only to itself. Its hash is five times the number: in a generation of sixteen buckets, sixteen numbers in a row
    /// have different first buckets.
    ByFives,
    /// Numbers are equal if their quotients by 4 are. The hash is the `hash_number` of the quotient.
    InFours,
    /// Each number is equal only to itself. All numbers have this hash.
    At(u64),
    /// Each number is equal only to itself. A number below 15 is its own hash. All others have the hash 0.
    FromTheFirst,
}

impl Asked for Lawful {
    fn agrees(&self, new: u64, entry: u64) -> bool {
        match self {
            Lawful::InFours => new / 4 == entry / 4,
            _ => new == entry,
        }
    }

    fn hash(&self, number: u64) -> u64 {
        match *self {
            Lawful::Spread => hash_number(number),
            Lawful::ByFives => number.wrapping_mul(5),
            Lawful::InFours => hash_number(number / 4),
            Lawful::At(hash) => hash,
            Lawful::FromTheFirst if number < 15 => number,
            Lawful::FromTheFirst => 0,
        }
    }
}
