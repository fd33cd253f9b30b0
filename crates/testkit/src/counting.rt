//! What tests put into tables: values with numbers, which can count their drops.
ghost use Rattle.std.specs.Prelude.{◌≡◌};

pub mod asked;
pub mod made;
pub mod numbers;
pub mod tally;

use crate::counting::asked::{hash, same};
use std::alloc::{AllocError, Global};
use std::sync::Arc;
use std::sync::atomic::{AtomicU64, Ordering};
use table_held::runs::AloneTable;
use table_terms::law::{Law, SetLaw, hash_number};

/// A value with a number, whose drop is counted.
pub struct Counting {
    pub number: u64,
    drops: Arc<AtomicU64>,
}

impl Counting {
    /// Makes a value with this number, whose drop is counted in `drops`.
    pub fn new(number: u64, drops: Arc<AtomicU64>) -> Counting
        ensures { result.number ≡ number }
    {
        Counting { number, drops }
    }
}

/// A count of drops for each number below a bound.
#[derive(Drop)]
pub struct Drops {
    each: Vec<Arc<AtomicU64>>,
    alloc: Global,
}

impl Drops {
    /// Makes a count, which is 0, for each number below `numbers`. `Err`: memory was refused.
    pub fn new(alloc: Global, numbers: u64) -> Result<Drops, AllocError> {
        let mut each = Vec::new(alloc);
        for _number in 0..numbers {
            each.push(counter(alloc)?)?;
        }
        Ok(Drops { each, alloc })
    }

    /// Makes a value with this number, whose drop is counted if the number has a count. `Err`: memory was refused.
    pub fn value(&self, number: u64) -> Result<Counting, AllocError> {
        let drops = match self.each.get(number as usize) {
            Some(drops) => drops.clone()?,
            None => counter(self.alloc)?,
        };
        Ok(Counting::new(number, drops))
    }

    /// Makes the value that `value` makes, in a box. `Err`: memory was refused.
    pub fn counting(&self, number: u64) -> Result<Box<Counting>, AllocError> {
        Ok(Box::new(self.alloc, self.value(number)?)?)
    }

    /// Inserts a boxed value of each number below `numbers`. A value that isn't placed is dropped. `Err`: memory for a value was refused.
    pub fn place_in<B: AloneTable<Box<Counting>, CountingLaw>>(
        &self,
        table: &mut B,
        numbers: u64,
    ) -> Result<(), AllocError> {
        for number in 0..numbers {
            let value = self.counting(number)?;
            let _told = table.place_alone(hash_number(number), value, &same, &hash);
        }
        Ok(())
    }

    /// Returns how many of the numbers were dropped exactly `times` times.
    pub fn dropped(&self, times: u64) -> u64 {
        let mut count = 0u64;
        for drops in self.each.as_slice() {
            if drops.load(Ordering::SeqCst) == times {
                count = count.wrapping_add(1);
            }
        }
        count
    }

    /// Returns how many of the numbers were never dropped, and how many were dropped once.
    pub fn never_and_once(&self) -> (u64, u64) {
        (self.dropped(0), self.dropped(1))
    }

    /// Drops `first` and then `last`. Returns the counts of `never_and_once` before, between and after these drops.
    pub fn as_dropped<F: Drop, L: Drop>(&self, first: F, last: L) -> [(u64, u64); 3] {
        let with_both = self.never_and_once();
        drop(first);
        let with_last = self.never_and_once();
        drop(last);
        [with_both, with_last, self.never_and_once()]
    }
}

/// Makes a count of drops, which is 0. `Err`: memory was refused.
fn counter(alloc: Global) -> Result<Arc<AtomicU64>, AllocError> {
    Ok(Arc::new(alloc, AtomicU64::new(0))?)
}

impl Drop for Counting {
    fn drop(self) {
        let Counting { number: _, drops } = self;
        drops.fetch_add(1, Ordering::SeqCst);
    }
}

/// The law of counting values: two are equal if their numbers are.
pub struct CountingLaw {}

impl Law<Counting> for CountingLaw {
    ghost use Rattle.table_terms.specs.Laws.{same_by_number, hash_by_number, number_lawful};

    ghost same = { same_by_number (λ value. value.number) };

    ghost hash_of = { hash_by_number (λ value. value.number) };

    ghost lawful = { number_lawful (λ value. value.number) };
}

impl SetLaw<Counting> for CountingLaw {
    fn is_same(one: &Counting, other: &Counting) -> bool {
        one.number == other.number
    }

    fn hash(target: &Counting) -> u64 {
        hash_number(target.number)
    }
}
