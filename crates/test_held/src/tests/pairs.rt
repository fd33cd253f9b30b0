//! Calls on tables of pairs. The first part of a pair is its hash.
use super::assert_same;
use std::alloc::{AllocError, Allocator, Global};
use std::cell::Cell;
use std::ops::Range;
use std::process::Abort;
use table_held::raw::HeldRawTable;
use table_terms::law::PairLaw;

/// Two numbers. The first is the hash of the pair if the closures are lawful.
pub type Pair = (u64, u64);

/// The answer to an insert: the entry that it refers to, if any, and the pair that it returns, if any.
#[derive(Clone, Copy, PartialEq)]
pub enum PairAnswer {
    Placed(Pair),
    Found(Pair, Pair),
    Refused(Pair),
}

/// How an insert ends.
#[derive(Clone, Copy)]
pub enum End {
    Placed,
    Found,
    Refused,
}

/// Which pairs `eq` accepts as equal.
#[derive(Clone, Copy)]
pub enum Equality {
    Lawful,
    Never,
    Always,
}

/// Which hash `hash_fn` returns for a pair.
#[derive(Clone, Copy)]
pub enum Hashing {
    Lawful,
    Fixed(u64),
    /// The number of calls of `hash_fn` so far.
    Anew,
}

/// The closures of a call: what they return, and how often each was called.
#[derive(Drop)]
pub struct Closures {
    equality: Equality,
    hashing: Hashing,
    eq_asks: Cell<u64>,
    hash_asks: Cell<u64>,
}

/// Adds one to a count.
fn count(asks: &Cell<u64>) {
    asks.set(asks.get().wrapping_add(1));
}

impl Closures {
    pub fn new(equality: Equality, hashing: Hashing) -> Closures {
        Closures {
            equality,
            hashing,
            eq_asks: Cell::new(0),
            hash_asks: Cell::new(0),
        }
    }

    pub fn lawful() -> Closures {
        Closures::new(Equality::Lawful, Hashing::Lawful)
    }

    /// Returns how often `eq` or the test of a look-up was called.
    pub fn eq_asks(&self) -> u64 {
        self.eq_asks.get()
    }

    /// Returns how often `hash_fn` was called.
    pub fn hash_asks(&self) -> u64 {
        self.hash_asks.get()
    }

    fn eq(&self, a: &Pair, b: &Pair) -> bool {
        count(&self.eq_asks);
        match self.equality {
            Equality::Lawful => a == b,
            Equality::Never => false,
            Equality::Always => true,
        }
    }

    fn hash(&self, pair: &Pair) -> u64 {
        count(&self.hash_asks);
        match self.hashing {
            Hashing::Lawful => pair.0,
            Hashing::Fixed(hash) => hash,
            Hashing::Anew => self.hash_asks.get(),
        }
    }
}

/// Returns the answer to an insert of the pair `(number, number)` that ends as `end`.
pub fn answer_of(number: u64, end: End) -> PairAnswer {
    let pair = (number, number);
    match end {
        End::Placed => PairAnswer::Placed(pair),
        End::Found => PairAnswer::Found(pair, pair),
        End::Refused => PairAnswer::Refused(pair),
    }
}

/// A table of boxed pairs, and the allocator of the boxes.
#[derive(Drop)]
pub struct Pairs<A: Allocator + Copy = Global> {
    pub table: HeldRawTable<Box<Pair>, A>,
    alloc: Global,
}

impl Pairs<Global> {
    /// Makes an empty table over the global allocator.
    pub fn new(alloc: Global) -> Self {
        Pairs::of(alloc, alloc)
    }
}

impl<A: Allocator + Copy> Pairs<A> {
    /// Makes an empty table that requests its memory from `memory`.
    pub fn of(memory: A, alloc: Global) -> Self {
        Pairs {
            table: HeldRawTable::new(memory),
            alloc,
        }
    }

    /// Inserts the pair under the hash `given`, and returns the answer. `Err`: no memory for the box of the pair.
    pub fn insert_by(
        &mut self,
        closures: &Closures,
        given: u64,
        pair: Pair,
    ) -> Result<PairAnswer, AllocError> {
        let value = Box::new(self.alloc, pair)?;
        Ok(
            match self.table.insert_alone::<PairLaw, _, _>(
                given,
                value,
                |a: &Pair, b: &Pair| closures.eq(a, b),
                |a: &Pair| closures.hash(a),
            ) {
                Ok((shown, None)) => PairAnswer::Placed(*shown),
                Ok((shown, Some(back))) => PairAnswer::Found(*shown, *back),
                Err(back) => PairAnswer::Refused(*back),
            },
        )
    }

    /// Inserts the pair under its own hash with lawful closures, and returns the answer. `Err`: no memory for the box of the pair.
    pub fn insert(&mut self, pair: Pair) -> Result<PairAnswer, AllocError> {
        self.insert_by(&Closures::lawful(), pair.0, pair)
    }

    /// Returns the entry that a look-up of the pair under the hash `given` finds.
    pub fn lookup_by(&self, closures: &Closures, given: u64, pair: Pair) -> Option<Pair> {
        self.table
            .lookup_alone::<PairLaw, _>(given, |entry: &Pair| closures.eq(entry, &pair))
            .copied()
    }

    /// Asserts that the insert of the pair under the hash `given` has the expected answer. `Err`: no memory for the box of the pair.
    pub fn assert_insert_by(
        &mut self,
        rt: &impl Abort,
        closures: &Closures,
        given: u64,
        pair: Pair,
        expected: PairAnswer,
    ) -> Result<(), AllocError> {
        let answer = self.insert_by(closures, given, pair)?;
        assert!(rt; answer == expected, "{} at {given}", pair.1);
        Ok(())
    }

    /// Asserts that the insert of the pair with lawful closures has the expected answer. `Err`: no memory for the box of the pair.
    pub fn assert_insert(
        &mut self,
        rt: &impl Abort,
        pair: Pair,
        expected: PairAnswer,
    ) -> Result<(), AllocError> {
        self.assert_insert_by(rt, &Closures::lawful(), pair.0, pair, expected)
    }

    /// Asserts that the insert of the pair `(number, number)` ends as `end`, with this pair in its answer. `Err`: no memory for the box.
    pub fn assert_end(&mut self, rt: &impl Abort, number: u64, end: End) -> Result<(), AllocError> {
        self.assert_insert(rt, (number, number), answer_of(number, end))
    }

    /// Places the pair of each number, and asserts `number + 1` entries and this capacity after it. `Err`: no memory for a box.
    pub fn assert_placed(
        &mut self,
        rt: &impl Abort,
        numbers: Range<u64>,
        capacity: usize,
    ) -> Result<(), AllocError> {
        for number in numbers {
            self.assert_end(rt, number, End::Placed)?;
            self.assert_size(rt, (number as usize).saturating_add(1), capacity);
        }
        Ok(())
    }

    /// Asserts how many entries the table has, and how many buckets its current generation has.
    pub fn assert_size(&self, rt: &impl Abort, entries: usize, capacity: usize) {
        let size = (self.table.len_alone(), self.table.capacity_alone());
        assert_same(rt, size, (entries, capacity));
    }

    /// Asserts what a look-up of the pair under the hash `given` finds.
    pub fn assert_shown_at(&self, rt: &impl Abort, given: u64, pair: Pair, expected: Option<Pair>) {
        let shown = self.lookup_by(&Closures::lawful(), given, pair);
        assert!(rt; shown == expected, "{} at {given}", pair.1);
    }

    /// Asserts that a look-up finds the pair if `is_entry`, and nothing if not.
    pub fn assert_shown(&self, rt: &impl Abort, pair: Pair, is_entry: bool) {
        let expected = if is_entry { Some(pair) } else { None };
        self.assert_shown_at(rt, pair.0, pair, expected);
    }
}
