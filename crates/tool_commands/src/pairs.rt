//! Single-owner tables of pairs. Two pairs are equal if both parts are, and the hash of a pair is its first part.
ghost use Rattle.std.specs.Prelude.{◌≡◌, ℕ, List, length, IfOk};
ghost use Rattle.tool_commands.specs.Pairs.{InsertsAsPairs, LooksUpPair, ListsNumbers};

use crate::stores::PairStore;
use std::alloc::{AllocError, Allocator};
use std::marker::Model;
use table_terms::insertion::Insertion;

/// A single-owner table of pairs, over a raw table or one over shards.
#[derive(Drop)]
pub struct PairTable<B, A: Allocator + Copy> {
    table: B,
    alloc: A,
}

impl<B, A: Allocator + Copy> Model for PairTable<B, A> {
    ghost Value = { B };

    ghost view = { λ t. t.table };
}

impl<A: Allocator + Copy, B: PairStore<A>> PairTable<B, A> {
    /// Makes a table of pairs of this table. `alloc` grants the blocks of the pairs.
    pub fn new(alloc: A, table: B) -> Self
        ensures { result ≡ table }
    {
        PairTable { table, alloc }
    }

    /// Inserts the pair, unless it is an entry. It is refused only if it is none.
    pub fn insert(&mut self, hash: u64, number: u64) -> Insertion
        ensures first { B.shows.counts.first self.new ≡ B.shows.counts.first self.old }
        ensures inserts { InsertsAsPairs B.shows self.old (hash, number) result self.new }
    {
        match self.table.place_pair(self.alloc, hash, number) {
            Ok(how) => how,
            Err(_) => match self.lookup(hash, number) {
                Some(_) => Insertion::Found,
                None => Insertion::Refused,
            },
        }
    }

    /// Returns the second part of the entry that is equal to the pair.
    pub fn lookup(&self, hash: u64, number: u64) -> Option<u64>
        ensures { (ps : List (ℕ × ℕ)) → B.shows.holds self.now ps
            → LooksUpPair ps (hash, number) result }
    {
        self.table.find_pair(hash, number)
    }

    /// Returns the number of entries, capped at the greatest that the table can report.
    pub fn length(&self) -> usize
        ensures { (ps : List (ℕ × ℕ)) → B.shows.holds self.now ps
            → result ≡ B.shows.counts.told (length ps) }
    {
        self.table.count()
    }

    /// Returns the number of buckets of the current generations.
    pub fn capacity(&self) -> usize
        ensures current { result ≡ B.shows.counts.capacity self.now }
        ensures doubled { B.shows.counts.doubled self.now }
    {
        self.table.capacity()
    }

    /// Returns the number of buckets of all generations.
    pub fn buckets(&self) -> usize
        ensures all { result ≡ B.shows.counts.buckets self.now }
        ensures few { B.shows.counts.few self.now }
    {
        self.table.buckets()
    }

    /// Returns the second parts of all entries, in ascending order. An `Err` means that memory was refused.
    pub fn numbers(&self) -> Result<Vec<u64, A>, AllocError>
        ensures { IfOk result (λ numbers. (ps : List (ℕ × ℕ)) → B.shows.holds self.now ps
            → ListsNumbers ps numbers.items) }
    {
        let mut numbers = Vec::with_capacity(self.alloc, self.table.count())?;
        self.table.push_numbers(&mut numbers)?;
        numbers.sort_unstable();
        Ok(numbers)
    }
}
