//! The operations of tables of boxed pairs that differ between a raw table and one over shards.
ghost use Rattle.std.specs.Prelude.{◌≡◌, ℕ, ◌++◌, List, [], map, OnOk};
ghost use Rattle.std.specs.Int.{IsPowerOfTwo};
ghost use Rattle.std.specs.Borrow.{Bor};
ghost use Rattle.std.specs.Iterator.{Drains, IsFinite};
ghost use Rattle.table_held.specs.Table.{empty_table};
ghost use Rattle.table_shards.specs.Shards.{empty_shards};
ghost use Rattle.table_terms.specs.Capacities.{IsFirstCapacity};
ghost use Rattle.table_terms.specs.Laws.{same_pair, pair_hash};
ghost use Rattle.tool_commands.specs.Pairs.{HoldsPairs, LooksUpPair, raw_pairs, sharded_pairs, insertion_of as insertion_told};

use std::alloc::{AllocError, Allocator};
use std::marker::Model;
use table_held::alone::AloneTable;
use table_held::raw::HeldRawTable;
use table_shards::sharded::HeldShardedTable;
use table_terms::insertion::Insertion;
use table_terms::law::PairLaw;

/// A value of the table: a pair in a heap block.
pub type Boxed<A> = Box<(u64, u64), A>;

/// A single-owner table of boxed pairs.
pub trait PairStore<A: Allocator + Copy> {
    ghost use Rattle.std.specs.Prelude.{length, IfOk, OnErr};
    ghost use Rattle.tool_commands.specs.Pairs.{ShowsPairs, InsertsAsPairs, AppendsNumbers};

    ghost shows: { ShowsPairs Self };

    /// Inserts the pair, unless an entry is equal. An `Err` means that memory for the pair's block was refused; the table is
    /// unchanged.
    fn place_pair(&mut self, alloc: A, hash: u64, number: u64) -> Result<Insertion, AllocError>
        ensures first { shows.counts.first self.new ≡ shows.counts.first self.old }
        ensures inserts { IfOk result (λ how. InsertsAsPairs shows self.old (hash, number) how
            self.new) }
        ensures unchanged { OnErr result (self.new ≡ self.old) };

    /// Returns the second part of the entry that is equal to the pair.
    fn find_pair(&self, hash: u64, number: u64) -> Option<u64>
        ensures { (ps : List (ℕ × ℕ)) → shows.holds self.now ps
            → LooksUpPair ps (hash, number) result };

    /// Returns the number of entries, capped at the greatest that the table can report.
    fn count(&self) -> usize
        ensures { (ps : List (ℕ × ℕ)) → shows.holds self.now ps
            → result ≡ shows.counts.told (length ps) };

    /// Returns the number of buckets of the current generations.
    fn capacity(&self) -> usize
        ensures current { result ≡ shows.counts.capacity self.now }
        ensures doubled { shows.counts.doubled self.now };

    /// Returns the number of buckets of all generations.
    fn buckets(&self) -> usize
        ensures all { result ≡ shows.counts.buckets self.now }
        ensures few { shows.counts.few self.now };

    /// Appends the second parts of all entries, in any order. An `Err` means that memory was refused.
    fn push_numbers(&self, numbers: &mut Vec<u64, A>) -> Result<(), AllocError>
        ensures { OnOk result (AppendsNumbers shows self.now numbers.old.items numbers.new.items) };
}

/// Returns whether the pairs are equal.
fn is_same(new: &(u64, u64), entry: &(u64, u64)) -> bool
    ensures { result ≡ same_pair new.now entry.now }
{
    new.0 == entry.0 && new.1 == entry.1
}

/// Returns the hash of a pair.
fn hash_pair(pair: &(u64, u64)) -> u64
    ensures { result ≡ pair_hash pair.now }
{
    pair.0
}

/// Converts the result of an insert.
fn insertion_of<P: Copy, T: Drop>(placed: Result<(P, Option<T>), T>) -> Insertion
    ensures { result ≡ insertion_told placed }
{
    match placed {
        Ok((_, None)) => Insertion::Placed,
        Ok((_, Some(_))) => Insertion::Found,
        Err(_) => Insertion::Refused,
    }
}

/// Returns the second part of the entry that is equal to the pair.
fn find<A: Allocator + Copy, B: AloneTable<Boxed<A>, PairLaw>>(
    table: &B,
    hash: u64,
    number: u64,
) -> Option<u64>
    ensures { (ps : List (ℕ × ℕ)) → HoldsPairs B.shows (λ b. b.value) table.now ps
        → LooksUpPair ps (hash, number) result }
{
    let entry = table.lookup_alone(
        hash,
        |entry: &(u64, u64)|
            ensures { result ≡ same_pair (hash, number) entry.now }
        { entry.0 == hash && entry.1 == number },
    )?;
    Some(entry.1)
}

/// Appends the second parts of the pairs of an iterator. An `Err` means that memory was refused.
fn push_seconds<'a, A: Allocator + Copy, W: Iterator<Item = &'a (u64, u64)> + Drop>(
    walk: W,
    numbers: &mut Vec<u64, A>,
) -> Result<(), AllocError>
    requires can { W.can_next walk }
    requires ends { IsFinite (W.remaining walk) }
    ensures { OnOk result ((pairs : List (Bor (ℕ × ℕ))) × Drains W.next_gives walk pairs
        × (numbers.new.items ≡ numbers.old.items ++ map (λ p. p.now.1) pairs)) }
{
    for pair in walk {
        numbers.push(pair.1)?;
    }
    Ok(())
}

/// A raw table of pairs.
#[derive(Drop)]
pub struct RawPairs<A: Allocator + Copy> {
    table: HeldRawTable<Boxed<A>, A>,
}

impl<A: Allocator + Copy> Model for RawPairs<A> {
    ghost use Rattle.std.specs.Prelude.{ℕ};
    ghost use Rattle.std.specs.declared.boxed.Box.{Box};
    ghost use Rattle.table_held.specs.Table.{HeldTable};

    ghost Value = { HeldTable (Box (ℕ × ℕ) A) };

    ghost view = { λ t. t.table };
}

impl<A: Allocator + Copy> RawPairs<A> {
    /// Makes an empty table, whose first generation will have `first` buckets. Does not allocate.
    pub fn new(alloc: A, first: usize) -> Self
        requires { IsFirstCapacity first }
        ensures empty { raw_pairs.holds result [] }
        ensures new { result ≡ empty_table first }
    {
        RawPairs {
            table: HeldRawTable::with_first_capacity(alloc, first),
        }
    }
}

impl<A: Allocator + Copy> PairStore<A> for RawPairs<A> {
    ghost use Rattle.tool_commands.specs.Pairs.{raw_pairs};

    ghost shows = { raw_pairs };

    fn place_pair(&mut self, alloc: A, hash: u64, number: u64) -> Result<Insertion, AllocError> {
        let pair = Box::new(alloc, (hash, number))?;
        let placed = self
            .table
            .place_alone::<PairLaw, _, _>(hash, pair, &is_same, &hash_pair);
        Ok(insertion_of(placed))
    }

    fn find_pair(&self, hash: u64, number: u64) -> Option<u64> {
        find(&self.table, hash, number)
    }

    fn count(&self) -> usize {
        self.table.len_alone()
    }

    fn capacity(&self) -> usize {
        self.table.capacity_alone()
    }

    fn buckets(&self) -> usize {
        self.table.buckets_alone()
    }

    fn push_numbers(&self, numbers: &mut Vec<u64, A>) -> Result<(), AllocError> {
        push_seconds(self.table.iter_alone(), numbers)
    }
}

/// A table of pairs over `SHARDS` shards. A pair lies in the shard of its hash.
#[derive(Drop)]
pub struct ShardedPairs<const SHARDS: usize, A: Allocator + Copy> {
    table: HeldShardedTable<Boxed<A>, SHARDS, A>,
}

impl<const SHARDS: usize, A: Allocator + Copy> Model for ShardedPairs<SHARDS, A> {
    ghost use Rattle.std.specs.Prelude.{ℕ, List};
    ghost use Rattle.std.specs.declared.boxed.Box.{Box};
    ghost use Rattle.table_held.specs.Table.{HeldTable};

    ghost Value = { List (HeldTable (Box (ℕ × ℕ) A)) };

    ghost view = { λ t. t.table };
}

impl<const SHARDS: usize, A: Allocator + Copy> ShardedPairs<SHARDS, A> {
    /// Makes an empty table. The first generation of each shard will have `first` buckets. Does not allocate.
    pub fn new(alloc: A, first: usize) -> Self
        requires shards { IsPowerOfTwo SHARDS }
        requires first { IsFirstCapacity first }
        ensures empty { sharded_pairs.holds result [] }
        ensures new { result ≡ empty_shards SHARDS first }
    {
        ShardedPairs {
            table: HeldShardedTable::with_first_capacity(alloc, first),
        }
    }
}

impl<const SHARDS: usize, A: Allocator + Copy> PairStore<A> for ShardedPairs<SHARDS, A> {
    ghost use Rattle.tool_commands.specs.Pairs.{sharded_pairs};

    ghost shows = { sharded_pairs };

    fn place_pair(&mut self, alloc: A, hash: u64, number: u64) -> Result<Insertion, AllocError> {
        let pair = Box::new(alloc, (hash, number))?;
        let placed = self
            .table
            .place_alone::<PairLaw, _, _>(hash, pair, &is_same, &hash_pair);
        Ok(insertion_of(placed))
    }

    fn find_pair(&self, hash: u64, number: u64) -> Option<u64> {
        find(&self.table, hash, number)
    }

    fn count(&self) -> usize {
        self.table.len_alone()
    }

    fn capacity(&self) -> usize {
        self.table.capacity_alone()
    }

    fn buckets(&self) -> usize {
        self.table.buckets_alone()
    }

    fn push_numbers(&self, numbers: &mut Vec<u64, A>) -> Result<(), AllocError> {
        push_seconds(self.table.iter_alone(), numbers)
    }
}
