//! One generation: a fixed number of buckets.
ghost use Rattle.std.specs.Prelude.{◌≡◌, ◌+◌, ◌-◌, ◌*◌, ◌<◌, ◌≤◌, ◌↔◌, length, option_copied, option_map, IfOk, Some, IsTrue};
ghost use Rattle.std.specs.Fn.{FnReturnsAt, FnReturnsAtPair};
ghost use Rattle.std.specs.Int.{IsPowerOfTwo};
ghost use Rattle.table_cell.specs.Contents.{bucket, naming, shown, Lies};
ghost use Rattle.table_generations.specs.Buckets.{shown_all, shown_entries, content_at};
ghost use Rattle.table_generations.specs.Probe.{ComparisonGives, ProbeGives};
ghost use Rattle.table_generations.specs.Growth.{Inserts, PutsName};
ghost use Rattle.table_generations.specs.Generations.{CountsInsert, AreOfOneHome, IsName};

pub mod owning;
mod rehomed;
pub mod shared;

use crate::atomic_value::AtomicValue;
use std::alloc::{AllocError, Allocator};
use std::marker::Model;
use table_cell::{Bucket, BucketRef, Entry, Home, Mark, Refusal as BucketRefusal, Row};
use table_terms::probe::{bits_of_hash, first_bucket, next_bucket};

/// The result of a probe: the index and the entry of a bucket that was accepted, the index of an empty bucket, or `Full` after
/// every bucket was passed.
#[derive(Clone, Copy)]
pub enum ProbeEnd<'a, T> {
    Accepted(usize, &'a Entry<T>),
    Vacant(usize),
    Full,
}

/// The result of comparing one bucket.
#[derive(Clone, Copy)]
enum Comparison<'a, T> {
    Vacant,
    Different,
    Accepted(&'a Entry<T>),
}

/// A value that a generation did not take.
#[derive(Drop)]
pub enum Refusal<T> {
    /// All buckets are set, and no entry was accepted as equal.
    Full(T),
    /// Memory for the entry's block was refused. The generation is unchanged.
    NoMemory(T),
}

/// A generation: buckets of one home and one allocator. Their number, its capacity, is a power of two, or 0.
#[derive(Drop)]
pub struct Generation<T: AtomicValue, A: Allocator + Copy> {
    row: Row<T, A>,
    size: usize,
}

impl<T: AtomicValue, A: Allocator + Copy> Model for Generation<T, A> {
    ghost use Rattle.table_generations.specs.Generations.{GenerationView, generation_of, IsGeneration};

    ghost Value = { GenerationView A T };

    ghost view = { λ g. generation_of g.row g.size };

    ghost invariant = { λ g. IsGeneration g.row.contents g.size };
}

/// Calls the test with the target of an entry.
fn compare_entry<'a, T: AtomicValue, F: Fn(&T::Target) -> bool>(
    entry: &'a Entry<T>,
    test: &F,
) -> Comparison<'a, T>
    requires { F.IsAlwaysCallable test.now }
    ensures { ComparisonGives T.target (FnReturnsAt F.Fn test.now) entry.now.bits (Some entry.now)
        result }
{
    if test(entry.value.deref()) {
        Comparison::Accepted(entry)
    } else {
        Comparison::Different
    }
}

/// Compares a bucket with the eight bits that a probe seeks. For an entry with other bits it calls no closure and doesn't read
/// the block.
fn compare_bucket<'a, T: AtomicValue, A: Allocator + Copy, F: Fn(&T::Target) -> bool>(
    home: &'a Home,
    bucket: &BucketRef<'a, T, A>,
    sought: u8,
    test: &F,
) -> Comparison<'a, T>
    requires home { bucket.now.home ≡ home.now.id }
    requires callable { F.IsAlwaysCallable test.now }
    ensures { ComparisonGives T.target (FnReturnsAt F.Fn test.now) sought (shown bucket.now.content)
        result }
{
    match bucket.mark() {
        Mark::Unmarked => Comparison::Vacant,
        Mark::Own(bits) | Mark::Named(bits) if bits == sought => {
            compare_entry(bucket.entry(home), test)
        }
        _ => Comparison::Different,
    }
}

impl<T: AtomicValue, A: Allocator + Copy> Generation<T, A> {
    ghost use Rattle.table_generations.specs.Generations.{IsBlank};

    /// Makes a generation without buckets. Does not allocate.
    pub fn none(alloc: A, home: &Home) -> Self
        ensures { IsBlank alloc home.now.id 0 result }
    {
        Generation {
            row: Row::new(alloc, home),
            size: 0,
        }
    }

    /// Makes a generation of `capacity` empty buckets. Allocates twice: for their marks and for their words.
    pub fn with_capacity(alloc: A, home: &Home, capacity: usize) -> Result<Self, AllocError>
        requires { IsPowerOfTwo capacity }
        ensures { IfOk result (IsBlank alloc home.now.id capacity) }
    {
        Ok(Generation {
            row: Row::vacant(alloc, home, capacity)?,
            size: 0,
        })
    }

    /// Returns the number of buckets.
    pub fn capacity(&self) -> usize
        ensures { result ≡ length self.now.contents }
    {
        self.row.len()
    }

    /// Returns the number of buckets that were set through `&mut`.
    pub fn size(&self) -> usize
        ensures size { result ≡ self.now.size }
        ensures counted { result ≡ length (shown_entries self.now.contents) }
    {
        self.size
    }

    /// Returns whether at least half of the buckets were set through `&mut`.
    pub fn wants_growth(&self) -> bool
        ensures { IsTrue result ↔ (length self.now.contents ≤ 2 * self.now.size) }
    {
        self.row.len() - self.size <= self.size
    }

    /// Returns the entry that the bucket at this index shows: its own, or the one that it names.
    pub fn entry_shown<'a>(&'a self, home: &'a Home, index: usize) -> Option<&'a Entry<T>>
        requires home { self.now.home ≡ home.now.id }
        requires within { index < length self.now.contents }
        ensures { option_copied result ≡ shown (content_at self.now.contents index) }
    {
        self.row.at(index).get_alone(home)
    }

    /// Returns a bucket that names the entry shown at this index, or `None` if that bucket was not set through `&mut`. Reads no
    /// block.
    pub fn naming(&self, index: usize) -> Option<Bucket<T, A>>
        requires { index < length self.now.contents }
        ensures { result ≡ option_map (bucket self.now.from self.now.home)
            (naming (content_at self.now.contents index)) }
    {
        self.row.at(index).naming(self.row.alloc())
    }

    /// Makes a generation of `capacity` empty buckets, of the same home and the same allocator. Allocates twice.
    pub fn sibling(&self, home: &Home, capacity: usize) -> Result<Self, AllocError>
        requires home { self.now.home ≡ home.now.id }
        requires power { IsPowerOfTwo capacity }
        ensures { IfOk result (IsBlank self.now.from self.now.home capacity) }
    {
        Generation::with_capacity(self.row.alloc(), home, capacity)
    }

    /// Reads the buckets in order, from the first one of the hash on, until one is empty or `test` accepts its entry.
    pub fn probe<'a, F: Fn(&T::Target) -> bool>(
        &'a self,
        home: &'a Home,
        hash: u64,
        test: &F,
    ) -> ProbeEnd<'a, T>
        requires home { self.now.home ≡ home.now.id }
        requires room { 0 < length self.now.contents }
        requires callable { F.IsAlwaysCallable test.now }
        ensures { ProbeGives T.target (FnReturnsAt F.Fn test.now) (shown_all self.now.contents) hash
            result }
    {
        let sought = bits_of_hash(hash);
        let capacity = self.row.len();
        let mut index = first_bucket(hash, capacity);
        for _seen in 0..capacity {
            match compare_bucket(home, &self.row.at(index), sought, test) {
                Comparison::Vacant => return ProbeEnd::Vacant(index),
                Comparison::Accepted(entry) => return ProbeEnd::Accepted(index, entry),
                Comparison::Different => (),
            }
            index = next_bucket(index, capacity);
        }
        ProbeEnd::Full
    }

    /// Probes for an entry that `eq` accepts as equal to the key. `eq` is called with the key first.
    fn probe_same<'a, E: Fn(&T::Target, &T::Target) -> bool>(
        &'a self,
        home: &'a Home,
        hash: u64,
        key: &T::Target,
        eq: &E,
    ) -> ProbeEnd<'a, T>
        requires home { self.now.home ≡ home.now.id }
        requires room { 0 < length self.now.contents }
        requires callable { E.IsAlwaysCallable eq.now }
        ensures { ProbeGives T.target (FnReturnsAtPair E.Fn eq.now key.now)
            (shown_all self.now.contents) hash result }
    {
        self.probe(home, hash, &|target: &T::Target| eq(key, target))
    }

    /// Inserts the value at the first empty bucket, unless an entry before it is accepted as equal. Returns the index of the
    /// bucket that shows the entry, and the value if it was not placed. Allocates a block for a value that is placed.
    pub fn insert<E: Fn(&T::Target, &T::Target) -> bool>(
        &mut self,
        home: &Home,
        hash: u64,
        value: T,
        eq: &E,
    ) -> Result<(usize, Option<T>), Refusal<T>>
        requires home { self.old.home ≡ home.now.id }
        requires room { 0 < length self.old.contents }
        requires callable { E.IsAlwaysCallable eq.now }
        ensures inserts { Inserts T.target (FnReturnsAtPair E.Fn eq.now (T.target value))
            self.old.contents hash value result self.new.contents }
        ensures size { CountsInsert self.old.size result self.new.size }
        ensures home { AreOfOneHome self.new self.old }
    {
        match self.probe_same(home, hash, value.deref(), eq) {
            ProbeEnd::Accepted(index, _) => Ok((index, Some(value))),
            ProbeEnd::Full => Err(Refusal::Full(value)),
            ProbeEnd::Vacant(index) => {
                match self.row.place_alone(home, index, value, bits_of_hash(hash)) {
                    Ok(()) => {
                        self.size += 1;
                        Ok((index, None))
                    }
                    Err(BucketRefusal::NoMemory(value)) => Err(Refusal::NoMemory(value)),
                    Err(BucketRefusal::Taken(_value)) => unreachable!(),
                }
            }
        }
    }

    /// Puts a bucket that names an entry at the first empty bucket of this hash. Calls no `eq`.
    pub fn insert_unique(&mut self, home: &Home, hash: u64, name: Bucket<T, A>)
        requires home { self.old.home ≡ home.now.id }
        requires room { self.old.size < length self.old.contents }
        requires lies { Lies self.old.home self.old.from name }
        requires name { IsName name.content }
        ensures put { PutsName T.target self.old.contents self.new.contents hash name.content }
        ensures size { self.new.size ≡ self.old.size + 1 }
        ensures counted { self.new.size ≡ length (shown_entries self.new.contents) }
        ensures home { AreOfOneHome self.new self.old }
    {
        match self.probe(home, hash, &|_target: &T::Target| false) {
            ProbeEnd::Vacant(index) => {
                self.row.put(index, name);
                self.size += 1;
            }
            _ => unreachable!(),
        }
    }
}
