//! All generations, and the one that is being built.
ghost use Rattle.std.specs.Prelude.{◌≡◌, ◌<◌, ◌^◌, true, Some, None, [], length, sum_by, OnOk, OnErr, IfOk, option_copied};
ghost use Rattle.std.specs.Option.{option_map};
ghost use Rattle.table_terms.specs.Capacities.{IsCapacity, IsFirstCapacity};
ghost use Rattle.table_core.specs.Generations.{Gen, Build, bucket, first_empty, gen_of, last_of, bucket_in, current, is_current, next_copied, fill, count, change, next_capacity, entries_of};
ghost use Rattle.table_core.specs.Machine.{loads, checked, begin_growth, copy_next, show_built};
ghost use Rattle.table_core.specs.History.{buckets};

use crate::call::Answer;
use crate::generation::{Entry, MachineGeneration};
use std::alloc::{AllocError, Allocator};
use std::marker::Model;

/// The table: its generations, oldest first, and the one being built.
#[derive(Drop)]
pub struct Table<A: Allocator + Copy> {
    first: u64,
    generations: Vec<MachineGeneration<A>, A>,
    growing: Option<MachineGeneration<A>>,
    /// The entries of the current generation, in order, while the next one is being built.
    source: Vec<Entry, A>,
    copied: usize,
}

impl<A: Allocator + Copy> Model for Table<A> {
    ghost use Rattle.table_core.specs.Generations.{Table};
    ghost use Rattle.table_core.specs.Bound.{build_of};
    ghost use Rattle.table_core.specs.Indexed.{IsTable};

    ghost Value = { Table };

    ghost view = { λ t. record { first = t.first; gens = t.generations.items; building = build_of t.growing t.copied } };

    ghost invariant = { λ t. IsTable t.first t.generations.items t.growing t.source.items };
}

/// Returns the generation of this number.
fn generation_of<A: Allocator + Copy>(
    generations: &[MachineGeneration<A>],
    walked: Option<u64>,
) -> Option<&MachineGeneration<A>>
    ensures { option_copied result ≡ gen_of generations.now walked }
{
    let number = walked?;
    if number < generations.len() as u64 {
        Some(&generations[number as usize])
    } else {
        None
    }
}

/// Returns the current generation.
fn current_of<A: Allocator + Copy>(
    generations: &[MachineGeneration<A>],
) -> Option<&MachineGeneration<A>>
    ensures { option_copied result ≡ last_of generations.now }
{
    if generations.is_empty() {
        None
    } else {
        Some(&generations[generations.len() - 1])
    }
}

/// Returns the capacity of the generation after these.
fn next_capacity<A: Allocator + Copy>(first: u64, generations: &[MachineGeneration<A>]) -> u64
    requires allowed { IsFirstCapacity first }
    requires room { checked (last_of generations.now) true ≡ Answer.Begun }
    ensures value { result ≡ next_capacity first (last_of generations.now) }
    ensures power { IsCapacity result }
{
    match current_of(generations) {
        None => first,
        Some(generation) => 2 * generation.capacity(),
    }
}

/// Returns the entries of the last of these generations.
fn entries_of_last<A: Allocator + Copy>(
    generations: &[MachineGeneration<A>],
    alloc: A,
) -> Result<Vec<Entry, A>, AllocError>
    ensures { IfOk result (λ v. v.items ≡ entries_of (last_of generations.now)) }
{
    match current_of(generations) {
        None => Ok(Vec::new(alloc)),
        Some(generation) => generation.entries(alloc),
    }
}

/// Returns the sum of the capacities of these generations.
fn capacity_of<A: Allocator + Copy>(generations: &[MachineGeneration<A>]) -> u64
    requires { sum_by (λ (g : Gen). g.capacity) generations.now < 2 ^ 64 }
    ensures { result ≡ sum_by (λ (g : Gen). g.capacity) generations.now }
{
    let mut buckets = 0;
    for generation in generations {
        buckets += generation.capacity();
    }
    buckets
}

fn fill_walked<A: Allocator + Copy>(
    generations: &mut Vec<MachineGeneration<A>, A>,
    walked: Option<u64>,
    entry: Entry,
) -> Result<(), AllocError>
    requires { bucket_in (gen_of generations.old.items walked) entry.index ≡ None }
    ensures ok { OnOk result (generations.new.items ≡ change generations.old.items walked
        (λ g. fill g entry)) }
    ensures err { OnErr result (generations.new.items ≡ generations.old.items) }
{
    let Some(number) = walked else {
        return Ok(());
    };
    if number < generations.len() as u64 {
        let generation = &mut generations[number as usize];
        generation.fill(entry)?;
    }
    Ok(())
}

fn count_walked<A: Allocator + Copy>(
    generations: &mut Vec<MachineGeneration<A>, A>,
    walked: Option<u64>,
)
    requires { (g : Gen) → gen_of generations.old.items walked ≡ Some g
        → g.size < length g.entries }
    ensures { generations.new.items ≡ change generations.old.items walked count }
{
    let Some(number) = walked else {
        return;
    };
    if number < generations.len() as u64 {
        let generation = &mut generations[number as usize];
        generation.count();
    }
}

impl<A: Allocator + Copy> Table<A> {
    /// Makes a table without generations. The first one will have `first` buckets. Does not allocate.
    pub fn new(alloc: A, first: u64) -> Self
        requires { IsFirstCapacity first }
        ensures { result ≡ record { first = first; gens = []; building = None } }
    {
        Table {
            first,
            generations: Vec::new(alloc),
            growing: None,
            source: Vec::new(alloc),
            copied: 0,
        }
    }

    /// Returns what loading the current generation finds.
    pub fn load(&self) -> Answer
        ensures { result ≡ loads self.now }
    {
        match current_of(self.generations.as_slice()) {
            None => Answer::NoGeneration,
            Some(generation) => Answer::Loaded {
                number: (self.generations.len() - 1) as u64,
                capacity: generation.capacity(),
            },
        }
    }

    /// Returns the entry at an index of a generation, if that bucket is set.
    pub fn at(&self, walked: Option<u64>, index: u64) -> Option<Entry>
        ensures { result ≡ bucket_in (gen_of self.now.gens walked) index }
    {
        match generation_of(self.generations.as_slice(), walked) {
            Some(generation) => generation.at(index),
            None => None,
        }
    }

    /// Returns the size of a generation.
    pub fn size(&self, walked: Option<u64>) -> Option<u64>
        ensures { result ≡ option_map (λ (g : Gen). g.size) (gen_of self.now.gens walked) }
    {
        match generation_of(self.generations.as_slice(), walked) {
            Some(generation) => Some(generation.size()),
            None => None,
        }
    }

    /// Returns what checking the current generation finds: whether growth is wanted, and begins.
    pub fn check(&self, granted: bool) -> Answer
        ensures { result ≡ checked (current self.now) granted }
    {
        const GREATEST: u64 = 1 << 63;
        match current_of(self.generations.as_slice()) {
            None => {
                if granted {
                    Answer::Begun
                } else {
                    Answer::Failed
                }
            }
            Some(generation) => {
                if generation.size() < generation.capacity() / 2 {
                    Answer::Unwanted
                } else if granted && generation.capacity() != GREATEST {
                    Answer::Begun
                } else {
                    Answer::Failed
                }
            }
        }
    }

    /// Returns whether a generation is the current one; for `None`, whether there is still no generation.
    pub fn is_current(&self, walked: Option<u64>) -> bool
        ensures { result ≡ is_current self.now.gens walked }
    {
        match walked {
            None => self.generations.is_empty(),
            Some(number) => { number < u64::MAX && number + 1 == self.generations.len() as u64 }
        }
    }

    /// Returns the next entry to copy into the generation that is being built.
    pub fn next(&self) -> Option<Entry>
        ensures { result ≡ next_copied self.now }
    {
        match &self.growing {
            Some(_) => self.source.get(self.copied).copied(),
            None => None,
        }
    }

    /// Puts an entry into an empty bucket of a generation.
    pub fn place(&mut self, walked: Option<u64>, entry: Entry) -> Result<(), AllocError>
        requires empty { bucket_in (gen_of self.old.gens walked) entry.index ≡ None }
        requires settled { self.old.building ≡ None }
        ensures ok { OnOk result (self.new ≡ record self.old
            { gens = change self.old.gens walked (λ g. fill g entry) }) }
        ensures err { OnErr result (self.new ≡ self.old) }
    {
        fill_walked(&mut self.generations, walked, entry)?;
        Ok(())
    }

    /// Counts an entry that was placed.
    pub fn count(&mut self, walked: Option<u64>)
        requires settled { self.old.building ≡ None }
        requires uncounted { (g : Gen) → gen_of self.old.gens walked ≡ Some g
            → g.size < length g.entries }
        ensures { self.new ≡ record self.old { gens = change self.old.gens walked count } }
    {
        count_walked(&mut self.generations, walked);
    }

    /// Begins a generation of the first capacity, or of twice the capacity of the current one.
    pub fn begin_growth(&mut self, alloc: A) -> Result<(), AllocError>
        requires { checked (current self.old) true ≡ Answer.Begun }
        ensures ok { OnOk result (self.new ≡ begin_growth self.old) }
        ensures err { OnErr result (self.new ≡ self.old) }
    {
        let capacity = next_capacity(self.first, self.generations.as_slice());
        let source = entries_of_last(self.generations.as_slice(), alloc)?;
        self.source = source;
        self.growing = Some(MachineGeneration::new(alloc, capacity));
        self.copied = 0;
        Ok(())
    }

    /// Copies the next entry to the first empty bucket from that of a hash on.
    pub fn copy_next(&mut self, hash: u64) -> Result<(), AllocError>
        requires { (b : Build) → self.old.building ≡ Some b
            → bucket b.gen.entries (first_empty b.gen hash) ≡ None }
        ensures ok { OnOk result (self.new ≡ copy_next self.old (next_copied self.old) hash) }
        ensures err { OnErr result (self.new ≡ self.old) }
    {
        let Some(entry) = self.next() else {
            return Ok(());
        };
        if let Some(growing) = &mut self.growing {
            growing.copy(entry, hash)?;
            self.copied += 1;
        }
        Ok(())
    }

    /// Makes the generation that was built the current one.
    pub fn show(&mut self, alloc: A) -> Result<(), AllocError>
        ensures ok { OnOk result (self.new ≡ show_built self.old) }
        ensures err { OnErr result (self.new ≡ self.old) }
    {
        self.generations.reserve(1)?;
        if let Some(built) = self.growing.take() {
            self.generations.push(built)?;
        }
        self.source = Vec::new(alloc);
        self.copied = 0;
        Ok(())
    }

    /// Returns the number of buckets of all generations together, with the one being built.
    pub fn buckets(&self) -> u64
        ensures { result ≡ buckets self.now }
    {
        let buckets = capacity_of(self.generations.as_slice());
        match &self.growing {
            Some(growing) => buckets + growing.capacity(),
            None => buckets,
        }
    }
}
