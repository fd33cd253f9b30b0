//! One generation. It stores only its set buckets, so its memory depends on the entries.
ghost use Rattle.std.specs.Prelude.{◌≡◌, ◌<◌, ◌≤◌, None, map, length, IfOk};
ghost use Rattle.std.specs.Result.{OnOk, OnErr};
ghost use Rattle.table_terms.specs.Capacities.{IsCapacity};
ghost use Rattle.table_terms.specs.Probes.{bucket_at};
ghost use Rattle.table_core.specs.Generations.{bucket, fresh, fill, count, copy_in, first_empty};
ghost use Rattle.table_core.specs.Bound.{entry_of, AllSet};

use std::alloc::{AllocError, Allocator};
use std::collections::BTreeMap;
use std::marker::Model;

/// A set bucket: its index, its value, and eight bits of the hash with which the value was inserted.
#[derive(Clone, Copy)]
pub struct Entry {
    pub index: u64,
    pub value: u64,
    pub bits: u8,
}

/// The content of a set bucket, without its index.
#[derive(Clone, Copy)]
pub struct Slot {
    pub value: u64,
    pub bits: u8,
    /// The number of buckets from this one on, wrapping around, that are known to be set. It is at least 1.
    pub run: u64,
}

/// A generation of buckets: its capacity, its size, and its set buckets by their indices. Its memory depends on the set buckets,
/// never on the capacity.
#[derive(Drop)]
pub struct MachineGeneration<A: Allocator + Copy> {
    capacity: u64,
    size: u64,
    slots: BTreeMap<u64, Slot, A>,
}

impl<A: Allocator + Copy> Model for MachineGeneration<A> {
    ghost use Rattle.std.specs.Prelude.{◌≤◌, map, length};
    ghost use Rattle.table_core.specs.Generations.{Gen};
    ghost use Rattle.table_terms.specs.Capacities.{IsCapacity};
    ghost use Rattle.table_core.specs.Bound.{entry_of, RunsHold};

    ghost Value = { Gen };

    ghost view = { λ g. record { capacity = g.capacity; size = g.size; entries = map entry_of g.slots.entries } };

    ghost invariant = { λ g. IsCapacity g.capacity × (g.size ≤ length g.slots.entries) × RunsHold g.capacity (map entry_of g.slots.entries) g.slots.entries };
}

/// Returns the entries of a map, in the order of their indices.
fn entries_in<A: Allocator + Copy>(
    slots: &BTreeMap<u64, Slot, A>,
    alloc: A,
) -> Result<Vec<Entry, A>, AllocError>
    ensures { IfOk result (λ v. v.items ≡ map entry_of slots.now.entries) }
{
    slots
        .iter()
        .map(|(index, slot)| Entry {
            index: *index,
            value: slot.value,
            bits: slot.bits,
        })
        .collect(alloc)
}

/// Returns the index of the bucket `steps` after this one. Wraps around at the end.
fn index_after(index: u64, steps: u64, capacity: u64) -> u64
    requires { index < capacity }
    ensures { result ≡ bucket_at capacity index steps }
{
    let left = capacity - index;
    if steps < left {
        index + steps
    } else {
        (steps - left) % capacity
    }
}

impl<A: Allocator + Copy> MachineGeneration<A> {
    /// Makes a generation without entries. Does not allocate.
    pub fn new(alloc: A, capacity: u64) -> Self
        requires { IsCapacity capacity }
        ensures { result ≡ fresh capacity }
    {
        MachineGeneration {
            capacity,
            size: 0,
            slots: BTreeMap::new(alloc),
        }
    }

    /// Returns the capacity.
    pub fn capacity(&self) -> u64
        ensures value { result ≡ self.now.capacity }
        ensures power { IsCapacity result }
    {
        self.capacity
    }

    /// Returns the number of counted entries.
    pub fn size(&self) -> u64
        ensures { result ≡ self.now.size }
    {
        self.size
    }

    /// Returns the number of set buckets.
    pub fn len(&self) -> usize
        ensures { result ≡ length self.now.entries }
    {
        self.slots.len()
    }

    /// Returns the entry in a bucket, if the bucket is set.
    pub fn at(&self, index: u64) -> Option<Entry>
        ensures { result ≡ bucket self.now.entries index }
    {
        match self.slots.get(&index) {
            Some(slot) => Some(Entry {
                index,
                value: slot.value,
                bits: slot.bits,
            }),
            None => None,
        }
    }

    /// Returns all entries, in the order of their indices.
    pub fn entries(&self, alloc: A) -> Result<Vec<Entry, A>, AllocError>
        ensures { IfOk result (λ v. v.items ≡ self.now.entries) }
    {
        entries_in(&self.slots, alloc)
    }

    /// Puts an entry into an empty bucket.
    pub fn fill(&mut self, entry: Entry) -> Result<(), AllocError>
        requires { bucket self.old.entries entry.index ≡ None }
        ensures ok { OnOk result (self.new ≡ fill self.old entry) }
        ensures err { OnErr result (self.new ≡ self.old) }
    {
        self.slots.insert(
            entry.index,
            Slot {
                value: entry.value,
                bits: entry.bits,
                run: 1,
            },
        )?;
        Ok(())
    }

    /// Counts one more entry.
    pub fn count(&mut self)
        requires { self.old.size < length self.old.entries }
        ensures { self.new ≡ count self.old }
    {
        let entries = self.slots.len() as u64;
        prove!(self.size < entries);
        self.size += 1;
    }

    /// Returns the number of buckets from this one on, wrapping around, that are known to be set. Returns 0 if this one is empty.
    fn known_run(&self, index: u64) -> u64
        requires { index < self.now.capacity }
        ensures set { AllSet self.now index result }
        ensures few { result ≤ length self.now.entries }
        ensures empty { result ≡ 0 → bucket self.now.entries index ≡ None }
    {
        match self.slots.get(&index) {
            Some(slot) => slot.run,
            None => 0,
        }
    }

    /// Records that `run` buckets from this one on are set, for later searches.
    fn note_run(&mut self, index: u64, run: u64)
        requires some { 1 ≤ run }
        requires few { run ≤ length self.old.entries }
        requires set { AllSet self.old index run }
        ensures { self.new ≡ self.old }
    {
        if let Some(slot) = self.slots.get_mut(&index) {
            slot.run = run;
        }
    }

    /// Returns the first empty bucket from that of a hash on. It passes set buckets that earlier searches passed in runs, and
    /// joins each run that it passes to the next, so no long run is searched bucket by bucket again.
    fn first_empty(&mut self, hash: u64) -> u64
        requires { bucket self.old.entries (first_empty self.old hash) ≡ None }
        ensures index { result ≡ first_empty self.old hash }
        ensures same { self.new ≡ self.old }
    {
        let capacity = self.capacity();
        let mut index = hash % capacity;
        for _pass in 0..self.len() {
            let known = self.known_run(index);
            if known == 0 {
                return index;
            }
            let next = index_after(index, known, capacity);
            let run = known + self.known_run(next);
            self.note_run(index, run);
            index = index_after(index, run, capacity);
        }
        index
    }

    /// Copies an entry to the first empty bucket from that of a hash on, and counts it.
    pub fn copy(&mut self, entry: Entry, hash: u64) -> Result<(), AllocError>
        requires { bucket self.old.entries (first_empty self.old hash) ≡ None }
        ensures ok { OnOk result (self.new ≡ copy_in self.old entry (first_empty self.old hash)) }
        ensures err { OnErr result (self.new ≡ self.old) }
    {
        // No more entries are counted than there are.
        let _counted = &self.size;
        let index = self.first_empty(hash);
        self.fill(Entry { index, ..entry })?;
        self.count();
        Ok(())
    }
}
