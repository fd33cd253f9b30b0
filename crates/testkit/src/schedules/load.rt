//! A long schedule: many calls, one after another.
use std::alloc::{AllocError, Allocator};
use table_core::event::Event;

/// How many numbers are inserted: 0, 1, 2, ..
pub const INSERTS: u64 = 100_000;

/// How many of the last numbers are looked up afterwards. All of these were placed after the last growth.
pub const LOOKUPS: u64 = 25_000;

/// The hashes of a load.
#[derive(Clone, Copy)]
pub enum Hashes {
    /// Each number is its own hash.
    Own,
    /// Each insert has its own hash, in the upper half of its generation. Each copy has the hash 0, so that it probes past all earlier
    /// copies, and the copies stay in the lower half.
    OneForCopies,
}

/// Returns the events of a load. Each number is inserted in turn, into an empty bucket. The table grows whenever half of its buckets are
/// set. Then the last numbers are looked up. Calls are numbered in this order, from 0 on. `Err`: memory was refused.
pub fn load_events<A: Allocator + Copy>(
    alloc: A,
    hashes: Hashes,
) -> Result<Vec<Event, A>, AllocError> {
    let mut load = Load {
        events: Vec::new(alloc),
        capacity: 16,
        hashes,
    };
    for value in 0..INSERTS {
        load.insert(value)?;
    }
    for turn in 0..LOOKUPS {
        load.look(INSERTS + turn, INSERTS - LOOKUPS + turn)?;
    }
    Ok(load.events)
}

/// The events of a load so far, and the capacity of its current generation, or of the first one.
#[derive(Drop)]
struct Load<A: Allocator + Copy> {
    events: Vec<Event, A>,
    capacity: u64,
    hashes: Hashes,
}

impl<A: Allocator + Copy> Load<A> {
    /// Returns the hash of a number, from its insert until the next growth.
    fn hash_of(&self, value: u64) -> u64 {
        match self.hashes {
            Hashes::Own => value,
            Hashes::OneForCopies => value | (self.capacity / 2),
        }
    }

    /// Returns the hash with which a growth copies the entry of this turn.
    fn copy_hash(&self, turn: u64) -> u64 {
        match self.hashes {
            Hashes::Own => turn,
            Hashes::OneForCopies => 0,
        }
    }

    /// Adds the events of the insert of a number, after all lower ones. `Err`: memory was refused.
    fn insert(&mut self, value: u64) -> Result<(), AllocError> {
        let call = value;
        let hash = self.hash_of(value);
        self.events.push(Event::Insert { call, value, hash })?;
        if value == 0 {
            self.events.extend_from_slice(&first_generation(call))?;
        }
        self.events.extend_from_slice(&placement(call))?;
        let entries = value.wrapping_add(1);
        if entries >= self.capacity / 2 {
            self.grow(call, entries)?;
        }
        Ok(())
    }

    /// Adds the events of a growth, by the call that has placed the last of these entries. `Err`: memory was refused.
    fn grow(&mut self, call: u64, entries: u64) -> Result<(), AllocError> {
        self.capacity = self.capacity.wrapping_mul(2);
        self.events.push(Event::Own { call })?;
        self.events.push(Event::Check {
            call,
            granted: true,
        })?;
        for turn in 0..entries {
            let hash = self.copy_hash(turn);
            self.events.push(Event::Copy { call, hash })?;
        }
        self.events.push(Event::Show { call })?;
        self.events.push(Event::Free { call })?;
        Ok(())
    }

    /// Adds the events of a look-up of a number. `Err`: memory was refused.
    fn look(&mut self, call: u64, value: u64) -> Result<(), AllocError> {
        let hash = self.hash_of(value);
        self.events.push(Event::Lookup { call, hash })?;
        self.events.push(Event::Load { call })?;
        self.events.push(Event::Read {
            call,
            accepted: true,
        })?;
        Ok(())
    }
}

/// Returns the events of an insert that finds no generation and makes the first one.
fn first_generation(call: u64) -> [Event; 7] {
    [
        Event::Share { call },
        Event::Load { call },
        Event::Free { call },
        Event::Own { call },
        Event::Check {
            call,
            granted: true,
        },
        Event::Show { call },
        Event::Free { call },
    ]
}

/// Returns the events of an insert that places its value in the first bucket of its hash, which is empty. The last one reads the size.
fn placement(call: u64) -> [Event; 7] {
    [
        Event::Share { call },
        Event::Load { call },
        Event::Read {
            call,
            accepted: false,
        },
        Event::Put {
            call,
            accepted: false,
            granted: true,
        },
        Event::Add { call },
        Event::Free { call },
        Event::Size { call },
    ]
}
