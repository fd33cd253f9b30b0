//! The answers of the closures that calls run.
use crate::item::Item;
use std::cell::Cell;
use table_terms::law::hash_number;

/// How closures answer.
#[derive(Clone, Copy)]
pub enum Manner {
    /// By the answers that were set before the step.
    Given,
    /// By the classes and the hashes of the values.
    Lawful,
    /// At random, whatever the value and the entry are.
    Careless,
}

/// What closures answer, and what they answered last.
#[derive(Drop)]
pub struct Script {
    manner: Manner,
    accepted: Cell<bool>,
    hash: Cell<u64>,
    /// The class that a look-up looks for.
    sought: Cell<u64>,
    drawn: Cell<u64>,
    /// The entry with which a closure was called last, unless it was taken.
    met: Cell<Option<u64>>,
}

impl Script {
    /// Makes a script whose closures answer in this manner. Equal seeds draw equal numbers.
    pub fn new(manner: Manner, seed: u64) -> Script {
        Script {
            manner,
            accepted: Cell::new(false),
            hash: Cell::new(0),
            sought: Cell::new(0),
            drawn: Cell::new(seed),
            met: Cell::new(None),
        }
    }

    /// Sets the answers of the next step for closures in the manner `Given`, and the class that a look-up looks for.
    pub fn begin(&self, accepted: bool, hash: u64, sought: u64) {
        self.accepted.set(accepted);
        self.hash.set(hash);
        self.sought.set(sought);
    }

    /// Draws a number below `bound`. Returns 0 if `bound` is 0.
    pub fn draw(&self, bound: u64) -> u64 {
        let drawn = hash_number(self.drawn.get().wrapping_add(1));
        self.drawn.set(drawn ^ (drawn >> 29));
        (drawn >> 11).checked_rem(bound).unwrap_or(0)
    }

    /// Returns whether a closure accepts an entry as equal to a value of this class.
    pub fn says(&self, class: u64, entry: &Item) -> bool {
        let accepted = match self.manner {
            Manner::Given => self.accepted.get(),
            Manner::Lawful => class == entry.class,
            Manner::Careless => self.draw(4) == 0,
        };
        self.met.set(Some(entry.number));
        self.accepted.set(accepted);
        accepted
    }

    /// Returns whether a closure accepts an entry as what a look-up looks for.
    pub fn seeks(&self, entry: &Item) -> bool {
        self.says(self.sought.get(), entry)
    }

    /// Returns the hash that a closure gives for an entry.
    pub fn rehashes(&self, entry: &Item) -> u64 {
        let hash = match self.manner {
            Manner::Given => self.hash.get(),
            Manner::Lawful => entry.hash,
            Manner::Careless => self.draw(64),
        };
        self.met.set(Some(entry.number));
        self.hash.set(hash);
        hash
    }

    /// Returns the entry with which a closure was called last, if one was called since the last `take_met`.
    pub fn take_met(&self) -> Option<u64> {
        self.met.replace(None)
    }

    /// Returns whether a closure accepted the last entry. If no closure was called since `begin`, returns the answer that was set there.
    pub fn accepted(&self) -> bool {
        self.accepted.get()
    }

    /// Returns the last hash that a closure gave. If no closure was called since `begin`, returns the hash that was set there.
    pub fn hash(&self) -> u64 {
        self.hash.get()
    }
}
