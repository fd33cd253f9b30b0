//! A `SharedSet` of records of three numbers. The first number is the key, and the other two follow from it.

use crate::measures::numbers::KeySet;
use crate::measures::shared::SharedKeys;
use crate::measures::tasks::Task;
use shared_set::{Handle, Inserted, SharedSet};
use std::sync::Wait;
use table_sets::{Law, SetLaw};
use table_terms::law::hash_number;

/// A record of 24 bytes.
#[derive(Clone, Copy)]
pub struct Record {
    key: u64,
    next: u64,
    inverse: u64,
}

impl Record {
    /// Returns the record of this key.
    fn of(key: u64) -> Record {
        Record {
            key,
            next: key.wrapping_add(1),
            inverse: key ^ u64::MAX,
        }
    }

    /// Returns whether the other numbers follow from this key.
    fn is_of(&self, key: u64) -> bool {
        self.next == key.wrapping_add(1) && self.inverse == key ^ u64::MAX
    }
}

/// The law of records: two are equal if their keys are.
pub struct RecordLaw;

impl Law<Record> for RecordLaw {
    ghost use Rattle.table_terms.specs.Laws.{same_by_number, hash_by_number, number_lawful};

    ghost same = { same_by_number (λ r. r.key) };

    ghost hash_of = { hash_by_number (λ r. r.key) };

    ghost lawful = { number_lawful (λ r. r.key) };
}

impl SetLaw<Record> for RecordLaw {
    fn is_same(one: &Record, other: &Record) -> bool {
        one.key == other.key
    }

    fn hash(record: &Record) -> u64 {
        hash_number(record.key)
    }
}

/// A `SharedSet` of records.
pub type SharedSetRecords = SharedSet<Record, RecordLaw>;

impl<'a> KeySet for Handle<'a, Record, RecordLaw> {
    fn insert(&mut self, number: u64) -> bool {
        matches!(self.insert(Record::of(number)), Inserted::Placed(_, _, _))
    }

    fn contains(&mut self, number: u64) -> bool {
        let sought = Record {
            key: number,
            next: 0,
            inverse: 0,
        };
        match self.get(&sought) {
            Some(record) => record.is_of(number),
            None => false,
        }
    }
}

impl SharedKeys for SharedSetRecords {
    fn by_thread<R: Wait, T: Task>(&self, _rt: &R, task: &T) -> T::Answer {
        task.run(&mut self.handle())
    }
}
