//! The calls of each worker of a job on the table that they share.
ghost use Rattle.std.specs.Prelude.{◌≡◌, ◌<◌, IfOk};
ghost use Rattle.tool_commands.specs.Stress.{inserts_of, value_of, value_hash};

use crate::endings::Ending;
use crate::gate::Gate;
use crate::job::Job;
use crate::kinds::Kind;
use std::alloc::{AllocError, Allocator};
use std::sync::Wait;
use table_cell::Low;
use table_shared::LockFreeRawTable;

/// A table of values that the workers of a job share.
pub trait ValueTable<A: Allocator + Copy> {
    /// Inserts the value, and returns the entry that is shown: the value, or an equal one that was there. An `Err` means that
    /// memory was refused.
    fn insert_value<R: Wait>(&self, rt: &R, alloc: A, value: u32) -> Result<u32, AllocError>
        ensures { IfOk result (λ entry. entry ≡ value) };

    /// Returns whether a look-up finds the value.
    fn finds_value(&self, value: u32) -> bool;

    /// Returns the number of entries that an iterator shows.
    fn walked_entries(&self) -> usize;
}

/// The program's own table, of boxed numbers.
pub type Values<A> = LockFreeRawTable<Box<u32, A>, A>;

/// The factor by which a value is multiplied for its hash, modulo 2^64.
const SPREAD: u64 = 0x9E37_79B9_7F4A_7C15;

/// A worker of a job.
#[derive(Clone, Copy)]
pub struct Worker {
    pub job: Job,
    /// The number of the worker, from 0 on.
    pub number: usize,
    ghost few: { number < 64 },
}

impl Worker {
    /// Makes the worker of this number in the job.
    pub fn new(job: Job, number: usize) -> Worker
        requires { number < 64 }
        ensures job { result.job ≡ job }
        ensures number { result.number ≡ number }
    {
        Worker { job, number }
    }

    /// Returns the value that the worker inserts by its call of this number.
    pub fn value(self, call: usize) -> u32
        requires { call < inserts_of self.job.kind }
        ensures { result ≡ value_of self.job.kind self.job.number self.number call }
    {
        let own = match self.job.kind {
            Kind::InsertUnique | Kind::InsertLookup => 1000 * self.number as u64,
            Kind::InsertSame => 0,
        };
        (self.job.number + own + call as u64) as u32
    }
}

/// Returns the hash of a value.
pub fn hash_of(value: u32) -> u64
    ensures { result ≡ value_hash value }
{
    u64::from(value).wrapping_mul(SPREAD)
}

impl<A: Low + Copy> ValueTable<A> for LockFreeRawTable<Box<u32, A>, A> {
    fn insert_value<R: Wait>(&self, rt: &R, alloc: A, value: u32) -> Result<u32, AllocError> {
        let boxed = Box::new(alloc, value)?;
        match self.insert(
            rt,
            hash_of(value),
            boxed,
            |new: &u32, entry: &u32| *new == *entry,
            |entry: &u32| hash_of(*entry),
        ) {
            Ok((entry, _)) => Ok(*entry),
            Err(_) => Err(AllocError),
        }
    }

    fn finds_value(&self, value: u32) -> bool {
        self.lookup(hash_of(value), |entry: &u32| *entry == value)
            .is_some()
    }

    fn walked_entries(&self) -> usize {
        self.iter().count()
    }
}

/// Makes the worker's call of this number, if the gate lets it: an insert, and in a job of the kind `InsertLookup` also a look-up
/// of the value that it inserted before.
pub fn make_call<R: Wait, A: Allocator + Copy, G: Gate, T: ValueTable<A>>(
    rt: &R,
    alloc: A,
    gate: &G,
    table: &T,
    worker: Worker,
    call: usize,
) -> Ending
    requires { call < inserts_of worker.job.kind }
{
    if !gate.may_pass(worker.number, call) {
        return Ending::Stuck;
    }
    let inserted = table.insert_value(rt, alloc, worker.value(call));
    gate.answered(worker.number, call);
    if inserted.is_err() {
        return Ending::Refused;
    }
    if worker.job.kind == Kind::InsertLookup
        && call > 0
        && !table.finds_value(worker.value(call - 1))
    {
        return Ending::Missed;
    }
    Ending::Well
}

/// Makes the worker's calls in order, until the gate refuses one or memory is refused.
pub fn insert_all<R: Wait, A: Allocator + Copy, G: Gate, T: ValueTable<A>>(
    rt: &R,
    alloc: A,
    gate: &G,
    table: &T,
    worker: Worker,
) -> Ending {
    let mut ending = Ending::Well;
    for call in 0..worker.job.kind.inserts() {
        ending = ending.and(make_call(rt, alloc, gate, table, worker, call));
        if matches!(ending, Ending::Stuck | Ending::Refused) {
            return ending;
        }
    }
    ending
}

/// Looks up every value that the worker inserted.
pub fn look_all<A: Allocator + Copy, T: ValueTable<A>>(table: &T, worker: Worker) -> Ending {
    for call in 0..worker.job.kind.inserts() {
        if !table.finds_value(worker.value(call)) {
            return Ending::Missed;
        }
    }
    Ending::Well
}
