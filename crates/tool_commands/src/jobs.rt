//! A job of `stress`: workers that share a table at the same time.
ghost use Rattle.std.specs.Prelude.{◌≡◌, ◌<◌, ◌≤◌, IfOk, IfErr};
ghost use Rattle.tool_commands.specs.Faults.{IsStartFault, IsJobFault};
ghost use Rattle.tool_commands.specs.Stress.{entries_of};

use crate::endings::Ending;
use crate::faults::Fault;
use crate::gate::Gate;
use crate::job::Job;
use crate::joining::{join_all, keep};
use crate::kinds::Kind;
use crate::workers::{ValueTable, Worker, insert_all, look_all};
use std::alloc::Allocator;
use std::sync::Wait;
use std::thread;
use std::thread::{Builder, Threads};
use tool_streams::faults::StreamFault;

/// The workers that run at the same time.
#[derive(Clone, Copy)]
pub struct Crew {
    /// The number of workers.
    pub threads: usize,
    /// The bytes of the stack of each worker's thread.
    pub stack: usize,
    ghost few: { threads ≤ 64 },
}

impl Crew {
    /// Makes a crew of `threads` workers, with stacks of `stack` bytes.
    pub fn new(threads: usize, stack: usize) -> Crew
        requires { threads ≤ 64 }
        ensures { result.threads ≡ threads }
    {
        Crew { threads, stack }
    }
}

/// A part of a job. All workers end the first before the second begins.
#[derive(Clone, Copy)]
pub enum Part {
    /// Each worker makes its inserts.
    Inserts,
    /// Each worker looks up what it inserted.
    Lookups,
}

/// Runs the job on this table, which is empty and used by no other job, under its own gate. Returns the number of entries that an
/// iterator over the table then shows: as many as different values were inserted.
pub fn run_job<
    R: Threads + Wait + Sync,
    A: Allocator + Copy + Send + Sync,
    G: Gate + Sync,
    T: ValueTable<A> + Sync,
>(rt: &R, alloc: A, crew: Crew, gate: &G, table: &T, job: Job) -> Result<usize, Fault>
    ensures entries { IfOk result (λ entries. entries ≡ entries_of job.kind crew.threads) }
    ensures fault { IfErr result IsJobFault }
{
    run_part(rt, alloc, crew, gate, table, job, Part::Inserts)?;
    if job.kind != Kind::InsertLookup {
        run_part(rt, alloc, crew, gate, table, job, Part::Lookups)?;
    }
    let entries = table.walked_entries();
    if entries != job.kind.entries(crew.threads) {
        return Err(Fault::JobFailed {
            kind: job.kind,
            job: job.number,
        });
    }
    Ok(entries)
}

/// Runs a part of the job. If several faults hold, returns the first in this order: no thread, no memory, a gate that is stuck, a
/// look-up that missed.
fn run_part<
    R: Threads + Wait + Sync,
    A: Allocator + Copy + Send + Sync,
    G: Gate + Sync,
    T: ValueTable<A> + Sync,
>(rt: &R, alloc: A, crew: Crew, gate: &G, table: &T, job: Job, part: Part) -> Result<(), Fault>
    ensures fault { IfErr result IsJobFault }
{
    let ending = start_workers(rt, alloc, crew, gate, table, job, part)?;
    match ending.fault(job) {
        None => Ok(()),
        Some(fault) => Err(fault),
    }
}

/// Runs each worker in a thread of its own, and returns their joint ending after all have ended.
fn start_workers<
    R: Threads + Wait + Sync,
    A: Allocator + Copy + Send + Sync,
    G: Gate + Sync,
    T: ValueTable<A> + Sync,
>(rt: &R, alloc: A, crew: Crew, gate: &G, table: &T, job: Job, part: Part) -> Result<Ending, Fault>
    ensures fault { IfErr result IsStartFault }
{
    let Ok(mut workers) = Vec::with_capacity(alloc, crew.threads) else {
        return Err(Fault::Stream(StreamFault::NoMemory));
    };
    thread::scope(
        thread::scope_env(),
        rt,
        move |scope| -> Result<Ending, Fault>
            requires { crew.threads ≤ 64 }
            ensures { IfErr result IsStartFault }
        {
            for number in 0..crew.threads {
                let worker = Worker::new(job, number);
                let started = Builder::new()
                    .stack_size(crew.stack)
                    .spawn_scoped(scope, move || -> Ending {
                        work(rt, alloc, gate, table, worker, part)
                    });
                keep(&mut workers, started, gate)?;
            }
            Ok(join_all(rt, workers))
        },
    )
}

/// Runs the worker's part of its job.
fn work<R: Wait, A: Allocator + Copy, G: Gate, T: ValueTable<A>>(
    rt: &R,
    alloc: A,
    gate: &G,
    table: &T,
    worker: Worker,
    part: Part,
) -> Ending {
    match part {
        Part::Inserts => insert_all(rt, alloc, gate, table, worker),
        Part::Lookups => look_all(table, worker),
    }
}
