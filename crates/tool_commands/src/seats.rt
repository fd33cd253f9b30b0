//! The command `seats`: threads that share a number table, each with a seat of its own.
ghost use Rattle.std.specs.Prelude.{◌≡◌, ◌+◌, length, IfErr};
ghost use Rattle.seated.specs.Tables.{IsSeatOf};
ghost use Rattle.seated.specs.Numbers.{own_numbers};
ghost use Rattle.tool_commands.specs.Faults.{IsStartFault, IsThreadFault};

use crate::faults::Fault;
use crate::gate::Gate;
use crate::joining::{Joined, join_all, keep};
use seated::{NumberAnswer, NumberTable, Seat};
use std::alloc::Allocator;
use std::io::Write;
use std::num::NonZeroU64;
use std::sync::Wait;
use std::thread;
use std::thread::{Builder, Threads};
use tool_streams::faults::StreamFault;

/// The capacity of the number table. Each worker inserts one number more.
const WORDS: usize = 1024;

/// The bytes of the stack of each of the program's workers.
pub const WORKER_STACK: usize = 1 << 20;

/// The results of one worker, or of all of them together.
#[derive(Clone, Copy, Drop)]
pub struct Tally {
    /// The number of results `Placed`.
    pub placed: u64,
    /// The number of results `Full`.
    pub full: u64,
    /// True if the gate refused a worker, which then inserted nothing more.
    pub is_stuck: bool,
}

impl Tally {
    fn nothing() -> Tally
        ensures { (result.placed ≡ 0) × (result.full ≡ 0) }
    {
        Tally {
            placed: 0,
            full: 0,
            is_stuck: false,
        }
    }
}

impl Joined for Tally {
    fn none() -> Tally {
        Tally::nothing()
    }

    /// Adds two tallies. A count stops at the greatest number.
    fn and(self, other: Tally) -> Tally {
        Tally {
            placed: self.placed.saturating_add(other.placed),
            full: self.full.saturating_add(other.full),
            is_stuck: self.is_stuck || other.is_stuck,
        }
    }
}

/// Runs `threads` workers at once on one table under this gate, and prints how many results were `Placed` in all, and how many
/// `Full`. If the gate refused a worker, nothing is printed.
///
/// Each worker's thread has a stack of `stack` bytes. If a thread can't be started, for example because the stack is too large,
/// no more are started, the gate is given up, and the run ends with `NoThread` and prints nothing.
pub fn run_seats<R: Threads + Wait, A: Allocator + Copy + Send + Sync, G: Gate + Sync, O: Write>(
    rt: &R,
    alloc: A,
    threads: usize,
    stack: usize,
    gate: &G,
    output: &mut O,
) -> Result<(), Fault>
    ensures fault { IfErr result IsThreadFault }
{
    let tally = run_workers(rt, alloc, threads, stack, gate)?;
    if tally.is_stuck {
        return Err(Fault::GateStuck);
    }
    match writeln!(output, "placed {}\nfull {}", tally.placed, tally.full) {
        Ok(()) => Ok(()),
        Err(_) => Err(Fault::Stream(StreamFault::WriteFailed)),
    }
}

/// Runs the workers under the gate, on a new table.
fn run_workers<R: Threads + Wait, A: Allocator + Copy + Send + Sync, G: Gate + Sync>(
    rt: &R,
    alloc: A,
    threads: usize,
    stack: usize,
    gate: &G,
) -> Result<Tally, Fault>
    ensures fault { IfErr result IsStartFault }
{
    let Ok((table, seat)) = NumberTable::new(alloc, WORDS) else {
        return Err(Fault::Stream(StreamFault::NoMemory));
    };
    start_workers(rt, alloc, threads, stack, gate, &table, seat)
}

/// Runs each worker in a thread of its own, and returns the sum of their results after all have ended.
fn start_workers<R: Threads + Wait, A: Allocator + Copy + Send + Sync, G: Gate + Sync>(
    rt: &R,
    alloc: A,
    threads: usize,
    stack: usize,
    gate: &G,
    table: &NumberTable<A>,
    seat: Seat,
) -> Result<Tally, Fault>
    requires { IsSeatOf table.now seat }
    ensures fault { IfErr result IsStartFault }
{
    let Ok(mut workers) = Vec::with_capacity(alloc, threads) else {
        return Err(Fault::Stream(StreamFault::NoMemory));
    };
    thread::scope(
        thread::scope_env(),
        rt,
        move |scope| -> Result<Tally, Fault>
            requires { IsSeatOf table.now seat }
            ensures { IfErr result IsStartFault }
        {
            let mut last = seat;
            for worker in 0..threads {
                let Ok((rest, own)) = table.split(last) else {
                    unreachable!()
                };
                last = rest;
                let started = Builder::new().stack_size(stack).spawn_scoped(
                    scope,
                    move || -> Tally
                        requires { IsSeatOf table.now own }
                    { work(gate, worker, table, own).1 },
                );
                keep(&mut workers, started, gate)?;
            }
            Ok(join_all(rt, workers))
        },
    )
}

/// Inserts the numbers from 1 to one more than the table holds, in order, as long as the gate lets it. Returns the seat and the
/// worker's results.
pub fn work<A: Allocator + Copy, G: Gate>(
    gate: &G,
    worker: usize,
    table: &NumberTable<A>,
    mut seat: Seat,
) -> (Seat, Tally)
    requires { IsSeatOf table.now seat }
    ensures seat { IsSeatOf table.entry.now result.0 }
    ensures placed { length (own_numbers result.0) ≡ length (own_numbers seat) + result.1.placed }
{
    let mut tally = Tally::nothing();
    for call in 0..=WORDS {
        if !gate.may_pass(worker, call) {
            tally.is_stuck = true;
            return (seat, tally);
        }
        if let Some(number) = NonZeroU64::new(call as u64 + 1) {
            match table.insert(&mut seat, number) {
                NumberAnswer::Placed => tally.placed += 1,
                NumberAnswer::Found => {}
                NumberAnswer::Full => tally.full += 1,
            }
        }
        gate.answered(worker, call);
    }
    (seat, tally)
}
