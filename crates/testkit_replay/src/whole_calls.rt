//! Whole inserts and look-ups on a running table: of one thread, with other whole calls inside their closures, or of two threads.
//!
//! The calls of a plan are first rehearsed by stepped calls beside the machine. They are then repeated by whole calls on another table. There
//! each closure must be called with the same entry at the same stop, and each call must have the same reply. The table must show the same at
//! the end and, if no other thread runs, at each stop but those at which a request is held.
ghost use Rattle.table_terms.specs.Capacities.{IsFirstCapacity};

mod player;
mod rehearsal;
mod stops;

use crate::fault::ReplayFault;
use crate::item::Said;
pub use crate::replay::Refusals;
use crate::replay::{Ground, any_request, new_table};
use crate::running::run_schedule;
use crate::schedules::{Ask, drawn_capacity};
use crate::script::{Manner, Script};
use crate::whole_calls::player::play;
use crate::whole_calls::rehearsal::Rehearsal;
use std::alloc::Global;
use std::mem::swap;
use std::sync::Wait;
use std::thread::Threads;
use table_cell::Low;
use testkit::refusing::Refusing;

/// The number of calls of each thread in an interleaving that is drawn.
const CALLS: u64 = 20;

/// The number of times that a thread checks whether its turn has begun. It sleeps between two checks, so that it waits some twenty seconds
/// for a turn that doesn't begin.
const LOOKS: u64 = 4000;

/// A whole call that doesn't run inside another one (a top call), and its refusals.
pub type Top = (Ask, Refusals);

/// The moment in a call at which other calls begin, the first of its kind.
#[derive(Clone, Copy, PartialEq)]
pub enum Moment {
    /// When a closure is called. The other calls run inside it.
    InClosure,
    /// When it has read an empty bucket, and requests the block of its value. The other calls run on another thread.
    AtBucket,
    /// When its growth asks for a hash. The other calls run on another thread.
    InGrowth,
}

/// Top calls, one after the other, and the other calls that begin in the last of them.
#[derive(Clone, Copy)]
pub struct Worked<'c> {
    /// The number of inserts that come first. The class and the hash of each are the number of its call. None of their requests is refused.
    pub filled: u64,
    pub then: &'c [Top],
    pub moment: Moment,
    pub others: &'c [Ask],
}

impl Worked<'_> {
    /// Returns the call with this number and its refusals, if there is one.
    pub(crate) fn at(self, number: u64) -> Option<Top> {
        if number < self.filled {
            return Some((Ask::Insert(number, number), (0, 0)));
        }
        let index = number.saturating_sub(self.filled) as usize;
        match self.then.get(index) {
            Some(top) => Some(*top),
            None => {
                let other = self.others.get(index.saturating_sub(self.then.len()))?;
                Some((*other, (0, 0)))
            }
        }
    }
}

/// The calls that run on a table. It starts without a generation.
#[derive(Clone, Copy)]
pub enum Plan<'c> {
    /// So many random calls of each of two threads, which take random turns.
    Turns(u64),
    /// `tops` random calls of one thread, with random calls inside their closures. If `refuses`, some requests for memory are refused.
    Nested { tops: u64, refuses: bool },
    /// These calls.
    Worked(Worked<'c>),
}

impl Plan<'_> {
    /// Returns how many top calls each of the two threads makes.
    pub(crate) fn tops(self) -> (u64, u64) {
        match self {
            Plan::Turns(calls) => (calls, calls),
            Plan::Nested { tops, .. } => (tops, 0),
            Plan::Worked(worked) => {
                let tops = worked.filled.saturating_add(worked.then.len() as u64);
                match worked.moment {
                    Moment::InClosure => (tops, 0),
                    _ => (tops, worked.others.len() as u64),
                }
            }
        }
    }
}

/// Rehearses the calls of a plan beside the machine, and repeats them by whole calls. Returns the number and the reply of each call, in the
/// order in which the calls end. `Err`: the first fault.
pub fn run_whole<R: Threads + Wait + Sync>(
    rt: &R,
    alloc: Global,
    first: u64,
    manner: Manner,
    seed: u64,
    plan: Plan<'_>,
) -> Result<Vec<(u64, Said)>, ReplayFault>
    requires { IsFirstCapacity first }
{
    let script = Script::new(manner, seed);
    let mut rehearsal = Rehearsal::new(alloc, &script, plan);
    run_schedule(alloc, first, any_request(), &script, &mut rehearsal)?;
    let heap = Refusing::new(alloc, any_request().in_turns(LOOKS));
    play_over(rt, alloc, &heap, &heap, first, &rehearsal)?;
    let mut ended = Vec::new(alloc);
    swap(&mut ended, &mut rehearsal.ended);
    Ok(ended)
}

/// Repeats what was rehearsed, on a table over this memory. `heap` can refuse the memory's requests. `Err`: the first fault.
fn play_over<R: Threads + Wait + Sync, A: Low + Copy + Send + Sync>(
    rt: &R,
    alloc: Global,
    heap: &Refusing<Global>,
    memory: A,
    first: u64,
    rehearsal: &Rehearsal<'_>,
) -> Result<(), ReplayFault>
    requires { IsFirstCapacity first }
{
    let table = new_table(memory, first);
    play(rt, Ground::new(alloc, heap, first, &table), rehearsal)
}

/// Runs the interleaving of a seed, of whole calls of two threads. `Err`: the first fault.
pub fn run_interleaved<R: Threads + Wait + Sync>(
    rt: &R,
    alloc: Global,
    seed: u64,
) -> Result<(), ReplayFault> {
    let plan = Plan::Turns(CALLS);
    let _ended = run_whole(rt, alloc, drawn_capacity(), Manner::Lawful, seed, plan)?;
    Ok(())
}
