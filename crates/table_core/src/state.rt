//! The machine in a reachable state, and whole schedules.
ghost use Rattle.std.specs.Prelude.{◌≡◌, ◌++◌, option_to_list, OnOk, OnErr, IfOk};
ghost use Rattle.table_terms.specs.Capacities.{IsFirstCapacity};
ghost use Rattle.table_core.specs.Calls.{state_of};
ghost use Rattle.table_core.specs.History.{replies, buckets};
ghost use Rattle.table_core.specs.Machine.{empty, happens, finishes, AsksMemory};

use crate::call::CallState;
use crate::event::Event;
use crate::machine::Machine;
use crate::reply::Finished;
use std::alloc::{AllocError, AllocFailed, Allocator, Global};
use std::marker::Model;

/// The error of a request for memory that was refused.
#[derive(Clone, Copy, Debug)]
pub struct NoMemory;

impl From<AllocError> for NoMemory {
    fn from(_refused: AllocError) -> NoMemory {
        NoMemory
    }
}

impl<T: Drop> From<AllocFailed<T>> for NoMemory {
    fn from(_refused: AllocFailed<T>) -> NoMemory {
        NoMemory
    }
}

/// A table with its calls, in a state that some schedule leads to. All its memory comes from one allocator.
#[derive(Drop)]
pub struct State<A: Allocator + Copy = Global> {
    machine: Machine<A>,
}

impl<A: Allocator + Copy> Model for State<A> {
    ghost use Rattle.table_core.specs.Machine.{World};
    ghost use Rattle.table_core.specs.Reached.{IsReached};

    ghost Value = { World };

    ghost view = { λ s. s.machine };

    ghost invariant = { λ s. IsReached s.machine };
}

impl<A: Allocator + Copy> State<A> {
    /// Makes a state without generations and calls. The first generation will have 16 buckets. Does not allocate.
    pub fn new(alloc: A) -> Self
        ensures { result ≡ empty 16 }
    {
        State::with_first_capacity(alloc, 16)
    }

    /// Makes a state without generations and calls. The first generation will have `first` buckets, a power of two from 16 to
    /// 2^30. Does not allocate.
    pub fn with_first_capacity(alloc: A, first: u64) -> Self
        requires { IsFirstCapacity first }
        ensures { result ≡ empty first }
    {
        State {
            machine: Machine::new(alloc, first),
        }
    }

    /// Takes one event, and returns the call that finishes by it, with its reply. An event that isn't taken changes nothing. If
    /// memory is refused the state is unchanged. Only these events allocate: those that begin a call, place a value, begin,
    /// continue or end a growth, or show an entry to a walk.
    pub fn step(&mut self, event: Event) -> Result<Option<Finished<A>>, NoMemory>
        ensures ok { OnOk result (self.new ≡ happens self.old event) }
        ensures reply { IfOk result (λ r. r ≡ finishes self.old event) }
        ensures err { OnErr result (self.new ≡ self.old) }
        ensures asks { OnErr result (AsksMemory self.old event) }
    {
        let finished = self.machine.step(event)?;
        Ok(finished)
    }

    /// Returns the state of the call of this number, if one has begun. Does not change the state.
    pub fn state_of(&self, call: u64) -> Option<CallState>
        ensures { result ≡ state_of call self.now.calls }
    {
        self.machine.state_of(call)
    }

    /// Returns the number of buckets of all generations together, with the one being built.
    pub fn buckets(&self) -> u64
        ensures { result ≡ buckets self.now.table }
    {
        self.machine.buckets()
    }
}

/// Appends a reply, if there is one.
fn push_finished<A: Allocator + Copy>(
    replies: &mut Vec<Finished<A>, A>,
    finished: Option<Finished<A>>,
) -> Result<(), AllocFailed<Finished<A>>>
    ensures { OnOk result (replies.new.items ≡ replies.old.items ++ option_to_list finished) }
{
    match finished {
        Some(finished) => replies.push(finished),
        None => Ok(()),
    }
}

/// Runs a schedule from a first generation of 16 buckets, and returns the replies in the order in which its calls finish. The
/// list lies in memory of `alloc`; an `Err` means that memory was refused.
pub fn run<A: Allocator + Copy>(alloc: A, events: &[Event]) -> Result<Vec<Finished<A>, A>, NoMemory>
    ensures { IfOk result (λ v. v.items ≡ replies (empty 16) events.now) }
{
    run_with(alloc, 16, events)
}

/// Runs a schedule from a first generation of `first` buckets, a power of two from 16 to 2^30, and returns the replies in the
/// order in which its calls finish. The list lies in memory of `alloc`; an `Err` means that memory was refused.
pub fn run_with<A: Allocator + Copy>(
    alloc: A,
    first: u64,
    events: &[Event],
) -> Result<Vec<Finished<A>, A>, NoMemory>
    requires { IsFirstCapacity first }
    ensures { IfOk result (λ v. v.items ≡ replies (empty first) events.now) }
{
    let mut state = State::with_first_capacity(alloc, first);
    let mut replies = Vec::new(alloc);
    for event in events {
        let finished = state.step(*event)?;
        push_finished(&mut replies, finished)?;
    }
    Ok(replies)
}
