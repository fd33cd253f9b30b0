//! Calls on a running table, which take one step at a time.
ghost use Rattle.table_terms.specs.Capacities.{IsFirstCapacity};
ghost use Rattle.testkit_replay.specs.Running.{IsReady, MayGo};

use crate::fault::ReplayFault;
use crate::item::{Item, Said, reply_of_insert, reply_of_lookup};
use crate::replay::{Ground, Replay, Turn, new_table};
use crate::script::Script;
use std::alloc::Global;
use table_cell::Low;
use table_core::call::CallState;
use table_shared::{InsertCall, LockFreeRawTable, LookupCall, Progress};
use testkit::refusing::{Refusing, Rule};

/// A table of the values of a schedule.
pub type Table<A> = LockFreeRawTable<Box<Item>, A>;

/// The result of a step.
#[derive(Clone, Copy, PartialEq)]
pub enum Took {
    /// The call took a step, and hasn't ended.
    Moved,
    /// The call took no step: others hold the lock that it needs, or it had ended.
    Blocked,
    /// The call took its last step, and has this reply.
    Ended(Said),
}

/// The result of a step, and the state of the call after it.
#[derive(Clone, Copy)]
pub struct Stepped {
    pub took: Took,
    pub state: CallState,
}

/// A schedule. It says turn by turn what the table does.
pub trait Schedule {
    /// Returns the next turn. `Err`: a fault, which ends the replay.
    fn next<A: Low + Copy>(&mut self, replay: &mut Replay<'_, A>) -> Result<Turn, ReplayFault>;

    /// Takes the result of the step that was the last turn. `Err`: the result isn't the expected one.
    fn hear<A: Low + Copy>(
        &mut self,
        replay: &mut Replay<'_, A>,
        stepped: Stepped,
    ) -> Result<(), ReplayFault>;
}

/// A call that runs one step at a time.
pub enum Steps<'a, A: Low + Copy, E, H, F> {
    Insert(InsertCall<'a, Box<Item>, A, E, H>),
    Lookup(LookupCall<'a, Box<Item>, A, F>),
}

impl<A: Low + Copy, E: Drop, H: Drop, F: Drop> Drop for Steps<'_, A, E, H, F> {
    fn drop(self) {
        match self {
            Steps::Insert(_call) => (),
            Steps::Lookup(_call) => (),
        }
    }
}

impl<A: Low + Copy, E: Fn(&Item, &Item) -> bool, H: Fn(&Item) -> u64, F: Fn(&Item) -> bool> Steps<
    '_,
    A,
    E,
    H,
    F,
> {
    /// Takes one step, and returns its result.
    fn advance(&mut self) -> Stepped
        requires may_go { MayGo E.IsAlwaysCallable H.IsAlwaysCallable F.IsAlwaysCallable E.Fn
            self.old }
        ensures may_go { MayGo E.IsAlwaysCallable H.IsAlwaysCallable F.IsAlwaysCallable E.Fn
            self.new }
    {
        let (took, state) = match self {
            Steps::Insert(call) => (took_insert(&call.advance()), call.state()),
            Steps::Lookup(call) => (took_lookup(call.advance()), call.state()),
        };
        Stepped { took, state }
    }
}

/// Converts the result of a step of an insert.
fn took_insert(progress: &Progress<Result<(&Item, Option<Box<Item>>), Box<Item>>>) -> Took {
    match progress {
        Progress::Moved => Took::Moved,
        Progress::Blocked => Took::Blocked,
        Progress::Done(reply) => Took::Ended(reply_of_insert(reply)),
    }
}

/// Converts the result of a step of a look-up.
fn took_lookup(progress: Progress<Option<&Item>>) -> Took {
    match progress {
        Progress::Moved => Took::Moved,
        Progress::Blocked => Took::Blocked,
        Progress::Done(reply) => Took::Ended(reply_of_lookup(reply)),
    }
}

/// The calls of a schedule, in the order in which they began, and the closures that they call.
#[derive(Drop)]
pub struct Calls<'a, A: Low + Copy, E, H, F> {
    table: &'a Table<A>,
    eq: E,
    hash_fn: H,
    test: F,
    begun: Vec<Steps<'a, A, E, H, F>>,
}

impl<
    'a,
    A: Low + Copy,
    E: Fn(&Item, &Item) -> bool + Copy,
    H: Fn(&Item) -> u64 + Copy,
    F: Fn(&Item) -> bool + Copy,
> Calls<'a, A, E, H, F> {
    /// Runs the turns of a schedule to its end. `Err`: the first fault.
    pub fn run<S: Schedule>(
        &mut self,
        replay: &mut Replay<'_, A>,
        schedule: &mut S,
    ) -> Result<(), ReplayFault>
        requires ready { IsReady E.IsAlwaysCallable H.IsAlwaysCallable F.IsAlwaysCallable E.Fn
            self.old }
    {
        for _turn in 0..u64::MAX {
            match schedule.next(replay)? {
                Turn::Insert(value) => {
                    let (table, hash) = (self.table, value.hash);
                    let call = InsertCall::new(table, hash, value, self.eq, self.hash_fn);
                    self.add(Steps::Insert(call))?
                }
                Turn::Lookup(hash) => {
                    let call = LookupCall::new(self.table, hash, self.test);
                    self.add(Steps::Lookup(call))?
                }
                Turn::Step(index) => schedule.hear(replay, self.advance(index)?)?,
                Turn::Nothing => (),
                Turn::End => return Ok(()),
            }
        }
        Err(ReplayFault::Unfinished)
    }

    /// Adds this call, which has begun. `Err`: no memory.
    fn add(&mut self, call: Steps<'a, A, E, H, F>) -> Result<(), ReplayFault>
        requires ready { IsReady E.IsAlwaysCallable H.IsAlwaysCallable F.IsAlwaysCallable E.Fn
            self.old }
        requires may_go { MayGo E.IsAlwaysCallable H.IsAlwaysCallable F.IsAlwaysCallable E.Fn call }
        ensures ready { IsReady E.IsAlwaysCallable H.IsAlwaysCallable F.IsAlwaysCallable E.Fn
            self.new }
    {
        match self.begun.push(call) {
            Ok(()) => Ok(()),
            Err(_refused) => Err(ReplayFault::NoMemory),
        }
    }

    /// Takes one step of the call at this index. `Err`: there is no such call.
    fn advance(&mut self, index: usize) -> Result<Stepped, ReplayFault>
        requires ready { IsReady E.IsAlwaysCallable H.IsAlwaysCallable F.IsAlwaysCallable E.Fn
            self.old }
        ensures ready { IsReady E.IsAlwaysCallable H.IsAlwaysCallable F.IsAlwaysCallable E.Fn
            self.new }
    {
        match self.begun.get_mut(index) {
            Some(steps) => Ok(steps.advance()),
            None => Err(ReplayFault::Unfinished),
        }
    }
}

/// Runs a schedule on a table whose memory has this rule, and on the machine. `Err`: the first fault.
pub(crate) fn run_schedule<S: Schedule>(
    alloc: Global,
    first: u64,
    rule: Rule,
    script: &Script,
    schedule: &mut S,
) -> Result<(), ReplayFault>
    requires { IsFirstCapacity first }
{
    let heap = Refusing::new(alloc, rule);
    run_over(alloc, &heap, &heap, first, script, schedule)
}

/// Runs a schedule on a table over this memory, and on the machine. `heap` can refuse the memory's requests. `Err`: the first fault.
fn run_over<S: Schedule, A: Low + Copy>(
    alloc: Global,
    heap: &Refusing<Global>,
    memory: A,
    first: u64,
    script: &Script,
    schedule: &mut S,
) -> Result<(), ReplayFault>
    requires { IsFirstCapacity first }
{
    let table = new_table(memory, first);
    let mut replay = Replay::new(Ground::new(alloc, heap, first, &table), script);
    let mut calls = Calls {
        table: &table,
        eq: |new: &Item, entry: &Item| script.says(new.class, entry),
        hash_fn: |entry: &Item| script.rehashes(entry),
        test: |entry: &Item| script.seeks(entry),
        begun: Vec::new(alloc),
    };
    calls.run(&mut replay, schedule)
}
