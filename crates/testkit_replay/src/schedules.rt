//! Schedules of calls that take one step at a time: random ones, and given ones.
ghost use Rattle.table_terms.specs.Capacities.{IsFirstCapacity};

use crate::events::{answers_of, takes};
use crate::fault::{ReplayFault, check, granted};
use crate::replay::{Refusals, Replay, Turn, any_request};
use crate::running::{Schedule, Stepped, Took, run_schedule};
use crate::script::{Manner, Script};
use std::alloc::Global;
use table_cell::Low;
use table_core::call::Phase;
use table_core::event::Event;

/// The number of steps within which a call, or the last calls of a schedule, must end.
const STEPS: u64 = 1000;

/// The number of classes from which calls are drawn.
const CLASSES: u64 = 60;

/// The kind of a call, with a class and a hash.
#[derive(Clone, Copy, PartialEq)]
pub enum Ask {
    /// An insert of a value of this class and this hash.
    Insert(u64, u64),
    /// A look-up of this class and this hash.
    Lookup(u64, u64),
}

/// Draws a class, and returns it with its hash. Different classes can have the same hash, or only the same first bucket, with the same
/// mark or with another one.
pub(crate) fn draw_class(script: &Script) -> (u64, u64) {
    let class = script.draw(CLASSES);
    (class, (class % 24) | ((class / 24 & 1) << 32))
}

/// Draws a call. One in three is a look-up, or none if `lookups` is false.
fn draw_ask(script: &Script, lookups: bool) -> Ask {
    let (class, hash) = draw_class(script);
    if lookups && script.draw(3) == 0 {
        Ask::Lookup(class, hash)
    } else {
        Ask::Insert(class, hash)
    }
}

/// A leg of a schedule. A call has an index: its place among those that have begun.
#[derive(Clone, Copy)]
pub enum Leg {
    /// The next call begins.
    Begin(Ask),
    /// The call at this index takes a step, with these refusals.
    Step(usize, Refusals),
    /// The call at this index takes steps as long as it moves, at most so many.
    Run(usize, u64),
    /// All calls take steps in turn, from the one at this index on, each until it is blocked or ends. They end within so many steps.
    RunAll(usize, u64),
    /// This event happens. If a call begins by it, its value, or what it looks for, is of this class.
    Event(Event, u64),
    /// The numbers of buckets are compared.
    Buckets,
}

/// A schedule of legs: what is left of the current one, and those after it.
#[derive(Drop)]
pub(crate) struct Legs<'l> {
    current: Leg,
    after: &'l [Leg],
}

impl Legs<'_> {
    /// Goes on to the next leg, and returns the turn by which it begins. `Err`: a fault.
    fn go_on<A: Low + Copy>(&mut self, replay: &mut Replay<'_, A>) -> Result<Turn, ReplayFault> {
        let Some((leg, after)) = self.after.split_first() else {
            return replay.end();
        };
        self.after = after;
        self.current = *leg;
        match *leg {
            Leg::Begin(ask) => replay.begin_next(ask),
            Leg::Step(index, refusals) => Ok(replay.step_refused(index, refusals)),
            Leg::Run(..) | Leg::RunAll(..) => Ok(Turn::Nothing),
            Leg::Event(event, class) => follow_event(replay, event, class),
            Leg::Buckets => {
                replay.compare_buckets()?;
                Ok(Turn::Nothing)
            }
        }
    }
}

impl Schedule for Legs<'_> {
    fn next<A: Low + Copy>(&mut self, replay: &mut Replay<'_, A>) -> Result<Turn, ReplayFault> {
        match self.current {
            Leg::Run(index, steps) if steps != 0 => Ok(replay.step_refused(index, (0, 0))),
            Leg::RunAll(_, 0) if !replay.all_ended() => Err(ReplayFault::Unfinished),
            Leg::RunAll(index, _) if !replay.all_ended() => Ok(replay.step_refused(index, (0, 0))),
            _ => self.go_on(replay),
        }
    }

    fn hear<A: Low + Copy>(
        &mut self,
        replay: &mut Replay<'_, A>,
        stepped: Stepped,
    ) -> Result<(), ReplayFault> {
        let moved = stepped.took == Took::Moved;
        self.current = match self.current {
            Leg::Event(event, _) => return hear_event(replay, event, stepped),
            Leg::Run(index, steps) if moved => Leg::Run(index, steps.saturating_sub(1)),
            Leg::Run(index, _) => Leg::Run(index, 0),
            Leg::RunAll(index, steps) => {
                let next = index.saturating_add(usize::from(!moved));
                let index = next.checked_rem(replay.begun()).unwrap_or(0);
                Leg::RunAll(index, steps.saturating_sub(1))
            }
            leg => leg,
        };
        replay.follow(stepped)
    }
}

/// Adds a call that runs to its end. `index` is its index. `Err`: no memory.
pub fn add_whole(legs: &mut Vec<Leg>, index: usize, ask: Ask) -> Result<(), ReplayFault> {
    granted(legs.push(Leg::Begin(ask)))?;
    granted(legs.push(Leg::RunAll(index, STEPS)))
}

/// Draws a schedule. Two to five calls on a table of up to 40 entries take steps in random order, and then run to their ends. If
/// `refuses`, a request for memory may be refused in one of four random steps. `Err`: no memory.
fn draw_legs(alloc: Global, script: &Script, refuses: bool) -> Result<Vec<Leg>, ReplayFault> {
    let mut legs = Vec::new(alloc);
    let filled = script.draw(41) as usize;
    for index in 0..filled {
        add_whole(&mut legs, index, draw_ask(script, false))?;
    }
    let calls = script.draw(4).saturating_add(2);
    draw_calls(&mut legs, script, calls)?;
    draw_steps(&mut legs, script, (filled, calls), refuses)?;
    granted(legs.push(Leg::RunAll(filled, STEPS)))?;
    Ok(legs)
}

/// Draws so many calls that begin. `Err`: no memory.
fn draw_calls(legs: &mut Vec<Leg>, script: &Script, calls: u64) -> Result<(), ReplayFault> {
    for _call in 0..calls {
        granted(legs.push(Leg::Begin(draw_ask(script, true))))?;
    }
    Ok(())
}

/// Draws the random steps of these calls: the index of the first, and their number. `Err`: no memory.
fn draw_steps(
    legs: &mut Vec<Leg>,
    script: &Script,
    calls: (usize, u64),
    refuses: bool,
) -> Result<(), ReplayFault> {
    for _step in 0..script.draw(300) {
        let index = calls.0.saturating_add(script.draw(calls.1) as usize);
        let refusals = if refuses && script.draw(4) == 0 {
            (script.draw(6), 1)
        } else {
            (0, 0)
        };
        granted(legs.push(Leg::Step(index, refusals)))?;
    }
    Ok(())
}

/// Follows an event. If its call has begun and isn't on the table, only the machine takes the event. If the call can't take it there, the
/// machine mustn't either. `Err`: a fault.
fn follow_event<A: Low + Copy>(
    replay: &mut Replay<'_, A>,
    event: Event,
    class: u64,
) -> Result<Turn, ReplayFault> {
    if let Event::Insert { .. }
    | Event::Lookup { .. }
    | Event::Len { .. }
    | Event::Walk { .. } = event
    {
        return replay.begin(event, class);
    }
    let Some((index, state)) = replay.find(event.call()) else {
        replay.take(event)?;
        return Ok(Turn::Nothing);
    };
    if !takes(state.phase, event) {
        replay.compare_step(event, Took::Blocked, state)?;
        return Ok(Turn::Nothing);
    }
    let answers = answers_of(event);
    let refused = u64::from(!answers.granted);
    replay.ground.heap.refuse(0, refused);
    Ok(replay.step(index, answers.accepted, answers.hash))
}

/// Takes the result of the step that is this event. `Err`: the machine does something else, or the step is another one.
fn hear_event<A: Low + Copy>(
    replay: &mut Replay<'_, A>,
    event: Event,
    stepped: Stepped,
) -> Result<(), ReplayFault> {
    replay.follow_by(event, stepped)?;
    let copied = stepped.state.phase == Phase::Building;
    let fault = ReplayFault::Step(event.call());
    match event {
        Event::Copy { .. } => check(copied, fault),
        Event::Show { .. } => check(!copied, fault),
        _ => Ok(()),
    }
}

/// Runs these legs on a table and on the machine, both without a generation at first. The first generations of both have `first` buckets.
/// Closures answer by the script. `Err`: the first fault.
pub fn run_legs(alloc: Global, first: u64, script: &Script, legs: &[Leg]) -> Result<(), ReplayFault>
    requires { IsFirstCapacity first }
{
    let mut legs = Legs {
        current: Leg::Run(0, 0),
        after: legs,
    };
    run_schedule(alloc, first, any_request(), script, &mut legs)
}

/// Returns the capacity of the first generation in schedules and interleavings that are drawn.
pub fn drawn_capacity() -> u64
    ensures { IsFirstCapacity result }
{
    16
}

/// Runs the schedule of a seed. Half of the seeds have careless closures, and half have requests for memory refused. `Err`: the first
/// fault.
pub fn run_seed(alloc: Global, seed: u64) -> Result<(), ReplayFault> {
    let manner = if seed % 2 == 0 {
        Manner::Lawful
    } else {
        Manner::Careless
    };
    let script = Script::new(manner, seed);
    let legs = draw_legs(alloc, &script, seed % 4 >= 2)?;
    run_legs(alloc, drawn_capacity(), &script, legs.as_slice())
}

/// Runs `seeds` seeds from `first_seed` on by `run`. Returns the first seed that has a fault, with that fault.
pub fn first_fault<F: Fn(u64) -> Result<(), ReplayFault>>(
    first_seed: u64,
    seeds: u64,
    run: F,
) -> Option<(u64, ReplayFault)>
    requires { F.IsAlwaysCallable run }
{
    for index in 0..seeds {
        let seed = first_seed.wrapping_add(index);
        if let Err(fault) = run(seed) {
            return Some((seed, fault));
        }
    }
    None
}
