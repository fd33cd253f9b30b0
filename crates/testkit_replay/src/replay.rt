//! Runs a schedule on a table and on the machine, and compares what they do.
ghost use Rattle.std.specs.Prelude.{◌≡◌};
ghost use Rattle.table_terms.specs.Capacities.{IsFirstCapacity};

use crate::events::{Answers, event_of};
use crate::fault::{ReplayFault, check, granted};
use crate::item::{Item, Said, reply_of_machine};
use crate::running::{Stepped, Table, Took};
use crate::schedules::Ask;
use crate::script::Script;
use std::alloc::Global;
use table_cell::Low;
use table_core::call::{CallState, Phase};
use table_core::event::Event;
use table_core::reply::{Finished, Reply};
use table_core::state::State;
use table_shared::LockFreeRawTable;
use testkit::refusing::{Refusing, Rule};

/// The replay's own calls of the machine have numbers from this one on, far from those of a schedule.
const OWN_CALLS: u64 = 1 << 32;

/// The maximum number of reads of a walk.
const READS: u64 = 1 << 12;

/// How many requests for memory are granted first, and how many of the next are refused.
pub type Refusals = (u64, u64);

/// Makes a table without a generation. Its first generation will have `first` buckets.
pub(crate) fn new_table<A: Low + Copy>(memory: A, first: u64) -> Table<A>
    requires { IsFirstCapacity first }
{
    LockFreeRawTable::with_first_capacity(memory, first as usize)
}

/// Returns a rule under which any request for memory can be refused.
pub(crate) fn any_request() -> Rule {
    Rule::new(0, usize::MAX, 0, 0)
}

/// A table, the heap that can refuse its requests, and the capacity of its first generation.
#[derive(Clone, Copy)]
pub(crate) struct Ground<'a, A: Low + Copy> {
    pub(crate) alloc: Global,
    pub(crate) first: u64,
    pub(crate) heap: &'a Refusing<Global>,
    pub(crate) table: &'a Table<A>,
}

impl<'a, A: Low + Copy> Ground<'a, A> {
    /// Makes a ground. `heap` can refuse the requests of `table`.
    pub(crate) fn new(
        alloc: Global,
        heap: &'a Refusing<Global>,
        first: u64,
        table: &'a Table<A>,
    ) -> Self
        ensures { result.first ≡ first }
    {
        Ground {
            alloc,
            first,
            heap,
            table,
        }
    }

    /// Returns the number of buckets of all generations of the table. Each generation has twice as many as the one before.
    pub(crate) fn buckets(self) -> u64 {
        match self.table.current(&mut self.table.note()) {
            Some(current) => (current.generation.capacity() as u64)
                .saturating_mul(2)
                .saturating_sub(self.first),
            None => 0,
        }
    }

    /// Returns whether less than half of the buckets are set after one more insert. It then doesn't grow the table.
    pub(crate) fn has_room(self) -> bool {
        match self.table.current(&mut self.table.note()) {
            Some(current) => {
                self.table.len().saturating_add(1) < current.generation.capacity() / 2
            }
            None => false,
        }
    }
}

/// What the table does in the next turn of a schedule.
#[derive(Drop)]
pub enum Turn {
    /// An insert of this value begins.
    Insert(Box<Item>),
    /// A look-up of this hash begins.
    Lookup(u64),
    /// The call at this index takes a step.
    Step(usize),
    /// The table does nothing in this turn.
    Nothing,
    /// The schedule has ended.
    End,
}

/// A call of a schedule: its number, the number of its value if it is an insert, the class of that value or of what it looks for, its
/// state, and its reply once it has ended.
#[derive(Clone, Copy)]
struct Call {
    number: u64,
    value: Option<u64>,
    class: u64,
    state: CallState,
    said: Option<Said>,
}

/// A schedule that is running on a table and on the machine. A call of the table has an index: its place among those that have begun.
#[derive(Drop)]
pub struct Replay<'a, A: Low + Copy> {
    pub(crate) ground: Ground<'a, A>,
    pub(crate) script: &'a Script,
    machine: State,
    calls: Vec<Call>,
    /// The numbers of all calls that have begun, with the lengths and walks that only the machine runs.
    numbers: Vec<u64>,
    /// The number of the replay's own next call of the machine.
    own: u64,
    /// The index of the call that takes a step.
    stepping: usize,
    /// How many requests were still to be refused before that step.
    refusals: u64,
}

impl<'a, A: Low + Copy> Replay<'a, A> {
    /// Makes a replay without calls, on a table without a generation. No rule refuses the machine's requests for memory.
    pub(crate) fn new(ground: Ground<'a, A>, script: &'a Script) -> Self
        requires { IsFirstCapacity ground.first }
    {
        Replay {
            ground,
            script,
            machine: State::with_first_capacity(ground.alloc, ground.first),
            calls: Vec::new(ground.alloc),
            numbers: Vec::new(ground.alloc),
            own: OWN_CALLS,
            stepping: 0,
            refusals: 0,
        }
    }

    /// Returns how many calls have begun on the table.
    pub(crate) fn begun(&self) -> usize {
        self.calls.len()
    }

    /// Begins the next call. Its number, and that of its value, is its index. `Err`: no memory.
    pub(crate) fn begin_next(&mut self, ask: Ask) -> Result<Turn, ReplayFault> {
        let call = self.calls.len() as u64;
        match ask {
            Ask::Insert(class, hash) => {
                let value = call;
                self.begin(Event::Insert { call, value, hash }, class)
            }
            Ask::Lookup(class, hash) => self.begin(Event::Lookup { call, hash }, class),
        }
    }

    /// Begins the call of this event. An insert has a value of this class, and a look-up looks for it. A length or a walk runs only on the
    /// machine. The table skips a call whose number or value was used before. `Err`: no memory.
    pub(crate) fn begin(&mut self, event: Event, class: u64) -> Result<Turn, ReplayFault> {
        self.take(event)?;
        let number = event.call();
        let (value, hash, state) = match event {
            Event::Insert { value, hash, .. } => (Some(value), hash, CallState::insert(hash)),
            Event::Lookup { hash, .. } => (None, hash, CallState::lookup(hash)),
            _ => {
                granted(self.numbers.push(number))?;
                return Ok(Turn::Nothing);
            }
        };
        if self.is_used(number, value) {
            return Ok(Turn::Nothing);
        }
        granted(self.numbers.push(number))?;
        let call = Call {
            number,
            value,
            class,
            state,
            said: None,
        };
        granted(self.calls.push(call))?;
        let Some(number) = value else {
            return Ok(Turn::Lookup(hash));
        };
        let item = Item {
            number,
            class,
            hash,
        };
        Ok(Turn::Insert(granted(Box::new(self.ground.alloc, item))?))
    }

    /// Returns whether a call has this number, or an insert this value.
    fn is_used(&self, number: u64, value: Option<u64>) -> bool {
        let same_value = |other: &Call| value.is_some() && other.value == value;
        self.numbers.contains(&number) || self.calls.iter().any(same_value)
    }

    /// Returns the index and the state of the call with this number, if the table has it.
    pub(crate) fn find(&self, number: u64) -> Option<(usize, CallState)> {
        for (index, call) in self.calls.iter().enumerate() {
            if call.number == number {
                return Some((index, call.state));
            }
        }
        None
    }

    /// Returns the phase of the call at this index. Returns `Done` if there is none.
    pub(crate) fn phase_at(&self, index: usize) -> Phase {
        let call = self.calls.get(index);
        call.map_or(Phase::Done, |call: &Call| call.state.phase)
    }

    /// Returns whether all calls have ended.
    pub(crate) fn all_ended(&self) -> bool {
        self.calls.iter().all(|call: &Call| call.said.is_some())
    }

    /// Returns a turn in which the call at this index takes a step. With `Manner::Given` its closures give these answers. Refusals that are
    /// left from before apply to its requests for memory.
    pub(crate) fn step(&mut self, index: usize, accepted: bool, hash: u64) -> Turn {
        let call = self.calls.get(index);
        let class = call.map_or(0, |call: &Call| call.class);
        self.script.begin(accepted, hash, class);
        self.stepping = index;
        self.refusals = self.ground.heap.refusals_left();
        Turn::Step(index)
    }

    /// Returns a turn in which the call at this index takes a step, with these refusals.
    pub(crate) fn step_refused(&mut self, index: usize, refusals: Refusals) -> Turn {
        self.ground.heap.refuse(refusals.0, refusals.1);
        // If the table calls no closure, the event says yes. If the machine has to ask about an entry there, it accepts it and differs from
        // the table.
        self.step(index, true, 0)
    }

    /// Gives the machine the event of the step that the table has taken, and compares the reply, the state and the length. `Err`: they
    /// differ, or no memory.
    pub(crate) fn follow(&mut self, stepped: Stepped) -> Result<(), ReplayFault> {
        let answers = Answers {
            accepted: self.script.accepted(),
            hash: self.script.hash(),
            granted: self.ground.heap.refusals_left() == self.refusals,
        };
        let Some(call) = self.calls.get(self.stepping) else {
            return Ok(());
        };
        let copies = stepped.state.phase == Phase::Building;
        match event_of(call.number, call.state.phase, copies, answers) {
            Some(event) => {
                self.follow_by(event, stepped)?;
                self.compare_length()
            }
            None => Ok(()),
        }
    }

    /// Records a step that the table has taken, and gives the machine its event. Compares the reply and the state. `Err`: they differ, or no
    /// memory.
    pub(crate) fn follow_by(&mut self, event: Event, stepped: Stepped) -> Result<(), ReplayFault> {
        if let Some(call) = self.calls.get_mut(self.stepping) {
            call.state = stepped.state;
            if let Took::Ended(said) = stepped.took {
                call.said = Some(said);
            }
        }
        self.compare_step(event, stepped.took, stepped.state)
    }

    /// Gives the machine this event. Checks that its call then has this state, and the same reply from the table and from the machine, or
    /// none from both. `Err`: it hasn't, or no memory.
    pub(crate) fn compare_step(
        &mut self,
        event: Event,
        took: Took,
        state: CallState,
    ) -> Result<(), ReplayFault> {
        let call = event.call();
        let table = match took {
            Took::Ended(said) => Some(said),
            Took::Moved | Took::Blocked => None,
        };
        let machine = match self.take(event)? {
            Some(finished) if finished.call == call => reply_of_machine(&finished.reply),
            _ => None,
        };
        same_reply(call, table, machine)?;
        let same = self.machine.state_of(call) == Some(state);
        check(same, ReplayFault::State(call))
    }

    /// Gives the machine this event, and returns the call that finishes by it. Compares the reply of a length or a walk with the table.
    /// `Err`: they differ, or no memory.
    pub(crate) fn take(&mut self, event: Event) -> Result<Option<Finished>, ReplayFault> {
        let finished = granted(self.machine.step(event))?;
        compare_whole(self.ground.table, &finished)?;
        Ok(finished)
    }

    /// Ends the schedule, and compares the length, the entries and the buckets of the table and of the machine. `Err`: they differ, or no
    /// memory.
    pub(crate) fn end(&mut self) -> Result<Turn, ReplayFault> {
        self.compare_walk()?;
        self.compare_buckets()?;
        Ok(Turn::End)
    }

    /// Checks that the table and the machine have the same length, and the same entries in the same order. `Err`: they differ, or no
    /// memory.
    pub(crate) fn compare_walk(&mut self) -> Result<(), ReplayFault> {
        self.compare_length()?;
        self.run_own(Event::Walk { call: self.own }, ReplayFault::Walk)
    }

    /// Checks that the table and the machine have the same length now. `Err`: they differ, or no memory.
    fn compare_length(&mut self) -> Result<(), ReplayFault> {
        self.run_own(Event::Len { call: self.own }, ReplayFault::Length)
    }

    /// Runs one of the replay's own lengths or walks, which begins by this event, and compares its reply with the table. `Err`: they
    /// differ, or no memory, or this fault, since the call doesn't end by a reply of its kind.
    fn run_own(&mut self, begins: Event, endless: ReplayFault) -> Result<(), ReplayFault> {
        let call = begins.call();
        self.own = self.own.wrapping_add(1);
        self.take(begins)?;
        let loaded = self.take(Event::Load { call })?;
        let mut finished = loaded.or(self.take(Event::Size { call })?);
        for _read in 0..READS {
            if finished.is_some() {
                break;
            }
            finished = self.take(Event::Read {
                call,
                accepted: false,
            })?;
        }
        check(has_reply(begins, &finished), endless)
    }

    /// Checks that the table and the machine have the same number of buckets. `Err`: they differ.
    pub(crate) fn compare_buckets(&self) -> Result<(), ReplayFault> {
        let same = self.machine.buckets() == self.ground.buckets();
        check(same, ReplayFault::Buckets)
    }
}

/// Checks that the two replies to the call are the same. `Err`: they differ.
fn same_reply(call: u64, table: Option<Said>, machine: Option<Said>) -> Result<(), ReplayFault> {
    let fault = ReplayFault::Reply {
        call,
        table,
        machine,
    };
    check(table == machine, fault)
}

/// Checks that a length or a walk has the same reply from the machine as from the table. `Err`: the replies differ.
fn compare_whole<A: Low + Copy>(
    table: &Table<A>,
    finished: &Option<Finished>,
) -> Result<(), ReplayFault> {
    let Some(finished) = finished else {
        return Ok(());
    };
    match &finished.reply {
        Reply::Len(length) => check(*length == table.len() as u64, ReplayFault::Length),
        Reply::Walk(entries) => check(shows(table, entries.as_slice()), ReplayFault::Walk),
        _ => Ok(()),
    }
}

/// Returns whether a length or a walk that began by this event has finished by a reply of its kind.
fn has_reply(begins: Event, finished: &Option<Finished>) -> bool {
    let Some(finished) = finished else {
        return false;
    };
    match begins {
        Event::Len { .. } => matches!(&finished.reply, Reply::Len(_)),
        Event::Walk { .. } => matches!(&finished.reply, Reply::Walk(_)),
        _ => false,
    }
}

/// Returns whether a walk over the table returns these entries in this order.
fn shows<A: Low + Copy>(table: &Table<A>, entries: &[u64]) -> bool {
    let mut left = entries.iter();
    for entry in table.iter() {
        if left.next() != Some(&entry.number) {
            return false;
        }
    }
    left.next().is_none()
}
