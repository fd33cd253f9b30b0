//! Rehearsals of whole calls, by stepped calls beside the machine.
//!
//! A rehearsal lists the stops of each thread, such as calls of a closure and requests for the block of a value. A turn ends at some stops,
//! and then a thread is drawn that goes on, or the plan names it. If a call is blocked, both threads run at once until both calls have ended.
use crate::fault::{ReplayFault, check, granted};
use crate::item::Said;
use crate::replay::{Refusals, Replay, Turn};
use crate::running::{Schedule, Stepped, Took};
use crate::schedules::{Ask, draw_class};
use crate::script::Script;
use crate::whole_calls::stops::{Copied, Milestone, Sight, Stop};
use crate::whole_calls::{Moment, Plan, Top};
use std::alloc::Global;
use std::mem::swap;
use table_cell::Low;
use table_core::call::Phase;

/// The number of classes from which calls of two threads are drawn.
const CLASSES: u64 = 30;

/// The most calls that run at once on a thread, each but the first inside a closure of the one before.
const DEPTH: usize = 3;

/// A call that has begun: its index, what it was asked to do, and its reply if it has taken its last step. It ends once the calls inside its
/// last closure have ended.
#[derive(Clone, Copy)]
struct Open {
    place: usize,
    ask: Ask,
    said: Option<Said>,
}

/// The part of one thread: its stops, how many top calls are still to begin, the calls that have begun and not ended, and whether the last
/// of these passes its next request for a block without a stop.
#[derive(Drop)]
pub(crate) struct Part {
    pub(crate) stops: Vec<Stop>,
    left: u64,
    open: Vec<Open>,
    passes_request: bool,
}

impl Part {
    /// Makes a part of so many top calls.
    fn new(alloc: Global, calls: u64) -> Part {
        Part {
            stops: Vec::new(alloc),
            left: calls,
            open: Vec::new(alloc),
            passes_request: false,
        }
    }

    /// Returns whether a call hasn't ended.
    fn is_inside(&self) -> bool {
        !self.open.is_empty()
    }

    /// Returns whether a call hasn't ended, or one is still to begin.
    fn goes_on(&self) -> bool {
        self.is_inside() || self.left != 0
    }
}

/// What was rehearsed of a plan so far.
#[derive(Drop)]
pub(crate) struct Rehearsal<'s> {
    script: &'s Script,
    plan: Plan<'s>,
    /// The part of the thread whose call takes the next step, and that of the other thread.
    pub(crate) running: Part,
    pub(crate) waiting: Part,
    /// The stops of the watcher, a third thread that sees calls come to a lock.
    pub(crate) watched: Vec<Stop>,
    pub(crate) copied: Vec<Copied>,
    /// The number and the reply of each call that has ended.
    pub(crate) ended: Vec<(u64, Said)>,
    /// What the table shows once all calls have ended.
    pub(crate) end: Option<Sight>,
    /// The call that begins next, inside the closure that was called last.
    due: Option<Ask>,
    /// Whether the running thread is the one that began.
    first_runs: bool,
    /// Whether the moment of the plan has come at which the other thread's calls begin.
    has_come: bool,
    /// Whether both threads run at once.
    both: bool,
    turn: u64,
    /// The class and the hash that were drawn last.
    drawn: (u64, u64),
    /// The number of the call that takes a step, and its phase before.
    call: u64,
    before: Phase,
}

impl<'s> Rehearsal<'s> {
    /// Makes a rehearsal of a plan. What it draws comes from the script.
    pub(crate) fn new(alloc: Global, script: &'s Script, plan: Plan<'s>) -> Rehearsal<'s> {
        let (first, second) = plan.tops();
        Rehearsal {
            script,
            plan,
            running: Part::new(alloc, first),
            waiting: Part::new(alloc, second),
            watched: Vec::new(alloc),
            copied: Vec::new(alloc),
            ended: Vec::new(alloc),
            end: None,
            due: None,
            first_runs: true,
            has_come: false,
            both: false,
            turn: 0,
            drawn: (0, 0),
            call: 0,
            before: Phase::Done,
        }
    }

    /// Lets the other thread run.
    fn switch(&mut self) {
        swap(&mut self.running, &mut self.waiting);
        self.first_runs = !self.first_runs;
    }

    /// Draws a call of a thread that takes turns. One in four is a look-up, and one in three has the class that was drawn last. Classes with
    /// the same first bucket have the same hash, or hashes with different marks.
    fn draw_in_turns(&mut self) -> Ask {
        if self.script.draw(3) != 0 {
            let class = self.script.draw(CLASSES);
            self.drawn = (class, (class % 12) | ((class / 12 & 1) << 32));
        }
        let (class, hash) = self.drawn;
        if self.script.draw(4) == 0 {
            Ask::Lookup(class, hash)
        } else {
            Ask::Insert(class, hash)
        }
    }

    /// Returns whether an insert may begin inside the closure that was called last. It may not if it could have to wait for a lock that its
    /// own thread holds, since it would never end.
    fn lets_insert<A: Low + Copy>(&self, replay: &Replay<'_, A>) -> bool {
        let mut inserts = 0u64;
        for open in self.running.open.iter() {
            if replay.phase_at(open.place) == Phase::Building {
                return false;
            }
            inserts = inserts.saturating_add(u64::from(matches!(open.ask, Ask::Insert(..))));
        }
        inserts == 0 || (inserts == 1 && replay.ground.has_room())
    }

    /// Draws a call that may begin now. Two of three are inserts, if an insert may.
    fn draw_nested<A: Low + Copy>(&self, replay: &Replay<'_, A>) -> Ask {
        let (class, hash) = draw_class(self.script);
        if self.script.draw(3) == 0 || !self.lets_insert(replay) {
            Ask::Lookup(class, hash)
        } else {
            Ask::Insert(class, hash)
        }
    }

    /// Returns the next top call. `Err`: the plan has none.
    fn next_top<A: Low + Copy>(&mut self, replay: &Replay<'_, A>) -> Result<Top, ReplayFault> {
        match self.plan {
            Plan::Turns(_) => Ok((self.draw_in_turns(), (0, 0))),
            Plan::Nested { refuses, .. } => {
                let refused = if refuses && self.script.draw(3) == 0 {
                    self.script.draw(3)
                } else {
                    0
                };
                let ask = self.draw_nested(replay);
                Ok((ask, (self.script.draw(4), refused)))
            }
            Plan::Worked(worked) => match worked.at(replay.begun() as u64) {
                Some(top) => Ok(top),
                None => Err(ReplayFault::Unfinished),
            },
        }
    }

    /// Returns the next call that begins inside the last closure, if one does. `asked` tells whether that closure was called just now, and
    /// not before a call inside it.
    fn next_inside<A: Low + Copy>(&self, replay: &Replay<'_, A>, asked: bool) -> Option<Ask> {
        let depth = self.running.open.len();
        match self.plan {
            Plan::Nested { .. } if asked && depth < DEPTH && self.script.draw(4) == 0 => {
                Some(self.draw_nested(replay))
            }
            Plan::Worked(worked) if depth == 1 && self.comes(Moment::InClosure) => {
                let (ask, _refusals) = worked.at(replay.begun() as u64)?;
                Some(ask)
            }
            _ => None,
        }
    }

    /// Returns whether the plan has this moment, the last top call of the first thread is running, and no other thread's call has begun there.
    fn comes(&self, moment: Moment) -> bool {
        let Plan::Worked(worked) = self.plan else {
            return false;
        };
        worked.moment == moment && self.first_runs && self.running.left == 0 && !self.has_come
    }

    /// Adds a stop of the running thread, or of the watcher if a call waits. `Err`: no memory.
    fn stop<A: Low + Copy>(
        &mut self,
        replay: &Replay<'_, A>,
        milestone: Milestone,
        ends_turn: bool,
    ) -> Result<(), ReplayFault> {
        let sight = if self.both {
            None
        } else {
            Some(Sight::of(replay.ground))
        };
        let stop = Stop {
            turn: self.turn,
            call: self.call,
            milestone,
            sight,
            ends_turn,
            resumes: None,
        };
        if let Milestone::Waits = milestone {
            return granted(self.watched.push(stop));
        }
        self.running.passes_request = matches!(milestone, Milestone::AtEmpty);
        granted(self.running.stops.push(stop))
    }

    /// Begins the next turn.
    fn next_turn(&mut self) {
        self.turn = self.turn.wrapping_add(1);
    }

    /// Lets the running thread go on from its last stop in this turn.
    fn resume(&mut self) {
        if let Some(stop) = self.running.stops.last_mut() {
            stop.resumes = Some(self.turn);
        }
    }

    /// Ends the turn. Draws which thread goes on, if one does. If the plan names its calls, the first thread goes on until the moment of the
    /// plan, and then the second.
    fn end_turn(&mut self) {
        self.next_turn();
        let first = match self.plan {
            Plan::Turns(_) => self.script.draw(2) == 0,
            _ => !self.has_come,
        };
        if first != self.first_runs {
            self.switch();
        }
        if !self.running.goes_on() {
            self.switch();
        }
        if self.running.goes_on() {
            self.resume();
        }
    }

    /// Begins a call of the running thread. A top call has refusals. `Err`: no memory.
    fn begin<A: Low + Copy>(
        &mut self,
        replay: &mut Replay<'_, A>,
        ask: Ask,
        refusals: Option<Refusals>,
    ) -> Result<Turn, ReplayFault> {
        let place = replay.begun();
        self.call = place as u64;
        self.stop(replay, Milestone::Began(ask, refusals), false)?;
        if let Some((passing, refused)) = refusals {
            replay.ground.heap.refuse(passing, refused);
        }
        let said = None;
        granted(self.running.open.push(Open { place, ask, said }))?;
        // Without a generation the call first requests one, and then doesn't stop at the request for its block.
        self.running.passes_request = replay.ground.buckets() == 0;
        replay.begin_next(ask)
    }

    /// Returns whether the moment of the plan came at which the other thread's calls begin, if it has one. In a growth one of them waited.
    fn has_met(&self) -> bool {
        let Plan::Worked(worked) = self.plan else {
            return true;
        };
        match worked.moment {
            Moment::InClosure => true,
            Moment::AtBucket => self.has_come,
            Moment::InGrowth => self.has_come && !self.watched.is_empty(),
        }
    }

    /// Begins the next top call of the running thread. If none is left, ends the schedule. `Err`: the other thread goes on, the moment of the
    /// plan never came, the table and the machine differ, or no memory.
    fn begin_top<A: Low + Copy>(
        &mut self,
        replay: &mut Replay<'_, A>,
    ) -> Result<Turn, ReplayFault> {
        if self.running.left == 0 {
            check(!self.waiting.goes_on(), ReplayFault::Unfinished)?;
            check(self.has_met(), ReplayFault::Alone)?;
            self.end = Some(Sight::of(replay.ground));
            return replay.end();
        }
        let (ask, refusals) = self.next_top(replay)?;
        self.running.left = self.running.left.saturating_sub(1);
        self.begin(replay, ask, Some(refusals))
    }

    /// Adds the stop at a closure that was called with this entry. If a growth copies while both threads run, adds a copied entry. `Err`:
    /// no memory.
    fn hear_closure<A: Low + Copy>(
        &mut self,
        replay: &Replay<'_, A>,
        entry: u64,
    ) -> Result<(), ReplayFault> {
        let (call, hash) = (self.call, self.script.hash());
        if self.before != Phase::Building {
            let accepted = self.script.accepted();
            return self.stop(replay, Milestone::Asked(call, entry, accepted), false);
        }
        if !self.both {
            return self.stop(replay, Milestone::Hashed(call, entry, hash), false);
        }
        let sight = Some(Sight::of(replay.ground));
        granted(self.copied.push(Copied { entry, hash, sight }))
    }

    /// Adds the watcher's stop at a call that was blocked, and lets both threads run. The thread of the call goes on to the lock from its
    /// last stop, if that is in this turn. `Err`: both ran already, or no memory.
    fn hear_blocked<A: Low + Copy>(&mut self, replay: &Replay<'_, A>) -> Result<(), ReplayFault> {
        check(!self.both, ReplayFault::Step(self.call))?;
        if let Some(stop) = self.running.stops.last_mut() {
            if stop.turn == self.turn {
                stop.ends_turn = true;
                self.next_turn();
            }
        }
        self.stop(replay, Milestone::Waits, true)?;
        self.next_turn();
        self.both = true;
        self.switch();
        self.resume();
        Ok(())
    }

    /// Adds the stop at the reply of the call that has ended. After a top call the turn ends. If both threads run, the other one's call goes
    /// on, and after that a new turn begins. `Err`: the table and the machine differ, or no memory.
    fn end_call<A: Low + Copy>(
        &mut self,
        replay: &mut Replay<'_, A>,
        said: Said,
    ) -> Result<(), ReplayFault> {
        replay.compare_walk()?;
        granted(self.ended.push((self.call, said)))?;
        let _open = self.running.open.pop();
        let is_top = !self.running.is_inside();
        self.stop(replay, Milestone::Ended(self.call, said), is_top)?;
        if !is_top {
            self.due = self.next_inside(replay, false);
            return Ok(());
        }
        if self.both && self.waiting.is_inside() {
            self.switch();
            return Ok(());
        }
        if self.both {
            self.both = false;
            self.next_turn();
        }
        self.end_turn();
        Ok(())
    }

    /// Returns whether the turn ends after a step that called a closure (`asked`), or that came to a request for a block where the call
    /// stops (`requests`). In drawn turns it does after one in three and one in two.
    fn ends_turn(&self, asked: bool, requests: bool) -> bool {
        match self.plan {
            Plan::Turns(_) if asked => self.script.draw(3) == 0,
            Plan::Turns(_) => requests && self.script.draw(2) == 0,
            _ => {
                let copies = asked && self.before == Phase::Building;
                (requests && self.comes(Moment::AtBucket))
                    || (copies && self.comes(Moment::InGrowth))
            }
        }
    }

    /// Ends the turn after a step at which the call's thread can wait, if the plan says so. `Err`: no memory.
    fn hear_moved<A: Low + Copy>(
        &mut self,
        replay: &Replay<'_, A>,
        asked: bool,
        phase: Phase,
    ) -> Result<(), ReplayFault> {
        let requests = !asked && phase == Phase::AtEmpty && !self.running.passes_request;
        if !self.ends_turn(asked, requests) {
            return Ok(());
        }
        self.has_come = true;
        if requests {
            self.stop(replay, Milestone::AtEmpty, false)?;
        }
        if let Some(stop) = self.running.stops.last_mut() {
            stop.ends_turn = true;
        }
        self.end_turn();
        Ok(())
    }
}

impl Schedule for Rehearsal<'_> {
    fn next<A: Low + Copy>(&mut self, replay: &mut Replay<'_, A>) -> Result<Turn, ReplayFault> {
        if let Some(ask) = self.due {
            self.due = None;
            return self.begin(replay, ask, None);
        }
        let Some(open) = self.running.open.last().copied() else {
            return self.begin_top(replay);
        };
        self.call = open.place as u64;
        if let Some(said) = open.said {
            self.end_call(replay, said)?;
            return Ok(Turn::Nothing);
        }
        self.before = replay.phase_at(open.place);
        Ok(replay.step(open.place, true, 0))
    }

    fn hear<A: Low + Copy>(
        &mut self,
        replay: &mut Replay<'_, A>,
        stepped: Stepped,
    ) -> Result<(), ReplayFault> {
        replay.follow(stepped)?;
        let met = replay.script.take_met();
        if let Some(entry) = met {
            self.hear_closure(replay, entry)?;
            self.due = self.next_inside(replay, true);
        }
        match stepped.took {
            Took::Blocked => self.hear_blocked(replay),
            Took::Ended(said) => {
                if let Some(open) = self.running.open.last_mut() {
                    open.said = Some(said);
                }
                Ok(())
            }
            Took::Moved if self.both => Ok(()),
            Took::Moved => self.hear_moved(replay, met.is_some(), stepped.state.phase),
        }
    }
}
