//! The steps of an insert, one for each phase.
ghost use Rattle.std.specs.Prelude.{◌≡◌, ◌≢◌, Some, true};
ghost use Rattle.std.specs.Fn.{FnReturnsAtPair};
ghost use Rattle.std.specs.Option.{ForSome};
ghost use Rattle.table_core.specs.Calls.{finds_entry};
ghost use Rattle.table_core.specs.declared.call.Phase.TheVariants.{Shared, Probe, AtEmpty, Placed, LeaveOk, AskSize, Owned, Building, Done};
ghost use Rattle.table_core.specs.declared.call.Answer.TheVariants.{Taken, Holds, MemoryRefused};
ghost use Rattle.table_core.specs.RunningPhases.{Meets, Turns, Leaves};
ghost use Rattle.table_core.specs.RunningSteps.{Went, Passing, passed as passed_answer};
ghost use Rattle.table_shared.specs.Carried.{Asks, Wants, lock_of, table_in, met_in};
ghost use Rattle.table_shared.specs.Inserts.{Answers};
ghost use Rattle.table_shared.specs.Steps.{Steps, Stays, TellsAlone, Ends, TriesStep};

use crate::growth::begin::Wanted;
use crate::insert::between::{Carried, HeldLock, Inserting};
use crate::probe::{Matched, Put, Read, Stepping};
use crate::table::LockFreeRawTable;
use std::mem;
use std::sync::Wait;
use table_cell::Low;
use table_core::steps::{passed, released, step, step_released};
use table_core::{Answer, CallState, Phase};
use table_generations::atomic_value::AtomicValue;

impl<'a, T: AtomicValue, A: Low + Copy, E, H> Inserting<'a, T, A, E, H>
where
    E: Fn(&T::Target, &T::Target) -> bool,
    H: Fn(&T::Target) -> u64,
{
    /// Takes the lock that the phase asks for.
    fn take(&mut self, held: HeldLock<'a>) -> Answer
        requires wanted { Wants self.old.state.phase (lock_of held) }
        requires lock { ForSome (table_in held) (λ home. home ≡ self.old.table.now.home) }
        ensures { Steps E.Fn self.old result self.new }
    {
        self.held = held;
        self.state = step(self.state, Answer::Taken);
        Answer::Taken
    }

    /// Loads the current generation.
    fn load(&mut self) -> Answer
        requires phase { self.old.state.phase ≡ Shared }
        ensures { Steps E.Fn self.old result self.new }
    {
        let table: &'a LockFreeRawTable<T, A> = self.table;
        let (generation, state, answer) = table.load(self.state);
        self.generation = generation;
        self.state = state;
        answer
    }

    /// Passes an entry that is not accepted.
    fn pass(&mut self, next: CallState, asked: bool) -> Answer
        requires phase { Meets self.old.state.phase }
        requires went { Went self.old.state next (passed_answer asked) }
        requires passing { Passing self.old.state next }
        ensures answer { result ≡ passed_answer asked }
        ensures steps { Steps E.Fn self.old result self.new }
    {
        self.state = next;
        passed(asked)
    }

    /// Keeps the accepted target beside the value.
    fn keep(&mut self, next: CallState, target: &'a T::Target) -> Answer
        requires phase { Meets self.old.state.phase }
        requires went { Went self.old.state next (Holds true) }
        requires found { next ≡ finds_entry LeaveOk self.old.state }
        requires accepted { FnReturnsAtPair E.Fn self.old.asking.eq
            (T.target self.old.asking.given.value) target.now true }
        ensures answer { result ≡ Holds true }
        ensures kept { met_in self.new.carried ≡ Some target.entry }
        ensures steps { Steps E.Fn self.old result self.new }
    {
        let Carried::Value(value) = mem::replace(&mut self.carried, Carried::Gone) else {
            unreachable!()
        };
        self.carried = Carried::Met(target, value);
        self.state = next;
        Answer::Holds { accepted: true }
    }

    /// Reads the bucket. If it is empty the insert stays at it.
    fn read(&mut self) -> Answer
        requires phase { self.old.state.phase ≡ Probe }
        requires callable { E.IsAlwaysCallable self.old.asking.eq }
        ensures steps { Steps E.Fn self.old result self.new }
        ensures alone { TellsAlone E.Fn self.old result self.new }
    {
        let table: &'a LockFreeRawTable<T, A> = self.table;
        let Some(generation) = self.generation else {
            unreachable!()
        };
        let Carried::Value(value) = &self.carried else {
            unreachable!()
        };
        let mut note = generation.note_at(self.state.index as usize);
        let probing = Matched {
            value,
            eq: &self.asking.eq,
        };
        match table.read_bucket::<Stepping, _>(generation, self.state, &probing, &mut note) {
            Read::Empty(next) => {
                self.state = next;
                Answer::Empty
            }
            Read::Passed(next, asked) => self.pass(next, asked),
            Read::Met(next, target) => self.keep(next, target),
        }
    }

    /// Does one exchange at an empty bucket. If another entry came first, passes or accepts that entry.
    fn put(&mut self) -> Answer
        requires phase { self.old.state.phase ≡ AtEmpty }
        requires callable { E.IsAlwaysCallable self.old.asking.eq }
        ensures steps { Steps E.Fn self.old result self.new }
        ensures alone { result ≢ MemoryRefused → TellsAlone E.Fn self.old result self.new }
    {
        let table: &'a LockFreeRawTable<T, A> = self.table;
        let Some(generation) = self.generation else {
            unreachable!()
        };
        let Carried::Value(value) = mem::replace(&mut self.carried, Carried::Gone) else {
            unreachable!()
        };
        let mut note = generation.note_at(self.state.index as usize);
        match table.put_value::<Stepping, E>(
            generation,
            self.state,
            value,
            &self.asking.eq,
            &mut note,
        ) {
            Put::Won(next, target) => {
                self.carried = Carried::Own(target);
                self.state = next;
                Answer::Won
            }
            Put::Refused(next, value) => {
                self.carried = Carried::Value(value);
                self.state = next;
                Answer::MemoryRefused
            }
            Put::Passed(next, asked, value) => {
                self.carried = Carried::Value(value);
                self.pass(next, asked)
            }
            Put::Met(next, target, value) => {
                self.carried = Carried::Value(value);
                self.keep(next, target)
            }
        }
    }

    /// Counts the placed value.
    fn count(&mut self) -> Answer
        requires phase { self.old.state.phase ≡ Placed }
        ensures { Steps E.Fn self.old result self.new }
    {
        let HeldLock::Shared(guard) = &self.held else {
            unreachable!()
        };
        self.state = self.table.count(guard, self.state);
        Answer::Counted
    }

    /// Reads the number of entries, and decides whether growth is wanted.
    fn ask_size(&mut self) -> Answer
        requires phase { self.old.state.phase ≡ AskSize }
        ensures { Steps E.Fn self.old result self.new }
    {
        let size = self.table.len() as u64;
        self.state = step(self.state, Answer::Sized { size });
        Answer::Sized { size }
    }

    /// Checks again, under all locks, whether growth is wanted, and begins it.
    fn check(&mut self) -> Answer
        requires phase { self.old.state.phase ≡ Owned }
        ensures { Steps E.Fn self.old result self.new }
    {
        let table: &'a LockFreeRawTable<T, A> = self.table;
        let HeldLock::Owned(held) = &self.held else {
            unreachable!()
        };
        match table.begin(held) {
            Wanted::Unwanted => {
                self.state = step(self.state, Answer::Unwanted);
                Answer::Unwanted
            }
            Wanted::Failed => {
                self.state = step(self.state, Answer::Failed);
                Answer::Failed
            }
            Wanted::Begun(growth) => {
                self.growth = Some(growth);
                self.state = step(self.state, Answer::Begun);
                Answer::Begun
            }
        }
    }

    /// Copies one entry, or publishes the generation when every entry was copied.
    fn build(&mut self) -> Answer
        requires phase { self.old.state.phase ≡ Building }
        requires callable { H.IsAlwaysCallable self.old.asking.hash_fn }
        ensures { Steps E.Fn self.old result self.new }
    {
        let Some(mut growth) = self.growth.take() else {
            unreachable!()
        };
        if growth.copy_next(&self.asking.hash_fn) {
            self.growth = Some(growth);
            self.state = step(self.state, Answer::Copied);
            return Answer::Copied;
        }
        let HeldLock::Owned(held) = &self.held else {
            unreachable!()
        };
        let _published = self.table.show(held, growth);
        self.state = step(self.state, Answer::Shown);
        Answer::Shown
    }

    /// Copies all entries that are left, one step for each. The state does not change.
    fn copy_rest(&mut self)
        requires phase { self.old.state.phase ≡ Building }
        requires callable { H.IsAlwaysCallable self.old.asking.hash_fn }
        ensures { Stays self.old self.new }
    {
        let Some(mut growth) = self.growth.take() else {
            unreachable!()
        };
        let HeldLock::Owned(held) = &self.held else {
            unreachable!()
        };
        self.state = growth.copy_rest(held, self.state, &self.asking.hash_fn);
        self.growth = Some(growth);
    }

    /// Releases the lock that the insert holds.
    fn leave(&mut self) -> Answer
        requires phase { Leaves self.old.state.phase }
        ensures { Steps E.Fn self.old result self.new }
    {
        let still_current = match self.state.phase {
            Phase::LeaveFailed => self.table.is_current(self.state.walked),
            _ => false,
        };
        let answer = released(self.state.phase, still_current);
        self.held = HeldLock::Nothing;
        self.state = step_released(self.state, still_current);
        answer
    }

    /// Takes one step that takes no lock.
    fn turn(&mut self) -> Answer
        requires phase { Turns self.old.state.phase }
        requires asks { Asks E.IsAlwaysCallable H.IsAlwaysCallable T.target E.Fn self.old.asking
            self.old.carried }
        ensures { Steps E.Fn self.old result self.new }
    {
        match self.state.phase {
            Phase::Shared => self.load(),
            Phase::Probe => self.read(),
            Phase::AtEmpty => self.put(),
            Phase::Placed => self.count(),
            Phase::AskSize => self.ask_size(),
            Phase::Owned => self.check(),
            Phase::Building => self.build(),
            Phase::LeaveOk
            | Phase::LeaveGrow
            | Phase::LeaveRefused
            | Phase::LeaveOwned
            | Phase::LeaveFailed => self.leave(),
            _ => unreachable!(),
        }
    }

    /// Takes one step, and tries once if it needs a lock. Returns `None` and changes nothing if others hold that lock or the
    /// insert is at its end.
    pub(crate) fn try_turn(&mut self) -> Option<Answer>
        requires asks { Asks E.IsAlwaysCallable H.IsAlwaysCallable T.target E.Fn self.old.asking
            self.old.carried }
        ensures { TriesStep E.Fn self.old result self.new }
    {
        let table: &'a LockFreeRawTable<T, A> = self.table;
        let hash = self.state.hash;
        match self.state.phase {
            Phase::Done => None,
            Phase::WantShared => Some(self.take(HeldLock::Shared(table.try_lock_shared(hash)?))),
            Phase::WantOwned => Some(self.take(HeldLock::Owned(table.try_own()?))),
            _ => Some(self.turn()),
        }
    }

    /// Takes one step, and waits for the lock if the step needs one.
    fn wait_turn<R: Wait>(&mut self, rt: &R) -> Answer
        requires unfinished { self.old.state.phase ≢ Done }
        requires asks { Asks E.IsAlwaysCallable H.IsAlwaysCallable T.target E.Fn self.old.asking
            self.old.carried }
        ensures { Steps E.Fn self.old result self.new }
    {
        let table: &'a LockFreeRawTable<T, A> = self.table;
        let hash = self.state.hash;
        match self.state.phase {
            Phase::WantShared => self.take(HeldLock::Shared(table.lock_shared(rt, hash))),
            Phase::WantOwned => self.take(HeldLock::Owned(table.own(rt))),
            _ => self.turn(),
        }
    }

    /// Returns the result of an insert that is at its end.
    pub(crate) fn finish(&mut self) -> Result<(&'a T::Target, Option<T>), T>
        requires there { self.old.carried ≢ Carried.Gone }
        requires over { self.old.state.phase ≡ Done }
        requires asks { Asks E.IsAlwaysCallable H.IsAlwaysCallable T.target E.Fn self.old.asking
            self.old.carried }
        ensures { Ends E.Fn self.old result self.new }
    {
        mem::replace(&mut self.carried, Carried::Gone).into_answer()
    }

    /// Runs the insert to its end, from any phase but the last. While a generation is built, copies its entries in one go.
    pub(crate) fn go_on<R: Wait>(self, rt: &R) -> Result<(&'a T::Target, Option<T>), T>
        requires unfinished { self.state.phase ≢ Done }
        requires asks { Asks E.IsAlwaysCallable H.IsAlwaysCallable T.target E.Fn self.asking
            self.carried }
        ensures { Answers T.target
            (FnReturnsAtPair E.Fn self.entry.asking.eq (T.target self.entry.asking.given.value))
            self.entry.asking.given.value result }
    {
        let mut call = self;
        for _ in rt.forever() {
            if call.state.phase == Phase::Building {
                call.copy_rest();
            }
            let _ = call.wait_turn(rt);
            if call.state.phase == Phase::Done {
                return call.finish();
            }
        }
        unreachable!()
    }
}
