//! A look-up that runs one step at a time.
ghost use Rattle.std.specs.Prelude.{◌≡◌, ◌≢◌, true, IfSome};
ghost use Rattle.std.specs.Fn.{FnReturnsAt};
ghost use Rattle.table_core.specs.Calls.{lookup_start};
ghost use Rattle.table_core.specs.declared.call.Outcome.TheVariants.{Pending};
ghost use Rattle.table_core.specs.declared.call.Phase.TheVariants.{LookLoad, LookProbe, Done};
ghost use Rattle.table_core.specs.RunningPhases.{reached_by};
ghost use Rattle.table_core.specs.RunningSteps.{Went};
ghost use Rattle.table_terms.specs.Hashes.{bits_of};
ghost use Rattle.table_shared.specs.Between.{IsLooking};
ghost use Rattle.table_shared.specs.Reads.{AtAlone, StepTells};
ghost use Rattle.table_shared.specs.Stepped.{found_by};

use crate::probe::{Read, Stepping, Tested};
use crate::table::LockFreeRawTable;
use std::alloc::Allocator;
use table_core::steps::passed;
use table_core::{Answer, CallState, Phase};
use table_generations::atomic_value::AtomicValue;
use table_generations::fixed::Generation;

/// A look-up between two steps: its state, and the generation that it probes.
#[derive(Drop)]
pub(crate) struct Looking<'a, T: AtomicValue, A: Allocator + Copy, F> {
    table: &'a LockFreeRawTable<T, A>,
    pub(crate) state: CallState,
    generation: Option<&'a Generation<T, A>>,
    pub(crate) test: F,
    ghost between: { IsLooking table.now.home state generation },
}

impl<'a, T: AtomicValue, A: Allocator + Copy, F: Fn(&T::Target) -> bool> Looking<'a, T, A, F> {
    /// Makes a look-up that has taken no step.
    pub(crate) fn new(table: &'a LockFreeRawTable<T, A>, hash: u64, test: F) -> Self
        ensures { (result.state ≡ lookup_start hash) × (result.test ≡ test) }
    {
        Looking {
            table,
            state: CallState::lookup(hash),
            generation: None,
            test,
        }
    }

    /// Loads the current generation.
    fn load(&mut self) -> Answer
        requires phase { self.old.state.phase ≡ LookLoad }
        ensures went { Went self.old.state self.new.state result }
        ensures pending { self.new.state.outcome ≡ Pending }
        ensures same { self.new.test ≡ self.old.test }
    {
        let table: &'a LockFreeRawTable<T, A> = self.table;
        let (generation, state, answer) = table.load(self.state);
        self.generation = generation;
        self.state = state;
        answer
    }

    /// Reads the bucket, and returns the target if the test accepted it.
    fn read(&mut self) -> (Answer, Option<&'a T::Target>)
        requires phase { self.old.state.phase ≡ LookProbe }
        requires callable { F.IsAlwaysCallable self.old.test }
        ensures went { Went self.old.state self.new.state result.0 }
        ensures found { IfSome result.1 (λ r. (self.new.state.phase ≡ Done)
            × FnReturnsAt F.Fn self.old.test r.now true) }
        ensures tells { found_by result.1 ≡ reached_by self.new.state.outcome }
        ensures alone { AtAlone self.old.generation self.old.state.index
            (StepTells T.target (FnReturnsAt F.Fn self.old.test) (bits_of self.old.state.hash)
            result.0 result.1) }
        ensures same { self.new.test ≡ self.old.test }
    {
        let table: &'a LockFreeRawTable<T, A> = self.table;
        let Some(generation) = self.generation else {
            unreachable!()
        };
        let mut note = generation.note_at(self.state.index as usize);
        let probing = Tested { test: &self.test };
        match table.read_bucket::<Stepping, _>(generation, self.state, &probing, &mut note) {
            Read::Empty(next) => {
                self.state = next;
                (Answer::Empty, None)
            }
            Read::Passed(next, asked) => {
                self.state = next;
                (passed(asked), None)
            }
            Read::Met(next, target) => {
                self.state = next;
                (Answer::Holds { accepted: true }, Some(target))
            }
        }
    }

    /// Takes one step, which takes no lock. Returns the target if the test accepted it.
    pub(crate) fn turn(&mut self) -> (Answer, Option<&'a T::Target>)
        requires unfinished { self.old.state.phase ≢ Done }
        requires callable { F.IsAlwaysCallable self.old.test }
        ensures went { Went self.old.state self.new.state result.0 }
        ensures found { IfSome result.1 (λ r. (self.new.state.phase ≡ Done)
            × FnReturnsAt F.Fn self.old.test r.now true) }
        ensures tells { found_by result.1 ≡ reached_by self.new.state.outcome }
        ensures same { self.new.test ≡ self.old.test }
    {
        match self.state.phase {
            Phase::LookLoad => (self.load(), None),
            Phase::LookProbe => self.read(),
            _ => unreachable!(),
        }
    }
}
