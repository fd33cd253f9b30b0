//! Look-ups: one probe of the current generation, each step decided by `table_core`.
ghost use Rattle.std.specs.Prelude.{◌≡◌, IfSome, true};
ghost use Rattle.std.specs.Fn.{FnReturnsAt};
ghost use Rattle.table_core.specs.declared.call.Phase.TheVariants.{LookProbe};

pub(crate) mod steps;

use crate::probe::{Read, Reading, Tested};
use crate::table::LockFreeRawTable;
use std::alloc::Allocator;
use table_core::steps::step_loaded;
use table_core::{CallState, Phase};
use table_generations::atomic_value::AtomicValue;

/// Returns the same state, of a look-up that goes on to its next bucket. Its phase is written out, so that the compiler removes
/// the steps of other phases from the loop.
#[inline(always)]
fn probing_on(state: CallState) -> CallState
    requires phase { state.phase ≡ LookProbe }
    ensures same { result ≡ state }
{
    CallState {
        phase: Phase::LookProbe,
        ..state
    }
}

impl<T: AtomicValue, A: Allocator + Copy> LockFreeRawTable<T, A> {
    /// Returns the target of an entry that the test accepts, or `None`. Any thread may call it at any time. It takes no lock,
    /// does not allocate, and always returns.
    ///
    /// `hash` is the hash of the targets that the test accepts. No clause says what `None` means.
    pub fn lookup<F: Fn(&T::Target) -> bool>(&self, hash: u64, test: F) -> Option<&T::Target>
        requires callable { F.IsAlwaysCallable test }
        ensures accepted { IfSome result (λ found. FnReturnsAt F.Fn test found.now true) }
    {
        let current = self.current(&mut self.note())?;
        let capacity = current.generation.capacity() as u64;
        let mut state = step_loaded(CallState::lookup(hash), current.number, capacity);
        while state.phase != Phase::Done {
            let generation = current.generation;
            let mut note = generation.note_at(state.index as usize);
            match self.read_bucket::<Reading, _>(
                generation,
                state,
                &Tested { test: &test },
                &mut note,
            ) {
                Read::Empty(_) => return None,
                Read::Passed(next, _) => {
                    if next.phase != Phase::LookProbe {
                        return None;
                    }
                    state = probing_on(next);
                }
                Read::Met(_, target) => return Some(target),
            }
        }
        None
    }
}
