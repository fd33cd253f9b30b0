//! The number of entries of a table, the steps that use it, and whether a generation is still the current one.
ghost use Rattle.std.specs.Prelude.{◌≡◌, ◌⊎◌, true, nat_lt};
ghost use Rattle.table_core.specs.Calls.{stands_at_bucket, to};
ghost use Rattle.table_core.specs.declared.call.Outcome.TheVariants.{New};
ghost use Rattle.table_core.specs.declared.call.Phase.TheVariants.{Placed, LeaveOk, AskSize, WantOwned, Done};
ghost use Rattle.table_core.specs.declared.call.Answer.TheVariants.{Counted, Sized};
ghost use Rattle.table_core.specs.RunningSteps.{Went};
ghost use Rattle.table_shared.specs.Reads.{AsksSize};

use crate::locks::SharedLock;
use crate::table::LockFreeRawTable;
use std::alloc::Allocator;
use std::sync::atomic::AtomicUsize;
use std::sync::atomic::Ordering::SeqCst;
use table_core::steps::step;
use table_core::{Answer, CallState};
use table_generations::atomic_value::AtomicValue;

/// The number of entries. Each is counted once, after it was placed and while the lock is held. Only an insert that has placed
/// its value changes it.
#[derive(Drop)]
pub(crate) struct Size {
    counted: AtomicUsize,
}

impl Size {
    /// Makes a counter that begins at `entries`.
    pub(crate) fn new(entries: usize) -> Size {
        Size {
            counted: AtomicUsize::new(entries),
        }
    }

    /// Returns the number of entries counted so far.
    pub(crate) fn get(&self) -> usize {
        self.counted.load(SeqCst)
    }

    /// Counts one more entry. The caller still holds the lock, so that a growth, which takes all locks, waits for it.
    #[inline(always)]
    fn count(&self, _held: &SharedLock<'_>) {
        self.counted.fetch_add(1, SeqCst);
    }
}

impl<T: AtomicValue, A: Allocator + Copy> LockFreeRawTable<T, A> {
    /// Counts a value that was placed, while this lock of the table is still held.
    #[inline(always)]
    pub(crate) fn count(&self, held: &SharedLock<'_>, state: CallState) -> CallState
        requires lock { held.now.home ≡ self.now.home }
        requires phase { state.phase ≡ Placed }
        requires stands { stands_at_bucket state ≡ true }
        ensures went { Went state result Counted }
        ensures counted { result ≡ record state { phase = LeaveOk; outcome = New state.index } }
    {
        self.size.count(held);
        step(state, Answer::Counted)
    }

    /// Reads the number of entries, for an insert that has an outcome, and decides whether its generation is half full.
    #[inline(always)]
    pub(crate) fn ask_size(&self, state: CallState) -> CallState
        requires phase { state.phase ≡ AskSize }
        requires wide { nat_lt 0 state.capacity ≡ true }
        ensures went { AsksSize state result }
        ensures ends { (result ≡ to Done state) ⊎ (result ≡ to WantOwned state) }
    {
        step(
            state,
            Answer::Sized {
                size: self.len() as u64,
            },
        )
    }

    /// Returns whether the generation of this number is still the current one; for `None`, whether there is still no generation.
    pub(crate) fn is_current(&self, walked: Option<u64>) -> bool {
        match (self.current(&mut self.note()), walked) {
            (None, None) => true,
            (Some(current), Some(number)) => current.number == number,
            _ => false,
        }
    }
}
