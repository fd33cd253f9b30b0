//! A schedule of calls that is run: its calls get the replies of a list.
ghost use Rattle.std.specs.Prelude.{◌≡◌, IfOk};
ghost use Rattle.table_core.specs.History.{replies};
ghost use Rattle.table_core.specs.Law.{Law, IsLawful};
ghost use Rattle.table_core.specs.Machine.{empty};
ghost use Rattle.demo_examples.specs.Schedules.{RunsAsList};

use std::alloc::Allocator;
use table_core::theorems::schedules_are_lists;
use table_core::{Event, Finished, NoMemory, run};

/// Runs a schedule from a first generation of 16 buckets, and returns the replies in the order in which its calls finish. If the
/// closures were lawful, some order of the calls is one run of a growing list without equal entries, whatever the schedule. An
/// `Err` means that memory was refused.
pub fn run_as_list<A: Allocator + Copy>(
    alloc: A,
    events: &[Event],
) -> Result<Vec<Finished<A>, A>, NoMemory>
    ensures told { IfOk result (λ told. told.items ≡ replies (empty 16) events.now) }
    ensures as_list { IfOk result (λ told. (l : Law) → IsLawful l 16 events.now
        → RunsAsList l told.items) }
{
    // The theorem is a function that does nothing. Calling it makes its clauses known.
    schedules_are_lists();
    run(alloc, events)
}
