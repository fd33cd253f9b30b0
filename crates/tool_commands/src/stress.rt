//! The command `stress`: jobs of three kinds, each run by several threads at once on a table that they share.
ghost use Rattle.std.specs.Prelude.{◌≡◌, ◌<◌, ◌≤◌, IfOk, OnOk, IfErr};
ghost use Rattle.std.specs.Io.KnownBytes.{Appends};
ghost use Rattle.tool_commands.specs.Faults.{IsJobFault, IsStressFault};
ghost use Rattle.tool_commands.specs.Stress.{entries_of, kind_line, stress_text};

use crate::faults::Fault;
use crate::gate::Gates;
use crate::jobs::{Crew, run_job};
use crate::kinds::Kind;
use crate::workers::Values;
use std::io::Write;
use std::sync::Wait;
use std::thread::Threads;
use table_cell::Low;
use table_shared::LockFreeRawTable;
use tool_streams::faults::StreamFault;

/// Runs `jobs` jobs of each kind, each by this crew on a new table and under a new gate. After the jobs of a kind it prints the
/// kind, and the number of entries that an iterator over the last table showed.
///
/// The first fault ends the run: a thread can't be started, memory is refused, the gate refuses a worker, a look-up misses a
/// value that was inserted, or an iterator shows another number of entries than were inserted. The lines of the earlier kinds are
/// printed then.
pub fn run_stress<R: Threads + Wait + Sync, A: Low + Copy + Send + Sync, G: Gates, O: Write>(
    rt: &R,
    alloc: A,
    crew: Crew,
    jobs: u64,
    gates: &G,
    output: &mut O,
) -> Result<(), Fault>
    requires some { 0 < jobs }
    requires few { jobs ≤ 1000 }
    ensures fault { IfErr result IsStressFault }
    ensures printed { OnOk result (Appends (O.contents output.old) (O.contents output.new)
        (stress_text crew.threads)) }
{
    run_kind(rt, alloc, crew, jobs, gates, Kind::InsertUnique, output)?;
    run_kind(rt, alloc, crew, jobs, gates, Kind::InsertSame, output)?;
    run_kind(rt, alloc, crew, jobs, gates, Kind::InsertLookup, output)
}

/// Runs `jobs` jobs of the kind, and prints its line.
fn run_kind<R: Threads + Wait + Sync, A: Low + Copy + Send + Sync, G: Gates, O: Write>(
    rt: &R,
    alloc: A,
    crew: Crew,
    jobs: u64,
    gates: &G,
    kind: Kind,
    output: &mut O,
) -> Result<(), Fault>
    requires some { 0 < jobs }
    requires few { jobs ≤ 1000 }
    ensures fault { IfErr result IsStressFault }
    ensures printed { OnOk result (Appends (O.contents output.old) (O.contents output.new)
        (kind_line kind crew.threads)) }
{
    let entries = run_jobs(rt, alloc, crew, jobs, gates, kind)?;
    match writeln!(output, "{kind} {entries}") {
        Ok(()) => Ok(()),
        Err(_) => Err(Fault::Stream(StreamFault::WriteFailed)),
    }
}

/// Runs `jobs` jobs of the kind, each on a new table, and returns the number of entries that an iterator over the last one
/// showed.
fn run_jobs<R: Threads + Wait + Sync, A: Low + Copy + Send + Sync, G: Gates>(
    rt: &R,
    alloc: A,
    crew: Crew,
    jobs: u64,
    gates: &G,
    kind: Kind,
) -> Result<usize, Fault>
    requires some { 0 < jobs }
    requires few { jobs ≤ 1000 }
    ensures entries { IfOk result (λ entries. entries ≡ entries_of kind crew.threads) }
    ensures fault { IfErr result IsJobFault }
{
    let mut entries = 0;
    for number in 0..jobs {
        let table: Values<A> = LockFreeRawTable::new(alloc);
        entries = run_job(rt, alloc, crew, &gates.gate(), &table, kind.job(number))?;
    }
    Ok(entries)
}
