//! What workers leave that run at the same time, each in a thread of its own.
ghost use Rattle.std.specs.Prelude.{IfErr};
ghost use Rattle.tool_commands.specs.Faults.{IsStartFault};

use crate::endings::Ending;
use crate::faults::Fault;
use crate::gate::{Gate, no_thread};
use std::alloc::Allocator;
use std::io;
use std::thread::{JoinHandle, Threads};
use tool_streams::faults::StreamFault;

/// What a worker leaves, which can be put together with what another one leaves.
pub(crate) trait Joined: Sized + Drop {
    /// Returns what is left by no worker.
    fn none() -> Self;

    /// Puts together what two leave.
    fn and(self, other: Self) -> Self;
}

impl Joined for Ending {
    fn none() -> Ending {
        Ending::Well
    }

    fn and(self, other: Ending) -> Ending {
        self.and(other)
    }
}

/// Keeps a worker that was to be started. If it wasn't started, the gate is given up.
pub(crate) fn keep<T: Drop, A: Allocator, G: Gate>(
    workers: &mut Vec<JoinHandle<T>, A>,
    started: io::Result<JoinHandle<T>>,
    gate: &G,
) -> Result<(), Fault>
    ensures fault { IfErr result IsStartFault }
{
    let Ok(worker) = started else {
        return Err(no_thread(gate));
    };
    match workers.push(worker) {
        Ok(()) => Ok(()),
        Err(_) => Err(Fault::Stream(StreamFault::NoMemory)),
    }
}

/// Waits for the workers, and returns what they leave together.
pub(crate) fn join_all<R: Threads, T: Joined, A: Allocator>(
    rt: &R,
    workers: Vec<JoinHandle<T>, A>,
) -> T {
    let mut all = T::none();
    for worker in workers {
        all = all.and(worker.join(rt));
    }
    all
}
