//! A gate that workers pass only if they run at the same time.
ghost use Rattle.std.specs.Prelude.{◌≡◌, ◌<◌, IsTrue};

use crate::faults::Fault;
use std::hint::spin_loop;
use std::sync::atomic::{AtomicBool, Ordering};
use std::thread::yield_now;

/// A gate that workers ask before each of their inserts. Workers and inserts are numbered from 0.
pub trait Gate {
    /// Returns whether the worker may make this insert. A worker asks once before each insert, and ends after a no.
    fn may_pass(&self, worker: usize, call: usize) -> bool;

    /// Records that the worker has the result of this insert.
    fn answered(&self, worker: usize, call: usize);

    /// Records that not all workers come. A worker that waits at the gate for another is refused.
    fn give_up(&self);
}

/// A source of gates, one for each run of workers.
pub trait Gates {
    /// The type of the gates.
    type Gate: Gate + Sync + Drop;

    /// Makes a gate that no worker has come to yet.
    fn gate(&self) -> Self::Gate;
}

/// Gives up the gate, since a worker can't be started, so that no other worker waits for it. Returns the fault.
pub(crate) fn no_thread<G: Gate>(gate: &G) -> Fault
    ensures { result ≡ Fault.NoThread }
{
    gate.give_up();
    Fault::NoThread
}

/// The greatest number of looks that the program's gate takes for one question.
pub const GATE_TURNS: u64 = 100_000_000;

/// The number of looks after which the gate lets another thread run first, so that workers can pass on few processors, too.
const LOOKS_TO_YIELD: u64 = 64;

/// The program's gate. Workers 0 and 1 each wait at their first insert until the other has come to it, and at their second until
/// the other has the result of its first. Everything else may pass at once.
///
/// So the gate refuses workers that one thread runs one after the other, or in turns.
#[derive(Drop)]
pub struct MeetingGate {
    /// The greatest number of looks for one question.
    pub turns: u64,
    is_given_up: AtomicBool,
    first: Progress,
    second: Progress,
}

/// The progress of one worker.
#[derive(Drop)]
struct Progress {
    is_entered: AtomicBool,
    is_answered: AtomicBool,
}

/// The gates of the program's own commands.
#[derive(Clone, Copy)]
pub struct ProgramGates;

impl Gates for ProgramGates {
    type Gate = MeetingGate;

    fn gate(&self) -> MeetingGate
        ensures turns { result.turns ≡ 100000000 }
    {
        MeetingGate::new(GATE_TURNS)
    }
}

impl MeetingGate {
    /// Makes a gate for one run of the workers, which takes at most `turns` looks for one question.
    pub fn new(turns: u64) -> MeetingGate
        ensures turns { result.turns ≡ turns }
    {
        MeetingGate {
            turns,
            is_given_up: AtomicBool::new(false),
            first: Progress::new(),
            second: Progress::new(),
        }
    }

    /// Waits for the flag, and returns whether it was set in time. Now and then it also looks whether the gate was given up.
    fn sees(&self, flag: &AtomicBool) -> bool {
        for turn in 0..self.turns {
            if flag.load(Ordering::SeqCst) {
                return true;
            }
            if turn % LOOKS_TO_YIELD == 0 {
                if self.is_given_up.load(Ordering::SeqCst) {
                    return false;
                }
                yield_now();
            } else {
                spin_loop();
            }
        }
        false
    }

    /// Returns whether one of the two workers may make this insert, by the progress of the other.
    fn may_go_on(&self, own: &Progress, other: &Progress, call: usize) -> bool
        ensures later { 1 < call → IsTrue result }
    {
        match call {
            0 => {
                own.is_entered.store(true, Ordering::SeqCst);
                self.sees(&other.is_entered)
            }
            1 => self.sees(&other.is_answered),
            _ => true,
        }
    }
}

impl Progress {
    fn new() -> Progress {
        Progress {
            is_entered: AtomicBool::new(false),
            is_answered: AtomicBool::new(false),
        }
    }
}

impl Gate for MeetingGate {
    fn may_pass(&self, worker: usize, call: usize) -> bool
        ensures others { 1 < worker → IsTrue result }
        ensures later { 1 < call → IsTrue result }
    {
        match worker {
            0 => self.may_go_on(&self.first, &self.second, call),
            1 => self.may_go_on(&self.second, &self.first, call),
            _ => true,
        }
    }

    fn answered(&self, worker: usize, call: usize) {
        match (worker, call) {
            (0, 0) => self.first.is_answered.store(true, Ordering::SeqCst),
            (1, 0) => self.second.is_answered.store(true, Ordering::SeqCst),
            _ => {}
        }
    }

    fn give_up(&self) {
        self.is_given_up.store(true, Ordering::SeqCst);
    }
}
