//! Whole calls on one table, of one thread or of two, in the order that was rehearsed.
//!
//! Each thread compares its calls with the rehearsal: the entries with which closures are called, the replies, and what the table shows at
//! its stops.
use crate::fault::{ReplayFault, check, granted};
use crate::item::{Item, Said, reply_of_insert, reply_of_lookup};
use crate::replay::Ground;
use crate::schedules::Ask;
use crate::whole_calls::rehearsal::Rehearsal;
use crate::whole_calls::stops::{Copied, Milestone, Sight, Stop};
use std::cell::Cell;
use std::sync::Wait;
use std::sync::atomic::{AtomicU64, Ordering};
use std::thread::Threads;
use std::{hint, thread};
use table_cell::Low;
use testkit::refusing::Turns;

/// How often the watcher compares what the table shows with what was rehearsed for a call that waits. It yields after each look.
const SIGHTS: u64 = 1 << 24;

/// How often the watcher spins after that, so that the call comes to its lock.
const QUIET_SPINS: u64 = 2_000;

/// Runs a whole call, and returns its reply. Its equality closure answers by `says`, which is given the number of the value that the table
/// passes, or of a look-up. Its hash closure answers by `rehashes`. `Err`: no memory for its value.
fn run_call<R: Wait, A: Low + Copy, S: Fn(u64, &Item) -> bool, H: Fn(&Item) -> u64>(
    rt: &R,
    ground: Ground<'_, A>,
    number: u64,
    ask: Ask,
    says: S,
    rehashes: H,
) -> Result<Said, ReplayFault>
    requires says_callable { S.IsAlwaysCallable says }
    requires rehashes_callable { H.IsAlwaysCallable rehashes }
{
    match ask {
        Ask::Insert(class, hash) => {
            let item = Item {
                number,
                class,
                hash,
            };
            let value = granted(Box::new(ground.alloc, item))?;
            let eq = |new: &Item, entry: &Item| says(new.number, entry);
            let reply = ground.table.insert(rt, hash, value, eq, rehashes);
            Ok(reply_of_insert(&reply))
        }
        Ask::Lookup(_class, hash) => {
            let test = |entry: &Item| says(number, entry);
            Ok(reply_of_lookup(ground.table.lookup(hash, test)))
        }
    }
}

/// The entries that growths copy while both threads run: those that were rehearsed, and how many were copied so far.
#[derive(Drop)]
struct Copies<'p> {
    rehearsed: &'p [Copied],
    count: AtomicU64,
}

/// What runs inside the closures of a whole call.
trait Inside {
    /// Runs inside a closure of a whole call.
    fn run<R: Wait, A: Low + Copy>(&self, player: &Player<'_, R, A>);
}

/// Nothing runs inside closures.
#[derive(Clone, Copy)]
struct Nothing;

impl Inside for Nothing {
    fn run<R: Wait, A: Low + Copy>(&self, _player: &Player<'_, R, A>) {}
}

/// The calls run whose stops come next. What this holds runs inside their closures.
#[derive(Clone, Copy)]
struct Deeper<I: Inside>(I);

impl<I: Inside> Inside for Deeper<I> {
    fn run<R: Wait, A: Low + Copy>(&self, player: &Player<'_, R, A>) {
        for _stop in player.stops {
            if !player.play_next(&self.0) {
                return;
            }
        }
    }
}

/// A thread that makes these stops, with the place of the next one, and its first fault.
#[derive(Drop)]
struct Player<'p, R: Wait, A: Low + Copy> {
    rt: &'p R,
    ground: Ground<'p, A>,
    copies: &'p Copies<'p>,
    stops: &'p [Stop],
    place: Cell<usize>,
    fault: Cell<Option<ReplayFault>>,
}

impl<R: Wait, A: Low + Copy> Player<'_, R, A> {
    /// Returns the next stop. Returns `None` if there is none, or if all waiting was ended.
    fn peek(&self) -> Option<Stop> {
        if self.turns().has_ended() {
            return None;
        }
        self.stops.get(self.place.get()).copied()
    }

    /// Moves past the next stop.
    fn pass(&self) {
        self.place.set(self.place.get().saturating_add(1));
    }

    /// Returns the turns that the threads take.
    fn turns(&self) -> &Turns {
        self.ground.heap.turns()
    }

    /// Records a fault, if it is the first. From then on no thread waits, and both threads run to their ends.
    fn fail(&self, fault: ReplayFault) {
        if self.fault.get().is_none() && !self.turns().has_ended() {
            self.fault.set(Some(fault));
        }
        self.turns().end();
    }

    /// Waits for this turn, if there is one.
    fn wait(&self, turn: Option<u64>) {
        if let Some(turn) = turn {
            self.turns().wait_for(self.rt, turn);
        }
    }

    /// Moves past the next stop, which must have this milestone, and compares what the table shows there. Waits if the stop says so.
    fn arrive(&self, call: u64, milestone: Milestone) {
        match self.peek() {
            Some(stop) if stop.milestone == milestone => {
                self.pass();
                self.compare(stop);
                self.leave(stop);
            }
            _ => self.fail(ReplayFault::Asked(call)),
        }
    }

    /// Checks that the table shows what was rehearsed for this stop, and that the request that was to be held was made.
    fn compare(&self, stop: Stop) {
        if stop.sight.is_none() {
            return;
        }
        if stop.sight != Some(Sight::of(self.ground)) {
            self.fail(ReplayFault::Sight);
        }
        if self.turns().holds_next() {
            self.fail(ReplayFault::Step(stop.call));
        }
    }

    /// Leaves this stop, and ends the turn or waits if the stop says so. If the next stop is a request for a block, that request will be
    /// held.
    fn leave(&self, stop: Stop) {
        if stop.ends_turn {
            self.turns().pass();
        }
        self.wait(stop.resumes);
        let Some(next) = self.peek() else {
            return;
        };
        if matches!(next.milestone, Milestone::AtEmpty) {
            self.pass();
            if let Some(turn) = next.resumes {
                self.turns().hold_next(turn);
            }
        }
    }

    /// Returns whether the call accepts an entry, as was rehearsed. The thread first makes its stop there, and its calls inside this closure.
    fn says<I: Inside>(&self, call: u64, entry: &Item, inside: &I) -> bool {
        let accepted = match self.peek() {
            Some(stop) => matches!(stop.milestone, Milestone::Asked(_, _, true)),
            None => false,
        };
        self.arrive(call, Milestone::Asked(call, entry.number, accepted));
        inside.run(self);
        accepted
    }

    /// Returns the hash of an entry, as was rehearsed. The thread first makes its stop there, and its calls inside this closure. If it has no
    /// such stop, it compares the copy.
    fn rehashes<I: Inside>(&self, call: u64, entry: &Item, inside: &I) -> u64 {
        let hash = match self.peek() {
            Some(
                Stop {
                    milestone: Milestone::Hashed(_, _, hash),
                    ..
                },
            ) => hash,
            _ => {
                self.copy(call, entry);
                return entry.hash;
            }
        };
        self.arrive(call, Milestone::Hashed(call, entry.number, hash));
        inside.run(self);
        hash
    }

    /// Compares an entry that a growth copies with the rehearsal, while both threads run.
    fn copy(&self, call: u64, entry: &Item) {
        if self.turns().has_ended() {
            return;
        }
        let index = self.copies.count.fetch_add(1, Ordering::SeqCst);
        let copied = Copied {
            entry: entry.number,
            hash: entry.hash,
            sight: Some(Sight::of(self.ground)),
        };
        if self.copies.rehearsed.get(index as usize) != Some(&copied) {
            self.fail(ReplayFault::Asked(call));
        }
    }

    /// Runs the call that begins at the next stop, if one does, to its end. `inside` runs in its closures. Returns whether a call ran.
    fn play_next<I: Inside>(&self, inside: &I) -> bool {
        let Some(stop) = self.peek() else {
            return false;
        };
        let Milestone::Began(ask, refusals) = stop.milestone else {
            return false;
        };
        let call = stop.call;
        self.arrive(call, stop.milestone);
        if let Some((passing, refused)) = refusals {
            self.ground.heap.refuse(passing, refused);
        }
        let says = |number: u64, entry: &Item| self.says(number, entry, inside);
        let rehashes = |entry: &Item| self.rehashes(call, entry, inside);
        match run_call(self.rt, self.ground, call, ask, says, rehashes) {
            Ok(said) => self.arrive(call, Milestone::Ended(call, said)),
            Err(fault) => self.fail(fault),
        }
        true
    }

    /// Waits for the turn of this stop, and until the table shows what was rehearsed for it. Gives the call the time to come to its lock,
    /// and begins the next turn.
    fn watch(&self, stop: Stop) {
        self.wait(Some(stop.turn));
        for _look in 0..SIGHTS {
            if self.turns().has_ended() || Some(Sight::of(self.ground)) == stop.sight {
                break;
            }
            thread::yield_now();
        }
        for _quiet in 0..QUIET_SPINS {
            hint::spin_loop();
        }
        thread::yield_now();
        self.compare(stop);
        self.turns().pass();
    }

    /// Makes the next stop, if it is the watcher's, or plays the call that begins there. Returns whether there was one.
    fn go_on(&self) -> bool {
        match self.peek() {
            Some(stop) if matches!(stop.milestone, Milestone::Waits) => {
                self.pass();
                self.watch(stop);
                true
            }
            _ => self.play_next(&Deeper(Deeper(Nothing))),
        }
    }

    /// Makes all stops, and returns the first fault.
    fn run(&self) -> Option<ReplayFault> {
        self.wait(self.peek().map(|stop| stop.turn));
        for _stop in self.stops {
            if !self.go_on() {
                break;
            }
        }
        if let Some(stop) = self.peek() {
            self.fail(ReplayFault::Asked(stop.call));
        }
        self.fault.get()
    }
}

/// Makes the stops of one thread, and returns its first fault.
fn play_as<R: Wait, A: Low + Copy>(
    rt: &R,
    ground: Ground<'_, A>,
    copies: &Copies<'_>,
    stops: &[Stop],
) -> Option<ReplayFault> {
    let player = Player {
        rt,
        ground,
        copies,
        stops,
        place: Cell::new(0),
        fault: Cell::new(None),
    };
    player.run()
}

/// Runs what was rehearsed on a table, and compares what the table shows at the end. `Err`: the fault of a thread, a missed turn, fewer copied
/// entries or requests than were rehearsed, or a table that shows something else.
pub(crate) fn play<R: Threads + Wait + Sync, A: Low + Copy + Send + Sync>(
    rt: &R,
    ground: Ground<'_, A>,
    rehearsal: &Rehearsal<'_>,
) -> Result<(), ReplayFault> {
    let (one, other) = (
        rehearsal.running.stops.as_slice(),
        rehearsal.waiting.stops.as_slice(),
    );
    let watched = rehearsal.watched.as_slice();
    let copies = Copies {
        rehearsed: rehearsal.copied.as_slice(),
        count: AtomicU64::new(0),
    };
    let ((one, other), watcher) = thread::join(
        rt,
        || {
            thread::join(
                rt,
                || play_as(rt, ground, &copies, one),
                || play_as(rt, ground, &copies, other),
            )
        },
        || play_as(rt, ground, &copies, watched),
    );
    if let Some(fault) = one.or(other).or(watcher) {
        return Err(fault);
    }
    let turns = ground.heap.turns();
    check(turns.missed() == 0, ReplayFault::Alone)?;
    let copied = copies.count.load(Ordering::SeqCst);
    let all = copied == rehearsal.copied.len() as u64 && !turns.holds_next();
    check(all, ReplayFault::Unfinished)?;
    let same = rehearsal.end == Some(Sight::of(ground));
    check(same, ReplayFault::Sight)
}
