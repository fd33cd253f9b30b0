//! The lock of a table, which has lanes: an insert takes the lane of its hash, and a growth takes all lanes.
//!
//! A guard carries, for contracts, the table that it belongs to. The guard of a growth is proved to hold every lane.
ghost use Rattle.std.specs.Prelude.{◌≡◌, ◌<◌, IfSome};
ghost use Rattle.table_shared.specs.Lanes.{AreFourFrom};

use crate::table::LockFreeRawTable;
use std::alloc::Allocator;
use std::array;
use std::marker::Model;
use std::mem::size_of;
use std::snapshot::Snapshot;
use std::sync::{RwLock, RwLockReadGuard, RwLockWriteGuard, Wait};
use table_cell::Home;
use table_generations::atomic_value::AtomicValue;

/// The number of lanes of a table's lock. It is a power of two.
const LANES: usize = 8;

/// One lane of a table's lock, padded to 64 bytes, the size of a cache line. Two lanes share a line only if the table does
/// not begin at the start of one.
#[derive(Drop)]
struct Lane {
    lock: RwLock<()>,
    padding: [u64; 5],
}

const _: () = prove!(size_of::<Lane>() == 64);

// An `OwnedLock` has this many.
const _: () = prove!(LANES == 8);

impl Lane {
    /// Makes a lane that nobody holds.
    fn new() -> Lane {
        Lane {
            lock: RwLock::new(()),
            padding: [0; 5],
        }
    }
}

/// A readers-writer lock in lanes. A reader takes only the lane of a hash, so that inserts of different hashes seldom write
/// to one cache line. A writer takes every lane, in order.
#[derive(Drop)]
pub(crate) struct Locks {
    lanes: [Lane; LANES],
}

/// A guard of one lane of a table's lock, held shared.
#[derive(Drop)]
pub(crate) struct SharedLock<'a> {
    guard: RwLockReadGuard<'a, ()>,
    of: Snapshot<Home>,
}

impl<'a> Model for SharedLock<'a> {
    ghost use Rattle.table_shared.specs.Locked.{LockView};

    ghost Value = { LockView };

    ghost view = { λ l. record { home = l.of.value.id } };
}

/// A guard of one lane, held exclusively.
#[derive(Drop)]
struct OneLane<'a> {
    guard: RwLockWriteGuard<'a, ()>,
    number: Snapshot<u64>,
}

impl<'a> Model for OneLane<'a> {
    ghost use Rattle.table_shared.specs.Locked.{LaneView};

    ghost Value = { LaneView };

    ghost view = { λ l. record { number = l.number.value } };
}

/// Guards of four lanes in a row, held exclusively.
#[derive(Drop)]
struct Four<'a> {
    one: OneLane<'a>,
    two: OneLane<'a>,
    three: OneLane<'a>,
    four: OneLane<'a>,
}

/// Guards of all lanes of one table, held exclusively.
#[derive(Drop)]
pub(crate) struct OwnedLock<'a> {
    low: Four<'a>,
    high: Four<'a>,
    of: Snapshot<Home>,
}

impl<'a> Model for OwnedLock<'a> {
    ghost use Rattle.table_shared.specs.Locked.{LockView};
    ghost use Rattle.table_shared.specs.Lanes.{AreFourFrom};

    ghost Value = { LockView };

    ghost view = { λ l. record { home = l.of.value.id } };

    ghost invariant = { λ l. AreFourFrom 0 l.low × AreFourFrom 4 l.high };
}

impl Locks {
    /// Makes lanes that nobody holds.
    pub(crate) fn new() -> Locks {
        Locks {
            lanes: array::from_fn(|_lane| Lane::new()),
        }
    }

    /// Returns the lane of a hash, by its low bits, in which consecutive hashes differ.
    #[inline(always)]
    fn lane(&self, hash: u64) -> &RwLock<()> {
        &self.lanes[hash as usize & (LANES - 1)].lock
    }

    /// Takes the lane of this hash, shared, for the table of this home. Waits while a writer holds it.
    #[inline(always)]
    fn lock_shared<R: Wait>(&self, rt: &R, hash: u64, home: &Home) -> SharedLock<'_>
        ensures { result.home ≡ home.now.id }
    {
        SharedLock {
            guard: self.lane(hash).read(rt),
            of: Snapshot::of(home),
        }
    }

    /// Takes the lane of this hash, shared, for the table of this home, if no writer holds it now.
    fn try_lock_shared(&self, hash: u64, home: &Home) -> Option<SharedLock<'_>>
        ensures { IfSome result (λ l. l.home ≡ home.now.id) }
    {
        Some(SharedLock {
            guard: self.lane(hash).try_read()?,
            of: Snapshot::of(home),
        })
    }

    /// Takes the lane of this number exclusively. Waits while anybody holds it.
    fn own_lane<R: Wait>(&self, rt: &R, number: u64) -> OneLane<'_>
        ensures { result.number ≡ number }
    {
        OneLane {
            guard: self.lane(number).write(rt),
            number: Snapshot::of(&number),
        }
    }

    /// Takes the lane of this number exclusively, if nobody holds it now.
    fn try_own_lane(&self, number: u64) -> Option<OneLane<'_>>
        ensures { IfSome result (λ l. l.number ≡ number) }
    {
        Some(OneLane {
            guard: self.lane(number).try_write()?,
            number: Snapshot::of(&number),
        })
    }

    /// Takes four lanes exclusively, in order, from number `first` on. Waits for everybody who holds one.
    fn own_four<R: Wait>(&self, rt: &R, first: u64) -> Four<'_>
        requires { first < 5 }
        ensures { AreFourFrom first result }
    {
        Four {
            one: self.own_lane(rt, first),
            two: self.own_lane(rt, first + 1),
            three: self.own_lane(rt, first + 2),
            four: self.own_lane(rt, first + 3),
        }
    }

    /// Takes four lanes exclusively, from number `first` on, if nobody holds any of them now.
    fn try_own_four(&self, first: u64) -> Option<Four<'_>>
        requires { first < 5 }
        ensures { IfSome result (AreFourFrom first) }
    {
        Some(Four {
            one: self.try_own_lane(first)?,
            two: self.try_own_lane(first + 1)?,
            three: self.try_own_lane(first + 2)?,
            four: self.try_own_lane(first + 3)?,
        })
    }

    /// Takes all lanes exclusively, for the table of this home. Waits for everybody who holds one.
    fn own<R: Wait>(&self, rt: &R, home: &Home) -> OwnedLock<'_>
        ensures { result.home ≡ home.now.id }
    {
        OwnedLock {
            low: self.own_four(rt, 0),
            high: self.own_four(rt, 4),
            of: Snapshot::of(home),
        }
    }

    /// Takes all lanes exclusively, for the table of this home, if nobody holds any of them now.
    fn try_own(&self, home: &Home) -> Option<OwnedLock<'_>>
        ensures { IfSome result (λ l. l.home ≡ home.now.id) }
    {
        Some(OwnedLock {
            low: self.try_own_four(0)?,
            high: self.try_own_four(4)?,
            of: Snapshot::of(home),
        })
    }
}

impl<T: AtomicValue, A: Allocator + Copy> LockFreeRawTable<T, A> {
    /// Takes the lane of this hash, shared. Waits while a writer holds it.
    #[inline(always)]
    pub(crate) fn lock_shared<R: Wait>(&self, rt: &R, hash: u64) -> SharedLock<'_>
        ensures { result.home ≡ self.now.home }
    {
        self.locks.lock_shared(rt, hash, &self.home)
    }

    /// Takes the lane of this hash, shared, if no writer holds it now.
    pub(crate) fn try_lock_shared(&self, hash: u64) -> Option<SharedLock<'_>>
        ensures { IfSome result (λ l. l.home ≡ self.now.home) }
    {
        self.locks.try_lock_shared(hash, &self.home)
    }

    /// Takes all lanes of the table exclusively. Waits for everybody who holds one.
    pub(crate) fn own<R: Wait>(&self, rt: &R) -> OwnedLock<'_>
        ensures { result.home ≡ self.now.home }
    {
        self.locks.own(rt, &self.home)
    }

    /// Takes all lanes of the table exclusively, if nobody holds any of them now.
    pub(crate) fn try_own(&self) -> Option<OwnedLock<'_>>
        ensures { IfSome result (λ l. l.home ≡ self.now.home) }
    {
        self.locks.try_own(&self.home)
    }
}
