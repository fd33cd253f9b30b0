//! Numbers that a handle takes ahead, so that threads don't meet at one counter.
ghost use Rattle.std.specs.Prelude.{◌≡◌, ℕ, suc, ◌<◌, ◌≤◌, ◌+◌, length, IfOk, IfNone, IfSome, IfErr, OnOk, MatchOption, None, Some};
ghost use Rattle.table_slab.specs.Held.{IsRightTo};
ghost use Rattle.table_slab.specs.Numbering.{IsSmall};
ghost use Rattle.table_slab.specs.Runs.{IsRunOf};
ghost use Rattle.table_slab.specs.Slabs.{SlabView};

use crate::chunk::Chunk;
use crate::numbering::{number_at, usable_len, where_is};
use crate::rights::Rooms;
use crate::site::Site;
use crate::slab::{Right, Slab};
use std::alloc::{AllocError, Allocator};
use std::mem::replace;
use table_cell::Low;

/// Numbers in a row, with the right to each: what a handle takes ahead from a chunk.
#[derive(Drop)]
pub struct Run<T, A: Allocator> {
    pub(crate) place: u32,
    pub(crate) number: u64,
    pub(crate) left: u64,
    pub(crate) rooms: Rooms<T>,
    pub(crate) site: Option<Site<Chunk<T, A>>>,
}

/// Why a slab has no number.
#[derive(Drop)]
pub enum Refused {
    /// Memory for a chunk was refused.
    Memory,
    /// All numbers below `2 ^ 32 - 2` are handed out.
    Numbers,
}

impl<T, A: Allocator> Run<T, A> {
    /// Returns a run with no number.
    pub fn new() -> Run<T, A>
        ensures none { result.left ≡ 0 }
        ensures of { (s : SlabView) → IsRunOf s result }
    {
        Run {
            place: 0,
            number: 0,
            left: 0,
            rooms: Rooms::none(),
            site: None,
        }
    }

    /// Takes the next number off, with the right to it. The number is below `2 ^ 32 - 2`. `None`: the run has no number left.
    pub fn take(&mut self) -> Option<(u64, Right<T, A>)>
        requires of { (s : SlabView) × IsRunOf s self.old }
        ensures number { IfSome result (λ r. (s : SlabView) → IsRunOf s self.old → IsRightTo s r.0 r.1) }
        ensures small { IfSome result (λ r. IsSmall r.0) }
        ensures empty { IfSome result (λ r. r.1.room.value ≡ None) }
        ensures rest { (s : SlabView) → IsRunOf s self.old → IsRunOf s self.new }
        ensures none { IfNone result (self.new ≡ self.old) }
        ensures left { MatchOption result (self.old.left ≡ 0) (λ r. self.old.left ≡ suc self.new.left) }
    {
        if self.left == 0 {
            return None;
        }
        let site = match &self.site {
            Some(site) => site.again(),
            None => return None,
        };
        let number = self.number;
        let (room, rest) = replace(&mut self.rooms, Rooms::none()).first();
        self.rooms = rest;
        self.number += 1;
        self.left -= 1;
        Some((number, Right { site, room }))
    }
}

impl<T, A: Low + Copy> Slab<T, A> {
    /// Fills a run that has no number left, with up to `want` of them: from the run's chunk, or else from the next one that
    /// has some. A refusal leaves the run as it was.
    pub fn refill(&self, run: &mut Run<T, A>, want: u64) -> Result<(), Refused>
        requires want { 0 < want }
        requires none { run.old.left ≡ 0 }
        ensures ok { OnOk result ((0 < run.new.left) × (run.new.left ≤ want)) }
        ensures of { IsRunOf self.now run.new }
        ensures refused { IfErr result (λ _. run.new ≡ run.old) }
    {
        let filled = self.run_from(run.place, want)?;
        *run = filled;
        Ok(())
    }

    /// Takes the next number of a run, with the right to it. The number is below `2 ^ 32 - 2`. A run that has none left is
    /// filled before, with up to `want` numbers. A refusal leaves the run as it was.
    pub fn number(&self, run: &mut Run<T, A>, want: u64) -> Result<(u64, Right<T, A>), Refused>
        requires want { 0 < want }
        requires of { IsRunOf self.now run.old }
        ensures number { IfOk result (λ r. IsRightTo self.now r.0 r.1) }
        ensures small { IfOk result (λ r. IsSmall r.0) }
        ensures empty { IfOk result (λ r. r.1.room.value ≡ None) }
        ensures of { IsRunOf self.now run.new }
        ensures refused { IfErr result (λ _. run.new ≡ run.old) }
        ensures left { IfOk result (λ _. 0 < run.old.left → run.old.left ≡ suc run.new.left) }
        ensures most { IfOk result (λ _. run.old.left ≡ 0 → run.new.left < want) }
    {
        if let Some(next) = run.take() {
            return Ok(next);
        }
        self.refill(run, want)?;
        match run.take() {
            Some(next) => Ok(next),
            None => unreachable!(),
        }
    }

    /// Takes back the numbers that a run has left, to hand them out again to a caller that wants at least as many. A chunk keeps one
    /// returned run. If the chunk of these numbers already keeps one, these numbers are never handed out again.
    pub fn give_back(&self, run: Run<T, A>)
        requires { IsRunOf self.now run }
    {
        let Run {
            place,
            number,
            left,
            rooms,
            site,
        } = run;
        if left == 0 {
            return;
        }
        let Some(site) = site else {
            return;
        };
        let seat = where_is(self.bits(), number);
        self.chunk(place, &site).give_back(seat.1, left, rooms);
    }

    /// Returns a run from the chunk at this place, or else from the next one that has a number.
    fn run_from(&self, first: u32, want: u64) -> Result<Run<T, A>, Refused>
        requires want { 0 < want }
        ensures some { IfOk result (λ r. (0 < r.left) × (r.left ≤ want)) }
        ensures of { IfOk result (λ r. IsRunOf self.now r) }
    {
        for place in first..self.places() {
            match self.run_at(place, want) {
                Ok(Some(run)) => return Ok(run),
                Ok(None) => {}
                Err(_) => return Err(Refused::Memory),
            }
        }
        Err(Refused::Numbers)
    }

    /// Returns a run from the chunk at this place, which is made if it isn't there. `None`: the chunk has no slot to hand out.
    fn run_at(&self, place: u32, want: u64) -> Result<Option<Run<T, A>>, AllocError>
        requires inside { place < length self.now.cells }
        requires few { self.now.bits + place < 32 }
        ensures some { IfOk result (λ o. IfSome o (λ r. (0 < r.left) × (r.left ≤ want))) }
        ensures of { IfOk result (λ o. IfSome o (λ r. IsRunOf self.now r)) }
    {
        let site = self.made(place)?;
        let len = usable_len(self.bits(), place);
        let Some(handed) = self.chunk(place, &site).next(want, len) else {
            return Ok(None);
        };
        Ok(Some(Run {
            place,
            number: number_at(self.bits(), place, handed.offset),
            left: handed.count,
            rooms: handed.rooms,
            site: Some(site),
        }))
    }
}
