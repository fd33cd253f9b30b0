//! A counter of the slots of a chunk.
ghost use Rattle.std.specs.Prelude.{◌≡◌, ℕ, ◌<◌, ◌≤◌, ◌+◌, ◌/◌, ◌%◌, ◌^◌, length, IfSome};
ghost use Rattle.table_slab.specs.Counting.{part, said_by};

mod rule;
mod trade;

use crate::rights::Rooms;
use logbook::Word;
use rule::{Counts, Event, Gains, Look, Nothing, Swap, Token};
use std::cmp::min;
use std::marker::Model;
use trade::{rights, start, swapping, taking};

/// The number of offsets that a word has room for beside a count.
const OFFSETS: u64 = 1 << 32;

/// Hands out the slots of a chunk, each to one caller at a time. It keeps one run of returned slots, which it hands out again. A
/// clause sees the names of the slots.
#[derive(Drop)]
pub(crate) struct Counter<T> {
    used: Word<Event, u64, Counts<T>>,
    back: Word<Event, u64, Counts<T>>,
    count: u64,
    start: Token<T>,
}

impl<T> Model for Counter<T> {
    ghost use Rattle.logbook.specs.Pages.{Book};
    ghost use Rattle.table_slab.specs.Counting.{word_of};
    ghost use Rattle.std.specs.Prelude.{List, ℕ, ◌≡◌, length};

    ghost Value = { Book × List ℕ };

    ghost view = { λ c. (c.start.book, c.start.names) };

    ghost invariant = { λ c. (c.used ≡ word_of c.start.book 0) × (c.back ≡ word_of c.start.book 1) × (c.count ≡ length c.start.names) };
}

/// Slots in a row that are handed out, with the right to each.
#[derive(Drop)]
pub(crate) struct Handed<T> {
    pub(crate) offset: u64,
    pub(crate) count: u64,
    pub(crate) rooms: Rooms<T>,
}

/// Returns the word that names `count` slots from `offset` on. `None`: one of the two is `2 ^ 32` or more.
fn packed(offset: u64, count: u64) -> Option<u64>
    ensures offset { IfSome result (λ w. w / 2 ^ 32 ≡ offset) }
    ensures count { IfSome result (λ w. w % 2 ^ 32 ≡ count) }
{
    if offset >= OFFSETS || count >= OFFSETS {
        return None;
    }
    Some(offset * OFFSETS + count)
}

impl<T> Counter<T> {
    /// Returns a counter of these `count` slots.
    pub(crate) fn new(rooms: Rooms<T>, count: u64) -> Counter<T>
        requires { count ≡ length rooms.names }
        ensures { result.1 ≡ rooms.names }
    {
        let (seen, mut first, mut second) = Token::open(start(rooms), 0, 0);
        Counter {
            used: Word::tracked(0, &mut first),
            back: Word::tracked(0, &mut second),
            count,
            start: seen,
        }
    }

    /// Hands out slots in a row, up to `most`, of those below the offset `end`: the returned ones, or else the next ones. `None`:
    /// `most` is 0, no such slot is left but those that other threads take or return, or more than `most` were returned.
    pub(crate) fn next(&self, most: u64, end: u64) -> Option<Handed<T>>
        ensures some { IfSome result (λ h. (0 < h.count) × (h.count ≤ most)) }
        ensures within { IfSome result (λ h. (h.offset + h.count ≤ end) × (h.offset + h.count ≤ length self.now.1)) }
        ensures rooms { IfSome result (λ h. h.rooms.names ≡ part self.now.1 h.offset h.count) }
    {
        let end = min(end, self.count);
        match self.take_returned(most, end) {
            Some(handed) => Some(handed),
            None => self.take_next(most, end),
        }
    }

    /// Keeps `count` slots from `offset` on, to hand them out again. If it already keeps returned slots, it drops the rights
    /// instead, and these slots are never handed out again.
    pub(crate) fn give_back(&self, offset: u64, count: u64, rooms: Rooms<T>)
        requires { rooms.names ≡ part self.now.1 offset count }
    {
        if let Some(word) = packed(offset, count) {
            let _ = self.swap(0, word, rooms);
        }
    }

    /// Hands out the returned slots. `None`: there are none, there are more than `most`, one of them isn't below the offset `end`, or
    /// another thread took them meanwhile.
    fn take_returned(&self, most: u64, end: u64) -> Option<Handed<T>>
        ensures some { IfSome result (λ h. (0 < h.count) × (h.count ≤ most)) }
        ensures within { IfSome result (λ h. h.offset + h.count ≤ end) }
        ensures rooms { IfSome result (λ h. h.rooms.names ≡ part self.now.1 h.offset h.count) }
    {
        let mut seen = self.start.again();
        let mut look = seen.plain::<Nothing, (), Look>(&());
        let word = self.back.load::<Look, Nothing>(&mut seen, &mut look);
        let (offset, count) = (word / OFFSETS, word % OFFSETS);
        if count == 0 || count > most || count > end || offset > end - count {
            return None;
        }
        let rooms = self.swap(word, 0, Rooms::none())?;
        Some(Handed {
            offset,
            count,
            rooms,
        })
    }

    /// Keeps the slots that the word `new` names, and returns the rights to those that the word `old` names. `None`: other slots
    /// are kept, and the rights are dropped.
    fn swap(&self, old: u64, new: u64, rooms: Rooms<T>) -> Option<Rooms<T>>
        requires { rooms.names ≡ said_by self.now.1 new }
        ensures { IfSome result (λ r. r.names ≡ said_by self.now.1 old) }
    {
        let mut seen = self.start.again();
        let mut offer = swapping(rooms, &seen, new);
        let mut pen = seen.no_pen();
        let found = self
            .back
            .compare_exchange::<Swap, Gains<T>>(old, new, &mut seen, &mut offer, &mut pen);
        if found != old {
            return None;
        }
        Some(rights(offer.into_gain(), old))
    }

    /// Hands out the next slots below the offset `end`, at most `most` of them. `None` means that all of them are handed out, or that
    /// `most` is 0. It tries again each time that another thread takes slots meanwhile.
    fn take_next(&self, most: u64, end: u64) -> Option<Handed<T>>
        requires { end ≤ length self.now.1 }
        ensures some { IfSome result (λ h. (0 < h.count) × (h.count ≤ most)) }
        ensures within { IfSome result (λ h. h.offset + h.count ≤ end) }
        ensures rooms { IfSome result (λ h. h.rooms.names ≡ part self.now.1 h.offset h.count) }
    {
        let mut seen = self.start.again();
        for _try in 0..u64::MAX {
            let mut look = seen.plain::<Nothing, (), Look>(&());
            let offset = self.used.load::<Look, Nothing>(&mut seen, &mut look);
            if offset >= end || most == 0 {
                return None;
            }
            let count = min(most, end - offset);
            let mut offer = taking(&seen, count);
            let mut pen = seen.no_pen();
            let found = self
                .used
                .compare_exchange::<Swap, Gains<T>>(
                    offset,
                    offset + count,
                    &mut seen,
                    &mut offer,
                    &mut pen,
                );
            if found == offset {
                let rooms = rights(offer.into_gain(), offset);
                return Some(Handed {
                    offset,
                    count,
                    rooms,
                });
            }
        }
        None
    }
}
