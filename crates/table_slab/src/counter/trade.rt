//! Rights on their way into a counter, and out of it.
ghost use Rattle.std.specs.Prelude.{◌≡◌, ℕ, suc, [], ◌∷◌, None};
ghost use Rattle.table_slab.specs.Counting.{said_by, slots_of};
ghost use Rattle.table_slab.specs.declared.counter.rule.Event.TheVariants.{Taken, Left};

use super::rule::{Counts, Event, Gains, Token};
use crate::rights::Rooms;
use logbook::{Gained, Offer, Start};
use std::marker::PhantomData;

/// Returns what a counter starts with.
pub fn start<T>(rooms: Rooms<T>) -> Start<Event, u64, Counts<T>>
    ensures names { result.names ≡ rooms.names }
    ensures shown { result.shown ≡ [] }
{
    let Rooms { marker: _ } = rooms;
    Start {
        marker: PhantomData,
    }
}

/// Returns the update that takes the next `_count` slots.
pub fn taking<T>(_seen: &Token<T>, _count: u64) -> Offer<Event, u64, Counts<T>, Gains<T>>
    ensures names { result.names ≡ _seen.now.names }
    ensures ask { result.ask ≡ Taken _count }
    ensures about { result.about ≡ result.ask ∷ [] }
    ensures state { result.state ≡ None }
{
    Offer {
        marker: PhantomData,
    }
}

/// Returns the update that gives these slots to the counter, and takes the returned ones that it keeps.
pub fn swapping<T>(
    rooms: Rooms<T>,
    _seen: &Token<T>,
    _word: u64,
) -> Offer<Event, u64, Counts<T>, Gains<T>>
    requires { rooms.names ≡ said_by _seen.now.names _word }
    ensures names { result.names ≡ _seen.now.names }
    ensures ask { result.ask ≡ Left _word }
    ensures about { result.about ≡ result.ask ∷ [] }
    ensures state { result.state ≡ None }
{
    let Rooms { marker: _ } = rooms;
    Offer {
        marker: PhantomData,
    }
}

/// Returns the rights to the slots that a step took out of a counter. `_word` is the word that the step found.
pub fn rights<T>(gained: Gained<Event, u64, Gains<T>>, _word: u64) -> Rooms<T>
    requires { gained.answer ≡ suc _word }
    ensures { result.names ≡ slots_of gained.names gained.about _word }
{
    let Gained { marker: _ } = gained;
    Rooms {
        marker: PhantomData,
    }
}
