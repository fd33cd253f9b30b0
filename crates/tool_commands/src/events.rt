//! The spelling of the lines of `core`.
ghost use Rattle.std.specs.Prelude.{◌≡◌, ◌≢◌, ◌∷◌, [], Bool, IfSome, IfNone};
ghost use Rattle.tool_commands.specs.Events.{Letters, Number, said_by, answer, grant, pieces_of, SpellsPiece, SpellsPieces};
ghost use Rattle.tool_commands.specs.Events.{SpellsAfter, SpellsBehind, SpellsEvent, SpellsScheduleLine};
ghost use Rattle.tool_commands.specs.declared.events.ScheduleLine.{ScheduleLine as LineOf};
ghost use Rattle.table_core.specs.declared.event.Event.{Event as EventOf};

use crate::spelling::{parse_pair, split_at_space};
use table_core::event::Event;
use tool_streams::numbers::parse_number;

/// A line of `core`.
#[derive(Clone, Copy)]
pub enum ScheduleLine {
    /// The next event of the schedule.
    Step(Event),
    /// A request for the number of buckets of all generations.
    Buckets,
}

/// Parses a whole line, without its line break. Returns `None` for any other text.
pub fn parse_schedule_line(text: &[u8]) -> Option<ScheduleLine>
    ensures spelled { IfSome result (SpellsScheduleLine text.now) }
    ensures bad { IfNone result ((line : LineOf) → ¬ SpellsScheduleLine text.now line) }
{
    match text {
        b"b" => Some(ScheduleLine::Buckets),
        _ => {
            let event = parse_event(text)?;
            Some(ScheduleLine::Step(event))
        }
    }
}

/// Parses an event: its word, and after a space the rest.
fn parse_event(text: &[u8]) -> Option<Event>
    ensures spelled { IfSome result (SpellsEvent text.now) }
    ensures bad { IfNone result ((event : EventOf) → ¬ SpellsEvent text.now event) }
{
    let (word, rest) = split_at_space(text)?;
    parse_after(word, rest)
}

/// Parses what follows the word of an event: the number of the call, and after a space what else the event has.
fn parse_after(word: &[u8], rest: &[u8]) -> Option<Event>
    ensures spelled { IfSome result (λ event. SpellsAfter word.now rest.now (pieces_of event)) }
    ensures bad { IfNone result ((event : EventOf)
        → ¬ SpellsAfter word.now rest.now (pieces_of event)) }
{
    match split_at_space(rest) {
        None => {
            let call = parse_number(rest)?;
            event_of_call(word, call)
        }
        Some((first, more)) => {
            let call = parse_number(first)?;
            parse_behind(word, call, more)
        }
    }
}

/// Returns the event whose word is followed by the number of the call only.
fn event_of_call(word: &[u8], call: u64) -> Option<Event>
    ensures named { IfSome result (λ event. pieces_of event ≡ Letters word.now ∷ Number call ∷ []) }
    ensures unnamed { IfNone result ((event : EventOf)
        → pieces_of event ≢ Letters word.now ∷ Number call ∷ []) }
{
    match word {
        b"len" => Some(Event::Len { call }),
        b"walk" => Some(Event::Walk { call }),
        b"share" => Some(Event::Share { call }),
        b"own" => Some(Event::Own { call }),
        b"free" => Some(Event::Free { call }),
        b"load" => Some(Event::Load { call }),
        b"add" => Some(Event::Add { call }),
        b"size" => Some(Event::Size { call }),
        b"show" => Some(Event::Show { call }),
        _ => None,
    }
}

/// Parses what follows the number of the call, for events that have more.
fn parse_behind(word: &[u8], call: u64, text: &[u8]) -> Option<Event>
    ensures spelled { IfSome result (λ event. SpellsBehind word.now call text.now
        (pieces_of event)) }
    ensures bad { IfNone result ((event : EventOf)
        → ¬ SpellsBehind word.now call text.now (pieces_of event)) }
{
    match word {
        b"lookup" => {
            let hash = parse_number(text)?;
            Some(Event::Lookup { call, hash })
        }
        b"copy" => {
            let hash = parse_number(text)?;
            Some(Event::Copy { call, hash })
        }
        b"insert" => {
            let (value, hash) = parse_pair(text)?;
            Some(Event::Insert { call, value, hash })
        }
        b"read" => {
            let accepted = parse_answer(text)?;
            Some(Event::Read { call, accepted })
        }
        b"put" => {
            let (accepted, granted) = parse_put(text)?;
            Some(Event::Put {
                call,
                accepted,
                granted,
            })
        }
        b"check" => {
            let granted = parse_grant(text)?;
            Some(Event::Check { call, granted })
        }
        _ => None,
    }
}

/// Parses a closure's answer, and after a space whether memory was granted.
fn parse_put(text: &[u8]) -> Option<(bool, bool)>
    ensures spelled { IfSome result (λ put. SpellsPieces text.now
        (answer put.0 ∷ grant put.1 ∷ [])) }
    ensures bad { IfNone result ((y m : Bool) → ¬ SpellsPieces text.now (answer y ∷ grant m ∷ [])) }
{
    let (first, rest) = split_at_space(text)?;
    let accepted = parse_answer(first)?;
    let granted = parse_grant(rest)?;
    Some((accepted, granted))
}

/// Parses a closure's answer.
fn parse_answer(text: &[u8]) -> Option<bool>
    ensures spelled { IfSome result (λ b. SpellsPiece text.now (answer b)) }
    ensures bad { IfNone result ((b : Bool) → ¬ SpellsPiece text.now (answer b)) }
{
    parse_either(text, b"y", b"n")
}

/// Parses whether memory was granted.
fn parse_grant(text: &[u8]) -> Option<bool>
    ensures spelled { IfSome result (λ b. SpellsPiece text.now (grant b)) }
    ensures bad { IfNone result ((b : Bool) → ¬ SpellsPiece text.now (grant b)) }
{
    parse_either(text, b"ok", b"no")
}

/// Parses one of two words, for true and for false.
fn parse_either(text: &[u8], yes: &[u8], no: &[u8]) -> Option<bool>
    ensures spelled { IfSome result (λ b. SpellsPiece text.now (said_by yes.now no.now b)) }
    ensures bad { IfNone result ((b : Bool) → ¬ SpellsPiece text.now (said_by yes.now no.now b)) }
{
    if text == yes {
        Some(true)
    } else if text == no {
        Some(false)
    } else {
        None
    }
}
