//! The rule that holds between any two steps on a number table, and the steps that keep it.
ghost use Rattle.seated.specs.Steps.{Reads, Claims};
ghost use Rattle.seated.specs.Views.{unchanged, newcomer_of, note_of, gift_of};

use crate::seat::View;
use atomic_table::{Join, Play, Split, TableRule};
use std::marker::PhantomData;

/// The rule of a number table. Its key is the number of words.
pub struct NumberRule;

impl TableRule<(), View, u64> for NumberRule {
    ghost use Rattle.seated.specs.Rule.{RuleHolds};
    ghost use Rattle.seated.specs.Views.{fresh_view};

    ghost holds = { RuleHolds };

    ghost first = { fresh_view };
}

/// Reads a bucket.
pub(crate) struct Read;

impl Play<(), View> for Read {
    ghost then = { Reads unchanged };
}

/// Reads a bucket and raises the turn of the seat.
pub(crate) struct ReadAndRaise;

impl Play<(), View> for ReadAndRaise {
    ghost use Rattle.seated.specs.Views.{with_next_turn};

    ghost then = { Reads with_next_turn };
}

/// Reads a bucket, compares what the seat holds from a giver with its own numbers, and then forgets it.
pub(crate) struct ReadAndForget;

impl Play<(), View> for ReadAndForget {
    ghost use Rattle.seated.specs.Views.{without_gift};

    ghost then = { Reads without_gift };
}

/// Exchanges an empty bucket for a number, or reads the number that is there.
pub(crate) struct Claim;

impl Play<(), View> for Claim {
    ghost then = { Claims };
}

/// A part that can be split off a seat: its view, computed from the seat's.
pub(crate) trait Part {
    ghost use Rattle.seated.specs.declared.seat.View.{View};

    ghost of: { View → View };
}

/// Splits the part off a seat, which keeps its own view.
pub(crate) struct Cut<P>(PhantomData<P>);

impl<P: Part> Split<View> for Cut<P> {
    ghost left = { unchanged };

    ghost right = { P.of };
}

/// A seat that knows nothing.
pub(crate) struct Newcomer;

impl Part for Newcomer {
    ghost of = { newcomer_of };
}

/// A copy of what the seat knows.
pub(crate) struct Note;

impl Part for Note {
    ghost of = { note_of };
}

/// A copy of what the seat knows, with the numbers that it has placed so far.
pub(crate) struct Gift;

impl Part for Gift {
    ghost of = { gift_of };
}

/// Joins another seat, a `Note` or a `Gift` to a seat.
pub(crate) struct TakeIn;

impl Join<View> for TakeIn {
    ghost use Rattle.seated.specs.Views.{join_of, spent_view};

    ghost both = { join_of };

    ghost spent = { spent_view };
}
