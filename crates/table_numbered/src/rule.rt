//! The rule of a generation's book, and what its steps tell.

use crate::event::{Event, Numbered, Stored};
use logbook::{Gain, Opening, Plain, Play, Rule, Seen, Word};
use std::marker::PhantomData;
use table_terms::law::Law;

/// The rule of the book of a generation.
pub struct SetRule<V, L> {
    of: PhantomData<(V, L)>,
}

/// A prefix of a generation's history that its holder has observed. It has no bytes.
pub type Token<V, L> = Seen<Event<Stored<Numbered<V>>>, u64, SetRule<V, L>>;

/// A bucket's word: 0 if it is empty, 1 if it is closed, and otherwise the entry's mark in the upper half and its number plus 2 in the
/// lower one.
pub(crate) type Bucket<V, L> = Word<Event<Stored<Numbered<V>>>, u64, SetRule<V, L>>;

impl<V, L: Law<V>> Rule<Event<Stored<Numbered<V>>>, u64> for SetRule<V, L> {
    ghost use Rattle.std.specs.Prelude.{[]};
    ghost use Rattle.table_numbered.specs.Words.{alike, marked};
    ghost use Rattle.table_numbered.specs.History.{IsKept, Moved};
    ghost use Rattle.table_numbered.specs.Kept.{all_kept};
    ghost use Rattle.table_numbered.specs.Hints.{NamesTaken};

    ghost holds = { λ cells log. IsKept (alike L.same) (marked L.hash_of) cells log };

    ghost first = { [] };

    ghost hinted = { λ word log. NamesTaken word log };

    ghost shows = { λ log. log };

    ghost keeps = { λ names shown. all_kept V.row names shown };

    ghost moves = { λ ask old new answer. Moved ask old new answer };
}

/// A history in which nothing is due.
impl<V, L: Law<V>> Opening<(), Event<Stored<Numbered<V>>>> for SetRule<V, L> {
    ghost use Rattle.std.specs.Prelude.{[], ◌∷◌, None};
    ghost use Rattle.table_numbered.specs.History.{event};

    ghost log = { λ count about. event count None ∷ [] };
}

/// A history in which the entries of another one are due.
impl<V, L: Law<V>> Opening<Token<V, L>, Event<Stored<Numbered<V>>>> for SetRule<V, L> {
    ghost use Rattle.std.specs.Prelude.{[], ◌∷◌};
    ghost use Rattle.table_numbered.specs.History.{opening};
    ghost use Rattle.table_numbered.specs.Carrying.{due_after};

    ghost log = { λ count about. opening count (due_after about.log) ∷ [] };
}

/// Callers that look, or that store what everyone may know, gain nothing.
pub struct Nothing;

impl<V> Gain<Event<Stored<Numbered<V>>>, u64> for Nothing {
    ghost use base.Fml.{ftrue};

    ghost after = { λ names about answer. ftrue };
}

/// A step that looks.
pub struct Look<V, L> {
    of: PhantomData<(V, L)>,
}

impl<V, L: Law<V>> Play<Event<Stored<Numbered<V>>>, u64> for Look<V, L> {
    ghost use Rattle.table_numbered.specs.Words.{alike, marked};
    ghost use Rattle.table_numbered.specs.History.{Looks};

    ghost then = { Looks (alike L.same) (marked L.hash_of) };
}

impl<V, L: Law<V>> Plain<(), Event<Stored<Numbered<V>>>, u64> for Look<V, L> {
    ghost use Rattle.std.specs.Prelude.{None, Some};
    ghost use Rattle.table_numbered.specs.History.{event};

    ghost ask = { λ about. event 0 None };

    ghost state = { λ about. Some 0 };
}

/// A step that sets a bucket, if it is empty.
pub struct Publish<V, L> {
    of: PhantomData<(V, L)>,
}

impl<V, L: Law<V>> Play<Event<Stored<Numbered<V>>>, u64> for Publish<V, L> {
    ghost use Rattle.table_numbered.specs.Words.{alike, marked};
    ghost use Rattle.table_numbered.specs.History.{Publishes};

    ghost then = { Publishes (alike L.same) (marked L.hash_of) };
}
