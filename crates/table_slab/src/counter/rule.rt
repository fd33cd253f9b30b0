//! The rule of a counter's book.
use logbook::{Gain, Plain, Play, Rule, Seen};
use std::marker::PhantomData;

/// An event of the log. It is ghost: no value of it is made.
#[derive(Drop)]
pub enum Event {
    /// This many slots were handed out, from the next one on.
    Taken(u64),
    /// The word `back` was set, and names the returned slots from then on.
    Left(u64),
}

/// The rule of the book of a counter.
pub struct Counts<T> {
    of: PhantomData<T>,
}

/// A prefix of a counter's log that its holder has observed.
pub type Token<T> = Seen<Event, u64, Counts<T>>;

impl<T> Rule<Event, u64> for Counts<T> {
    ghost use Rattle.std.specs.Prelude.{[]};
    ghost use Rattle.table_slab.specs.Counting.{IsKept, Moved, left};

    ghost holds = { λ cells log. IsKept cells log };

    ghost first = { [] };

    ghost hinted = { λ number log. Unit {0} };

    ghost shows = { λ log. log };

    ghost keeps = { λ names shown. left T.row names shown };

    ghost moves = { λ ask old new answer. Moved ask old new answer };
}

/// What a step gains: the rights to the slots that it takes out.
pub struct Gains<T> {
    of: PhantomData<T>,
}

impl<T> Gain<Event, u64> for Gains<T> {
    ghost use Rattle.table_slab.specs.Counting.{gained};

    ghost after = { λ names about answer. gained T.row names about answer };
}

/// A step that looks.
pub struct Look;

impl Play<Event, u64> for Look {
    ghost use Rattle.table_slab.specs.Counting.{Looks};

    ghost then = { Looks };
}

impl Plain<(), Event, u64> for Look {
    ghost use Rattle.std.specs.Prelude.{Some};
    ghost use Rattle.table_slab.specs.declared.counter.rule.Event.TheVariants.{Taken};

    ghost ask = { λ about. Taken 0 };

    ghost state = { λ about. Some 0 };
}

/// What a caller gains who trades nothing.
pub struct Nothing;

impl Gain<Event, u64> for Nothing {
    ghost use base.Fml.{ftrue};

    ghost after = { λ names about answer. ftrue };
}

/// A step that changes a word, and takes slots out.
pub struct Swap;

impl Play<Event, u64> for Swap {
    ghost use Rattle.table_slab.specs.Counting.{Swaps};

    ghost then = { Swaps };
}
