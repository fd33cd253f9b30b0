//! The rule of a chain's book: what holds between any two steps of any threads, and what each step says.
use crate::event::Event;
use logbook::{Gain, Opening, Plain, Play, Rule, Seen, Word};
use std::marker::PhantomData;

/// Which values may be in a chain.
pub trait Follows<G> {
    /// The values that may be first.
    ghost begins: { G → Type 0 };

    /// A value, and those that may be in the slot after it.
    ghost follows: { G → G → Type 0 };
}

/// The rule of the book of a chain.
pub struct ChainRule<G, F> {
    of: PhantomData<(G, F)>,
}

/// A prefix of a chain's history that its holder has observed: which value is in which slot. It has no bytes; `again` copies it, and
/// threads may send and share it.
pub type Token<G, F> = Seen<Event<G>, u64, ChainRule<G, F>>;

/// A slot's word: 0 if it is empty, 1 at the end of the chain, and otherwise the value's number plus 2.
pub(crate) type SlotWord<G, F> = Word<Event<G>, u64, ChainRule<G, F>>;

impl<G, F: Follows<G>> Rule<Event<G>, u64> for ChainRule<G, F> {
    ghost use Rattle.std.specs.Prelude.{[]};
    ghost use Rattle.table_chain.specs.History.{IsKept, Moved};
    ghost use Rattle.table_chain.specs.Kept.{all_kept};

    ghost holds = { λ cells log. IsKept F.begins F.follows cells log };

    ghost first = { [] };

    ghost hinted = { λ number log. Unit {0} };

    ghost shows = { λ log. log };

    ghost keeps = { λ names shown. all_kept G.row names shown };

    ghost moves = { λ ask old new answer. Moved ask old new answer };
}

impl<G, F: Follows<G>> Opening<(), Event<G>> for ChainRule<G, F> {
    ghost use Rattle.std.specs.Prelude.{[], ◌∷◌, None};
    ghost use Rattle.table_chain.specs.History.{event};

    ghost log = { λ count _. event count 0 None ∷ [] };
}

/// Callers that look trade nothing.
pub struct Nothing;

impl<G> Gain<Event<G>, u64> for Nothing {
    ghost use base.Fml.{ftrue};

    ghost after = { λ names about answer. ftrue };
}

/// A step that looks.
pub struct Look<G, F> {
    of: PhantomData<(G, F)>,
}

impl<G, F: Follows<G>> Play<Event<G>, u64> for Look<G, F> {
    ghost use Rattle.table_chain.specs.History.{Looks};

    ghost then = { Looks F.begins F.follows };
}

impl<G, F: Follows<G>> Plain<(), Event<G>, u64> for Look<G, F> {
    ghost use Rattle.std.specs.Prelude.{None, Some};
    ghost use Rattle.table_chain.specs.History.{event};

    ghost ask = { λ about. event 0 0 None };

    ghost state = { λ about. Some 0 };
}

/// A step that stores.
pub struct Store<G, F> {
    of: PhantomData<(G, F)>,
}

impl<G, F: Follows<G>> Play<Event<G>, u64> for Store<G, F> {
    ghost use Rattle.table_chain.specs.History.{Stores};

    ghost then = { Stores F.begins F.follows };
}
