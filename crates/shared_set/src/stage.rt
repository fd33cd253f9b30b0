//! A generation in its place in the chain.
ghost use Rattle.std.specs.Prelude.{◌≡◌};
ghost use Rattle.table_numbered.specs.Generations.{IsOf};
ghost use Rattle.shared_set.specs.Known.{Keeps};
ghost use Rattle.shared_set.specs.Stages.{StageView, GrowsInto};

use std::marker::{Model, PhantomData};
use table_cell::Low;
use table_chain::Follows;
use table_numbered::{NumberedGeneration, SetLaw, Token};

/// A generation, and what the one before it had once it was full.
#[derive(Drop)]
pub struct Stage<V, L: SetLaw<V>, A: Low + Copy> {
    pub(crate) generation: NumberedGeneration<V, L, A>,
    pub(crate) before: Token<V, L>,
}

impl<V, L: SetLaw<V>, A: Low + Copy> Model for Stage<V, L, A> {
    ghost use Rattle.shared_set.specs.Stages.{StageView, stage_view};

    ghost Value = { StageView V };

    ghost view = { λ s. stage_view s.generation s.before.book s.before.log };
}

/// Which stage may follow which: the later one has each entry of the earlier one, which is full.
pub struct Grows<V, L, A> {
    of: PhantomData<(V, L, A)>,
}

impl<V, L: SetLaw<V>, A: Low + Copy> Follows<Stage<V, L, A>> for Grows<V, L, A> {
    ghost use Rattle.shared_set.specs.Stages.{Begins, GrowsInto};

    ghost begins = { Begins L.same L.hash_of };

    ghost follows = { GrowsInto L.same L.hash_of };
}

impl<V, L: SetLaw<V>, A: Low + Copy> Stage<V, L, A> {
    /// Returns the generation.
    pub(crate) fn generation(&self) -> &NumberedGeneration<V, L, A>
        ensures { result.now ≡ self.now.of }
    {
        &self.generation
    }

    /// Moves what is known of the generation before this one over to this one.
    pub(crate) fn carry_over(&self, entries: &mut Token<V, L>)
        requires { (s : StageView V) × GrowsInto L.same L.hash_of s self.now
            × IsOf L.same L.hash_of s.of.of entries.old.book entries.old.names entries.old.log }
        ensures of { IsOf L.same L.hash_of self.now.of.of entries.new.book entries.new.names entries.new.log }
        ensures keeps { Keeps entries.old.log entries.new.log }
    {
        entries.learn(&self.before);
        *entries = self.generation.start();
    }
}
