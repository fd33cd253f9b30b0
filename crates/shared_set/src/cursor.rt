//! Where in a chain a thread is, and what it has seen there.
ghost use Rattle.std.specs.Prelude.{◌≡◌, suc, ◌<◌, ◌≤◌, true, false};
ghost use Rattle.shared_set.specs.Stages.{stages};

use crate::set::STAGES;
use crate::stage::{Grows, Stage};
use table_cell::Low;
use table_chain::Token as ChainToken;
use table_numbered::{SetLaw, Token};

/// What a thread has seen of a set's chain of stages.
pub(crate) type Stages<V, L, A> = ChainToken<Stage<V, L, A>, Grows<V, L, A>>;

/// The slot of a stage, the chain that was seen, and the history of that stage's generation that was seen.
#[derive(Drop)]
pub(crate) struct Cursor<V, L: SetLaw<V>, A: Low + Copy> {
    pub(crate) slot: usize,
    pub(crate) stages: Stages<V, L, A>,
    pub(crate) entries: Token<V, L>,
}

impl<V, L: SetLaw<V>, A: Low + Copy> Cursor<V, L, A> {
    /// Returns a copy.
    pub(crate) fn again(&self) -> Self
        ensures { result ≡ self.now }
    {
        Cursor {
            slot: self.slot,
            stages: self.stages.again(),
            entries: self.entries.again(),
        }
    }

    /// Returns true if the chain has no slot after this one.
    pub(crate) fn is_last(&self) -> bool
        ensures last { result ≡ true → stages ≤ suc self.now.slot }
        ensures inside { result ≡ false → suc self.now.slot < stages }
    {
        self.slot >= STAGES - 1
    }
}
