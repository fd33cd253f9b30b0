//! Growth: the next stage is built and shown.
ghost use Rattle.std.specs.Prelude.{◌≡◌, suc, ◌<◌, IfSome};
ghost use Rattle.table_chain.specs.History.{Stands};
ghost use Rattle.table_numbered.specs.Generations.{IsOf};
ghost use Rattle.shared_set.specs.Stages.{stages, GrowsInto, HasNext};
ghost use Rattle.shared_set.specs.Known.{IsSeen, IsCursor};

use crate::cursor::{Cursor, Stages};
use crate::set::SharedSet;
use crate::stage::Stage;
use std::hint::spin_loop;
use std::sync::atomic::Ordering::SeqCst;
use std::thread::yield_now;
use table_cell::Low;
use table_chain::Showing;
use table_numbered::{SetLaw, Token};

/// How often a waiting thread looks before it lets others run.
const SPINS: usize = 100;

/// How many buckets a thread may build while a waiting thread looks once.
const BUCKETS_A_LOOK: usize = 16;

/// Passes some time between two looks.
fn rest(look: usize) {
    if look < SPINS {
        spin_loop();
    } else {
        yield_now();
    }
}

impl<V, L: SetLaw<V>, A: Low + Copy> SharedSet<V, L, A> {
    /// Makes sure that a stage is in the next slot, and returns what is known of the chain then. `None` means that memory was refused, or
    /// that no slot is left.
    pub(crate) fn grow(
        &self,
        cursor: &Cursor<V, L, A>,
        stage: &Stage<V, L, A>,
    ) -> Option<Stages<V, L, A>>
        requires at { IsCursor L.same L.hash_of self.now.of cursor.now }
        requires shown { Stands cursor.now.stages.log cursor.now.slot stage.now }
        ensures seen { IfSome result (λ t. IsSeen L.same L.hash_of self.now.of t.book t.names t.log) }
        ensures next { IfSome result (λ t. HasNext cursor.now.slot t.log) }
    {
        if cursor.is_last() {
            return None;
        }
        if !self.growing.swap(true, SeqCst) {
            let grown = self.build(cursor, stage);
            self.growing.store(false, SeqCst);
            return grown;
        }
        match self.comes(cursor, stage.generation().buckets()) {
            Some(seen) => Some(seen),
            None => self.build(cursor, stage),
        }
    }

    /// Grows the set, unless another thread does or no slot is left.
    pub(crate) fn grow_if_free(&self, cursor: &Cursor<V, L, A>, stage: &Stage<V, L, A>)
        requires at { IsCursor L.same L.hash_of self.now.of cursor.now }
        requires shown { Stands cursor.now.stages.log cursor.now.slot stage.now }
    {
        if cursor.is_last() || self.growing.swap(true, SeqCst) {
            return;
        }
        let _grown = self.build(cursor, stage);
        self.growing.store(false, SeqCst);
    }

    /// Loads the word of the next slot, and returns what is known of the chain then. `None` means that the slot had no stage.
    fn look_ahead(&self, cursor: &Cursor<V, L, A>) -> Option<Stages<V, L, A>>
        requires at { IsCursor L.same L.hash_of self.now.of cursor.now }
        requires inside { suc cursor.now.slot < stages }
        ensures seen { IfSome result (λ t. IsSeen L.same L.hash_of self.now.of t.book t.names t.log) }
        ensures next { IfSome result (λ t. HasNext cursor.now.slot t.log) }
    {
        let mut seen = cursor.stages.again();
        match self.chain.look(&mut seen, cursor.slot + 1) {
            Some(_) => Some(seen),
            None => None,
        }
    }

    /// Waits for a while until a stage is in the next slot. Returns `None` if none was shown, or if the thread that builds it has given up.
    fn comes(&self, cursor: &Cursor<V, L, A>, buckets: usize) -> Option<Stages<V, L, A>>
        requires at { IsCursor L.same L.hash_of self.now.of cursor.now }
        requires inside { suc cursor.now.slot < stages }
        ensures seen { IfSome result (λ t. IsSeen L.same L.hash_of self.now.of t.book t.names t.log) }
        ensures next { IfSome result (λ t. HasNext cursor.now.slot t.log) }
    {
        for look in 0..SPINS + buckets / BUCKETS_A_LOOK {
            if let Some(seen) = self.look_ahead(cursor) {
                return Some(seen);
            }
            if !self.growing.load(SeqCst) {
                return None;
            }
            rest(look);
        }
        None
    }

    /// Builds the stage that follows this one, whose generation is closed. `None` means that memory was refused.
    fn next_of(&self, stage: &Stage<V, L, A>, entries: Token<V, L>) -> Option<Stage<V, L, A>>
        requires slab { stage.now.of.of.slab ≡ self.now.of.slab }
        requires of { IsOf L.same L.hash_of stage.now.of.of entries.book entries.names entries.log }
        ensures { IfSome result (λ s. GrowsInto L.same L.hash_of stage.now s) }
    {
        let generation = stage.generation();
        let mut before = entries;
        before.learn(&generation.start());
        match generation.grown(self.alloc, &mut before) {
            Ok(generation) => Some(Stage { generation, before }),
            Err(_) => None,
        }
    }

    /// Builds the stage that follows this one, shows it unless another one was shown, and returns what is known of the chain then. `None`
    /// means that memory was refused.
    fn build(&self, cursor: &Cursor<V, L, A>, stage: &Stage<V, L, A>) -> Option<Stages<V, L, A>>
        requires at { IsCursor L.same L.hash_of self.now.of cursor.now }
        requires shown { Stands cursor.now.stages.log cursor.now.slot stage.now }
        requires inside { suc cursor.now.slot < stages }
        ensures seen { IfSome result (λ t. IsSeen L.same L.hash_of self.now.of t.book t.names t.log) }
        ensures next { IfSome result (λ t. HasNext cursor.now.slot t.log) }
    {
        if let Some(seen) = self.look_ahead(cursor) {
            return Some(seen);
        }
        let next = self.next_of(stage, cursor.entries.again())?;
        let seen = self.show_next(cursor, next)?;
        self.begin.store(cursor.slot + 1, SeqCst);
        Some(seen)
    }

    /// Shows a stage in the next slot, unless another one is there, and returns what is known of the chain then. `None` means that memory
    /// was refused.
    fn show_next(&self, cursor: &Cursor<V, L, A>, next: Stage<V, L, A>) -> Option<Stages<V, L, A>>
        requires at { IsCursor L.same L.hash_of self.now.of cursor.now }
        requires inside { suc cursor.now.slot < stages }
        requires grows { (s : _) × Stands cursor.now.stages.log cursor.now.slot s
            × GrowsInto L.same L.hash_of s next }
        ensures seen { IfSome result (λ t. IsSeen L.same L.hash_of self.now.of t.book t.names t.log) }
        ensures next { IfSome result (λ t. HasNext cursor.now.slot t.log) }
    {
        let mut seen = cursor.stages.again();
        match self.chain.show(&mut seen, cursor.slot + 1, next) {
            Showing::Shown(_) => Some(seen),
            Showing::Other(_, _) => Some(seen),
            Showing::Refused(_) => None,
        }
    }
}
