//! What a thread knows of a set.
ghost use Rattle.std.specs.Prelude.{◌≡◌};

use crate::cursor::Cursor;
use std::alloc::Global;
use std::marker::Model;
use table_cell::Low;
use table_numbered::SetLaw;

/// What a handle knew of its set when it was asked. It owns nothing of the set, and can be sent to another thread.
///
/// A contract sees which set it is of, and the history of the newest generation that the handle had met.
#[derive(Drop)]
pub struct Known<V, L: SetLaw<V>, A: Low + Copy = Global> {
    pub(crate) cursor: Cursor<V, L, A>,
}

impl<V, L: SetLaw<V>, A: Low + Copy> Model for Known<V, L, A> {
    ghost use Rattle.shared_set.specs.Known.{KnownView, known_view, set_of, IsCursor};

    ghost Value = { KnownView V };

    ghost view = { λ k. known_view (set_of k.cursor) k.cursor.entries.log };

    ghost invariant = { λ k. IsCursor L.same L.hash_of (set_of k.cursor) k.cursor };
}

impl<V, L: SetLaw<V>, A: Low + Copy> Known<V, L, A> {
    /// Returns a copy.
    pub fn again(&self) -> Self
        ensures { result ≡ self.now }
    {
        Known {
            cursor: self.cursor.again(),
        }
    }
}
