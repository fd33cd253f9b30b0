//! Knowledge of what a word was set to.
ghost use Rattle.std.specs.Prelude.{ℕ, Option};
ghost use Rattle.std.specs.Coded.{coded_option};
ghost use denote.Sharing.{said};
ghost use Rattle.table_cell.specs.Notes.{learnt};

use std::marker::{Model, PhantomData, Send, Sync};

/// A note of one word: for contracts, the value that calls have seen in the word so far, or none. Since a word is set through `&`
/// at most once, a value once known stays. A `Note<()>` belongs to a `Latest`, and knows whether a block was published. A note
/// takes no bytes.
#[derive(Drop)]
pub struct Note<T> {
    pub(crate) marker: PhantomData<*const T>,
    pub ghost of: { ℕ },
    pub ghost known: { Option T } by { coded_option T.code },
}

impl<T> Model for Note<T> {
    ghost also_owns = { λ n. learnt T.row n.of n.known };

    ghost also_shares = { λ n _. said (learnt T.row n.of n.known) };
}

unsafe impl<T> Send for Note<T> {}

unsafe impl<T> Sync for Note<T> {}
