//! The replies of calls.

use std::alloc::{Allocator, Global};
use std::marker::Model;

/// The reply of a finished call. The list of a walk lies in memory of the table's allocator.
#[derive(Drop)]
pub enum Reply<A: Allocator + Copy = Global> {
    /// The call's value is now an entry.
    Placed(u64),
    /// This entry was accepted, and the call's value is returned.
    Found(u64, u64),
    /// The call's value is returned: memory was refused, for its entry or for growth, or the table can't grow.
    Refused(u64),
    /// The look-up accepted this entry.
    Some(u64),
    /// The look-up accepted no entry.
    None,
    /// The number of entries.
    Len(u64),
    /// The entries, in the order in which they were read.
    Walk(Vec<u64, A>),
}

/// A call that has finished, with its reply.
#[derive(Drop)]
pub struct Finished<A: Allocator + Copy = Global> {
    pub call: u64,
    pub reply: Reply<A>,
}

impl<A: Allocator + Copy> Model for Finished<A> {
    ghost use Rattle.table_core.specs.Replies.{Finished as SpecFinished, reply_of};

    ghost Value = { SpecFinished };

    ghost view = { λ f. record { call = f.call; reply = reply_of f.reply } };
}
