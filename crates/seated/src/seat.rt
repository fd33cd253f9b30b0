//! The permit by which a thread uses a number table.
use std::collections::LinkedList;

/// The knowledge of a seat. It exists in contracts only: no value of this type is ever made.
pub(crate) struct View {
    /// The number of words of the table.
    pub size: u64,
    /// Pairs of a bucket and the number that it holds.
    pub known: LinkedList<(u64, u64)>,
    /// The numbers that the seat placed.
    pub own: LinkedList<u64>,
    /// The number of meetings in which the seat gave.
    pub turn: u64,
    /// The numbers that the other seat of a meeting placed, until they are compared with the seat's own.
    pub giver_own: LinkedList<u64>,
    /// The turn of the other seat, after it was raised for that meeting.
    pub giver_turn: u64,
}

/// The right of one thread at a time to use a [`NumberTable`](crate::NumberTable). It takes no bytes, and may be sent to another
/// thread.
///
/// The first seat comes with the table, and each further one from a `split`. A seat may be used only with the table that it came
/// from. Dropping a seat leaves its numbers in the table; only what the seat knew is lost.
#[derive(Drop)]
pub struct Seat {
    pub(crate) inner: atomic_table::Seat<(), View>,
}

/// The result of an insert.
#[derive(Clone, Copy, PartialEq, Eq, Debug)]
pub enum NumberAnswer {
    /// The number was not in the table, and this call placed it. No other call returns `Placed` for this number.
    Placed,
    /// The number was in the table.
    Found,
    /// Each word holds another number.
    Full,
}
