//! What a history says.

/// An event of a history. The first has the number of slots in `slot`. Each later one says what was stored in which slot, and under which
/// number. It is ghost: no value of it is made.
#[derive(Drop)]
pub struct Event<G> {
    pub slot: u64,
    pub number: u64,
    pub value: Option<Stored<G>>,
}

/// What a slot has.
#[derive(Drop)]
pub enum Stored<G> {
    /// The value was shown in it.
    Shown(G),
    /// The chain ends before it: no value is there, nor will be.
    End,
}
