//! The results of an insert into a set.

/// The result of an insert into a set.
#[derive(Clone, Copy, Debug, PartialEq, Eq, Drop)]
pub enum Inserted<T> {
    /// The value is now an entry.
    Placed,
    /// An entry is equal to the value, which is returned. A `get` of its target returns the entry.
    Found(T),
    /// No entry is equal, and the value is returned. No clause says why; in the code, memory was refused or the capacity can't double.
    Refused(T),
}

/// The result of an insert into a set, with the target of the entry.
///
/// A `HeldSet` promises more than the variants say. It returns `Placed` or `Refused` only if no entry was equal. After `Placed` the
/// value is an entry, and `Found` shows an entry that was there before.
#[derive(Clone, Copy, Debug, PartialEq, Eq, Drop)]
pub enum Shown<E, T> {
    /// The value was placed. Shows its target.
    Placed(E),
    /// An equal entry was found. Shows its target and returns the value.
    Found(E, T),
    /// The value was refused and is returned. No clause says why; in the code, memory was refused or the capacity can't double.
    Refused(T),
}
