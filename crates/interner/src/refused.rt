//! The reasons for which a text gets no number.

/// The reason for which a new text got no number. A refused call leaves the texts and their numbers unchanged.
#[derive(Clone, Copy, Debug, PartialEq, Eq)]
pub enum Refused {
    /// All 2^32 - 1 numbers are taken, or all up to the greatest one that the caller allows.
    Numbers,
    /// Memory was refused.
    NoMemory,
}
