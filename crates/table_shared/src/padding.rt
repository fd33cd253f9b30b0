//! Padding that keeps what inserts write away from what look-ups read.

/// Padding of 64 bytes, one cache line. The fields before it and those after it never share a line. A processor that writes to a
/// line takes it away from all others.
#[derive(Drop)]
pub(crate) struct Padding {
    bytes: [u64; 8],
}

impl Padding {
    /// Makes the padding.
    pub(crate) fn new() -> Padding {
        Padding { bytes: [0; 8] }
    }
}
