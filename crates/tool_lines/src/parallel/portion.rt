//! The parts into which lines and words are split by their hashes.
ghost use Rattle.std.specs.Prelude.{◌≡◌, ◌↔◌, IsTrue};
ghost use Rattle.tool_lines.specs.Parts.{part_of};

/// Which of the parts one is.
#[derive(Clone, Copy)]
pub struct Portion {
    /// The number of the part, from 0 on.
    pub number: usize,
    /// The number of parts.
    pub parts: usize,
}

impl Portion {
    /// Returns whether the part has what has this hash.
    pub fn has(self, hash: u64) -> bool
        ensures { IsTrue result ↔ (part_of self.parts hash ≡ self.number) }
    {
        (hash >> 32).wrapping_mul(self.parts as u64) >> 32 == self.number as u64
    }
}
