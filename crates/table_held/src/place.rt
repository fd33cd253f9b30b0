//! The address of a bucket that shows an entry.
ghost use Rattle.std.specs.Prelude.{◌≡◌};

/// The place of an entry in a table: the generation and the index of a bucket that shows the entry.
///
/// A place stays valid: no later insert, and no growth, changes the entry that its bucket shows. Only a table makes a place, and
/// it is meant for that table only. Growth gives an entry a bucket in the new generation too, so one entry may have several
/// places.
#[derive(Clone, Copy, Debug, PartialEq, Eq)]
pub struct Place {
    pub(crate) generation: usize,
    pub(crate) index: usize,
}

impl Place {
    /// Returns the number of the bucket's generation. The first generation is 0.
    pub fn generation(self) -> usize
        ensures { result ≡ self.generation }
    {
        self.generation
    }

    /// Returns the index of the bucket in its generation.
    pub fn index(self) -> usize
        ensures { result ≡ self.index }
    {
        self.index
    }
}
