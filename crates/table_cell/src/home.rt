//! The life of heap blocks.
ghost use Rattle.std.specs.Prelude.{◌≡◌, ℕ, [], ◌∷◌};
ghost use base.Fml.{flft, fdead};
ghost use base.Fraction.{full_share};
ghost use denote.Sharing.{said, ends};

use std::marker::{Model, PhantomData, Send, Sync};

/// The life of a set of heap blocks: while the home is borrowed, its blocks may be read. It takes no space.
///
/// It is not dropped. `close` ends it, and then each block goes to the owner of the right to it.
pub struct Home {
    marker: PhantomData<*const u8>,
    pub ghost id: { ℕ },
}

impl Model for Home {
    ghost also_owns = { λ h. flft (h.id ∷ []) full_share };

    ghost also_shares = { λ h _. ends (h.id ∷ []) };
}

impl Home {
    /// Makes a home with no block.
    pub fn new() -> Home {
        Home {
            marker: PhantomData,
        }
    }

    /// Ends the home. No block of it is read any more.
    pub fn close(self) -> Closed
        ensures { result.id ≡ self.id }
    {
        let Home { marker } = self;
        Closed { marker }
    }
}

/// Evidence that a home has ended.
#[derive(Drop)]
pub struct Closed {
    marker: PhantomData<*const u8>,
    pub ghost id: { ℕ },
}

impl Model for Closed {
    ghost also_owns = { λ h. fdead (h.id ∷ []) };

    ghost also_shares = { λ h _. said (fdead (h.id ∷ [])) };
}

/// The content of a home's blocks. `fits` says that a value belongs to the home with that id.
pub trait Homed {
    ghost fits: { Self → ℕ → Type 0 };
}

unsafe impl Send for Home {}

unsafe impl Sync for Home {}

unsafe impl Send for Closed {}

unsafe impl Sync for Closed {}
