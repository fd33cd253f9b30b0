//! What a word holds for good.
ghost use Rattle.std.specs.Prelude.{◌≡◌, ℕ, Some};
ghost use denote.Sharing.{said};
ghost use Rattle.table_cell.specs.Notes.{learnt};

use std::marker::{Model, PhantomData, Send, Sync};
use table_cell::Note;

/// What shows that a word holds `value` for good. It has no bytes, and it can be copied and sent.
#[derive(Drop)]
pub struct Site<X> {
    pub marker: PhantomData<X>,
    pub ghost cell: { ℕ },
    pub ghost value: { X },
}

impl<X> Model for Site<X> {
    ghost use Rattle.std.specs.Prelude.{Some};
    ghost use denote.Sharing.{said};
    ghost use Rattle.table_cell.specs.Notes.{learnt};

    ghost also_owns = { λ s. learnt X.row s.cell (Some s.value) };

    ghost also_shares = { λ s _ κ. said (learnt X.row s.cell (Some s.value)) κ };
}

impl<X> Site<X> {
    /// Returns a copy.
    pub fn again(&self) -> Site<X>
        ensures { (result.cell ≡ self.now.cell) × (result.value ≡ self.now.value) }
    {
        Site {
            marker: PhantomData,
        }
    }
}

/// Returns what a note knows.
pub fn tell<X>(note: &mut Note<X>) -> Site<X>
    requires { (x : X) × (note.old.known ≡ Some x) }
    ensures { (note.new ≡ note.old) × (result.cell ≡ note.old.of) × (note.old.known ≡ Some result.value) }
{
    Site {
        marker: PhantomData,
    }
}

/// Tells a note what is known of its word.
pub fn hear<X>(note: &mut Note<X>, site: Site<X>)
    requires { site.cell ≡ note.old.of }
    ensures { (note.new.of ≡ note.old.of) × (note.new.known ≡ Some site.value) }
{
    let Site { marker: _ } = site;
}

unsafe impl<X> Send for Site<X> {}

unsafe impl<X> Sync for Site<X> {}
