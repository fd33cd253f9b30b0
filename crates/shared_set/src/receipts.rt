//! Entries by their receipts.
ghost use Rattle.std.specs.Prelude.{◌≡◌};

use crate::handle::Handle;
use crate::set::SharedSet;
use table_cell::Low;
use table_numbered::SetLaw;
use table_slab::Receipt;

impl<V, L: SetLaw<V>, A: Low + Copy> SharedSet<V, L, A> {
    /// Returns the entry that the receipt is of. It reads that entry, and nothing else.
    pub fn entry_of(&self, number: u64, receipt: &Receipt<V>) -> &V
        requires set { receipt.now.slab ≡ self.now.of.slab }
        requires number { receipt.now.number ≡ number }
        ensures { result.now ≡ receipt.now.value }
    {
        self.slab.get(number, &receipt.shows())
    }
}

impl<'a, V, L: SetLaw<V>, A: Low + Copy> Handle<'a, V, L, A> {
    /// Returns the entry that the receipt is of, whether this handle knows of it or not. It reads that entry, and nothing else.
    pub fn entry_of(&self, number: u64, receipt: &Receipt<V>) -> &'a V
        requires set { receipt.now.slab ≡ self.now.of.slab }
        requires number { receipt.now.number ≡ number }
        ensures { result.now ≡ receipt.now.value }
    {
        let set = self.set;
        set.entry_of(number, receipt)
    }
}
