//! What is true of all entries that a thread knows.
ghost use Rattle.table_numbered.specs.History.{OneValue};
ghost use Rattle.shared_set.specs.Apart.{AreApart, AreNumbers};

use crate::handle::Handle;
use crate::known::Known;
use table_cell::Low;
use table_numbered::{SetLaw, one_value};

impl<V, L: SetLaw<V>, A: Low + Copy> Known<V, L, A> {
    /// States that no two entries that are known are the same or have one number, and that the numbers are below 2^32 - 2. Nothing happens.
    pub fn apart(&self)
        ensures entries { AreApart L.same self.now.history }
        ensures values { OneValue self.now.history }
        ensures numbers { AreNumbers self.now.history }
    {
        one_value(&self.cursor.entries);
    }
}

impl<'a, V, L: SetLaw<V>, A: Low + Copy> Handle<'a, V, L, A> {
    /// States that no two entries known to this handle are the same or have one number, and that the numbers are below 2^32 - 2. Nothing
    /// happens.
    pub fn apart(&self)
        ensures entries { AreApart L.same self.now.history }
        ensures values { OneValue self.now.history }
        ensures numbers { AreNumbers self.now.history }
    {
        self.tell().apart();
    }
}
