//! What is true of all texts that a handle knows.
ghost use Rattle.shared_interner.specs.Naming.{OneSymbol, OneText};

use crate::names::Names;
use table_cell::Low;

impl<'a, A: Low + Copy> Names<'a, A> {
    /// States that no two symbols known to this handle have one text, and that no two texts have one symbol. Nothing happens.
    pub fn apart(&self)
        ensures one_symbol { OneSymbol self.now.history }
        ensures one_text { OneText self.now.history }
    {
        self.handle.apart();
    }
}
