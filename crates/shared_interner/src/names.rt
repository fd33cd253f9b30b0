//! Handles, by which threads call an interner.
ghost use Rattle.std.specs.Prelude.{◌≡◌, IfOk, OnErr};
ghost use Rattle.table_numbered.specs.Walking.{IsTaken};
ghost use Rattle.shared_set.specs.Known.{KnowsMore, Keeps};
ghost use Rattle.shared_interner.specs.Naming.{IsSymbolOf, IsSymbol, IsUnknown, FindsSymbol, FindsText, HasSymbol};

use crate::symbol::Symbol;
use crate::text::Text;
use shared_set::{Handle, Inserted, Known, MetBy};
use std::alloc::{AllocError, Global};
use std::marker::Model;
use table_cell::Low;
use table_sets::TextLaw;

/// What one thread calls a `SharedInterner` by. It knows the texts that its calls have met, and their symbols.
///
/// A contract sees which interner it is of, and what it knows.
#[derive(Drop)]
pub struct Names<'a, A: Low + Copy = Global> {
    pub(crate) handle: Handle<'a, Text<A>, TextLaw, A>,
    pub(crate) alloc: A,
}

impl<'a, A: Low + Copy> Model for Names<'a, A> {
    ghost use Rattle.std.specs.Prelude.{ℕ, List};
    ghost use Rattle.shared_set.specs.Known.{KnownView};

    ghost Value = { KnownView (List ℕ) };

    ghost view = { λ n. n.handle };
}

/// What a handle of an interner knew when it was asked. It owns nothing of the interner, and can be sent to another thread.
pub type KnownNames<A = Global> = Known<Text<A>, TextLaw, A>;

impl<'a, A: Low + Copy> Names<'a, A> {
    /// Returns the symbol of the entry with this number.
    fn symbol(&self, number: u64) -> Symbol
        requires known { IsTaken self.now.history number }
        ensures { HasSymbol self.now.history number result }
    {
        self.handle.apart();
        Symbol::of_number(number)
    }

    /// Returns the symbol of the text. `None` means that no text known to this handle is this one.
    pub fn get(&mut self, text: &str) -> Option<Symbol>
        ensures known { KnowsMore self.old self.new }
        ensures finds { FindsSymbol self.new.history text.now result }
    {
        match self.handle.seek(&MetBy { key: &text }) {
            Some((number, _)) => Some(self.symbol(number)),
            None => None,
        }
    }

    /// Copies the text, which this handle doesn't know, and inserts the copy unless an entry is the same.
    fn insert(&mut self, text: &str) -> Result<Symbol, AllocError>
        requires unknown { IsUnknown self.old.history text.now }
        ensures known { KnowsMore self.old self.new }
        ensures named { IfOk result (IsSymbolOf self.new.history text.now) }
        ensures refused { OnErr result (IsUnknown self.new.history text.now) }
    {
        let Ok(copy) = Text::new(self.alloc, text) else {
            return Err(AllocError);
        };
        match self.handle.insert(copy) {
            Inserted::Placed(number, _, _) => Ok(self.symbol(number)),
            Inserted::Found(number, _, _) => Ok(self.symbol(number)),
            Inserted::Refused(_) => Err(AllocError),
        }
    }

    /// Returns the symbol of the text. A new text gets one that no other text has. A text that is there needs no memory.
    ///
    /// `Err`: memory was refused, or no symbol is left. Then this handle doesn't know the text.
    pub fn intern(&mut self, text: &str) -> Result<Symbol, AllocError>
        ensures known { KnowsMore self.old self.new }
        ensures named { IfOk result (IsSymbolOf self.new.history text.now) }
        ensures refused { OnErr result (IsUnknown self.new.history text.now) }
    {
        match self.get(text) {
            Some(symbol) => Ok(symbol),
            None => self.insert(text),
        }
    }

    /// Returns the text of the symbol. `None` means that no text known to this handle has it.
    pub fn text(&mut self, symbol: Symbol) -> Option<&'a str>
        ensures known { KnowsMore self.old self.new }
        ensures finds { FindsText self.new.history symbol result }
    {
        match self.handle.entry(symbol.number()) {
            Some(text) => {
                self.apart();
                Some(text.as_str())
            }
            None => None,
        }
    }

    /// Returns the text of a symbol that this handle knows. It reads that text, and nothing else.
    pub fn known_text(&self, symbol: Symbol) -> &'a str
        requires known { IsSymbol self.now.history symbol }
        ensures { IsSymbolOf self.now.history result.now symbol }
    {
        self.apart();
        self.handle.known_entry(symbol.number()).as_str()
    }

    /// Returns what this handle knows.
    pub fn tell(&self) -> KnownNames<A>
        ensures { result ≡ self.now }
    {
        self.handle.tell()
    }

    /// Adds what is known to what this handle knows.
    pub fn hear(&mut self, known: &KnownNames<A>)
        requires of { known.now.of ≡ self.old.of }
        ensures known { KnowsMore self.old self.new }
        ensures theirs { Keeps known.now.history self.new.history }
    {
        self.handle.hear(known);
    }
}
