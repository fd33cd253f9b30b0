//! The interner, and what any thread may call on it.
ghost use Rattle.std.specs.Prelude.{◌≡◌, [], ◌*◌, ◌≤◌, max, IfOk, OnErr};
ghost use Rattle.table_numbered.specs.History.{size_of};
ghost use Rattle.shared_set.specs.Known.{IsEmpty, Keeps, Later};
ghost use Rattle.shared_interner.specs.Naming.{IsSymbolOf, IsUnknown, FindsSymbol, FindsText};

use crate::names::{KnownNames, Names};
use crate::symbol::Symbol;
use crate::text::Text;
use shared_set::SharedSet;
use std::alloc::{AllocError, Global};
use std::marker::Model;
use table_cell::Low;
use table_sets::TextLaw;

/// A symbol table that threads share through `&`, and that grows. Equal texts have one symbol, and a symbol gives its text back. No text is
/// removed or moved.
///
/// A contract sees which interner it is, what it began with, and what each new handle knows. Which texts it has is what its handles know.
#[derive(Drop)]
pub struct SharedInterner<A: Low + Copy = Global> {
    pub(crate) set: SharedSet<Text<A>, TextLaw, A>,
    pub(crate) alloc: A,
}

impl<A: Low + Copy> Model for SharedInterner<A> {
    ghost use Rattle.std.specs.Prelude.{ℕ, List};
    ghost use Rattle.shared_set.specs.Known.{SharedSetView};

    ghost Value = { SharedSetView (List ℕ) };

    ghost view = { λ s. s.set };
}

impl<A: Low + Copy> SharedInterner<A> {
    /// Makes an empty interner of 16 buckets. A refused request leaves nothing.
    pub fn new(alloc: A) -> Result<Self, AllocError>
        ensures empty { IfOk result (λ s. IsEmpty s.start) }
        ensures none { IfOk result (λ s. s.known ≡ []) }
        ensures size { IfOk result (λ s. size_of s.start ≡ 16) }
    {
        match SharedSet::new(alloc) {
            Ok(set) => Ok(SharedInterner { set, alloc }),
            Err(_) => Err(AllocError),
        }
    }

    /// Makes an empty interner for this many texts: it has twice as many buckets, rounded up to a power of two, and 16 at least. `Err`: memory
    /// was refused, or `texts` is above 2^31. It leaves nothing.
    pub fn with_capacity(alloc: A, texts: usize) -> Result<Self, AllocError>
        ensures empty { IfOk result (λ s. IsEmpty s.start) }
        ensures none { IfOk result (λ s. s.known ≡ []) }
        ensures room { IfOk result (λ s. texts * 2 ≤ size_of s.start) }
        ensures few { IfOk result (λ s. size_of s.start ≤ max 16 (texts * 4)) }
    {
        match SharedSet::with_capacity(alloc, texts) {
            Ok(set) => Ok(SharedInterner { set, alloc }),
            Err(_) => Err(AllocError),
        }
    }

    /// Makes each new handle know what `known` has, in place of what an earlier call gave. The owner of the interner calls it, before threads
    /// share it. A new handle then takes one load for each growth since `known` was told.
    pub fn begin_with(&mut self, known: KnownNames<A>)
        requires of { known.of ≡ self.old.of }
        ensures of { self.new.of ≡ self.old.of }
        ensures start { self.new.start ≡ self.old.start }
        ensures known { self.new.known ≡ known.history }
    {
        self.set.begin_with(known);
    }

    /// Returns a handle, by which one thread calls the interner. It knows each text that `begin_with` was last given.
    pub fn names(&self) -> Names<'_, A>
        ensures of { result.of ≡ self.now.of }
        ensures keeps { Keeps self.now.known result.history }
    {
        Names {
            handle: self.set.handle(),
            alloc: self.alloc,
        }
    }

    /// Returns the symbol of the text. A new text gets a symbol that no other text has. A text that is there needs no memory.
    ///
    /// `Err`: memory was refused, or no symbol is left. Then `begin_with` was not given the text.
    pub fn intern(&self, text: &str) -> Result<Symbol, AllocError>
        ensures named { Later self.now.known (λ known. IfOk result (IsSymbolOf known text.now)) }
        ensures refused { Later self.now.known (λ known. OnErr result (IsUnknown known text.now)) }
    {
        let mut names = self.names();
        names.intern(text)
    }

    /// Returns the symbol of the text, as a new handle does. `None` means that `begin_with` was not given the text.
    pub fn get(&self, text: &str) -> Option<Symbol>
        ensures finds { Later self.now.known (λ known. FindsSymbol known text.now result) }
    {
        let mut names = self.names();
        names.get(text)
    }

    /// Returns the text of the symbol, as a new handle does. `None` means that no text that `begin_with` was given has it.
    pub fn text(&self, symbol: Symbol) -> Option<&str>
        ensures finds { Later self.now.known (λ known. FindsText known symbol result) }
    {
        let mut names = self.names();
        names.text(symbol)
    }

    /// Returns the number of texts, as far as handles have counted them (see `SharedSet::len`).
    pub fn len(&self) -> u64 {
        self.set.len()
    }

    /// Returns true if no text was counted, as `len` counts them.
    pub fn is_empty(&self) -> bool {
        self.set.is_empty()
    }
}
