//! An interner of one owner becomes one that threads share.
ghost use Rattle.std.specs.Prelude.{◌≡◌, ◌+◌, ℕ, List, IfOk, OnOk};
ghost use Rattle.interner.specs.Texts.{HasNumber};
ghost use Rattle.shared_set.specs.Known.{KnowsMore};
ghost use Rattle.shared_interner.specs.Symbols.{number_of};
ghost use Rattle.shared_interner.specs.Naming.{IsNamed};
ghost use Rattle.shared_interner.specs.Sharing.{KeepsNumbers, Shares};

use crate::interning::SharedInterner;
use crate::names::{KnownNames, Names};
use crate::symbol::Symbol;
use interner::{Interner, TextHash};
use std::alloc::{AllocError, Allocator, Global};
use table_cell::Low;

/// An interner that threads share, and what is known of it.
#[derive(Drop)]
pub struct Shared<A: Low + Copy = Global> {
    pub interner: SharedInterner<A>,
    /// What each new handle of the interner knows: the texts.
    pub known: KnownNames<A>,
}

impl<'a, A: Low + Copy> Names<'a, A> {
    /// Interns the text, which is to have this symbol. `Err`: memory was refused, or it has another one.
    fn intern_as(&mut self, text: &str, symbol: Symbol) -> Result<(), AllocError>
        ensures known { KnowsMore self.old self.new }
        ensures named { OnOk result (IsNamed self.new.history symbol text.now) }
    {
        let Ok(given) = self.intern(text) else {
            return Err(AllocError);
        };
        if given == symbol {
            Ok(())
        } else {
            Err(AllocError)
        }
    }

    /// Interns the text that has the symbol as its number, if there is one.
    fn take_over<B: Allocator + Copy, H: TextHash>(
        &mut self,
        texts: &Interner<B, H>,
        symbol: Symbol,
    ) -> Result<(), AllocError>
        ensures known { KnowsMore self.old self.new }
        ensures named { OnOk result ((text : List ℕ) → HasNumber texts.now text (number_of symbol + 1)
            → IsNamed self.new.history symbol text) }
    {
        match texts.text_alone(symbol.to_non_zero()) {
            Some(text) => self.intern_as(text, symbol),
            None => Ok(()),
        }
    }

    /// Interns the texts in the order of their numbers. `Err`: memory was refused, or a text has another symbol.
    fn take_all<B: Allocator + Copy, H: TextHash>(
        &mut self,
        texts: &Interner<B, H>,
    ) -> Result<(), AllocError>
        ensures known { KnowsMore self.old self.new }
        ensures numbers { OnOk result (KeepsNumbers texts.now self.new.history) }
    {
        for index in 0..texts.len_alone() {
            let Some(symbol) = Symbol::from_u32(index as u32 + 1) else {
                return Err(AllocError);
            };
            self.take_over(texts, symbol)?;
        }
        Ok(())
    }
}

impl<A: Low + Copy> SharedInterner<A> {
    /// Copies the texts of an interner of one owner, which stays as it is. Each symbol's `to_u32` is the number of its text. Returns the new
    /// interner, and each text as known. Each new handle knows them. `Err`: memory was refused, or there are more than 2^31 texts.
    pub fn copy_of<B: Allocator + Copy, H: TextHash>(
        alloc: A,
        texts: &Interner<B, H>,
    ) -> Result<Shared<A>, AllocError>
        ensures shares { IfOk result (Shares texts.now) }
    {
        let Ok(mut interner) = SharedInterner::with_capacity(alloc, texts.len_alone()) else {
            return Err(AllocError);
        };
        let mut names = interner.names();
        let taken = names.take_all(texts);
        let known = names.tell();
        drop(names);
        match taken {
            Ok(()) => {
                interner.begin_with(known.again());
                Ok(Shared { interner, known })
            }
            Err(_) => Err(AllocError),
        }
    }
}
