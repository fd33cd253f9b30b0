//! The interner that stores its own texts.
ghost use Rattle.std.specs.Prelude.{◌≡◌, ◌-◌, ◌≤◌, [], length, option_copied, slice_get};
ghost use Rattle.std.specs.Int.NonZero.{non_zero_u32_get};
ghost use Rattle.interner.specs.Texts.{greatest_number, AllDifferent, FindsNumber};
ghost use Rattle.interner.specs.Interns.{Interns, InternsUpTo};

use crate::hash::{TextHash, Times31};
use crate::interner_of::InternerOf;
use crate::refused::Refused;
use std::alloc::{Allocator, Global};
use std::marker::Model;
use std::num::NonZeroU32;

/// A single-owner interner that stores its texts. Different texts are numbered from 1 on, in the order of first appearance. `H`
/// hashes the texts: choose `Mixed` if others choose the texts. Each text has two heap blocks, one for its bytes and one for its
/// number in the table.
///
/// A contract sees the list of the texts, each as its bytes.
#[derive(Drop)]
pub struct Interner<A: Allocator + Copy = Global, H: TextHash = Times31> {
    texts: InternerOf<String<A>, H, A>,
    alloc: A,
}

impl<A: Allocator + Copy, H: TextHash> Model for Interner<A, H> {
    ghost use Rattle.std.specs.Prelude.{ℕ, List};

    ghost Value = { List (List ℕ) };

    ghost view = { λ t. t.texts };
}

impl<A: Allocator + Copy> Interner<A> {
    /// Makes an empty interner, which hashes texts by `Times31`. Does not allocate.
    pub fn new(alloc: A) -> Self
        ensures { result ≡ [] }
    {
        Interner::with_hash(alloc)
    }
}

impl<A: Allocator + Copy, H: TextHash> Interner<A, H> {
    /// Makes an empty interner, which hashes texts by `H`. Does not allocate.
    pub fn with_hash(alloc: A) -> Self
        ensures { result ≡ [] }
    {
        Interner {
            texts: InternerOf::new(alloc, alloc),
            alloc,
        }
    }

    /// Returns the number of the text. A new text gets the next number; a known text is never refused and needs no memory.
    ///
    /// - `Refused::Numbers`: the text is new, and all 2^32 - 1 numbers are taken. Nothing was allocated.
    /// - `Refused::NoMemory`: the text is new, and memory was refused.
    ///
    /// A refused call leaves the texts and their numbers unchanged.
    pub fn intern_alone(&mut self, text: &str) -> Result<NonZeroU32, Refused>
        ensures interns { Interns self.old text.now result self.new }
        ensures different { AllDifferent self.new }
    {
        self.intern_up_to(text, u32::MAX)
    }

    /// Returns the number of the text as `intern_alone` does, but gives no number above `greatest` to a new text.
    ///
    /// - `Refused::Numbers`: the text is new, and `greatest` or more numbers are taken. Nothing was allocated.
    /// - `Refused::NoMemory`: the text is new, and memory was refused.
    ///
    /// A refused call leaves the texts and their numbers unchanged.
    pub fn intern_up_to(&mut self, text: &str, greatest: u32) -> Result<NonZeroU32, Refused>
        ensures interns { InternsUpTo greatest self.old text.now result self.new }
        ensures different { AllDifferent self.new }
    {
        let hash = H::hash(text.as_bytes());
        if let Some(number) = self.texts.number_by_hash(hash, text) {
            return Ok(number);
        }
        let number = self.texts.next_number(greatest)?;
        if self.texts.reserve_one().is_err() {
            return Err(Refused::NoMemory);
        }
        let Ok(kept) = String::from_str(self.alloc, text) else {
            return Err(Refused::NoMemory);
        };
        match self.texts.add(hash, kept, number) {
            Ok(()) => Ok(number),
            Err(_) => Err(Refused::NoMemory),
        }
    }

    /// Returns the number of the text, or `None` if it has none. Does not allocate and does not change the interner.
    pub fn number_alone(&self, text: &str) -> Option<NonZeroU32>
        ensures finds { FindsNumber self.now text.now result }
        ensures different { AllDifferent self.now }
    {
        self.texts.number_alone(text)
    }

    /// Returns the text of the number, or `None` if no text has it. Does not allocate and does not change the interner.
    pub fn text_alone(&self, number: NonZeroU32) -> Option<&str>
        ensures { option_copied result ≡ slice_get self.now (non_zero_u32_get number - 1) }
    {
        self.texts.text_alone(number)
    }

    /// Returns the number of texts.
    pub fn len_alone(&self) -> usize
        ensures length { result ≡ length self.now }
        ensures few { result ≤ greatest_number }
        ensures different { AllDifferent self.now }
    {
        self.texts.len_alone()
    }
}
