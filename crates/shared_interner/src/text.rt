//! Texts as an interner keeps them.
ghost use Rattle.std.specs.Prelude.{◌≡◌, IfOk};

use crate::short::ShortText;
use std::alloc::{AllocError, Allocator, Global};
use std::marker::Model;
use table_held::Law;
use table_sets::texts::{hash_bytes, hash_text};
use table_sets::{KeyLaw, SetLaw, TextLaw};

/// Where the bytes of a text lie: in the value itself if they are few, and else in a block.
#[derive(Drop)]
enum Kept<A: Allocator> {
    Short(ShortText),
    Long(Box<String<A>, A>),
}

/// A text that an interner keeps. It has 24 bytes, and at most 22 bytes of text lie there.
///
/// A contract sees the bytes of the text.
#[derive(Drop)]
pub struct Text<A: Allocator = Global> {
    kept: Kept<A>,
}

impl<A: Allocator> Model for Text<A> {
    ghost use Rattle.std.specs.Prelude.{ℕ, List};
    ghost use Rattle.shared_interner.specs.Texts.{bytes_of};

    ghost Value = { List ℕ };

    ghost view = { λ t. bytes_of t.kept };
}

impl<A: Allocator> Text<A> {
    /// Copies the text. `Err`: memory was refused.
    pub(crate) fn new(alloc: A, text: &str) -> Result<Self, AllocError>
    where
        A: Copy,
        ensures { IfOk result (λ t. t ≡ text.now) }
    {
        if let Some(short) = ShortText::new(text) {
            return Ok(Text {
                kept: Kept::Short(short),
            });
        }
        let Ok(copy) = String::from_str(alloc, text) else {
            return Err(AllocError);
        };
        match Box::new(alloc, copy) {
            Ok(long) => Ok(Text {
                kept: Kept::Long(long),
            }),
            Err(_) => Err(AllocError),
        }
    }

    /// Returns the bytes of the text.
    pub(crate) fn as_bytes(&self) -> &[u8]
        ensures { result.now ≡ self.now }
    {
        match &self.kept {
            Kept::Short(short) => short.as_bytes(),
            Kept::Long(long) => long.as_ref().as_bytes(),
        }
    }

    /// Returns the text.
    pub fn as_str(&self) -> &str
        ensures { result.now ≡ self.now }
    {
        match &self.kept {
            Kept::Short(short) => short.as_str(),
            Kept::Long(long) => long.as_ref().as_str(),
        }
    }
}

impl<A: Allocator> Law<Text<A>> for TextLaw {
    ghost use Rattle.table_sets.specs.Texts.{same_by_text, hash_by_text, text_lawful};

    ghost same = { same_by_text (λ t. t) };

    ghost hash_of = { hash_by_text (λ t. t) };

    ghost lawful = { text_lawful (λ t. t) };
}

impl<A: Allocator> SetLaw<Text<A>> for TextLaw {
    fn is_same(one: &Text<A>, other: &Text<A>) -> bool {
        one.as_bytes() == other.as_bytes()
    }

    fn hash(target: &Text<A>) -> u64 {
        hash_bytes(target.as_bytes())
    }
}

impl<'a, A: Allocator> KeyLaw<&'a str, Text<A>> for TextLaw {
    ghost use Rattle.table_sets.specs.Texts.{meets_text, text_hash, meeting_agrees};

    ghost meets = { λ key text. meets_text key.now text };

    ghost key_hash = { λ key. text_hash key.now };

    fn is_met(key: &&'a str, target: &Text<A>) -> bool {
        target.as_bytes() == key.as_bytes()
    }

    fn hash_key(key: &&'a str) -> u64 {
        hash_text(*key)
    }

    ghost agrees = { λ key text is. meeting_agrees key.now text is };
}
