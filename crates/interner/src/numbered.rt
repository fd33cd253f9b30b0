//! The entry of a text in the interner's table.
ghost use Rattle.std.specs.Prelude.{◌≡◌};

use crate::hash::TextHash;
use std::convert::AsStr;
use std::marker::PhantomData;
use std::num::NonZeroU32;
use std::snapshot::Snapshot;
use table_held::Law;

/// The number of a text. In memory it is only the number. The text is known to contracts; the code finds it in the interner's
/// vector, by the number.
#[derive(Drop)]
pub struct Numbered<S> {
    pub number: NonZeroU32,
    pub text: Snapshot<S>,
}

/// The equality and hash of numbered texts: two are equal if their texts are, and the hash is that of the text.
pub struct TextLaw<H> {
    _hash: PhantomData<H>,
}

impl<S: AsStr, H: TextHash> Law<Numbered<S>> for TextLaw<H> {
    ghost use Rattle.interner.specs.Texts.{same_by_text, hash_by_text, text_lawful};

    ghost same = { same_by_text (λ n. S.text n.text.value) };

    ghost hash_of = { hash_by_text (λ n. S.text n.text.value) H.hash_of };

    ghost lawful = { text_lawful (λ n. S.text n.text.value) H.hash_of H.small };
}
