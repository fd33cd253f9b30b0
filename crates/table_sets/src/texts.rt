//! Texts as targets of sets, compared by their bytes.
ghost use Rattle.std.specs.Prelude.{◌≡◌};
ghost use Rattle.table_sets.specs.Texts.{text_hash};

use std::alloc::Allocator;
use table_held::Law;
use table_terms::law::{KeyLaw, MIXING_FACTOR, SetLaw, hash_number};

/// The law of texts: two texts are equal if their bytes are. A `String` can also be looked up with a `&str`.
pub struct TextLaw;

/// Returns the hash of a text, by its bytes. It depends on each byte and its position, and spreads texts over all 64 bits.
pub fn hash_bytes(bytes: &[u8]) -> u64
    ensures { result ≡ text_hash bytes.now }
{
    let mut number = 0u64;
    for byte in bytes {
        number = number
            .wrapping_add(u64::from(*byte) + 1)
            .wrapping_mul(MIXING_FACTOR);
    }
    hash_number(number)
}

/// Returns the hash of a text, which is that of its bytes.
pub fn hash_text(text: &str) -> u64
    ensures { result ≡ text_hash text.now }
{
    hash_bytes(text.as_bytes())
}

impl<A: Allocator> Law<String<A>> for TextLaw {
    ghost use Rattle.std.specs.Prelude.{string_bytes};
    ghost use Rattle.table_sets.specs.Texts.{same_by_text, hash_by_text, text_lawful};

    ghost same = { same_by_text string_bytes };

    ghost hash_of = { hash_by_text string_bytes };

    ghost lawful = { text_lawful string_bytes };
}

impl<A: Allocator> SetLaw<String<A>> for TextLaw {
    fn is_same(one: &String<A>, other: &String<A>) -> bool {
        one.as_str() == other.as_str()
    }

    fn hash(target: &String<A>) -> u64 {
        hash_text(target.as_str())
    }
}

impl<'a, A: Allocator> KeyLaw<&'a str, String<A>> for TextLaw {
    ghost use Rattle.std.specs.Prelude.{string_bytes};
    ghost use Rattle.table_sets.specs.Texts.{meets_text, text_hash, meeting_agrees};

    ghost meets = { λ key text. meets_text key.now (string_bytes text) };

    ghost key_hash = { λ key. text_hash key.now };

    fn is_met(key: &&'a str, target: &String<A>) -> bool {
        target.as_str() == *key
    }

    fn hash_key(key: &&'a str) -> u64 {
        hash_text(*key)
    }

    ghost agrees = { λ key text is. meeting_agrees key.now (string_bytes text) is };
}
