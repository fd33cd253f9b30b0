//! The hashes of texts.
ghost use Rattle.std.specs.Prelude.{◌≡◌, ◌<◌, ◌^◌, ℕ, List};
ghost use Rattle.interner.specs.Hashes.{text_hash, text_hash_small, mixed_bytes, mixed_hash, mixed_hash_small};

/// A hash of texts: a function of their bytes, so equal texts have one hash.
pub trait TextHash {
    ghost hash_of: { List ℕ → ℕ };

    ghost small: { (text : List ℕ) → hash_of text < 2 ^ 64 };

    /// Returns the hash of a text, given as its bytes.
    fn hash(text: &[u8]) -> u64
        ensures { result ≡ hash_of text.now };
}

/// The polynomial hash with factor 31: starts at 0, and for each byte multiplies by 31 and adds the byte, modulo 2^64. Short texts
/// have small hashes, so that more texts are compared byte by byte. Somebody who chooses the texts can choose many with one hash.
#[derive(Clone, Copy)]
pub struct Times31;

impl TextHash for Times31 {
    ghost hash_of = { text_hash };

    ghost small = { text_hash_small };

    fn hash(text: &[u8]) -> u64 {
        let mut hash = 0u64;
        for byte in text {
            hash = hash.wrapping_mul(31).wrapping_add(u64::from(*byte));
        }
        hash
    }
}

/// A hash that spreads texts over all 64 bits. It has no secret: somebody who chooses the texts can still compute texts with one hash.
#[derive(Clone, Copy)]
pub struct Mixed;

impl TextHash for Mixed {
    ghost hash_of = { mixed_hash };

    ghost small = { mixed_hash_small };

    fn hash(text: &[u8]) -> u64 {
        let mixed = mix_bytes(text);
        mixed
            .wrapping_add(mixed >> 32)
            .wrapping_mul(0xD6E8_FEB8_6659_FD93)
    }
}

/// Mixes the bytes, in order, into the upper bits: starts at 1, and for each byte adds it and multiplies by an odd number, modulo
/// 2^64.
fn mix_bytes(text: &[u8]) -> u64
    ensures { result ≡ mixed_bytes text.now }
{
    let mut mixed = 1u64;
    for byte in text {
        mixed = mixed
            .wrapping_add(u64::from(*byte))
            .wrapping_mul(0x9E37_79B9_7F4A_7C15);
    }
    mixed
}
