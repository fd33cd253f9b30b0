//! Laws: the equality and the hash under which a table is used.
ghost use Rattle.std.specs.Prelude.{◌≡◌, ℕ, Bool, true};
ghost use Rattle.table_terms.specs.Laws.{IsLaw, number_hash};

use std::num::{NonZeroU32, NonZeroU64};

/// A law: an equality of targets, `same`, and a hash of targets, `hash_of`, that agrees with it. Only contracts use it; it has no
/// code.
///
/// An implementor promises that `same` is an equivalence, and that equal targets have the same hash, below 2^64.
pub trait Law<V> {
    ghost same: { V → V → Bool };

    ghost hash_of: { V → ℕ };

    ghost lawful: { IsLaw same hash_of };
}

/// A law with code: an equality of targets and a hash that agrees with it. The code is proved to compute what [`Law`] names.
pub trait SetLaw<V>: Law<V> {
    /// Returns whether two targets are equal.
    fn is_same(one: &V, other: &V) -> bool
        ensures { result ≡ Self.same one.now other.now };

    /// Returns the hash of a target. It should vary in all its 64 bits.
    fn hash(target: &V) -> u64
        ensures { result ≡ Self.hash_of target.now };
}

/// A law by which targets are also looked up with keys of another type, such as a `String` with a `&str`.
///
/// An implementor promises that a target that matches a key has the key's hash.
pub trait KeyLaw<K, V>: SetLaw<V> {
    ghost meets: { K → V → Bool };

    ghost key_hash: { K → ℕ };

    /// Returns whether the target matches the key.
    fn is_met(key: &K, target: &V) -> bool
        ensures { result ≡ meets key.now target.now };

    /// Returns the hash of a key, which is the hash of each target that matches it.
    fn hash_key(key: &K) -> u64
        ensures { result ≡ key_hash key.now };

    ghost agrees: { (k : K) (v : V) → meets k v ≡ true → Self.hash_of v ≡ key_hash k };
}

/// The odd number by which hashes multiply. Its digits are those of pi.
pub const MIXING_FACTOR: u64 = 0xC0AC_29B7_C97C_50DD;

/// Returns the hash of a number under `NumberLaw`. It spreads consecutive numbers, and multiples of a power of two, over all 64
/// bits.
pub fn hash_number(number: u64) -> u64
    ensures { result ≡ number_hash number }
{
    let product = (number ^ MIXING_FACTOR) as u128 * MIXING_FACTOR as u128;
    let lower = product & u64::MAX as u128;
    lower as u64 ^ (product >> 64) as u64
}

/// The law of numbers and characters: each is equal only to itself, and its hash is that of `hash_number`.
pub struct NumberLaw;

impl Law<u16> for NumberLaw {
    ghost use Rattle.table_terms.specs.Laws.{same_by_number, hash_by_number, number_lawful};

    ghost same = { same_by_number (λ n. n) };

    ghost hash_of = { hash_by_number (λ n. n) };

    ghost lawful = { number_lawful (λ n. n) };
}

impl Law<u32> for NumberLaw {
    ghost use Rattle.table_terms.specs.Laws.{same_by_number, hash_by_number, number_lawful};

    ghost same = { same_by_number (λ n. n) };

    ghost hash_of = { hash_by_number (λ n. n) };

    ghost lawful = { number_lawful (λ n. n) };
}

impl Law<u64> for NumberLaw {
    ghost use Rattle.table_terms.specs.Laws.{same_by_number, hash_by_number, number_lawful};

    ghost same = { same_by_number (λ n. n) };

    ghost hash_of = { hash_by_number (λ n. n) };

    ghost lawful = { number_lawful (λ n. n) };
}

impl Law<char> for NumberLaw {
    ghost use Rattle.table_terms.specs.Laws.{same_by_number, hash_by_number, number_lawful};

    ghost same = { same_by_number (λ n. n) };

    ghost hash_of = { hash_by_number (λ n. n) };

    ghost lawful = { number_lawful (λ n. n) };
}

impl Law<NonZeroU32> for NumberLaw {
    ghost use Rattle.std.specs.Int.NonZero.{non_zero_u32_get};
    ghost use Rattle.table_terms.specs.Laws.{same_by_number, hash_by_number, number_lawful};

    ghost same = { same_by_number non_zero_u32_get };

    ghost hash_of = { hash_by_number non_zero_u32_get };

    ghost lawful = { number_lawful non_zero_u32_get };
}

impl Law<NonZeroU64> for NumberLaw {
    ghost use Rattle.std.specs.Int.NonZero.{non_zero_u64_get};
    ghost use Rattle.table_terms.specs.Laws.{same_by_number, hash_by_number, number_lawful};

    ghost same = { same_by_number non_zero_u64_get };

    ghost hash_of = { hash_by_number non_zero_u64_get };

    ghost lawful = { number_lawful non_zero_u64_get };
}

/// The law of pairs whose hash is their first part. Two pairs are equal if both parts are.
pub struct PairLaw;

impl Law<(u64, u64)> for PairLaw {
    ghost use Rattle.table_terms.specs.Laws.{same_pair, pair_hash, pair_lawful};

    ghost same = { same_pair };

    ghost hash_of = { pair_hash };

    ghost lawful = { pair_lawful };
}
