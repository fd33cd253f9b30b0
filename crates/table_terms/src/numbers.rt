//! Integers and characters as targets of sets: a number is equal only to itself, and it is the key of itself.
ghost use Rattle.std.proofs.Common.{sym};

use crate::law::{KeyLaw, Law, NumberLaw, SetLaw, hash_number};
use std::num::{NonZeroU32, NonZeroU64};

impl SetLaw<u16> for NumberLaw {
    fn is_same(one: &u16, other: &u16) -> bool {
        *one == *other
    }

    fn hash(target: &u16) -> u64 {
        hash_number(u64::from(*target))
    }
}

impl SetLaw<u32> for NumberLaw {
    fn is_same(one: &u32, other: &u32) -> bool {
        *one == *other
    }

    fn hash(target: &u32) -> u64 {
        hash_number(u64::from(*target))
    }
}

impl SetLaw<u64> for NumberLaw {
    fn is_same(one: &u64, other: &u64) -> bool {
        *one == *other
    }

    fn hash(target: &u64) -> u64 {
        hash_number(*target)
    }
}

impl SetLaw<char> for NumberLaw {
    fn is_same(one: &char, other: &char) -> bool {
        *one == *other
    }

    fn hash(target: &char) -> u64 {
        hash_number(u64::from(*target))
    }
}

impl SetLaw<NonZeroU32> for NumberLaw {
    fn is_same(one: &NonZeroU32, other: &NonZeroU32) -> bool {
        one.get() == other.get()
    }

    fn hash(target: &NonZeroU32) -> u64 {
        hash_number(u64::from(target.get()))
    }
}

impl SetLaw<NonZeroU64> for NumberLaw {
    fn is_same(one: &NonZeroU64, other: &NonZeroU64) -> bool {
        one.get() == other.get()
    }

    fn hash(target: &NonZeroU64) -> u64 {
        hash_number(target.get())
    }
}

impl<N> KeyLaw<N, N> for NumberLaw
where
    NumberLaw: SetLaw<N>,
{
    ghost meets = { ⟦<NumberLaw as Law<N>>⟧.same };

    ghost key_hash = { ⟦<NumberLaw as Law<N>>⟧.hash_of };

    fn is_met(key: &N, target: &N) -> bool {
        <NumberLaw as SetLaw<N>>::is_same(key, target)
    }

    fn hash_key(key: &N) -> u64 {
        <NumberLaw as SetLaw<N>>::hash(key)
    }

    ghost agrees = { λ key number is. sym (⟦<NumberLaw as Law<N>>⟧.lawful.agrees key number is) };
}
