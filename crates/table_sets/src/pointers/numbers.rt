//! Numbers that aren't 0, as values of sets: such a number is its own target.

use crate::pointers::OfTarget;
use std::num::{NonZeroU32, NonZeroU64};
use table_terms::law::{Law, SetLaw};

impl<L: Law<NonZeroU64>> Law<NonZeroU64> for OfTarget<L> {
    ghost same = { L.same };

    ghost hash_of = { L.hash_of };

    ghost lawful = { L.lawful };
}

impl<L: SetLaw<NonZeroU64>> SetLaw<NonZeroU64> for OfTarget<L> {
    fn is_same(one: &NonZeroU64, other: &NonZeroU64) -> bool {
        L::is_same(one, other)
    }

    fn hash(target: &NonZeroU64) -> u64 {
        L::hash(target)
    }
}

impl<L: Law<NonZeroU32>> Law<NonZeroU32> for OfTarget<L> {
    ghost same = { L.same };

    ghost hash_of = { L.hash_of };

    ghost lawful = { L.lawful };
}

impl<L: SetLaw<NonZeroU32>> SetLaw<NonZeroU32> for OfTarget<L> {
    fn is_same(one: &NonZeroU32, other: &NonZeroU32) -> bool {
        L::is_same(one, other)
    }

    fn hash(target: &NonZeroU32) -> u64 {
        L::hash(target)
    }
}
