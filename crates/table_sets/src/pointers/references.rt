//! References as targets of sets.

use crate::pointers::OfTarget;
use table_terms::law::{KeyLaw, Law, SetLaw};

impl<'a, N, L: Law<N>> Law<&'a N> for OfTarget<L> {
    ghost use Rattle.table_terms.specs.Laws.{same_by, hash_by, lawful_by};

    ghost same = { same_by L.same (λ p. p.now) };

    ghost hash_of = { hash_by L.hash_of (λ p. p.now) };

    ghost lawful = { lawful_by L.lawful (λ p. p.now) };
}

impl<'a, N, L: SetLaw<N>> SetLaw<&'a N> for OfTarget<L> {
    fn is_same(one: &&'a N, other: &&'a N) -> bool {
        L::is_same(*one, *other)
    }

    fn hash(target: &&'a N) -> u64 {
        L::hash(*target)
    }
}

impl<'a, K, N, L: KeyLaw<K, N>> KeyLaw<K, &'a N> for OfTarget<L> {
    ghost meets = { λ key p. L.meets key p.now };

    ghost key_hash = { L.key_hash };

    fn is_met(key: &K, target: &&'a N) -> bool {
        L::is_met(key, *target)
    }

    fn hash_key(key: &K) -> u64 {
        <L as KeyLaw<K, N>>::hash_key(key)
    }

    ghost agrees = { λ key p is. L.agrees key p.now is };
}
