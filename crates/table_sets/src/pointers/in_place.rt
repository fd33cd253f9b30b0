//! Values that lie in a table's own memory, as values of sets.

use crate::pointers::OfTarget;
use table_held::InPlace;
use table_terms::law::{KeyLaw, Law, SetLaw};

impl<N, L: Law<N>> Law<InPlace<N>> for OfTarget<L> {
    ghost use Rattle.table_terms.specs.Laws.{same_by, hash_by, lawful_by};

    ghost same = { same_by L.same (λ p. p.0) };

    ghost hash_of = { hash_by L.hash_of (λ p. p.0) };

    ghost lawful = { lawful_by L.lawful (λ p. p.0) };
}

impl<N, L: SetLaw<N>> SetLaw<InPlace<N>> for OfTarget<L> {
    fn is_same(one: &InPlace<N>, other: &InPlace<N>) -> bool {
        L::is_same(&one.0, &other.0)
    }

    fn hash(target: &InPlace<N>) -> u64 {
        L::hash(&target.0)
    }
}

impl<K, N, L: KeyLaw<K, N>> KeyLaw<K, InPlace<N>> for OfTarget<L> {
    ghost meets = { λ key p. L.meets key p.0 };

    ghost key_hash = { L.key_hash };

    fn is_met(key: &K, target: &InPlace<N>) -> bool {
        L::is_met(key, &target.0)
    }

    fn hash_key(key: &K) -> u64 {
        <L as KeyLaw<K, N>>::hash_key(key)
    }

    ghost agrees = { λ key p is. L.agrees key p.0 is };
}
