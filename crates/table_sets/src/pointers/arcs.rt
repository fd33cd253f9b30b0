//! Shared pointers as targets of sets.

use crate::pointers::OfTarget;
use std::alloc::Allocator;
use std::sync::Arc;
use table_terms::law::{KeyLaw, Law, SetLaw};

impl<N, L: Law<N>, A: Allocator> Law<Arc<N, A>> for OfTarget<L> {
    ghost use Rattle.table_terms.specs.Laws.{same_by, hash_by, lawful_by};

    ghost same = { same_by L.same (λ p. p.value) };

    ghost hash_of = { hash_by L.hash_of (λ p. p.value) };

    ghost lawful = { lawful_by L.lawful (λ p. p.value) };
}

impl<N, L: SetLaw<N>, A: Allocator> SetLaw<Arc<N, A>> for OfTarget<L> {
    fn is_same(one: &Arc<N, A>, other: &Arc<N, A>) -> bool {
        L::is_same(one.as_ref(), other.as_ref())
    }

    fn hash(target: &Arc<N, A>) -> u64 {
        L::hash(target.as_ref())
    }
}

impl<K, N, L: KeyLaw<K, N>, A: Allocator> KeyLaw<K, Arc<N, A>> for OfTarget<L> {
    ghost meets = { λ key p. L.meets key p.value };

    ghost key_hash = { L.key_hash };

    fn is_met(key: &K, target: &Arc<N, A>) -> bool {
        L::is_met(key, target.as_ref())
    }

    fn hash_key(key: &K) -> u64 {
        <L as KeyLaw<K, N>>::hash_key(key)
    }

    ghost agrees = { λ key p is. L.agrees key p.value is };
}
