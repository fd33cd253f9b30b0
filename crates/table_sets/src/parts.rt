//! Pairs and triples as targets of sets, with one law for all parts.
ghost use Rattle.std.proofs.Common.{sym};

use crate::pairs::mix_hashes;
use std::marker::PhantomData;
use table_terms::law::{KeyLaw, Law, SetLaw};

/// The law of pairs and triples whose parts have the law `L`. Two are equal if all parts are. The hash mixes the hashes of all parts.
pub struct OfParts<L> {
    law: PhantomData<L>,
}

impl<V, W, L: Law<V> + Law<W>> Law<(V, W)> for OfParts<L> {
    ghost use Rattle.table_sets.specs.Pairs.{same_parts, pair_hash, pairs_lawful};

    ghost same = { same_parts ⟦<L as Law<V>>⟧.same ⟦<L as Law<W>>⟧.same };

    ghost hash_of = { pair_hash ⟦<L as Law<V>>⟧.hash_of ⟦<L as Law<W>>⟧.hash_of };

    ghost lawful = { pairs_lawful ⟦<L as Law<V>>⟧.lawful ⟦<L as Law<W>>⟧.lawful };
}

impl<V, W, L: SetLaw<V> + SetLaw<W>> SetLaw<(V, W)> for OfParts<L> {
    fn is_same(one: &(V, W), other: &(V, W)) -> bool {
        <L as SetLaw<V>>::is_same(&one.0, &other.0) && <L as SetLaw<W>>::is_same(&one.1, &other.1)
    }

    fn hash(target: &(V, W)) -> u64 {
        let first = <L as SetLaw<V>>::hash(&target.0);
        let second = <L as SetLaw<W>>::hash(&target.1);
        mix_hashes(first, second)
    }
}

impl<V, W, X, L: Law<V> + Law<W> + Law<X>> Law<(V, W, X)> for OfParts<L> {
    ghost use Rattle.table_sets.specs.Triples.{same_triple, triple_hash, triples_lawful};

    ghost same = { same_triple ⟦<L as Law<V>>⟧.same ⟦<L as Law<W>>⟧.same ⟦<L as Law<X>>⟧.same };

    ghost hash_of = { triple_hash ⟦<L as Law<V>>⟧.hash_of ⟦<L as Law<W>>⟧.hash_of ⟦<L as Law<X>>⟧.hash_of };

    ghost lawful = { triples_lawful ⟦<L as Law<V>>⟧.lawful ⟦<L as Law<W>>⟧.lawful ⟦<L as Law<X>>⟧.lawful };
}

impl<V, W, X, L: SetLaw<V> + SetLaw<W> + SetLaw<X>> SetLaw<(V, W, X)> for OfParts<L> {
    fn is_same(one: &(V, W, X), other: &(V, W, X)) -> bool {
        <L as SetLaw<V>>::is_same(&one.0, &other.0)
            && <L as SetLaw<W>>::is_same(&one.1, &other.1)
            && <L as SetLaw<X>>::is_same(&one.2, &other.2)
    }

    fn hash(target: &(V, W, X)) -> u64 {
        let first = <L as SetLaw<V>>::hash(&target.0);
        let second = <L as SetLaw<W>>::hash(&target.1);
        let third = <L as SetLaw<X>>::hash(&target.2);
        mix_hashes(first, mix_hashes(second, third))
    }
}

/// A pair or a triple is the key of those that are equal to it.
impl<T, L> KeyLaw<T, T> for OfParts<L>
where
    OfParts<L>: SetLaw<T>,
{
    ghost meets = { ⟦<OfParts<L> as Law<T>>⟧.same };

    ghost key_hash = { ⟦<OfParts<L> as Law<T>>⟧.hash_of };

    fn is_met(key: &T, target: &T) -> bool {
        <OfParts<L> as SetLaw<T>>::is_same(key, target)
    }

    fn hash_key(key: &T) -> u64 {
        <OfParts<L> as SetLaw<T>>::hash(key)
    }

    ghost agrees = { λ key target is. sym (⟦<OfParts<L> as Law<T>>⟧.lawful.agrees key target is) };
}
