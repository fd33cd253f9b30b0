//! Pairs as targets of sets, with a law for each part.
ghost use Rattle.std.specs.Prelude.{◌≡◌};
ghost use Rattle.table_sets.specs.Pairs.{mixed_hash};

use std::marker::PhantomData;
use table_held::Law;
use table_terms::law::{KeyLaw, SetLaw, hash_number};

/// The law of pairs whose first parts are compared by `L` and whose second parts by `M`. Two pairs are equal if both parts are.
/// The hash of a pair mixes the hashes of both parts.
pub struct PairsOf<L, M> {
    first: PhantomData<L>,
    second: PhantomData<M>,
}

/// Returns a hash made of the hashes of two parts. The order of the parts matters.
pub fn mix_hashes(first: u64, second: u64) -> u64
    ensures { result ≡ mixed_hash first second }
{
    hash_number(hash_number(first).wrapping_add(second))
}

impl<V, W, L: Law<V>, M: Law<W>> Law<(V, W)> for PairsOf<L, M> {
    ghost use Rattle.table_sets.specs.Pairs.{same_parts, pair_hash, pairs_lawful};

    ghost same = { same_parts L.same M.same };

    ghost hash_of = { pair_hash L.hash_of M.hash_of };

    ghost lawful = { pairs_lawful L.lawful M.lawful };
}

impl<V, W, L: SetLaw<V>, M: SetLaw<W>> SetLaw<(V, W)> for PairsOf<L, M> {
    fn is_same(one: &(V, W), other: &(V, W)) -> bool {
        L::is_same(&one.0, &other.0) && M::is_same(&one.1, &other.1)
    }

    fn hash(target: &(V, W)) -> u64 {
        mix_hashes(L::hash(&target.0), M::hash(&target.1))
    }
}

impl<I, J, V, W, L: KeyLaw<I, V>, M: KeyLaw<J, W>> KeyLaw<(I, J), (V, W)> for PairsOf<L, M> {
    ghost use Rattle.table_sets.specs.Pairs.{meets_parts, pair_hash, pairs_agree};

    ghost meets = { meets_parts L.meets M.meets };

    ghost key_hash = { pair_hash L.key_hash M.key_hash };

    fn is_met(key: &(I, J), target: &(V, W)) -> bool {
        L::is_met(&key.0, &target.0) && M::is_met(&key.1, &target.1)
    }

    fn hash_key(key: &(I, J)) -> u64 {
        let first = <L as KeyLaw<I, V>>::hash_key(&key.0);
        let second = <M as KeyLaw<J, W>>::hash_key(&key.1);
        mix_hashes(first, second)
    }

    ghost agrees = { pairs_agree L.agrees M.agrees };
}
