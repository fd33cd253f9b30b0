//! What a look-up looks for.
ghost use Rattle.std.specs.Prelude.{◌≡◌, ℕ, Bool, true};
ghost use Rattle.std.proofs.Common.{sym};

use table_terms::law::{KeyLaw, SetLaw};

/// What a look-up looks for: a hash, and a test that no entry of another hash passes.
pub trait Sought<V, L: SetLaw<V>> {
    ghost accepts: { Self → V → Bool };

    ghost sought_hash: { Self → ℕ };

    /// Returns the hash of what is sought.
    fn hash(&self) -> u64
        ensures { result ≡ sought_hash self.now };

    /// Returns whether the test accepts the entry.
    fn is(&self, entry: &V) -> bool
        ensures { result ≡ accepts self.now entry.now };

    ghost agrees: { (s : Self) (v : V) → accepts s v ≡ true → L.hash_of v ≡ sought_hash s };
}

/// An entry that is the same as a target.
#[derive(Drop)]
pub struct SameAs<'a, V> {
    pub target: &'a V,
}

impl<V, L: SetLaw<V>> Sought<V, L> for SameAs<'_, V> {
    ghost accepts = { λ s. L.same s.target.now };

    ghost sought_hash = { λ s. L.hash_of s.target.now };

    ghost agrees = { λ s v is. sym (L.lawful.agrees s.target.now v is) };

    fn hash(&self) -> u64 {
        L::hash(self.target)
    }

    fn is(&self, entry: &V) -> bool {
        L::is_same(self.target, entry)
    }
}

/// An entry that meets a key.
#[derive(Drop)]
pub struct MetBy<'a, K> {
    pub key: &'a K,
}

impl<K, V, L: KeyLaw<K, V>> Sought<V, L> for MetBy<'_, K> {
    ghost accepts = { λ s. L.meets s.key.now };

    ghost sought_hash = { λ s. L.key_hash s.key.now };

    ghost agrees = { λ s v is. L.agrees s.key.now v is };

    fn hash(&self) -> u64 {
        L::hash_key(self.key)
    }

    fn is(&self, entry: &V) -> bool {
        L::is_met(self.key, entry)
    }
}
