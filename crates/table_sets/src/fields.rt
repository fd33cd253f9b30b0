//! Values as targets of sets, by one field.
ghost use Rattle.std.specs.Prelude.{◌≡◌};

use std::marker::PhantomData;
use table_terms::law::{KeyLaw, Law, SetLaw};

/// A value that is compared, hashed and looked up by one field.
pub trait ByField {
    /// The type of the field.
    type Field;

    ghost field_of: { Self → Self.Field };

    /// Returns the field.
    fn field(&self) -> &Self::Field
        ensures { result.now ≡ field_of self.now };
}

/// The law of values by a field that has the law `L`. Two values are equal if their fields are equal by `L`, and the hash and the keys
/// are those of `L`.
pub struct OfField<L> {
    law: PhantomData<L>,
}

impl<V: ByField, L: Law<V::Field>> Law<V> for OfField<L> {
    ghost use Rattle.table_terms.specs.Laws.{same_by, hash_by, lawful_by};

    ghost same = { same_by L.same V.field_of };

    ghost hash_of = { hash_by L.hash_of V.field_of };

    ghost lawful = { lawful_by L.lawful V.field_of };
}

impl<V: ByField, L: SetLaw<V::Field>> SetLaw<V> for OfField<L> {
    fn is_same(one: &V, other: &V) -> bool {
        L::is_same(one.field(), other.field())
    }

    fn hash(target: &V) -> u64 {
        L::hash(target.field())
    }
}

impl<K, V: ByField, L: KeyLaw<K, V::Field>> KeyLaw<K, V> for OfField<L> {
    ghost meets = { λ key value. L.meets key (V.field_of value) };

    ghost key_hash = { L.key_hash };

    fn is_met(key: &K, target: &V) -> bool {
        L::is_met(key, target.field())
    }

    fn hash_key(key: &K) -> u64 {
        <L as KeyLaw<K, V::Field>>::hash_key(key)
    }

    ghost agrees = { λ key value is. L.agrees key (V.field_of value) is };
}
