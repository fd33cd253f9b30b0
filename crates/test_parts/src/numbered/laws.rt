//! The law of the numbers, which says which are equal and what their hashes are.
use table_terms::law::{Law, SetLaw, hash_number};

/// A number is equal only to itself. The four numbers from a multiple of 4 on have one hash: so they have one mark, and their probes begin
/// at the same bucket.
pub(crate) struct Fours;

impl Law<u64> for Fours {
    ghost use Rattle.table_terms.specs.Laws.{same_number};
    ghost use Rattle.test_parts.specs.Fours.{hash_of_four, fours_lawful};

    ghost same = { same_number };

    ghost hash_of = { hash_of_four };

    ghost lawful = { fours_lawful };
}

impl SetLaw<u64> for Fours {
    fn is_same(one: &u64, other: &u64) -> bool {
        *one == *other
    }

    fn hash(target: &u64) -> u64 {
        hash_number(*target / 4)
    }
}
