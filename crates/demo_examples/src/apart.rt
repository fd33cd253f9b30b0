//! Words in any single-owner table that has no two equal entries: an inserted word is found.
ghost use Rattle.std.specs.Prelude.{◌≡◌, IfOk, IfErr, Some};
ghost use Rattle.std.specs.List.Sorted.{IsPermutation};
ghost use Rattle.table_held.specs.Shown.{IsLater, ShowsAt, entries_of, value_of};
ghost use Rattle.demo_examples.specs.Apart.{HoldsWordsIn};

use crate::held::Words;
use lock_free_hashtable::alone::laws::inserted_is_found_again;
use lock_free_hashtable::alone::{AloneTable, KeepsApart};

/// A word's place in a table, and the result of a look-up of the word.
#[derive(Clone, Copy, Debug)]
pub struct LookupAt<P> {
    pub place: P,
    pub shown: Option<u64>,
}

/// Inserts the word unless an equal one is an entry, and looks it up. The look-up returns the very entry whose place the insert
/// returned, and it is equal to the word. The table is of any kind, a raw one or one over shards.
///
/// `Err`: the insert was refused. The word is returned, and the entries are unchanged. In each case the table holds words before
/// and after, and each place keeps its entry.
pub fn insert_then_find_in<B: KeepsApart<Box<u64>, Words>>(
    table: &mut B,
    word: Box<u64>,
) -> Result<LookupAt<B::Place>, Box<u64>>
    requires { HoldsWordsIn B.shows (λ b. b.value) table.old }
    ensures holds { HoldsWordsIn B.shows (λ b. b.value) table.new }
    ensures later { IsLater B.shows table.old table.new }
    ensures refused { IfErr result (λ back. (back ≡ word)
        × IsPermutation (entries_of B.shows table.old) (entries_of B.shows table.new)) }
    ensures found { IfOk result (λ r. ShowsAt (value_of B.shows table.new r.place)
        (λ entry. (r.shown ≡ Some entry.value) × (entry.value ≡ word.value))) }
{
    let wanted = *word;
    let same = |a: &u64, b: &u64| *a == *b;
    let hash = |a: &u64| *a;
    let is_wanted = |a: &u64| *a == wanted;
    let (place, _) = table.place_alone(wanted, word, &same, &hash)?;
    inserted_is_found_again::<Box<u64>, Words, B, _, _, _>(&same, &hash, &is_wanted);
    let shown = table.lookup_alone(wanted, is_wanted).copied();
    Ok(LookupAt { place, shown })
}
