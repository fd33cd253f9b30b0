//! Words in a single-owner table: an inserted word is found.
ghost use Rattle.std.specs.Prelude.{◌≡◌, IfOk, IfErr};
ghost use Rattle.table_held.specs.Table.{entries, entry_at, IsLater};
ghost use Rattle.std.specs.List.Sorted.{IsPermutation};
ghost use Rattle.table_held.specs.Held.{ShowsAt};
ghost use Rattle.demo_examples.specs.Words.{HoldsWords};

use lock_free_hashtable::raw::laws::inserted_is_found_again;
use lock_free_hashtable::{HeldRawTable, Law, Place};

/// The equality and hash of words: two are equal if their numbers are, and a word is its own hash. Only contracts use it.
pub struct Words;

impl Law<u64> for Words {
    ghost use Rattle.demo_examples.specs.Words.{same_word, word_hash, words_lawful};

    ghost same = { same_word };

    ghost hash_of = { word_hash };

    ghost lawful = { words_lawful };
}

/// A word's place in its table, and the result of a look-up of the word.
#[derive(Clone, Copy, Debug)]
pub struct Lookup {
    pub place: Place,
    pub shown: Option<u64>,
}

/// Inserts the word unless an equal one is an entry, and looks it up. The look-up returns the very entry whose place the insert
/// returned, and it is equal to the word.
///
/// `Err`: memory was refused, or the capacity can't double. The word is returned, and the entries are unchanged. In each case the
/// table holds words before and after, and each place keeps its entry.
pub fn insert_then_find(
    table: &mut HeldRawTable<Box<u64>>,
    word: Box<u64>,
) -> Result<Lookup, Box<u64>>
    requires { HoldsWords (λ b. b.value) table.old }
    ensures holds { HoldsWords (λ b. b.value) table.new }
    ensures later { IsLater table.old table.new }
    ensures refused { IfErr result (λ back. (back ≡ word)
        × IsPermutation (entries table.old) (entries table.new)) }
    ensures found { IfOk result (λ r. ShowsAt (entry_at table.new r.place)
        (λ entry. (r.shown ≡ Some entry.value) × (entry.value ≡ word.value))) }
{
    let wanted = *word;
    let same = |a: &u64, b: &u64| *a == *b;
    let hash = |a: &u64| *a;
    let is_wanted = |a: &u64| *a == wanted;
    let (place, _) = table.place_alone::<Words, _, _>(wanted, word, &same, &hash)?;
    // The theorem is a function that does nothing. Calling it makes its clauses known.
    inserted_is_found_again::<Box<u64>, Words, HeldRawTable<Box<u64>>, _, _, _>(
        &same, &hash, &is_wanted,
    );
    let shown = table.lookup_alone::<Words, _>(wanted, is_wanted).copied();
    Ok(Lookup { place, shown })
}
