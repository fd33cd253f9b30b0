//! The same calls on a raw table and on four shards: both return the same replies.
ghost use Rattle.std.specs.Prelude.{◌≡◌, IfOk, [], length, map};
ghost use Rattle.table_held.specs.Shown.{Stands};
ghost use Rattle.table_held.specs.Table.{held};
ghost use Rattle.table_shards.specs.Shards.{sharded};
ghost use Rattle.demo_examples.specs.Asks.{asked_of_words, AreAlike};

use crate::held::Words;
use lock_free_hashtable::alone::laws::new_tables_agree;
use lock_free_hashtable::alone::{AloneTable, Call, Reply, run_calls};
use lock_free_hashtable::sharded::HeldShardedTable;
use lock_free_hashtable::{HeldRawTable, InPlace};
use std::alloc::{AllocError, Global};

/// A word, which is stored in its table's block.
pub type Word = InPlace<u64>;

/// A request to a table of words.
#[derive(Clone, Copy, Debug)]
pub enum Ask {
    /// Insert the word.
    Insert(u64),
    /// Look up the word.
    Find(u64),
    /// Count the words.
    Count,
}

/// Returns the call that makes this request. A word is its own hash.
fn call_of(ask: Ask) -> Call<Word, u64>
    ensures { result ≡ asked_of_words ask }
{
    match ask {
        Ask::Insert(word) => Call::Insert {
            hash: word,
            value: InPlace(word),
        },
        Ask::Find(word) => Call::Lookup {
            hash: word,
            key: word,
        },
        Ask::Count => Call::Len,
    }
}

/// Returns the calls that make these requests, in order.
fn calls_of(alloc: Global, asks: &[Ask]) -> Result<Vec<Call<Word, u64>>, AllocError>
    ensures { IfOk result (λ calls. calls.items ≡ map asked_of_words asks.now) }
{
    let mut calls = Vec::with_capacity(alloc, asks.len())?;
    for ask in asks {
        calls.push(call_of(*ask))?;
    }
    Ok(calls)
}

/// The replies of two tables to the same calls, in order.
#[derive(Drop)]
pub struct ToldTwice {
    pub one: Vec<Reply<Word>>,
    pub other: Vec<Reply<Word>>,
}

/// Makes the same requests to two tables without entries, of any kinds. If memory was refused to no insert, both return the same
/// replies, in order, and have the same entries.
///
/// `Err`: memory was refused for the calls or for the replies.
pub fn ask_two<B: AloneTable<Word, Words>, C: AloneTable<Word, Words>>(
    alloc: Global,
    one: &mut B,
    other: &mut C,
    asks: &[Ask],
) -> Result<ToldTwice, AllocError>
    requires one { Stands B.shows one.old [] }
    requires other { Stands C.shows other.old [] }
    ensures one { IfOk result (λ told. length told.one.items ≡ length asks.now) }
    ensures other { IfOk result (λ told. length told.other.items ≡ length asks.now) }
    ensures alike { IfOk result (AreAlike B.shows C.shows one.new other.new) }
{
    let same = |a: &u64, b: &u64| *a == *b;
    let hash = |a: &u64| *a;
    // The theorem is a function that does nothing. Calling it makes its clauses known.
    new_tables_agree::<Word, Words, u64, B, C, _, _, _>(&same, &hash, &same);
    let calls = calls_of(alloc, asks)?;
    let Ok(told) = run_calls::<_, Words, _, _, _, _, _, _>(alloc, one, calls, same, hash, same)
    else {
        return Err(AllocError);
    };
    let again = calls_of(alloc, asks)?;
    let Ok(other_told) = run_calls::<_, Words, _, _, _, _, _, _>(
        alloc, other, again, same, hash, same,
    ) else {
        return Err(AllocError);
    };
    Ok(ToldTwice {
        one: told,
        other: other_told,
    })
}

/// A raw table and four shards after the same calls, and their replies.
#[derive(Drop)]
pub struct Both {
    pub raw: HeldRawTable<Word>,
    pub shards: HeldShardedTable<Word, 4>,
    pub told: ToldTwice,
}

/// Makes the same requests to a new raw table and to four new shards; see `ask_two`.
pub fn ask_both(alloc: Global, asks: &[Ask]) -> Result<Both, AllocError>
    ensures raw { IfOk result (λ both. length both.told.one.items ≡ length asks.now) }
    ensures shards { IfOk result (λ both. length both.told.other.items ≡ length asks.now) }
    ensures alike { IfOk result (λ both. AreAlike held sharded both.raw both.shards both.told) }
{
    let mut raw = HeldRawTable::new(alloc);
    let mut shards = HeldShardedTable::<_, 4>::new(alloc);
    let told = ask_two(alloc, &mut raw, &mut shards, asks)?;
    Ok(Both { raw, shards, told })
}
