//! Words that are inserted into a table and then found.
ghost use Rattle.demo_examples.specs.Apart.{HoldsWordsIn};
ghost use Rattle.demo_examples.specs.Words.{HoldsWords};

use super::assert_same;
use demo_examples::apart::{LookupAt, insert_then_find_in};
use demo_examples::held::{Words, insert_then_find};
use demo_examples::unshown::insert_two_then_find;
use lock_free_hashtable::HeldRawTable;
use lock_free_hashtable::alone::KeepsApart;
use lock_free_hashtable::sharded::HeldShardedTable;
use std::alloc::Global;
use std::process::Abort;
use std::test::Fail;

/// Inserts the word, and asserts that it is found and that the table then has `entries` entries. `Err`: no memory.
fn assert_found(
    rt: &impl Abort,
    alloc: Global,
    table: &mut HeldRawTable<Box<u64>>,
    word: u64,
    entries: usize,
) -> Result<(), Fail>
    requires { HoldsWords (λ b. b.value) table.old }
    ensures { HoldsWords (λ b. b.value) table.new }
{
    let word_box = Box::new(alloc, word)?;
    let shown = match insert_then_find(table, word_box) {
        Ok(found) => found.shown,
        Err(_) => None,
    };
    assert_same(rt, shown, Some(word));
    assert_same(rt, table.len_alone(), entries);
    Ok(())
}

#[test]
fn words_are_found(rt: HostRuntime) -> Result<(), Fail> {
    let mut table = HeldRawTable::new(rt.alloc());
    assert_found(&rt, rt.alloc(), &mut table, 7, 1)?;
    assert_found(&rt, rt.alloc(), &mut table, 23, 2)?;
    assert_found(&rt, rt.alloc(), &mut table, 7, 2)?;
    assert_found(&rt, rt.alloc(), &mut table, u64::MAX, 3)?;
    Ok(())
}

/// Inserts two words, and asserts that the first is found and that the table then has `entries` entries. `Err`: no memory.
fn assert_first_found(
    rt: &impl Abort,
    alloc: Global,
    table: &mut HeldRawTable<Box<u64>>,
    words: [u64; 2],
    entries: usize,
) -> Result<(), Fail>
    requires { HoldsWords (λ b. b.value) table.old }
    ensures { HoldsWords (λ b. b.value) table.new }
{
    let one = Box::new(alloc, words[0])?;
    let two = Box::new(alloc, words[1])?;
    let shown = match insert_two_then_find(table, one, two) {
        Ok(shown) => shown,
        Err(_) => None,
    };
    assert_same(rt, shown, Some(words[0]));
    assert_same(rt, table.len_alone(), entries);
    Ok(())
}

#[test]
fn the_first_of_two_words_is_found(rt: HostRuntime) -> Result<(), Fail> {
    let mut table = HeldRawTable::new(rt.alloc());
    assert_first_found(&rt, rt.alloc(), &mut table, [7, 23], 2)?;
    assert_first_found(&rt, rt.alloc(), &mut table, [23, 23], 2)?;
    assert_first_found(&rt, rt.alloc(), &mut table, [u64::MAX, 7], 3)?;
    Ok(())
}

/// Inserts the word into a table of any kind, and asserts that it is found. `Err`: no memory.
fn assert_found_in<B: KeepsApart<Box<u64>, Words>>(
    rt: &impl Abort,
    alloc: Global,
    table: &mut B,
    word: u64,
) -> Result<(), Fail>
    requires { HoldsWordsIn B.shows (λ b. b.value) table.old }
    ensures { HoldsWordsIn B.shows (λ b. b.value) table.new }
{
    let word_box = Box::new(alloc, word)?;
    let shown = match insert_then_find_in(table, word_box) {
        Ok(LookupAt { place: _, shown }) => shown,
        Err(_) => None,
    };
    assert_same(rt, shown, Some(word));
    Ok(())
}

/// Inserts two words, and one of them again, and asserts that each is found. `Err`: no memory.
fn assert_finds_words<B: KeepsApart<Box<u64>, Words>>(
    rt: &impl Abort,
    alloc: Global,
    table: &mut B,
) -> Result<(), Fail>
    requires { HoldsWordsIn B.shows (λ b. b.value) table.old }
{
    assert_found_in(rt, alloc, table, 7)?;
    assert_found_in(rt, alloc, table, u64::MAX)?;
    assert_found_in(rt, alloc, table, 7)
}

#[test]
fn words_are_found_in_tables_of_two_kinds(rt: HostRuntime) -> Result<(), Fail> {
    let mut raw: HeldRawTable<Box<u64>> = HeldRawTable::new(rt.alloc());
    let mut shards: HeldShardedTable<Box<u64>, 2> = HeldShardedTable::new(rt.alloc());
    assert_finds_words(&rt, rt.alloc(), &mut raw)?;
    assert_finds_words(&rt, rt.alloc(), &mut shards)?;
    assert_same(&rt, raw.len_alone(), 2);
    assert_same(&rt, shards.len_alone(), 2);
    Ok(())
}
