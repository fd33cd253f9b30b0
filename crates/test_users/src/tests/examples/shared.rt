//! A caller that doesn't know the kind of its tables shares them, while every request for memory is refused.
ghost use Rattle.std.specs.Iterator.{IsFinite};

use super::assert_same;
use demo_examples::held::Words;
use demo_examples::shared::share_both;
use lock_free_hashtable::sharded::HeldShardedTable;
use lock_free_hashtable::{HeldRawTable, InPlace};
use std::process::Abort;
use table_cell::Low;
use testkit::refusing::{Heap, counted};

/// How many words the first table has.
const WORDS: u64 = 40;

/// Each word adds itself and this number to a sum, so that the sum also counts the words.
const COUNTED: u64 = 1 << 32;

/// That sum for the words of the first table. The words themselves have the sum 780.
const SUM: u64 = WORDS * COUNTED + 780;

/// Makes a raw table of the words below `words`.
fn raw<A: Low + Copy>(memory: A, words: u64) -> HeldRawTable<InPlace<u64>, A> {
    let mut table = HeldRawTable::new(memory);
    for word in 0..words {
        let same = |a: &u64, b: &u64| *a == *b;
        let hash = |a: &u64| *a;
        let _told = table.place_alone::<Words, _, _>(word, InPlace(word), &same, &hash);
    }
    table
}

/// Makes a table over two shards of the words below `words`.
fn sharded<'a>(heap: &'a Heap, words: u64) -> HeldShardedTable<InPlace<u64>, 2, &'a Heap> {
    let mut table = HeldShardedTable::new(heap);
    for word in 0..words {
        let same = |a: &u64, b: &u64| *a == *b;
        let hash = |a: &u64| a.reverse_bits();
        let _told = table.place_alone::<Words, _, _>(
            word.reverse_bits(),
            InPlace(word),
            &same,
            &hash,
        );
    }
    table
}

/// Returns the sum of the words that an iterator yields, plus `COUNTED` for each word.
fn sum_of<'a, I: Iterator<Item = &'a u64> + Drop>(walk: I) -> u64
    requires can { I.can_next walk }
    requires ends { IsFinite (I.remaining walk) }
{
    let mut sum = 0u64;
    for word in walk {
        sum = sum.wrapping_add(COUNTED).wrapping_add(*word);
    }
    sum
}

/// Asserts the sums of the two shared tables, and that no request was made after the first `granted` ones.
fn assert_unasked(rt: &impl Abort, heap: &Heap, granted: u64, sums: [u64; 2]) {
    assert_same(rt, sums, [SUM, 0]);
    assert_same(
        rt,
        [heap.granted(), heap.refusals_left()],
        [granted, u64::MAX],
    );
}

/// Makes two raw tables over this memory, and asserts that they are shared while the heap refuses each request.
fn assert_raw_shared<A: Low + Copy>(rt: &impl Abort, heap: &Heap, memory: A) {
    let (one, other) = (raw(memory, WORDS), raw(memory, 0));
    let granted = heap.granted();
    heap.refuse(0, u64::MAX);
    let (one, other) = share_both(one, other);
    let sums = [sum_of((&one).into_iter()), sum_of((&other).into_iter())];
    assert_unasked(rt, heap, granted, sums);
}

#[test]
fn raw_tables_are_shared_without_memory(rt: HostRuntime) {
    let heap = counted(rt.alloc());
    assert_raw_shared(&rt, &heap, &heap);
    assert!(rt; heap.granted() != 0);
}

#[test]
fn tables_over_shards_are_shared_without_memory(rt: HostRuntime) {
    let heap = counted(rt.alloc());
    let (one, other) = (sharded(&heap, WORDS), sharded(&heap, 0));
    let granted = heap.granted();
    heap.refuse(0, u64::MAX);
    let (one, other) = share_both(one, other);
    let sums = [sum_of((&one).into_iter()), sum_of((&other).into_iter())];
    assert_unasked(&rt, &heap, granted, sums);
}
