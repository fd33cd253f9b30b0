//! An interner whose requests for memory are refused.
use super::{assert_named, assert_same, intern, text_of};
use interner::Interner;
use std::alloc::{AllocError, Allocator, Global};
use std::process::Abort;
use std::test::Fail;
use testkit::refusing::{Refusing, Rule};

/// Enough texts for a second generation of the table and more room in the vector.
const TEXTS: [&str; 9] = [
    "one", "two", "three", "four", "five", "six", "seven", "eight", "nine",
];

/// More requests than these texts make.
const ENOUGH: u64 = 100;

/// How many requests the third text makes: one for its bytes, and one for the table's block of its number.
const REQUESTS_OF_THIRD: usize = 2;

/// Asserts that the interner knows the first `known` texts and nothing else.
fn assert_knows<A: Allocator + Copy>(rt: &impl Abort, interner: &Interner<A>, known: u32) {
    assert_same(rt, interner.len_alone(), known as usize);
    for (place, text) in TEXTS.iter().enumerate() {
        let number = place as u32 + 1;
        assert_named(rt, interner, text, if number <= known { number } else { 0 });
    }
    assert_same(rt, text_of(interner, known.saturating_add(1)), None);
}

/// Interns all texts. A text that is refused is interned again. Returns the number of the refused text, or 0 if none was refused.
fn intern_all<A: Allocator + Copy>(rt: &impl Abort, memory: A) -> u32 {
    let mut interner = Interner::new(memory);
    let mut refused = 0;
    for (place, text) in TEXTS.iter().enumerate() {
        let number = place as u32 + 1;
        if intern(rt, &mut interner, text) == 0 {
            assert_same(rt, refused, 0);
            refused = number;
            assert_knows(rt, &interner, place as u32);
        }
        assert_same(rt, intern(rt, &mut interner, text), number);
    }
    assert_knows(rt, &interner, TEXTS.len() as u32);
    refused
}

/// Interns all texts while the request after the first `granted` ones is refused. Returns the number of the refused text as `intern_all`
/// does. `None` means that no request was refused.
fn refused_after(rt: &impl Abort, alloc: Global, granted: u64) -> Option<u32> {
    let heap = Refusing::new(alloc, Rule::new(0, usize::MAX, granted, 1));
    let refused = intern_all(rt, &heap);
    if heap.refusals_left() == 0 {
        return Some(refused);
    }
    assert_same(rt, refused, 0);
    None
}

/// Refuses each request in turn, and returns the number of the refused text of each run. `Err`: no memory for the list.
fn refused_in_turn(rt: &impl Abort, alloc: Global) -> Result<Vec<u32>, AllocError> {
    (0..ENOUGH)
        .map_while(|granted: u64| refused_after(rt, alloc, granted))
        .collect(alloc)
}

#[test]
fn each_request_is_refused_in_turn(rt: HostRuntime) -> Result<(), Fail> {
    let refused = refused_in_turn(&rt, rt.alloc())?;
    let third = refused.iter().filter(|text: &&u32| **text == 3).count();
    assert_same(&rt, third, REQUESTS_OF_THIRD);
    assert!(rt; 20 < refused.len() && refused.len() < 50);
    Ok(())
}

/// Interns all texts until one is refused, and asserts the number of each. Returns whether none was refused.
fn interns_each<A: Allocator + Copy>(rt: &impl Abort, interner: &mut Interner<A>) -> bool {
    for (place, text) in TEXTS.iter().enumerate() {
        let number = intern(rt, interner, text);
        if number == 0 {
            return false;
        }
        assert_same(rt, number, place as u32 + 1);
    }
    true
}

/// Interns all texts by an interner over this memory. Returns whether all were interned. If they were, asserts that calls on known texts
/// make no request. The heap refuses requests of the memory.
fn is_known_over<A: Allocator + Copy>(rt: &impl Abort, heap: &Refusing<Global>, memory: A) -> bool {
    let mut interner = Interner::new(memory);
    if !interns_each(rt, &mut interner) {
        return false;
    }
    assert!(rt; heap.granted() != 0);
    let left = heap.refusals_left();
    assert!(rt; interns_each(rt, &mut interner));
    assert_knows(rt, &interner, TEXTS.len() as u32);
    assert_knows(rt, &Interner::new(memory), 0);
    assert_same(rt, heap.refusals_left(), left);
    true
}

/// Returns whether all texts are interned while all requests after the first `granted` ones are refused.
fn is_known_with(rt: &impl Abort, alloc: Global, granted: u64) -> bool {
    let heap = Refusing::new(alloc, Rule::new(0, usize::MAX, granted, u64::MAX));
    is_known_over(rt, &heap, &heap)
}

#[test]
fn known_texts_need_no_memory(rt: HostRuntime) {
    assert!(rt; (0..ENOUGH).any(|granted: u64| is_known_with(&rt, rt.alloc(), granted)));
}
