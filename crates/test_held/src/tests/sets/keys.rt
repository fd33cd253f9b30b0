//! Tests of sets of pairs and of texts, and of look-ups by a key.
use super::{Texts, assert_placed_once, assert_same, boxed_text};
use std::alloc::{Allocator, Global};
use std::process::Abort;
use std::test::Fail;
use table_sets::{HeldSet, InPlace, NumberLaw, PairsOf};

/// A set of pairs of numbers in place.
type Pairs = HeldSet<InPlace<(u64, u32)>, PairsOf<NumberLaw, NumberLaw>>;

/// Different pairs, some of which have one part in common.
const PAIRS: [(u64, u32); 5] = [(1, 2), (2, 1), (1, 1), (2, 2), (0, 0)];

/// Different texts.
const TEXTS: [&str; 6] = ["", "a", "b", "ab", "ba", "aa"];

#[test]
fn pairs_by_both_parts(rt: HostRuntime) {
    let mut set: Pairs = HeldSet::new(rt.alloc());
    for pair in &PAIRS {
        assert_placed_once(&rt, &mut set, InPlace(*pair), InPlace(*pair));
    }
    assert_same(&rt, set.len() as u64, 5);
    assert!(rt; set.get(&(2, 1)).copied() == Some((2, 1)));
    assert!(rt; set.get(&(0, 1)).is_none());
}

/// Asserts that a look-up by a `&str` finds an equal text.
fn assert_text<A: Allocator + Copy>(rt: &impl Abort, set: &Texts<A>, text: &str) {
    match set.get_by_key(&text) {
        Some(shown) => assert!(rt; shown.as_str() == text),
        None => assert!(rt; false),
    }
}

#[test]
fn texts_by_their_bytes(rt: HostRuntime) -> Result<(), Fail> {
    let mut set: Texts<Global> = HeldSet::new(rt.alloc());
    for text in &TEXTS {
        let text = *text;
        let (first, again) = (boxed_text(rt.alloc(), text)?, boxed_text(rt.alloc(), text)?);
        assert_placed_once(&rt, &mut set, first, again);
    }
    assert_same(&rt, set.len() as u64, 6);
    for text in &TEXTS {
        assert_text(&rt, &set, *text);
    }
    assert!(rt; set.get_by_key(&"bb").is_none());
    let known = String::from_str(rt.alloc(), "ba")?;
    assert!(rt; set.contains(&known));
    Ok(())
}
