//! Texts, and the numbers that an interner gives them.
use super::{assert_named, assert_same, intern, text_of};
use interner::Interner;
use std::alloc::{AllocError, Global};
use std::process::Abort;
use std::test::Fail;

/// Texts in the order in which they are interned, each with its number.
const WORDS: [(&str, u32); 4] = [("a", 1), ("b", 2), ("a", 1), ("", 3)];

/// Texts of which the different ones have the same hash, 2112.
const SAME_HASH: [(&str, u32); 3] = [("Aa", 1), ("BB", 2), ("Aa", 1)];

/// Texts of characters of 1, 2, 3 and 4 bytes, and texts of all these characters.
const EVERY_LENGTH: [(&str, u32); 6] = [
    ("z", 1),
    ("é", 2),
    ("語", 3),
    ("🦀", 4),
    ("zé語🦀", 5),
    ("🦀語éz", 6),
];

/// The length of a long text in bytes.
const LONG: usize = 100_000;

/// How many texts the long run interns.
const MANY: u32 = 200_000;

/// Interns the texts in order, and asserts their numbers, and again once all are interned. Returns the interner.
fn intern_all(rt: &impl Abort, alloc: Global, texts: &[(&str, u32)]) -> Interner {
    let mut interner = Interner::new(alloc);
    for (text, number) in texts {
        assert_same(rt, intern(rt, &mut interner, text), *number);
    }
    for (text, number) in texts {
        assert_named(rt, &interner, text, *number);
    }
    interner
}

#[test]
fn numbers_follow_first_appearance(rt: HostRuntime) {
    let interner = intern_all(&rt, rt.alloc(), WORDS.as_slice());
    assert_same(&rt, interner.len_alone(), 3);
    assert_same(&rt, text_of(&interner, 2), Some("b"));
    assert_same(&rt, text_of(&interner, 4), None);
    assert_named(&rt, &interner, "c", 0);

    let interner = intern_all(&rt, rt.alloc(), SAME_HASH.as_slice());
    assert_same(&rt, interner.len_alone(), 2);
    assert_same(&rt, text_of(&interner, 2), Some("BB"));

    let interner = intern_all(&rt, rt.alloc(), EVERY_LENGTH.as_slice());
    assert_same(&rt, interner.len_alone(), 6);
    assert_same(&rt, text_of(&interner, u32::MAX), None);
}

/// Interns a long text, and then the same text with one more byte. Asserts that they get two numbers. `Err`: no memory.
fn intern_long(rt: &impl Abort, alloc: Global) -> Result<(), AllocError> {
    let mut text = "x".repeat(alloc, LONG)?;
    let mut interner = Interner::new(alloc);
    assert_same(rt, intern(rt, &mut interner, text.as_str()), 1);
    text.push('y')?;
    assert_same(rt, intern(rt, &mut interner, text.as_str()), 2);
    assert_named(rt, &interner, text.as_str(), 2);
    assert_same(rt, interner.len_alone(), 2);
    Ok(())
}

/// Interns the decimal numbers below `MANY`, and asserts their numbers. Returns the interner. `Err`: no memory.
fn intern_many(rt: &impl Abort, alloc: Global) -> Result<Interner, Fail> {
    let mut interner = Interner::new(alloc);
    for n in 0..MANY {
        let text = format!(in alloc; "{n}")?;
        assert_same(rt, intern(rt, &mut interner, text.as_str()), n + 1);
    }
    Ok(interner)
}

/// Asserts that each decimal number below `MANY` still has its number. `Err`: no memory.
fn ask_many(rt: &impl Abort, alloc: Global, interner: &Interner) -> Result<(), Fail> {
    for n in 0..MANY {
        let text = format!(in alloc; "{n}")?;
        assert_named(rt, interner, text.as_str(), n + 1);
    }
    Ok(())
}

#[test]
fn long_texts_and_many_texts(rt: HostRuntime) -> Result<(), Fail> {
    intern_long(&rt, rt.alloc())?;
    let interner = intern_many(&rt, rt.alloc())?;
    ask_many(&rt, rt.alloc(), &interner)?;
    assert_same(&rt, interner.len_alone(), MANY as usize);
    Ok(())
}
