//! Texts of all kinds.
use super::caller::{assert_named, assert_none_out, assert_same, counted, interner_with};
use shared_interner::{Names, SharedInterner, Symbol};
use std::alloc::{AllocError, Global};
use std::process::Abort;
use std::test::Fail;
use table_cell::Low;

/// Texts of 0 to 100 bytes, no two of which are equal. Some differ in the last byte only.
const TEXTS: [&str; 32] = [
    "",
    "\0",
    " ",
    "a",
    "b",
    "ab",
    "ba",
    "thirteenBytes",
    "fourteenBytes1",
    "fourteenBytes2",
    "fifteenBytesXX1",
    "fifteenBytesXX2",
    "sixteenBytesXXX1",
    "sixteenBytesXXX2",
    "twenty_one_bytes_long",
    "twenty_two_bytes_longA",
    "twenty_two_bytes_longB",
    "twenty_two_bytes_longA\0",
    "twenty_three_bytes_lonA",
    "twenty_three_bytes_lonB",
    "twenty_four_bytes_long_A",
    "a text of a hundred bytes, none of which lies in the slot of its entry, and which ends by a letter A",
    "a text of a hundred bytes, none of which lies in the slot of its entry, and which ends by a letter B",
    "\u{e9}",
    "e\u{301}",
    "\u{df}",
    "\u{e9}\u{e9}\u{e9}\u{e9}\u{e9}\u{e9}\u{e9}\u{e9}\u{e9}\u{e9}\u{e9}",
    "\u{e9}\u{e9}\u{e9}\u{e9}\u{e9}\u{e9}\u{e9}\u{e9}\u{e9}\u{e9}\u{e9}\u{e9}",
    "\u{65e5}\u{672c}\u{8a9e}\u{65e5}\u{672c}\u{8a9e}\u{65e5}",
    "\u{65e5}\u{672c}\u{8a9e}\u{65e5}\u{672c}\u{8a9e}\u{65e5}\u{672c}",
    "\u{1f600}\u{1f600}\u{1f600}\u{1f600}\u{1f600}",
    "\u{1f600}\u{1f600}\u{1f600}\u{1f600}\u{1f600}\u{1f600}",
];

/// Interns each text, asserts that it is new, and returns the symbols. `Err`: no memory.
fn intern_each<A: Low + Copy>(
    rt: &impl Abort,
    alloc: Global,
    names: &mut Names<'_, A>,
) -> Result<Vec<Symbol>, AllocError> {
    let mut symbols = Vec::with_capacity(alloc, TEXTS.len())?;
    for text in &TEXTS {
        assert_same(rt, names.get(*text), None);
        symbols.push(names.intern(*text)?)?;
    }
    Ok(symbols)
}

/// Asserts that each symbol has its text, so that no two texts have the same symbol. `Err`: no memory.
fn assert_each_has_one<A: Low + Copy>(
    rt: &impl Abort,
    alloc: Global,
    memory: A,
) -> Result<(), AllocError> {
    let interner = interner_with(rt, memory, 0);
    assert!(rt; interner.is_empty());
    let symbols = intern_each(rt, alloc, &mut interner.names())?;
    for (text, symbol) in TEXTS.iter().zip(symbols.iter()) {
        assert_named(rt, &interner, *text, *symbol);
    }
    assert_same(rt, interner.len(), TEXTS.len() as u64);
    assert!(rt; !interner.is_empty());
    Ok(())
}

#[test]
fn each_text_has_a_symbol_that_gives_it_back(rt: HostRuntime) -> Result<(), Fail> {
    let heap = counted(rt.alloc());
    assert_each_has_one(&rt, rt.alloc(), &heap)?;
    assert_none_out(&rt, &heap);
    Ok(())
}

/// Interns the text, and returns the text of its symbol. `None` means that memory was refused.
fn shown<'s>(names: &mut Names<'s>, text: &str) -> Option<&'s str> {
    match names.intern(text) {
        Ok(symbol) => Some(names.known_text(symbol)),
        Err(_) => None,
    }
}

/// Checks that `known_text` returns the text of a symbol that the handle knows.
#[test]
fn known_symbols_give_their_texts_back(rt: HostRuntime) -> Result<(), Fail> {
    let interner = SharedInterner::new(rt.alloc())?;
    let mut names = interner.names();
    for text in &TEXTS {
        assert_same(&rt, shown(&mut names, *text), Some(*text));
        assert_same(&rt, shown(&mut names, *text), Some(*text));
    }
    Ok(())
}

/// How many bytes a long text has.
const LONG: usize = 100_000;

/// Checks that a text of a hundred thousand bytes has a symbol.
#[test]
fn a_long_text_has_a_symbol(rt: HostRuntime) -> Result<(), Fail> {
    let interner = SharedInterner::new(rt.alloc())?;
    let long = "x".repeat(rt.alloc(), LONG)?;
    let symbol = interner.intern(long.as_str())?;
    assert_same(&rt, interner.text(symbol), Some(long.as_str()));
    assert_same(&rt, interner.intern(long.as_str())?, symbol);
    Ok(())
}
