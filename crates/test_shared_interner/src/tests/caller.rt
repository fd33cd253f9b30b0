//! Interners on memory that counts its blocks, and numbered texts.
use shared_interner::{SharedInterner, Symbol};
use std::alloc::{AllocError, Global};
use std::fmt::Debug;
use std::process::Abort;
use table_cell::Low;
pub(crate) use testkit::refusing::{Heap, counted};

/// Asserts that `got` equals `expected`.
pub(crate) fn assert_same<X: PartialEq + Debug + Drop>(rt: &impl Abort, got: X, expected: X) {
    assert_eq!(rt; got, expected);
}

/// Makes an empty interner with room for `room` texts.
pub(crate) fn interner_with<A: Low + Copy>(
    rt: &impl Abort,
    memory: A,
    room: usize,
) -> SharedInterner<A> {
    SharedInterner::with_capacity(memory, room).expect(rt, "an interner")
}

/// Asserts that each granted block was freed.
pub(crate) fn assert_none_out(rt: &impl Abort, heap: &Heap) {
    assert_same(rt, heap.given_back(), heap.granted());
}

/// Returns the text of this number. Every third text is long. `Err`: no memory.
pub(crate) fn text_of(alloc: Global, number: u64) -> Result<String, AllocError> {
    if number % 3 == 0 {
        format!(in alloc; "a text that lies in a block of its own, {number}")
    } else {
        format!(in alloc; "{number}")
    }
}

/// Returns the texts of the numbers below `count`. `Err`: no memory.
pub(crate) fn texts_below(alloc: Global, count: u64) -> Result<Vec<String>, AllocError> {
    let mut texts = Vec::new(alloc);
    for number in 0..count {
        texts.push(text_of(alloc, number)?)?;
    }
    Ok(texts)
}

/// Interns the texts, and returns their symbols. `Err`: no memory.
pub(crate) fn symbols_of<A: Low + Copy>(
    alloc: Global,
    interner: &SharedInterner<A>,
    texts: &[String],
) -> Result<Vec<Symbol>, AllocError> {
    let mut symbols = Vec::new(alloc);
    for text in texts {
        symbols.push(interner.intern(text.as_str())?)?;
    }
    Ok(symbols)
}

/// Asserts that each call returns this symbol for the text, and this text for the symbol.
pub(crate) fn assert_named<A: Low + Copy>(
    rt: &impl Abort,
    interner: &SharedInterner<A>,
    text: &str,
    symbol: Symbol,
) {
    assert_same(rt, interner.get(text), Some(symbol));
    assert_same(rt, interner.intern(text).ok(), Some(symbol));
    assert_same(rt, interner.text(symbol), Some(text));
    let mut names = interner.names();
    assert_same(rt, names.get(text), Some(symbol));
    assert_same(rt, names.intern(text).ok(), Some(symbol));
    assert_same(rt, names.text(symbol), Some(text));
}

/// Asserts that the interner has these texts, each with its symbol, and no others.
pub(crate) fn assert_has<A: Low + Copy>(
    rt: &impl Abort,
    interner: &SharedInterner<A>,
    texts: &[String],
    symbols: &[Symbol],
) {
    for (text, symbol) in texts.iter().zip(symbols.iter()) {
        assert_named(rt, interner, text.as_str(), *symbol);
    }
    assert_same(rt, symbols.len(), texts.len());
    assert_same(rt, interner.len(), texts.len() as u64);
}
