//! Interners that grow.
use super::caller::{
    assert_has, assert_none_out, assert_same, counted, interner_with, texts_below,
};
use shared_interner::{SharedInterner, Symbol};
use std::alloc::{AllocError, Global};
use std::process::Abort;
use std::test::Fail;
use table_cell::Low;

/// How many texts there are.
const TEXTS: u64 = 10_000;

/// Interns each text by one handle, and returns the symbols. Asserts that the first symbol keeps its text. `Err`: no memory.
fn fill<A: Low + Copy>(
    rt: &impl Abort,
    alloc: Global,
    interner: &SharedInterner<A>,
    texts: &[String],
) -> Result<Vec<Symbol>, AllocError> {
    let mut names = interner.names();
    let first = names.intern("1")?;
    let mut symbols = Vec::new(alloc);
    for text in texts {
        symbols.push(names.intern(text.as_str())?)?;
        assert_same(rt, names.text(first), Some("1"));
    }
    Ok(symbols)
}

/// Fills an interner with room for `room` texts. Asserts that each symbol has its text after growth, and each text its symbol. `Err`: no
/// memory.
fn assert_grows<A: Low + Copy>(
    rt: &impl Abort,
    alloc: Global,
    memory: A,
    texts: &[String],
    room: usize,
) -> Result<(), AllocError> {
    let interner = interner_with(rt, memory, room);
    let symbols = fill(rt, alloc, &interner, texts)?;
    assert_has(rt, &interner, texts, symbols.as_slice());
    Ok(())
}

#[test]
fn symbols_give_their_texts_back_after_growth(rt: HostRuntime) -> Result<(), Fail> {
    let texts = texts_below(rt.alloc(), TEXTS)?;
    for room in [0, TEXTS as usize] {
        let heap = counted(rt.alloc());
        assert_grows(&rt, rt.alloc(), &heap, texts.as_slice(), room)?;
        assert_none_out(&rt, &heap);
    }
    Ok(())
}

/// Asserts that a handle that hears what another one knows finds its texts. `Err`: no memory.
fn assert_hears<A: Low + Copy>(rt: &impl Abort, memory: A) -> Result<(), AllocError> {
    let interner = interner_with(rt, memory, 0);
    let mut one = interner.names();
    let mut other = interner.names();
    let symbol = one.intern("a")?;
    other.hear(&one.tell());
    assert_same(rt, other.get("a"), Some(symbol));
    assert_same(rt, other.text(symbol), Some("a"));
    Ok(())
}

#[test]
fn a_handle_hears_of_texts(rt: HostRuntime) -> Result<(), Fail> {
    let heap = counted(rt.alloc());
    assert_hears(&rt, &heap)?;
    assert_none_out(&rt, &heap);
    Ok(())
}
