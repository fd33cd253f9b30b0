//! Walks over the texts.
ghost use Rattle.std.specs.Prelude.{◌≡◌};

use super::caller::{
    assert_none_out, assert_same, counted, interner_with, symbols_of, texts_below,
};
use shared_interner::{KnownNames, SharedInterner, Symbol};
use std::alloc::{AllocError, Global};
use std::process::Abort;
use std::test::Fail;
use table_cell::Low;

/// How many texts there are, and how many of them are known when a walk begins.
const WALKS: [(u64, usize); 7] = [
    (0, 0),
    (1, 1),
    (9, 9),
    (300, 300),
    (9, 1),
    (64, 1),
    (1000, 100),
];

/// Interns the first `known` texts, and returns what a walk returns. At each step another handle hears what the walk knows, and interns one
/// of the other texts, if any is left. `Err`: no memory.
fn walked<'i, A: Low + Copy>(
    rt: &impl Abort,
    alloc: Global,
    interner: &'i SharedInterner<A>,
    texts: &[String],
    known: usize,
) -> Result<Vec<(Symbol, &'i str)>, AllocError> {
    let mut names = interner.names();
    for text in texts.iter().take(known) {
        names.intern(text.as_str())?;
    }
    let mut more = texts.iter().skip(known);
    let mut pairs = Vec::new(alloc);
    let mut walk = names.iter();
    while let Some((symbol, text)) = walk.next() {
        pairs.push((symbol, text))?;
        assert_heard_beside(rt, interner, &walk.tell(), (symbol, text), more.next())?;
    }
    assert_same(rt, walk.next(), None);
    Ok(pairs)
}

/// Makes a handle that hears what a walk knows, and asserts that it knows the text that the walk is at. Interns one more text by it, if there is
/// one. `Err`: no memory.
fn assert_heard_beside<A: Low + Copy>(
    rt: &impl Abort,
    interner: &SharedInterner<A>,
    known: &KnownNames<A>,
    pair: (Symbol, &str),
    more: Option<&String>,
) -> Result<(), AllocError>
    requires { known.now.of ≡ interner.now.of }
{
    let (symbol, text) = pair;
    let mut other = interner.names();
    other.hear(known);
    assert_same(rt, other.get(text), Some(symbol));
    if let Some(text) = more {
        other.intern(text.as_str())?;
    }
    Ok(())
}

/// Asserts that each pair is a text with its symbol, that no pair comes twice, and that each of the first `known` texts comes.
fn assert_once(
    rt: &impl Abort,
    pairs: &[(Symbol, &str)],
    texts: &[String],
    symbols: &[Symbol],
    known: usize,
) {
    let mut met: usize = 0;
    for (place, (text, symbol)) in texts.iter().zip(symbols.iter()).enumerate() {
        let pair = (*symbol, text.as_str());
        let times = pairs.iter().filter(|other| **other == pair).count();
        assert!(rt; times == 1 || times == 0 && known <= place);
        met = met.wrapping_add(times);
    }
    assert_same(rt, met, pairs.len());
}

/// Asserts that a walk returns each text once that was known when it began, and no other text twice, and that a walk of the interner then
/// returns each text. `Err`: no memory.
fn assert_walk<A: Low + Copy>(
    rt: &impl Abort,
    alloc: Global,
    memory: A,
    texts: &[String],
    known: usize,
) -> Result<(), AllocError> {
    let interner = interner_with(rt, memory, 0);
    let pairs = walked(rt, alloc, &interner, texts, known)?;
    let symbols = symbols_of(alloc, &interner, texts)?;
    assert_once(rt, pairs.as_slice(), texts, symbols.as_slice(), known);
    let mut all = Vec::new(alloc);
    for pair in interner.iter() {
        all.push(pair)?;
    }
    assert_once(rt, all.as_slice(), texts, symbols.as_slice(), texts.len());
    Ok(())
}

/// Checks that a walk returns each text with its symbol, also while texts are interned and the interner grows.
#[test]
fn a_walk_gives_each_text_once(rt: HostRuntime) -> Result<(), Fail> {
    for (count, known) in &WALKS {
        let texts = texts_below(rt.alloc(), *count)?;
        let heap = counted(rt.alloc());
        assert_walk(&rt, rt.alloc(), &heap, texts.as_slice(), *known)?;
        assert_none_out(&rt, &heap);
    }
    Ok(())
}
