//! Single-owner interners that are copied into shared ones.
use super::caller::{assert_has, assert_none_out, assert_same, counted, texts_below};
use interner::Interner as Texts;
use shared_interner::{Names, Shared, SharedInterner, Symbol};
use std::alloc::{AllocError, Global};
use std::num::NonZeroU32;
use std::process::Abort;
use std::test::Fail;
use table_cell::Low;
use testkit::refusing::{Refusing, Rule};

/// How many texts are copied. With 10,000 texts the single-owner interner has grown.
const COUNTS: [u32; 4] = [0, 1, 100, 10_000];

/// Makes a single-owner interner of these texts. `Err`: no memory.
fn filled(rt: &impl Abort, alloc: Global, texts: &[String]) -> Result<Texts, AllocError> {
    let mut filled: Texts = Texts::new(alloc);
    let mut number: u32 = 0;
    for text in texts {
        number = number.wrapping_add(1);
        let given = filled.intern_alone(text.as_str());
        assert_same(rt, given.map(|n: NonZeroU32| n.get()), Ok(number));
    }
    Ok(filled)
}

/// Returns the symbols of the numbers 1 to `count`. `Err`: no memory.
fn symbols_to(rt: &impl Abort, alloc: Global, count: u32) -> Result<Vec<Symbol>, AllocError> {
    let mut symbols = Vec::new(alloc);
    for number in 0..count {
        symbols.push(Symbol::from_u32(number + 1).expect(rt, "a symbol"))?;
    }
    Ok(symbols)
}

/// Copies a single-owner interner of `count` texts. Asserts that each text keeps its number, that a handle that hears of the texts knows
/// them, and that a new text gets a new symbol. `Err`: no memory.
fn assert_copied<A: Low + Copy>(
    rt: &impl Abort,
    alloc: Global,
    memory: A,
    count: u32,
) -> Result<(), AllocError> {
    let texts = texts_below(alloc, u64::from(count))?;
    let symbols = symbols_to(rt, alloc, count)?;
    let filled = filled(rt, alloc, texts.as_slice())?;
    let Shared { interner, known } = SharedInterner::copy_of(memory, &filled)?;
    assert_has(rt, &interner, texts.as_slice(), symbols.as_slice());
    let mut names = interner.names();
    names.hear(&known);
    assert_goes_on(rt, &mut names, texts.as_slice(), symbols.as_slice())
}

/// Asserts that a handle knows the last of the texts, and that a new text gets a new symbol. `Err`: no memory.
fn assert_goes_on<A: Low + Copy>(
    rt: &impl Abort,
    names: &mut Names<'_, A>,
    texts: &[String],
    symbols: &[Symbol],
) -> Result<(), AllocError> {
    if let (Some(text), Some(symbol)) = (texts.last(), symbols.last()) {
        assert_same(rt, names.get(text.as_str()), Some(*symbol));
    }
    let new = names.intern("a new text")?;
    assert!(rt; texts.len() < new.to_u32() as usize);
    Ok(())
}

#[test]
fn texts_keep_their_numbers(rt: HostRuntime) -> Result<(), Fail> {
    for count in &COUNTS {
        let heap = counted(rt.alloc());
        assert_copied(&rt, rt.alloc(), &heap, *count)?;
        assert_none_out(&rt, &heap);
    }
    Ok(())
}

/// How many texts are copied while a request is refused.
const FEW: u32 = 100;

/// Copies a single-owner interner. Returns whether memory was refused, and otherwise asserts that each text keeps its symbol.
fn is_refused<A: Low + Copy>(
    rt: &impl Abort,
    memory: A,
    filled: &Texts,
    texts: &[String],
    symbols: &[Symbol],
) -> bool {
    match SharedInterner::copy_of(memory, filled) {
        Ok(shared) => {
            assert_has(rt, &shared.interner, texts, symbols);
            false
        }
        Err(_) => true,
    }
}

/// Checks that a copy leaves no memory allocated, with each request refused in turn.
#[test]
fn a_refused_copy_leaves_nothing(rt: HostRuntime) -> Result<(), Fail> {
    let texts = texts_below(rt.alloc(), u64::from(FEW))?;
    let symbols = symbols_to(&rt, rt.alloc(), FEW)?;
    let filled = filled(&rt, rt.alloc(), texts.as_slice())?;
    let mut refused: u64 = 0;
    for granted in 0u64..200 {
        let heap = Refusing::new(rt.alloc(), Rule::new(0, usize::MAX, granted, 1));
        if is_refused(&rt, &heap, &filled, texts.as_slice(), symbols.as_slice()) {
            refused = refused.wrapping_add(1);
        }
        assert_none_out(&rt, &heap);
    }
    assert!(&rt; 40 < refused && refused < 200, "{refused} refused");
    Ok(())
}
