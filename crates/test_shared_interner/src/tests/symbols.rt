//! Symbols as numbers.
use super::caller::assert_same;
use shared_interner::{SharedInterner, Symbol, Text};
use std::mem::size_of;
use std::process::Abort;
use std::test::Fail;
use table_sets::{NumberLaw, SetLaw};

/// Numbers of symbols that no text has.
const NONE: [u32; 4] = [1000, 1 << 20, u32::MAX - 1, u32::MAX];

#[test]
fn symbols_are_numbers_above_zero(rt: HostRuntime) {
    assert_same(&rt, Symbol::from_u32(0), None);
    for number in [1, 2, 1 << 31, u32::MAX] {
        let symbol = Symbol::from_u32(number);
        assert_same(&rt, symbol.map(|s: Symbol| s.to_u32()), Some(number));
        assert!(rt; symbol == Symbol::from_u32(number) && symbol != Symbol::from_u32(number - 1));
    }
    assert!(rt; Symbol::from_u32(1) < Symbol::from_u32(2));
    assert_same(&rt, size_of::<Symbol>(), 4);
    assert_same(&rt, size_of::<Text>(), 24);
}

/// Numbers of symbols, and the hash of each symbol by `NumberLaw`. Another program computed the hashes.
const HASHES: [(u32, u64); 3] = [
    (1, 0x382C_6B14_BA5F_441A),
    (2, 0x7980_1DCC_73DB_173E),
    (65537, 0x43E4_1090_0981_85B6),
];

#[test]
fn symbols_have_the_law_of_their_numbers(rt: HostRuntime) {
    let first = Symbol::from_u32(1).expect(&rt, "a symbol");
    for (number, hash) in &HASHES {
        let symbol = Symbol::from_u32(*number).expect(&rt, "a symbol");
        assert_same(&rt, NumberLaw::hash(&symbol), *hash);
        assert_same(&rt, NumberLaw::is_same(&symbol, &first), *number == 1);
    }
}

/// Asserts that each call returns no text for the symbols of these numbers.
fn assert_none(rt: &impl Abort, interner: &SharedInterner) {
    let mut names = interner.names();
    for number in &NONE {
        let symbol = Symbol::from_u32(*number).expect(rt, "a symbol");
        assert_same(rt, interner.text(symbol), None);
        assert_same(rt, names.text(symbol), None);
    }
}

/// Checks that an unknown symbol has no text, before the first text is interned and after it.
#[test]
fn unknown_symbols_have_no_text(rt: HostRuntime) -> Result<(), Fail> {
    let interner = SharedInterner::new(rt.alloc())?;
    assert_none(&rt, &interner);
    interner.intern("a")?;
    assert_none(&rt, &interner);
    Ok(())
}

/// Checks that a symbol can be made again from its number, and that it has the same text.
#[test]
fn a_symbol_comes_back_from_its_number(rt: HostRuntime) -> Result<(), Fail> {
    let interner = SharedInterner::new(rt.alloc())?;
    let symbol = interner.intern("a")?;
    let again = Symbol::from_u32(symbol.to_u32()).expect(&rt, "a symbol");
    assert_same(&rt, again, symbol);
    assert_same(&rt, interner.text(again), Some("a"));
    Ok(())
}
