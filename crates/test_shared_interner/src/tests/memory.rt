//! Interners whose requests for memory are refused.
use super::caller::{
    Heap, assert_has, assert_named, assert_none_out, assert_same, counted, interner_with,
    symbols_of, texts_below,
};
use shared_interner::{SharedInterner, Symbol};
use std::alloc::{AllocError, Global};
use std::process::Abort;
use std::test::Fail;
use table_cell::Low;
use testkit::refusing::{Refusing, Rule};

/// How many texts a run interns.
const TEXTS: u64 = 60;

/// Makes an interner, and tries again if a request is refused. Asserts that a refused try leaves no memory allocated.
fn made_at_last<A: Low + Copy>(rt: &impl Abort, heap: &Heap, memory: A) -> SharedInterner<A> {
    match SharedInterner::new(memory) {
        Ok(interner) => interner,
        Err(_) => {
            assert_none_out(rt, heap);
            SharedInterner::new(memory).expect(rt, "an interner")
        }
    }
}

/// Interns the text, and tries again if a request is refused. Asserts that a refused call adds no text.
fn intern_at_last<A: Low + Copy>(
    rt: &impl Abort,
    interner: &SharedInterner<A>,
    text: &str,
) -> Symbol {
    let before = interner.len();
    match interner.intern(text) {
        Ok(symbol) => symbol,
        Err(_) => {
            assert_same(rt, (interner.get(text), interner.len()), (None, before));
            interner.intern(text).expect(rt, "a symbol")
        }
    }
}

/// Interns the texts, and tries again where a request is refused. Asserts that each text has its symbol at last. Returns how many requests
/// the heap can still refuse. `Err`: no memory.
fn intern_all<A: Low + Copy>(
    rt: &impl Abort,
    alloc: Global,
    heap: &Heap,
    memory: A,
    texts: &[String],
) -> Result<u64, AllocError> {
    let interner = made_at_last(rt, heap, memory);
    let mut symbols = Vec::new(alloc);
    for text in texts {
        symbols.push(intern_at_last(rt, &interner, text.as_str()))?;
    }
    assert_has(rt, &interner, texts, symbols.as_slice());
    Ok(heap.refusals_left())
}

/// Interns the texts while the request after the first `granted` ones is refused. Returns whether a request was refused. `Err`: no memory.
fn run(rt: &impl Abort, alloc: Global, texts: &[String], granted: u64) -> Result<bool, AllocError> {
    let heap = Refusing::new(alloc, Rule::new(0, usize::MAX, granted, 1));
    let left = intern_all(rt, alloc, &heap, &heap, texts)?;
    assert_none_out(rt, &heap);
    Ok(left == 0)
}

/// Refuses each request of a run in turn. Returns how many requests a run makes, at most 200. `Err`: no memory.
fn run_each(rt: &impl Abort, alloc: Global) -> Result<u64, AllocError> {
    let texts = texts_below(alloc, TEXTS)?;
    for granted in 0..200 {
        if !run(rt, alloc, texts.as_slice(), granted)? {
            return Ok(granted);
        }
    }
    Ok(200)
}

#[test]
fn each_request_refused_in_turn(rt: HostRuntime) -> Result<(), Fail> {
    let turns = run_each(&rt, rt.alloc())?;
    assert!(&rt; 40 < turns && turns < 200, "{turns} turns");
    Ok(())
}

/// Asserts that calls on known texts make no request for memory, and that a new text is refused without memory. `Err`: no memory.
fn assert_known_need_none<A: Low + Copy>(
    rt: &impl Abort,
    alloc: Global,
    heap: &Heap,
    memory: A,
) -> Result<(), AllocError> {
    let interner = interner_with(rt, memory, 0);
    let texts = texts_below(alloc, TEXTS)?;
    let symbols = symbols_of(alloc, &interner, texts.as_slice())?;
    let granted = heap.granted();
    heap.refuse(0, u64::MAX);
    assert_has(rt, &interner, texts.as_slice(), symbols.as_slice());
    assert_same(
        rt,
        (heap.granted(), heap.refusals_left()),
        (granted, u64::MAX),
    );
    let long = "a text that is long, and that is not there";
    assert!(rt; interner.intern(long).is_err() && interner.get(long).is_none());
    assert_has(rt, &interner, texts.as_slice(), symbols.as_slice());
    heap.refuse(0, 0);
    let symbol = interner.intern(long)?;
    assert_named(rt, &interner, long, symbol);
    Ok(())
}

#[test]
fn a_known_text_needs_no_memory(rt: HostRuntime) -> Result<(), Fail> {
    let heap = counted(rt.alloc());
    assert_known_need_none(&rt, rt.alloc(), &heap, &heap)?;
    assert_none_out(&rt, &heap);
    Ok(())
}
