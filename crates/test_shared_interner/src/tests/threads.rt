//! Threads that intern the same texts.
use super::caller::{
    Heap, assert_has, assert_named, assert_none_out, assert_same, counted, interner_with,
    symbols_of, texts_below,
};
use shared_interner::example::{Given, intern_by_two};
use shared_interner::{SharedInterner, Symbol};
use std::alloc::{AllocError, Global};
use std::process::Abort;
use std::test::Fail;
use std::thread;
use std::thread::Threads;
use table_cell::Low;

/// How many texts there are.
const TEXTS: u64 = 500;

/// How many threads there are.
const THREADS: usize = 4;

/// Interns each text. Each thread begins with another text, and two of the threads intern without a handle. `Err`: no memory.
fn intern_from<A: Low + Copy>(
    interner: &SharedInterner<A>,
    texts: &[String],
    thread: usize,
) -> Result<(), AllocError> {
    let mut names = interner.names();
    let first = thread % THREADS * 125;
    for text in texts.iter().skip(first).chain(texts.iter().take(first)) {
        if thread % 2 == 0 {
            names.intern(text.as_str())?;
        } else {
            interner.intern(text.as_str())?;
        }
    }
    Ok(())
}

/// Interns each text, and then returns the symbols in the order of the texts. `Err`: no memory.
fn symbols_by<A: Low + Copy>(
    interner: &SharedInterner<A>,
    alloc: Global,
    texts: &[String],
    thread: usize,
) -> Result<Vec<Symbol>, AllocError> {
    intern_from(interner, texts, thread)?;
    symbols_of(alloc, interner, texts)
}

/// Lets threads intern the same texts. Asserts that all threads get the same symbols, one for each text. `Err`: no memory.
fn assert_one_symbol<R: Threads + Abort + Sync, A: Low + Copy + Send + Sync>(
    rt: &R,
    alloc: Global,
    memory: A,
) -> Result<(), AllocError> {
    let interner = interner_with(rt, memory, 0);
    let texts = texts_below(alloc, TEXTS)?;
    let answers = thread::map_indices(
        rt,
        alloc,
        THREADS,
        &|thread: usize| symbols_by(&interner, alloc, texts.as_slice(), thread),
    )?;
    assert_same(rt, answers.len(), THREADS);
    for symbols in answers {
        assert_has(rt, &interner, texts.as_slice(), symbols?.as_slice());
    }
    Ok(())
}

#[test]
fn threads_have_one_symbol_of_a_text(rt: HostRuntime) -> Result<(), Fail> {
    for _round in 0..10 {
        let heap = counted(rt.alloc());
        assert_one_symbol(&rt, rt.alloc(), &heap)?;
        assert_none_out(&rt, &heap);
    }
    Ok(())
}

/// The texts that two threads intern at once. The first lies in the slot of its entry, and the second in a block of its own.
const GIVEN: [&str; 2] = ["a", "a text that lies in a block of its own"];

/// Lets two threads intern one text at once. Asserts that they get one symbol, and that a handle that hears of it knows the text. `Err`: no
/// memory.
fn assert_given_one<R: Threads + Abort + Sync, A: Low + Copy + Send + Sync>(
    rt: &R,
    memory: A,
) -> Result<(), AllocError> {
    let interner = interner_with(rt, memory, 0);
    for text in &GIVEN {
        let (Given { symbol, known }, other) = intern_by_two(rt, &interner, *text)?;
        assert_same(rt, other, symbol);
        let mut names = interner.names();
        names.hear(&known);
        assert_same(rt, names.text(symbol), Some(*text));
        assert_named(rt, &interner, *text, symbol);
    }
    assert_same(rt, interner.len(), GIVEN.len() as u64);
    Ok(())
}

#[test]
fn two_threads_are_given_one_symbol(rt: HostRuntime) -> Result<(), Fail> {
    let heap = counted(rt.alloc());
    assert_given_one(&rt, &heap)?;
    assert_none_out(&rt, &heap);
    Ok(())
}

/// Lets two threads intern one text while the request after the first `granted` ones is refused. Returns whether one of them had no memory,
/// and otherwise asserts that they get one symbol.
fn is_refused<R: Threads + Abort + Sync, A: Low + Copy + Send + Sync>(
    rt: &R,
    heap: &Heap,
    memory: A,
    granted: u64,
) -> bool {
    let interner = interner_with(rt, memory, 0);
    heap.refuse(granted, 1);
    match intern_by_two(rt, &interner, GIVEN[1]) {
        Ok((given, other)) => {
            assert_same(rt, other, given.symbol);
            false
        }
        Err(_) => true,
    }
}

/// Checks that no memory stays allocated if a request of one of two threads is refused.
#[test]
fn two_threads_leave_nothing_where_memory_is_refused(rt: HostRuntime) {
    let mut refused: u64 = 0;
    for granted in 0u64..20 {
        let heap = counted(rt.alloc());
        if is_refused(&rt, &heap, &heap, granted) {
            refused = refused.wrapping_add(1);
        }
        assert_none_out(&rt, &heap);
    }
    assert!(&rt; 0 < refused && refused < 20, "{refused} refused");
}
