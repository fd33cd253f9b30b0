//! Two threads give symbols to the words of a text. Equal words have one symbol, which gives the word back.
#![tactic(auto)]

use shared_interner::{SharedInterner, Symbol};
use std::alloc::AllocError;
use std::{io, thread};

/// Interns the words of the line, and returns the symbol of the last one. `Err`: no memory.
fn intern_words(interner: &SharedInterner, line: &str) -> Result<Option<Symbol>, AllocError> {
    let mut names = interner.names();
    let mut last = None;
    for word in line.split_whitespace() {
        last = Some(names.intern(word)?);
    }
    Ok(last)
}

fn main(rt: HostRuntime) -> io::Result<()> {
    let interner = SharedInterner::new(rt.alloc())?;
    let (here, there) = thread::join(
        &rt,
        || intern_words(&interner, "to be or not to be"),
        || intern_words(&interner, "that is to be"),
    );
    let (here, there) = (here?, there?);
    println!(rt; "different words: {}", interner.len())?;
    println!(rt; "both lines end with one word: {}", here == there)?;
    if let Some(symbol) = here
        && let Some(word) = interner.text(symbol)
    {
        println!(rt; "the word: {word}")?;
    }
    Ok(())
}
