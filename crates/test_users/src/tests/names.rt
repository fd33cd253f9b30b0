//! Tests of the interner.
mod memory;
mod order;
mod texts;

use super::assert_same;
use interner::{Interner, Refused};
use std::alloc::Allocator;
use std::num::NonZeroU32;
use std::process::Abort;

/// Interns the text and returns its number, or 0 if memory was refused. Asserts that the interner has numbers left.
fn intern<A: Allocator + Copy>(rt: &impl Abort, interner: &mut Interner<A>, text: &str) -> u32 {
    match interner.intern_alone(text) {
        Ok(number) => number.get(),
        Err(refused) => {
            assert_same(rt, refused, Refused::NoMemory);
            0
        }
    }
}

/// Returns the text of the number. `None` means that the number is 0, or that no text has it.
fn text_of<A: Allocator + Copy>(interner: &Interner<A>, number: u32) -> Option<&str> {
    let number = NonZeroU32::new(number)?;
    interner.text_alone(number)
}

/// Asserts that the text has the number, and the number the text. The number 0 means that the text isn't interned.
fn assert_named<A: Allocator + Copy>(
    rt: &impl Abort,
    interner: &Interner<A>,
    text: &str,
    number: u32,
) {
    let found = interner.number_alone(text).map_or(0, NonZeroU32::get);
    assert_same(rt, found, number);
    let named = if number == 0 { None } else { Some(text) };
    assert_same(rt, text_of(interner, number), named);
}
