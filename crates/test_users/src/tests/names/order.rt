//! The requests for memory that an interner makes, and their order.
use super::{assert_same, text_of};
use interner::{Interner, Refused};
use std::alloc::{Allocator, Global};
use std::process::Abort;
use std::test::Fail;
use testkit::refusing::{Refusing, Rule};

/// The texts that are interned first. The next text finds no room in the vector.
const FIRST: [&str; 4] = ["one", "two", "three", "four"];

/// How many bytes the next text has.
const LONG: usize = 5000;

/// The least and the most bytes of each request that the next text makes, in order: for the vector's room, for the text's bytes, and for
/// the table's block of its number.
const ORDER: [(usize, usize); 3] = [(100, 1000), (LONG, LONG), (1, 64)];

/// Makes an interner on this memory, and interns the first texts.
fn interner_of_first<A: Allocator + Copy>(rt: &impl Abort, memory: A) -> Interner<A> {
    let mut interner = Interner::new(memory);
    for text in &FIRST {
        assert!(rt; interner.intern_alone(*text).is_ok());
    }
    interner
}

/// Interns the text over this memory while the heap refuses the next request that its rule counts. Returns how many requests the text was
/// granted before that one.
fn granted_before<A: Allocator + Copy>(
    rt: &impl Abort,
    heap: &Refusing<Global>,
    memory: A,
    text: &str,
) -> u64 {
    let mut interner = interner_of_first(rt, memory);
    heap.refuse(0, 1);
    let before = heap.granted();
    assert!(rt; interner.intern_alone(text) == Err(Refused::NoMemory));
    assert_same(rt, heap.refusals_left(), 0);
    let granted = heap.granted().wrapping_sub(before);
    assert_same(rt, interner.len_alone(), FIRST.len());
    assert!(rt;
        interner
            .intern_alone(text)
            .is_ok_and(|number| number.get() == 5)
    );
    granted
}

/// Checks that the interner requests the room of the vector first, then the bytes of the text, and the table's block last.
#[test]
fn room_then_the_text_then_the_table(rt: HostRuntime) -> Result<(), Fail> {
    let text = "x".repeat(rt.alloc(), LONG)?;
    for (place, (least, most)) in ORDER.iter().enumerate() {
        let heap = Refusing::new(rt.alloc(), Rule::new(*least, *most, 0, 0));
        let granted = granted_before(&rt, &heap, &heap, text.as_str());
        assert_same(&rt, granted, place as u64);
    }
    Ok(())
}

/// Asserts that no number up to the greatest is left for a new text, and that a known one has its number.
fn assert_none_left<A: Allocator + Copy>(
    rt: &impl Abort,
    interner: &mut Interner<A>,
    greatest: u32,
) {
    assert!(rt; interner.intern_up_to("five", greatest) == Err(Refused::Numbers));
    assert!(rt;
        interner
            .intern_up_to("four", greatest)
            .is_ok_and(|number| number.get() == 4)
    );
}

/// Asserts that a new text for which no number is left makes no request for memory and changes nothing. The heap counts the requests of the
/// memory.
fn assert_no_request<A: Allocator + Copy>(rt: &impl Abort, heap: &Refusing<Global>, memory: A) {
    let mut interner = interner_of_first(rt, memory);
    let granted = heap.granted();
    assert!(rt; granted != 0);
    heap.refuse(0, u64::MAX);
    for greatest in [0, 1, 4] {
        assert_none_left(rt, &mut interner, greatest);
    }
    assert_same(rt, heap.granted(), granted);
    assert_same(rt, heap.refusals_left(), u64::MAX);
    assert_same(rt, interner.len_alone(), FIRST.len());
    assert_same(rt, text_of(&interner, 5), None);
    heap.refuse(0, 0);
    assert_one_left(rt, &mut interner);
}

/// Asserts that number 5 is left, and no further one.
fn assert_one_left<A: Allocator + Copy>(rt: &impl Abort, interner: &mut Interner<A>) {
    assert!(rt;
        interner
            .intern_up_to("five", 5)
            .is_ok_and(|number| number.get() == 5)
    );
    assert!(rt; interner.intern_up_to("six", 5) == Err(Refused::Numbers));
}

#[test]
fn want_of_numbers_asks_for_no_memory(rt: HostRuntime) {
    let heap = Refusing::new(rt.alloc(), Rule::new(0, usize::MAX, u64::MAX, 0));
    assert_no_request(&rt, &heap, &heap);
}
