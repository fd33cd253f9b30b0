//! Tests of refused memory: the answers, what the table keeps, and which later insert grows it.
use super::assert_same;
use super::pairs::{End, Pairs};
use std::alloc::{AllocError, Allocator, Global};
use std::ops::Range;
use std::process::Abort;
use std::test::Fail;
use testkit::refusing::{Refusing, Rule};

/// A request for the block of an entry is smaller than this, and no other request of a table is.
const BLOCK: usize = 32;

/// Makes a rule for the requests of growth: the marks and the words of a generation, and before them room to keep the earlier one.
fn growth(passing: u64, refused: u64) -> Rule {
    Rule::new(BLOCK, usize::MAX, passing, refused)
}

/// Makes a rule for the requests for blocks of entries.
fn blocks(passing: u64, refused: u64) -> Rule {
    Rule::new(0, BLOCK - 1, passing, refused)
}

/// A step of a test: inserts into a table whose memory is refused, or an assertion about it.
#[derive(Clone, Copy)]
enum Step {
    /// Places the numbers from the first up to the second, exclusive, and asserts this capacity after each.
    Places(u64, u64, usize),
    /// Inserts the number, and asserts how the insert ends.
    Ends(u64, End),
    /// Asserts the number of entries and of buckets of the current generation, and that no refusals are left.
    Has(usize, usize),
    /// Asserts whether the numbers from the first up to the second, exclusive, are entries.
    Shows(u64, u64, bool),
}

/// How many requests of growth are granted, how many are refused then, and the steps.
type Course = (u64, u64, &'static [Step]);

const COURSES: [Course; 5] = [
    (0, 1, NO_FIRST_GENERATION),
    (2, 11, NO_SECOND_GENERATION),
    (5, 18, NO_THIRD_GENERATION),
    (2, 1, AFTER_THE_NEXT_VALUE),
    (2, 1, AFTER_A_FOUND_VALUE),
];

const NO_FIRST_GENERATION: &[Step] = &[
    Step::Ends(1, End::Refused),
    Step::Has(0, 0),
    Step::Ends(1, End::Placed),
    Step::Has(1, 16),
];

/// The eighth to the sixteenth insert, the seventeenth, and the one that finds its value each try to grow the table once.
const NO_SECOND_GENERATION: &[Step] = &[
    Step::Places(0, 16, 16),
    Step::Ends(16, End::Refused),
    Step::Ends(4, End::Found),
    Step::Has(16, 16),
    Step::Shows(0, 16, true),
    Step::Ends(16, End::Placed),
    Step::Has(17, 64),
];

/// The sixteenth to the thirty-second insert and the next one each try to grow the table once.
const NO_THIRD_GENERATION: &[Step] = &[
    Step::Places(0, 7, 16),
    Step::Places(7, 32, 32),
    Step::Ends(32, End::Refused),
    Step::Has(32, 32),
    Step::Ends(32, End::Placed),
    Step::Has(33, 128),
];

const AFTER_THE_NEXT_VALUE: &[Step] = &[Step::Places(0, 8, 16), Step::Places(8, 15, 32)];

const AFTER_A_FOUND_VALUE: &[Step] = &[
    Step::Places(0, 8, 16),
    Step::Ends(3, End::Found),
    Step::Has(8, 32),
];

/// An insert whose block is refused ends before it tries to grow the table. The next insert grows it.
const NO_BLOCK: &[Step] = &[
    Step::Places(0, 8, 16),
    Step::Ends(8, End::Refused),
    Step::Has(8, 16),
    Step::Shows(8, 9, false),
    Step::Ends(0, End::Found),
    Step::Has(8, 32),
    Step::Ends(8, End::Placed),
    Step::Has(9, 32),
];

/// Asserts whether the pairs `(number, number)` of these numbers are entries.
fn assert_all_shown<A: Allocator + Copy>(
    rt: &impl Abort,
    pairs: &Pairs<A>,
    numbers: Range<u64>,
    is_entry: bool,
) {
    for number in numbers {
        pairs.assert_shown(rt, (number, number), is_entry);
    }
}

/// Takes the step. `Err`: no memory for a pair.
fn take<B: Allocator, A: Allocator + Copy>(
    rt: &impl Abort,
    heap: &Refusing<B>,
    pairs: &mut Pairs<A>,
    step: Step,
) -> Result<(), AllocError> {
    match step {
        Step::Places(first, end, capacity) => pairs.assert_placed(rt, first..end, capacity)?,
        Step::Ends(number, end) => pairs.assert_end(rt, number, end)?,
        Step::Has(entries, capacity) => {
            assert_same(rt, heap.refusals_left(), 0);
            pairs.assert_size(rt, entries, capacity);
        }
        Step::Shows(first, end, is_entry) => assert_all_shown(rt, pairs, first..end, is_entry),
    }
    Ok(())
}

/// Takes the steps on a new table over this memory, whose requests the heap refuses. `Err`: no memory for a pair.
fn take_all<B: Allocator, A: Allocator + Copy>(
    rt: &impl Abort,
    heap: &Refusing<B>,
    memory: A,
    alloc: Global,
    steps: &[Step],
) -> Result<(), AllocError> {
    let mut pairs = Pairs::of(memory, alloc);
    for step in steps {
        take(rt, heap, &mut pairs, *step)?;
    }
    Ok(())
}

#[test]
fn growth_that_is_refused_comes_later(rt: HostRuntime) -> Result<(), Fail> {
    for (granted, refused, steps) in &COURSES {
        let heap = Refusing::new(rt.alloc(), growth(*granted, *refused));
        take_all(&rt, &heap, &heap, rt.alloc(), *steps)?;
    }
    Ok(())
}

#[test]
fn no_block(rt: HostRuntime) -> Result<(), Fail> {
    let below = Refusing::new(rt.alloc(), growth(2, 1));
    let heap = Refusing::new(&below, blocks(8, 1));
    take_all(&rt, &heap, &heap, rt.alloc(), NO_BLOCK)?;
    Ok(())
}
