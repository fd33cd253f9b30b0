//! Inserts that are dropped before their end, after each number of steps.
ghost use Rattle.table_shared.specs.Stepped.{MayStep};

use std::alloc::{AllocError, Global};
use std::process::Abort;
use std::sync::atomic::{AtomicU64, Ordering};
use std::sync::{Arc, Wait};
use std::test::Fail;
use table_cell::Low;
use table_shared::{InsertCall, LockFreeRawTable, Progress};
use testkit::counting::Counting;
use testkit::refusing::{Refusing, Rule};

type Table<A> = LockFreeRawTable<Box<Counting>, A>;

/// An insert of a number into a table that has other entries. Each number is its own hash, and the first generation has 16 buckets. It is
/// given by:
/// - The number of entries. They are the numbers below it.
/// - The number that is inserted.
/// - The number that another insert places once this one has come to an empty bucket, by its third step.
/// - How many of its requests for memory are granted before those that are refused, and how many are refused.
/// - The numbers of the step that places its value and of its last step.
type Course = (u64, u64, Option<u64>, (u64, u64), (u64, u64));

/// A course, and the number of steps after which its insert is dropped.
type Cut<'c> = (&'c Course, u64);

/// Returns the number of entries other than the value of this insert. Another value was placed meanwhile if `joined`.
fn entries_with(course: &Course, joined: bool) -> u64 {
    let (entries, ..) = *course;
    entries.wrapping_add(u64::from(joined))
}

/// Returns whether another entry is equal to the value of this insert.
fn knows(course: &Course, joined: bool) -> bool {
    let (entries, number, meanwhile, ..) = *course;
    number < entries || (joined && meanwhile == Some(number))
}

/// A step that is never taken.
const NEVER: u64 = u64::MAX;

/// The first number whose insert asks for growth, if all numbers below it are entries.
const GROWS: u64 = 7;

/// The number of steps in which an insert comes to its first bucket, if that is empty.
const TO_EMPTY: u64 = 3;

const COURSES: [Course; 10] = [
    // It makes the first generation in seven steps. In seven more it places its value and ends.
    (0, 0, None, (0, 0), (11, 14)),
    // It places its value, and there is no growth.
    (1, 1, None, (0, 0), (4, 7)),
    // It places its value, and copies eight entries.
    (7, 7, None, (0, 0), (4, 19)),
    // The first generation is refused.
    (0, 0, None, (0, 1), (NEVER, 6)),
    // The block of its value is refused.
    (1, 1, None, (0, 1), (NEVER, 5)),
    // It places its value, and growth is refused.
    (7, 7, None, (1, 1), (4, 10)),
    // It finds an equal entry.
    (1, 0, None, (0, 0), (NEVER, 5)),
    // It loses its exchange to an equal number.
    (1, 1, Some(1), (0, 0), (NEVER, 6)),
    // It loses its exchange to another number with the same first bucket, and is placed in the next bucket.
    (1, 1, Some(17), (0, 0), (6, 9)),
    // Each bucket is set. It copies 16 entries, places its value, and copies 17.
    (16, 16, None, (0, 0), (43, 67)),
];

/// Takes `times` steps, and returns whether the last of them ended the call.
fn advance_times<A: Low + Copy, E: Fn(&Counting, &Counting) -> bool, H: Fn(&Counting) -> u64>(
    call: &mut InsertCall<'_, Box<Counting>, A, E, H>,
    times: u64,
) -> bool
    requires may_step { MayStep E.IsAlwaysCallable H.IsAlwaysCallable (λ b. b.value) E.Fn call.old }
    ensures may_step { MayStep E.IsAlwaysCallable H.IsAlwaysCallable (λ b. b.value) E.Fn call.new }
{
    let mut ended = false;
    for _ in 0..times {
        ended = matches!(call.advance(), Progress::Done(_));
    }
    ended
}

/// Returns whether an insert places the number.
fn places<R: Wait, A: Low + Copy>(rt: &R, table: &Table<A>, value: Box<Counting>) -> bool {
    let number = value.number;
    matches!(
        table.insert(
            rt,
            number,
            value,
            |a: &Counting, b: &Counting| a.number == b.number,
            |a: &Counting| a.number,
        ),
        Ok((_, None))
    )
}

/// Returns whether a look-up finds the number.
fn contains<A: Low + Copy>(table: &Table<A>, number: u64) -> bool {
    table
        .lookup(number, |entry: &Counting| entry.number == number)
        .is_some()
}

/// Places the numbers below `entries`. Makes the heap refuse each growth beyond the first generation. `Err`: no memory.
fn fill<R: Wait + Abort, A: Low + Copy>(
    rt: &R,
    alloc: Global,
    heap: &Refusing<Global>,
    table: &Table<A>,
    entries: u64,
    drops: &Arc<AtomicU64>,
) -> Result<(), AllocError> {
    for number in 0..entries {
        if GROWS <= number {
            heap.refuse(1, 1);
        }
        let value = Box::new(alloc, Counting::new(number, drops.clone()?))?;
        assert!(rt; places(rt, table, value));
    }
    heap.refuse(0, 0);
    Ok(())
}

/// Takes `steps` steps of the course's insert, and drops it. Places the other number after the third step, if there is one.
fn give_up_after<R: Wait + Abort, A: Low + Copy>(
    rt: &R,
    table: &Table<A>,
    value: Box<Counting>,
    other: Option<Box<Counting>>,
    course: &Course,
    steps: u64,
) {
    let (_, number, _, _, (_, ended_at)) = *course;
    let mut call = InsertCall::new(
        table,
        number,
        value,
        |a: &Counting, b: &Counting| a.number == b.number,
        |a: &Counting| a.number,
    );
    let before = steps.min(TO_EMPTY);
    let mut ended = advance_times(&mut call, before);
    if let Some(other) = other {
        assert!(rt; places(rt, table, other));
    }
    if before < steps {
        ended = advance_times(&mut call, steps.wrapping_sub(before));
    }
    assert_count(rt, u64::from(ended), u64::from(steps == ended_at), steps);
}

/// Returns the number that another insert places meanwhile, in a box, if this insert takes enough steps for that. `Err`: no memory.
fn other_of(
    alloc: Global,
    course: &Course,
    steps: u64,
    drops: &Arc<AtomicU64>,
) -> Result<Option<Box<Counting>>, AllocError> {
    let (_, _, meanwhile, ..) = *course;
    match meanwhile {
        Some(number) if TO_EMPTY <= steps => Ok(Some(Box::new(
            alloc,
            Counting::new(number, drops.clone()?),
        )?)),
        _ => Ok(None),
    }
}

/// Asserts that a count is what is wanted. `steps` is printed if it isn't.
fn assert_count(rt: &impl Abort, counted: u64, wanted: u64, steps: u64) {
    assert_eq!(rt; counted, wanted, "{steps}");
}

/// Asserts that another value is placed and found after an insert was dropped, and that the table then has `entries` + 1 entries.
fn assert_goes_on<R: Wait + Abort, A: Low + Copy>(
    rt: &R,
    table: &Table<A>,
    value: Box<Counting>,
    entries: u64,
    steps: u64,
) {
    let next = value.number;
    assert_count(rt, u64::from(places(rt, table, value)), 1, steps);
    assert_count(rt, u64::from(contains(table, next)), 1, steps);
    assert_count(rt, table.len() as u64, entries.wrapping_add(1), steps);
}

/// Drops the insert of the course after `steps` steps, and then places another number. Returns whether another value was placed meanwhile.
/// The heap refuses the requests that the course names. `Err`: no memory.
fn give_up_and_go_on<R: Wait + Abort, A: Low + Copy>(
    rt: &R,
    alloc: Global,
    heap: &Refusing<Global>,
    memory: A,
    (course, steps): Cut<'_>,
    counts: (&Arc<AtomicU64>, &Arc<AtomicU64>),
) -> Result<bool, AllocError> {
    let (drops, others) = counts;
    let (entries, number, _, (passing, refused), (placed_at, _)) = *course;
    let table: Table<A> = LockFreeRawTable::new(memory);
    fill(rt, alloc, heap, &table, entries, others)?;
    heap.refuse(passing, refused);
    let other = other_of(alloc, course, steps, others)?;
    let joined = other.is_some();
    let value = Box::new(alloc, Counting::new(number, drops.clone()?))?;
    give_up_after(rt, &table, value, other, course, steps);
    heap.refuse(0, 0);
    let placed = placed_at <= steps;
    assert_count(rt, drops.load(Ordering::SeqCst), u64::from(!placed), steps);
    let known = placed || knows(course, joined);
    assert_count(
        rt,
        u64::from(contains(&table, number)),
        u64::from(known),
        steps,
    );
    let next = Counting::new(entries.wrapping_add(1), others.clone()?);
    let there = entries_with(course, joined).wrapping_add(u64::from(placed));
    assert_goes_on(rt, &table, Box::new(alloc, next)?, there, steps);
    Ok(joined)
}

/// Asserts that the value of an insert that is dropped after `steps` steps is an entry or was dropped once, that the next insert ends, and
/// that all memory is given back. `Err`: no memory.
fn assert_given_up<R: Wait + Abort>(
    rt: &R,
    alloc: Global,
    course: &Course,
    steps: u64,
) -> Result<(), Fail> {
    let heap = Refusing::new(alloc, Rule::new(0, usize::MAX, 0, 0));
    let drops = Arc::new(alloc, AtomicU64::new(0))?;
    let others = Arc::new(alloc, AtomicU64::new(0))?;
    let counts = (&drops, &others);
    let joined = give_up_and_go_on(rt, alloc, &heap, &heap, (course, steps), counts)?;
    assert_count(rt, drops.load(Ordering::SeqCst), 1, steps);
    let there = entries_with(course, joined).wrapping_add(1);
    assert_count(rt, others.load(Ordering::SeqCst), there, steps);
    assert_count(rt, heap.given_back(), heap.granted(), steps);
    Ok(())
}

#[test]
fn inserts_that_are_given_up(rt: HostRuntime) -> Result<(), Fail> {
    for course in &COURSES {
        let (_, _, _, _, (_, ended_at)) = *course;
        for steps in 0..ended_at.wrapping_add(1) {
            assert_given_up(&rt, rt.alloc(), course, steps)?;
        }
    }
    Ok(())
}
