//! Tests of number tables: a seat finds the numbers that another seat placed, each number is placed once, and only an insert writes.
ghost use Rattle.std.specs.Prelude.{All, IfOk};
ghost use Rattle.seated.specs.Tables.{IsSeatOf};

use crate::same::assert_same;
use seated::{NumberAnswer, NumberTable, Seat};
use std::alloc::{AllocError, Allocator, Global};
use std::num::NonZeroU64;
use std::process::Abort;
use std::test::Fail;
use std::thread;
use std::thread::Threads;
use testkit::refusing::{Refusing, Rule};

/// The numbers below 128 for which a seat got each answer. Bit n of a word is set for the number n.
#[derive(Clone, Copy)]
struct AnswerBits {
    placed: u128,
    found: u128,
    full: u128,
}

const NOTHING: AnswerBits = AnswerBits {
    placed: 0,
    found: 0,
    full: 0,
};

/// Sizes of tables: small ones, in which probes soon wrap, and one of more than a page.
const SIZES: [usize; 4] = [1, 2, 4, 8192];

/// The words of a table of 16 buckets after the inserts of 3, 19, 40, 5, 21 and 1000.
const HANDED_IN: [u64; 16] = [0, 0, 0, 3, 19, 5, 21, 0, 40, 1000, 0, 0, 0, 0, 0, 0];

/// How many requests for memory `new` makes.
const REQUESTS: u64 = 3;

/// Returns a word whose bits 1 to `last` are set.
fn numbers_to(last: u32) -> u128 {
    (1..=last).fold(0, |bits, n| bits | bit(n))
}

fn bit(n: u32) -> u128 {
    1u128.wrapping_shl(n)
}

/// A table and its first seat.
type First<A> = (NumberTable<A>, Seat);

/// Makes a table of `count` words, and returns it with its first seat. `Err`: no memory.
fn table_of<A: Allocator + Copy>(
    rt: &impl Abort,
    alloc: A,
    count: usize,
) -> Result<First<A>, AllocError>
    ensures { IfOk result (λ r. IsSeatOf r.0 r.1) }
{
    assert!(rt; count.is_power_of_two());
    NumberTable::new(alloc, count)
}

/// Inserts 1 to `last`, in order. Returns the seat and the answers.
fn insert_to<A: Allocator + Copy>(
    table: &NumberTable<A>,
    mut seat: Seat,
    last: u32,
) -> (Seat, AnswerBits)
    requires { IsSeatOf table.now seat }
    ensures { IsSeatOf table.entry.now result.0 }
{
    let mut answers = NOTHING;
    for n in 1..=last {
        if let Some(v) = NonZeroU64::new(u64::from(n)) {
            match table.insert(&mut seat, v) {
                NumberAnswer::Placed => answers.placed |= bit(n),
                NumberAnswer::Found => answers.found |= bit(n),
                NumberAnswer::Full => answers.full |= bit(n),
            }
        }
    }
    (seat, answers)
}

/// Inserts a number. Asserts that it is placed, and that the seat finds it afterwards and not before.
fn insert_new(rt: &impl Abort, table: &NumberTable<Global>, seat: &mut Seat, n: u64)
    requires { IsSeatOf table.now seat.old }
    ensures { IsSeatOf table.now seat.new }
{
    if let Some(v) = NonZeroU64::new(n) {
        let before = table.contains(seat, v);
        let answer = table.insert(seat, v);
        let after = table.contains(seat, v);
        let wanted = (n, false, NumberAnswer::Placed, true);
        assert_same(rt, (n, before, answer, after), wanted);
    }
}

/// Inserts numbers that aren't in the table, in order. Returns the seat.
fn insert_each(
    rt: &impl Abort,
    table: &NumberTable<Global>,
    mut seat: Seat,
    numbers: &[u64],
) -> Seat
    requires { IsSeatOf table.now seat }
    ensures { IsSeatOf table.entry.now result }
{
    for &n in numbers {
        insert_new(rt, table, &mut seat, n);
    }
    seat
}

/// Asserts that the table is full and doesn't have this number.
fn assert_full(rt: &impl Abort, table: &NumberTable<Global>, seat: &mut Seat, n: u64)
    requires { IsSeatOf table.now seat.old }
    ensures { IsSeatOf table.now seat.new }
{
    if let Some(v) = NonZeroU64::new(n) {
        assert_same(rt, table.insert(seat, v), NumberAnswer::Full);
        assert!(rt; !table.contains(seat, v));
    }
}

/// Asserts that there are `count` words and that each holds the number of its bucket. The first holds `count`, whose first bucket it is.
fn assert_filled(rt: &impl Abort, words: &[u64], count: u64) {
    assert_same(rt, words.len() as u64, count);
    for (word, bucket) in words.iter().zip(0u64..) {
        assert_same(rt, *word, if bucket == 0 { count } else { bucket });
    }
}

/// Returns the numbers up to `last` that the seat finds, as the bits of a word.
fn found_to(table: &NumberTable<Global>, seat: &mut Seat, last: u32) -> u128
    requires { IsSeatOf table.now seat.old }
    ensures { IsSeatOf table.now seat.new }
{
    let mut found = 0;
    for n in 1..=last {
        if let Some(v) = NonZeroU64::new(u64::from(n)) {
            if table.contains(seat, v) {
                found |= bit(n);
            }
        }
    }
    found
}

/// Returns the seat and a new one.
fn two_of<A: Allocator + Copy>(table: &NumberTable<A>, seat: Seat) -> (Seat, Seat)
    requires { IsSeatOf table.now seat }
    ensures { IsSeatOf table.now result.0 × IsSeatOf table.now result.1 }
{
    let Ok(seats) = table.split(seat) else {
        unreachable!()
    };
    seats
}

/// Splits the seat into `threads` seats. `Err`: no memory.
fn seats_for(
    alloc: Global,
    table: &NumberTable<Global>,
    seat: Seat,
    threads: usize,
) -> Result<Vec<Seat>, AllocError>
    requires { IsSeatOf table.now seat }
    ensures { IfOk result (λ seats. All (IsSeatOf table.now) seats.items) }
{
    let mut seats = Vec::new(alloc);
    let mut last = seat;
    for _made in 1..threads {
        let (old, new) = two_of(table, last);
        seats.push(new)?;
        last = old;
    }
    seats.push(last)?;
    Ok(seats)
}

/// Inserts 1 to `last` by each seat, in a thread of its own, and drops the seats. Returns the answers of each. `Err`: no memory.
fn insert_in_threads<R: Threads + Sync>(
    rt: &R,
    table: &NumberTable<Global>,
    seats: Vec<Seat>,
    last: u32,
) -> Result<Vec<AnswerBits>, AllocError>
    requires { All (IsSeatOf table.now) seats.items }
{
    thread::map_vec(
        rt,
        seats,
        &|seat: Seat| -> AnswerBits
            requires { IsSeatOf table.now seat }
        { insert_to(table, seat, last).1 },
    )
}

/// Asserts that each number up to `last` was placed by one of the seats and found by all others.
fn assert_placed_once(rt: &impl Abort, all: &[AnswerBits], last: u32) {
    let mut placed = 0;
    for answers in all {
        assert_same(rt, answers.placed & placed, 0);
        placed |= answers.placed;
        assert_same(rt, answers.placed | answers.found, numbers_to(last));
        assert_same(rt, answers.full, 0);
    }
    assert_same(rt, placed, numbers_to(last));
}

#[test]
fn four_threads_place_each_number_once(rt: HostRuntime) -> Result<(), Fail> {
    let (table, seat) = table_of(&rt, rt.alloc(), 8)?;
    let (seat, first) = two_of(&table, seat);
    let seats = seats_for(rt.alloc(), &table, first, 4)?;
    let all = insert_in_threads(&rt, &table, seats, 8)?;
    assert_placed_once(&rt, all.as_slice(), 8);
    let (seat, answers) = insert_to(&table, seat, 9);
    let bits = (answers.placed, answers.found, answers.full);
    assert_same(&rt, bits, (0, numbers_to(8), bit(9)));
    let (_, mut newcomer) = two_of(&table, seat);
    assert_same(&rt, found_to(&table, &mut newcomer, 9), numbers_to(8));
    Ok(())
}

#[test]
fn two_threads_meet(rt: HostRuntime) -> Result<(), Fail> {
    let (table, seat) = table_of(&rt, rt.alloc(), 8)?;
    let (first, second) = two_of(&table, seat);
    let shared = &table;
    let ((mut first, one), (mut second, two)) = thread::join(
        &rt,
        move ||
            requires { IsSeatOf shared.now first }
            ensures { IsSeatOf shared.entry.now result.0 }
        { insert_to(shared, first, 8) },
        move ||
            requires { IsSeatOf shared.now second }
            ensures { IsSeatOf shared.entry.now result.0 }
        { insert_to(shared, second, 8) },
    );
    assert_placed_once(&rt, [one, two].as_slice(), 8);
    assert!(rt; table.meet(&mut first, &mut second).is_ok());
    assert_same(&rt, found_to(&table, &mut first, 9), numbers_to(8));
    assert_same(&rt, found_to(&table, &mut second, 9), numbers_to(8));
    let seat = table.join(first, second);
    let mut words = table.close(seat);
    words.as_mut_slice().sort_unstable();
    assert_same(&rt, words.as_slice(), [1, 2, 3, 4, 5, 6, 7, 8].as_slice());
    Ok(())
}

#[test]
fn sixty_four_seats_share_a_table(rt: HostRuntime) -> Result<(), Fail> {
    let (table, seat) = table_of(&rt, rt.alloc(), 128)?;
    let seats = seats_for(rt.alloc(), &table, seat, 64)?;
    let all = insert_in_threads(&rt, &table, seats, 100)?;
    assert_same(&rt, all.len(), 64);
    assert_placed_once(&rt, all.as_slice(), 100);
    Ok(())
}

#[test]
fn a_probe_goes_round_the_end(rt: HostRuntime) -> Result<(), Fail> {
    let (table, seat) = table_of(&rt, rt.alloc(), 8)?;
    assert_same(&rt, table.word_count(), 8);
    let seat = insert_each(&rt, &table, seat, [7, 15, 1, 9].as_slice());
    let words = table.close(seat);
    assert_same(&rt, words.as_slice(), [15, 1, 9, 0, 0, 0, 0, 7].as_slice());
    Ok(())
}

#[test]
fn every_word_was_handed_in(rt: HostRuntime) -> Result<(), Fail> {
    let (table, seat) = table_of(&rt, rt.alloc(), 16)?;
    let (first, second) = two_of(&table, seat);
    let mut first = insert_each(&rt, &table, first, [3, 19, 40].as_slice());
    let mut second = insert_each(&rt, &table, second, [5, 21, 1000].as_slice());
    assert!(rt; table.meet(&mut first, &mut second).is_ok());
    let joined = table.join(first, second);
    let (last, _newcomer) = two_of(&table, joined);
    assert_same(&rt, table.close(last).as_slice(), HANDED_IN.as_slice());
    Ok(())
}

#[test]
fn tables_of_other_sizes_are_filled(rt: HostRuntime) -> Result<(), Fail> {
    for count in &SIZES {
        let count = *count;
        let numbers: Vec<u64> = (1..(count as u64).saturating_add(1)).collect(rt.alloc())?;
        let (table, seat) = table_of(&rt, rt.alloc(), count)?;
        let mut seat = insert_each(&rt, &table, seat, numbers.as_slice());
        assert_full(&rt, &table, &mut seat, 3 * 8192);
        assert_filled(&rt, table.close(seat).as_slice(), count as u64);
    }
    Ok(())
}

#[test]
fn new_answers_each_refused_request(rt: HostRuntime) -> Result<(), Fail> {
    for granted in 0..REQUESTS {
        let heap = Refusing::new(rt.alloc(), Rule::new(0, usize::MAX, granted, 1));
        assert!(rt; table_of(&rt, &heap, 8).is_err(), "after {granted}");
        let (table, seat) = table_of(&rt, &heap, 8)?;
        let (seat, answers) = insert_to(&table, seat, 9);
        assert_eq!(rt;
            (answers.placed, answers.found, answers.full),
            (numbers_to(8), 0, bit(9))
        );
        assert_same(&rt, table.close(seat).len(), 8);
    }
    let heap = Refusing::new(rt.alloc(), Rule::new(0, usize::MAX, REQUESTS, 1));
    assert!(rt; table_of(&rt, &heap, 8).is_ok());
    Ok(())
}
