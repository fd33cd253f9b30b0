//! Tables of numbers that threads share, and checks of what inserts return and what the tables contain.
use crate::counting::asked::Numbered;
use crate::counting::tally::{Tally, Work, at_once};
use std::alloc::{AllocError, Global};
use std::ops::Range;
use std::sync::Wait;
use std::thread::Threads;
use table_generations::atomic_value::AtomicValue;

/// The outcome of an insert.
#[derive(Clone, Copy, Debug, PartialEq)]
pub enum InsertEnd {
    /// The number was inserted.
    Placed,
    /// The number was an entry before, and the value was returned.
    Found,
    /// The value was returned without an entry: memory was refused.
    Refused,
    /// The returned entry or value has another number, or there was no memory for the value.
    Wrong,
}

/// Returns the outcome of an insert of this number, from the entry and the value that the insert returned.
pub fn insert_end<T: AtomicValue>(
    answer: Result<(&T::Target, Option<T>), T>,
    number: u64,
) -> InsertEnd
where
    T::Target: Numbered,
{
    match answer {
        Ok((shown, None)) if shown.number() == number => InsertEnd::Placed,
        Ok((shown, Some(back))) if shown.number() == number && back.deref().number() == number =>
            InsertEnd::Found,
        Err(back) if back.deref().number() == number => InsertEnd::Refused,
        _ => InsertEnd::Wrong,
    }
}

/// A table into which threads insert numbers.
pub trait Inserts {
    /// Inserts the number, and returns the outcome.
    fn insert<R: Wait>(&self, rt: &R, number: u64) -> InsertEnd;
}

/// A table whose numbers can also be read.
pub trait Numbers: Inserts {
    /// Returns whether a look-up finds the number.
    fn contains(&self, number: u64) -> bool;

    /// Returns the length of the table, and whether it says that it is empty.
    fn length(&self) -> (u64, bool);

    /// Returns the numbers that a walk yields. `Err`: memory was refused.
    fn walked(&self) -> Result<Vec<u64>, AllocError>;
}

/// Inserts the numbers one after the other, and counts the outcomes.
pub fn fill<R: Wait, T: Inserts>(rt: &R, table: &T, numbers: Range<u64>) -> Tally {
    let mut tally = Tally::NONE;
    for number in numbers {
        tally = tally.with(table.insert(rt, number));
    }
    tally
}

/// The work of threads that fill a table. Each thread inserts the numbers `from..to` of its part.
#[derive(Drop)]
struct Filling<'a, T> {
    table: &'a T,
    parts: &'a [(u64, u64)],
}

impl<'a, T: Inserts> Work for Filling<'a, T> {
    fn work<R: Wait>(&self, rt: &R, thread: u64) -> Tally {
        match self.parts.get(thread as usize) {
            Some((from, to)) => fill(rt, self.table, *from..*to),
            None => Tally::NONE,
        }
    }
}

/// Runs a thread for each part, which inserts the numbers `from..to` of the part. Returns the counts of all outcomes.
pub fn fill_at_once<R: Threads + Wait + Sync, T: Inserts + Sync>(
    rt: &R,
    table: &T,
    alloc: Global,
    parts: &[(u64, u64)],
) -> Tally {
    at_once(rt, alloc, parts.len(), &Filling { table, parts })
}

/// Returns what `seen` returns if the entries are the numbers below `count`, each once.
pub fn those_below(count: u64) -> [u64; 5] {
    [count, count, u64::from(count == 0), count, count]
}

/// Returns five numbers: the result of `first_missed`, the length, 1 or 0 for whether the table says that it is empty, and the two results
/// of `count_first` for the numbers of a walk. Each is `u64::MAX` if the walk is refused memory.
pub fn seen<T: Numbers>(table: &T, count: u64) -> [u64; 5] {
    let Ok(walked) = table.walked() else {
        return [u64::MAX; 5];
    };
    let (length, is_empty) = table.length();
    let (shown, first) = count_first(walked);
    [
        first_missed(table, count),
        length,
        u64::from(is_empty),
        shown,
        first,
    ]
}

/// Returns whether the entries are the numbers below `count`, each once.
fn has_below<T: Numbers>(table: &T, count: u64) -> bool {
    seen(table, count) == those_below(count)
}

/// Returns the least number that no look-up finds, or `count + 1` if all up to `count` are found.
fn first_missed<T: Numbers>(table: &T, count: u64) -> u64 {
    let beyond = count.wrapping_add(1);
    for number in 0..beyond {
        if !table.contains(number) {
            return number;
        }
    }
    beyond
}

/// Returns how many numbers there are, and the least one that is missing. The two are equal if the numbers are 0, 1, 2, .., each once.
pub fn count_first(mut numbers: Vec<u64>) -> (u64, u64) {
    numbers.sort_unstable();
    let mut first = 0u64;
    for number in numbers.as_slice() {
        if *number == first {
            first = first.wrapping_add(1);
        }
    }
    (numbers.len() as u64, first)
}

/// Inserts the numbers below `count`, each again if it was refused, and then 4 once more. Returns how many were refused. `None`: a first
/// insert was neither Placed nor Refused, a second one wasn't Placed, the last one wasn't Found, or after a refusal or at the end the
/// entries weren't the numbers that were placed.
pub fn refused_inserts<R: Wait, T: Numbers>(rt: &R, table: &T, count: u64) -> Option<u64> {
    let mut refused = 0u64;
    for number in 0..count {
        refused = refused.wrapping_add(refused_before(rt, table, number)?);
    }
    let is_right = has_below(table, count) && table.insert(rt, 4) == InsertEnd::Found;
    if is_right { Some(refused) } else { None }
}

/// Inserts the number, and once more if it was refused. Returns how often it was refused. `None`: an outcome or the entries were wrong.
fn refused_before<R: Wait, T: Numbers>(rt: &R, table: &T, number: u64) -> Option<u64> {
    match table.insert(rt, number) {
        InsertEnd::Placed => Some(0),
        InsertEnd::Refused
            if has_below(table, number) && table.insert(rt, number) == InsertEnd::Placed => Some(1),
        _ => None,
    }
}

/// Runs `refused` for each number below `runs`, which is how many requests are granted before one is refused. Returns the sum of what the
/// runs return. `None`: a run returned `None`.
pub fn refused_in_turn<R: Wait, F: Fn(&R, u64) -> Option<u64>>(
    rt: &R,
    runs: u64,
    refused: F,
) -> Option<u64>
    requires { F.IsAlwaysCallable refused }
{
    let mut sum = 0u64;
    for passing in 0..runs {
        sum = sum.wrapping_add(refused(rt, passing)?);
    }
    Some(sum)
}
