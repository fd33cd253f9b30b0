//! Events of schedules, as lines of the program.
//!
//! Events are separated by `; `. `first C V H` is an insert that finds no generation, makes the first one and loads it. `go C V H` is an
//! insert that places its value in an empty bucket. `copies C N` is N copies of entries, with the hashes from 0 on. `N times EVENT` is the
//! same event N times.
use std::alloc::AllocError;
use std::num::ParseIntError;

/// The steps of a call that finds no generation, makes the first one and loads it.
const FIRST: &str = "share C; load C; free C; own C; check C ok; show C; free C; share C; load C";

/// The steps of a call that places its value in an empty bucket.
const GO: &str = "share C; load C; read C n; put C n ok; add C; free C; size C";

/// Why the lines of a schedule can't be written.
#[derive(Clone, Copy, Debug)]
pub enum NoLines {
    NoMemory,
    /// A number is missing, or is spelled wrong.
    NoNumber,
}

impl From<AllocError> for NoLines {
    fn from(_refused: AllocError) -> NoLines {
        NoLines::NoMemory
    }
}

impl From<ParseIntError> for NoLines {
    fn from(_bad: ParseIntError) -> NoLines {
        NoLines::NoNumber
    }
}

/// Appends the lines of these events. `Err`: memory was refused, or a number is missing or wrong.
pub fn push_events(input: &mut String, events: &str) -> Result<(), NoLines> {
    for event in events.split("; ") {
        match event.split_once(' ') {
            Some(("first", numbers)) => push_insert(input, numbers, FIRST)?,
            Some(("go", numbers)) => push_insert(input, numbers, GO)?,
            Some(("copies", numbers)) => push_copies(input, numbers)?,
            _ => push_times(input, event)?,
        }
    }
    Ok(())
}

/// Appends the line of an insert with these numbers, and those of its call's steps, with the call's number in place of C.
fn push_insert(input: &mut String, numbers: &str, steps: &str) -> Result<(), NoLines> {
    let (call, _) = numbers.split_once(' ').ok_or(NoLines::NoNumber)?;
    writeln!(input, "insert {numbers}")?;
    for step in steps.split("; ") {
        let (word, answers) = step.split_once('C').unwrap_or((step, ""));
        writeln!(input, "{word}{call}{answers}")?;
    }
    Ok(())
}

/// Appends the lines of copies with the hashes from 0 on. `numbers` has the call's number and how many copies there are.
fn push_copies(input: &mut String, numbers: &str) -> Result<(), NoLines> {
    let (call, count) = numbers.split_once(' ').ok_or(NoLines::NoNumber)?;
    for hash in 0..count.parse::<u64>()? {
        writeln!(input, "copy {call} {hash}")?;
    }
    Ok(())
}

/// Appends the line of an event, once or as often as the event says.
fn push_times(input: &mut String, event: &str) -> Result<(), NoLines> {
    let (count, event) = event.split_once(" times ").unwrap_or(("1", event));
    for _time in 0..count.parse::<u64>()? {
        writeln!(input, "{event}")?;
    }
    Ok(())
}
