//! Measurements of the single-owner interner: numbers of new texts, numbers of known texts, and texts of numbers.

use crate::measures::interning::texts_of;
use crate::measures::report::{Report, refuse_words};
use interner::Interner;
use std::alloc::Global;
use std::io;
use std::num::NonZeroU32;
use std::rt::Clock;
use std::time::Instant;

/// How many calls each measurement makes. They go over the texts again and again.
const CALLS: u64 = 1_000_000;

/// The number of texts, the number of rounds over all of them, and the names of the measurements.
type Size = (u32, u64, [&'static str; 3]);

const SIZE_1E4: Size = (10_000, 100, ["new_1e4", "known_1e4", "back_1e4"]);

const SIZE_1E5: Size = (100_000, 10, ["new_1e5", "known_1e5", "back_1e5"]);

const SIZE_1E6: Size = (1_000_000, 1, ["new_1e6", "known_1e6", "back_1e6"]);

/// Runs the group of measurements for a number of texts, such as `1e4`. `Err`: the group is unknown, or a measurement failed.
pub fn measure_interner<R: Print + Eprint + Clock + AllocGlobal>(
    rt: &R,
    report: &Report<'_>,
    group: &str,
) -> io::Result<()> {
    match group {
        "1e4" => measure_texts(rt, report, &SIZE_1E4),
        "1e5" => measure_texts(rt, report, &SIZE_1E5),
        "1e6" => measure_texts(rt, report, &SIZE_1E6),
        _ => refuse_words(rt),
    }
}

/// Measures interning new texts, each round in a new interner, then known ones, and reading texts. `Err`: a wrong count or an I/O error.
fn measure_texts<R: Print + Clock + AllocGlobal>(
    rt: &R,
    report: &Report<'_>,
    size: &Size,
) -> io::Result<()> {
    let (count, _, _) = *size;
    let texts = texts_of(rt.alloc(), "name", u64::from(count))?;
    time_new(rt, report, size, texts.as_slice())?;
    let mut interner = Interner::new(rt.alloc());
    intern_all(&mut interner, texts.as_slice());
    time_known(rt, report, size, texts.as_slice(), &mut interner)
}

/// Measures interning these new texts, each round in a new interner. `Err`: a wrong count or an I/O error.
fn time_new<R: Print + Clock + AllocGlobal>(
    rt: &R,
    report: &Report<'_>,
    size: &Size,
    texts: &[String],
) -> io::Result<()> {
    let (_, rounds, [new, _, _]) = *size;
    let start = Instant::now(rt)?;
    let given = count_new(rt.alloc(), texts, rounds);
    report.time(rt, new, start, given, CALLS, CALLS)
}

/// Measures interning these known texts, and reading them. `Err`: a wrong count or an I/O error.
fn time_known<R: Print + Clock>(
    rt: &R,
    report: &Report<'_>,
    size: &Size,
    texts: &[String],
    interner: &mut Interner<Global>,
) -> io::Result<()> {
    let (count, rounds, [_, known, back]) = *size;
    let start = Instant::now(rt)?;
    let found = count_known(interner, texts, rounds);
    report.time(rt, known, start, found, CALLS, CALLS)?;

    let start = Instant::now(rt)?;
    let shown = count_back(interner, count, rounds);
    report.time(rt, back, start, shown, CALLS, CALLS)
}

/// Interns ten thousand texts twice, reads them by their numbers, and prints the counts. `Err`: memory was refused, or the output failed.
pub fn check_interner<R: Print + AllocGlobal>(rt: &R) -> io::Result<()> {
    let texts = texts_of(rt.alloc(), "name", 10_000)?;
    let mut interner = Interner::new(rt.alloc());
    let new = intern_all(&mut interner, texts.as_slice());
    let known = intern_all(&mut interner, texts.as_slice());
    let back = texts_back(&interner, 10_000);
    println!(rt; "interner: {new} new, {known} known, {back} back")
}

/// Interns the texts. Returns how many of them get the number of their place, from 1 on.
fn intern_all(interner: &mut Interner<Global>, texts: &[String]) -> u64 {
    let mut given = 0u64;
    let mut place = 0u64;
    for text in texts {
        place = place.wrapping_add(1);
        given = given.wrapping_add(u64::from(intern_as(interner, text.as_str(), place)));
    }
    given
}

/// Interns the text. Returns whether it gets this number.
fn intern_as(interner: &mut Interner<Global>, text: &str, place: u64) -> bool {
    match interner.intern_alone(text) {
        Ok(number) => u64::from(number.get()) == place,
        Err(_) => false,
    }
}

/// Interns the texts in a new interner each round. Returns how often a text gets the number of its place.
fn count_new(alloc: Global, texts: &[String], rounds: u64) -> u64 {
    let mut given = 0u64;
    for _round in 0..rounds {
        let mut interner = Interner::new(alloc);
        given = given.wrapping_add(intern_all(&mut interner, texts));
    }
    given
}

/// Interns the known texts in each round. Returns how often a text gets the number of its place.
fn count_known(interner: &mut Interner<Global>, texts: &[String], rounds: u64) -> u64 {
    let mut given = 0u64;
    for _round in 0..rounds {
        given = given.wrapping_add(intern_all(interner, texts));
    }
    given
}

/// Reads the texts of the numbers up to `count`. Returns how many begin with n, as all texts do.
fn texts_back(interner: &Interner<Global>, count: u32) -> u64 {
    let mut shown = 0u64;
    for index in 1..=count {
        shown = shown.wrapping_add(u64::from(begins_with_n(interner, index)));
    }
    shown
}

/// Returns whether the text of this number begins with n.
fn begins_with_n(interner: &Interner<Global>, index: u32) -> bool {
    match NonZeroU32::new(index) {
        Some(number) => match interner.text_alone(number) {
            Some(text) => text.as_bytes().first() == Some(&b'n'),
            None => false,
        },
        None => false,
    }
}

/// Reads the texts of the numbers up to `count` in each round. Returns how often a text begins with n.
fn count_back(interner: &Interner<Global>, count: u32, rounds: u64) -> u64 {
    let mut shown = 0u64;
    for _round in 0..rounds {
        shown = shown.wrapping_add(texts_back(interner, count));
    }
    shown
}
