//! Measurements of the interner that threads share: a million different texts, and words that come again and again.

use crate::measures::memory::{print_bytes, resident_bytes};
use crate::measures::numbers::{COUNT, spread, total, turn};
use crate::measures::report::{Report, expect, refuse_words};
use crate::measures::work::{MOST, part_for};
use shared_interner::{Names, SharedInterner, Symbol};
use std::alloc::{AllocError, Global};
use std::rt::{Clock, Files};
use std::thread::Threads;
use std::time::Instant;
use std::{io, thread};

/// The bytes of the texts name0 to name999999.
const TEXT_BYTES: u64 = 9_888_890;

/// How many different words there are.
const WORDS: u64 = 50_000;

/// What threads do with texts.
#[derive(Clone, Copy)]
enum Job {
    /// Each thread interns a part of the texts, which are new.
    New,
    /// Each thread interns all texts, which are known. Each begins at another text.
    Known,
    /// Each thread checks that each symbol has its text, in the order of `Known`.
    Back,
    /// Each thread interns a million words, of which 50,000 are different. A word is new the first time.
    Words,
}

impl Job {
    /// Returns the name of the measurement with this number of threads. `Err`: memory was refused.
    fn name(self, alloc: Global, threads: u64) -> Result<String, AllocError> {
        let name = match self {
            Job::New => "t_new",
            Job::Known => "t_known",
            Job::Back => "t_back",
            Job::Words => "w_name",
        };
        format!(in alloc; "{name}{threads}")
    }

    /// Returns how many calls this number of threads makes. Each call must succeed.
    fn wanted(self, threads: u64) -> u64 {
        match self {
            Job::New => part_for(threads).wrapping_mul(threads),
            _ => COUNT.wrapping_mul(threads),
        }
    }
}

/// The texts of a measurement, and their symbols.
#[derive(Drop)]
struct Lists {
    /// Different texts.
    texts: Vec<String>,
    /// The same texts, in the order of look-ups.
    turned: Vec<String>,
    /// The symbols of the texts in `turned`.
    symbols: Vec<Symbol>,
}

impl Lists {
    /// Makes a million names, whose symbols aren't known yet. `Err`: memory was refused.
    fn of_names(alloc: Global) -> Result<Lists, AllocError> {
        Ok(Lists {
            texts: texts_of(alloc, "name", COUNT)?,
            turned: turned_texts(alloc)?,
            symbols: Vec::new(alloc),
        })
    }

    /// Makes the different words. `Err`: memory was refused.
    fn of_words(alloc: Global) -> Result<Lists, AllocError> {
        Ok(Lists {
            texts: texts_of(alloc, "word", WORDS)?,
            turned: Vec::new(alloc),
            symbols: Vec::new(alloc),
        })
    }
}

/// Makes `count` texts: the beginning, followed by 0, 1, 2, .. `Err`: memory was refused.
pub(crate) fn texts_of(
    alloc: Global,
    beginning: &str,
    count: u64,
) -> Result<Vec<String>, AllocError> {
    let mut texts = Vec::new(alloc);
    for index in 0..count {
        texts.push(format!(in alloc; "{beginning}{index}")?)?;
    }
    Ok(texts)
}

/// Makes the names, in the order of look-ups. `Err`: memory was refused.
fn turned_texts(alloc: Global) -> Result<Vec<String>, AllocError> {
    let mut texts = Vec::new(alloc);
    for index in 0..COUNT {
        let at = turn(index);
        texts.push(format!(in alloc; "name{at}")?)?;
    }
    Ok(texts)
}

/// Runs a group of measurements of a shared interner. `Err`: the group is unknown, or a measurement failed.
pub fn measure_texts<R: Print + Eprint + Clock + Files + Threads + Sync + AllocGlobal>(
    rt: &R,
    report: &Report<'_>,
    group: &str,
) -> io::Result<()> {
    match group {
        "txt" => measure_names(rt, report, 1),
        "txt4" => measure_names(rt, report, MOST),
        "words" => {
            let lists = Lists::of_words(rt.alloc())?;
            measure_words(rt, report, &lists, 1)?;
            measure_words(rt, report, &lists, MOST)
        }
        _ => refuse_words(rt),
    }
}

/// Measures names with this number of threads: interning new ones, bytes per entry without its text, interning known ones, and checking the
/// texts of symbols. Checks all symbols once before that is timed. `Err`: a wrong count or an I/O error.
fn measure_names<R: Print + Clock + Files + Threads + Sync + AllocGlobal>(
    rt: &R,
    report: &Report<'_>,
    threads: u64,
) -> io::Result<()> {
    let mut lists = Lists::of_names(rt.alloc())?;
    let set = SharedInterner::new(rt.alloc())?;
    measure_new(rt, report, &set, &lists, threads)?;
    lists.symbols = list_symbols(rt.alloc(), &set, lists.turned.as_slice())?;
    measure_known(rt, report, &set, &lists, threads)
}

/// Measures interning new names, and bytes per entry without its text. `Err`: a wrong count or an I/O error.
fn measure_new<R: Print + Clock + Files + Threads + Sync + AllocGlobal>(
    rt: &R,
    report: &Report<'_>,
    set: &SharedInterner,
    lists: &Lists,
    threads: u64,
) -> io::Result<()> {
    let before = resident_bytes(rt)?.saturating_add(TEXT_BYTES);
    time_job(rt, report, set, lists, Job::New, threads)?;
    expect(set.len(), COUNT)?;
    let name = format!(in rt.alloc(); "t_rss{threads}")?;
    print_bytes(rt, report, name.as_str(), before, COUNT)
}

/// Checks all symbols once, and then measures interning known names and checking the texts of symbols. `Err`: a wrong count or an I/O error.
fn measure_known<R: Print + Clock + Threads + Sync + AllocGlobal>(
    rt: &R,
    report: &Report<'_>,
    set: &SharedInterner,
    lists: &Lists,
    threads: u64,
) -> io::Result<()> {
    let back = count_job(rt, rt.alloc(), set, lists, Job::Back, 1)?;
    expect(back, COUNT)?;
    time_job(rt, report, set, lists, Job::Known, threads)?;
    time_job(rt, report, set, lists, Job::Back, threads)
}

/// Measures words with this number of threads, in a new interner. `Err`: a wrong count or an I/O error.
fn measure_words<R: Print + Clock + Threads + Sync + AllocGlobal>(
    rt: &R,
    report: &Report<'_>,
    lists: &Lists,
    threads: u64,
) -> io::Result<()> {
    let set = SharedInterner::new(rt.alloc())?;
    time_job(rt, report, &set, lists, Job::Words, threads)?;
    expect(set.len(), WORDS)
}

/// Times the job with this number of threads, and prints the result. `Err`: a wrong count or an I/O error.
fn time_job<R: Print + Clock + Threads + Sync + AllocGlobal>(
    rt: &R,
    report: &Report<'_>,
    set: &SharedInterner,
    lists: &Lists,
    job: Job,
    threads: u64,
) -> io::Result<()> {
    let name = job.name(rt.alloc(), threads)?;
    let wanted = job.wanted(threads);
    let start = Instant::now(rt)?;
    let done = count_job(rt, rt.alloc(), set, lists, job, threads)?;
    report.time(rt, name.as_str(), start, done, wanted, wanted)
}

/// Does the job with this number of threads. Returns how many calls succeeded. `Err`: memory for the threads was refused.
fn count_job<R: Threads + Sync>(
    rt: &R,
    alloc: Global,
    set: &SharedInterner,
    lists: &Lists,
    job: Job,
    threads: u64,
) -> Result<u64, AllocError> {
    let count = part_for(threads);
    let counts = thread::map_indices(
        rt,
        alloc,
        threads as usize,
        &|worker: usize| {
            let from = count.wrapping_mul(worker as u64);
            let part = Part {
                job,
                lists,
                from,
                count,
            };
            part.run(&mut set.names())
        },
    )?;
    Ok(total(counts.as_slice()))
}

/// The part of a job that one thread does. It begins at index `from`. If the texts are new, it interns `count` of them.
#[derive(Drop)]
struct Part<'a> {
    job: Job,
    lists: &'a Lists,
    from: u64,
    count: u64,
}

impl Part<'_> {
    /// Does the part. Returns how many calls succeeded.
    fn run(&self, names: &mut Names<'_>) -> u64 {
        let texts = self.lists.texts.as_slice();
        match self.job {
            Job::New => count_new(names, texts, self.from, self.count),
            Job::Known => count_known(names, self.lists, self.from),
            Job::Back => count_back(names, self.lists, self.from),
            Job::Words => count_words(names, texts, self.from),
        }
    }
}

/// Interns `count` texts, from index `from` on. Returns how many got a symbol.
fn count_new(names: &mut Names<'_>, texts: &[String], from: u64, count: u64) -> u64 {
    let mut named = 0u64;
    for index in 0..count {
        let at = from.wrapping_add(index);
        named = named.wrapping_add(u64::from(is_named(names, texts, at)));
    }
    named
}

/// Interns a million drawn words, from draw `from` on. Returns how many got a symbol.
fn count_words(names: &mut Names<'_>, texts: &[String], from: u64) -> u64 {
    let mut named = 0u64;
    for index in 0..COUNT {
        let at = spread(from.wrapping_add(index)) % WORDS;
        named = named.wrapping_add(u64::from(is_named(names, texts, at)));
    }
    named
}

/// Interns the text of this index. Returns whether it got a symbol.
fn is_named(names: &mut Names<'_>, texts: &[String], index: u64) -> bool {
    match texts.get(index as usize) {
        Some(text) => names.intern(text.as_str()).is_ok(),
        None => false,
    }
}

/// Interns all known texts, from index `from` on. Returns how many got their listed symbol.
fn count_known(names: &mut Names<'_>, lists: &Lists, from: u64) -> u64 {
    let mut known = 0u64;
    for index in 0..COUNT {
        let at = from.wrapping_add(index) % COUNT;
        known = known.wrapping_add(u64::from(is_known(names, lists, at)));
    }
    known
}

/// Interns the known text of this index. Returns whether it got its listed symbol.
fn is_known(names: &mut Names<'_>, lists: &Lists, index: u64) -> bool {
    let at = index as usize;
    match (lists.turned.get(at), lists.symbols.get(at)) {
        (Some(text), Some(symbol)) => match names.intern(text.as_str()) {
            Ok(given) => given == *symbol,
            Err(_) => false,
        },
        _ => false,
    }
}

/// Checks all listed symbols, from index `from` on. Returns how many have their text.
fn count_back(names: &mut Names<'_>, lists: &Lists, from: u64) -> u64 {
    let mut back = 0u64;
    for index in 0..COUNT {
        let at = from.wrapping_add(index) % COUNT;
        back = back.wrapping_add(u64::from(is_back(names, lists, at)));
    }
    back
}

/// Returns whether the listed symbol of this index has its text.
fn is_back(names: &mut Names<'_>, lists: &Lists, index: u64) -> bool {
    let at = index as usize;
    match (lists.turned.get(at), lists.symbols.get(at)) {
        (Some(text), Some(symbol)) => names.text(*symbol) == Some(text.as_str()),
        _ => false,
    }
}

/// Interns these texts, and returns their symbols. `Err`: memory was refused.
fn list_symbols(
    alloc: Global,
    set: &SharedInterner,
    texts: &[String],
) -> Result<Vec<Symbol>, AllocError> {
    let mut names = set.names();
    let mut symbols = Vec::new(alloc);
    for text in texts {
        symbols.push(names.intern(text.as_str())?)?;
    }
    Ok(symbols)
}

/// Does each job once by four threads, without a clock, and prints counts. `Err`: memory was refused, or the output failed.
pub fn check_texts<R: Print + Threads + Sync + AllocGlobal>(rt: &R, name: &str) -> io::Result<()> {
    check_names(rt, name)?;
    check_words(rt, name)
}

/// Interns new names, interns them again, and checks the texts of their symbols. `Err`: memory was refused, or the output failed.
fn check_names<R: Print + Threads + Sync + AllocGlobal>(rt: &R, name: &str) -> io::Result<()> {
    let mut lists = Lists::of_names(rt.alloc())?;
    let set = SharedInterner::new(rt.alloc())?;
    check_new(rt, name, &set, &lists)?;
    lists.symbols = list_symbols(rt.alloc(), &set, lists.turned.as_slice())?;
    check_known(rt, name, &set, &lists)
}

/// Interns new names, and prints how many got a symbol. `Err`: memory was refused, or the output failed.
fn check_new<R: Print + Threads + Sync + AllocGlobal>(
    rt: &R,
    name: &str,
    set: &SharedInterner,
    lists: &Lists,
) -> io::Result<()> {
    let named = count_job(rt, rt.alloc(), set, lists, Job::New, MOST)?;
    let count = set.len();
    println!(rt; "{name} by four: {named} named, {count} texts")
}

/// Interns known names, and checks the texts of their symbols. `Err`: memory was refused, or the output failed.
fn check_known<R: Print + Threads + Sync + AllocGlobal>(
    rt: &R,
    name: &str,
    set: &SharedInterner,
    lists: &Lists,
) -> io::Result<()> {
    let known = count_job(rt, rt.alloc(), set, lists, Job::Known, MOST)?;
    let back = count_job(rt, rt.alloc(), set, lists, Job::Back, MOST)?;
    println!(rt; "{name} by four: {known} known, {back} back")
}

/// Interns words that come again and again, in a new interner. `Err`: memory was refused, or the output failed.
fn check_words<R: Print + Threads + Sync + AllocGlobal>(rt: &R, name: &str) -> io::Result<()> {
    let lists = Lists::of_words(rt.alloc())?;
    let set = SharedInterner::new(rt.alloc())?;
    let named = count_job(rt, rt.alloc(), &set, &lists, Job::Words, MOST)?;
    let count = set.len();
    println!(rt; "{name} by four: {named} words named, {count} texts")
}
