//! Measurements of the number table, with one seat and with four.
ghost use Rattle.std.specs.Prelude.{◌≡◌, ◌+◌, ◌*◌, ◌++◌, [], ◌∷◌, ◌≤◌, ◌<◌, ◌⊎◌, ◌^◌, All, IfOk, IsTrue, IsFalse, length};
ghost use Rattle.seated.specs.Tables.{IsSeatOf};
ghost use Rattle.seated.specs.Numbers.{known_pairs, own_numbers, Knows};

use crate::measures::numbers::{ABSENT, COUNT, START, STRIDE, spread, total};
use crate::measures::report::{Report, refuse_words};
use crate::measures::work::{MOST, ROUNDS, SAME, Work};
use seated::{NumberAnswer, NumberTable, Seat};
use std::alloc::{AllocError, Global};
use std::num::NonZeroU64;
use std::rt::Clock;
use std::thread::Threads;
use std::time::Instant;
use std::{io, thread};

/// The number of words of the table, about half of which are set at the end.
const WORDS: usize = 1 << 21;

/// Runs a group of measurements of the number table. `Err`: the group is unknown, or a measurement failed.
pub fn measure_seats<R: Print + Eprint + Clock + Threads + Sync + AllocGlobal>(
    rt: &R,
    report: &Report<'_>,
    group: &str,
) -> io::Result<()> {
    let (table, mut seat) = NumberTable::new(rt.alloc(), WORDS)?;
    match group {
        "one" => measure_one(rt, report, &table, seat),
        "seq" => time_keys(
            rt,
            report,
            &table,
            &mut seat,
            ["seq_ins1", "seq_hit1"],
            &|index: u64| index.wrapping_add(1),
        ),
        "same" => measure_work(rt, report, &table, seat, Work::Same),
        "ins" => measure_work(rt, report, &table, seat, Work::Inserts),
        _ => refuse_words(rt),
    }
}

/// Measures inserts, hits and misses of spread keys in one thread, and then hits in four. `Err`: a wrong count or an I/O error.
fn measure_one<R: Print + Clock + Threads + Sync + AllocGlobal>(
    rt: &R,
    report: &Report<'_>,
    table: &NumberTable<Global>,
    mut seat: Seat,
) -> io::Result<()>
    requires { IsSeatOf table.now seat }
{
    time_keys(rt, report, table, &mut seat, ["a_ins1", "b_hit1"], &spread)?;

    let start = Instant::now(rt)?;
    let found = count_keys(table, &mut seat, START, &absent);
    report.time(rt, "c_miss1", start, found, 0, COUNT)?;

    measure_work(rt, report, table, seat, Work::Hits)
}

/// Measures inserts and hits of these keys in one thread, under these names. `Err`: a wrong count or an I/O error.
fn time_keys<R: Print + Clock, K: Fn(u64) -> u64>(
    rt: &R,
    report: &Report<'_>,
    table: &NumberTable<Global>,
    seat: &mut Seat,
    names: [&str; 2],
    key_at: &K,
) -> io::Result<()>
    requires callable { K.IsAlwaysCallable key_at.now }
    requires seat { IsSeatOf table.now seat.old }
    ensures { IsSeatOf table.now seat.new }
{
    let [inserts, hits] = names;
    let start = Instant::now(rt)?;
    let placed = insert_keys(table, seat, 0, COUNT, key_at);
    report.time(rt, inserts, start, placed, COUNT, COUNT)?;

    let start = Instant::now(rt)?;
    let found = count_keys(table, seat, START, key_at);
    report.time(rt, hits, start, found, COUNT, COUNT)
}

/// Measures the work of four threads. `Err`: a wrong count or an I/O error.
fn measure_work<R: Print + Clock + Threads + Sync + AllocGlobal>(
    rt: &R,
    report: &Report<'_>,
    table: &NumberTable<Global>,
    seat: Seat,
    work: Work,
) -> io::Result<()>
    requires { IsSeatOf table.now seat }
{
    let name = work.name(rt.alloc(), MOST)?;
    let (wanted, operations) = work.wanted(MOST);
    let parts = parts_for(rt.alloc(), table, seat)?;
    let start = Instant::now(rt)?;
    let counts = thread::map_vec(
        rt,
        parts,
        &|part: Part| -> u64
            requires { (part.worker < 4) × IsSeatOf table.now part.seat }
        { count_part(table, part, work) },
    )?;
    let done = total(counts.as_slice());
    report.time(rt, name.as_str(), start, done, wanted, operations)
}

/// Does the work of one thread. Returns how many keys it places or finds.
fn count_part(table: &NumberTable<Global>, part: Part, work: Work) -> u64
    requires { (part.worker < 4) × IsSeatOf table.now part.seat }
{
    let Part { worker, mut seat } = part;
    let from = worker * (COUNT / MOST);
    match work {
        Work::Same => insert_same(table, &mut seat),
        Work::Inserts => insert_keys(table, &mut seat, from, COUNT / MOST, &spread),
        Work::Hits => count_keys(table, &mut seat, START + from * STRIDE, &spread),
    }
}

/// Runs the workloads of one thread once, without a clock, and prints counts. `Err`: memory was refused, or the output failed.
pub fn check_seats<R: Print + Threads + Sync + AllocGlobal>(rt: &R) -> io::Result<()> {
    let (table, mut seat) = NumberTable::new(rt.alloc(), WORDS)?;
    let placed = insert_keys(&table, &mut seat, 0, COUNT, &spread);
    let hits = count_keys(&table, &mut seat, START, &spread);
    let found = count_keys(&table, &mut seat, START, &absent);
    println!(rt; "seats spread: {placed} placed, {hits} hits, {found} of the absent found")
}

/// The number of one of the threads, and its seat.
#[derive(Drop)]
struct Part {
    worker: u64,
    seat: Seat,
}

/// Splits the seat into one for each thread. `Err`: memory was refused.
fn parts_for(
    alloc: Global,
    table: &NumberTable<Global>,
    seat: Seat,
) -> Result<Vec<Part>, AllocError>
    requires { IsSeatOf table.now seat }
    ensures each { IfOk result (λ parts. length parts.items ≡ MOST) }
    ensures fit { IfOk result (λ parts. All (λ part. (part.worker < 4)
        × IsSeatOf table.now part.seat) parts.items) }
{
    let mut parts = Vec::with_capacity(alloc, MOST as usize)?;
    let mut last = seat;
    for worker in 0..MOST {
        let Ok((rest, own)) = table.split(last) else {
            unreachable!()
        };
        last = rest;
        parts.push(Part { worker, seat: own })?;
    }
    Ok(parts)
}

/// Inserts `count` keys, from index `from` on. Returns how many were placed.
fn insert_keys<K: Fn(u64) -> u64>(
    table: &NumberTable<Global>,
    seat: &mut Seat,
    from: u64,
    count: u64,
    key_at: &K,
) -> u64
    requires callable { K.IsAlwaysCallable key_at.now }
    requires fits { from + count ≤ COUNT }
    requires seat { IsSeatOf table.now seat.old }
    ensures seat { IsSeatOf table.now seat.new }
    ensures placed { length (own_numbers seat.new) ≡ length (own_numbers seat.old) + result }
    ensures at_most { result ≤ count }
{
    let mut placed = 0u64;
    for index in from..from + count {
        if insert_key(table, seat, key_at(index)) {
            placed += 1;
        }
    }
    placed
}

/// Inserts the same keys in each round. Returns how many were placed.
fn insert_same(table: &NumberTable<Global>, seat: &mut Seat) -> u64
    requires { IsSeatOf table.now seat.old }
    ensures seat { IsSeatOf table.now seat.new }
    ensures placed { length (own_numbers seat.new) ≡ length (own_numbers seat.old) + result }
{
    let mut placed = 0u64;
    for _round in 0..ROUNDS {
        placed += insert_keys(table, seat, 0, SAME, &spread);
    }
    placed
}

/// Returns the absent key of this index.
fn absent(index: u64) -> u64 {
    spread(index.wrapping_add(ABSENT))
}

/// Looks up these keys, in an order that begins at index `start`. Returns how many were found.
fn count_keys<K: Fn(u64) -> u64>(
    table: &NumberTable<Global>,
    seat: &mut Seat,
    start: u64,
    key_at: &K,
) -> u64
    requires callable { K.IsAlwaysCallable key_at.now }
    requires seat { IsSeatOf table.now seat.old }
    ensures { IsSeatOf table.now seat.new }
{
    let mut found = 0u64;
    for index in 0..COUNT {
        let key = key_at((index * STRIDE).wrapping_add(start) % COUNT);
        found = found.wrapping_add(u64::from(contains_key(table, seat, key)));
    }
    found
}

/// Inserts the key. Returns whether it was placed. 0 is no key.
fn insert_key(table: &NumberTable<Global>, seat: &mut Seat, key: u64) -> bool
    requires { IsSeatOf table.now seat.old }
    ensures seat { IsSeatOf table.now seat.new }
    ensures placed { IsTrue result → own_numbers seat.new ≡ own_numbers seat.old ++ key ∷ [] }
    ensures other { IsFalse result → own_numbers seat.new ≡ own_numbers seat.old }
{
    match NonZeroU64::new(key) {
        Some(number) => matches!(table.insert(seat, number), NumberAnswer::Placed),
        None => false,
    }
}

/// Returns whether the key is in the table. 0 is no key.
fn contains_key(table: &NumberTable<Global>, seat: &mut Seat, key: u64) -> bool
    requires { IsSeatOf table.now seat.old }
    ensures seat { IsSeatOf table.now seat.new }
    ensures found { IsTrue result → Knows (known_pairs seat.new) key }
    ensures none { IsFalse result → (key ≡ 0) ⊎ ¬ Knows (known_pairs seat.new) key }
{
    match NonZeroU64::new(key) {
        Some(number) => table.contains(seat, number),
        None => false,
    }
}
