//! Words that collide under a simple hash, as an attacker may choose them.
use super::{ALONE, EMPTY_SHELF, WORDS, assert_same, run};
use std::alloc::Global;
use std::process::Abort;
use std::test::Fail;
use std::thread::Threads;
use std::time::{Clock, Duration, Instant};

/// `Aa` and `BB` have the same hash if a hash multiplies by 31 before it adds a byte. So have all words of equally many of these parts.
const COLLIDING: [&str; 2] = ["Aa", "BB"];

/// Parts of the same length, whose words have different hashes.
const PLAIN: [&str; 2] = ["Aa", "Ba"];

/// How many parts a word has.
const LENGTH: u32 = 14;

/// How many words of `LENGTH` parts there are.
const COUNT: u32 = 1 << LENGTH;

/// How many times as long as plain words the colliding words may take. If each word were compared with all before it, they would take
/// hundreds of times as long.
const MOST: u32 = 20;

/// How often the words of each kind are counted, in turn. The least time is taken, since other work on the machine only adds to it.
const TRIES: u32 = 8;

/// Adds a line with one word. The bits of `bits` choose its parts. `Err`: no memory.
fn push_word(text: &mut String, parts: [&str; 2], bits: u32) -> Result<(), Fail> {
    for place in 0..LENGTH {
        text.push_str(parts[(bits >> place & 1) as usize])?;
    }
    text.push('\n')?;
    Ok(())
}

/// Returns all words of these parts, each on a line. `Err`: no memory.
fn all_words(heap: Global, parts: [&str; 2]) -> Result<String, Fail> {
    let mut text = String::new(heap);
    for bits in 0..COUNT {
        push_word(&mut text, parts, bits)?;
    }
    Ok(text)
}

/// Returns how long it takes to count these words, and asserts that all are counted. `Err`: no memory, or the clock can't be read.
fn time_of<R: Clock + Abort + Threads + AllocGlobal + Sync>(
    rt: &R,
    text: &str,
) -> Result<Duration, Fail> {
    let start = Instant::now(rt)?;
    let input = text.as_bytes();
    let ended = run(rt, rt.alloc(), &EMPTY_SHELF, ALONE, &[WORDS], input)?;
    let end = Instant::now(rt)?;
    let lines = ended.output.as_slice().iter();
    let count = lines.filter(|byte| **byte == b'\n').count();
    assert_same(rt, ended.status, 0);
    assert!(rt; count == COUNT as usize);
    Ok(end.saturating_duration_since(start))
}

/// Returns the least times of `TRIES` counts of each of two texts. `Err`: no memory, or the clock can't be read.
fn least_times_of<R: Clock + Abort + Threads + AllocGlobal + Sync>(
    rt: &R,
    one: &str,
    other: &str,
) -> Result<(Duration, Duration), Fail> {
    let mut least = (time_of(rt, one)?, time_of(rt, other)?);
    for _again in 1..TRIES {
        let (by_one, by_other) = (time_of(rt, one)?, time_of(rt, other)?);
        least = (least.0.min(by_one), least.1.min(by_other));
    }
    Ok(least)
}

#[test]
fn words_that_collide_under_a_simple_hash_cost_no_more(rt: HostRuntime) -> Result<(), Fail> {
    let plain = all_words(rt.alloc(), PLAIN)?;
    let colliding = all_words(rt.alloc(), COLLIDING)?;
    let (by_plain, by_colliding) = least_times_of(&rt, plain.as_str(), colliding.as_str())?;
    assert!(rt; by_colliding.as_nanos() <= by_plain.as_nanos().saturating_mul(u128::from(MOST)));
    Ok(())
}
