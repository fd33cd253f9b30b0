//! The command that the program's arguments name.
ghost use Rattle.std.specs.Prelude.{◌≤◌, map, IfSome, IfNone, ℕ};
ghost use Rattle.tool_streams.specs.Numbers.{Writes};
ghost use Rattle.tool_commands.specs.Arguments.{NamesFirst, NamesShards, NamesStress, NamesThreads, NamesCommand};
ghost use Rattle.tool_commands.specs.Arguments.{IsRunnable, IsThreadCount, IsJobCount, number_of};
ghost use Rattle.table_terms.specs.Capacities.{IsFirstCapacity};
ghost use Rattle.tool_commands.specs.declared.arguments.Command.{Command as CommandOf};
ghost use Rattle.tool_commands.specs.declared.arguments.ShardCount.{ShardCount as ShardCountOf};

use std::convert::AsStr;
use table_terms::capacity::{FIRST_CAPACITY, is_first_capacity};
use tool_streams::numbers::parse_decimal;

/// A command.
#[derive(Clone, Copy)]
pub enum Command {
    /// Runs calls on a single-owner table, whose first generation has `first` buckets.
    Calls { first: usize },
    /// Runs the same calls on a table over `shards` shards, each with a first generation of `first` buckets.
    Shards { shards: ShardCount, first: usize },
    /// Runs a schedule of the state machine, whose first generation has `first` buckets.
    Core { first: usize },
    /// Runs `jobs` jobs of each kind, each by `threads` threads that share a table.
    Stress { threads: usize, jobs: u64 },
    /// Runs `threads` threads that share a table of numbers.
    Seats { threads: usize },
}

/// The number of shards of a table.
#[derive(Clone, Copy)]
pub enum ShardCount {
    One,
    Two,
    Four,
    Eight,
    Sixteen,
}

/// Parses the arguments after the program's name. Returns `None` if they name no command.
pub fn parse_command<S: AsStr>(words: &[S]) -> Option<Command>
    ensures named { IfSome result (NamesCommand (map S.text words.now)) }
    ensures runnable { IfSome result IsRunnable }
    ensures wrong { IfNone result ((command : CommandOf)
        → ¬ NamesCommand (map S.text words.now) command) }
{
    match words {
        [] => Some(Command::Calls {
            first: FIRST_CAPACITY,
        }),
        [name, rest @ ..] => match name.as_str().as_bytes() {
            b"calls" => {
                let first = parse_first(rest)?;
                Some(Command::Calls { first })
            }
            b"core" => {
                let first = parse_first(rest)?;
                Some(Command::Core { first })
            }
            b"shards" => {
                let (shards, first) = parse_shards(rest)?;
                Some(Command::Shards { shards, first })
            }
            b"stress" => {
                let (threads, jobs) = parse_stress(rest)?;
                Some(Command::Stress { threads, jobs })
            }
            b"seats" => {
                let threads = parse_threads(rest)?;
                Some(Command::Seats { threads })
            }
            _ => None,
        },
    }
}

/// Parses the arguments after a command's name: a first capacity, or nothing for 16.
fn parse_first<S: AsStr>(words: &[S]) -> Option<usize>
    ensures named { IfSome result (NamesFirst (map S.text words.now)) }
    ensures first { IfSome result IsFirstCapacity }
    ensures wrong { IfNone result ((first : ℕ) → ¬ NamesFirst (map S.text words.now) first) }
{
    match words {
        [] => Some(FIRST_CAPACITY),
        [word] => {
            let first = parse_decimal(word.as_str().as_bytes())?;
            if is_first_capacity(first) {
                Some(first as usize)
            } else {
                None
            }
        }
        _ => None,
    }
}

/// Parses the arguments after `shards`: a number of shards, and then a first capacity, or nothing for 16.
fn parse_shards<S: AsStr>(words: &[S]) -> Option<(ShardCount, usize)>
    ensures named { IfSome result (λ named. NamesShards (map S.text words.now) named.0 named.1) }
    ensures first { IfSome result (λ named. IsFirstCapacity named.1) }
    ensures wrong { IfNone result ((shards : ShardCountOf) (first : ℕ)
        → ¬ NamesShards (map S.text words.now) shards first) }
{
    match words {
        [] => None,
        [word, rest @ ..] => {
            let shards = parse_shard_count(word.as_str().as_bytes())?;
            let first = parse_first(rest)?;
            Some((shards, first))
        }
    }
}

/// Parses a number of shards: 1, 2, 4, 8 or 16.
fn parse_shard_count(text: &[u8]) -> Option<ShardCount>
    ensures written { IfSome result (λ shards. Writes 10 20 text.now (number_of shards)) }
    ensures wrong { IfNone result ((shards : ShardCountOf)
        → ¬ Writes 10 20 text.now (number_of shards)) }
{
    match parse_decimal(text)? {
        1 => Some(ShardCount::One),
        2 => Some(ShardCount::Two),
        4 => Some(ShardCount::Four),
        8 => Some(ShardCount::Eight),
        16 => Some(ShardCount::Sixteen),
        _ => None,
    }
}

/// Parses the arguments after `stress`: a number of threads, from 2 to 64, and a number of jobs, from 1 to 1000.
fn parse_stress<S: AsStr>(words: &[S]) -> Option<(usize, u64)>
    ensures named { IfSome result (λ named. NamesStress (map S.text words.now) named.0 named.1) }
    ensures threads { IfSome result (λ named. IsThreadCount named.0) }
    ensures jobs { IfSome result (λ named. IsJobCount named.1) }
    ensures wrong { IfNone result ((threads jobs : ℕ)
        → ¬ NamesStress (map S.text words.now) threads jobs) }
{
    let [threads, jobs] = words else {
        return None;
    };
    let threads = parse_thread_count(threads.as_str().as_bytes())?;
    let jobs = parse_count(jobs.as_str().as_bytes(), 1, 1000)?;
    Some((threads, jobs))
}

/// Parses the argument after `seats`: a number of threads, from 2 to 64.
fn parse_threads<S: AsStr>(words: &[S]) -> Option<usize>
    ensures named { IfSome result (NamesThreads (map S.text words.now)) }
    ensures count { IfSome result IsThreadCount }
    ensures wrong { IfNone result ((threads : ℕ) → ¬ NamesThreads (map S.text words.now) threads) }
{
    match words {
        [word] => parse_thread_count(word.as_str().as_bytes()),
        _ => None,
    }
}

/// Parses a number of threads, from 2 to 64.
fn parse_thread_count(text: &[u8]) -> Option<usize>
    ensures named { IfSome result (λ threads. Writes 10 20 text.now threads
        × IsThreadCount threads) }
    ensures wrong { IfNone result ((threads : ℕ)
        → ¬ (Writes 10 20 text.now threads × IsThreadCount threads)) }
{
    let threads = parse_count(text, 2, 64)?;
    Some(threads as usize)
}

/// Parses a number in decimal digits, from `least` to `most`.
fn parse_count(text: &[u8], least: u64, most: u64) -> Option<u64>
    ensures written { IfSome result (Writes 10 20 text.now) }
    ensures inside { IfSome result (λ n. (least ≤ n) × (n ≤ most)) }
    ensures wrong { IfNone result ((n : ℕ) → ¬ (Writes 10 20 text.now n
        × ((least ≤ n) × (n ≤ most)))) }
{
    let count = parse_decimal(text)?;
    if least <= count && count <= most {
        Some(count)
    } else {
        None
    }
}
