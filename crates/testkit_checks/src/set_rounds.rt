//! Rounds of threads on a shared set. Each thread inserts a list of numbers. At the end each inserted number has come out of the set, was
//! found or was refused, once. No two numbers that came out are equal, each number that was found came out, and all memory was freed.

use demo_examples::accounts::{NoOutcome, Outcome, insert_lists};
use std::alloc::{AllocError, Global};
use std::convert::AsStr;
use std::fmt;
use std::fmt::{Display, Formatter};
use std::io::Write;
use std::rt::Clock;
use std::thread::Threads;
use std::time::Instant;
use testkit::refusing::Refusing;
use testkit_rounds::drawn::{End, Plan, Stop};
use testkit_rounds::{Round, RoundFault};

/// The status of rounds without a fault.
const WELL: u8 = 0;

/// The status of a round with a fault, of a failed clock or output, or of words that name no plan.
const BAD: u8 = 1;

/// The seconds of a minute.
const MINUTE: u64 = 60;

/// How many numbers came out, were found and were refused.
#[derive(Clone, Copy)]
struct Counts {
    out: u64,
    found: u64,
    refused: u64,
}

/// The counts of no number.
const NONE: Counts = Counts {
    out: 0,
    found: 0,
    refused: 0,
};

/// The sum of the counts of rounds without a fault.
#[derive(Clone, Copy)]
struct Sum {
    rounds: u64,
    counts: Counts,
    /// Rounds in which memory for the set itself or for a list was refused.
    unmade: u64,
}

impl Display for Sum {
    fn fmt<W: fmt::Write>(&self, f: &mut Formatter<W>) -> fmt::Result {
        write!(
            f,
            "{} rounds, {} numbers came out, {} were found, {} were refused, {} sets without memory",
            self.rounds, self.counts.out, self.counts.found, self.counts.refused, self.unmade
        )
    }
}

/// Runs the rounds that the words ask for, and returns the status. The words are the number of minutes and the seed of the first round.
/// Without words a few small rounds run. Writes the first fault to `messages`, with its round.
pub fn run_set_rounds<R: Threads + Clock + Sync, S: AsStr, O: Write, M: Write>(
    rt: &R,
    alloc: Global,
    words: &[S],
    output: &mut O,
    messages: &mut M,
) -> u8 {
    let Some(plan) = Plan::of_words(words) else {
        let _ = writeln!(
            messages,
            "usage: tool_checks stress set [MINUTES [FIRST-SEED]]"
        );
        return BAD;
    };
    match run_plan(rt, alloc, plan, output) {
        Ok(()) => WELL,
        Err(stop) => {
            let _ = writeln!(messages, "{stop}");
            BAD
        }
    }
}

/// Runs the rounds of a plan, and writes their number at the end. `Err`: a round had a fault, or the clock or the output failed.
fn run_plan<R: Threads + Clock + Sync, O: Write>(
    rt: &R,
    alloc: Global,
    plan: Plan,
    output: &mut O,
) -> Result<(), Stop> {
    let sum = run_each(rt, alloc, plan, output)?;
    writeln!(
        output,
        "{} rounds on a set: each number is accounted for",
        sum.rounds
    )?;
    Ok(())
}

/// Runs the rounds of a plan, and returns their sum. Writes the sum every minute if the plan ends after minutes. `Err`: a round had a fault,
/// or the clock or the output failed.
fn run_each<R: Threads + Clock + Sync, O: Write>(
    rt: &R,
    alloc: Global,
    plan: Plan,
    output: &mut O,
) -> Result<Sum, Stop> {
    let start = Instant::now(rt)?;
    let mut sum = Sum {
        rounds: 0,
        counts: NONE,
        unmade: 0,
    };
    let mut reported = 0u64;
    for seed in plan.first_seed..u64::MAX {
        let minutes = start.elapsed(rt)?.as_secs() / MINUTE;
        if reported < minutes && matches!(plan.end, End::Minutes(_)) {
            writeln!(output, "minute {minutes}: {sum}")?;
            reported = minutes;
        }
        if plan.is_over(sum.rounds, minutes) {
            break;
        }
        let round = Round::drawn(seed, plan.most);
        match run_round(rt, alloc, round) {
            Ok(outcome) => sum = with(sum, outcome),
            Err(fault) => return Err(Stop::Fault(round, fault)),
        }
    }
    Ok(sum)
}

/// Adds a round and its counts. There are none if memory for the set or for a list was refused.
fn with(sum: Sum, outcome: Option<Counts>) -> Sum {
    let Counts {
        out,
        found,
        refused,
    } = outcome.unwrap_or(NONE);
    Sum {
        rounds: sum.rounds.saturating_add(1),
        counts: Counts {
            out: sum.counts.out.saturating_add(out),
            found: sum.counts.found.saturating_add(found),
            refused: sum.counts.refused.saturating_add(refused),
        },
        unmade: sum.unmade.saturating_add(u64::from(outcome.is_none())),
    }
}

/// Runs a round, and accounts for each number. `None`: memory for the set or for a list was refused. `Err` is the first fault.
fn run_round<R: Threads + Sync>(
    rt: &R,
    alloc: Global,
    round: Round,
) -> Result<Option<Counts>, RoundFault> {
    let heap = Refusing::new(alloc, round.rule());
    let lists = lists_of(alloc, round)?;
    let mut left = count_each(alloc, round, &lists)?;
    let came = match insert_lists(rt, alloc, &heap, lists) {
        Ok(outcome) => Some(account_for(alloc, &mut left, &outcome)?),
        Err(NoOutcome::Memory) => None,
        Err(NoOutcome::Others) => return Err(RoundFault::Length),
    };
    if heap.granted() != heap.given_back() {
        return Err(RoundFault::Blocks);
    }
    Ok(came)
}

/// Returns a list for each thread. Neighbouring lists share half of their numbers, or all lists are the same. `Err`: memory was refused.
fn lists_of(alloc: Global, round: Round) -> Result<Vec<Vec<u64>>, AllocError> {
    let mut lists = Vec::new(alloc);
    for thread in 0..round.threads {
        let first = round.first_of(thread);
        lists.push((first..first.saturating_add(round.each)).collect(alloc)?)?;
    }
    Ok(lists)
}

/// Returns how often each number is inserted. `Err`: memory was refused.
fn count_each(alloc: Global, round: Round, lists: &[Vec<u64>]) -> Result<Vec<u64>, AllocError> {
    let mut counts = Vec::new(alloc);
    counts.resize(round.values() as usize, 0)?;
    for list in lists {
        count_list(&mut counts, list);
    }
    Ok(counts)
}

/// Counts the numbers of a list.
fn count_list(counts: &mut [u64], list: &[u64]) {
    for number in list {
        if let Some(count) = counts.get_mut(*number as usize) {
            *count = count.saturating_add(1);
        }
    }
}

/// Compares the outcome with the counts of the inserted numbers. `Err` is the first fault.
fn account_for(
    alloc: Global,
    left: &mut [u64],
    outcome: &Outcome<u64>,
) -> Result<Counts, RoundFault> {
    let mut not_out = Vec::new(alloc);
    not_out.resize(left.len(), 1)?;
    take_each(&mut not_out, &outcome.out).map_err(RoundFault::Equal)?;
    for numbers in [&outcome.out, &outcome.found, &outcome.refused] {
        take_each(left, numbers).map_err(RoundFault::Unknown)?;
    }
    if let Some(number) = outcome
        .found
        .iter()
        .find(|number| is_left(&not_out, **number))
    {
        return Err(RoundFault::NotFound(*number));
    }
    match left.iter().position(|count| *count > 0) {
        Some(number) => Err(RoundFault::Lost(number as u64)),
        None => Ok(Counts {
            out: outcome.out.len() as u64,
            found: outcome.found.len() as u64,
            refused: outcome.refused.len() as u64,
        }),
    }
}

/// Returns whether the number has a count above 0.
fn is_left(left: &[u64], number: u64) -> bool {
    left.get(number as usize).is_some_and(|count| *count > 0)
}

/// Subtracts one from the count of each of these numbers. `Err` is the first one that has no count above 0.
fn take_each(left: &mut [u64], numbers: &[u64]) -> Result<(), u64> {
    for number in numbers {
        match left.get_mut(*number as usize) {
            Some(count) if *count > 0 => *count -= 1,
            _ => return Err(*number),
        }
    }
    Ok(())
}
