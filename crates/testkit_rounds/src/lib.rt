//! Runs rounds of threads: they give values to one table at once, and afterwards each value is accounted for.
#![tactic(auto)]

mod account;
mod closures;
pub mod drawn;
pub mod fates;
mod fault;
mod round;
mod start;
mod value;
mod work;

pub use account::Account;
use account::account_for;
use closures::Whims;
pub use fault::RoundFault;
use lock_free_hashtable::raw::{LockFreeRawTable, is_first_capacity};
pub use round::{Kind, Round};
use start::Start;
use std::alloc::Global;
use std::sync::Wait;
use std::thread;
use std::thread::Threads;
use table_cell::Low;
use testkit::refusing::Refusing;
use work::{Job, ThreadAnswers, Values, work};

/// Runs a round, and accounts for each value. `Err` is the first fault.
pub fn run_round<R: Threads + Wait + Sync>(
    rt: &R,
    alloc: Global,
    round: Round,
) -> Result<Account, RoundFault> {
    let heap = Refusing::new(alloc, round.rule());
    let account = run_over(rt, alloc, &heap, &heap, round)?;
    if account.refused > round.refusals().wrapping_sub(heap.refusals_left()) {
        return Err(RoundFault::Refusals);
    }
    if heap.granted() != heap.given_back() {
        return Err(RoundFault::Blocks);
    }
    Ok(account)
}

/// Runs a round on a table over this memory, whose blocks the heap counts, and accounts for each value. `Err` is the first fault.
fn run_over<R: Threads + Wait + Sync, A: Low + Copy + Send + Sync>(
    rt: &R,
    alloc: Global,
    heap: &Refusing<Global>,
    memory: A,
    round: Round,
) -> Result<Account, RoundFault> {
    let whims = Whims::new(round.seed);
    let start = Start::new(round.threads);
    let table = table_of(memory, round.first_capacity);
    let answers = answers_of_threads(
        rt,
        &Job {
            table: &table,
            whims: &whims,
            start: &start,
            round,
            alloc,
        },
    )?;
    let given_back = heap.given_back();
    let account = account_for(alloc, round, table, answers)?;
    Ok(Account {
        given_back,
        ..account
    })
}

/// Makes an empty table. If `first_capacity` isn't a first capacity, the table has the usual one.
fn table_of<A: Low + Copy>(memory: A, first_capacity: usize) -> Values<A> {
    if is_first_capacity(first_capacity) {
        LockFreeRawTable::with_first_capacity(memory, first_capacity)
    } else {
        LockFreeRawTable::new(memory)
    }
}

/// Runs the threads of the round, and returns the outcomes of each thread. `Err`: memory for the threads was refused.
fn answers_of_threads<R: Threads + Wait + Sync, A: Low + Copy + Send + Sync>(
    rt: &R,
    job: &Job<'_, A>,
) -> Result<Vec<Result<ThreadAnswers, RoundFault>>, RoundFault> {
    let answers = thread::map_indices(
        rt,
        job.alloc,
        job.round.threads as usize,
        &|thread: usize| work(rt, job, thread as u64),
    );
    answers.map_err(RoundFault::from)
}
