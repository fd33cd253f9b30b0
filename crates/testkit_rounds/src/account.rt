//! The account of a round: the outcomes of its inserts, the entries of the table, and the values that the table returns at the end.
use crate::fates::{Fate, Fates};
use crate::value::Value;
use crate::work::{ThreadAnswers, Values, look};
use crate::{Round, RoundFault};
use std::alloc::Global;
use table_cell::Low;

/// How many values of a round without a fault had which fate. Each value that a thread inserted has one fate.
#[derive(Clone, Copy, Debug)]
pub struct Account {
    /// Values that are entries at the end.
    pub placed: u64,
    /// Values that were returned with an entry.
    pub found: u64,
    /// Values that were returned without an entry.
    pub refused: u64,
    /// Blocks that the table freed while the threads ran: one for each lost exchange, and those of growths that were refused memory.
    pub given_back: u64,
}

/// Accounts for each value of a round whose threads have ended. Takes the table apart. `Err` is the first fault.
pub(crate) fn account_for<A: Low + Copy>(
    alloc: Global,
    round: Round,
    table: Values<A>,
    answers: Vec<Result<ThreadAnswers, RoundFault>>,
) -> Result<Account, RoundFault> {
    let mut fates = Fates::new(alloc, round.values())?;
    let account = settle_answers(&mut fates, answers)?;
    if table.len() as u64 != account.placed {
        return Err(RoundFault::Length);
    }
    check_found(&table, round, &fates)?;
    let walked = walk(alloc, round, &table)?;
    let mut classes = Fates::new(alloc, round.values())?;
    for value in table {
        let given = value.given;
        fates.settle(given.id, Fate::Entry)?;
        if round.is_lawful() && classes.settle(given.class, Fate::Entry).is_err() {
            return Err(RoundFault::Equal(given.id));
        }
    }
    fates.check_settled()?;
    fates.check_same_entries(&walked)?;
    Ok(account)
}

/// Notes which values were returned, and counts the outcomes of all threads. `Err`: a thread had a fault, or a value has two fates.
fn settle_answers(
    fates: &mut Fates,
    answers: Vec<Result<ThreadAnswers, RoundFault>>,
) -> Result<Account, RoundFault> {
    let mut account = Account {
        placed: 0,
        found: 0,
        refused: 0,
        given_back: 0,
    };
    for thread in answers {
        let thread = thread?;
        fates.settle_all(thread.found.as_slice(), Fate::Found)?;
        fates.settle_all(thread.refused.as_slice(), Fate::Refused)?;
        account.placed = account.placed.saturating_add(thread.placed);
        account.found = account.found.saturating_add(thread.found.len() as u64);
        account.refused = account.refused.saturating_add(thread.refused.len() as u64);
    }
    Ok(account)
}

/// Checks that a look-up finds an equal entry of each value that wasn't refused, if the closures are lawful. `Err` names the first value
/// without one.
fn check_found<A: Low + Copy>(
    table: &Values<A>,
    round: Round,
    fates: &Fates,
) -> Result<(), RoundFault> {
    if !round.is_lawful() {
        return Ok(());
    }
    for id in 0..round.values() {
        let class = round.given(id).class;
        let shown = look(table, round, class);
        let is_equal = shown.is_some_and(|entry: &Value| entry.given.class == class);
        if !is_equal && fates.of(id) != Some(Fate::Refused) {
            return Err(RoundFault::NotFound(id));
        }
    }
    Ok(())
}

/// Returns the values that a walk yields. `Err`: a value came twice or was never inserted, or memory was refused.
fn walk<A: Low + Copy>(
    alloc: Global,
    round: Round,
    table: &Values<A>,
) -> Result<Fates, RoundFault> {
    let mut walked = Fates::new(alloc, round.values())?;
    for entry in table {
        walked.settle(entry.given.id, Fate::Entry)?;
    }
    Ok(walked)
}
