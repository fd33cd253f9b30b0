//! The work of one thread of a round.
use crate::closures::Whims;
use crate::start::Start;
use crate::value::{Given, Value};
use crate::{Kind, Round, RoundFault};
use std::alloc::{AllocError, Global};
use std::sync::Wait;
use table_cell::Low;
use table_shared::LockFreeRawTable;

/// The table of a round.
pub(crate) type Values<A> = LockFreeRawTable<Box<Value>, A>;

/// What an insert returns.
type Answer<'a> = Result<(&'a Value, Option<Box<Value>>), Box<Value>>;

/// What the threads of a round share.
#[derive(Clone, Copy)]
pub(crate) struct Job<'a, A: Low + Copy> {
    pub table: &'a Values<A>,
    pub whims: &'a Whims,
    pub start: &'a Start,
    pub round: Round,
    pub alloc: Global,
}

/// The outcomes of one thread's inserts.
#[derive(Drop)]
pub(crate) struct ThreadAnswers {
    /// How many of its values were placed.
    pub placed: u64,
    /// The ids of the values that were returned with an entry.
    pub found: Vec<u64>,
    /// The ids of the values that were returned without an entry.
    pub refused: Vec<u64>,
}

/// A target that an insert returned, and what it contained then.
#[derive(Clone, Copy)]
struct Kept<'a> {
    target: &'a Value,
    read: Given,
}

/// Waits for the other threads, and inserts the thread's values one after the other. Keeps the first target that an insert returns, and
/// checks it at the end. `Err` is the first fault.
pub(crate) fn work<R: Wait, A: Low + Copy>(
    rt: &R,
    job: &Job<'_, A>,
    thread: u64,
) -> Result<ThreadAnswers, RoundFault> {
    let mut answers = ThreadAnswers {
        placed: 0,
        found: Vec::new(job.alloc),
        refused: Vec::new(job.alloc),
    };
    let mut kept = None;
    job.start.wait();
    for turn in 0..job.round.each {
        let given = job.round.given(job.round.id_at(thread, turn));
        let answer = insert(rt, job, Value::boxed(job.alloc, given)?);
        kept = kept.or(shown_by(&answer));
        note(&mut answers, job.round, given, answer)?;
        look_beside(job, given)?;
    }
    if let Some(first) = kept {
        check_kept(job, thread, first)?;
    }
    Ok(answers)
}

/// Inserts the value with the closures of the round.
fn insert<'a, R: Wait, A: Low + Copy>(rt: &R, job: &Job<'a, A>, value: Box<Value>) -> Answer<'a> {
    let (table, whims, round) = (job.table, job.whims, job.round);
    if round.is_lawful() {
        let hash = round.hash_of(value.given.class);
        return table.insert(
            rt,
            hash,
            value,
            |new: &Value, entry: &Value| new.given.class == entry.given.class,
            |entry: &Value| round.hash_of(entry.given.class),
        );
    }
    let hash = whims.hash(&value.given);
    table.insert(
        rt,
        hash,
        value,
        |new: &Value, entry: &Value| whims.agree(&new.given, &entry.given),
        |entry: &Value| whims.hash(&entry.given),
    )
}

/// Returns the target that the insert returned, if it returned one.
fn shown_by<'a>(answer: &Answer<'a>) -> Option<Kept<'a>> {
    match answer {
        Ok((target, _)) => Some(Kept {
            target: *target,
            read: target.given,
        }),
        Err(_) => None,
    }
}

/// Notes the outcome of an insert. `Err`: the outcome is wrong. A value may be returned without an entry only if memory is refused. An
/// entry that it is returned with must be another value, and an equal one if the closures are lawful.
fn note(
    answers: &mut ThreadAnswers,
    round: Round,
    given: Given,
    answer: Answer<'_>,
) -> Result<(), RoundFault> {
    match answer {
        Ok((target, None)) if target.given == given => answers.placed = answers
            .placed
            .saturating_add(1),
        Ok((target, Some(back)))
            if back.given == given && may_stand_beside(round, given, target.given) => {
            keep(&mut answers.found, given.id)?;
        }
        Err(back) if back.given == given && round.kind == Kind::Refused => {
            keep(&mut answers.refused, given.id)?;
        }
        _ => return Err(RoundFault::Answer(given.id)),
    }
    Ok(())
}

/// Returns whether the value may be returned with this entry.
fn may_stand_beside(round: Round, given: Given, entry: Given) -> bool {
    entry.id != given.id && (entry.class == given.class || !round.is_lawful())
}

/// Appends an id. `Err`: memory was refused.
fn keep(ids: &mut Vec<u64>, id: u64) -> Result<(), AllocError> {
    ids.push(id)?;
    Ok(())
}

/// Returns the entry of a class that a look-up finds.
pub(crate) fn look<'a, A: Low + Copy>(
    table: &'a Values<A>,
    round: Round,
    class: u64,
) -> Option<&'a Value> {
    table.lookup(round.hash_of(class), |entry: &Value| {
        entry.given.class == class
    })
}

/// Returns the id of the entry of a class that a look-up finds.
fn id_of<A: Low + Copy>(job: &Job<'_, A>, class: u64) -> Option<u64> {
    Some(look(job.table, job.round, class)?.given.id)
}

/// Looks up two classes in a round of kind `Beside`. `Err`: the class of the value that was just inserted has no entry, or another class
/// had an entry and now has another one or none.
fn look_beside<A: Low + Copy>(job: &Job<'_, A>, given: Given) -> Result<(), RoundFault> {
    if job.round.kind != Kind::Beside {
        return Ok(());
    }
    let other = job.round.given(job.round.other_than(given.id));
    let before = id_of(job, other.class);
    if id_of(job, given.class).is_none() {
        return Err(RoundFault::NotFound(given.id));
    }
    if before.is_some() && before != id_of(job, other.class) {
        return Err(RoundFault::NotFound(other.id));
    }
    Ok(())
}

/// Checks that the kept target is unchanged and, with lawful closures, that a look-up finds it, not a copy. `Err`: it has changed or moved.
fn check_kept<A: Low + Copy>(
    job: &Job<'_, A>,
    thread: u64,
    kept: Kept<'_>,
) -> Result<(), RoundFault> {
    kept.target.mark(thread);
    let shown = look(job.table, job.round, kept.read.class);
    let stays = shown.is_some_and(|shown: &Value| shown.has_mark(thread));
    if kept.target.given == kept.read && (stays || !job.round.is_lawful()) {
        return Ok(());
    }
    Err(RoundFault::Moved(kept.read.id))
}
