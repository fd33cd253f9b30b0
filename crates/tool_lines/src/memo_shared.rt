//! A memo table that threads share.
ghost use Rattle.std.specs.Prelude.{◌≡◌, ◌+◌, ◌-◌, ◌*◌, ◌/◌, ◌%◌, ◌^◌, ◌<◌, ◌≤◌, IfOk, IfSome, IsOk};
ghost use Rattle.tool_lines.specs.Fibonacci.{fibonacci_word};

use crate::memo::{Answer, doubled};
use shared_set::{Handle, SharedSet};
use std::alloc::{AllocError, Global};
use table_cell::Low;
use table_sets::{ByField, NumberLaw, OfField};

impl ByField for Answer {
    type Field = u64;

    ghost field_of = { λ a. a.argument };

    fn field(&self) -> &u64 {
        &self.argument
    }
}

/// The results that threads have stored. No two are of one argument.
pub type Answers<A = Global> = SharedSet<Answer, OfField<NumberLaw>, A>;

/// What one thread computes Fibonacci numbers modulo 2^64 by. It stores each result for all threads.
#[derive(Drop)]
pub struct Solver<'a, A: Low + Copy = Global> {
    answers: Handle<'a, Answer, OfField<NumberLaw>, A>,
}

impl<'a, A: Low + Copy> Solver<'a, A> {
    /// Makes a solver of a thread, which stores its results here.
    pub fn new(answers: &'a Answers<A>) -> Self {
        Solver {
            answers: answers.handle(),
        }
    }

    /// Returns the stored result for the argument, if this solver finds one.
    fn recall(&mut self, argument: u64) -> Option<u64>
        ensures { IfSome result (λ answer. answer ≡ fibonacci_word argument) }
    {
        match self.answers.get_by_key(&argument) {
            Some(kept) => Some(kept.answer),
            None => None,
        }
    }

    /// Stores a result, unless a thread has stored it. An `Err` means that memory was refused.
    fn keep(&mut self, kept: Answer) -> Result<(), AllocError> {
        match self.answers.insert(kept).into_entry() {
            Ok(_) => Ok(()),
            Err(_) => Err(AllocError),
        }
    }

    /// Returns the Fibonacci number of the argument, modulo 2^64. What any thread has stored changes only the time that it takes.
    ///
    /// An `Err` means that memory was refused. The results that are stored stay, and the call can be repeated. A call with an argument
    /// below 2 is never refused.
    pub fn fibonacci(&mut self, argument: u64) -> Result<u64, AllocError>
        ensures right { IfOk result (λ answer. answer ≡ fibonacci_word argument) }
        ensures small { argument < 2 → IsOk result }
    {
        if argument < 2 {
            return Ok(argument);
        }
        if let Some(answer) = self.recall(argument) {
            return Ok(answer);
        }
        let half = (argument - 1) / 2;
        let low = self.fibonacci(half)?;
        let high = self.fibonacci(half + 1)?;
        let answer = doubled(argument, low, high);
        self.keep(Answer { argument, answer })?;
        Ok(answer)
    }
}
