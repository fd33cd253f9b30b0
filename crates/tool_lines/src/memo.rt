//! A memo table, which stores each result of a recursive function once it is computed.
ghost use Rattle.std.specs.Prelude.{◌≡◌, ◌+◌, ◌-◌, ◌*◌, ◌/◌, ◌%◌, ◌^◌, ◌<◌, ◌≤◌, IfOk, IfSome};
ghost use Rattle.tool_lines.specs.Fibonacci.{fibonacci_word};

use std::alloc::{AllocError, Allocator, Global};
use std::marker::Model;
use table_generations::atomic_value::Law;
use table_held::raw::HeldRawTable;
use table_terms::law::hash_number;

/// An argument with the function's result. Every value of this type is right, so a table of such values holds only right results.
#[derive(Drop)]
pub struct Answer {
    pub(crate) argument: u64,
    pub(crate) answer: u64,
    ghost right: { answer ≡ fibonacci_word argument },
}

/// The equality and hash of results: two are equal if their arguments are, and the hash is that of the argument.
pub struct Arguments;

impl Law<Answer> for Arguments {
    ghost use Rattle.table_terms.specs.Laws.{same_by_number, hash_by_number, number_lawful};

    ghost same = { same_by_number (λ a. a.argument) };

    ghost hash_of = { hash_by_number (λ a. a.argument) };

    ghost lawful = { number_lawful (λ a. a.argument) };
}

/// The Fibonacci numbers modulo 2^64, with a table of the results computed so far.
#[derive(Drop)]
pub struct Memo<A: Allocator + Copy = Global> {
    answers: HeldRawTable<Box<Answer, A>, A>,
    alloc: A,
}

impl<A: Allocator + Copy> Model for Memo<A> {
    ghost use Rattle.std.specs.declared.boxed.Box.{Box};
    ghost use Rattle.table_held.specs.Table.{HeldTable};
    ghost use Rattle.tool_lines.specs.Memo.{IsByArgument};
    ghost use Rattle.tool_lines.specs.declared.memo.Answer.{Answer};

    ghost Value = { HeldTable (Box Answer A) };

    ghost view = { λ m. m.answers };

    ghost invariant = { λ m. IsByArgument m.answers };
}

impl<A: Allocator + Copy> Memo<A> {
    ghost use Rattle.std.specs.Prelude.{IfNone, IsOk, OnOk};
    ghost use Rattle.table_held.specs.Table.{empty_table};
    ghost use Rattle.tool_lines.specs.Memo.{Keeps, KeepsAll};

    /// Makes an empty memo table. Does not allocate.
    pub fn new(alloc: A) -> Self
        ensures { result ≡ empty_table 16 }
    {
        Memo {
            answers: HeldRawTable::new(alloc),
            alloc,
        }
    }

    /// Returns the stored result for the argument, if there is one.
    fn recall(&self, argument: u64) -> Option<u64>
        ensures right { IfSome result (λ answer. answer ≡ fibonacci_word argument) }
        ensures found { IfSome result (λ answer. Keeps self.now argument) }
        ensures missing { IfNone result (¬ Keeps self.now argument) }
    {
        let kept = self
            .answers
            .lookup_alone::<Arguments, _>(hash_number(argument), |kept: &Answer| {
                kept.argument == argument
            })?;
        Some(kept.answer)
    }

    /// Stores a result. An `Err` means that memory was refused; the results stored before stay.
    fn keep(&mut self, kept: Answer) -> Result<(), AllocError>
        ensures kept { OnOk result (Keeps self.new kept.argument) }
        ensures stays { KeepsAll self.old self.new }
    {
        let hash = hash_number(kept.argument);
        let kept = Box::new(self.alloc, kept)?;
        match self.answers.place_alone::<Arguments, _, _>(
            hash,
            kept,
            &|a: &Answer, b: &Answer| a.argument == b.argument,
            &|a: &Answer| hash_number(a.argument),
        ) {
            Ok((_, None)) => Ok(()),
            Ok((_, Some(_))) => Ok(()),
            Err(_) => Err(AllocError),
        }
    }

    /// Returns the Fibonacci number of the argument, modulo 2^64. Earlier calls change only the time that it takes: at most three
    /// results are computed for each halving of the argument, so fewer than 200 in a call.
    ///
    /// An `Err` means that memory was refused. The results that are stored stay, and the call can be repeated. A call with an
    /// argument below 2, or one whose result is stored, is never refused.
    pub fn fibonacci(&mut self, argument: u64) -> Result<u64, AllocError>
        ensures right { IfOk result (λ answer. answer ≡ fibonacci_word argument) }
        ensures kept { OnOk result (2 ≤ argument → Keeps self.new argument) }
        ensures small { argument < 2 → IsOk result }
        ensures known { Keeps self.old argument → IsOk result }
        ensures stays { KeepsAll self.old self.new }
    {
        if argument < 2 {
            return Ok(argument);
        }
        if let Some(answer) = self.recall(argument) {
            return Ok(answer);
        }
        let half = (argument - 1) / 2;
        let low = self.fibonacci(half)?;
        let high = self.fibonacci(half + 1)?;
        let answer = doubled(argument, low, high);
        self.keep(Answer { argument, answer })?;
        Ok(answer)
    }
}

/// Returns the Fibonacci number of the argument, computed from the two at half of it.
pub(crate) fn doubled(argument: u64, low: u64, high: u64) -> u64
    requires two { 2 ≤ argument }
    requires low { low ≡ fibonacci_word ((argument - 1) / 2) }
    requires high { high ≡ fibonacci_word ((argument - 1) / 2 + 1) }
    ensures { result ≡ fibonacci_word argument }
{
    if argument % 2 == 1 {
        return sum_of_products(high, high, low, low);
    }
    sum_of_products(high.wrapping_add(low), high, high, low)
}

/// Returns a b + c d, modulo 2^64.
fn sum_of_products(a: u64, b: u64, c: u64, d: u64) -> u64
    ensures { result ≡ (a * b + c * d) % 2 ^ 64 }
{
    a.wrapping_mul(b).wrapping_add(c.wrapping_mul(d))
}
