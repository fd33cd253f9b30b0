//! Tests of the examples in `demo_examples`, and of the memo table in `tool_lines`.
mod accounts;
mod alike;
mod answers;
mod batches;
mod beginning;
mod meetings;
mod memory;
mod schedules;
mod shared;
mod telling;
mod words;

use super::assert_same;
use std::alloc::Allocator;
use tool_lines::memo::Memo;

/// Returns the Fibonacci number of the argument modulo 2^64, computed by additions.
fn slow_fibonacci(argument: u64) -> u64 {
    let mut low = 0u64;
    let mut high = 1u64;
    for _ in 0..argument {
        let next = low.wrapping_add(high);
        low = high;
        high = next;
    }
    low
}

/// Asks the memo for the Fibonacci number of the argument. `None` means that memory was refused.
fn ask<A: Allocator + Copy>(memo: &mut Memo<A>, argument: u64) -> Option<u64> {
    memo.fibonacci(argument).ok()
}
