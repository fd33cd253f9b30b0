//! The command `shards`: the lines of `calls`, run on a single-owner table over shards.
ghost use Rattle.std.specs.Prelude.{◌≤◌, IfErr};
ghost use Rattle.std.specs.Int.{IsPowerOfTwo};
ghost use Rattle.table_terms.specs.Capacities.{IsFirstCapacity};
ghost use Rattle.tool_commands.specs.Faults.{IsInputFault};

use crate::arguments::ShardCount;
use crate::calls::run_pairs;
use crate::faults::Fault;
use crate::stores::ShardedPairs;
use std::alloc::Allocator;
use std::io::{Read, Write};
use tool_streams::output::Output;
use tool_streams::short_lines::ShortLines;

/// Answers the lines of the input on a table over this many shards. The first generation of each will have `first` buckets.
pub fn run_shards<A: Allocator + Copy, I: Read, O: Write>(
    alloc: &A,
    shards: ShardCount,
    first: usize,
    lines: &mut ShortLines<I>,
    output: &mut Output<O>,
) -> Result<(), Fault>
    requires { IsFirstCapacity first }
    ensures fault { IfErr result IsInputFault }
{
    match shards {
        ShardCount::One => run_pairs(alloc, over::<1, A>(alloc, first), lines, output),
        ShardCount::Two => run_pairs(alloc, over::<2, A>(alloc, first), lines, output),
        ShardCount::Four => run_pairs(alloc, over::<4, A>(alloc, first), lines, output),
        ShardCount::Eight => run_pairs(alloc, over::<8, A>(alloc, first), lines, output),
        ShardCount::Sixteen => run_pairs(alloc, over::<16, A>(alloc, first), lines, output),
    }
}

/// Makes an empty table over `SHARDS` shards. The allocator is borrowed: a table over shards must be proved to fit in memory, and
/// the size of a borrow is known.
fn over<const SHARDS: usize, A: Allocator + Copy>(
    alloc: &A,
    first: usize,
) -> ShardedPairs<SHARDS, &A>
    requires shards { IsPowerOfTwo SHARDS }
    requires few { SHARDS ≤ 16 }
    requires first { IsFirstCapacity first }
{
    ShardedPairs::new(alloc, first)
}
