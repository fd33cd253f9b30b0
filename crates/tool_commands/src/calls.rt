//! The lines of `calls` and `shards`, run on a single-owner table.
ghost use Rattle.std.specs.Prelude.{◌≡◌, ◌≢◌, ◌++◌, ℕ, List, OnOk, IfErr, codes};
ghost use Rattle.std.specs.Io.KnownBytes.{Appends};
ghost use Rattle.tool_commands.specs.Faults.{IsInputFault};

use crate::faults::Fault;
use crate::lines::run_lines;
use crate::pairs::PairTable;
use crate::replies::{Reply, write_reply};
use crate::spelling::{Line, parse_line};
use crate::stores::PairStore;
use std::alloc::Allocator;
use std::io::{Read, Write};
use tool_streams::faults::StreamFault;
use tool_streams::line_command::LineCommand;
use tool_streams::output::Output;
use tool_streams::short_lines::ShortLines;

impl<A: Allocator + Copy, B: PairStore<A>> LineCommand for PairTable<B, A> {
    ghost use Rattle.std.specs.Prelude.{ℕ, List};
    ghost use Rattle.tool_commands.specs.Answered.{AnswersAsPairs};
    ghost use Rattle.tool_commands.specs.Spelling.{SpellsLine};

    type Line = Line;

    ghost spells = { SpellsLine };

    fn parse(text: &[u8]) -> Option<Line> {
        parse_line(text)
    }

    /// Runs the line on the table, and writes the reply. The text is the reply of the list of pairs that the table holds.
    fn take<W: Write>(&mut self, line: Line, output: &mut W) -> Result<(), StreamFault>
        ensures fault { IfErr result (λ fault. fault ≢ StreamFault.ReadFailed) }
        ensures first { B.shows.counts.first self.new ≡ B.shows.counts.first self.old }
        ensures answered { OnOk result ((text : List ℕ)
            × AnswersAsPairs B.shows self.old line text self.new
            × Appends (W.contents output.old) (W.contents output.new) (text ++ codes "\n")) }
    {
        match line {
            Line::Insert { hash, number } => {
                let how = self.insert(hash, number);
                write_reply(output, &Reply::Inserted(how))
            }
            Line::Lookup { hash, number } => {
                let found = self.lookup(hash, number);
                write_reply(output, &Reply::LookedUp(found))
            }
            Line::Length => write_reply(output, &Reply::Count(self.length())),
            Line::Capacity => write_reply(output, &Reply::Count(self.capacity())),
            Line::Buckets => write_reply(output, &Reply::Count(self.buckets())),
            Line::Walk => match self.numbers() {
                Ok(numbers) => write_reply(output, &Reply::Numbers(numbers.as_slice())),
                Err(_) => Err(StreamFault::NoMemory),
            },
        }
    }
}

/// Answers the lines of the input on this table of pairs. `alloc` grants the blocks of the pairs.
pub fn run_pairs<A: Allocator + Copy, B: PairStore<A> + Drop, I: Read, O: Write>(
    alloc: A,
    store: B,
    lines: &mut ShortLines<I>,
    output: &mut Output<O>,
) -> Result<(), Fault>
    ensures fault { IfErr result IsInputFault }
{
    let mut table = PairTable::new(alloc, store);
    run_lines(&mut table, lines, output)
}
