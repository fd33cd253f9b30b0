//! Commands whose input is lines.
ghost use Rattle.std.specs.Prelude.{IfErr};
ghost use Rattle.tool_commands.specs.Faults.{IsInputFault};

use crate::faults::Fault;
use std::io::{Read, Write};
use tool_streams::line_command::{LineCommand, take_lines};
use tool_streams::output::Output;
use tool_streams::short_lines::ShortLines;

/// Takes the lines of the input, one by one, until one can't be parsed or the input ends; see `take_lines`.
pub(crate) fn run_lines<C: LineCommand, I: Read, O: Write>(
    command: &mut C,
    lines: &mut ShortLines<I>,
    output: &mut Output<O>,
) -> Result<(), Fault>
    ensures fault { IfErr result IsInputFault }
{
    take_lines(command, lines, output).map_err(Fault::from)
}
