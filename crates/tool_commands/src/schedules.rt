//! The command `core`: the events of a schedule, taken one by one.
ghost use Rattle.std.specs.Prelude.{◌≡◌, ◌≢◌, OnOk, IfErr};
ghost use Rattle.std.specs.Io.KnownBytes.{Appends};
ghost use Rattle.table_core.specs.Machine.{empty};
ghost use Rattle.table_terms.specs.Capacities.{IsFirstCapacity};

use crate::answers::Answer;
use crate::events::{ScheduleLine, parse_schedule_line};
use crate::replies::write_reply;
use std::alloc::Allocator;
use std::io::Write;
use table_core::state::State;
use tool_streams::faults::StreamFault;
use tool_streams::line_command::LineCommand;

/// A schedule of the state machine, so far. Its lines are events, and requests for the number of buckets. A line is written when
/// a call finishes or the number of buckets is requested.
#[derive(Drop)]
pub struct Schedule<A: Allocator + Copy> {
    /// The state of the machine after the events so far.
    pub state: State<A>,
}

impl<A: Allocator + Copy> Schedule<A> {
    /// Makes a schedule without events, on a table whose first generation will have `first` buckets. Does not allocate.
    pub fn new(alloc: A, first: usize) -> Self
        requires { IsFirstCapacity first }
        ensures { result.state ≡ empty first }
    {
        Schedule {
            state: State::with_first_capacity(alloc, first as u64),
        }
    }
}

impl<A: Allocator + Copy> LineCommand for Schedule<A> {
    ghost use Rattle.tool_commands.specs.Events.{SpellsScheduleLine};
    ghost use Rattle.tool_commands.specs.Schedules.{world_after, printed};

    type Line = ScheduleLine;

    ghost spells = { SpellsScheduleLine };

    fn parse(text: &[u8]) -> Option<ScheduleLine> {
        parse_schedule_line(text)
    }

    /// Takes an event and writes the reply of the call that finishes by it, or writes the number of buckets. If memory is refused
    /// the state and the output are unchanged.
    fn take<W: Write>(&mut self, line: ScheduleLine, output: &mut W) -> Result<(), StreamFault>
        ensures fault { IfErr result (λ fault. fault ≢ StreamFault.ReadFailed) }
        ensures taken { OnOk result (self.new.state ≡ world_after self.old.state line) }
        ensures printed { OnOk result (Appends (W.contents output.old) (W.contents output.new)
            (printed self.old.state line)) }
        ensures refused { result ≡ Err StreamFault.NoMemory → (self.new.state ≡ self.old.state)
            × (output.new ≡ output.old) }
    {
        match line {
            ScheduleLine::Step(event) => match self.state.step(event) {
                Ok(Some(finished)) => {
                    let finished = &finished;
                    write_reply(output, &Answer { finished })
                }
                Ok(None) => Ok(()),
                Err(_) => Err(StreamFault::NoMemory),
            },
            ScheduleLine::Buckets => write_reply(output, &self.state.buckets()),
        }
    }
}
