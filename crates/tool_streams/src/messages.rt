//! The message of a fault.
ghost use Rattle.std.specs.Prelude.{◌≡◌, ◌++◌, OnOk, IfSome, codes};
ghost use Rattle.std.specs.Io.KnownBytes.{Appends};

use crate::faults::RunFault;
use std::io;
use std::io::Write;

/// Writes the message of the fault, if it can be written, and returns the exit status.
pub fn end_with<F: RunFault, M: Write>(fault: &F, messages: &mut M) -> u8
    ensures { result ≡ F.status_of fault.now }
{
    if write_message(fault, messages).is_ok() {
        let _ = messages.flush();
    }
    fault.status()
}

/// Writes the message of the fault on a line of its own.
pub fn write_message<F: RunFault, M: Write>(fault: &F, messages: &mut M) -> io::Result<()>
    ensures { OnOk result (IfSome (F.output fault.now) (λ message.
        Appends (M.contents messages.old) (M.contents messages.new) (message ++ codes "\n"))) }
{
    writeln!(messages, "{fault}")
}
