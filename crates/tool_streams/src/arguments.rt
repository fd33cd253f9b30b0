//! The arguments that a program was called with.
ghost use Rattle.std.specs.Prelude.{◌≡◌, ◌⊎◌, IfErr, IsOk, OnErr};

use crate::faults::{RunFault, StreamFault};
use crate::messages::end_with;
use std::env;
use std::io::{ErrorKind, Write};
use std::rt::Env;

/// Returns the arguments after the program's name, or `None` if one of them is not UTF-8.
pub fn read_words<E: Env + Alloc>(env: &E) -> Result<Option<Vec<String<E::A>, E::A>>, StreamFault>
    ensures { OnErr result (result ≡ Err StreamFault.NoMemory) }
{
    let words = match env::args(env) {
        Ok(words) => words,
        Err(error) if error.kind() == ErrorKind::OutOfMemory => return Err(StreamFault::NoMemory),
        Err(_) => return Ok(None),
    };
    match words.skip(1).collect(env.alloc()) {
        Ok(words) => Ok(Some(words)),
        Err(_) => Err(StreamFault::NoMemory),
    }
}

/// Returns the arguments after the program's name. An `Err` is the exit status with which the program ends without them, after
/// its message is written. If an argument is not UTF-8, that is the status of `usage`.
pub fn words_or_status<E: Env + Alloc, F: RunFault, M: Write>(
    env: &E,
    usage: &F,
    messages: &mut M,
) -> Result<Vec<String<E::A>, E::A>, u8>
    ensures well { IsOk result → messages.new ≡ messages.old }
    ensures status { IfErr result (λ status. (status ≡ F.status_of usage.now) ⊎ (status ≡ 1)) }
{
    match read_words(env) {
        Ok(Some(words)) => Ok(words),
        Ok(None) => Err(end_with(usage, messages)),
        Err(fault) => Err(end_with(&fault, messages)),
    }
}
