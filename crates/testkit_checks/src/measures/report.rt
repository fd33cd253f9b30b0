//! The printing of a measurement.
ghost use Rattle.std.specs.Prelude.{◌≡◌, OnOk};

use std::io;
use std::num::nearest_u64_to_f64;
use std::rt::Clock;
use std::time::Instant;

/// Prints the usage as a message, and returns `Err`.
pub fn refuse_words(rt: &impl Eprint) -> io::Result<()> {
    eprintln!(rt;
        "usage: tool_checks bench [list | held|held-in-place|held-set|held-shards one|seq|step|1e4|1e5|1e7|1e8 | \
        shared|shared-in-place|shared-set|shared-shards|records-shared-set one|seq|step|1e4|1e5|1e7|1e8 | \
        shared|shared-in-place|shared-set|shared-shards|records-shared-set same|ins|hit [THREADS] | \
        texts-shared-interner txt|txt4|words | seats one|seq|same|ins | core one | interner 1e4|1e5|1e6]"
    )?;
    Err(io::Error::from(io::ErrorKind::InvalidInput))
}

/// Compares a count with the one that is wanted. `Err`: they differ.
pub(crate) fn expect(count: u64, wanted: u64) -> io::Result<()>
    ensures { OnOk result (count ≡ wanted) }
{
    if count != wanted {
        return Err(io::Error::from(io::ErrorKind::InvalidData));
    }
    Ok(())
}

/// The name under which measurements are printed.
#[derive(Drop)]
pub struct Report<'a> {
    pub name: &'a str,
}

impl Report<'_> {
    /// Prints the mean time of an operation since `start`. `Err`: the count `done` isn't `wanted` (then nothing is printed), or an I/O error.
    pub fn time(
        &self,
        rt: &(impl Print + Clock),
        measurement: &str,
        start: Instant,
        done: u64,
        wanted: u64,
        operations: u64,
    ) -> io::Result<()>
        ensures { OnOk result (done ≡ wanted) }
    {
        expect(done, wanted)?;
        let nanos = start.elapsed(rt)?.as_secs_f64() * 1e9 / nearest_u64_to_f64(operations);
        let name = self.name;
        println!(rt; "{name} {measurement} {nanos:.2}")
    }
}
