//! The kinds of jobs that `stress` runs.
ghost use Rattle.std.specs.Prelude.{◌≡◌, ◌<◌, ◌≤◌, Some};

use crate::job::Job;
use std::fmt;

/// A kind of job: which values its workers insert, and when they look them up.
#[derive(Clone, Copy, Debug, PartialEq, Eq)]
pub enum Kind {
    /// Each worker inserts values of its own, and after all have ended it looks them up.
    InsertUnique,
    /// All workers insert the same values, and after all have ended each looks up all of them.
    InsertSame,
    /// Each worker inserts values of its own, and after each insert it looks up the value before.
    InsertLookup,
}

impl Kind {
    ghost use Rattle.tool_commands.specs.Stress.{inserts_of, entries_of, kind_text};

    /// Returns the number of values that each worker inserts.
    pub fn inserts(self) -> usize
        ensures { result ≡ inserts_of self }
    {
        match self {
            Kind::InsertUnique => 1000,
            Kind::InsertSame => 10_000,
            Kind::InsertLookup => 1000,
        }
    }

    /// Returns the number of different values that `threads` workers insert together.
    pub fn entries(self, threads: usize) -> usize
        requires { threads ≤ 64 }
        ensures { result ≡ entries_of self threads }
    {
        match self {
            Kind::InsertUnique => 1000 * threads,
            Kind::InsertSame => 10_000,
            Kind::InsertLookup => 1000 * threads,
        }
    }

    /// Makes the job of this kind and number.
    pub fn job(self, number: u64) -> Job
        requires { number < 1000 }
        ensures kind { result.kind ≡ self }
        ensures number { result.number ≡ number }
    {
        Job { kind: self, number }
    }

    /// Returns the name of the kind.
    fn name(self) -> &'static str
        ensures { result.now ≡ kind_text self }
    {
        match self {
            Kind::InsertUnique => "insert_unique",
            Kind::InsertSame => "insert_same",
            Kind::InsertLookup => "insert_lookup",
        }
    }
}

impl fmt::Display for Kind {
    ghost use Rattle.tool_commands.specs.Stress.{kind_text};

    ghost output = { λ k. Some (kind_text k) };

    fn fmt<W: fmt::Write>(&self, f: &mut fmt::Formatter<W>) -> fmt::Result {
        write!(f, "{}", self.name())
    }
}
