//! One job of `stress`.
ghost use Rattle.std.specs.Prelude.{◌<◌};

use crate::kinds::Kind;

/// A job. Jobs of one kind are run one after another, each with other values.
#[derive(Clone, Copy)]
pub struct Job {
    pub kind: Kind,
    /// The number of the job among those of its kind, from 0 on.
    pub number: u64,
    ghost few: { number < 1000 },
}
