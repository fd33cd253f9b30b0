//! The check that the program's words name.
ghost use Rattle.std.specs.Prelude.{ℕ, List, map, IfSome, IfNone};
ghost use Rattle.testkit_checks.specs.Checks.{NamesCheck};
ghost use Rattle.testkit_checks.specs.declared.check.Check.{Check as CheckOf};

use std::convert::AsStr;

/// A check of `tool_checks`.
#[derive(Clone, Copy)]
pub enum Check {
    /// A few schedules, a few rounds, and workloads of the measurements, without a clock.
    All,
    Replays,
    Stress,
    Bench,
}

/// Parses the words after the program's name. Returns the check and the words that are left for it. `None`: the words name no check.
pub fn parse_check<S: AsStr>(words: &[S]) -> Option<(Check, &[S])>
    ensures named { IfSome result (λ named. NamesCheck (map S.text words.now) named.0
        (map S.text named.1.now)) }
    ensures wrong { IfNone result ((check : CheckOf) (rest : List (List ℕ))
        → ¬ NamesCheck (map S.text words.now) check rest) }
{
    match words {
        [] => Some((Check::All, words)),
        [name, rest @ ..] => match name.as_str().as_bytes() {
            b"replays" => Some((Check::Replays, rest)),
            b"stress" => Some((Check::Stress, rest)),
            b"bench" => Some((Check::Bench, rest)),
            _ => None,
        },
    }
}
