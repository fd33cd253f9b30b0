//! The plan of which rounds run.
use std::convert::AsStr;

/// How many rounds run if no time is given.
const FEW: u64 = 20;

/// The most values of a round if no time is given.
const SMALL: u64 = 10_000;

/// The most values of a round if a time is given.
const LARGE: u64 = 1_000_000;

/// When no more rounds begin.
#[derive(Clone, Copy)]
pub enum End {
    /// After this number of rounds.
    Rounds(u64),
    /// After this number of minutes.
    Minutes(u64),
}

/// The rounds of the seeds from the first one on, each with `most` values at most.
#[derive(Clone, Copy)]
pub struct Plan {
    pub end: End,
    pub first_seed: u64,
    pub most: u64,
}

impl Plan {
    /// Returns the plan of a few small rounds.
    fn few() -> Plan {
        Plan {
            end: End::Rounds(FEW),
            first_seed: 0,
            most: SMALL,
        }
    }

    /// Returns the plan of large rounds for this number of minutes.
    fn timed(minutes: u64, first_seed: u64) -> Plan {
        Plan {
            end: End::Minutes(minutes),
            first_seed,
            most: LARGE,
        }
    }

    /// Returns the plan that the arguments ask for: none, the minutes, or the minutes and the first seed. `None`: they are anything else.
    pub fn of_words<S: AsStr>(words: &[S]) -> Option<Plan> {
        match words {
            [] => Some(Plan::few()),
            [minutes] => Some(Plan::timed(parse_word(minutes)?, 0)),
            [minutes, first_seed] => {
                Some(Plan::timed(parse_word(minutes)?, parse_word(first_seed)?))
            }
            _ => None,
        }
    }

    /// Returns whether no more rounds begin after this number of rounds and of minutes.
    pub fn is_over(&self, rounds: u64, minutes: u64) -> bool {
        match self.end {
            End::Rounds(most) => most <= rounds,
            End::Minutes(most) => most <= minutes,
        }
    }
}

/// Parses a number. `None`: the word isn't one.
fn parse_word<S: AsStr>(word: &S) -> Option<u64> {
    word.as_str().parse::<u64>().ok()
}
