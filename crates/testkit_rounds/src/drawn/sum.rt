//! The sum of the accounts of rounds.
use crate::{Account, Round};
use std::fmt;
use std::fmt::{Display, Formatter};

/// The sum of the accounts of rounds without a fault.
#[derive(Clone, Copy)]
pub(crate) struct Sum {
    pub(crate) rounds: u64,
    /// The number of values of the largest round.
    largest: u64,
    placed: u64,
    found: u64,
    refused: u64,
    given_back: u64,
}

impl Sum {
    /// Returns the sum of no rounds.
    pub(crate) fn none() -> Sum {
        Sum {
            rounds: 0,
            largest: 0,
            placed: 0,
            found: 0,
            refused: 0,
            given_back: 0,
        }
    }

    /// Adds a round and its account.
    pub(crate) fn with(self, round: Round, account: Account) -> Sum {
        Sum {
            rounds: self.rounds.saturating_add(1),
            largest: self.largest.max(round.values()),
            placed: self.placed.saturating_add(account.placed),
            found: self.found.saturating_add(account.found),
            refused: self.refused.saturating_add(account.refused),
            given_back: self.given_back.saturating_add(account.given_back),
        }
    }
}

impl Display for Sum {
    fn fmt<W: fmt::Write>(&self, f: &mut Formatter<W>) -> fmt::Result {
        write!(
            f,
            "{} rounds of up to {} values, ",
            self.rounds, self.largest
        )?;
        write!(f, "{} placed, {} found, ", self.placed, self.found)?;
        write!(
            f,
            "{} refused, {} blocks given back",
            self.refused, self.given_back
        )
    }
}
