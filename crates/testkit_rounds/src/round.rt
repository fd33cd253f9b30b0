//! A round: the threads, the values that they insert, and the table.
use crate::value::Given;
use rand_core::{Rng, SeedableRng};
use rand_xoshiro::SplitMix64;
use table_terms::law::hash_number;
use testkit::refusing::Rule;

/// One request in this number is refused, on average, if memory is refused at random.
const REFUSED_ONE_IN: u64 = 6;

/// The kinds of drawn rounds.
const KINDS: [Kind; 5] = [
    Kind::Overlapping,
    Kind::Equal,
    Kind::Beside,
    Kind::Careless,
    Kind::Refused,
];

/// The numbers of threads of drawn rounds.
const THREADS: [u64; 3] = [2, 4, 8];

/// The first capacities of the tables of drawn rounds.
const FIRST_CAPACITIES: [usize; 4] = [16, 32, 256, 4096];

/// A drawn round draws one of these bounds, and then its number of values up to that bound.
const SIZES: [u64; 7] = [1, 10, 100, 1000, 10_000, 100_000, 1_000_000];

/// Which values the threads of a round insert, and how.
#[derive(Clone, Copy, Debug, PartialEq)]
pub enum Kind {
    /// Each thread shares half of its classes with the next one.
    Overlapping,
    /// All threads insert the same classes in the same order.
    Equal,
    /// As `Overlapping`, and each thread also looks up its own classes and those of others.
    Beside,
    /// As `Overlapping`, with closures whose answers are drawn.
    Careless,
    /// As `Overlapping`, with memory that is refused at random.
    Refused,
}

/// A round of threads that insert values into one table.
#[derive(Clone, Copy, Debug)]
pub struct Round {
    pub kind: Kind,
    pub threads: u64,
    /// How many values each thread inserts.
    pub each: u64,
    /// The first capacity of the table. 16 is used if this isn't a first capacity.
    pub first_capacity: usize,
    /// The seed of all draws.
    pub seed: u64,
}

impl Round {
    /// Draws the round of a seed, with at most `most` values or one for each thread. Small rounds are as likely as large ones.
    pub fn drawn(seed: u64, most: u64) -> Round {
        let mut numbers = SplitMix64::seed_from_u64(seed);
        let kind = pick(&mut numbers, KINDS.as_slice(), Kind::Overlapping);
        let threads = pick(&mut numbers, THREADS.as_slice(), 2);
        let first_capacity = pick(&mut numbers, FIRST_CAPACITIES.as_slice(), 16);
        let bound = pick(&mut numbers, SIZES.as_slice(), 1).min(most);
        let values = draw(&mut numbers, bound).saturating_add(1);
        Round {
            kind,
            threads,
            each: values.checked_div(threads).unwrap_or(0).max(1),
            first_capacity,
            seed,
        }
    }

    /// Returns how many values the threads insert. Their ids are the numbers below this one.
    pub fn values(&self) -> u64 {
        self.threads.saturating_mul(self.each)
    }

    /// Returns the class of a thread's first value. Each thread shares half of its classes with the next one, or all have the same.
    pub fn first_of(&self, thread: u64) -> u64 {
        match self.kind {
            Kind::Equal => 0,
            _ => thread.wrapping_mul(self.each / 2),
        }
    }

    /// Returns whether the closures keep a law.
    pub(crate) fn is_lawful(&self) -> bool {
        self.kind != Kind::Careless
    }

    /// Returns the class and the id of the value with this id.
    pub(crate) fn given(&self, id: u64) -> Given {
        let thread = id.checked_div(self.each).unwrap_or(0);
        let place = id.checked_rem(self.each).unwrap_or(0);
        Given {
            class: self.first_of(thread).wrapping_add(place),
            id,
        }
    }

    /// Returns the id of the value that a thread inserts in this turn. Every second thread goes through its values backwards, so that
    /// neighbours come to the classes that they share at the same time.
    pub(crate) fn id_at(&self, thread: u64, turn: u64) -> u64 {
        let goes_down = self.kind != Kind::Equal && thread % 2 == 1;
        let place = if goes_down {
            self.each.wrapping_sub(1).wrapping_sub(turn)
        } else {
            turn
        };
        thread.wrapping_mul(self.each).wrapping_add(place)
    }

    /// Returns the id of another value. If the number of values is odd, one value gets its own id.
    pub(crate) fn other_than(&self, id: u64) -> u64 {
        let far = id.wrapping_mul(3).wrapping_add(1);
        far.checked_rem(self.values()).unwrap_or(0)
    }

    /// Returns the hash of a class for lawful closures. Four classes have the same hash.
    pub(crate) fn hash_of(&self, class: u64) -> u64 {
        hash_number(self.seed ^ (class / 4))
    }

    /// Returns how many requests for memory may be refused.
    pub(crate) fn refusals(&self) -> u64 {
        match self.kind {
            Kind::Refused => u64::MAX,
            _ => 0,
        }
    }

    /// Returns the rule by which requests for memory are refused.
    pub fn rule(&self) -> Rule {
        Rule::new(0, usize::MAX, 0, self.refusals()).drawn(self.seed, REFUSED_ONE_IN)
    }
}

/// Draws a number below `bound`, or 0 if `bound` is 0.
fn draw(numbers: &mut SplitMix64, bound: u64) -> u64 {
    numbers.next_u64().checked_rem(bound).unwrap_or(0)
}

/// Draws one of `from`. Returns `first` if there is none.
fn pick<X: Copy>(numbers: &mut SplitMix64, from: &[X], first: X) -> X {
    let index = draw(numbers, from.len() as u64) as usize;
    from.get(index).copied().unwrap_or(first)
}
