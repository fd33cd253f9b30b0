//! Tests of threads that insert values at once: no value is lost, and none is stored twice.
use super::numbers::assert_same;
use std::alloc::Global;
use std::process::Abort;
use std::sync::Wait;
use std::thread::Threads;
use testkit_rounds::{Account, Kind, Round, run_round};

/// Rounds with lawful closures: the kind, the threads, the values of each, the first capacity, and the number of different values.
const LAWFUL: [(Kind, u64, u64, usize, u64); 9] = [
    (Kind::Overlapping, 2, 6000, 16, 9000),
    (Kind::Overlapping, 4, 3000, 128, 7500),
    (Kind::Overlapping, 8, 2000, 64, 9000),
    (Kind::Equal, 2, 5000, 16, 5000),
    (Kind::Equal, 4, 3000, 32, 3000),
    (Kind::Equal, 8, 1000, 16, 1000),
    (Kind::Beside, 2, 4000, 1024, 6000),
    (Kind::Beside, 4, 3000, 16, 7500),
    (Kind::Beside, 8, 1000, 64, 4500),
];

/// Rounds of four threads with unlawful closures or refused memory: the kind, the values of each thread, the first capacity, and the seed.
const OF_FOUR: [(Kind, u64, usize, u64); 11] = [
    (Kind::Careless, 2000, 16, 1),
    (Kind::Careless, 2000, 32, 3),
    (Kind::Careless, 1000, 64, 5),
    (Kind::Careless, 400, 16, 2),
    (Kind::Careless, 400, 64, 4),
    (Kind::Careless, 300, 64, 6),
    (Kind::Refused, 3000, 16, 1),
    (Kind::Refused, 3000, 128, 2),
    (Kind::Refused, 2000, 64, 3),
    (Kind::Refused, 100, 32, 4),
    (Kind::Refused, 100, 16, 5),
];

/// Returns how many values were placed, found or refused.
fn values_of(account: Account) -> u64 {
    let back = account.found.wrapping_add(account.refused);
    account.placed.wrapping_add(back)
}

/// Runs the round and returns its account. Asserts that it has no fault, and that it counts each value as placed, found or refused.
fn assert_round<R: Abort + Threads + Wait + Sync>(rt: &R, alloc: Global, round: Round) -> Account {
    match run_round(rt, alloc, round) {
        Ok(account) if values_of(account) == round.values() => account,
        other => panic!(rt; "{round:?}: {other:?}"),
    }
}

#[test]
fn lawful_closures(rt: HostRuntime) {
    for row in &LAWFUL {
        let (kind, threads, each, first_capacity, different) = *row;
        let round = Round {
            kind,
            threads,
            each,
            first_capacity,
            seed: each,
        };
        let account = assert_round(&rt, rt.alloc(), round);
        assert_same(&rt, [account.placed, account.refused], [different, 0]);
    }
}

#[test]
fn one_thread_loses_no_exchange(rt: HostRuntime) {
    let round = Round {
        kind: Kind::Beside,
        threads: 1,
        each: 3000,
        first_capacity: 16,
        seed: 1,
    };
    let account = assert_round(&rt, rt.alloc(), round);
    assert_same(&rt, [account.placed, account.given_back], [3000, 0]);
}

/// Checks that each round places values, that rounds with unlawful closures find some and refuse none, and that the others refuse some.
#[test]
fn closures_that_lie_and_memory_refused_at_random(rt: HostRuntime) {
    for row in &OF_FOUR {
        let (kind, each, first_capacity, seed) = *row;
        let round = Round {
            kind,
            threads: 4,
            each,
            first_capacity,
            seed,
        };
        let account = assert_round(&rt, rt.alloc(), round);
        let is_careless = matches!(kind, Kind::Careless);
        let is_found = account.found > 0 || !is_careless;
        assert_same(
            &rt,
            [
                account.placed.min(1),
                u64::from(is_found),
                account.refused.min(1),
            ],
            [1, 1, u64::from(!is_careless)],
        );
    }
}

/// How many rounds are drawn, and how many values a round has at most.
const DRAWN: (u64, u64) = (60, 4000);

#[test]
fn drawn_rounds(rt: HostRuntime) {
    let (rounds, most) = DRAWN;
    for seed in 0..rounds {
        let _account = assert_round(&rt, rt.alloc(), Round::drawn(seed, most));
    }
}
