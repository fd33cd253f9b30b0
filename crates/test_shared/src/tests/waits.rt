//! A test of an insert that waits for the lock while another thread grows the table.
use super::numbers::{Boxed, Inserts, assert_same};
use std::alloc::Global;
use std::process::Abort;
use std::sync::Wait;
use std::thread::Threads;
use table_terms::law::hash_number;
use testkit::counting::asked::{Asked, Lawful};
use testkit::counting::numbers::{InsertEnd, fill, seen, those_below};
use testkit::counting::tally::{Tally, Work, at_once};
use testkit::refusing::handover::Handover;

/// The number whose insert grows a table that has all numbers below it.
const GROWS: u64 = 7;

/// How many tables are grown.
const ROUNDS: u64 = 20;

/// A table, and the signs of two threads: that one copies entries, and that the other is about to insert.
#[derive(Drop)]
struct Growing {
    table: Boxed<Global>,
    signs: Handover,
}

/// Growth gets a hash only after the other thread has had the time to come to the lock.
impl Asked for Growing {
    fn hash(&self, number: u64) -> u64 {
        self.signs.hand_over();
        hash_number(number)
    }
}

impl Growing {
    /// Inserts the next number while the other thread copies entries, and returns the answer.
    fn insert_meanwhile<R: Wait>(&self, rt: &R) -> InsertEnd {
        self.signs.take_over();
        self.table.insert(rt, GROWS.wrapping_add(1))
    }
}

impl Work for Growing {
    fn work<R: Wait>(&self, rt: &R, thread: u64) -> Tally {
        Tally::NONE.with(if thread == 0 {
            self.table.insert_asking(rt, GROWS, self)
        } else {
            self.insert_meanwhile(rt)
        })
    }
}

/// Grows a table by one thread while another one inserts, and asserts that both numbers are entries afterwards.
fn assert_waits<R: Abort + Threads + Wait + Sync>(rt: &R, alloc: Global) {
    let growing = Growing {
        table: Boxed::new(alloc, alloc, Lawful::Spread),
        signs: Handover::new(),
    };
    assert_same(rt, fill(rt, &growing.table, 0..GROWS), Tally::of(GROWS, 0));
    assert_same(rt, at_once(rt, alloc, 2, &growing), Tally::of(2, 0));
    assert_same(rt, growing.signs.went_alone(), 0);
    assert_same(
        rt,
        seen(&growing.table, GROWS.wrapping_add(2)),
        those_below(GROWS.wrapping_add(2)),
    );
}

#[test]
fn an_insert_that_waited_goes_on_in_the_new_generation(rt: HostRuntime) {
    for _round in 0..ROUNDS {
        assert_waits(&rt, rt.alloc());
    }
}
