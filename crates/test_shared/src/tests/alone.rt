//! Tests of a shared table that only one thread uses.
use super::numbers::{Boxed, InsertEnd, Inserts, Numbers, assert_same};
use std::alloc::Global;
use std::sync::Wait;
use testkit::counting::asked::Lawful;
use testkit::counting::numbers::{fill, seen, those_below};
use testkit::counting::tally::Tally;

/// How many numbers are inserted. The table grows eight times.
const NUMBERS: u64 = 2000;

#[test]
fn a_table_without_entries(rt: HostRuntime) {
    let table: Boxed<Global> = Boxed::new(rt.alloc(), rt.alloc(), Lawful::Spread);
    assert_same(&rt, seen(&table, 0), those_below(0));
    assert_same(&rt, table.size(), [0, 0, 0]);
    assert!(rt; table.table.into_iter().next().is_none());
}

/// Inserts the numbers, and returns the tally of the answers. A number that a look-up finds before its insert counts as `Wrong`.
fn fill_anew<R: Wait>(rt: &R, table: &Boxed<Global>) -> Tally {
    let mut tally = Tally::NONE;
    for number in 0..NUMBERS {
        if table.contains(number) {
            tally = tally.with(InsertEnd::Wrong);
        }
        tally = tally.with(table.insert(rt, number));
    }
    tally
}

#[test]
fn numbers_over_growth(rt: HostRuntime) {
    let table: Boxed<Global> = Boxed::new(rt.alloc(), rt.alloc(), Lawful::Spread);
    assert_same(&rt, fill_anew(&rt, &table), Tally::of(NUMBERS, 0));
    assert_same(&rt, fill(&rt, &table, 0..NUMBERS), Tally::of(0, NUMBERS));
    assert_same(&rt, seen(&table, NUMBERS), those_below(NUMBERS));
}

#[test]
fn different_values_of_one_hash(rt: HostRuntime) {
    let table: Boxed<Global> = Boxed::new(rt.alloc(), rt.alloc(), Lawful::At(7));
    assert_same(&rt, fill(&rt, &table, 0..50), Tally::of(50, 0));
    assert_same(&rt, seen(&table, 50), those_below(50));
}
