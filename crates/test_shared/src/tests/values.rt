//! Tests of other kinds of values in a table that threads share, and of a million values.
use super::numbers::{Boxed, InsertEnd, Inserts, Numbers, Shared, assert_same, handed};
use lock_free_hashtable::InPlace;
use std::alloc::{AllocError, Global};
use std::num::NonZeroU32;
use std::process::Abort;
use std::sync::{Arc, Wait};
use std::test::Fail;
use testkit::counting::asked::{Lawful, Numbered};
use testkit::counting::made::Made;
use testkit::counting::numbers::{count_first, fill, seen, those_below};
use testkit::counting::tally::{Tally, Work, at_once};

/// Inserts the numbers below `count` as values of this kind, and asserts that look-ups and iterators find each. `Err`: no memory.
fn assert_holds<R: Abort + Wait, T: Made>(
    rt: &R,
    alloc: Global,
    count: u64,
) -> Result<(), AllocError>
where
    T::Target: Numbered,
{
    let table: Shared<T> = Shared::new(alloc, alloc, Lawful::Spread);
    assert_same(rt, fill(rt, &table, 0..count), Tally::of(count, 0));
    assert_same(rt, seen(&table, count), those_below(count));
    let (values, first) = count_first(handed(table.table, alloc)?);
    assert_same(rt, [values, first], [count, count]);
    Ok(())
}

#[test]
fn narrow_numbers_are_found(rt: HostRuntime) -> Result<(), Fail> {
    assert_holds::<_, NonZeroU32>(&rt, rt.alloc(), 9999)?;
    Ok(())
}

#[test]
fn ten_shared_values_sorted(rt: HostRuntime) -> Result<(), Fail> {
    assert_holds::<_, Arc<u16>>(&rt, rt.alloc(), 10)?;
    Ok(())
}

#[test]
fn a_million_numbers(rt: HostRuntime) -> Result<(), Fail> {
    assert_holds::<_, InPlace<u64>>(&rt, rt.alloc(), 1_000_000)?;
    Ok(())
}

/// The work of two threads: each inserts its own number, or looks up the numbers of both.
#[derive(Drop)]
struct Joined<'a> {
    table: &'a Boxed<Global>,
    inserts: bool,
}

impl<'a> Work for Joined<'a> {
    fn work<R: Wait>(&self, rt: &R, thread: u64) -> Tally {
        let answer = if self.inserts {
            self.table.insert(rt, thread)
        } else if self.table.contains(0) && self.table.contains(1) {
            InsertEnd::Found
        } else {
            InsertEnd::Wrong
        };
        Tally::NONE.with(answer)
    }
}

#[test]
fn what_a_joined_thread_inserted_is_found(rt: HostRuntime) {
    let table: Boxed<Global> = Boxed::new(rt.alloc(), rt.alloc(), Lawful::Spread);
    for (inserts, placed, found) in [(true, 2, 0), (false, 0, 2)] {
        let joined = Joined {
            table: &table,
            inserts,
        };
        assert_same(
            &rt,
            at_once(&rt, rt.alloc(), 2, &joined),
            Tally::of(placed, found),
        );
    }
}
