//! A bucket with a single owner, a bucket that names its entry, and the end of both.
ghost use Rattle.std.specs.Prelude.{◌≡◌};
ghost use Rattle.table_cell.specs.Contents.{Lies};

use std::alloc::{Allocator, Global};
use std::cell::Cell;
use std::rc::Rc;
use std::test::Fail;
use table_cell::{Bucket, Home, Mark, Refusal};

/// A value that counts its drops.
struct Counting {
    drops: Rc<Cell<u64>>,
}

impl Drop for Counting {
    fn drop(self) {
        let Counting { drops } = self;
        drops.set(drops.get().saturating_add(1));
    }
}

/// What a bucket shows: that it is vacant, owns its block or names it, and with the block its hash bits and value.
#[derive(PartialEq, Debug, Clone, Copy)]
enum Seen {
    Vacant,
    Own(u8, u64),
    Named(u8, u64),
}

fn look_at(home: &Home, bucket: &Bucket<u64, Global>) -> Seen
    requires { bucket.now.home ≡ home.now.id }
{
    let value = match bucket.as_ref().get_alone(home) {
        Some(entry) => entry.value,
        None => 0,
    };
    match bucket.as_ref().mark() {
        Mark::Unmarked => Seen::Vacant,
        Mark::Own(bits) => Seen::Own(bits, value),
        Mark::Named(bits) => Seen::Named(bits, value),
    }
}

/// Offers two values to a bucket, and names its entry in a second bucket. Returns what the first shows before and after, what the second
/// shows, and the values that the second and then the first return at the end.
fn life(alloc: Global) -> ([Seen; 3], [Option<u64>; 2]) {
    let home = Home::new();
    let mut first = Bucket::new(&alloc, &home);
    let before = look_at(&home, &first);
    let _placed = first.place_alone(&home, alloc, 5, 200).is_ok();
    let _taken = first.place_alone(&home, alloc, 6, 100).is_ok();
    let after = look_at(&home, &first);
    let second = match first.as_ref().naming(alloc) {
        Some(named) => named,
        None => Bucket::new(&alloc, &home),
    };
    let named = look_at(&home, &second);
    let closed = home.close();
    (
        [before, after, named],
        [
            second.take_alone(&closed, alloc),
            first.take_alone(&closed, alloc),
        ],
    )
}

#[test]
fn a_named_bucket_shows_the_entry_and_owns_nothing(rt: HostRuntime) {
    let (shown, taken) = life(rt.alloc());
    assert_eq!(rt;
        shown,
        [Seen::Vacant, Seen::Own(200, 5), Seen::Named(200, 5)]
    );
    assert_eq!(rt; taken, [None, Some(5)]);
}

/// Places a value, names its entry twice, and drops the buckets that name it. Returns the value that the bucket returns at the end.
fn named_and_given_up(alloc: Global, value: Counting) -> Option<Counting> {
    let home = Home::new();
    let mut bucket = Bucket::new(&alloc, &home);
    let _placed = bucket.place_alone(&home, alloc, value, 1).is_ok();
    let first = bucket.as_ref().naming(alloc);
    let second = match &first {
        Some(named) => named.as_ref().naming(alloc),
        None => None,
    };
    drop(first);
    drop(second);
    let note = bucket.as_ref().note();
    let closed = home.close();
    bucket.take(&closed, alloc, note)
}

#[test]
fn a_block_is_freed_by_the_bucket_that_placed_it(rt: HostRuntime) -> Result<(), Fail> {
    let drops = Rc::new(rt.alloc(), Cell::new(0u64))?;
    let value = Counting {
        drops: drops.clone()?,
    };
    let back = named_and_given_up(rt.alloc(), value);
    assert_eq!(rt; drops.get(), 0);
    drop(back);
    assert_eq!(rt; drops.get(), 1);
    Ok(())
}
