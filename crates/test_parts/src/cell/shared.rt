//! A bucket that threads share.
ghost use Rattle.std.specs.Prelude.{◌≡◌};
ghost use Rattle.table_cell.specs.Contents.{Lies};

use std::alloc::Global;
use std::sync::Arc;
use std::sync::atomic::AtomicU64;
use std::sync::atomic::Ordering::SeqCst;
use std::test::Fail;
use std::thread;
use std::thread::Threads;
use table_cell::{Bucket, Home, Missed};
use testkit::counting::Counting;

/// One bucket with its home.
struct One {
    home: Home,
    bucket: Bucket<Counting, Global>,
    alloc: Global,
    ghost lies: { Lies home.id alloc bucket },
}

/// What became of a thread's value, and the number that the bucket then shows.
#[derive(Clone, Copy)]
enum Fared {
    Placed(u64),
    Taken(u64),
    Refused,
}

impl One {
    fn new(alloc: Global) -> One {
        let home = Home::new();
        let bucket = Bucket::new(&alloc, &home);
        One {
            home,
            bucket,
            alloc,
        }
    }

    fn place(&self, number: u64, drops: Arc<AtomicU64>) -> Fared {
        let mut note = self.bucket.as_ref().note();
        match self.bucket.as_ref().place(
            &self.home,
            self.alloc,
            Counting::new(number, drops),
            3,
            &mut note,
        ) {
            Ok(entry) => Fared::Placed(entry.value.number),
            Err(Missed::Taken(_back, entry)) => Fared::Taken(entry.value.number),
            Err(Missed::NoMemory(_back)) => Fared::Refused,
        }
    }

    fn number(&self) -> Option<u64> {
        let mut note = self.bucket.as_ref().note();
        Some(
            self.bucket
                .as_ref()
                .get(&self.home, &mut note)?
                .value
                .number,
        )
    }

    fn end(self) -> Option<Counting> {
        let One {
            home,
            bucket,
            alloc,
        } = self;
        let note = bucket.as_ref().note();
        let closed = home.close();
        bucket.take(&closed, alloc, note)
    }
}

/// Returns whether one of two threads placed its number and the other found that number.
fn agree(first: Fared, second: Fared, shown: Option<u64>) -> bool {
    match (first, second) {
        (Fared::Placed(x), Fared::Taken(y)) => x == 1 && y == 1 && shown == Some(1),
        (Fared::Taken(x), Fared::Placed(y)) => x == 2 && y == 2 && shown == Some(2),
        _ => false,
    }
}

/// Runs a round: two threads offer a value each to one bucket, which then ends. Returns whether one value was placed, both threads saw it,
/// and each value was dropped once. `Err`: no memory.
fn round(rt: &impl Threads, alloc: Global, drops: &Arc<AtomicU64>) -> Result<bool, Fail> {
    let (mine, yours) = (drops.clone()?, drops.clone()?);
    let one = One::new(alloc);
    let shared = &one;
    let before = one.number();
    let (first, second) = thread::join(
        rt,
        move || shared.place(1, mine),
        move || shared.place(2, yours),
    );
    let shown = one.number();
    let lost = drops.load(SeqCst);
    let back = one.end();
    let kept = back.is_some();
    drop(back);
    Ok(
        before.is_none()
            && agree(first, second, shown)
            && kept
            && lost % 2 == 1
            && drops.load(SeqCst) == lost.wrapping_add(1),
    )
}

#[test]
fn one_of_two_threads_places_and_both_see_it(rt: HostRuntime) -> Result<(), Fail> {
    let drops = Arc::new(rt.alloc(), AtomicU64::new(0))?;
    for _round in 0..200u32 {
        let good = round(&rt, rt.alloc(), &drops)?;
        assert!(rt; good);
    }
    assert_eq!(rt; drops.load(SeqCst), 400);
    Ok(())
}
