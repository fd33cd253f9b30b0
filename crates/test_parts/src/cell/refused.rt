//! Buckets whose requests for a block are refused. A call requests the block before it looks at the bucket. So a refused request returns
//! `NoMemory` even if the bucket is set.
ghost use Rattle.std.specs.Prelude.{◌≡◌};
ghost use Rattle.table_cell.specs.Contents.{Lies};

use std::alloc::{Allocator, Global};
use std::process::Abort;
use table_cell::{Bucket, Home, Low, Missed, Refusal};
use testkit::refusing::{Refusing, Rule};

/// What became of a value: it was placed, or it was returned.
#[derive(PartialEq, Debug, Clone, Copy)]
enum Fared {
    Placed,
    Taken(u64),
    NoMemory(u64),
}

/// What becomes of three values if the first request is granted and the second refused, and the value that the bucket returns at the end.
const SECOND_REFUSED: ([Fared; 3], Option<u64>) = (
    [Fared::Placed, Fared::NoMemory(6), Fared::Taken(7)],
    Some(5),
);

/// What becomes of three values if the first request is refused, and the value that the bucket returns at the end.
const FIRST_REFUSED: ([Fared; 3], Option<u64>) = (
    [Fared::NoMemory(5), Fared::Placed, Fared::Taken(7)],
    Some(6),
);

fn fared_alone(answer: Result<(), Refusal<u64>>) -> Fared {
    match answer {
        Ok(()) => Fared::Placed,
        Err(Refusal::Taken(back)) => Fared::Taken(back),
        Err(Refusal::NoMemory(back)) => Fared::NoMemory(back),
    }
}

/// Offers three values to a bucket with a single owner. Returns what became of each, and the value that the bucket returns at the end.
fn alone<A: Allocator + Copy>(alloc: A) -> ([Fared; 3], Option<u64>) {
    let home = Home::new();
    let mut bucket = Bucket::new(&alloc, &home);
    let first = fared_alone(bucket.place_alone(&home, alloc, 5, 1));
    let second = fared_alone(bucket.place_alone(&home, alloc, 6, 2));
    let third = fared_alone(bucket.place_alone(&home, alloc, 7, 3));
    let closed = home.close();
    ([first, second, third], bucket.take_alone(&closed, alloc))
}

fn place<A: Low + Copy>(home: &Home, bucket: &Bucket<u64, A>, alloc: A, value: u64) -> Fared
    requires { Lies home.now.id alloc bucket.now }
{
    match bucket
        .as_ref()
        .place(home, alloc, value, 9, &mut bucket.as_ref().note())
    {
        Ok(_) => Fared::Placed,
        Err(Missed::Taken(back, _)) => Fared::Taken(back),
        Err(Missed::NoMemory(back)) => Fared::NoMemory(back),
    }
}

/// Offers three values to a bucket through `&`. Returns what became of each, and the value that the bucket returns at the end.
fn shared<A: Low + Copy>(alloc: A) -> ([Fared; 3], Option<u64>) {
    let home = Home::new();
    let bucket = Bucket::new(&alloc, &home);
    let first = place(&home, &bucket, alloc, 5);
    let second = place(&home, &bucket, alloc, 6);
    let third = place(&home, &bucket, alloc, 7);
    let note = bucket.as_ref().note();
    let closed = home.close();
    ([first, second, third], bucket.take(&closed, alloc, note))
}

/// Offers one value to a bucket with a single owner, and then two through `&`. Returns what became of each, and the value that the bucket
/// returns at the end.
fn shared_after_alone<A: Low + Copy>(alloc: A) -> ([Fared; 3], Option<u64>) {
    let home = Home::new();
    let mut bucket = Bucket::new(&alloc, &home);
    let first = fared_alone(bucket.place_alone(&home, alloc, 5, 1));
    let second = place(&home, &bucket, alloc, 6);
    let third = place(&home, &bucket, alloc, 7);
    let note = bucket.as_ref().note();
    let closed = home.close();
    ([first, second, third], bucket.take(&closed, alloc, note))
}

/// Makes an allocator that grants the first `passing` requests of 16 bytes, the size of an entry of a number, and refuses the next one.
fn refusing_after<B: Allocator>(inner: B, passing: u64) -> Refusing<B> {
    Refusing::new(inner, Rule::new(16, 16, passing, 1))
}

/// Asserts what becomes of three values if the first `passing` requests are granted and the next one is refused. It is the same for each
/// way to offer them.
fn assert_fares(
    rt: &impl Abort,
    memory: Global,
    passing: u64,
    expected: ([Fared; 3], Option<u64>),
) {
    let first = refusing_after(memory, passing);
    let second = refusing_after(memory, passing);
    let third = refusing_after(memory, passing);
    assert_eq!(rt;
        [alone(&first), shared(&second), shared_after_alone(&third)],
        [expected; 3]
    );
}

#[test]
fn a_block_is_asked_for_before_the_bucket_is_looked_at(rt: HostRuntime) {
    assert_fares(&rt, rt.alloc(), 1, SECOND_REFUSED);
}

#[test]
fn a_refused_block_leaves_the_bucket_vacant(rt: HostRuntime) {
    assert_fares(&rt, rt.alloc(), 0, FIRST_REFUSED);
}
