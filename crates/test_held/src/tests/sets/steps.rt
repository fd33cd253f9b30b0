//! Tests with multiples of a power of two. A hash that only multiplies would put them all into a few buckets.
use super::assert_same;
use std::alloc::{AllocError, Global};
use std::process::Abort;
use std::test::Fail;
use table_sets::{HeldSet, InPlace, Inserted, NumberLaw, SetLaw};

/// The steps. The multiples of the last one have 0 as their low 40 bits.
const STEPS: [u64; 4] = [1, 1 << 8, 1 << 16, 1 << 40];

/// How many multiples of a step are inserted, from 0 on.
const COUNT: u64 = 20_000;

/// Inserts the multiples of the step into an empty set. Returns how many of them are placed, and how many a look-up then finds.
fn fill_held(alloc: Global, step: u64) -> (u64, u64) {
    let mut set: HeldSet<InPlace<u64>, NumberLaw> = HeldSet::new(alloc);
    let (mut placed, mut found) = (0u64, 0u64);
    for index in 0..COUNT {
        let answer = set.insert(InPlace(index.wrapping_mul(step)));
        placed = placed.wrapping_add(u64::from(matches!(answer, Inserted::Placed)));
    }
    for index in 0..COUNT {
        found = found.wrapping_add(u64::from(set.contains(&index.wrapping_mul(step))));
    }
    (placed, found)
}

#[test]
fn held(rt: HostRuntime) {
    for step in &STEPS {
        assert_same(&rt, fill_held(rt.alloc(), *step), (COUNT, COUNT));
    }
}

/// The lowest of fifteen bits of a hash that choose a bucket: the low bits, bits 32 to 46, and the high bits.
const PLACES: [u32; 3] = [0, 32, 49];

/// How many buckets fifteen bits can choose.
const BUCKETS: usize = 1 << 15;

/// How many hashes may choose one bucket. Among 20,000 random hashes the most that choose one bucket are 6 to 8.
const MOST: u8 = 8;

/// Returns how many multiples of the step choose the fullest bucket by the fifteen bits from `place` on. `Err`: no memory.
fn most_of_a_bucket(alloc: Global, step: u64, place: u32) -> Result<u8, AllocError> {
    let mut counts: Vec<u8> = Vec::new(alloc);
    counts.resize(BUCKETS, 0)?;
    for index in 0..COUNT {
        let hash = NumberLaw::hash(&index.wrapping_mul(step));
        let bucket = hash.rotate_right(place) as usize & (BUCKETS - 1);
        if let Some(count) = counts.get_mut(bucket) {
            *count = count.saturating_add(1);
        }
    }
    Ok(
        counts
            .iter()
            .fold(0, |most: u8, count: &u8| most.max(*count)),
    )
}

/// Asserts that at each of `PLACES` at most `MOST` multiples of the step choose one bucket. `Err`: no memory.
fn assert_spread(rt: &impl Abort, alloc: Global, step: u64) -> Result<(), AllocError> {
    for place in &PLACES {
        assert!(rt; most_of_a_bucket(alloc, step, *place)? <= MOST);
    }
    Ok(())
}

#[test]
fn hashes_of_steps_spread(rt: HostRuntime) -> Result<(), Fail> {
    for step in &STEPS {
        assert_spread(&rt, rt.alloc(), *step)?;
    }
    Ok(())
}
