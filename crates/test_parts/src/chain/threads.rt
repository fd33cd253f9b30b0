//! Two threads show a value in the same slot.
use super::counting::{Fared, made, show};
use crate::same::assert_same;
use std::alloc::Global;
use std::sync::Arc;
use std::sync::atomic::AtomicU64;
use std::sync::atomic::Ordering::SeqCst;
use std::test::Fail;
use std::thread;
use std::thread::Threads;

/// Runs a round: two threads offer a number each to the second slot. Returns whether one of them placed its number, the other saw that
/// number and got its own back, and the chain has two values. `Err`: no memory.
fn race(rt: &impl Threads, alloc: Global, drops: &Arc<AtomicU64>) -> Result<bool, Fail> {
    let chain = made(alloc, drops.clone()?).ok_or("a chain")?;
    let (mine, yours) = (drops.clone()?, drops.clone()?);
    let shared = &chain;
    let (one, two) = thread::join(
        rt,
        move || show(shared, 1, mine),
        move || show(shared, 2, yours),
    );
    let first = one == Fared::Shown(1) && two == Fared::Other(1, 2);
    let second = one == Fared::Other(2, 1) && two == Fared::Shown(2);
    let mut seen = chain.start();
    let count = match chain.into_values(alloc, &mut seen) {
        Ok(values) => values.len(),
        Err(_) => 0,
    };
    Ok((first || second) && count == 2)
}

#[test]
fn one_of_two_threads_shows_its_value(rt: HostRuntime) -> Result<(), Fail> {
    let drops = Arc::new(rt.alloc(), AtomicU64::new(0))?;
    for round in 0u64..100 {
        assert!(rt; race(&rt, rt.alloc(), &drops)?);
        assert_same(&rt, drops.load(SeqCst), (round + 1) * 3);
    }
    Ok(())
}
