//! One thread appends values to a chain: until it is full, while memory is refused, and to its end.
ghost use Rattle.test_parts.specs.Known.{Knows};

use super::counting::{Fared, Numbers, Seen, made, push};
use crate::same::assert_same;
use std::alloc::Global;
use std::process::Abort;
use std::sync::Arc;
use std::sync::atomic::AtomicU64;
use std::sync::atomic::Ordering::SeqCst;
use std::test::Fail;
use table_cell::Low;
use testkit::refusing::{Refusing, Rule};

/// Appends the numbers 1, 2 and 3 to the chain. Returns what became of each. `Err`: no memory.
fn pushed<A: Low + Copy>(
    chain: &Numbers<A>,
    seen: &mut Seen,
    drops: &Arc<AtomicU64>,
) -> Result<(Fared, Fared, Fared), Fail>
    requires known { Knows chain.now seen.old.book seen.old.names seen.old.log }
    ensures known { Knows chain.now seen.new.book seen.new.names seen.new.log }
{
    let (mine, yours, theirs) = (drops.clone()?, drops.clone()?, drops.clone()?);
    let first = push(chain, seen, 1, mine);
    let second = push(chain, seen, 2, yours);
    let third = push(chain, seen, 3, theirs);
    Ok((first, second, third))
}

/// Appends the number 4, and ends the chain. Returns what became of the number, and the values of the chain as the digits of one number.
/// `Err`: no memory.
fn ended<A: Low + Copy>(
    chain: Numbers<A>,
    seen: &mut Seen,
    drops: &Arc<AtomicU64>,
) -> Result<(Fared, u64), Fail>
    requires known { Knows chain seen.old.book seen.old.names seen.old.log }
{
    let fourth = push(&chain, seen, 4, drops.clone()?);
    let mut digits = 0u64;
    let mut ending = chain.into_ending(seen);
    for _value in 0..4u8 {
        if let Some(value) = ending.next() {
            digits = digits.wrapping_mul(10).wrapping_add(value.number);
        }
    }
    Ok((fourth, digits))
}

#[test]
fn values_come_out_in_the_order_of_slots(rt: HostRuntime) -> Result<(), Fail> {
    let drops = Arc::new(rt.alloc(), AtomicU64::new(0))?;
    let chain = made(rt.alloc(), drops.clone()?).ok_or("a chain")?;
    let mut seen = chain.start();
    let pushed = pushed(&chain, &mut seen, &drops)?;
    assert_same(
        &rt,
        pushed,
        (Fared::Shown(1), Fared::Shown(2), Fared::Shown(3)),
    );
    assert_same(&rt, ended(chain, &mut seen, &drops)?, (Fared::Full, 7123));
    assert_same(&rt, drops.load(SeqCst), 4);
    Ok(())
}

/// Appends three values to a chain over this memory while the heap refuses the first one's request. Asserts that only this value is
/// refused, and that each value is dropped once. `Err`: no chain, or no memory.
fn assert_first_refused<A: Low + Copy>(
    rt: &impl Abort,
    heap: &Refusing<Global>,
    memory: A,
    drops: &Arc<AtomicU64>,
) -> Result<(), Fail> {
    let chain = made(memory, drops.clone()?).ok_or("a chain")?;
    let mut seen = chain.start();
    heap.refuse(0, 1);
    let pushed = pushed(&chain, &mut seen, drops)?;
    assert_same(
        rt,
        pushed,
        (Fared::Refused, Fared::Shown(2), Fared::Shown(3)),
    );
    assert_same(rt, drops.load(SeqCst), 1);
    drop(chain);
    assert_same(rt, drops.load(SeqCst), 4);
    Ok(())
}

#[test]
fn a_value_without_memory_is_refused(rt: HostRuntime) -> Result<(), Fail> {
    let drops = Arc::new(rt.alloc(), AtomicU64::new(0))?;
    let heap = Refusing::new(rt.alloc(), Rule::new(0, usize::MAX, 0, 0));
    assert_first_refused(&rt, &heap, &heap, &drops)?;
    assert_same(&rt, heap.granted(), heap.given_back());
    Ok(())
}

#[test]
fn what_is_dropped_half_way_drops_the_rest(rt: HostRuntime) -> Result<(), Fail> {
    let drops = Arc::new(rt.alloc(), AtomicU64::new(0))?;
    let chain = made(rt.alloc(), drops.clone()?).ok_or("a chain")?;
    let mut seen = chain.start();
    let _pushed = pushed(&chain, &mut seen, &drops)?;
    let mut ending = chain.into_ending(&mut seen);
    let first = ending.next();
    assert_same(&rt, first.map(|value| value.number), Some(7));
    assert_same(&rt, drops.load(SeqCst), 1);
    drop(ending);
    assert_same(&rt, drops.load(SeqCst), 4);
    Ok(())
}

/// Returns whether a chain is made if the first `passing` requests for it are granted and the next one is refused.
fn made_with(alloc: Global, passing: u64, drops: Arc<AtomicU64>) -> bool {
    let heap = Refusing::new(alloc, Rule::new(0, usize::MAX, passing, 1));
    made(&heap, drops).is_some()
}

#[test]
fn a_refused_chain_leaves_nothing(rt: HostRuntime) -> Result<(), Fail> {
    let drops = Arc::new(rt.alloc(), AtomicU64::new(0))?;
    for passing in 0u64..4 {
        let mine = drops.clone()?;
        assert!(rt; !made_with(rt.alloc(), passing, mine));
    }
    let last = drops.clone()?;
    assert!(rt; made_with(rt.alloc(), 5, last));
    assert_same(&rt, drops.load(SeqCst), 5);
    Ok(())
}
