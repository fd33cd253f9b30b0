//! Slots whose memory is refused.
use std::alloc::Allocator;
use table_slab::Slots;
use testkit::refusing::{Refusing, Rule};

/// Returns whether memory for `count` numbers is granted.
fn is_granted<A: Allocator + Copy>(memory: A, count: usize) -> bool {
    match Slots::<u64, A>::new(memory, count) {
        Ok((_slots, _rooms)) => true,
        Err(_) => false,
    }
}

#[test]
fn memory_of_too_many_bytes_is_not_asked_for(rt: HostRuntime) {
    let heap = Refusing::new(rt.alloc(), Rule::new(32, 32, 0, 0));
    let answers = [is_granted(&heap, 1 << 61), is_granted(&heap, 0)];
    assert_eq!(rt; answers, [false, true]);
}
