//! Slabs whose requests for memory are refused.
use table_cell::Low;
use table_slab::{Run, Slab};
use testkit::refusing::{Refusing, Rule};

/// Takes the first number of a new slab. `None` means that memory was refused.
fn first_number<A: Low + Copy>(memory: A) -> Option<u64> {
    let slab = Slab::<u64, A>::new(memory, 2).ok()?;
    let mut run = Run::new();
    let (number, _right) = slab.number(&mut run, 1).ok()?;
    Some(number)
}

#[test]
fn each_request_is_refused_in_turn(rt: HostRuntime) {
    let heap = Refusing::new(rt.alloc(), Rule::new(0, 1 << 20, 0, 0));
    for passing in 0..4u64 {
        heap.refuse(passing, 1);
        assert_eq!(rt; first_number(&heap), None);
    }
    heap.refuse(0, 0);
    assert_eq!(rt; first_number(&heap), Some(0));
    assert_eq!(rt; heap.granted(), heap.given_back());
}
