//! A set that begins with a number.
use super::super::assert_same;
use demo_examples::beginning::begin_and_ask;
use std::alloc::AllocError;
use testkit::refusing::{Refusing, Rule};

/// Checks that a set that begins with a number has it, and that a refused request leaves no memory allocated.
#[test]
fn a_set_that_begins_with_a_number_has_it(rt: HostRuntime) {
    let mut refused = 0u64;
    for granted in 0..40u64 {
        let heap = Refusing::new(rt.alloc(), Rule::new(0, usize::MAX, granted, 1));
        match begin_and_ask(&heap, 7) {
            Ok(has) => assert!(&rt; has),
            Err(AllocError) => refused = refused.wrapping_add(1),
        }
        assert_same(&rt, heap.given_back(), heap.granted());
    }
    assert!(&rt; 3 < refused && refused < 40, "{refused}");
}
