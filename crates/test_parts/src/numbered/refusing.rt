//! A slab and a generation whose requests for memory are refused.
use super::caller::{CallEnd, Numbers, made};
use super::growing::grown;
use crate::same::assert_same;
use std::alloc::Global;
use table_cell::Low;
use table_slab::Slab;
use testkit::refusing::{Refusing, Rule};

/// Places 1 in a generation of two buckets, and grows it. Returns how a probe for 1 ends in the next generation. If the growth is refused,
/// places 2 in the old generation, and returns how that ends. `None` means that memory was refused before.
fn story(heap: &Refusing<Global>) -> Option<CallEnd> {
    let slab = Slab::new(heap, 1).ok()?;
    let set = made(heap, &slab, 2).ok()?;
    let old = Numbers {
        set: &set,
        slab: &slab,
    };
    after_growth(&old, heap)
}

/// Places 1 in a generation, and grows it, as `story` does.
fn after_growth<A: Low + Copy>(old: &Numbers<'_, A>, memory: A) -> Option<CallEnd> {
    if old.put(1) != CallEnd::Placed(0) {
        return None;
    }
    let Ok(next) = grown(old.set, memory) else {
        return Some(old.put(2));
    };
    let new = Numbers {
        set: &next,
        slab: old.slab,
    };
    Some(new.probe(1))
}

/// How many requests are granted before one is refused, and what `story` then returns. A slab makes two requests, for its cells and for
/// what its end needs. A generation makes two, for its words and for the words of its hints. A first number makes two, for its chunk and
/// for the chunk's box. A growth makes two, for words and for the words of hints.
const ENDS: [(u64, Option<CallEnd>); 9] = [
    (0, None),
    (1, None),
    (2, None),
    (3, None),
    (4, None),
    (5, None),
    (6, Some(CallEnd::Placed(1))),
    (7, Some(CallEnd::Placed(1))),
    (8, Some(CallEnd::Found(0))),
];

/// Checks that each of eight requests can be refused in turn, that a refused growth closes nothing, and that all memory is freed.
#[test]
fn each_of_eight_requests_is_refused_in_turn(rt: HostRuntime) {
    let heap = Refusing::new(rt.alloc(), Rule::new(0, usize::MAX, 0, 0));
    for row in &ENDS {
        let (granted, answer) = *row;
        heap.refuse(granted, 1);
        assert_same(&rt, (granted, story(&heap)), (granted, answer));
        assert_same(&rt, heap.given_back(), heap.granted());
    }
    assert_same(&rt, heap.refusals_left(), 1);
}
