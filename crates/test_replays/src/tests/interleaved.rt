//! Random schedules of stepped calls, and random interleavings of the whole calls of two threads.
use testkit_replay::schedules::{first_fault, run_seed};
use testkit_replay::whole_calls::run_interleaved;

/// The number of schedules that are drawn, and of interleavings.
const SEEDS: u64 = 100;

#[test]
fn schedules_that_are_drawn(rt: HostRuntime) {
    let fault = first_fault(0, SEEDS, |seed: u64| run_seed(rt.alloc(), seed));
    assert!(rt; fault.is_none(), "{fault:?}");
}

#[test]
fn whole_calls_of_two_threads_that_are_drawn(rt: HostRuntime) {
    let fault = first_fault(0, SEEDS, |seed: u64| {
        run_interleaved(&rt, rt.alloc(), seed)
    });
    assert!(rt; fault.is_none(), "{fault:?}");
}
