//! An allocator for tests. It refuses the requests for memory that a rule names, makes some requests wait for one another, and counts the
//! blocks that it grants and those that are freed.
ghost use Rattle.std.specs.Prelude.{◌≡◌, ◌↔◌, IsTrue};
ghost use Rattle.testkit.specs.Rules.{least_counted, most_counted, Counts, memory_of, rule_of};

pub mod handover;
mod lot;
mod pairs;
mod turns;

use crate::refusing::lot::Lot;
use crate::refusing::pairs::Pairs;
pub use crate::refusing::turns::Turns;
use std::alloc::{AllocError, Allocator, Global};
use std::sync::atomic::{AtomicU64, Ordering};
use table_cell::Low;

/// Which requests for memory are refused. A rule counts the requests of `least` to `most` bytes. All others are granted.
#[derive(Drop)]
pub struct Rule {
    least: usize,
    most: usize,
    passing: AtomicU64,
    refused: AtomicU64,
    lot: Lot,
    pairs: Pairs,
    turns: Turns,
    granted: AtomicU64,
    given_back: AtomicU64,
}

impl Rule {
    /// Makes a rule by which the first `passing` requests of `least` to `most` bytes are granted, the next `refused` are refused, and all
    /// later ones are granted.
    pub fn new(least: usize, most: usize, passing: u64, refused: u64) -> Rule
        ensures least { least_counted result ≡ least }
        ensures most { most_counted result ≡ most }
    {
        Rule {
            least,
            most,
            passing: AtomicU64::new(passing),
            refused: AtomicU64::new(refused),
            lot: Lot::new(0, 1),
            pairs: Pairs::new(0, 0),
            turns: Turns::new(0),
            granted: AtomicU64::new(0),
            given_back: AtomicU64::new(0),
        }
    }

    /// Makes the rule refuse only one in `one_in` of the requests that it would refuse. The seed decides which.
    pub fn drawn(mut self, seed: u64, one_in: u64) -> Rule
        ensures least { least_counted result ≡ least_counted self }
        ensures most { most_counted result ≡ most_counted self }
    {
        self.lot = Lot::new(seed, one_in);
        self
    }

    /// Makes the first `2 * pairs` counted requests that are granted meet in pairs. The first request of a pair waits until the second one
    /// comes, or until it has looked `looks` times.
    pub fn paired(mut self, pairs: u64, looks: u64) -> Rule
        ensures least { least_counted result ≡ least_counted self }
        ensures most { most_counted result ≡ most_counted self }
    {
        self.pairs = Pairs::new(pairs, looks);
        self
    }

    /// Makes a thread look at most `looks` times for its turn.
    pub fn in_turns(mut self, looks: u64) -> Rule
        ensures least { least_counted result ≡ least_counted self }
        ensures most { most_counted result ≡ most_counted self }
    {
        self.turns = Turns::new(looks);
        self
    }

    /// Returns whether requests of this size are counted.
    fn counts(&self, size: usize) -> bool
        ensures { IsTrue result ↔ Counts self.now size }
    {
        self.least <= size && size <= self.most
    }

    /// Returns whether a request of this size is refused. A counted request that isn't refused may wait here for its turn, and for the
    /// other one of its pair.
    fn refuses(&self, size: usize) -> bool {
        let counts = self.counts(size);
        if counts && !take_one(&self.passing) && self.lot.falls() && take_one(&self.refused) {
            return true;
        }
        if counts {
            self.turns.hold();
            self.pairs.meet();
        }
        add_one(&self.granted);
        false
    }
}

/// Adds one to the count.
fn add_one(count: &AtomicU64) {
    count.fetch_add(1, Ordering::SeqCst);
}

/// Subtracts one from the count in one atomic step, unless it is 0. Returns whether it did.
fn take_one(count: &AtomicU64) -> bool {
    count
        .fetch_update(Ordering::SeqCst, Ordering::SeqCst, |left: u64| {
            left.checked_sub(1)
        })
        .is_ok()
}

/// An allocator that passes requests on to another one, unless the rule refuses them.
pub struct Refusing<B: Allocator> {
    inner: B,
    rule: Rule,
}

/// Such an allocator over the global one.
pub type Heap = Refusing<Global>;

/// Makes an allocator that grants each request and counts its blocks.
pub fn counted(alloc: Global) -> Heap {
    Refusing::new(alloc, Rule::new(0, usize::MAX, 0, 0))
}

impl<B: Allocator> Refusing<B> {
    /// Makes an allocator that passes requests on to `inner`, unless the rule refuses them.
    pub fn new(inner: B, rule: Rule) -> Refusing<B>
        ensures memory { memory_of result ≡ inner }
        ensures rule { rule_of result ≡ rule }
    {
        Refusing { inner, rule }
    }

    /// Resets the counts: the first `passing` of the next counted requests are granted, `refused` more are refused, and later ones granted.
    pub fn refuse(&self, passing: u64, refused: u64) {
        self.rule.passing.store(passing, Ordering::SeqCst);
        self.rule.refused.store(refused, Ordering::SeqCst);
    }

    /// Returns how many more requests the rule can refuse.
    pub fn refusals_left(&self) -> u64 {
        self.rule.refused.load(Ordering::SeqCst)
    }

    /// Makes the next `2 * pairs` counted requests that are granted meet in pairs. No other thread may make a request meanwhile.
    pub fn pair(&self, pairs: u64) {
        self.rule.pairs.begin(pairs);
    }

    /// Returns how many pairs of requests met.
    pub fn pairs_met(&self) -> u64 {
        self.rule.pairs.met()
    }

    /// Returns how many requests went on without the other one of their pair.
    pub fn went_alone(&self) -> u64 {
        self.rule.pairs.alone()
    }

    /// Returns the turns that threads take.
    pub fn turns(&self) -> &Turns {
        &self.rule.turns
    }

    /// Returns how many requests were passed on to the allocator below. It is the number of granted blocks if that one refused none.
    pub fn granted(&self) -> u64 {
        self.rule.granted.load(Ordering::SeqCst)
    }

    /// Returns how many blocks were freed.
    pub fn given_back(&self) -> u64 {
        self.rule.given_back.load(Ordering::SeqCst)
    }

    /// Returns whether the rule refuses a request of this size.
    fn refuses(&self, size: usize) -> bool {
        self.rule.refuses(size)
    }

    /// Returns the allocator to which requests are passed on.
    fn memory(&self) -> &B
        ensures { result.now ≡ memory_of self.now }
    {
        &self.inner
    }

    /// Counts a freed block, and returns the allocator to which it is passed on.
    fn memory_of_returned(&self) -> &B
        ensures { result.now ≡ memory_of self.now }
    {
        add_one(&self.rule.given_back);
        &self.inner
    }
}

impl<B: Allocator> Drop for Refusing<B> {
    fn drop(self) {
        let Self { inner: _, rule: _ } = self;
    }
}

unsafe impl<B: Allocator> Allocator for Refusing<B> {
    ghost dealloc_token = { λ heap ty ptr. B.dealloc_token (memory_of heap) ty ptr };

    fn allocate(&self, size: usize, align: usize) -> Result<*mut u8, AllocError> {
        if self.refuses(size) {
            return Err(AllocError);
        }
        self.memory().allocate(size, align)
    }

    unsafe fn deallocate(&self, ptr: *mut u8, size: usize, align: usize) {
        self.memory_of_returned().deallocate(ptr, size, align)
    }
}

unsafe impl<B: Low> Low for Refusing<B> {
    unsafe fn show_low(at: *const u8) {
        unsafe { B::show_low(at) }
    }
}
