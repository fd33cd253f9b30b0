//! Entries that are read before they are copied.
//!
//! Entries lie far apart in memory. In a loop that only reads them, the reads overlap. If each entry were inserted before the
//! next is read, they would not.
ghost use Rattle.std.specs.Prelude.{◌≡◌, ◌<◌, ◌≤◌, ◌↔◌, ◌+◌, ◌-◌, IsTrue, length, min};
ghost use Rattle.std.specs.Fn.{FnReturnsAt};
ghost use Rattle.table_core.specs.declared.call.Phase.TheVariants.{Building};
ghost use Rattle.table_generations.specs.Windows.{AreReadFrom};
ghost use Rattle.table_shared.specs.Ahead.{IsRead, Holds, CopiesOn};
ghost use Rattle.table_shared.specs.Growths.{PassedAll};

use crate::growth::Growth;
use crate::locks::OwnedLock;
use std::alloc::Allocator;
use std::array;
use table_cell::{Bucket, Entry, Home, Word};
use table_core::steps::step;
use table_core::{Answer, CallState};
use table_generations::atomic_value::AtomicValue;
use table_generations::fixed::Generation;

/// The number of buckets that are read before the entries of the first of them are copied.
pub(crate) const WINDOW: usize = 64;

/// An entry that was read and not copied yet: its hash, and a word that names it. A `Bucket` in place of the word would have
/// padding after its mark, which would be copied too.
#[derive(Drop)]
pub(crate) struct Ahead<T: Drop, A: Allocator + Copy> {
    pub(crate) hash: u64,
    pub(crate) word: Word<Entry<T>, A>,
}

/// Reads the entry of a bucket and calls `hash_fn` for its target. Returns `None` if the bucket is empty.
fn read_ahead<T: AtomicValue, A: Allocator + Copy, H: Fn(&T::Target) -> u64>(
    home: &Home,
    from: &Generation<T, A>,
    index: usize,
    hash_fn: &H,
) -> Option<Ahead<T, A>>
    requires home { from.now.home ≡ home.now.id }
    requires within { index < length from.now.contents }
    requires callable { H.IsAlwaysCallable hash_fn.now }
    ensures { IsRead T.target (FnReturnsAt H.Fn hash_fn.now) from.now index result }
{
    let mut note = from.note_at(index);
    let word = from.naming_at(index, &mut note)?;
    let hash = hash_fn(word.name().get(home).value.deref());
    Some(Ahead { hash, word })
}

/// Reads the next buckets in order, from index `first` on: 64, or as many as are left. Returns the number of entries found; they
/// lie at the front of `window`, in the same order.
pub(crate) fn read_window<T: AtomicValue, A: Allocator + Copy, H: Fn(&T::Target) -> u64>(
    home: &Home,
    from: &Generation<T, A>,
    first: usize,
    hash_fn: &H,
    window: &mut [Option<Ahead<T, A>>; WINDOW],
) -> usize
    requires home { from.now.home ≡ home.now.id }
    requires place { first ≤ length from.now.contents }
    requires callable { H.IsAlwaysCallable hash_fn.now }
    ensures fits { result ≤ 64 }
    ensures read { AreReadFrom from.now.contents
        (Holds T.target (FnReturnsAt H.Fn hash_fn.now) from.now)
        (first + min (length from.now.contents - first) 64) first result 0 window.new }
{
    let left = from.capacity() - first;
    let count = left.min(WINDOW);
    let mut found = 0;
    for ahead in 0..count {
        if let Some(read) = read_ahead(home, from, first + ahead, hash_fn) {
            window[found] = Some(read);
            found += 1;
        }
    }
    found
}

impl<'a, T: AtomicValue, A: Allocator + Copy> Growth<'a, T, A> {
    /// Returns whether every bucket of the earlier generation was copied.
    fn has_passed_all(&self) -> bool
        ensures { IsTrue result ↔ PassedAll self.now }
    {
        match self.from {
            Some(from) => from.capacity() <= self.copied,
            None => true,
        }
    }

    /// Reads the next buckets, and then copies their entries in order, one step of the call for each. Returns the state of the
    /// call, which does not change.
    fn copy_window<H: Fn(&T::Target) -> u64>(
        &mut self,
        _held: &OwnedLock<'_>,
        state: CallState,
        hash_fn: &H,
        window: &mut [Option<Ahead<T, A>>; WINDOW],
    ) -> CallState
        requires lock { _held.now.home ≡ self.old.home }
        requires phase { state.phase ≡ Building }
        requires left { self.old.passed < length self.old.before }
        requires callable { H.IsAlwaysCallable hash_fn.now }
        ensures stays { result ≡ state }
        ensures same { (self.new.home ≡ self.old.home) × (self.new.before ≡ self.old.before) }
        ensures word { (self.new.word ≡ self.old.word) × (self.new.words ≡ self.old.words) }
        ensures on { self.old.passed < self.new.passed }
        ensures copies { CopiesOn T.target (FnReturnsAt H.Fn hash_fn.now) self.old self.new }
    {
        let Some(from) = self.from else {
            return state;
        };
        let first = self.copied;
        let count = (from.capacity() - first).min(WINDOW);
        let found = read_window(self.home, from, first, hash_fn, window);
        let mut state = state;
        for place in 0..found {
            if let Some(read) = window[place].take() {
                self.built.insert_unique(
                    self.home,
                    read.hash,
                    Bucket::of_naming(self.home, read.word),
                );
                state = step(state, Answer::Copied);
            }
        }
        self.copied = first + count;
        state
    }

    /// Copies all entries that are left, one step of the call for each, and returns its state, which does not change. The caller
    /// holds all locks of the table. `hash_fn` is called in the order of the buckets, up to 64 buckets ahead of the copies.
    #[inline(never)]
    pub(crate) fn copy_rest<H: Fn(&T::Target) -> u64>(
        &mut self,
        held: &OwnedLock<'_>,
        state: CallState,
        hash_fn: &H,
    ) -> CallState
        requires lock { held.now.home ≡ self.old.home }
        requires phase { state.phase ≡ Building }
        requires callable { H.IsAlwaysCallable hash_fn.now }
        ensures stays { result ≡ state }
        ensures same { (self.new.home ≡ self.old.home) × (self.new.before ≡ self.old.before) }
        ensures word { (self.new.word ≡ self.old.word) × (self.new.words ≡ self.old.words) }
        ensures whole { PassedAll self.new }
        ensures copies { CopiesOn T.target (FnReturnsAt H.Fn hash_fn.now) self.old self.new }
    {
        let mut state = state;
        let mut window: [Option<Ahead<T, A>>; WINDOW] = array::from_fn(|_place: usize| None);
        while !self.has_passed_all() {
            state = self.copy_window(held, state, hash_fn, &mut window);
        }
        state
    }
}
