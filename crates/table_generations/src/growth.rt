//! Growth: a generation that is made of the entries of the one before.
ghost use Rattle.std.specs.Prelude.{◌≡◌, ◌+◌, ◌-◌, ◌<◌, ◌≤◌, length, min, IfOk};
ghost use Rattle.std.specs.Fn.{FnReturnsAt};
ghost use Rattle.std.specs.Int.{IsPowerOfTwo};
ghost use Rattle.table_generations.specs.Buckets.{shown_all, shown_entries};
ghost use Rattle.table_generations.specs.Growth.{IsRehashed, PutsShown, RehashesOn};
ghost use Rattle.table_generations.specs.Generations.{AllOwnNone, AreOfOneHome};
ghost use Rattle.table_generations.specs.Windows.{AreReadFrom, IsAhead};

use crate::atomic_value::AtomicValue;
use crate::fixed::Generation;
use std::alloc::{AllocError, Allocator};
use table_cell::Home;

/// The number of buckets that are read before the entries of the first of them are inserted. Entries lie far apart in memory, and
/// in a loop that only reads them, the reads overlap.
const WINDOW: usize = 64;

/// An entry that was read and not inserted yet: the index of its bucket, and its hash.
#[derive(Clone, Copy)]
struct Ahead {
    index: usize,
    hash: u64,
}

/// Reads the next buckets, from index `first` on, as many as the window has room for or as are left, and calls `hash_fn` for
/// their entries. Returns the number of entries found; they lie at the front of the window, in order.
fn read_window<T: AtomicValue, A: Allocator + Copy, H: Fn(&T::Target) -> u64>(
    home: &Home,
    old: &Generation<T, A>,
    first: usize,
    hash_fn: &H,
    window: &mut [Ahead; WINDOW],
) -> usize
    requires home { old.now.home ≡ home.now.id }
    requires place { first ≤ length old.now.contents }
    requires callable { H.IsAlwaysCallable hash_fn.now }
    ensures fits { result ≤ 64 }
    ensures read { AreReadFrom old.now.contents
        (IsAhead old.now.contents T.target (FnReturnsAt H.Fn hash_fn.now))
        (first + min (length old.now.contents - first) 64) first result 0 window.new }
{
    let left = old.capacity() - first;
    let count = left.min(WINDOW);
    let mut found = 0;
    for ahead in 0..count {
        let index = first + ahead;
        if let Some(entry) = old.entry_shown(home, index) {
            window[found] = Ahead {
                index,
                hash: hash_fn(entry.value.deref()),
            };
            found += 1;
        }
    }
    found
}

/// Names the entry shown at this index, if there is one, in the generation that is built.
fn rehash_one<T: AtomicValue, A: Allocator + Copy>(
    home: &Home,
    old: &Generation<T, A>,
    index: usize,
    hash: u64,
    built: &mut Generation<T, A>,
)
    requires old_home { old.now.home ≡ home.now.id }
    requires built_home { AreOfOneHome built.old old.now }
    requires place { index < length old.now.contents }
    requires room { built.old.size < length built.old.contents }
    requires counted { built.old.size ≡ length (shown_entries built.old.contents) }
    requires names { AllOwnNone built.old.contents }
    ensures home { AreOfOneHome built.new old.now }
    ensures long { length built.new.contents ≡ length built.old.contents }
    ensures grown { built.new.size ≤ built.old.size + 1 }
    ensures counted { built.new.size ≡ length (shown_entries built.new.contents) }
    ensures names { AllOwnNone built.new.contents }
    ensures step { PutsShown T.target old.now.contents index hash built.old.contents
        built.new.contents }
{
    if let Some(name) = old.naming(index) {
        built.insert_unique(home, hash, name);
    }
}

/// Names the entries of the next buckets, from index `first` on, as many as the window has room for or as are left.
fn rehash_window<T: AtomicValue, A: Allocator + Copy, H: Fn(&T::Target) -> u64>(
    home: &Home,
    old: &Generation<T, A>,
    first: usize,
    hash_fn: &H,
    window: &mut [Ahead; WINDOW],
    built: &mut Generation<T, A>,
)
    requires old_home { old.now.home ≡ home.now.id }
    requires built_home { AreOfOneHome built.old old.now }
    requires place { first ≤ length old.now.contents }
    requires callable { H.IsAlwaysCallable hash_fn.now }
    requires few { built.old.size ≤ first }
    requires room { length old.now.contents < length built.old.contents }
    requires counted { built.old.size ≡ length (shown_entries built.old.contents) }
    requires names { AllOwnNone built.old.contents }
    ensures home { AreOfOneHome built.new old.now }
    ensures long { length built.new.contents ≡ length built.old.contents }
    ensures few { built.new.size ≤ first + min (length old.now.contents - first) 64 }
    ensures counted { built.new.size ≡ length (shown_entries built.new.contents) }
    ensures names { AllOwnNone built.new.contents }
    ensures rehashes { RehashesOn T.target (FnReturnsAt H.Fn hash_fn.now)
        (shown_all old.now.contents) first (first + min (length old.now.contents - first) 64)
        built.old.contents built.new.contents }
{
    let found = read_window(home, old, first, hash_fn, window);
    for place in 0..found {
        let Ahead { index, hash } = window[place];
        rehash_one(home, old, index, hash, built);
    }
}

/// Makes a generation of this capacity that names every entry of the old one. `hash_fn` returns the hash of an entry's target.
/// Allocates twice; an `Err` means that memory was refused.
pub fn rehashed<T: AtomicValue, A: Allocator + Copy, H: Fn(&T::Target) -> u64>(
    home: &Home,
    old: &Generation<T, A>,
    capacity: usize,
    hash_fn: &H,
) -> Result<Generation<T, A>, AllocError>
    requires home { old.now.home ≡ home.now.id }
    requires power { IsPowerOfTwo capacity }
    requires room { length old.now.contents < capacity }
    requires callable { H.IsAlwaysCallable hash_fn.now }
    ensures home { IfOk result (λ built. AreOfOneHome built old.now) }
    ensures long { IfOk result (λ built. length built.contents ≡ capacity) }
    ensures counted { IfOk result (λ built. built.size ≡ length (shown_entries built.contents)) }
    ensures names { IfOk result (λ built. AllOwnNone built.contents) }
    ensures rehashed { IfOk result (λ built. IsRehashed T.target (FnReturnsAt H.Fn hash_fn.now)
        (shown_all old.now.contents) (shown_all built.contents)) }
{
    let mut built = old.sibling(home, capacity)?;
    let mut window = [Ahead { index: 0, hash: 0 }; WINDOW];
    let mut first = 0;
    while first < old.capacity() {
        rehash_window(home, old, first, hash_fn, &mut window, &mut built);
        first += (old.capacity() - first).min(WINDOW);
    }
    Ok(built)
}
