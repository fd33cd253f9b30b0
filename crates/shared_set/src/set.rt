//! The set, and what any thread may call on it.
ghost use Rattle.std.specs.Prelude.{◌≡◌, [], suc, ◌<◌, ◌≤◌, ◌^◌, ◌*◌, max, true, false, IfOk};
ghost use Rattle.std.specs.Int.{IsPowerOfTwo};
ghost use mathlib.Core.List.{IsPrefix};
ghost use Rattle.table_chain.specs.History.{Stands};
ghost use Rattle.table_numbered.specs.Words.{of_value};
ghost use Rattle.table_numbered.specs.History.{size_of, IsEntry, NonePasses};
ghost use Rattle.shared_set.specs.Known.{
  shared_view,
  Keeps,
  Later,
  Gets,
  IsEmpty,
  Stepped,
  IsFurther,
  IsSeen,
  IsCursor,
  IsChainOver,
};
ghost use Rattle.shared_set.specs.Apart.{IsApart};
ghost use Rattle.shared_set.specs.Inserting.{Inserts, HasReceipt};

use crate::cursor::{Cursor, Stages};
use crate::handle::Handle;
use crate::insert::Inserted;
use crate::known::Known;
use crate::stage::{Grows, Stage};
use crate::supply::Supply;
use std::alloc::{AllocError, Global};
use std::marker::Model;
use std::sync::atomic::Ordering::SeqCst;
use std::sync::atomic::{AtomicBool, AtomicU64, AtomicUsize};
use table_cell::Low;
use table_chain::Chain;
use table_numbered::{KeyLaw, NumberedGeneration, SetLaw, Token};
use table_slab::Slab;

/// How many stages a set may have: from one bucket to 2^32.
pub(crate) const STAGES: usize = 33;

/// The first chunk of a set's slab has 32 slots.
const FIRST_CHUNK_BITS: u32 = 5;

/// The fewest buckets that a generation has.
const LEAST_BUCKETS: usize = 16;

/// The most entries for which a set can have buckets.
const MOST_ENTRIES: usize = 1 << 31;

/// A set of values that threads share through `&`, and that grows. No two of its entries are the same under the law `L`. No entry is removed
/// or moved.
///
/// A contract sees which set it is, what its first generation began with, and what each new handle knows. Which entries it has is what its
/// handles know.
pub struct SharedSet<V, L: SetLaw<V>, A: Low + Copy = Global> {
    pub(crate) slab: Slab<V, A>,
    pub(crate) chain: Chain<Stage<V, L, A>, Grows<V, L, A>, A>,
    pub(crate) alloc: A,
    /// What is known of the first generation as it was made.
    pub(crate) start: Token<V, L>,
    /// What each new handle knows, if it knows anything.
    pub(crate) known: Option<Cursor<V, L, A>>,
    /// A slot of the chain that has a stage: where a new handle begins.
    pub(crate) begin: AtomicUsize,
    /// True while a thread builds the next stage.
    pub(crate) growing: AtomicBool,
    /// How many values were placed, as far as handles have counted them.
    pub(crate) placed: AtomicU64,
}

impl<V, L: SetLaw<V>, A: Low + Copy> Model for SharedSet<V, L, A> {
    ghost use Rattle.shared_set.specs.Known.{SharedSetView, shared_view, shared_set_view, known_by, IsShared};

    ghost Value = { SharedSetView V };

    ghost view = { λ s. shared_set_view (shared_view s.chain s.slab) s.start.log (known_by s.known) };

    ghost invariant = { λ s. IsShared L.same L.hash_of s.chain s.slab s.start.log s.known };
}

impl<V, L: SetLaw<V>, A: Low + Copy> SharedSet<V, L, A> {
    /// Makes an empty set of 16 buckets. A refused request leaves nothing.
    pub fn new(alloc: A) -> Result<Self, AllocError>
        ensures empty { IfOk result (λ s. IsEmpty s.start) }
        ensures none { IfOk result (λ s. s.known ≡ []) }
        ensures size { IfOk result (λ s. size_of s.start ≡ 16) }
    {
        SharedSet::with_buckets(alloc, LEAST_BUCKETS)
    }

    /// Makes an empty set for this many entries: it has twice as many buckets, rounded up to a power of two, and 16 at least. One handle can
    /// place that many before the set grows. Each further handle may use up to 64 numbers that it doesn't place, so that the set grows earlier.
    ///
    /// `Err`: memory was refused, or `entries` is above 2^31. It leaves nothing.
    pub fn with_capacity(alloc: A, entries: usize) -> Result<Self, AllocError>
        ensures empty { IfOk result (λ s. IsEmpty s.start) }
        ensures none { IfOk result (λ s. s.known ≡ []) }
        ensures room { IfOk result (λ s. entries * 2 ≤ size_of s.start) }
        ensures few { IfOk result (λ s. size_of s.start ≤ max 16 (entries * 4)) }
    {
        if entries > MOST_ENTRIES {
            return Err(AllocError);
        }
        SharedSet::with_buckets(alloc, buckets_for(entries))
    }

    /// Makes an empty set whose first generation has this many buckets.
    fn with_buckets(alloc: A, buckets: usize) -> Result<Self, AllocError>
        requires power { IsPowerOfTwo buckets }
        requires few { buckets ≤ 2 ^ 32 }
        ensures empty { IfOk result (λ s. IsEmpty s.start) }
        ensures none { IfOk result (λ s. s.known ≡ []) }
        ensures size { IfOk result (λ s. size_of s.start ≡ buckets) }
    {
        let slab = Slab::new(alloc, FIRST_CHUNK_BITS)?;
        let generation = NumberedGeneration::new(alloc, &slab, buckets)?;
        let start = generation.start();
        let before = start.again();
        let first = Stage { generation, before };
        match Chain::new(alloc, STAGES, first) {
            Ok(chain) => Ok(SharedSet {
                slab,
                chain,
                alloc,
                start,
                known: None,
                begin: AtomicUsize::new(0),
                growing: AtomicBool::new(false),
                placed: AtomicU64::new(0),
            }),
            Err(_first) => Err(AllocError),
        }
    }

    /// Returns the number of values that were placed, as far as handles have counted them. A handle counts its first value before that
    /// insert returns, then 2, 4, 8, 16 and 32 values at a time, then 64 at a time, and the rest when it is dropped. `insert` of the set
    /// itself counts its value before it returns. While the set has no handle this is the number of its entries.
    pub fn len(&self) -> u64 {
        self.placed.load(SeqCst)
    }

    /// Returns true if no value was counted, as `len` counts them. A handle counts its first value before that insert returns, so a set
    /// of which an insert has returned `Placed` is not empty.
    pub fn is_empty(&self) -> bool {
        self.len() == 0
    }

    /// Returns a slot that has a stage: the newest one of which the set has been told.
    fn newest_told(&self, seen: &mut Stages<V, L, A>) -> usize
        requires seen { IsSeen L.same L.hash_of self.now.of seen.old.book seen.old.names seen.old.log }
        requires first { (s : _) × Stands seen.old.log 0 s }
        ensures seen { IsSeen L.same L.hash_of self.now.of seen.new.book seen.new.names seen.new.log }
        ensures longer { IsPrefix seen.old.log seen.new.log }
        ensures shown { (s : _) × Stands seen.new.log result s }
    {
        let slot = self.begin.load(SeqCst);
        if slot >= STAGES {
            return 0;
        }
        match self.chain.look(seen, slot) {
            Some(_) => slot,
            None => 0,
        }
    }

    /// Makes each new handle know what `known` has, in place of what an earlier call gave. The owner of the set calls it, before threads
    /// share the set. A new handle then takes one load for each growth since `known` was told.
    pub fn begin_with(&mut self, known: Known<V, L, A>)
        requires of { known.of ≡ self.old.of }
        ensures of { self.new.of ≡ self.old.of }
        ensures start { self.new.start ≡ self.old.start }
        ensures known { self.new.known ≡ known.history }
    {
        self.known = Some(known.cursor);
    }

    /// Returns a cursor at the newest stage of which the set has been told. It knows what that stage began with.
    fn newest(&self) -> Cursor<V, L, A>
        ensures { IsCursor L.same L.hash_of self.now.of result }
    {
        let mut stages = self.chain.start();
        let slot = self.newest_told(&mut stages);
        let stage = self.chain.get(&stages, slot);
        let entries = stage.generation().start();
        Cursor {
            slot,
            stages,
            entries,
        }
    }

    /// Returns a copy of the cursor that has moved on to the newest stage of which the set has been told.
    fn brought_on(&self, known: &Cursor<V, L, A>) -> Cursor<V, L, A>
        requires at { IsCursor L.same L.hash_of self.now.of known.now }
        ensures at { IsCursor L.same L.hash_of self.now.of result }
        ensures keeps { Keeps known.now.entries.log result.entries.log }
    {
        let mut cursor = known.again();
        let slot = self.newest_told(&mut cursor.stages);
        self.go_to(&mut cursor, slot);
        cursor
    }

    /// Returns a cursor at a stage that was shown. It knows what each new handle knows.
    pub(crate) fn cursor(&self) -> Cursor<V, L, A>
        ensures at { IsCursor L.same L.hash_of self.now.of result }
        ensures keeps { Keeps self.now.known result.entries.log }
    {
        match &self.known {
            Some(known) => self.brought_on(known),
            None => self.newest(),
        }
    }

    /// Returns a handle, by which one thread calls the set. It knows each entry that `begin_with` was last given. One handle for all calls of
    /// a thread is quicker than a call on the set each time, which makes a handle of its own.
    pub fn handle(&self) -> Handle<'_, V, L, A>
        ensures of { result.of ≡ self.now.of }
        ensures keeps { Keeps self.now.known result.history }
    {
        let cursor = self.cursor();
        Handle {
            set: self,
            stage: self.chain.get(&cursor.stages, cursor.slot),
            cursor,
            supply: Supply::new(),
            uncounted: 0,
            portion: 1,
        }
    }

    /// Moves the cursor to the next stage, if one was shown.
    pub(crate) fn step(&self, cursor: &mut Cursor<V, L, A>) -> Option<&Stage<V, L, A>>
        requires at { IsCursor L.same L.hash_of self.now.of cursor.old }
        ensures at { IsCursor L.same L.hash_of self.now.of cursor.new }
        ensures keeps { Keeps cursor.old.entries.log cursor.new.entries.log }
        ensures longer { IsPrefix cursor.old.stages.log cursor.new.stages.log }
        ensures stepped { Stepped cursor.old.slot cursor.new.slot cursor.new.stages.log result }
    {
        let next = cursor.slot + 1;
        if next == STAGES {
            return None;
        }
        match self.chain.look(&mut cursor.stages, next) {
            Some(stage) => {
                stage.carry_over(&mut cursor.entries);
                cursor.slot = next;
                Some(stage)
            }
            None => None,
        }
    }

    /// Moves the cursor to this slot, which has a stage, unless the cursor is there or beyond.
    pub(crate) fn go_to(&self, cursor: &mut Cursor<V, L, A>, slot: usize)
        requires at { IsCursor L.same L.hash_of self.now.of cursor.old }
        requires shown { (s : _) × Stands cursor.old.stages.log slot s }
        ensures at { IsCursor L.same L.hash_of self.now.of cursor.new }
        ensures keeps { Keeps cursor.old.entries.log cursor.new.entries.log }
        ensures longer { IsPrefix cursor.old.stages.log cursor.new.stages.log }
        ensures there { IsFurther cursor.old.slot slot cursor.new.slot }
    {
        for _passed in cursor.slot..slot {
            self.step(cursor).unwrap();
        }
    }

    /// Brings together what two cursors know, at the further one of their slots.
    pub(crate) fn join(&self, cursor: &mut Cursor<V, L, A>, theirs: Cursor<V, L, A>)
        requires mine { IsCursor L.same L.hash_of self.now.of cursor.old }
        requires theirs { IsCursor L.same L.hash_of self.now.of theirs }
        ensures at { IsCursor L.same L.hash_of self.now.of cursor.new }
        ensures mine { Keeps cursor.old.entries.log cursor.new.entries.log }
        ensures theirs { Keeps theirs.entries.log cursor.new.entries.log }
    {
        let mut theirs = theirs;
        cursor.stages.learn(&theirs.stages);
        self.go_to(cursor, theirs.slot);
        theirs.stages.learn(&cursor.stages);
        self.go_to(&mut theirs, cursor.slot);
        cursor.stages.learn(&theirs.stages);
        cursor.entries.learn(&theirs.entries);
    }
}

/// Returns the number of buckets of a set for this many entries: the least power of two that is at least 16 and twice as many.
fn buckets_for(entries: usize) -> usize
    requires { entries ≤ 2 ^ 31 }
    ensures power { IsPowerOfTwo result }
    ensures within { result ≤ 2 ^ 32 }
    ensures enough { entries * 2 ≤ result }
    ensures few { result ≤ max 16 (entries * 4) }
{
    (2 * entries).max(LEAST_BUCKETS).next_power_of_two()
}

impl<V, L: SetLaw<V>, A: Low + Copy> SharedSet<V, L, A> {
    /// Returns the entry that is the same as the target, as a new handle does. `None` means that no entry that `begin_with` was given is
    /// the same.
    pub fn get(&self, target: &V) -> Option<&V>
        ensures finds { Later self.now.known (λ log. IsApart L.same log × Gets (L.same target.now) (IsEntry log) result) }
    {
        let mut handle = self.handle();
        let found = handle.get(target);
        handle.apart();
        found
    }

    /// Returns an entry that meets the key, as a new handle does. `None` means that no entry that `begin_with` was given meets it.
    pub fn get_by_key<K>(&self, key: &K) -> Option<&V>
    where
        L: KeyLaw<K, V>,
        ensures finds { Later self.now.known (λ log. IsApart L.same log × Gets (L.meets key.now) (IsEntry log) result) }
    {
        let mut handle = self.handle();
        let found = handle.get_by_key(key);
        handle.apart();
        found
    }

    /// Returns true if an entry is the same as the target, as a new handle does. `false` means that no entry that `begin_with` was given is
    /// the same.
    pub fn contains(&self, target: &V) -> bool
        ensures none { result ≡ false → NonePasses (of_value (L.same target.now)) (IsEntry self.now.known) }
    {
        let mut handle = self.handle();
        handle.contains(target)
    }

    /// Inserts the value, unless an entry is the same, as a new handle does. No handle is left that knows the entry, so the receipt can't be
    /// added to an account: whoever keeps an account inserts by a handle.
    pub fn insert(&self, value: V) -> Inserted<'_, V>
        ensures told { Later self.now.known (λ log.
            IsApart L.same log × Inserts L.same L.hash_of value self.now.known log result) }
        ensures receipt { HasReceipt self.now.of result }
    {
        let mut handle = self.handle();
        let inserted = handle.insert(value);
        handle.apart();
        inserted
    }
}

impl<V, L: SetLaw<V>, A: Low + Copy> SharedSet<V, L, A> {
    /// Takes the set apart.
    pub(crate) fn into_parts(self) -> (Slab<V, A>, Chain<Stage<V, L, A>, Grows<V, L, A>, A>)
        ensures view { self.of ≡ shared_view result.1 result.0 }
        ensures over { IsChainOver result.1 result.0 }
    {
        let SharedSet {
            slab,
            chain,
            alloc: _,
            start: _,
            known: _,
            begin: _,
            growing: _,
            placed: _,
        } = self;
        (slab, chain)
    }
}

impl<V: Drop, L: SetLaw<V>, A: Low + Copy> Drop for SharedSet<V, L, A> {
    /// Drops each entry, and frees the memory.
    fn drop(self) {
        drop(self.into_values());
    }
}
