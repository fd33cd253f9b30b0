//! The table that threads share.
ghost use Rattle.std.specs.Prelude.{◌≡◌, ◌⊎◌, IfSome, IfNone, IsSome, None, [], ◌∷◌, length};
ghost use Rattle.std.specs.Int.{IsPowerOfTwo};
ghost use Rattle.std.specs.Option.{ForSome, IsSomeAnd};
ghost use Rattle.table_terms.specs.Capacities.{IsFirstCapacity};
ghost use Rattle.table_core.specs.declared.call.Phase.TheVariants.{Shared, LookLoad};
ghost use Rattle.table_core.specs.RunningSteps.{Went};
ghost use Rattle.table_shared.specs.Between.{Loads};
ghost use Rattle.table_shared.specs.Lineages.{AreOfHome, IsNumber, LastIsBare, shown_in};

use crate::lineage::Lineage;
use crate::locks::Locks;
use crate::padding::Padding;
use crate::shown::Shown;
use crate::size::Size;
use std::alloc::{Allocator, Global};
use std::marker::Model;
use table_cell::{Home, Note};
use table_core::steps::{step, step_loaded};
use table_core::{Answer, CallState};
use table_generations::atomic_value::AtomicValue;
use table_generations::fixed::Generation;
use table_generations::values::IntoIter;
use table_terms::capacity::FIRST_CAPACITY;

/// An insertion-only hash table that threads share. A look-up takes no lock; an insert takes one.
///
/// One counter for the whole table counts the entries. Growth copies every entry while nothing is added, so the current
/// generation has all of them.
///
/// A hash should vary in all 64 bits: a probe and the choice of the lock lane begin at the low bits, and bits 32 to 39 let a
/// probe skip most calls of `eq`. For a number call `table_terms::law::hash_number`. A product with an odd number isn't enough,
/// since multiples of 2^16 share its low 16 bits.
pub struct LockFreeRawTable<T: AtomicValue, A: Allocator + Copy = Global> {
    pub(crate) first_capacity: usize,
    pub(crate) home: Home,
    pub(crate) lineage: Lineage<T, A>,
    pub(crate) shown: Shown<T, A>,
    /// The locks and the size, which each insert writes, lie between this padding and the next.
    before: Padding,
    /// Held shared while a value is placed and counted, and exclusively while a generation is built.
    pub(crate) locks: Locks,
    pub(crate) size: Size,
    after: Padding,
    pub(crate) alloc: A,
}

impl<T: AtomicValue, A: Allocator + Copy> Model for LockFreeRawTable<T, A> {
    ghost use Rattle.std.specs.Prelude.{◌≡◌};
    ghost use Rattle.table_terms.specs.Capacities.{IsFirstCapacity};
    ghost use Rattle.table_shared.specs.Tables.{SharedTable, table_of};

    ghost Value = { SharedTable T };

    ghost view = { λ t. table_of t.first_capacity t.lineage t.shown.id };

    ghost invariant = { λ t. IsFirstCapacity t.first_capacity × (t.lineage.home ≡ t.home.id)
        × (t.shown.home ≡ t.home.id) };
}

/// A generation that was the current one at some moment of the call, with its number. The first is 0.
#[derive(Clone, Copy)]
pub struct Current<'a, T: AtomicValue, A: Allocator + Copy> {
    pub number: u64,
    pub generation: &'a Generation<T, A>,
}

impl<T: AtomicValue, A: Allocator + Copy> LockFreeRawTable<T, A> {
    /// Makes an empty table, whose first generation will have 16 buckets. Does not allocate.
    pub fn new(alloc: A) -> Self
        ensures first { result.first_capacity ≡ 16 }
        ensures empty { result.shared ≡ [] ∷ [] }
    {
        LockFreeRawTable::with_first_capacity(alloc, FIRST_CAPACITY)
    }

    /// Makes an empty table, whose first generation will have `first_capacity` buckets, a power of two from 16 to 2^30. Does not
    /// allocate.
    pub fn with_first_capacity(alloc: A, first_capacity: usize) -> Self
        requires { IsFirstCapacity first_capacity }
        ensures first { result.first_capacity ≡ first_capacity }
        ensures empty { result.shared ≡ [] ∷ [] }
    {
        let home = Home::new();
        let base = Generation::none(alloc, &home);
        LockFreeRawTable::of_parts(first_capacity, home, Vec::new(alloc), base, alloc)
    }

    /// Makes an empty table with the allocator and the first capacity of this one. Does not allocate.
    pub fn new_like(&self) -> Self
        ensures first { result.first_capacity ≡ self.now.first_capacity }
        ensures empty { result.shared ≡ [] ∷ [] }
    {
        LockFreeRawTable::with_first_capacity(self.alloc, self.first_capacity)
    }

    /// Makes a table of these generations. `base` is the last; if it has a bucket, it becomes the current one. Does not allocate.
    pub fn of_parts(
        first_capacity: usize,
        home: Home,
        earlier: Vec<Generation<T, A>, A>,
        base: Generation<T, A>,
        alloc: A,
    ) -> Self
        requires first { IsFirstCapacity first_capacity }
        requires home { AreOfHome home.id earlier.items base }
        ensures first { result.first_capacity ≡ first_capacity }
        ensures home { result.home ≡ home.id }
        ensures shared { result.shared ≡ shown_in earlier.items base }
    {
        let size = base.size();
        let lineage = Lineage::new(alloc, &home, earlier, base);
        let shown = Shown::new(alloc, &home);
        LockFreeRawTable {
            first_capacity,
            home,
            lineage,
            shown,
            before: Padding::new(),
            locks: Locks::new(),
            size: Size::new(size),
            after: Padding::new(),
            alloc,
        }
    }

    /// Returns the number of entries counted so far. Takes no lock.
    pub fn len(&self) -> usize {
        self.size.get()
    }

    /// Returns whether no entry is counted so far. Takes no lock.
    pub fn is_empty(&self) -> bool {
        self.len() == 0
    }

    /// Returns the home of the table's blocks, with which a bucket of the table can be read.
    pub fn home(&self) -> &Home
        ensures { result.now.id ≡ self.now.home }
    {
        &self.home
    }

    /// Makes a note of what was published since the table was shared. It knows nothing yet.
    #[inline(always)]
    pub fn note(&self) -> Note<()>
        ensures { (result.of ≡ self.now.latest) × (result.known ≡ None) }
    {
        self.shown.note()
    }

    /// Returns the generation that is current now. Returns `None` only if the last generation had no bucket when the table was
    /// shared, and never with a note that knows that a generation was published since. The note then knows whether one was. Takes
    /// no lock and does not allocate.
    #[inline(always)]
    pub fn current(&self, note: &mut Note<()>) -> Option<Current<'_, T, A>>
        requires of { note.old.of ≡ self.now.latest }
        ensures of { note.new.of ≡ note.old.of }
        ensures none { IfNone result (LastIsBare self.now.shared × (note.old.known ≡ None)) }
        ensures home { IfSome result (λ c. c.generation.now.home ≡ self.now.home) }
        ensures power { IfSome result (λ c. IsPowerOfTwo (length c.generation.now.contents)) }
        ensures number { IfSome result (λ c. IsNumber self.now.first_capacity self.now.shared
            (length c.generation.now.contents) c.number) }
    {
        if let Some(generation) = self.shown.latest(&self.home, note) {
            return Some(self.numbered(generation));
        }
        Some(self.numbered(self.lineage.last_held()?))
    }

    /// Returns a generation of this table with its number.
    #[inline(always)]
    fn numbered<'a>(&'a self, generation: &'a Generation<T, A>) -> Current<'a, T, A>
        requires power { IsPowerOfTwo (length generation.now.contents) }
        ensures same { result.generation.now ≡ generation.now }
        ensures number { IsNumber self.now.first_capacity self.now.shared
            (length generation.now.contents) result.number }
    {
        Current {
            number: self
                .lineage
                .number_of(self.first_capacity, generation.capacity()),
            generation,
        }
    }

    /// Loads the current generation for a call: returns the generation, the state of the call after it, and what was found.
    pub(crate) fn load(&self, state: CallState) -> (Option<&Generation<T, A>>, CallState, Answer)
        requires phase { (state.phase ≡ Shared) ⊎ (state.phase ≡ LookLoad) }
        ensures went { Went state result.1 result.2 }
        ensures loads { Loads self.now.home state result.0 result.1 }
        ensures number { ForSome result.0 (λ g. IsSomeAnd result.1.walked (λ n.
            IsNumber self.now.first_capacity self.now.shared (length g.now.contents) n)) }
    {
        match self.current(&mut self.note()) {
            None => (
                None,
                step(state, Answer::NoGeneration),
                Answer::NoGeneration,
            ),
            Some(Current { number, generation }) => {
                let capacity = generation.capacity() as u64;
                let next = step_loaded(state, number, capacity);
                (Some(generation), next, Answer::Loaded { number, capacity })
            }
        }
    }

    /// Returns whether the counted entries are at least half as many as the buckets of this generation.
    pub(crate) fn wants_growth(&self, current: &Generation<T, A>) -> bool {
        current.capacity() / 2 <= self.size.get()
    }
}

impl<T: AtomicValue, A: Allocator + Copy> IntoIterator for LockFreeRawTable<T, A> {
    type Item = T;

    type IntoIter = IntoIter<T, A>;

    /// Consumes the table and returns an iterator over its values. Does not allocate.
    fn into_iter(self) -> IntoIter<T, A> {
        let LockFreeRawTable {
            first_capacity: _,
            home,
            lineage,
            shown: _,
            before: _,
            locks: _,
            size: _,
            after: _,
            alloc: _,
        } = self;
        let closed = home.close();
        lineage.into_values(&closed)
    }
}

impl<T: AtomicValue, A: Allocator + Copy> Drop for LockFreeRawTable<T, A> {
    /// Drops the value of each entry once, and frees its block.
    fn drop(self) {
        let LockFreeRawTable {
            first_capacity: _,
            home,
            lineage,
            shown: _,
            before: _,
            locks: _,
            size: _,
            after: _,
            alloc: _,
        } = self;
        lineage.drop_values(&home.close());
    }
}
