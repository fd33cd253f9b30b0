//! A word that is set at most once.
ghost use Rattle.std.specs.Prelude.{◌≡◌, true, false, Some, None, IsSome, IfSome, IfNone, MatchOption};
ghost use Rattle.std.specs.Coded.{coded_option};
ghost use Rattle.std.specs.Sync.Atomic.Pointer.{atomic_ptr_holding};
ghost use Rattle.table_cell.specs.Notes.{Agrees};
ghost use Rattle.table_cell.specs.Beside.{addressed, behind};
ghost use Rattle.table_cell.specs.Words.{WordView, word_view, view_coded, Shows, kept};

use crate::home::{Closed, Home, Homed};
use crate::loose_block::LooseBlock;
use crate::low::Low;
use crate::name::Name;
use crate::note::Note;
use std::alloc::Allocator;
use std::marker::{Brand, Move, Owns, PhantomData, Send, Sync};
use std::ptr::null_mut;
use std::sync::atomic::AtomicPtr;
use std::sync::atomic::Ordering::SeqCst;

/// A word: null, or the address of a block. Once it is set, neither the address nor the block changes. The word owns the block, or
/// another word does.
///
/// Dropping a word forgets its block; `into_block` returns it.
pub struct Word<T: Homed, A: Allocator> {
    pub(crate) inner: AtomicPtr<T>,
    marker: PhantomData<A>,
}

impl<T: Homed, A: Allocator> Owns for Word<T, A> {
    ghost Value = { WordView A T };

    ghost coded = { view_coded A.code (coded_option T.code) };

    ghost shr_at = { λ w p κ. behind T.row (kept T.row (A.dealloc_token w.from) w.home w.id w.owning w.value (Shows T.fits w)) p κ };
}

impl<T: Homed, A: Allocator> Move for Word<T, A> {
    ghost own_val = { λ w vs. addressed (kept T.row (A.dealloc_token w.from) w.home w.id w.owning w.value (Shows T.fits w)) (λ p. Fields.own_val (record { inner = atomic_ptr_holding p; marker = record {} }) vs) };
}

impl<T: Homed, A: Allocator> Word<T, A> {
    /// Makes a null word. Does not allocate.
    pub fn new(_alloc: &A, _home: &Home) -> Word<T, A>
        ensures { (result.from ≡ _alloc.now) × (result.home ≡ _home.now.id) × (result.owning ≡ true)
            × (result.value ≡ None) }
    {
        Word {
            inner: AtomicPtr::new(null_mut()),
            marker: PhantomData,
        }
    }

    /// Makes a word that names the block of another word, and owns nothing.
    pub fn of_name(name: Name<T>, _alloc: &A) -> Word<T, A>
        requires { T.fits name.value name.home }
        ensures { result ≡ word_view _alloc.now name.home false (Some name.value) }
    {
        let Name { at } = name;
        Word {
            inner: AtomicPtr::new(at),
            marker: PhantomData,
        }
    }

    /// Makes a word that owns a block.
    pub fn own(home: &Home, block: LooseBlock<T, A>) -> Word<T, A>
        requires { T.fits block.value home.now.id }
        ensures { result ≡ word_view block.from home.now.id true (Some block.value) }
    {
        let LooseBlock { at, allocator: _ } = block;
        Word {
            inner: AtomicPtr::new(at),
            marker: PhantomData,
        }
    }

    /// Returns the name of the block that a set word holds.
    pub fn name(&self) -> Name<T>
        requires { IsSome self.now.value }
        ensures { (result.home ≡ self.now.home) × Shows T.fits self.now result.value }
    {
        let at = unsafe { self.inner.load::<Brand>(SeqCst) };
        Name { at }
    }

    /// Returns a note for this word, which knows nothing yet. It will know to what the word is set.
    pub fn note(&self) -> Note<T>
        ensures { (result.of ≡ self.now.id) × (result.known ≡ None) }
    {
        Note {
            marker: PhantomData,
        }
    }

    /// Returns the name of the block, if the word was set through `&` by now. The note then knows its value. With a note that
    /// knows a value, the result is the name of a block with that value.
    pub fn name_if_set(&self, note: &mut Note<T>) -> Option<Name<T>>
        requires unset { self.now.value ≡ None }
        requires of { note.old.of ≡ self.now.id }
        ensures of { note.new.of ≡ note.old.of }
        ensures shows { MatchOption result (Unit {0})
            (λ n. (n.home ≡ self.now.home) × Shows T.fits self.now n.value) }
        ensures known { MatchOption result ((note.old.known ≡ None) × (note.new.known ≡ None))
            (λ n. (note.new.known ≡ Some n.value) × Agrees note.old.known n.value) }
    {
        let at = unsafe { self.inner.load::<Brand>(SeqCst) };
        if at.is_null() {
            return None;
        }
        Some(Name { at })
    }

    /// Returns the word as one that is set to the value that the note knows. Reads nothing.
    fn known_by(self, note: Note<T>) -> Word<T, A>
        requires { (note.of ≡ self.id) × (self.value ≡ None) × IsSome note.known }
        ensures same { (result.from ≡ self.from) × (result.home ≡ self.home)
            × (result.owning ≡ self.owning) }
        ensures value { (result.value ≡ note.known) × IfSome note.known (λ x. T.fits x self.home) }
    {
        let Note { marker: _ } = note;
        self
    }

    /// Returns the word as one whose value is known, with its name, if it was set through `&`. A word that wasn't is returned
    /// unchanged.
    pub fn settled(self, note: Note<T>) -> (Word<T, A>, Option<Name<T>>)
        requires unset { self.value ≡ None }
        requires of { note.of ≡ self.id }
        ensures same { (result.0.from ≡ self.from) × (result.0.home ≡ self.home)
            × (result.0.owning ≡ self.owning) }
        ensures null { IfNone result.1 ((result.0 ≡ self) × (note.known ≡ None)) }
        ensures set { IfSome result.1 (λ n. (result.0.value ≡ Some n.value) × (n.home ≡ self.home)
            × T.fits n.value self.home × Agrees note.known n.value) }
    {
        let mut note = note;
        match self.name_if_set(&mut note) {
            None => (self, None),
            Some(name) => (self.known_by(note), Some(name)),
        }
    }

    /// Returns the block of a set word, after its home has ended.
    pub fn into_block(self, closed: &Closed) -> LooseBlock<T, A>
        requires { (closed.now.id ≡ self.home) × (self.owning ≡ true) × IsSome self.value }
        ensures { (result.from ≡ self.from) × Shows T.fits self result.value }
    {
        let Word { inner, marker: _ } = self;
        let at = inner.into_inner();
        LooseBlock {
            at,
            allocator: PhantomData,
        }
    }

    /// Returns the block, if the word was set through `&`, after its home has ended. It holds the value that the note knows, if
    /// it knows one.
    pub fn into_block_if_set(self, closed: &Closed, note: Note<T>) -> Option<LooseBlock<T, A>>
        requires owns { (closed.now.id ≡ self.home) × (self.owning ≡ true) }
        requires unset { self.value ≡ None }
        requires of { note.of ≡ self.id }
        ensures block { IfSome result (λ l. (l.from ≡ self.from) × Shows T.fits self l.value) }
        ensures known { MatchOption result (note.known ≡ None) (λ l. Agrees note.known l.value) }
    {
        let (word, name) = self.settled(note);
        match name {
            None => None,
            Some(_) => Some(word.into_block(closed)),
        }
    }
}

impl<T: Homed, A: Low> Word<T, A> {
    /// Sets the word by one exchange, unless it was set before. Returns a reference to what the word then names, which the note
    /// then knows. If another block came first, also returns the caller's block.
    pub fn offer<'a>(
        &'a self,
        home: &'a Home,
        block: LooseBlock<T, A>,
        note: &mut Note<T>,
    ) -> (&'a T, Option<LooseBlock<T, A>>)
        requires fits { (home.now.id ≡ self.now.home) × (block.from ≡ self.now.from)
            × T.fits block.value self.now.home }
        requires unset { (self.now.owning ≡ true) × (self.now.value ≡ None) }
        requires of { note.old.of ≡ self.now.id }
        ensures of { note.new.of ≡ note.old.of }
        ensures known { (note.new.known ≡ Some result.0.now) × Agrees note.old.known result.0.now }
        ensures back { MatchOption result.1 ((result.0.now ≡ block.value) × (note.old.known ≡ None))
            (λ l. (l.value ≡ block.value) × (l.from ≡ block.from)) }
    {
        let LooseBlock { at, allocator } = block;
        unsafe { A::show_low(at as *const u8) };
        let exchange = unsafe {
            self.inner
                .compare_exchange::<Brand>(null_mut(), at, SeqCst, SeqCst)
        };
        let (shown, back) = match exchange {
            Ok(_) => (at, None),
            Err(first) => (first, Some(LooseBlock { at, allocator })),
        };
        (unsafe { &*shown }, back)
    }
}

impl<T: Homed, A: Allocator> Drop for Word<T, A> {
    /// Forgets the block.
    fn drop(self) {
        let Word { inner, marker: _ } = self;
        let _at = inner.into_inner();
    }
}

unsafe impl<T: Homed + Send + Sync, A: Allocator + Send> Send for Word<T, A> {}

unsafe impl<T: Homed + Send + Sync, A: Allocator + Send + Sync> Sync for Word<T, A> {}
