//! A word that is set again and again.
ghost use Rattle.std.specs.Prelude.{◌≡◌, None, IsSome, IfSome, MatchOption};
ghost use Rattle.std.specs.Sync.Atomic.Pointer.{atomic_ptr_holding};
ghost use Rattle.table_cell.specs.Beside.{addressed, behind};
ghost use Rattle.table_cell.specs.Latest.{LatestView, latest_coded, last};

use crate::home::{Home, Homed};
use crate::name::Name;
use crate::note::Note;
use crate::word::Word;
use std::alloc::Allocator;
use std::marker::{Brand, Move, Owns, PhantomData, Send, Sync};
use std::ptr::null_mut;
use std::sync::atomic::AtomicPtr;
use std::sync::atomic::Ordering::SeqCst;

/// A word that names the block that was published last: null, or the address of a block that a `Word` holds.
///
/// It owns nothing. A block that it named stays alive as long as its home, also after another block is published. Any thread may
/// call it at any time.
pub struct Latest<T: Homed, A: Allocator> {
    inner: AtomicPtr<T>,
    marker: PhantomData<A>,
}

impl<T: Homed, A: Allocator> Owns for Latest<T, A> {
    ghost Value = { LatestView };

    ghost coded = { latest_coded };

    ghost shr_at = { λ l p κ. behind T.row (last T.row l.home l.id (λ x. T.fits x l.home)) p κ };
}

impl<T: Homed, A: Allocator> Move for Latest<T, A> {
    ghost own_val = { λ l vs. addressed (last T.row l.home l.id (λ x. T.fits x l.home)) (λ p. Fields.own_val (record { inner = atomic_ptr_holding p; marker = record {} }) vs) };
}

impl<T: Homed, A: Allocator> Latest<T, A> {
    /// Makes a word that names no block yet. Does not allocate.
    pub fn new(_alloc: &A, _home: &Home) -> Latest<T, A>
        ensures { result.home ≡ _home.now.id }
    {
        Latest {
            inner: AtomicPtr::new(null_mut()),
            marker: PhantomData,
        }
    }

    /// Returns a note for this word, which knows nothing yet. It will know whether a block was published.
    pub fn note(&self) -> Note<()>
        ensures { (result.of ≡ self.now.id) × (result.known ≡ None) }
    {
        Note {
            marker: PhantomData,
        }
    }

    /// Publishes the block that `word` names. A thread set the word through `&`, and `_seen` is a note that knows to what. The note
    /// returned knows that a block was published. Loads the block's address from `word`, and stores it here.
    pub fn show(&self, word: &Word<T, A>, _seen: &Note<T>) -> Note<()>
        requires unset { word.now.value ≡ None }
        requires home { word.now.home ≡ self.now.home }
        requires of { _seen.now.of ≡ word.now.id }
        requires seen { IsSome _seen.now.known }
        ensures of { result.of ≡ self.now.id }
        ensures shown { IsSome result.known }
    {
        let at = unsafe { word.inner.load::<Brand>(SeqCst) };
        unsafe { self.inner.store::<Brand>(at, SeqCst) };
        Note {
            marker: PhantomData,
        }
    }

    /// Returns the name of the block that was published last, or `None` if none was. The note then knows that one was; with such
    /// a note the result is never `None`. Does one load.
    pub fn name(&self, note: &mut Note<()>) -> Option<Name<T>>
        requires of { note.old.of ≡ self.now.id }
        ensures of { note.new.of ≡ note.old.of }
        ensures named { IfSome result (λ n. (n.home ≡ self.now.home) × T.fits n.value n.home) }
        ensures known { MatchOption result ((note.old.known ≡ None) × (note.new.known ≡ None))
            (λ n. IsSome note.new.known) }
    {
        let at = unsafe { self.inner.load::<Brand>(SeqCst) };
        if at.is_null() {
            return None;
        }
        Some(Name { at })
    }
}

impl<T: Homed, A: Allocator> Drop for Latest<T, A> {
    /// Forgets the block.
    fn drop(self) {
        let Latest { inner, marker: _ } = self;
        let _at = inner.into_inner();
    }
}

unsafe impl<T: Homed + Send + Sync, A: Allocator + Send> Send for Latest<T, A> {}

unsafe impl<T: Homed + Send + Sync, A: Allocator + Send + Sync> Sync for Latest<T, A> {}
