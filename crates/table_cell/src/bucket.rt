//! A bucket, which is set at most once.
ghost use Rattle.std.specs.Prelude.{◌≡◌, IfOk, IfErr, IfSome, IfNone, IsSome, None, Some, OnOk, option_copied, option_map};
ghost use Rattle.table_cell.specs.Contents.{vacant, own, named, bucket, shown, owned, entry_from, naming, word_naming, NamesEntry, Lies, NamesNone, KeepsOwn, Reads, HandsBack, Keeps, Misses};

use crate::home::{Closed, Home, Homed};
use crate::loose_block::LooseBlock;
use crate::low::Low;
use crate::name::Name;
use crate::note::Note;
use crate::word::Word;
use std::alloc::{Allocator, Global};
use std::marker::Model;
use std::mem::size_of;

/// The content of an entry's heap block: a value, and eight bits of the hash with which it was inserted.
#[derive(Drop)]
pub struct Entry<T> {
    pub value: T,
    pub bits: u8,
}

/// An entry fits every home, since it names no block.
impl<T> Homed for Entry<T> {
    ghost fits = { λ _ _. Unit {0} };
}

/// The mark of a bucket. It is stored apart from the word, so that a probe that skips the bucket follows no pointer.
#[derive(Clone, Copy)]
pub enum Mark {
    /// The word is null, or a thread set it through `&`.
    Unmarked,
    /// The word owns the block of an entry with these bits.
    Own(u8),
    /// The word names the block of an entry with these bits, and another bucket owns it.
    Named(u8),
}

/// A value that a bucket did not take through `&mut`.
#[derive(Drop)]
pub enum Refusal<T> {
    /// The bucket was set before.
    Taken(T),
    /// Memory for the block was refused. The bucket is unchanged.
    NoMemory(T),
}

/// A value that a bucket did not take through `&`.
#[derive(Drop)]
pub enum Missed<'a, T> {
    /// The bucket was set before, to this entry.
    Taken(T, &'a Entry<T>),
    /// Memory for the block was refused. The bucket was not touched.
    NoMemory(T),
}

/// A bucket of one home and one allocator. It is vacant, owns an entry, or names an entry that another bucket owns. A vacant
/// bucket is set through `&mut`, or at most once through `&`.
///
/// Dropping a bucket frees no block; `take` does.
#[derive(Drop)]
pub struct Bucket<T: Drop, A: Allocator + Copy> {
    pub(crate) mark: Mark,
    pub(crate) word: Word<Entry<T>, A>,
}

const _: () = prove!(size_of::<Home>() == 0);

const _: () = prove!(size_of::<Word<Entry<u64>, Global>>() == 8);

const _: () = prove!(size_of::<Note<u64>>() == 0);

const _: () = prove!(size_of::<Mark>() == 2);

const _: () = prove!(size_of::<Bucket<u64, Global>>() == 16);

impl<T: Drop, A: Allocator + Copy> Model for Bucket<T, A> {
    ghost use Rattle.table_cell.specs.Contents.{BucketView, bucket_of, IsMarked};

    ghost Value = { BucketView A T };

    ghost view = { λ b. bucket_of b.mark b.word };

    ghost invariant = { λ b. IsMarked b.mark b.word };
}

/// A view of a bucket through `&`: its mark and its word, wherever these are stored.
#[derive(Drop)]
pub struct BucketRef<'a, T: Drop, A: Allocator + Copy> {
    pub(crate) mark: Mark,
    pub(crate) word: &'a Word<Entry<T>, A>,
}

impl<'a, T: Drop, A: Allocator + Copy> Model for BucketRef<'a, T, A> {
    ghost use Rattle.table_cell.specs.Contents.{BucketView, bucket_of, IsMarked};

    ghost Value = { BucketView A T };

    ghost view = { λ b. bucket_of b.mark b.word.now };

    ghost invariant = { λ b. IsMarked b.mark b.word.now };
}

impl<T: Drop, A: Allocator + Copy> Bucket<T, A> {
    /// Makes a vacant bucket. Does not allocate.
    pub fn new(alloc: &A, home: &Home) -> Self
        ensures lies { Lies home.now.id alloc.now result }
        ensures vacant { result.content ≡ vacant }
    {
        Bucket {
            mark: Mark::Unmarked,
            word: Word::new(alloc, home),
        }
    }

    /// Returns a view of the bucket.
    pub fn as_ref(&self) -> BucketRef<'_, T, A>
        ensures { result ≡ self.now }
    {
        BucketRef {
            mark: self.mark,
            word: &self.word,
        }
    }

    /// Sets the bucket to the value, in a new heap block. Allocates the block before it looks at the bucket.
    ///
    /// It is meant for a bucket that no `place` has set. It sees only what was set through `&mut`, as do `get_alone`, `naming`
    /// and `take_alone`, and would overwrite what was set through `&`.
    pub fn place_alone(
        &mut self,
        home: &Home,
        alloc: A,
        value: T,
        bits: u8,
    ) -> Result<(), Refusal<T>>
        requires lies { Lies home.now.id alloc self.old }
        ensures ok { OnOk result ((self.old.content ≡ vacant)
            × (self.new ≡ bucket alloc home.now.id (own (entry_from value bits)))) }
        ensures refused { IfErr result (λ r. (self.new ≡ self.old)
            × HandsBack self.old.content value r) }
    {
        let block = match Box::new(alloc, Entry { value, bits }) {
            Ok(block) => block,
            Err(refused) => return Err(Refusal::NoMemory(refused.value.value)),
        };
        match self.mark {
            Mark::Unmarked => {
                *self = Bucket {
                    mark: Mark::Own(bits),
                    word: Word::own(home, LooseBlock::of(block)),
                };
                Ok(())
            }
            _ => Err(Refusal::Taken(Box::into_inner(block).value)),
        }
    }

    /// Makes a bucket that names what this word names. Reads the block for the bits.
    pub fn of_naming(home: &Home, word: Word<Entry<T>, A>) -> Self
        requires { NamesEntry home.now.id word }
        ensures { IfSome word.value (λ e. result ≡ bucket word.from home.now.id (named e)) }
    {
        let bits = word.name().get(home).bits;
        Bucket {
            mark: Mark::Named(bits),
            word,
        }
    }

    /// Consumes the bucket, and returns the value that it owns, if that was set through `&mut`.
    pub fn take_alone(self, closed: &Closed, alloc: A) -> Option<T>
        requires { Lies closed.now.id alloc self }
        ensures { result ≡ option_map (λ e. e.value) (owned self.content) }
    {
        match self.mark {
            Mark::Own(_) => Some(
                Box::into_inner(self.word.into_block(closed).into_box(alloc)).value,
            ),
            _ => None,
        }
    }

    /// Consumes the bucket, and returns the value that it owns, whether it was set through `&mut` or `&`. A value set through `&`
    /// is the one that the note knows, if it knows one.
    pub fn take(self, closed: &Closed, alloc: A, note: Note<Entry<T>>) -> Option<T>
        requires lies { Lies closed.now.id alloc self }
        requires of { note.of ≡ self.id }
        ensures alone { IfSome (shown self.content)
            (λ _. result ≡ option_map (λ e. e.value) (owned self.content)) }
        ensures shared { IfNone (shown self.content)
            (IfSome note.known (λ e. result ≡ Some e.value)) }
    {
        match self.mark {
            Mark::Own(_) => Some(
                Box::into_inner(self.word.into_block(closed).into_box(alloc)).value,
            ),
            Mark::Named(_) => None,
            Mark::Unmarked => Some(
                Box::into_inner(self.word.into_block_if_set(closed, note)?.into_box(alloc)).value,
            ),
        }
    }
}

impl<T: Drop, A: Allocator + Copy> Bucket<T, A> {
    /// Makes a bucket that owns the entry in this block.
    fn owning(home: &Home, block: LooseBlock<Entry<T>, A>) -> Self
        ensures { result ≡ bucket block.from home.now.id (own block.value) }
    {
        let word = Word::own(home, block);
        let bits = word.name().get(home).bits;
        Bucket {
            mark: Mark::Own(bits),
            word,
        }
    }

    /// Consumes the bucket, and returns a bucket of another home that owns the same entry, whether that was set through `&mut` or
    /// `&`. An entry set through `&` is the one that the note knows, if it knows one. The new bucket is vacant if this one owned
    /// nothing.
    pub fn rehomed(self, closed: &Closed, home: &Home, alloc: A, note: Note<Entry<T>>) -> Self
        requires lies { Lies closed.now.id alloc self }
        requires of { note.of ≡ self.id }
        ensures lies { Lies home.now.id alloc result }
        ensures own { KeepsOwn self.content result.content }
        ensures shared { IfNone (shown self.content)
            (IfSome note.known (λ e. result.content ≡ own e)) }
        ensures unnamed { NamesNone result.content }
    {
        match self.mark {
            Mark::Own(bits) => Bucket {
                mark: Mark::Own(bits),
                word: Word::own(home, self.word.into_block(closed)),
            },
            Mark::Named(_) => Bucket::new(&alloc, home),
            Mark::Unmarked => match self.word.into_block_if_set(closed, note) {
                Some(block) => Bucket::owning(home, block),
                None => Bucket::new(&alloc, home),
            },
        }
    }
}

impl<'a, T: Drop, A: Allocator + Copy> BucketRef<'a, T, A> {
    /// Returns the mark of the bucket, which knows only what was set through `&mut`. Follows no pointer.
    pub fn mark(&self) -> Mark
        ensures { Reads self.now.content result }
    {
        self.mark
    }

    /// Returns a bucket that names the entry of this one, or `None` if this one was not set through `&mut`. Follows no pointer.
    pub fn naming(&self, alloc: A) -> Option<Bucket<T, A>>
        requires { self.now.from ≡ alloc }
        ensures { result ≡ option_map (bucket alloc self.now.home) (naming self.now.content) }
    {
        let mark = match self.mark {
            Mark::Unmarked => return None,
            Mark::Own(bits) => Mark::Named(bits),
            Mark::Named(bits) => Mark::Named(bits),
        };
        Some(Bucket {
            mark,
            word: Word::of_name(self.word.name(), &alloc),
        })
    }

    /// Returns a word that names the entry of this bucket, also if that was set through `&`. Follows no pointer.
    pub fn naming_word(&self, alloc: A, note: &mut Note<Entry<T>>) -> Option<Word<Entry<T>, A>>
        requires from { self.now.from ≡ alloc }
        requires of { note.old.of ≡ self.now.id }
        ensures of { note.new.of ≡ note.old.of }
        ensures alone { IfSome (shown self.now.content)
            (λ e. (result ≡ Some (word_naming alloc self.now.home e))
            × (note.new.known ≡ note.old.known)) }
        ensures shared { IfNone (shown self.now.content)
            ((result ≡ option_map (word_naming alloc self.now.home) note.new.known)
            × Keeps note.old.known note.new.known) }
    {
        let name = match self.mark {
            Mark::Unmarked => self.word.name_if_set(note)?,
            _ => self.word.name(),
        };
        Some(Word::of_name(name, &alloc))
    }

    /// Returns the entry of a bucket that was set through `&mut`, without reading its mark.
    pub fn entry(&self, home: &'a Home) -> &'a Entry<T>
        requires home { self.now.home ≡ home.now.id }
        requires set { IsSome (shown self.now.content) }
        ensures { shown self.now.content ≡ Some result.now }
    {
        self.word.name().get(home)
    }

    /// Returns the entry of the bucket, if it was set through `&mut`.
    pub fn get_alone(&self, home: &'a Home) -> Option<&'a Entry<T>>
        requires { self.now.home ≡ home.now.id }
        ensures { option_copied result ≡ shown self.now.content }
    {
        match self.mark {
            Mark::Unmarked => None,
            _ => Some(self.word.name().get(home)),
        }
    }

    /// Returns a note for the bucket, which knows nothing yet. It will know to what the bucket is set through `&`.
    pub fn note(&self) -> Note<Entry<T>>
        ensures { (result.of ≡ self.now.id) × (result.known ≡ None) }
    {
        self.word.note()
    }

    /// Returns the entry of the bucket. If that was set through `&`, the note knows it from then on. With a note that knows an
    /// entry, the result is that entry.
    pub fn get(&self, home: &'a Home, note: &mut Note<Entry<T>>) -> Option<&'a Entry<T>>
        requires home { self.now.home ≡ home.now.id }
        requires of { note.old.of ≡ self.now.id }
        ensures of { note.new.of ≡ note.old.of }
        ensures alone { IfSome (shown self.now.content)
            (λ e. (option_copied result ≡ Some e) × (note.new.known ≡ note.old.known)) }
        ensures shared { IfNone (shown self.now.content)
            ((option_copied result ≡ note.new.known) × Keeps note.old.known note.new.known) }
    {
        match self.mark {
            Mark::Unmarked => Some(self.word.name_if_set(note)?.get(home)),
            _ => Some(self.word.name().get(home)),
        }
    }
}

impl<'a, T: Drop, A: Low + Copy> BucketRef<'a, T, A> {
    /// Sets a vacant bucket by one exchange. Allocates the block before it looks at the bucket. The note then knows the entry
    /// that was placed, or the one that came first.
    pub fn place(
        &self,
        home: &'a Home,
        alloc: A,
        value: T,
        bits: u8,
        note: &mut Note<Entry<T>>,
    ) -> Result<&'a Entry<T>, Missed<'a, T>>
        requires lies { Lies home.now.id alloc self.now }
        requires of { note.old.of ≡ self.now.id }
        ensures of { note.new.of ≡ note.old.of }
        ensures ok { IfOk result (λ e. (self.now.content ≡ vacant)
            × (e.now ≡ entry_from value bits)) }
        ensures first { IfOk result (λ e. (note.old.known ≡ None) × (note.new.known ≡ Some e.now)) }
        ensures missed { IfErr result (λ m. Misses self.now.content value note.old.known
            note.new.known m) }
    {
        let block = match Box::new(alloc, Entry { value, bits }) {
            Ok(block) => block,
            Err(refused) => return Err(Missed::NoMemory(refused.value.value)),
        };
        if !matches!(self.mark, Mark::Unmarked) {
            return Err(Missed::Taken(Box::into_inner(block).value, self.word.name().get(home)));
        }
        match self.word.offer(home, LooseBlock::of(block), note) {
            (entry, None) => Ok(entry),
            (first, Some(back)) => {
                let value = Box::into_inner(back.into_box(alloc)).value;
                Err(Missed::Taken(value, first))
            }
        }
    }
}
