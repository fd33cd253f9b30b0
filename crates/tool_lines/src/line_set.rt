//! A set of lines, or of words.
ghost use Rattle.std.specs.Prelude.{◌≡◌, ◌↔◌, ◌++◌, ◌∷◌, [], IfOk, IfSome, OnOk, OnErr, IsTrue, List, ℕ, Contains, is_some};
ghost use Rattle.interner.specs.Hashes.{mixed_hash};
ghost use Rattle.tool_lines.specs.LineSet.{HoldsLines, SeesLine, RefusesLine};

use bumpalo::Bump;
use interner::{Mixed, TextHash};
use std::alloc::{AllocError, Allocator};
use std::marker::{Model, PhantomData};
use table_generations::atomic_value::{InPlace, Law};
use table_held::raw::HeldRawTable;

/// A line, and its hash.
#[derive(Clone, Copy)]
pub struct HashedLine<'p> {
    pub bytes: &'p [u8],
    pub hash: u64,
    ghost hashed: { hash ≡ mixed_hash bytes.now },
}

impl<'p> HashedLine<'p> {
    /// Makes the line of these bytes.
    pub fn new(bytes: &'p [u8]) -> Self
        ensures { result.bytes.now ≡ bytes.now }
    {
        HashedLine {
            bytes,
            hash: Mixed::hash(bytes),
        }
    }
}

/// A line as a set stores it. Its memory comes from `A`.
pub trait StoredLine<A>: Drop {
    ghost use Rattle.std.specs.Prelude.{ℕ, List};

    /// The bytes of the line.
    ghost bytes_of: { Self → List ℕ };

    /// Copies the line, which is stored after `before` others. `Err`: memory was refused.
    fn store(alloc: A, line: HashedLine<'_>, before: usize) -> Result<Self, AllocError>
        ensures { IfOk result (λ stored. bytes_of stored ≡ line.entry.bytes.now) };

    /// Returns the bytes of the line.
    fn bytes(&self) -> &[u8]
        ensures { result.now ≡ bytes_of self.now };

    /// Returns the hash of the line, which a growth needs.
    fn hash(&self) -> u64
        ensures { result ≡ mixed_hash (bytes_of self.now) };
}

/// A line in an arena: it has no heap block of its own.
impl<'a, A: Allocator> StoredLine<&'a Bump<A>> for &'a [u8] {
    ghost bytes_of = { λ line. line.now };

    fn store(
        arena: &'a Bump<A>,
        line: HashedLine<'_>,
        _before: usize,
    ) -> Result<&'a [u8], AllocError> {
        Ok(arena.try_alloc_slice_copy(line.bytes)?)
    }

    fn bytes(&self) -> &[u8] {
        *self
    }

    fn hash(&self) -> u64 {
        Mixed::hash(*self)
    }
}

/// The equality and hash of stored lines: two are equal if their bytes are, and the hash is the mixed hash of the bytes.
pub struct LineLaw<A> {
    _alloc: PhantomData<A>,
}

impl<T: StoredLine<A>, A> Law<T> for LineLaw<A> {
    ghost use Rattle.tool_lines.specs.Hashes.{same_by_bytes, hash_by_bytes, bytes_lawful};

    ghost same = { same_by_bytes T.bytes_of };

    ghost hash_of = { hash_by_bytes T.bytes_of };

    ghost lawful = { bytes_lawful T.bytes_of };
}

/// A set of lines, each stored once.
#[derive(Drop)]
pub struct LineSet<T: StoredLine<A>, A: Allocator + Copy> {
    pub(crate) lines: HeldRawTable<InPlace<T>, A>,
    pub(crate) alloc: A,
}

impl<T: StoredLine<A>, A: Allocator + Copy> Model for LineSet<T, A> {
    ghost use Rattle.table_generations.specs.declared.atomic_value.InPlace.{InPlace};
    ghost use Rattle.table_held.specs.Table.{HeldTable};
    ghost use Rattle.tool_lines.specs.LineSet.{IsLineTable};

    ghost Value = { HeldTable (InPlace T) };

    ghost view = { λ t. t.lines };

    ghost invariant = { λ t. IsLineTable T.bytes_of t.lines };
}

impl<T: StoredLine<A>, A: Allocator + Copy> LineSet<T, A> {
    /// Makes an empty set. Does not allocate.
    pub fn new(alloc: A) -> Self
        ensures { HoldsLines T.bytes_of result [] }
    {
        LineSet {
            lines: HeldRawTable::new(alloc),
            alloc,
        }
    }

    /// Returns whether the line was in the set, and adds it. A known line needs no memory.
    ///
    /// `Err`: the line is new, and memory was refused. The set holds the same lines as before.
    pub fn seen_before(&mut self, line: HashedLine<'_>) -> Result<bool, AllocError>
        ensures sees { IfOk result (λ seen. SeesLine T.bytes_of self.old line.entry.bytes.now seen
            self.new) }
        ensures refused { OnErr result (RefusesLine T.bytes_of self.old line.entry.bytes.now
            self.new) }
    {
        if self.find(line).is_some() {
            return Ok(true);
        }
        self.keep(line)?;
        Ok(false)
    }

    /// Returns the stored line that has these bytes, if it is in the set.
    pub fn find(&self, line: HashedLine<'_>) -> Option<&T>
        ensures known { (lines : List (List ℕ)) → HoldsLines T.bytes_of self.now lines
            → IsTrue (is_some result) ↔ Contains lines line.entry.bytes.now }
        ensures found { IfSome result (λ stored. T.bytes_of stored.now ≡ line.entry.bytes.now) }
    {
        let bytes = line.bytes;
        self.lines
            .lookup_alone::<LineLaw<A>, _>(line.hash, |stored: &T| stored.bytes() == bytes)
    }

    /// Adds a line that is not in the set. An `Err` means that memory was refused; the set holds the same lines as before.
    pub fn keep(&mut self, line: HashedLine<'_>) -> Result<(), AllocError>
        ensures kept { OnOk result ((lines : List (List ℕ)) → HoldsLines T.bytes_of self.old lines
            → HoldsLines T.bytes_of self.new (lines ++ line.entry.bytes.now ∷ [])) }
        ensures refused { OnErr result ((lines : List (List ℕ)) → HoldsLines T.bytes_of self.old lines
            → HoldsLines T.bytes_of self.new lines) }
    {
        let stored = T::store(self.alloc, line, self.lines.len_alone())?;
        let Ok(_) = self.lines.place_alone::<LineLaw<A>, _, _>(
            line.hash,
            InPlace(stored),
            &|new: &T, entry: &T| new.bytes() == entry.bytes(),
            &|entry: &T| entry.hash(),
        )
        else {
            return Err(AllocError);
        };
        Ok(())
    }
}
