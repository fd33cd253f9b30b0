//! Buckets in a row. Their marks and their words are stored apart, in 10 bytes a bucket.
ghost use Rattle.std.specs.Prelude.{◌≡◌, ◌<◌, length, replicate, [], slice_set, IfOk, IfErr, OnOk};
ghost use Rattle.table_cell.specs.Contents.{vacant, own, entry_from, Lies, HandsBack};
ghost use Rattle.table_cell.specs.Rows.{content_at, bucket_at, AreOfOneRow, TakesFirst};

mod rehomed;

use crate::bucket::{Bucket, BucketRef, Entry, Mark, Refusal};
use crate::home::Home;
use crate::loose_block::LooseBlock;
use crate::word::Word;
use std::alloc::{AllocError, Allocator};
use std::marker::Model;
use std::vec;

/// A row of buckets of one home and one allocator. A probe skips buckets by their marks, which lie close together in memory.
///
/// Dropping a row frees no block; `into_buckets` returns its buckets.
#[derive(Drop)]
pub struct Row<T: Drop, A: Allocator + Copy> {
    alloc: A,
    /// Never set. It tells contracts the home of the buckets.
    origin: Word<Entry<T>, A>,
    marks: Vec<Mark, A>,
    words: Vec<Word<Entry<T>, A>, A>,
}

impl<T: Drop, A: Allocator + Copy> Model for Row<T, A> {
    ghost use Rattle.table_cell.specs.Rows.{RowView, row_of, IsRow};

    ghost Value = { RowView A T };

    ghost view = { λ r. row_of r.alloc r.origin.home r.marks.items r.words.items };

    ghost invariant = { λ r. IsRow r.alloc r.origin.home r.marks.items r.words.items };
}

impl<T: Drop, A: Allocator + Copy> Row<T, A> {
    /// Makes a row without buckets. Does not allocate.
    pub fn new(alloc: A, home: &Home) -> Self
        ensures of { (result.from ≡ alloc) × (result.home ≡ home.now.id) }
        ensures none { result.contents ≡ [] }
    {
        Row {
            alloc,
            origin: Word::new(&alloc, home),
            marks: Vec::new(alloc),
            words: Vec::new(alloc),
        }
    }

    /// Makes a row of `capacity` vacant buckets. Allocates twice, for the marks and for the words. For a capacity of 0 it does
    /// not allocate.
    pub fn vacant(alloc: A, home: &Home, capacity: usize) -> Result<Self, AllocError>
        ensures of { IfOk result (λ r. (r.from ≡ alloc) × (r.home ≡ home.now.id)) }
        ensures vacant { IfOk result (λ r. r.contents ≡ replicate capacity vacant) }
    {
        let mut marks = Vec::with_capacity(alloc, capacity)?;
        let mut words = Vec::with_capacity(alloc, capacity)?;
        for _made in 0..capacity {
            marks.push_reserved(Mark::Unmarked);
            words.push_reserved(Word::new(&alloc, home));
        }
        Ok(Row {
            alloc,
            origin: Word::new(&alloc, home),
            marks,
            words,
        })
    }

    /// Returns the allocator of the buckets.
    pub fn alloc(&self) -> A
        ensures { result ≡ self.now.from }
    {
        self.alloc
    }

    /// Returns the number of buckets.
    pub fn len(&self) -> usize
        ensures { result ≡ length self.now.contents }
    {
        self.marks.len()
    }

    /// Returns a view of the bucket at this index.
    pub fn at(&self, index: usize) -> BucketRef<'_, T, A>
        requires { index < length self.now.contents }
        ensures { result ≡ bucket_at self.now index }
    {
        BucketRef {
            mark: self.marks[index],
            word: &self.words[index],
        }
    }

    /// Replaces a vacant bucket, which no `place` has set, by another one.
    pub fn put(&mut self, index: usize, new: Bucket<T, A>)
        requires within { index < length self.old.contents }
        requires vacant { content_at self.old.contents index ≡ vacant }
        requires lies { Lies self.old.home self.old.from new }
        ensures put { self.new.contents ≡ slice_set self.old.contents index new.content }
        ensures ids { self.new.ids ≡ slice_set self.old.ids index new.id }
        ensures home { AreOfOneRow self.new self.old }
    {
        let Bucket { mark, word } = new;
        self.marks[index] = mark;
        self.words[index] = word;
    }

    /// Sets the bucket at this index to the value, in a new heap block. Allocates the block before it looks at the bucket. See
    /// `Bucket::place_alone`.
    pub fn place_alone(
        &mut self,
        home: &Home,
        index: usize,
        value: T,
        bits: u8,
    ) -> Result<(), Refusal<T>>
        requires home { self.old.home ≡ home.now.id }
        requires within { index < length self.old.contents }
        ensures vacant { OnOk result (content_at self.old.contents index ≡ vacant) }
        ensures placed { OnOk result (self.new.contents ≡ slice_set self.old.contents index
            (own (entry_from value bits))) }
        ensures ids { OnOk result (self.new.ids ≡ slice_set self.old.ids index 0) }
        ensures refused { IfErr result (λ r. (self.new ≡ self.old)
            × HandsBack (content_at self.old.contents index) value r) }
        ensures home { AreOfOneRow self.new self.old }
    {
        let block = match Box::new(self.alloc, Entry { value, bits }) {
            Ok(block) => block,
            Err(refused) => return Err(Refusal::NoMemory(refused.value.value)),
        };
        match self.marks[index] {
            Mark::Unmarked => {
                let bucket = Bucket {
                    mark: Mark::Own(bits),
                    word: Word::own(home, LooseBlock::of(block)),
                };
                self.put(index, bucket);
                Ok(())
            }
            _ => Err(Refusal::Taken(Box::into_inner(block).value)),
        }
    }

    /// Takes the row apart. Does not allocate.
    pub fn into_buckets(self) -> Buckets<T, A>
        ensures { result ≡ self }
    {
        let Row {
            alloc,
            origin,
            marks,
            words,
        } = self;
        Buckets {
            alloc,
            origin,
            marks: marks.into_iter(),
            words: words.into_iter(),
        }
    }
}

/// An iterator over the buckets of a row, in order. Dropping it frees none of their blocks.
#[derive(Drop)]
pub struct Buckets<T: Drop, A: Allocator + Copy> {
    alloc: A,
    origin: Word<Entry<T>, A>,
    marks: vec::IntoIter<Mark, A>,
    words: vec::IntoIter<Word<Entry<T>, A>, A>,
}

impl<T: Drop, A: Allocator + Copy> Model for Buckets<T, A> {
    ghost use Rattle.std.specs.Vec.Iter.{into_iter_items};
    ghost use Rattle.table_cell.specs.Rows.{RowView, row_of, IsRow};

    ghost Value = { RowView A T };

    ghost view = { λ r. row_of r.alloc r.origin.home (into_iter_items r.marks) (into_iter_items r.words) };

    ghost invariant = { λ r. IsRow r.alloc r.origin.home (into_iter_items r.marks) (into_iter_items r.words) };
}

impl<T: Drop, A: Allocator + Copy> Buckets<T, A> {
    /// Returns the allocator of the buckets.
    pub fn alloc(&self) -> A
        ensures { result ≡ self.now.from }
    {
        self.alloc
    }

    /// Returns the next bucket, or `None` at the end.
    pub fn next_bucket(&mut self) -> Option<Bucket<T, A>>
        ensures { TakesFirst self.old result self.new }
    {
        let mark = self.marks.next()?;
        let word = self.words.next()?;
        Some(Bucket { mark, word })
    }
}
