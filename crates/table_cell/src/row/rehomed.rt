//! A row moved to another home after its own has ended.
ghost use Rattle.std.specs.Prelude.{◌≡◌, ◌<◌, length, slice_index_or, All};
ghost use Rattle.table_cell.specs.Contents.{Lies, NamesNone};
ghost use Rattle.table_cell.specs.Rows.{AreMarked, buckets_of};
ghost use Rattle.table_cell.specs.Rehomed.{AreRehomed, RehomesAt, AreMovedBelow};

use crate::bucket::{Bucket, Entry, Mark};
use crate::home::{Closed, Home};
use crate::row::Row;
use crate::word::Word;
use std::alloc::Allocator;
use std::mem;

/// Moves what the bucket at this index owns to the other home.
fn rehome_bucket<T: Drop, A: Allocator + Copy>(
    marks: &mut Vec<Mark, A>,
    words: &mut Vec<Word<Entry<T>, A>, A>,
    index: usize,
    closed: &Closed,
    home: &Home,
    alloc: A,
)
    requires within { index < length marks.old.items }
    requires marked { AreMarked marks.old.items words.old.items }
    requires lies { (d : _) → Lies closed.now.id alloc
        (slice_index_or (buckets_of marks.old.items words.old.items) index d) }
    ensures marked { AreMarked marks.new.items words.new.items }
    ensures moved { RehomesAt home.now.id alloc index (buckets_of marks.old.items words.old.items)
        (buckets_of marks.new.items words.new.items) }
{
    let place = &mut words[index];
    let old = Bucket {
        mark: marks[index],
        word: mem::replace(place, Word::new(&alloc, home)),
    };
    let note = old.as_ref().note();
    let Bucket { mark, word } = old.rehomed(closed, home, alloc, note);
    *place = word;
    marks[index] = mark;
}

/// Moves what each bucket owns to the other home.
fn rehome_buckets<T: Drop, A: Allocator + Copy>(
    marks: &mut Vec<Mark, A>,
    words: &mut Vec<Word<Entry<T>, A>, A>,
    closed: &Closed,
    home: &Home,
    alloc: A,
)
    requires marked { AreMarked marks.old.items words.old.items }
    requires lies { All (Lies closed.now.id alloc) (buckets_of marks.old.items words.old.items) }
    ensures marked { AreMarked marks.new.items words.new.items }
    ensures moved { AreMovedBelow home.now.id alloc (length marks.old.items)
        (buckets_of marks.old.items words.old.items) (buckets_of marks.new.items words.new.items) }
{
    for index in 0..marks.len() {
        rehome_bucket(marks, words, index, closed, home, alloc);
    }
}

impl<T: Drop, A: Allocator + Copy> Row<T, A> {
    /// Moves the row to another home, without the buckets that name entries. Each bucket keeps the entry that it owns, whether it
    /// was set through `&mut` or `&`, and counts as set through `&mut` from then on. Does not allocate.
    pub fn rehomed(self, closed: &Closed, home: &Home) -> Self
        requires { self.home ≡ closed.now.id }
        ensures of { (result.from ≡ self.from) × (result.home ≡ home.now.id) }
        ensures own { AreRehomed self.contents result.contents }
        ensures unnamed { All NamesNone result.contents }
    {
        let Row {
            alloc,
            origin: _,
            mut marks,
            mut words,
        } = self;
        rehome_buckets(&mut marks, &mut words, closed, home, alloc);
        Row {
            alloc,
            origin: Word::new(&alloc, home),
            marks,
            words,
        }
    }
}
