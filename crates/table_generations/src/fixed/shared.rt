//! A generation whose buckets threads set through `&`.
ghost use Rattle.std.specs.Prelude.{◌≡◌, ◌*◌, ◌<◌, length, option_copied, option_map, slice_index_or, IsTrue, ◌↔◌, IfSome, IfNone, ◌⊎◌, ◌^◌, ◌≤◌, IfOk, IfErr, None, Some};
ghost use Rattle.std.specs.Int.{IsPowerOfTwo};
ghost use Rattle.table_cell.specs.Contents.{word_naming, shown, vacant, entry_from, Keeps, Misses};
ghost use Rattle.table_generations.specs.Buckets.{content_at};
ghost use Rattle.table_generations.specs.Looks.{Tells, IsSeen};

use crate::atomic_value::AtomicValue;
use crate::fixed::Generation;
use std::alloc::Allocator;
use table_cell::{BucketRef, Entry, Home, Homed, Low, Mark, Missed, Note, Word};

/// The result of comparing a bucket with the eight bits that a probe seeks.
#[derive(Clone, Copy)]
pub enum Look<'a, T> {
    /// The bucket was empty.
    Vacant,
    /// The bucket holds an entry with other bits.
    Other,
    /// The bucket holds an entry with these bits.
    Alike(&'a Entry<T>),
}

/// A generation with buckets fits the home of its buckets.
impl<T: AtomicValue, A: Allocator + Copy> Homed for Generation<T, A> {
    ghost fits = { λ g h. (g.home ≡ h) × IsPowerOfTwo (length g.contents) };
}

/// Compares the bits of an entry.
fn look_at_entry<T>(entry: &Entry<T>, sought: u8) -> Look<'_, T>
    ensures { Tells sought (Some entry.now) result }
{
    if entry.bits == sought {
        Look::Alike(entry)
    } else {
        Look::Other
    }
}

/// Compares a bucket with these bits. If the mark of the bucket has other bits, its block isn't read.
fn look_at_bucket<'a, T: AtomicValue, A: Allocator + Copy>(
    home: &'a Home,
    bucket: &BucketRef<'a, T, A>,
    sought: u8,
    note: &mut Note<Entry<T>>,
) -> Look<'a, T>
    requires home { bucket.now.home ≡ home.now.id }
    requires of { note.old.of ≡ bucket.now.id }
    ensures of { note.new.of ≡ note.old.of }
    ensures seen { IsSeen bucket.now.content note.old.known note.new.known
        (λ o. Tells sought o result) }
{
    match bucket.mark() {
        Mark::Unmarked => match bucket.get(home, note) {
            Some(entry) => look_at_entry(entry, sought),
            None => Look::Vacant,
        },
        Mark::Own(bits) | Mark::Named(bits) if bits == sought => Look::Alike(bucket.entry(home)),
        _ => Look::Other,
    }
}

impl<T: AtomicValue, A: Allocator + Copy> Generation<T, A> {
    /// Returns whether the generation has a bucket. If it has, their number is a power of two.
    pub fn has_buckets(&self) -> bool
        ensures some { IsTrue result ↔ (0 < length self.now.contents) }
        ensures power { IsTrue result → IsPowerOfTwo (length self.now.contents) }
    {
        self.row.len() != 0
    }

    /// Returns twice the number of buckets, or `None` if there is no bucket or the product passes `usize::MAX`.
    pub fn doubled(&self) -> Option<usize>
        ensures power { IfSome result (λ c. IsPowerOfTwo c) }
        ensures twice { IfSome result (λ c. c ≡ 2 * length self.now.contents) }
        ensures none { IfNone result ((length self.now.contents ≡ 0)
            ⊎ (2 ^ 63 ≤ length self.now.contents)) }
    {
        let capacity = self.row.len();
        if capacity == 0 {
            return None;
        }
        let twice = capacity.checked_mul(2)?;
        Some(twice)
    }

    /// Returns a note for the bucket at this index, which knows nothing yet. It will know to what the bucket is set through `&`.
    pub fn note_at(&self, index: usize) -> Note<Entry<T>>
        requires { index < length self.now.contents }
        ensures { (result.of ≡ slice_index_or self.now.ids index 0) × (result.known ≡ None) }
    {
        self.row.at(index).note()
    }

    /// Returns the entry in the bucket at this index, also if it was set through `&`; the note then knows it.
    pub fn entry_at<'a>(
        &'a self,
        home: &'a Home,
        index: usize,
        note: &mut Note<Entry<T>>,
    ) -> Option<&'a Entry<T>>
        requires home { self.now.home ≡ home.now.id }
        requires within { index < length self.now.contents }
        requires of { note.old.of ≡ slice_index_or self.now.ids index 0 }
        ensures of { note.new.of ≡ note.old.of }
        ensures seen { IsSeen (content_at self.now.contents index) note.old.known note.new.known
            (λ o. option_copied result ≡ o) }
    {
        self.row.at(index).get(home, note)
    }

    /// Compares the bucket at this index with these bits.
    pub fn look_at<'a>(
        &'a self,
        home: &'a Home,
        index: usize,
        sought: u8,
        note: &mut Note<Entry<T>>,
    ) -> Look<'a, T>
        requires home { self.now.home ≡ home.now.id }
        requires within { index < length self.now.contents }
        requires of { note.old.of ≡ slice_index_or self.now.ids index 0 }
        ensures of { note.new.of ≡ note.old.of }
        ensures seen { IsSeen (content_at self.now.contents index) note.old.known note.new.known
            (λ o. Tells sought o result) }
    {
        look_at_bucket(home, &self.row.at(index), sought, note)
    }

    /// Returns a word that names the entry in the bucket at this index, also if that was set through `&`. Reads no block.
    pub fn naming_at(&self, index: usize, note: &mut Note<Entry<T>>) -> Option<Word<Entry<T>, A>>
        requires within { index < length self.now.contents }
        requires of { note.old.of ≡ slice_index_or self.now.ids index 0 }
        ensures of { note.new.of ≡ note.old.of }
        ensures seen { IsSeen (content_at self.now.contents index) note.old.known note.new.known
            (λ o. result ≡ option_map (word_naming self.now.from self.now.home) o) }
    {
        self.row.at(index).naming_word(self.row.alloc(), note)
    }
}

impl<T: AtomicValue, A: Low + Copy> Generation<T, A> {
    /// Sets the bucket at this index by one exchange, unless it is set. Allocates the entry's block first. The note then knows
    /// the entry that was placed, or the one that came first.
    pub fn place_at<'a>(
        &'a self,
        home: &'a Home,
        index: usize,
        value: T,
        bits: u8,
        note: &mut Note<Entry<T>>,
    ) -> Result<&'a Entry<T>, Missed<'a, T>>
        requires home { self.now.home ≡ home.now.id }
        requires within { index < length self.now.contents }
        requires of { note.old.of ≡ slice_index_or self.now.ids index 0 }
        ensures of { note.new.of ≡ note.old.of }
        ensures ok { IfOk result (λ e. (content_at self.now.contents index ≡ vacant)
            × (e.now ≡ entry_from value bits)) }
        ensures first { IfOk result (λ e. (note.old.known ≡ None) × (note.new.known ≡ Some e.now)) }
        ensures missed { IfErr result (λ m. Misses (content_at self.now.contents index) value
            note.old.known note.new.known m) }
    {
        self.row
            .at(index)
            .place(home, self.row.alloc(), value, bits, note)
    }
}
