//! A row of buckets, with a token of its first history.
ghost use Rattle.std.specs.Prelude.{◌≡◌, ◌≤◌, ◌<◌, ◌^◌, ℕ, [], ◌∷◌, None, length, vec_capacity};
ghost use Rattle.std.specs.Int.{IsPowerOfTwo};
ghost use Rattle.table_slab.specs.Shelved.{slab_of};
ghost use Rattle.table_numbered.specs.History.{event, opening};
ghost use Rattle.table_numbered.specs.Generations.{IsWord, AreWords, IsKnown};
ghost use Rattle.table_numbered.specs.Carrying.{due_after};

use crate::rule::{Bucket, SetRule, Token};
use crate::trade::{Begins, start};
use logbook::{Pens, Word};
use std::alloc::Allocator;
use std::marker::{Model, PhantomData};
use table_cell::Low;
use table_slab::Slab;
use table_terms::law::SetLaw;

/// A row of buckets. Entries may be due in it.
#[derive(Drop)]
pub(crate) struct Row<V, L: SetLaw<V>, A: Allocator> {
    pub(crate) words: Vec<Bucket<V, L>, A>,
    pub(crate) start: Token<V, L>,
}

impl<V, L: SetLaw<V>, A: Allocator> Model for Row<V, L, A> {
    ghost use Rattle.table_numbered.specs.Generations.{GenerationView, generation_view, IsLaid};

    ghost Value = { GenerationView V };

    ghost view = { λ r. generation_view r.start.book r.words.items r.start.names r.start.log };

    ghost invariant = { λ r. IsLaid L.same L.hash_of r.start.book r.start.names r.start.log
        r.words.items };
}

/// The names of a slab. Nothing is due.
pub(crate) struct Empty;

impl<V, A: Low + Copy> Begins<Slab<V, A>, V> for Empty {
    ghost use Rattle.std.specs.Prelude.{[]};
    ghost use Rattle.table_slab.specs.Shelved.{names_of};

    ghost ids = { λ slab. names_of slab };

    ghost due = { λ slab. [] };
}

/// The names of a slab, and the entries of a history, which are due.
pub(crate) struct After<L> {
    of: PhantomData<L>,
}

impl<V, L: SetLaw<V>> Begins<Token<V, L>, V> for After<L> {
    ghost use Rattle.table_numbered.specs.Carrying.{due_after};

    ghost ids = { λ seen. seen.names };

    ghost due = { λ seen. due_after seen.log };
}

/// Makes the words of a row of `buckets` buckets, in a vector that has room for them.
fn words_by<V, L: SetLaw<V>, A: Allocator>(
    room: Vec<Bucket<V, L>, A>,
    pens: Pens,
    buckets: usize,
) -> Vec<Bucket<V, L>, A>
    requires none { room.items ≡ [] }
    requires room { buckets ≤ vec_capacity room }
    requires first { pens.next ≡ 0 }
    requires left { pens.left ≡ buckets }
    ensures words { AreWords pens.book result.items }
    ensures long { length result.items ≡ buckets }
{
    let (mut words, mut pens) = (room, pens);
    for _made in 0..buckets {
        words.push_reserved(Word::tracked(0, &mut pens.take()));
    }
    words
}

impl<V, L: SetLaw<V>, A: Low + Copy> Row<V, L, A> {
    /// Makes an empty row of this many buckets, in which nothing is due.
    pub(crate) fn empty(room: Vec<Bucket<V, L>, A>, slab: &Slab<V, A>, buckets: usize) -> Self
        requires none { room.items ≡ [] }
        requires room { buckets ≤ vec_capacity room }
        requires power { IsPowerOfTwo buckets }
        requires few { buckets ≤ 2 ^ 32 }
        ensures size { result.of.size ≡ buckets }
        ensures slab { result.of.slab ≡ slab.now }
        ensures start { result.start ≡ event buckets None ∷ [] }
    {
        let begun = start::<Slab<V, A>, Empty, V, L>(slab, buckets as u64);
        let (start, pens) = Token::open_row::<(), SetRule<V, L>>(&(), begun, buckets);
        let words = words_by(room, pens, buckets);
        Row { words, start }
    }

    /// Makes an empty row of this many buckets, in which the entries that are known are due.
    pub(crate) fn after(room: Vec<Bucket<V, L>, A>, seen: &Token<V, L>, buckets: usize) -> Self
        requires none { room.items ≡ [] }
        requires room { buckets ≤ vec_capacity room }
        requires power { IsPowerOfTwo buckets }
        requires few { buckets ≤ 2 ^ 32 }
        ensures size { result.of.size ≡ buckets }
        ensures slab { result.of.slab ≡ slab_of seen.now.names }
        ensures start { result.start ≡ opening buckets (due_after seen.now.log) ∷ [] }
    {
        let begun = start::<Token<V, L>, After<L>, V, L>(seen, buckets as u64);
        let (start, pens) = Token::open_row::<Token<V, L>, SetRule<V, L>>(seen, begun, buckets);
        let words = words_by(room, pens, buckets);
        Row { words, start }
    }

    /// Returns a token that knows the history with which the row was made.
    pub(crate) fn begin(&self) -> Token<V, L>
        ensures known { IsKnown L.same L.hash_of self.now.of result.book result.names result.log }
        ensures log { result.log ≡ self.now.start }
    {
        self.start.again()
    }

    /// Returns how many buckets there are.
    pub(crate) fn buckets(&self) -> usize
        ensures size { result ≡ self.now.of.size }
        ensures power { IsPowerOfTwo result }
        ensures few { result ≤ 2 ^ 32 }
    {
        self.words.len()
    }

    /// Returns the word of the bucket.
    pub(crate) fn word(&self, index: usize) -> &Bucket<V, L>
        requires inside { index < self.now.of.size }
        ensures word { IsWord self.now.of.book result.now }
        ensures key { result.now.key ≡ index }
    {
        &self.words[index]
    }
}
