//! Publishing a block through a word that isn't set.
//!
//! A slot is used up by the block that it publishes, and only `Slot::publish` makes a `Published`. So one slot publishes one block.
//! A `Published` says through which word.
ghost use Rattle.std.specs.Prelude.{◌≡◌, IsSome, Some, MatchOption};
ghost use Rattle.std.specs.Box.{box_allocator};
ghost use Rattle.table_shared.specs.Lineages.{IsOpen};

use std::alloc::Allocator;
use std::marker::Model;
use table_cell::{Home, Homed, Latest, LooseBlock, Low, Note, Word};

/// A word through which one block will be published, and the allocator of that block.
#[derive(Drop)]
pub(crate) struct Slot<'a, X: Homed, A: Allocator + Copy> {
    alloc: A,
    word: &'a Word<X, A>,
}

impl<'a, X: Homed, A: Allocator + Copy> Model for Slot<'a, X, A> {
    ghost use Rattle.std.specs.Prelude.{◌≡◌};
    ghost use Rattle.table_cell.specs.Words.{WordView};

    ghost Value = { WordView A X };

    ghost view = { λ s. s.word.now };

    ghost invariant = { λ s. s.alloc ≡ s.word.now.from };
}

/// The result of publishing a block.
#[derive(Drop)]
pub(crate) struct Published<X: Homed + Drop, A: Allocator + Copy> {
    /// A note that a block was published since the table was shared, for contracts only.
    since: Note<()>,
    /// A note of what the slot's word holds, for contracts only.
    seen: Note<X>,
    /// The block, if the word was set before.
    back: Option<Box<X, A>>,
}

impl<X: Homed + Drop, A: Allocator + Copy> Model for Published<X, A> {
    ghost use Rattle.std.specs.Option.{option_map};
    ghost use Rattle.std.specs.Box.{box_value};
    ghost use Rattle.table_shared.specs.Publishing.{PublishedView, published_of};

    ghost Value = { PublishedView X };

    ghost view = { λ p. published_of p.since.of p.since.known p.seen.of p.seen.known (option_map box_value p.back) };
}

/// Publishes a block through a word. Returns a note that knows what the word holds: this block, or the one that was there before,
/// and then this block is returned.
pub(crate) fn show_block<X: Homed + Drop, A: Low + Copy>(
    word: &Word<X, A>,
    home: &Home,
    alloc: A,
    block: Box<X, A>,
) -> (Note<X>, Option<Box<X, A>>)
    requires open { IsOpen home.now.id alloc word.now }
    requires from { box_allocator block ≡ alloc }
    requires fits { X.fits block.value home.now.id }
    ensures of { result.0.of ≡ word.now.id }
    ensures seen { IsSome result.0.known }
    ensures shows { MatchOption result.1 (result.0.known ≡ Some block.value) (λ b. b.value ≡ block.value) }
{
    let mut note = word.note();
    match word.offer(home, LooseBlock::of(block), &mut note) {
        (_, None) => (note, None),
        (_, Some(back)) => (note, Some(back.into_box(alloc))),
    }
}

impl<'a, X: Homed, A: Allocator + Copy> Slot<'a, X, A> {
    /// Makes a slot of a word. The word must not be set.
    pub(crate) fn of(alloc: A, word: &'a Word<X, A>) -> Self
        requires { alloc ≡ word.now.from }
        ensures { result ≡ word.now }
    {
        Slot { alloc, word }
    }

    /// Returns the allocator of the block that will be published.
    pub(crate) fn alloc(&self) -> A
        ensures { result ≡ self.now.from }
    {
        self.alloc
    }
}

impl<'a, X: Homed + Drop, A: Low + Copy> Slot<'a, X, A> {
    /// Publishes the block: it is the last one from now on. If the word was set before, what it holds is the last one, and the
    /// block is given back.
    pub(crate) fn publish(
        self,
        home: &Home,
        block: Box<X, A>,
        latest: &Latest<X, A>,
    ) -> Published<X, A>
        requires open { IsOpen home.now.id self.from self }
        requires from { box_allocator block ≡ self.from }
        requires fits { X.fits block.value home.now.id }
        requires latest { latest.now.home ≡ home.now.id }
        ensures since { (result.latest ≡ latest.now.id) × IsSome result.since }
        ensures word { result.word ≡ self.entry.id }
        ensures seen { IsSome result.holds }
        ensures shows { MatchOption result.back (result.holds ≡ Some block.value) (λ b. b ≡ block.value) }
    {
        let Slot { alloc, word } = self;
        let (seen, back) = show_block(word, home, alloc, block);
        let since = latest.show(word, &seen);
        Published { since, seen, back }
    }
}
