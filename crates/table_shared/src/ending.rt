//! The end of a shared table: its values are moved out or dropped.
ghost use Rattle.std.specs.Prelude.{◌≡◌, ◌+◌, ◌<◌, All, IfSome, length, vec_capacity, slice_index_or, map};
ghost use Rattle.std.specs.Box.{box_allocator};
ghost use Rattle.table_shared.specs.Lineages.{IsOpen, AreRoomy};
ghost use Rattle.table_generations.specs.Values.{all_owned};
ghost use Rattle.table_shared.specs.Settled.{IsSettled, SettlesAt};

use crate::lineage::later::Later;
use std::alloc::Allocator;
use std::mem;
use table_cell::{Closed, Home, Word};
use table_generations::atomic_value::AtomicValue;
use table_generations::fixed::Generation;
use table_generations::values::{IntoIter, Rest};

/// Moves what the generation at this index owns to the other home.
fn rehome_at<T: AtomicValue, A: Allocator + Copy>(
    generations: &mut Vec<Generation<T, A>, A>,
    index: usize,
    closed: &Closed,
    home: &Home,
    alloc: A,
)
    requires within { index < length generations.old.items }
    requires home { (d : _) → (slice_index_or generations.old.items index d).home ≡ closed.now.id }
    ensures { SettlesAt home.now.id index generations.old.items generations.new.items }
{
    let generation = &mut generations[index];
    let old = mem::replace(generation, Generation::none(alloc, home));
    *generation = old.rehomed(closed, home);
}

/// Moves what each of the generations owns to the other home.
pub(crate) fn rehome_all<T: AtomicValue, A: Allocator + Copy>(
    generations: &mut Vec<Generation<T, A>, A>,
    closed: &Closed,
    home: &Home,
    alloc: A,
)
    requires { All (λ g. g.home ≡ closed.now.id) generations.old.items }
    ensures { All (IsSettled home.now.id) generations.new.items }
{
    for index in 0..generations.len() {
        rehome_at(generations, index, closed, home, alloc);
    }
}

/// Moves what the generation in this block owns to the other home, and returns the block.
fn rehome_block<T: AtomicValue, A: Allocator + Copy>(
    block: Box<Generation<T, A>, A>,
    closed: &Closed,
    home: &Home,
    alloc: A,
) -> Box<Generation<T, A>, A>
    requires { block.value.home ≡ closed.now.id }
    ensures { IsSettled home.now.id result.value }
{
    let mut block = block;
    let old = Box::replace(&mut block, Generation::none(alloc, home));
    drop(Box::replace(&mut block, old.rehomed(closed, home)));
    block
}

/// Takes the generation that a word holds, and moves what it owns to the other home. Returns `None` if the word is not set.
fn take_later<T: AtomicValue, A: Allocator + Copy>(
    word: Word<Generation<T, A>, A>,
    closed: &Closed,
    home: &Home,
    alloc: A,
) -> Option<Box<Generation<T, A>, A>>
    requires { IsOpen closed.now.id alloc word }
    ensures { IfSome result (λ b. IsSettled home.now.id b.value) }
{
    let note = word.note();
    let block = word.into_block_if_set(closed, note)?.into_box(alloc);
    Some(rehome_block(block, closed, home, alloc))
}

/// Takes the later generations that were made, and moves what they own to the other home. Does not allocate.
fn rehome_later<T: AtomicValue, A: Allocator + Copy>(
    later: Later<T, A>,
    closed: &Closed,
    home: &Home,
) -> Vec<Box<Generation<T, A>, A>, A>
    requires { AreRoomy closed.now.id later.alloc later.words.items later.room.items
        (vec_capacity later.room) }
    ensures { All (λ b. IsSettled home.now.id b.value) result.items }
{
    let Later {
        alloc,
        words,
        mut room,
    } = later;
    for word in words {
        if let Some(block) = take_later(word, closed, home, alloc) {
            room.push_reserved(block);
        }
    }
    room
}

/// Takes the later generations that were made, if the table has words for them, and moves what they own to the other home. Does
/// not allocate.
pub(crate) fn rehome_shown<T: AtomicValue, A: Allocator + Copy>(
    later: Word<Later<T, A>, A>,
    closed: &Closed,
    home: &Home,
    alloc: A,
) -> Vec<Box<Generation<T, A>, A>, A>
    requires { IsOpen closed.now.id alloc later }
    ensures { All (λ b. IsSettled home.now.id b.value) result.items }
{
    let note = later.note();
    match later.into_block_if_set(closed, note) {
        Some(block) => rehome_later(Box::into_inner(block.into_box(alloc)), closed, home),
        None => Vec::new(alloc),
    }
}

/// Drops the values owned by the generation that a word holds, if it holds one.
fn drop_shown<T: AtomicValue, A: Allocator + Copy>(
    word: Word<Generation<T, A>, A>,
    closed: &Closed,
    alloc: A,
)
    requires { IsOpen closed.now.id alloc word }
{
    let note = word.note();
    if let Some(block) = word.into_block_if_set(closed, note) {
        Box::into_inner(block.into_box(alloc)).drop_values(closed);
    }
}

/// Drops the values that the later generations own.
fn drop_words<T: AtomicValue, A: Allocator + Copy>(later: Later<T, A>, closed: &Closed)
    requires { AreRoomy closed.now.id later.alloc later.words.items later.room.items
        (vec_capacity later.room) }
{
    let Later {
        alloc,
        words,
        room: _,
    } = later;
    for word in words {
        drop_shown(word, closed, alloc);
    }
}

/// Drops the values that the later generations own, if the table has words for them.
pub(crate) fn drop_later<T: AtomicValue, A: Allocator + Copy>(
    later: Word<Later<T, A>, A>,
    closed: &Closed,
    alloc: A,
)
    requires { IsOpen closed.now.id alloc later }
{
    let note = later.note();
    if let Some(block) = later.into_block_if_set(closed, note) {
        drop_words(Box::into_inner(block.into_box(alloc)), closed);
    }
}

/// Drops the values that these generations own.
pub(crate) fn drop_earlier<T: AtomicValue, A: Allocator + Copy>(
    earlier: Vec<Generation<T, A>, A>,
    closed: &Closed,
)
    requires { All (λ g. g.home ≡ closed.now.id) earlier.items }
{
    for generation in earlier {
        generation.drop_values(closed);
    }
}

/// Returns `others` plus the number of values that these generations own, or `None` if the sum passes `usize::MAX`.
fn count_earlier<T: AtomicValue, A: Allocator + Copy>(
    generations: &[Generation<T, A>],
    others: usize,
) -> Option<usize>
    requires { (home : _) × All (IsSettled home) generations.now }
    ensures { IfSome result (λ n. n ≡ others + length (all_owned generations.now)) }
{
    let mut count = others;
    for index in 0..generations.len() {
        count = count.checked_add(generations[index].size())?;
    }
    Some(count)
}

/// Returns `others` plus the number of values that the generations in these blocks own, or `None` if the sum passes `usize::MAX`.
fn count_later<T: AtomicValue, A: Allocator + Copy>(
    blocks: &[Box<Generation<T, A>, A>],
    others: usize,
) -> Option<usize>
    requires { (home : _) × All (λ b. IsSettled home b.value) blocks.now }
    ensures { IfSome result (λ n. n ≡ others + length (all_owned (map (λ b. b.value) blocks.now))) }
{
    let mut count = others;
    for index in 0..blocks.len() {
        count = count.checked_add(blocks[index].size())?;
    }
    Some(count)
}

/// Returns an iterator over the values that these generations own. If there are more than `usize::MAX`, which no memory holds, it
/// drops the values of all generations but the current one.
pub(crate) fn hand_out<T: AtomicValue, A: Allocator + Copy>(
    closed: Closed,
    current: Generation<T, A>,
    earlier: Vec<Generation<T, A>, A>,
    later: Vec<Box<Generation<T, A>, A>, A>,
    alloc: A,
) -> IntoIter<T, A>
    requires current { IsSettled closed.id current }
    requires earlier { All (IsSettled closed.id) earlier.items }
    requires later { All (λ b. IsSettled closed.id b.value) later.items }
{
    let size = current.size();
    let known = count_earlier(earlier.as_slice(), size);
    if let Some(known) = known
        && let Some(left) = count_later(later.as_slice(), known)
    {
        return IntoIter::of_generations(closed, current, earlier, later, left);
    }
    Rest::new(earlier, later).drop_rest(&closed);
    IntoIter::of_generations(closed, current, Vec::new(alloc), Vec::new(alloc), size)
}
