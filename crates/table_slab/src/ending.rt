//! The end of a slab: its values are taken out, and its memory is given back.
ghost use Rattle.std.specs.Prelude.{◌≡◌, ◌≢◌, ℕ, ◌+◌, ◌≤◌, [], length, map, All, vec_capacity};
ghost use Rattle.table_slab.specs.Endings.{IsLeft, IsOpen, Opens, name_of};
ghost use Rattle.table_slab.specs.Held.{StandsAt};
ghost use Rattle.table_slab.specs.Slabs.{IsCell, AreCells};
ghost use Rattle.table_slab.specs.declared.ending.Cell.TheVariants.{Shared};

use crate::chunk::Chunk;
use crate::laws::same_site;
use crate::numbering::where_is;
use crate::site::{Site, hear};
use crate::slab::Standing;
use crate::slots::Slots;
use std::alloc::Allocator;
use std::marker::Model;
use std::mem::replace;
use table_cell::{Closed, Low, Word};

/// The slots of a chunk that ended, with what is known of the cell that held it.
#[derive(Drop)]
pub(crate) struct Owned<T, A: Low + Copy> {
    slots: Slots<T, A>,
    site: Site<Chunk<T, A>>,
}

/// A cell of a slab that ends.
#[derive(Drop)]
pub(crate) enum Cell<T, A: Low + Copy> {
    /// The cell, as the slab left it.
    Shared(Word<Chunk<T, A>, A>),
    /// The slots of its chunk.
    Own(Owned<T, A>),
    /// Nothing, while a value is taken out.
    Gone,
}

/// A slab that ends. Its values can be taken out, each once, by their numbers.
pub struct Ending<T, A: Low + Copy> {
    pub(crate) bits: u32,
    pub(crate) alloc: A,
    pub(crate) closed: Closed,
    pub(crate) cells: Vec<Cell<T, A>, A>,
}

impl<T, A: Low + Copy> Model for Ending<T, A> {
    ghost use Rattle.table_slab.specs.Endings.{EndView, end_view, IsEnding};

    ghost Value = { EndView };

    ghost view = { λ e. end_view e.bits e.cells.items };

    ghost invariant = { λ e. IsEnding e.alloc e.closed.id e.bits e.cells.items };
}

/// Returns the cells, as a slab leaves them.
pub(crate) fn all_shared<T, A: Low + Copy>(
    cells: Vec<Word<Chunk<T, A>, A>, A>,
    room: Vec<Cell<T, A>, A>,
) -> Vec<Cell<T, A>, A>
    requires empty { room.items ≡ [] }
    requires room { length cells.items ≤ vec_capacity room }
    ensures { result.items ≡ map Shared cells.items }
{
    let mut made = room;
    for cell in cells {
        made.push_reserved(Cell::Shared(cell));
    }
    made
}

impl<T, A: Low + Copy> Ending<T, A> {
    /// Moves the value of this number out of the slab. Call it once for each number.
    pub fn take_out(&mut self, number: u64, standing: &Standing<T, A>) -> T
        requires number { StandsAt self.old.slab number standing.now }
        requires left { IsLeft self.old number }
        ensures value { result ≡ standing.now.written.value }
        ensures slab { self.new.slab ≡ self.old.slab }
        ensures others { (other : ℕ) → other ≢ number → IsLeft self.old other → IsLeft self.new other }
    {
        let (place, offset) = where_is(self.bits, number);
        let spot = &mut self.cells[place as usize];
        let cell = replace(spot, Cell::Gone);
        let Owned { mut slots, site } = opened(cell, &self.closed, self.alloc, &standing.site);
        let (value, _) = slots.take_out(offset as usize, &standing.written);
        *spot = Cell::Own(Owned { slots, site });
        value
    }
}

/// Returns the slots of the chunk that a cell holds.
fn opened<T, A: Low + Copy>(
    cell: Cell<T, A>,
    closed: &Closed,
    alloc: A,
    site: &Site<Chunk<T, A>>,
) -> Owned<T, A>
    requires open { IsOpen alloc closed.now.id cell }
    requires name { name_of cell ≡ site.now.cell }
    ensures site { (result.site.cell ≡ site.now.cell) × (result.site.value ≡ site.now.value) }
    ensures slots { Opens cell result.site.value result.slots }
{
    match cell {
        Cell::Shared(word) => Owned {
            slots: take_known(word, closed, alloc, site),
            site: site.again(),
        },
        Cell::Own(owned) => {
            same_site(&owned.site, site);
            owned
        }
        Cell::Gone => unreachable!(),
    }
}

/// Takes the slots of a chunk out of its cell, which is known to hold it.
fn take_known<T, A: Low + Copy>(
    cell: Word<Chunk<T, A>, A>,
    closed: &Closed,
    alloc: A,
    site: &Site<Chunk<T, A>>,
) -> Slots<T, A>
    requires open { IsCell alloc closed.now.id cell }
    requires name { cell.id ≡ site.now.cell }
    ensures { result ≡ site.now.value }
{
    let mut note = cell.note();
    hear(&mut note, site.again());
    match cell.into_block_if_set(closed, note) {
        Some(block) => Box::into_inner(block.into_box(alloc)).into_slots(),
        None => unreachable!(),
    }
}

/// Takes the chunk out of a cell, if one was made.
fn take_chunk<T, A: Low + Copy>(
    cell: Word<Chunk<T, A>, A>,
    closed: &Closed,
    alloc: A,
) -> Option<Box<Chunk<T, A>, A>>
    requires { IsCell alloc closed.now.id cell }
{
    let note = cell.note();
    let block = cell.into_block_if_set(closed, note)?;
    Some(block.into_box(alloc))
}

/// Gives back the memory of all chunks. No value is dropped.
pub(crate) fn free_chunks<T, A: Low + Copy>(
    cells: Vec<Word<Chunk<T, A>, A>, A>,
    closed: &Closed,
    alloc: A,
)
    requires { AreCells alloc closed.now.id cells.items }
{
    for cell in cells {
        drop(take_chunk(cell, closed, alloc));
    }
}

/// Gives back the memory of the chunk that a cell holds.
fn free_cell<T, A: Low + Copy>(cell: Cell<T, A>, closed: &Closed, alloc: A)
    requires { IsOpen alloc closed.now.id cell }
{
    if let Cell::Shared(word) = cell {
        drop(take_chunk(word, closed, alloc));
    }
}

/// Gives back the memory of the chunks that are left.
fn free_cells<T, A: Low + Copy>(cells: Vec<Cell<T, A>, A>, closed: &Closed, alloc: A)
    requires { All (IsOpen alloc closed.now.id) cells.items }
{
    for cell in cells {
        free_cell(cell, closed, alloc);
    }
}

impl<T, A: Low + Copy> Drop for Ending<T, A> {
    /// Gives back the memory. It drops no value that wasn't taken out.
    fn drop(self) {
        let Ending {
            bits: _,
            alloc,
            closed,
            cells,
        } = self;
        free_cells(cells, &closed, alloc);
    }
}
