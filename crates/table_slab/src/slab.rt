//! Slots with numbers, in chunks that are made when they are first needed.
ghost use Rattle.std.specs.Prelude.{◌≡◌, ℕ, ◌<◌, ◌+◌, length, IfOk, IfSome, None, Some, IsSome};
ghost use Rattle.table_slab.specs.Endings.{IsLeft};
ghost use Rattle.table_slab.specs.Held.{IsRightTo, StandsAt};
ghost use Rattle.table_slab.specs.Slabs.{id_at, AreCells};

use crate::chunk::Chunk;
use crate::ending::{Cell, Ending, all_shared, free_chunks};
use crate::numbering::{chunk_len, where_is};
use crate::rights::{Room, Written};
use crate::site::{Site, hear, tell};
use std::alloc::{AllocError, Allocator};
use std::marker::Model;
use table_cell::{Home, LooseBlock, Low, Word};

/// Slots with numbers from 0 on, in chunks that double: the first has `2 ^ bits` slots. A chunk never moves. It is made when
/// the first of its slots is needed.
pub struct Slab<T, A: Low + Copy> {
    pub(crate) bits: u32,
    pub(crate) alloc: A,
    pub(crate) home: Home,
    pub(crate) cells: Vec<Word<Chunk<T, A>, A>, A>,
    /// Empty, with room for the cells of the `Ending` that the slab becomes.
    pub(crate) room: Vec<Cell<T, A>, A>,
}

impl<T, A: Low + Copy> Model for Slab<T, A> {
    ghost use Rattle.std.specs.Prelude.{vec_capacity};
    ghost use Rattle.table_slab.specs.Slabs.{SlabView, slab_view, CanEnd};

    ghost Value = { SlabView };

    ghost view = { λ s. slab_view s.bits s.cells.items };

    ghost invariant = { λ s. CanEnd s.alloc s.home.id s.bits s.cells.items s.room.items (vec_capacity s.room) };
}

/// The right to a number of a slab, with the value that lies there, if one does. It has no bytes.
#[derive(Drop)]
pub struct Right<T, A: Allocator> {
    pub site: Site<Chunk<T, A>>,
    pub room: Room<T>,
}

/// What shows that a number of a slab holds a value for good. It has no bytes, and it can be copied.
#[derive(Drop)]
pub struct Standing<T, A: Allocator> {
    pub site: Site<Chunk<T, A>>,
    pub written: Written<T>,
}

impl<T, A: Allocator> Right<T, A> {
    /// Gives the right up, so that from here on everyone may read the value. Nothing happens in memory.
    pub fn publish(self) -> Standing<T, A>
        requires full { IsSome self.room.value }
        ensures site { result.site ≡ self.site }
        ensures of { result.written.of ≡ self.room.of }
        ensures value { self.room.value ≡ Some result.written.value }
    {
        let Right { site, room } = self;
        Standing {
            site,
            written: room.publish(),
        }
    }
}

impl<T, A: Allocator> Standing<T, A> {
    /// Returns a copy.
    pub fn again(&self) -> Standing<T, A>
        ensures site { (result.site.cell ≡ self.now.site.cell) × (result.site.value ≡ self.now.site.value) }
        ensures of { result.written.of ≡ self.now.written.of }
        ensures value { result.written.value ≡ self.now.written.value }
    {
        Standing {
            site: self.site.again(),
            written: self.written.again(),
        }
    }
}

impl<T, A: Low + Copy> Slab<T, A> {
    /// Returns a slab whose first chunk has `2 ^ bits` slots. It asks for memory for its cells and for what its end needs, and
    /// makes no chunk. A refusal leaves nothing.
    pub fn new(alloc: A, bits: u32) -> Result<Self, AllocError>
        requires { bits < 32 }
        ensures { IfOk result (λ s. s.bits ≡ bits) }
    {
        let room = Vec::with_capacity(alloc, (32 - bits) as usize)?;
        let home = Home::new();
        let Ok(cells) = vacant(alloc, &home, (32 - bits) as usize) else {
            let _ended = home.close();
            return Err(AllocError);
        };
        Ok(Slab {
            bits,
            alloc,
            home,
            cells,
            room,
        })
    }

    /// Returns the chunk at this place, which is known to be there.
    pub(crate) fn chunk(&self, place: u32, site: &Site<Chunk<T, A>>) -> &Chunk<T, A>
        requires inside { place < length self.now.cells }
        requires cell { site.now.cell ≡ id_at self.now.cells place }
        ensures { result.now ≡ site.now.value }
    {
        let cell = &self.cells[place as usize];
        let mut note = cell.note();
        hear(&mut note, site.again());
        match cell.name_if_set(&mut note) {
            Some(name) => name.get(&self.home),
            None => unreachable!(),
        }
    }

    /// Returns the number of chunks that there may be.
    pub(crate) fn places(&self) -> u32
        ensures places { result ≡ length self.now.cells }
        ensures few { result + self.now.bits ≡ 32 }
    {
        self.cells.len() as u32
    }

    /// Returns the binary logarithm of the number of slots of the first chunk.
    pub fn bits(&self) -> u32
        ensures { result ≡ self.now.bits }
    {
        self.bits
    }

    /// Returns what shows that the chunk at this place is there, if it is.
    fn site_if_made(&self, place: u32) -> Option<Site<Chunk<T, A>>>
        requires inside { place < length self.now.cells }
        ensures { IfSome result (λ s. s.cell ≡ id_at self.now.cells place) }
    {
        let cell = &self.cells[place as usize];
        let mut note = cell.note();
        match cell.name_if_set(&mut note) {
            Some(_) => Some(tell(&mut note)),
            None => None,
        }
    }

    /// Makes the chunk at this place, unless another thread made it before.
    fn make(&self, place: u32) -> Result<Site<Chunk<T, A>>, AllocError>
        requires inside { place < length self.now.cells }
        requires few { self.now.bits + place < 32 }
        ensures { IfOk result (λ s. s.cell ≡ id_at self.now.cells place) }
    {
        let chunk = Chunk::new(self.alloc, chunk_len(self.bits, place) as usize)?;
        let block = match Box::new(self.alloc, chunk) {
            Ok(block) => LooseBlock::of(block),
            Err(_) => return Err(AllocError),
        };
        let cell = &self.cells[place as usize];
        let mut note = cell.note();
        let (_, back) = cell.offer(&self.home, block, &mut note);
        if let Some(second) = back {
            drop(second.into_box(self.alloc));
        }
        Ok(tell(&mut note))
    }

    /// Returns what shows that the chunk at this place is there. It is made if it isn't.
    pub(crate) fn made(&self, place: u32) -> Result<Site<Chunk<T, A>>, AllocError>
        requires inside { place < length self.now.cells }
        requires few { self.now.bits + place < 32 }
        ensures { IfOk result (λ s. s.cell ≡ id_at self.now.cells place) }
    {
        match self.site_if_made(place) {
            Some(site) => Ok(site),
            None => self.make(place),
        }
    }

    /// Writes a value into the slot of this number.
    pub fn put(&self, number: u64, right: Right<T, A>, value: T) -> Right<T, A>
        requires number { IsRightTo self.now number right }
        requires empty { right.room.value ≡ None }
        ensures site { result.site ≡ right.site }
        ensures of { result.room.of ≡ right.room.of }
        ensures value { result.room.value ≡ Some value }
    {
        let Right { site, room } = right;
        let (place, offset) = where_is(self.bits, number);
        let room = self
            .chunk(place, &site)
            .slots()
            .put(offset as usize, room, value);
        Right { site, room }
    }

    /// Takes the value back out of the slot of this number.
    pub fn take(&self, number: u64, right: Right<T, A>) -> (T, Right<T, A>)
        requires number { IsRightTo self.now number right }
        requires full { IsSome right.room.value }
        ensures value { right.room.value ≡ Some result.0 }
        ensures site { result.1.site ≡ right.site }
        ensures of { result.1.room.of ≡ right.room.of }
        ensures empty { result.1.room.value ≡ None }
    {
        let Right { site, room } = right;
        let (place, offset) = where_is(self.bits, number);
        let (value, room) = self.chunk(place, &site).slots().take(offset as usize, room);
        (value, Right { site, room })
    }

    /// Shows the value that this number holds for good.
    pub fn get(&self, number: u64, standing: &Standing<T, A>) -> &T
        requires { StandsAt self.now number standing.now }
        ensures { result.now ≡ standing.now.written.value }
    {
        let (place, offset) = where_is(self.bits, number);
        self.chunk(place, &standing.site)
            .slots()
            .get(offset as usize, &standing.written)
    }
}

impl<T, A: Low + Copy> Slab<T, A> {
    /// Ends the slab. It asks for no memory, and always succeeds.
    pub fn end(self) -> Ending<T, A>
        ensures slab { result.slab ≡ self }
        ensures left { (number : ℕ) → IsLeft result number }
    {
        let Slab {
            bits,
            alloc,
            home,
            cells,
            room,
        } = self;
        Ending {
            bits,
            alloc,
            closed: home.close(),
            cells: all_shared(cells, room),
        }
    }
}

impl<T, A: Low + Copy> Drop for Slab<T, A> {
    /// Frees the memory. Values that are still in slots are forgotten, not dropped: `end` leads to them.
    fn drop(self) {
        let Slab {
            bits: _,
            alloc,
            home,
            cells,
            room: _,
        } = self;
        free_chunks(cells, &home.close(), alloc);
    }
}

/// Returns `count` cells without a chunk. A refused request leaves nothing.
fn vacant<T, A: Low + Copy>(
    alloc: A,
    home: &Home,
    count: usize,
) -> Result<Vec<Word<Chunk<T, A>, A>, A>, AllocError>
    ensures count { IfOk result (λ ws. length ws.items ≡ count) }
    ensures cells { IfOk result (λ ws. AreCells alloc home.now.id ws.items) }
{
    let mut cells = Vec::with_capacity(alloc, count)?;
    for _made in 0..count {
        cells.push_reserved(Word::new(&alloc, home));
    }
    Ok(cells)
}
