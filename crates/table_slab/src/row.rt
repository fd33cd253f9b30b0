//! Memory for values, one after the other, and the row of slots that lies in it.
ghost use Rattle.std.specs.Prelude.{◌≡◌, ◌≢◌, ℕ, ◌<◌, List, length, Option, Some, None, get_or, slice_set, IfOk, IsSome, ⊤};
ghost use Rattle.std.specs.Coded.{coded_list, coded_ℕ};
ghost use Rattle.std.specs.Vec.Ownership.{FitsInBlock};
ghost use base.Fml.{ftrue};
ghost use denote.RawPtr.{Ptr};
ghost use Rattle.table_slab.specs.Kept.{row_owns, row_shares, deed_owns};

use crate::rights::{Room, Rooms, Written};
use std::alloc::{AllocError, Allocator};
use std::marker::{Model, PhantomData, Send, Sync};
use std::mem::{align_of, size_of};

/// Where the first slot lies. It owns nothing.
pub struct Start<T> {
    at: *mut T,
}

impl<T> Clone for Start<T> {
    ghost is_clone = { λ x y. y ≡ x };

    ghost is_infallible = { λ _. ⊤ };

    fn clone(&self) -> Result<Start<T>, AllocError> {
        Ok(*self)
    }
}

impl<T> Copy for Start<T> {}

/// The slots `names` from `at` on. It takes no space: who owns it knows where they begin.
pub struct Row<T> {
    marker: PhantomData<*const T>,
    ghost at: { Ptr },
    ghost names: { List ℕ } by { coded_list coded_ℕ },
}

impl<T> Model for Row<T> {
    ghost also_owns = { λ r. row_owns T.row r.at r.names };

    ghost also_shares = { λ r _ κ. row_shares T.row r.at r.names κ };
}

/// The right to give the block of `count` slots at `at` back to `alloc`. It takes no space.
pub struct Deed<T, A: Allocator> {
    marker: PhantomData<*const (T, A)>,
    ghost at: { Ptr },
    ghost count: { ℕ },
    ghost alloc: { A },
}

impl<T, A: Allocator> Model for Deed<T, A> {
    ghost also_owns = { λ d. deed_owns T.row (A.dealloc_token d.alloc) d.at d.count };

    ghost also_shares = { λ _ _ _. ftrue };
}

/// Asks for memory for `count` values: an empty slot for each, with the right to it.
pub(crate) fn allocate<T, A: Allocator>(
    alloc: &A,
    count: usize,
) -> Result<(Start<T>, Row<T>, Rooms<T>, Deed<T, A>), AllocError>
    requires { FitsInBlock T.row count }
    ensures { IfOk result (λ r. (r.1.at ≡ r.0.at) × (length r.1.names ≡ count) × (r.2.names ≡ r.1.names) × (r.3.at ≡ r.0.at) × (r.3.count ≡ count) × (r.3.alloc ≡ alloc.now)) }
{
    match alloc.allocate(count * size_of::<T>(), align_of::<T>()) {
        Ok(block) => Ok((
            Start {
                at: block as *mut T,
            },
            Row {
                marker: PhantomData,
            },
            Rooms {
                marker: PhantomData,
            },
            Deed {
                marker: PhantomData,
            },
        )),
        Err(refused) => Err(refused),
    }
}

/// Gives the memory back. What lies in the slots is forgotten.
pub(crate) fn free<T, A: Allocator>(
    alloc: &A,
    start: Start<T>,
    count: usize,
    row: Row<T>,
    deed: Deed<T, A>,
)
    requires { (row.at ≡ start.at) × (length row.names ≡ count) × (deed.at ≡ start.at) × (deed.count ≡ count) × (deed.alloc ≡ alloc.now) }
{
    let Row { marker: _ } = row;
    let Deed { marker: _ } = deed;
    unsafe {
        alloc.deallocate(start.at as *mut u8, count * size_of::<T>(), align_of::<T>());
    }
}

impl<T> Row<T> {
    /// Writes a value into an empty slot.
    pub(crate) fn put(&self, start: Start<T>, offset: usize, room: Room<T>, value: T) -> Room<T>
        requires inside { (start.at ≡ self.now.at) × (offset < length self.now.names) }
        requires of { room.of ≡ get_or self.now.names offset 0 }
        requires empty { room.value ≡ None }
        ensures of { result.of ≡ room.of }
        ensures value { result.value ≡ Some value }
    {
        let Room { marker: _ } = room;
        unsafe {
            start.at.add(offset).write(value);
        }
        Room {
            marker: PhantomData,
        }
    }

    /// Takes a value back out, which leaves the slot empty.
    pub(crate) fn take(&self, start: Start<T>, offset: usize, room: Room<T>) -> (T, Room<T>)
        requires inside { (start.at ≡ self.now.at) × (offset < length self.now.names) }
        requires of { room.of ≡ get_or self.now.names offset 0 }
        requires full { IsSome room.value }
        ensures value { room.value ≡ Some result.0 }
        ensures of { result.1.of ≡ room.of }
        ensures empty { result.1.value ≡ None }
    {
        let Room { marker: _ } = room;
        let value = unsafe { start.at.add(offset).read() };
        let room = Room {
            marker: PhantomData,
        };
        (value, room)
    }

    /// Shows a value that is there for good.
    pub(crate) fn get<'a>(&'a self, start: Start<T>, offset: usize, written: &Written<T>) -> &'a T
        requires inside { (start.at ≡ self.now.at) × (offset < length self.now.names) }
        requires of { written.now.of ≡ get_or self.now.names offset 0 }
        ensures { result.now ≡ written.now.value }
    {
        let _ = written;
        unsafe { &*start.at.add(offset) }
    }

    /// Takes a value out that was there for good. The slot gets another name.
    pub(crate) fn take_out(
        &mut self,
        start: Start<T>,
        offset: usize,
        written: &Written<T>,
    ) -> (T, Room<T>)
        requires inside { (start.at ≡ self.old.at) × (offset < length self.old.names) }
        requires of { written.now.of ≡ get_or self.old.names offset 0 }
        ensures value { result.0 ≡ written.now.value }
        ensures empty { result.1.value ≡ None }
        ensures other { result.1.of ≢ written.now.of }
        ensures names { self.new.names ≡ slice_set self.old.names offset result.1.of }
        ensures same { self.new.at ≡ self.old.at }
    {
        let _ = written;
        let value = unsafe { start.at.add(offset).read() };
        let room = Room {
            marker: PhantomData,
        };
        (value, room)
    }
}

unsafe impl<T> Send for Start<T> {}

unsafe impl<T> Sync for Start<T> {}

unsafe impl<T: Send> Send for Row<T> {}

unsafe impl<T: Send + Sync> Sync for Row<T> {}

unsafe impl<T, A: Allocator + Send> Send for Deed<T, A> {}

// A `&` to it holds nothing.
unsafe impl<T, A: Allocator> Sync for Deed<T, A> {}
