//! A heap block that no box owns, on its way into a word or out of one.
ghost use Rattle.std.specs.Prelude.{◌≡◌};
ghost use Rattle.std.specs.Box.{box_allocator};
ghost use Rattle.table_cell.specs.Words.{freeable};

use std::alloc::Allocator;
use std::marker::{Model, PhantomData};

/// The address of a heap block, and the right to free it. Contracts also know the value in it, and the allocator that it came
/// from.
///
/// Nothing frees it automatically: it is put into a word, or made a box again.
pub struct LooseBlock<T, A: Allocator> {
    pub(crate) at: *mut T,
    pub(crate) allocator: PhantomData<A>,
    pub ghost value: { T },
    pub ghost from: { A },
}

impl<T, A: Allocator> Model for LooseBlock<T, A> {
    ghost also_owns = { λ l. freeable T.row (A.dealloc_token l.from) l.at l.value };
}

impl<T: Drop, A: Allocator> LooseBlock<T, A> {
    /// Takes a box apart, and drops its handle of the allocator.
    pub fn of(block: Box<T, A>) -> LooseBlock<T, A>
        ensures { (result.value ≡ block.value) × (result.from ≡ box_allocator block) }
    {
        let at = Box::into_raw(block);
        LooseBlock {
            at,
            allocator: PhantomData,
        }
    }
}

impl<T, A: Allocator> LooseBlock<T, A> {
    /// Makes a box of the block again. `alloc` is the allocator that the block came from.
    pub fn into_box(self, alloc: A) -> Box<T, A>
        requires { alloc ≡ self.from }
        ensures { result.value ≡ self.value }
    {
        let LooseBlock { at, allocator: _ } = self;
        unsafe { Box::from_raw(alloc, at) }
    }
}
