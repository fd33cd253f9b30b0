//! Allocators whose blocks may be compared with null.
ghost use base.Fml.{fsep};
ghost use mir.Syntax.{Ty};
ghost use types.Logic.{sem};
ghost use Rattle.table_cell.specs.Words.{testable};

use std::alloc::{Allocator, Global};

/// An allocator whose blocks may be compared with null: each begins below byte 2^63 of the memory that it belongs to.
///
/// No allocator's contract says so, so an implementor proves it.
pub unsafe trait Low: Allocator {
    /// States that the block at this address may be compared with null. Reads nothing.
    unsafe fn show_low(at: *const u8)
        ghost g: { Self × Ty }
        requires* { sem 𝓛 (Self.dealloc_token g.0 g.1 at) }
        ensures* { sem 𝓛 (fsep (testable at) (Self.dealloc_token g.0 g.1 at)) };
}

unsafe impl Low for Global {
    unsafe fn show_low(at: *const u8) {
        let _at = at;
    }
}

unsafe impl<B: Low> Low for &B {
    unsafe fn show_low(at: *const u8) {
        unsafe { B::show_low(at) }
    }
}
