//! Values that a table can hold.
ghost use Rattle.std.specs.Prelude.{◌≡◌};

use std::alloc::Allocator;
use std::num::{NonZeroU32, NonZeroU64};
use std::sync::Arc;
pub use table_terms::law::Law;

/// A value that a table can hold: an `InPlace`, `Box`, `Arc`, `NonZeroU64` or `NonZeroU32`, or a value of the caller's own type.
/// The table compares and hashes what the value leads to, its target.
///
/// An implementor promises that the target is a function of the value, `target`, and that `deref` returns it.
pub trait AtomicValue: Drop {
    /// The type of the target, which is compared, hashed and shown.
    type Target;

    ghost target: { Self → Self.Target };

    /// Returns the target of the value.
    fn deref(&self) -> &Self::Target
        ensures { result.now ≡ target self.now };
}

/// A value that is stored in the table's own heap block. It is the first choice for a caller's own type: it needs no block beside
/// the table's, and a look-up reads one cache line less than with a `Box`.
#[derive(Drop)]
pub struct InPlace<T>(pub T);

// `T: Drop`, here and for `Box` and `Arc`: a table drops its values, and a value can be dropped only if its parts can be.
impl<T: Drop> AtomicValue for InPlace<T> {
    type Target = T;

    ghost target = { λ v. v.0 };

    fn deref(&self) -> &T {
        &self.0
    }
}

impl<T: Drop, A: Allocator> AtomicValue for Box<T, A> {
    type Target = T;

    ghost target = { λ b. b.value };

    fn deref(&self) -> &T {
        self.as_ref()
    }
}

impl<T: Drop, A: Allocator> AtomicValue for Arc<T, A> {
    type Target = T;

    ghost target = { λ a. a.value };

    fn deref(&self) -> &T {
        self.as_ref()
    }
}

impl AtomicValue for NonZeroU64 {
    type Target = NonZeroU64;

    ghost target = { λ n. n };

    fn deref(&self) -> &NonZeroU64 {
        self
    }
}

impl AtomicValue for NonZeroU32 {
    type Target = NonZeroU32;

    ghost target = { λ n. n };

    fn deref(&self) -> &NonZeroU32 {
        self
    }
}
