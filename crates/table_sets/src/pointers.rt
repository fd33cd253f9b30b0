//! Laws of values by their targets: two values are equal if their targets are equal.
mod arcs;
mod boxes;
mod in_place;
mod numbers;
mod references;

use std::marker::PhantomData;

/// The law of values (`Arc<N>`, `Box<N>`, `InPlace<N>`, `&N`, `NonZeroU64`, `NonZeroU32`) whose targets have the law `L`. Two values are
/// equal if their targets are equal by `L`, and the hash and the keys are those of `L`.
pub struct OfTarget<L> {
    law: PhantomData<L>,
}
