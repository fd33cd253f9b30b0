//! What a history says.
ghost use Rattle.std.specs.Prelude.{List};
ghost use base.Stored.{coded_list};

use std::marker::{Model, PhantomData};

/// A list that only contracts see. No value of it is made.
#[derive(Drop)]
pub struct Listed<S> {
    pub marker: PhantomData<S>,
    pub ghost items: { List S } by { coded_list S.code },
}

impl<S> Model for Listed<S> {
    ghost use base.Fml.{ftrue};

    ghost also_owns = { λ l. ftrue };
}

/// An event of a history. The first says how many buckets there are, by its place, and what is due: what is stored before anything
/// else. Each later one says what was stored in which bucket. No value of it is made.
#[derive(Drop)]
pub struct Event<S> {
    pub place: u64,
    pub value: Option<S>,
    pub due: Listed<S>,
}

/// What a bucket has.
#[derive(Drop)]
pub enum Stored<E> {
    /// An entry.
    Entry(E),
    /// No entry is there, nor will be.
    Closed,
}

/// A value with the number of the slot that it lies in.
#[derive(Drop)]
pub struct Numbered<V> {
    pub number: u64,
    pub value: V,
}
