//! Single-owner sets whose type fixes equality and hash: a call takes a value, a target or a key, and neither a hash nor a
//! closure.
//!
//! A [`HeldSet`] is a [`HeldRawTable`](table_held::HeldRawTable) with a law in its type: a [`SetLaw`], which says which targets
//! are equal and what their hash is. A contract sees a set as the list of its entries, of which no two are equal.
#![tactic(auto)]

pub mod fields;
pub mod inserted;
mod lawful;
pub mod laws;
pub mod pairs;
pub mod parts;
pub mod pointers;
pub mod set;
pub mod texts;

pub use fields::{ByField, OfField};
pub use inserted::{Inserted, Shown};
pub use pairs::{PairsOf, mix_hashes};
pub use parts::OfParts;
pub use pointers::OfTarget;
pub use set::HeldSet;
pub use table_held::{
    AtomicValue, HeldIter, HeldRawTable, InPlace, IntoIter, Law, is_first_capacity,
};
pub use table_terms::law::{KeyLaw, NumberLaw, SetLaw, hash_number};
pub use texts::{TextLaw, hash_bytes, hash_text};
