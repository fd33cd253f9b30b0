//! A generation of buckets that threads set, each once, to the number of an entry that lies in a slab.
#![tactic(auto)]

mod bucket;
mod carrying;
mod ending;
mod event;
mod generation;
mod growth;
mod hints;
mod place;
mod probe;
mod row;
mod rule;
mod sought;
mod trade;
mod walk;
mod word;

pub use ending::LeftValues;
pub use event::{Event, Listed, Numbered, Stored};
pub use generation::NumberedGeneration;
pub use growth::Refused;
pub use place::Placing;
pub use probe::Probed;
pub use rule::{SetRule, Token};
pub use sought::{MetBy, SameAs, Sought};
pub use table_terms::law::{KeyLaw, SetLaw};
pub use trade::one_value;
