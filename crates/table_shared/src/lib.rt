//! The table that threads share: its generations, its growth, iteration, and calls that run one step at a time.
//!
//! The generations that a table had when it was shared stay in it. Each later one has a heap block of its own, whose address a
//! word holds that is set once. Look-ups and inserts take the current generation from [`LockFreeRawTable::current`].
#![tactic(auto)]

mod ending;
mod growth;
mod insert;
mod iter;
mod lineage;
mod locks;
mod lookup;
mod padding;
mod probe;
mod shown;
mod size;
pub mod stepped;
mod table;

pub use growth::Growth;
pub use growth::begin::Wanted;
pub use iter::Iter;
pub use stepped::{InsertCall, LookupCall, Progress};
pub use table::{Current, LockFreeRawTable};
pub use table_generations::values::IntoIter;
pub use table_terms::capacity::FIRST_CAPACITY;
