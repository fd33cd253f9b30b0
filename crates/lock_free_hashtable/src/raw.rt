//! One table, for one owner or shared by threads.
//!
//! The owner of a [`HeldRawTable`] fills it; [`Share::share`] turns it into a [`LockFreeRawTable`].

pub use table_cell::Low;
pub use table_held::raw::{
    FIRST_CAPACITY, HeldIter, HeldParts, HeldRawTable, IntoIter, is_first_capacity,
};
pub use table_held::runs::laws;
pub use table_shards::shared::Share;
pub use table_shared::{Current, InsertCall, Iter, LockFreeRawTable, LookupCall, Progress};
