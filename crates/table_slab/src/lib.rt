//! Memory for values that never move, in chunks that double: numbered slots, rights to them, receipts.
#![tactic(auto)]

mod chunk;
mod counter;
mod ending;
mod laws;
mod numbering;
mod receipt;
mod rights;
mod row;
mod run;
mod site;
mod slab;
mod slots;

pub use chunk::Chunk;
pub use ending::Ending;
pub use laws::{rooms_apart, same_site, same_value};
pub use numbering::{chunk_len, number_at, where_is};
pub use rights::{Receipt, Receipts, Room, Rooms, Written};
pub use run::{Refused, Run};
pub use site::{Site, hear, tell};
pub use slab::{Right, Slab, Standing};
pub use slots::Slots;
