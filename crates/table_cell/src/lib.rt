//! Heap blocks that live as long as a home, and the buckets and words that name them.
#![tactic(auto)]

mod bucket;
mod home;
mod latest;
mod loose_block;
mod low;
mod name;
mod note;
mod row;
mod word;

pub use bucket::{Bucket, BucketRef, Entry, Mark, Missed, Refusal};
pub use home::{Closed, Home, Homed};
pub use latest::Latest;
pub use loose_block::LooseBlock;
pub use low::Low;
pub use name::Name;
pub use note::Note;
pub use row::{Buckets, Row};
pub use word::Word;
