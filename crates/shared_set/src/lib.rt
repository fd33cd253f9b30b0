//! A growing set that threads share: handles, what each knows, walks, accounts.
#![tactic(auto)]

mod account;
mod apart;
mod cursor;
mod ending;
mod get_or_insert;
mod growth;
mod handle;
mod insert;
mod iter;
mod known;
mod numbers;
mod receipts;
mod set;
mod share;
mod stage;
mod supply;

pub use account::{Account, Settled};
pub use ending::IntoValues;
pub use get_or_insert::GotOrInserted;
pub use handle::Handle;
pub use insert::Inserted;
pub use iter::Iter;
pub use known::Known;
pub use set::SharedSet;
pub use share::{Partly, Share, Shared, Unshared};
pub use table_numbered::{KeyLaw, MetBy, SameAs, SetLaw, Sought};
pub use table_slab::Receipt;
