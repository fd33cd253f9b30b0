//! Runs drawn rounds of threads, one after the other, until their time is over.

mod plan;
mod program;
mod stop;
mod sum;

pub use plan::{End, Plan};
pub use program::run_rounds;
pub use stop::Stop;
