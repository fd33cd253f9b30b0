//! A symbol table that threads share: each different text gets one symbol, which gives the text back.
#![tactic(auto)]

mod apart;
pub mod example;
mod interning;
mod iter;
mod names;
mod share;
mod short;
mod symbol;
mod text;

pub use interning::SharedInterner;
pub use iter::Iter;
pub use names::{KnownNames, Names};
pub use share::Shared;
pub use symbol::Symbol;
pub use text::Text;
