//! Input of lines and output in blocks, over readers and writers, for the programs over text.
//!
//! Output is held back in a block, which is flushed before a read that may wait.
#![tactic(auto)]

pub mod arguments;
pub mod blocks;
pub mod faults;
pub mod line_command;
pub mod lines;
pub mod messages;
pub mod numbers;
pub mod output;
pub mod short_lines;
