//! Tools over lines: `words` counts the words of a text, `dedup` writes each different line once, and a memo table answers numbers.
//!
//! Each is a function over a reader and a writer. [`line_set`] has the set of lines or words that `dedup`, and the threads of both tools,
//! store. The program `tool_text` runs `words` or `dedup` ([`program`]). The program `tool_memo` runs [`memo_lines`], over a memo table
//! that stores the results of a recursive function ([`memo`]), or [`memo_threads`], over one that threads share ([`memo_shared`]).
#![tactic(auto)]

pub mod dedup;
pub mod faults;
pub mod line_set;
pub mod line_tool;
pub mod memo;
pub mod memo_lines;
pub mod memo_program;
pub mod memo_shared;
pub mod memo_threads;
pub mod parallel;
pub mod program;
pub mod texts;
pub mod tool;
pub mod word_counts;
pub mod words;
