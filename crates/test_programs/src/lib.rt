//! Tests of the commands of `tablerun`, over streams in memory.
#![tactic(auto)]

#[cfg(test)]
mod tests;
