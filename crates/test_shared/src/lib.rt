//! Tests of the raw table that threads share: growth, lost exchanges, lengths, drops.
#![tactic(auto)]

#[cfg(test)]
mod tests;
