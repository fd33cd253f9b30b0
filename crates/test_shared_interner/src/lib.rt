//! Tests of `SharedInterner`: symbols, texts, walks, threads.
#![tactic(auto)]

#[cfg(test)]
mod tests;
