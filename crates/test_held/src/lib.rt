//! Tests of single-owner tables and sets: answers, calls of closures, growth, walks, drops.
#![tactic(auto)]

#[cfg(test)]
mod tests;
