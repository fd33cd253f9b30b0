//! Tests of the interner, `words`, `dedup`, memo tables, and the examples.
#![tactic(auto)]

#[cfg(test)]
mod tests;
