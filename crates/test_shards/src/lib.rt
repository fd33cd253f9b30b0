//! Tests of the tables over shards, single-owner and shared: lists of calls, iterators, refused memory and drops.
#![tactic(auto)]

#[cfg(test)]
mod tests;
