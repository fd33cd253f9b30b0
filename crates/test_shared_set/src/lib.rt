//! Tests of `SharedSet`: threads, messages, keys, accounts, refused memory.
#![tactic(auto)]

#[cfg(test)]
mod tests;
