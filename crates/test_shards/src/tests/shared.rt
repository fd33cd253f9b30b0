//! Tests of the table over shards that threads share.
mod made;
mod numbers;
mod refusals;
mod shards;
mod threads;
mod values;
mod walks;
