//! Tests of single-owner tables over shards.
mod drops;
pub(crate) mod makers;
mod millions;
mod numbers;
mod refusals;
mod runs;
mod shards;
mod shown;
mod walks;
