//! Tests of buckets that name their blocks.
mod held;
mod latest;
mod noted;
mod refused;
mod settled;
mod shared;
