//! Tests of generations of numbered buckets.
mod alone;
mod caller;
mod growing;
mod laws;
mod refusing;
