//! Tests of a chain of values that threads share.
mod alone;
mod counting;
mod rising;
mod threads;
