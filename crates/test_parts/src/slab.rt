//! Tests of slots and slabs.
mod alone;
mod counting;
mod numbers;
mod refused;
mod refusing;
mod taking;
mod threads;
