//! The layer below the tables: values, generations of buckets, their growth, and the walk that ends them.
//!
//! A [`fixed::Generation`] is a fixed number of buckets of one home. A bucket owns the heap block of an entry, or names the block
//! that a bucket of an earlier generation owns. [`growth`] makes a generation with more buckets, which names each entry. When a
//! table is taken apart, [`values`] hands out what its generations own.
#![tactic(auto)]

pub mod atomic_value;
pub mod fixed;
pub mod growth;
pub mod values;
