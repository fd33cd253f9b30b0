//! Iteration by value over the generations of a table that was taken apart.
//!
//! A table that is taken apart leaves its generations: the current one, those in a vector, and those that lie in blocks of
//! their own. An [`IntoIter`] hands out each value that a bucket of them owns, once; dropped early, it drops the others.

mod into_iter;
mod rest;

pub use into_iter::IntoIter;
pub use rest::Rest;
