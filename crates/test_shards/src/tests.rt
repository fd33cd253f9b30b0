//! Tests of tables over shards.
mod held;
mod shared;

use std::fmt::Debug;
use std::process::Abort;

/// Asserts that `seen` equals `expected`.
fn assert_same<X: PartialEq + Debug + Drop>(rt: &impl Abort, seen: X, expected: X) {
    assert_eq!(rt; seen, expected);
}
