//! An assertion that several of these tests make.
use std::fmt::Debug;
use std::process::Abort;

/// Asserts that `got` equals `expected`.
pub(crate) fn assert_same<X: PartialEq + Debug + Drop>(rt: &impl Abort, got: X, expected: X) {
    assert_eq!(rt; got, expected);
}
