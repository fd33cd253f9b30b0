//! Tests of the examples, of the interner and of the tools over text.
mod examples;
mod names;
mod texts;

use std::fmt::Debug;
use std::process::Abort;

/// What a run printed, and its status.
#[derive(Drop)]
struct Ended {
    status: u8,
    output: Vec<u8>,
    messages: Vec<u8>,
}

/// Asserts that `got` equals `expected`.
fn assert_same<X: PartialEq + Debug + Drop>(rt: &impl Abort, got: X, expected: X) {
    assert_eq!(rt; got, expected);
}

/// Asserts what a run printed, and its status.
fn assert_ended(rt: &impl Abort, ended: &Ended, output: &[u8], messages: &str, status: u8) {
    assert_same(rt, ended.output.as_slice(), output);
    assert_same(rt, ended.messages.as_slice(), messages.as_bytes());
    assert_same(rt, ended.status, status);
}
