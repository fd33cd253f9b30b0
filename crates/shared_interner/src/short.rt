//! Texts that lie in the value itself.
ghost use Rattle.std.specs.Prelude.{◌≡◌, ◌<◌, length, IfSome, IfNone};

use std::marker::Model;
use std::str;

/// The most bytes that a short text has.
const MOST: usize = 22;

/// A text of at most 22 bytes, which lie in the value itself.
///
/// A contract sees its bytes.
#[derive(Drop)]
pub(crate) struct ShortText {
    bytes: [u8; MOST],
    len: u8,
}

impl Model for ShortText {
    ghost use Rattle.std.specs.Prelude.{ℕ, List, ◌≤◌, take, IsUtf8};

    ghost Value = { List ℕ };

    ghost view = { λ s. take s.len s.bytes };

    ghost invariant = { λ s. (s.len ≤ 22) × ∥ IsUtf8 (take s.len s.bytes) ∥₁ };
}

impl ShortText {
    /// Copies the text. `None`: it is too long.
    pub(crate) fn new(text: &str) -> Option<Self>
        ensures some { IfSome result (λ s. s ≡ text.now) }
        ensures none { IfNone result (22 < length text.now) }
    {
        let len = text.len();
        if len > MOST {
            return None;
        }
        let mut bytes = [0; MOST];
        bytes[..len].copy_from_slice(text.as_bytes());
        Some(ShortText {
            bytes,
            len: len as u8,
        })
    }

    /// Returns the bytes.
    pub(crate) fn as_bytes(&self) -> &[u8]
        ensures { result.now ≡ self.now }
    {
        &self.bytes[..self.len as usize]
    }

    /// Returns the text.
    pub(crate) fn as_str(&self) -> &str
        ensures { result.now ≡ self.now }
    {
        match str::from_utf8(&self.bytes[..self.len as usize]) {
            Ok(text) => text,
            Err(_) => unreachable!(),
        }
    }
}
