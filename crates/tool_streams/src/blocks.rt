//! The blocks in which input is read and output is written.
ghost use Rattle.std.specs.Prelude.{◌≡◌, length};

/// The number of bytes of a block.
pub const BLOCK: usize = 16384;

/// Returns a block of zeros.
pub fn empty_block() -> [u8; BLOCK]
    ensures { length result ≡ BLOCK }
{
    [0; BLOCK]
}
