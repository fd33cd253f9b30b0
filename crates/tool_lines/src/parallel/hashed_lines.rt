//! The lines of one piece, with their hashes.
ghost use Rattle.std.specs.Prelude.{◌≡◌, ◌<◌, [], ◌∷◌, length, map, IfOk, IfSome, IfNone};
ghost use Rattle.tool_streams.specs.Lines.{CutsLine};
ghost use Rattle.tool_lines.specs.Pieces.{lines_of};

use crate::line_set::HashedLine;
use std::alloc::{AllocError, Allocator};

/// Returns the lines of the piece, in order. `Err`: memory was refused.
pub fn hash_lines<A: Allocator + Copy>(
    alloc: A,
    piece: &[u8],
) -> Result<Vec<HashedLine<'_>, A>, AllocError>
    ensures { IfOk result (λ lines. map (λ line. line.bytes.now) lines.items ≡ lines_of piece.now) }
{
    let mut lines = Vec::new(alloc);
    let mut rest = piece;
    while let Some((line, behind)) = first_line(rest) {
        lines.push(HashedLine::new(line))?;
        rest = behind;
    }
    Ok(lines)
}

/// Returns the first line of the text and the text behind it. Returns `None` if there is no line.
fn first_line(text: &[u8]) -> Option<(&[u8], &[u8])>
    ensures line { IfSome result (λ cut. lines_of text.now ≡ cut.0.now ∷ lines_of cut.1.now) }
    ensures shorter { IfSome result (λ cut. length cut.1.now < length text.now) }
    ensures none { IfNone result (lines_of text.now ≡ []) }
{
    cut_line(text)
}

/// Splits the text after its first line, whose line break is left out. Returns `None` if the text is empty.
fn cut_line(text: &[u8]) -> Option<(&[u8], &[u8])>
    ensures cuts { IfSome result (λ cut. CutsLine text.now cut.0.now cut.1.now) }
    ensures shorter { IfSome result (λ cut. length cut.1.now < length text.now) }
    ensures none { IfNone result (text.now ≡ []) }
{
    if text.is_empty() {
        return None;
    }
    let Some(at) = text.iter().position(|byte| *byte == b'\n') else {
        return Some((text, &[]));
    };
    match text.split_at(at) {
        (line, [_line_break, behind @ ..]) => Some((line, behind)),
        (_, []) => unreachable!(),
    }
}
