//! The spelling of the lines of `calls`.
ghost use Rattle.std.specs.Prelude.{◌≡◌, ◌++◌, ℕ, IfSome, IfNone, codes};
ghost use Rattle.tool_commands.specs.Spelling.{SpellsPair, SpellsLine, HasNoSpace};
ghost use Rattle.tool_commands.specs.declared.spelling.Line.{Line as LineOf};

use tool_streams::numbers::parse_number;

/// A line of `calls`: a request to the table.
#[derive(Clone, Copy)]
pub enum Line {
    Insert { hash: u64, number: u64 },
    Lookup { hash: u64, number: u64 },
    Length,
    Walk,
    Capacity,
    Buckets,
}

/// Parses a whole line, without its line break. Returns `None` for any other text.
pub fn parse_line(text: &[u8]) -> Option<Line>
    ensures spelled { IfSome result (SpellsLine text.now) }
    ensures bad { IfNone result ((line : LineOf) → ¬ SpellsLine text.now line) }
{
    match text {
        [b'i', b' ', rest @ ..] => {
            let (hash, number) = parse_pair(rest)?;
            Some(Line::Insert { hash, number })
        }
        [b'l', b' ', rest @ ..] => {
            let (hash, number) = parse_pair(rest)?;
            Some(Line::Lookup { hash, number })
        }
        b"n" => Some(Line::Length),
        b"w" => Some(Line::Walk),
        b"c" => Some(Line::Capacity),
        b"b" => Some(Line::Buckets),
        _ => None,
    }
}

/// Parses two numbers with one space between them.
pub fn parse_pair(text: &[u8]) -> Option<(u64, u64)>
    ensures spelled { IfSome result (λ pair. SpellsPair text.now pair.0 pair.1) }
    ensures bad { IfNone result ((first second : ℕ) → ¬ SpellsPair text.now first second) }
{
    let (before, after) = split_at_space(text)?;
    let first = parse_number(before)?;
    let second = parse_number(after)?;
    Some((first, second))
}

/// Splits the text at its first space. Returns `None` if there is none.
pub fn split_at_space(text: &[u8]) -> Option<(&[u8], &[u8])>
    ensures parts { IfSome result (λ parts. text.now ≡ parts.0.now ++ codes " " ++ parts.1.now) }
    ensures first { IfSome result (λ parts. HasNoSpace parts.0.now) }
    ensures missing { IfNone result (HasNoSpace text.now) }
{
    let space = text.iter().position(|byte| *byte == b' ')?;
    Some((&text[..space], &text[space + 1..]))
}
