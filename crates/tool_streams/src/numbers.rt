//! The spelling of numbers.
ghost use Rattle.std.specs.Prelude.{◌≤◌, ℕ, IfSome, IfNone};
ghost use Rattle.tool_streams.specs.Numbers.{Writes, SpellsNumber};

/// Parses a number: 1 to 20 decimal digits, or `0x` and 1 to 16 hexadecimal digits of either case.
pub fn parse_number(text: &[u8]) -> Option<u64>
    ensures spelled { IfSome result (SpellsNumber text.now) }
    ensures bad { IfNone result ((n : ℕ) → ¬ SpellsNumber text.now n) }
{
    match text {
        [b'0', b'x', digits @ ..] => parse_digits(digits, 16, 16),
        _ => parse_decimal(text),
    }
}

/// Parses 1 to 20 decimal digits of a number below 2^64.
pub fn parse_decimal(text: &[u8]) -> Option<u64>
    ensures written { IfSome result (Writes 10 20 text.now) }
    ensures bad { IfNone result ((n : ℕ) → ¬ Writes 10 20 text.now n) }
{
    parse_digits(text, 10, 20)
}

/// Parses 1 to `most` digits of the radix.
fn parse_digits(digits: &[u8], radix: u32, most: usize) -> Option<u64>
    requires two { 2 ≤ radix }
    requires letters { radix ≤ 36 }
    ensures written { IfSome result (Writes radix most digits.now) }
    ensures bad { IfNone result ((n : ℕ) → ¬ Writes radix most digits.now n) }
{
    if digits.is_empty() || digits.len() > most {
        return None;
    }
    let mut value = 0u64;
    for byte in digits {
        let digit = char::from(*byte).to_digit(radix)?;
        value = value
            .checked_mul(u64::from(radix))?
            .checked_add(u64::from(digit))?;
    }
    Some(value)
}
