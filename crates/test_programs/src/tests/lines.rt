//! Bad lines, long lines, and inputs that are cut off.
use super::{Host, first_lines, line_ends, run};
use std::test::Fail;
use tool_streams::blocks::BLOCK;

/// Lines that `calls` doesn't know, with `|` between them.
const BAD_CALLS: &str =
    "| |i|i 0|i 0 |i 0 1 | i 0 1|i  0 1|i 0  1|i 0 1 2|i\t0 1|i 0\t1|i 0 1\r|I 0 1|i0 1|ii 0 1|i 0 -1|i +0 1|\
    i 0 1.|i 0 a|i 0 0x|i 0 0X1|i 0 0xg|i 0 x1|i 0 00x1|i 18446744073709551616 1|i 99999999999999999999 1|\
    i 000000000000000000000 1|i 0x10000000000000000 1|i 0x00000000000000001 1|l|l 0|l 0 1 |l 0 18446744073709551616|n | n|nn|\
    n 1|w |c 0|b\0|x|b x|insert 1 1 1";

/// Lines that `core` doesn't know, with `|` between them.
const BAD_EVENTS: &str =
    "| |bb|b | b|B|b 1|i 0 1|n|insert|insert |insert 1|insert 1 2|insert 1 2 |insert 1 2 3 |insert 1 2 3 4|\
    insert  1 2 3|insert 1  2 3|insert 1 2  3| insert 1 2 3|insert 1 2 3\r|insert\t1 2 3|insert 1 2 -3|\
    insert 1 2 18446744073709551616|insert 1 x 3|insert x 2 3|Insert 1 2 3|inserts 1 2 3|inser 1 2 3|lookup 1|lookup 1 2 3|\
    lookup 1 0X2|lookup1 2|len|len |len 1 2|len x|lent 1|walk 1 n|share|own 0x|free +1|load 1.|read 1|read 1 |read 1 Y|\
    read 1 yes|read 1 ok|read y 1|read 1 y n|put 1 y|put 1 ok|put 1 y ok |put 1 y OK|put 1 ok y|put 1 y y|put 1 y ok no|\
    put x y ok|add 1 1|size|check 1|check 1 y|check 1 okay|check 1 ok no|check x ok|copy 1|copy 1 2 3|copy x 2|copy 1 x|\
    show 1 ok|shows 1|place 1|1|first 1 10 0";

/// Asserts that `calls` ends at this line, reports it as bad, and has printed the reply to the line before. `Err`: no memory.
fn assert_bad_call(rt: &impl Host, line: &str) -> Result<(), Fail> {
    let input = format!(in rt.alloc(); "i 0 1\n{line}\nl 0 1\n")?;
    run(rt, &[], input.as_bytes()).assert(rt, "placed\n", "bad line 2\n", 2);
    Ok(())
}

/// Asserts that `core` ends at this line, reports it as bad, and has printed the reply to the lines before. `Err`: no memory.
fn assert_bad_event(rt: &impl Host, line: &str) -> Result<(), Fail> {
    let input = format!(in rt.alloc(); "walk 1\nload 1\n{line}\nb\n")?;
    run(rt, &["core"], input.as_bytes()).assert(rt, "1 walk []\n", "bad line 3\n", 2);
    Ok(())
}

#[test]
fn a_bad_line_ends_the_run(rt: HostRuntime) -> Result<(), Fail> {
    for line in BAD_CALLS.split('|') {
        assert_bad_call(&rt, line)?;
    }
    for line in BAD_EVENTS.split('|') {
        assert_bad_event(&rt, line)?;
    }
    Ok(())
}

#[test]
fn every_byte_as_a_line(rt: HostRuntime) {
    for byte in 0..=255u8 {
        let (output, message, status) = match byte {
            b'n' | b'c' | b'b' => ("0\n0\n", "", 0),
            b'w' => ("0\n[]\n", "", 0),
            _ => ("0\n", "bad line 2\n", 2),
        };
        run(&rt, &[], &[b'n', b'\n', byte, b'\n']).assert(&rt, output, message, status);
    }
}

/// Lines of which no beginning is a good line. If the input is cut after a line break, no further line follows.
const LINES: &str = "i 5 1\nl 5 1\nw\ni 6 2\nn\nc\nl 6 1";

const REPLIES: &str = "placed\nsome 1\n[1]\nplaced\n2\n16\nnone\n";

/// Asserts what is printed for a beginning of `LINES`, after which the rest would follow. `Err`: no memory.
fn assert_cut(rt: &impl Host, input: &[u8], rest: &[u8]) -> Result<(), Fail> {
    let is_begun = !input.is_empty() && input.last() != Some(&b'\n');
    let is_whole = rest.is_empty() || rest.first() == Some(&b'\n');
    let lines = line_ends(input).saturating_add(usize::from(is_begun));
    if is_begun && !is_whole {
        return assert_bad_end(rt, input, lines);
    }
    let replies = first_lines(rt.alloc(), REPLIES, lines)?;
    run(rt, &[], input).assert(rt, replies.as_str(), "", 0);
    Ok(())
}

/// Asserts that the last of these lines is a bad one, and what is printed before. `Err`: no memory.
fn assert_bad_end(rt: &impl Host, input: &[u8], lines: usize) -> Result<(), Fail> {
    let replies = first_lines(rt.alloc(), REPLIES, lines.saturating_sub(1))?;
    let message = format!(in rt.alloc(); "bad line {lines}\n")?;
    run(rt, &[], input).assert(rt, replies.as_str(), message.as_str(), 2);
    Ok(())
}

#[test]
fn an_input_cut_at_every_byte(rt: HostRuntime) -> Result<(), Fail> {
    for cut in 0..=LINES.len() {
        let (input, rest) = LINES.as_bytes().split_at(cut);
        assert_cut(&rt, input, rest)?;
    }
    Ok(())
}

/// How a long line begins, the part that is repeated, how often, and how the input ends.
const LONG: [(&str, &str, usize, &str); 7] = [
    ("i 0 ", "0", 1 << 20, "1\nl 0 1\n"),
    ("i 0 ", "0", 1 << 20, ""),
    ("i 0 ", " ", 1 << 20, "1\nl 0 1\n"),
    ("i 0 ", "i", 1 << 20, ""),
    // The end of the long line would be a good line by itself.
    ("", "x", BLOCK, "n\nl 0 1\n"),
    ("", "x", 2 * BLOCK, "n\nl 0 1\n"),
    ("", "x", 3 * BLOCK, "n\nl 0 1\n"),
];

#[test]
fn a_long_line_is_bad(rt: HostRuntime) -> Result<(), Fail> {
    for (beginning, part, count, ending) in &LONG {
        let long = part.repeat(rt.alloc(), *count)?;
        let input = format!(in rt.alloc(); "i 0 1\n{beginning}{long}{ending}")?;
        run(&rt, &[], input.as_bytes()).assert(&rt, "placed\n", "bad line 2\n", 2);
    }
    Ok(())
}

#[test]
fn lines_across_blocks(rt: HostRuntime) -> Result<(), Fail> {
    // Each line has 43 bytes and a line break, so most blocks end within a line.
    let mut input = String::new(rt.alloc());
    for k in 0..2000u64 {
        writeln!(input, "i {k:020} {k:020}")?;
    }
    input.push_str("n\nl 1999 1999\nl 381 381\n")?;
    let mut replies = "placed\n".repeat(rt.alloc(), 2000)?;
    replies.push_str("2000\nsome 1999\nsome 381\n")?;
    run(&rt, &[], input.as_bytes()).assert(&rt, replies.as_str(), "", 0);
    Ok(())
}

/// The longest line that `core` knows.
const LONGEST: &str = "insert 18446744073709551615 18446744073709551615 18446744073709551615\n";

#[test]
fn the_longest_lines_across_blocks(rt: HostRuntime) -> Result<(), Fail> {
    // Each line has 69 bytes and a line break. Only the first one begins a call, since its number is in use afterwards.
    let mut input = LONGEST.repeat(rt.alloc(), 1000)?;
    input.push_str("b\n")?;
    run(&rt, &["core"], input.as_bytes()).assert(&rt, "0\n", "", 0);
    Ok(())
}
