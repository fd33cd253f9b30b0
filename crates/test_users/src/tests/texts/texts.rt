//! Texts, and what the tools write for them.
use super::{ALONE, DEDUP, EMPTY_SHELF, USAGE, WORDS, assert_ended, assert_splits, run};
use std::test::Fail;

/// Texts, and what `words` writes.
const TEXTS: [(&str, &str); 8] = [
    ("", ""),
    (" \t\n\r\u{c}\n", ""),
    ("a", "1 a 1\n"),
    ("a b a\n", "1 a 2\n2 b 1\n"),
    ("b\r\na\tb\u{c}b a", "1 b 3\n2 a 2\n"),
    ("Aa BB Aa", "1 Aa 2\n2 BB 1\n"),
    (
        "né 語 né \u{a0} \u{a0}x",
        "1 né 2\n2 語 1\n3 \u{a0} 1\n4 \u{a0}x 1\n",
    ),
    ("a\u{0}b a\u{b}b", "1 a\u{0}b 1\n2 a\u{b}b 1\n"),
];

/// Inputs that aren't UTF-8, and the message, which names the line.
const NO_TEXT: [(&[u8], &str); 4] = [
    (b"\xff", "words: line 1 is not UTF-8\n"),
    (b"a b\nc \xc3\n", "words: line 2 is not UTF-8\n"),
    (b"\xe8\xaa\n\x9e", "words: line 1 is not UTF-8\n"),
    (b"a\n\n\nb \xed\xa0\x80 c", "words: line 4 is not UTF-8\n"),
];

/// Inputs, and what `dedup` writes.
const LINES: [(&[u8], &[u8]); 8] = [
    (b"", b""),
    (b"\n", b"\n"),
    (b"a", b"a\n"),
    (b"a\nb\na\n", b"a\nb\n"),
    (b"\n\na\n\na", b"\na\n"),
    (b"a\r\na\n", b"a\r\na\n"),
    (b"\xff\n\xfe\n\xff", b"\xff\n\xfe\n"),
    (b"a\n\0\n\0\0\na\0\n\0", b"a\n\0\n\0\0\na\0\n"),
];

#[test]
fn words_are_counted_in_the_order_of_first_appearance(rt: HostRuntime) -> Result<(), Fail> {
    for (input, output) in &TEXTS {
        let wanted = (output.as_bytes(), "", 0);
        assert_splits(&rt, &EMPTY_SHELF, &[WORDS], input.as_bytes(), wanted)?;
    }
    Ok(())
}

#[test]
fn each_different_line_is_written_once(rt: HostRuntime) -> Result<(), Fail> {
    for (input, output) in &LINES {
        assert_splits(&rt, &EMPTY_SHELF, &[DEDUP], *input, (*output, "", 0))?;
    }
    Ok(())
}

#[test]
fn a_line_that_is_no_text_is_named(rt: HostRuntime) -> Result<(), Fail> {
    for (input, message) in &NO_TEXT {
        assert_splits(&rt, &EMPTY_SHELF, &[WORDS], *input, (b"", *message, 2))?;
    }
    Ok(())
}

/// Arguments that name no tool.
const NO_TOOL: [&[&str]; 7] = [
    &[],
    &[""],
    &["word"],
    &["Words"],
    &["--help", "words"],
    &["-h", "words"],
    &["help"],
];

#[test]
fn words_that_name_no_tool_are_refused(rt: HostRuntime) -> Result<(), Fail> {
    for words in &NO_TOOL {
        let input = b"a".as_slice();
        let ended = run(&rt, rt.alloc(), &EMPTY_SHELF, ALONE, *words, input)?;
        assert_ended(&rt, &ended, b"", USAGE, 2);
    }
    Ok(())
}
