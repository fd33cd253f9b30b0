//! Runs of the tools over named files.
use super::{ALONE, HELP, Shelf, USAGE, assert_ended, assert_splits, run};
use std::test::Fail;

/// Two files without a last line break, one that isn't UTF-8, an empty one, and two whose names are options.
const SHELF: Shelf = Shelf {
    files: &[
        ("one", b"b a\nb"),
        ("two", b"b\nc"),
        ("bad", b"a\nb \xff"),
        ("none", b""),
        ("--help", b"h\n"),
        ("-h", b"s\n"),
    ],
};

/// The arguments of a run over the input `b d` and a line break, its output, its messages and its status.
type Row = (&'static [&'static str], &'static str, &'static str, u8);

/// The end of a file ends its last line, so the next file begins a new one.
const RUNS: [Row; 13] = [
    (&["words", "one"], "1 b 2\n2 a 1\n", "", 0),
    (&["words", "one", "two"], "1 b 3\n2 a 1\n3 c 1\n", "", 0),
    (&["dedup", "one", "two"], "b a\nb\nc\n", "", 0),
    (&["dedup", "two", "-", "one"], "b\nc\nb d\nb a\n", "", 0),
    // Standard input is empty when it is read a second time.
    (&["words", "-", "-"], "1 b 1\n2 d 1\n", "", 0),
    (&["words"], "1 b 1\n2 d 1\n", "", 0),
    (&["words", "none"], "", "", 0),
    (&["words", "--"], "1 b 1\n2 d 1\n", "", 0),
    (&["dedup", "--", "--help"], "h\n", "", 0),
    // The message names the file that is to blame. `dedup` has written the lines before.
    (
        &["words", "one", "bad"],
        "",
        "words: bad: line 2 is not UTF-8\n",
        2,
    ),
    (
        &["dedup", "one", "gone"],
        "b a\nb\n",
        "dedup: gone: no such file\n",
        1,
    ),
    (
        &["words", "/root", "one"],
        "",
        "words: /root: can't be opened\n",
        1,
    ),
    (&["dedup", "--", "-h"], "s\n", "", 0),
];

#[test]
fn files_are_read_in_their_order(rt: HostRuntime) -> Result<(), Fail> {
    for (words, written, said, status) in &RUNS {
        let wanted = (written.as_bytes(), *said, *status);
        assert_splits(&rt, &SHELF, *words, b"b d\n", wanted)?;
    }
    Ok(())
}

/// Arguments with numbers of threads, right and wrong ones, and those that ask for help, and what their runs print.
const ARGUMENTS: [Row; 17] = [
    (&["words", "--threads", "2"], "1 b 1\n2 d 1\n", "", 0),
    (
        &["dedup", "--threads", "64", "two", "-"],
        "b\nc\nb d\n",
        "",
        0,
    ),
    (&["dedup", "--threads", "01", "two"], "b\nc\n", "", 0),
    (&["dedup", "--threads", "3", "--", "--help"], "h\n", "", 0),
    (&["dedup", "--threads", "3", "--help"], "h\n", "", 0),
    (&["words", "--threads"], "", USAGE, 2),
    (&["words", "--threads", "0"], "", USAGE, 2),
    (&["words", "--threads", "65"], "", USAGE, 2),
    (&["words", "--threads", "two"], "", USAGE, 2),
    (&["words", "--threads", ""], "", USAGE, 2),
    (&["words", "--threads", "+2"], "", USAGE, 2),
    (&["words", "--threads", "--", "two"], "", USAGE, 2),
    (&["--threads", "2", "words"], "", USAGE, 2),
    (&["--help"], HELP, "", 0),
    (&["-h"], HELP, "", 0),
    (&["words", "--help"], HELP, "", 0),
    (&["dedup", "-h"], HELP, "", 0),
];

#[test]
fn arguments_ask_for_help_or_a_number_of_threads(rt: HostRuntime) -> Result<(), Fail> {
    for (words, written, said, status) in &ARGUMENTS {
        let input = b"b d\n".as_slice();
        let ended = run(&rt, rt.alloc(), &SHELF, ALONE, *words, input)?;
        assert_ended(&rt, &ended, written.as_bytes(), *said, *status);
    }
    Ok(())
}
