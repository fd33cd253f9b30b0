//! Commands, and what they print.
use super::{Host, Script, run};
use std::test::Fail;

/// Commands, each with a script of the lines that it reads and the replies that it prints.
const SCRIPTS: [&str; 28] = [
    "tablerun: l 0 1 = none; n = 0; w = []; c = 0; b = 0",
    "tablerun calls: i 0 1 = placed; i 0 1 = found; l 0 1 = some 1; w = [1]",
    "tablerun: i 15 7 = placed; i 15 9 = placed; l 15 9 = some 9; w = [7, 9]",
    "tablerun: i 0 1 = placed; i 0 2 = placed; i 0 3 = placed; l 0 4 = none; n = 3",
    "tablerun: i 0xFFFFFFFFFFFFFFFF 18446744073709551615 = placed; \
    l 18446744073709551615 0xffffffffffffffff = some 18446744073709551615",
    "tablerun calls 32: i 0 1 = placed; c = 32; b = 32",
    "tablerun calls 1073741824: c = 0; b = 0",
    "tablerun shards 2: i 0 1 = placed; i 0x8000000000000000 1 = placed; l 0x8000000000000000 1 = some 1; n = 2; \
    w = [1, 1]; c = 32; b = 32",
    "tablerun shards 1: i 0 1 = placed; i 0x8000000000000000 1 = placed; l 0x8000000000000000 1 = some 1; n = 2; \
    w = [1, 1]; c = 16; b = 16",
    "tablerun shards 1: l 0 1 = none; n = 0; w = []; c = 0; b = 0",
    // The hashes are in the highest and in the lowest quarter, so the entries are in two shards.
    "tablerun shards 4 32: i 0xFFFFFFFFFFFFFFFF 2 = placed; i 0 1 = placed; i 0x3FFFFFFFFFFFFFFF 1 = placed; \
    i 0 1 = found; l 0 2 = none; n = 3; w = [1, 1, 2]; c = 64; b = 64",
    // The entries are in the shards 0, 1, 7 and 7.
    "tablerun shards 8: i 0 1 = placed; i 0x2000000000000000 1 = placed; i 0xE000000000000000 1 = placed; \
    i 0xFFFFFFFFFFFFFFFF 1 = placed; c = 48; b = 48; n = 4",
    // The entries are in the shards 0, 1 and 15.
    "tablerun shards 16: i 0 1 = placed; i 0x1000000000000000 1 = placed; i 0xF000000000000000 1 = placed; c = 48; \
    b = 48; n = 3",
    // Eight entries fill half of a shard, which then grows. The other shard doesn't.
    "tablerun shards 2: i 0x8000000000000000 9 = placed; i 0 1 = placed; i 0 2 = placed; i 0 3 = placed; i 0 4 = placed; \
    i 0 5 = placed; i 0 6 = placed; i 0 7 = placed; c = 32; i 0 8 = placed; c = 48; b = 64; n = 9; w = [1, 2, 3, 4, 5, 6, 7, 8, 9]",
    // Each shard has the first capacity. There is a pair for each sixteenth of the hashes, and no shard grows.
    "tablerun shards 1 64: 0..16 << 60 = placed; c = 64",
    "tablerun shards 2 64: 0..16 << 60 = placed; c = 128",
    "tablerun shards 4 64: 0..16 << 60 = placed; c = 256",
    "tablerun shards 8 64: 0..16 << 60 = placed; c = 512",
    "tablerun shards 16 64: 0..16 << 60 = placed; c = 1024",
    "tablerun shards 2 128: 0..16 << 60 = placed; c = 256",
    "tablerun shards 4 128: 0..16 << 60 = placed; c = 512",
    "tablerun shards 4: 0..16 << 60 = placed; c = 64",
    "tablerun shards 8: 0..16 << 60 = placed; c = 128",
    "tablerun shards 16: 0..16 << 60 = placed; c = 256",
    // A table grows when half of its buckets are set.
    "tablerun calls 16: 0..7 = placed; c = 16; b = 16; i 7 7 = placed; c = 32; b = 48; 8..15 = placed; c = 32; b = 48; \
    i 15 15 = placed; c = 64; b = 112; 16..31 = placed; c = 64; b = 112; i 31 31 = placed; c = 128; b = 240",
    "tablerun calls 32: 0..15 = placed; c = 32; b = 32; i 15 15 = placed; c = 64; b = 96; 16..31 = placed; c = 64; \
    b = 96; i 31 31 = placed; c = 128; b = 224",
    "tablerun: 0..17 = placed; i 4 4 = found; l 16 16 = some 16; \
    w = [0, 1, 2, 3, 4, 5, 6, 7, 8, 9, 10, 11, 12, 13, 14, 15, 16]",
    // Each form of an event comes once, with numbers of either form. Only the last two events finish a call.
    "tablerun core: insert 0x1 18446744073709551615 0xFFFFffffFFFFffff; lookup 02 0; len 3; walk 4; share 1; own 1; \
    free 9; load 9; read 9 y; read 9 n; put 9 y ok; put 9 y no; put 9 n ok; put 9 n no; add 9; size 9; check 9 ok; \
    check 9 no; copy 9 00000000000000000000; show 9; b = 0; load 3 = 3 len 0; load 2 = 2 none",
];

/// Commands that run threads and read nothing, each with a script of its replies.
const THREADED: [&str; 6] = [
    "tablerun seats 2: x = placed 1024; x = full 2",
    "tablerun seats 4: x = placed 1024; x = full 4",
    "tablerun seats 64: x = placed 1024; x = full 64",
    "tablerun stress 4 1: x = insert_unique 4000; x = insert_same 10000; x = insert_lookup 4000",
    "tablerun stress 2 10: x = insert_unique 2000; x = insert_same 10000; x = insert_lookup 2000",
    "tablerun stress 64 1: x = insert_unique 64000; x = insert_same 10000; x = insert_lookup 64000",
];

/// Asserts what the command of a row prints for its script. `Err`: no memory.
fn assert_row(rt: &impl Host, row: &str) -> Result<(), Fail> {
    let (command, text) = row.split_once(": ").unwrap_or((row, ""));
    let words: Vec<&str> = command.split(' ').skip(1).collect(rt.alloc())?;
    let script = Script::new(rt.alloc(), text)?;
    let ended = run(rt, words.as_slice(), script.input.as_bytes());
    ended.assert(rt, script.replies.as_str(), "", 0);
    Ok(())
}

/// Arguments, an input that is empty or whose last line ends with it, and what is printed.
const ENDS: [(&[&str], &str, &str); 5] = [
    (&[], "", ""),
    (&["calls"], "", ""),
    (&[], "i 0 1", "placed\n"),
    (
        &["calls", "00000000000000000016"],
        "i 0 1\nc",
        "placed\n16\n",
    ),
    (&["core"], "lookup 2 0\nload 2", "2 none\n"),
];

#[test]
fn rows_print_their_replies(rt: HostRuntime) -> Result<(), Fail> {
    for row in &SCRIPTS {
        assert_row(&rt, row)?;
    }
    for (words, input, output) in &ENDS {
        run(&rt, *words, input.as_bytes()).assert(&rt, *output, "", 0);
    }
    Ok(())
}

#[test]
fn threads_print_their_replies(rt: HostRuntime) -> Result<(), Fail> {
    for row in &THREADED {
        assert_row(&rt, row)?;
    }
    Ok(())
}

/// Asserts that a table and the machine keep this first capacity. `Err`: no memory.
fn assert_keeps(rt: &impl Host, first: u64) -> Result<(), Fail> {
    let row = format!(in rt.alloc();
        "tablerun calls {first}: i 0 1 = placed; c = {first}; b = {first}"
    )?;
    assert_row(rt, row.as_str())?;
    let row = format!(in rt.alloc();
        "tablerun core {first}: insert 1 10 0; share 1; load 1; free 1; own 1; check 1 ok; show 1; free 1; b = {first}"
    )?;
    assert_row(rt, row.as_str())
}

#[test]
fn each_first_capacity_is_kept(rt: HostRuntime) -> Result<(), Fail> {
    for exponent in 4..=16u32 {
        assert_keeps(&rt, 1u64 << exponent)?;
    }
    Ok(())
}
