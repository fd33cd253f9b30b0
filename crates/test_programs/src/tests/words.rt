//! The arguments of the program.
use super::{Ended, Host, run};
use lock_free_hashtable::raw::Low;
use std::alloc::Allocator;
use std::test::Fail;
use testkit::refusing::{Refusing, Rule};
use testkit::streams::Called;
use tool_commands::program::run_program;

const USAGE: &str =
    "usage: tablerun calls [F] | shards N [F] | core [F] | stress THREADS JOBS | seats THREADS\n";

/// Words that name no command, with `,` between the words and `|` between the commands.
const WRONG: &str =
    "calls,24|calls,8|calls,2147483648|calls,18446744073709551616|calls,000000000000000000016|calls,0x10|\
    calls,+16|calls,|calls,16,16|core,24|core,8|core,2147483648|core,16,16||call|CALLS|calls |seats|seats,1|seats,65|\
    seats,4,4|stress|stress,4|stress,1,1|stress,65,1|stress,4,0|stress,4,1001|stress,4,1,1|shards|shards,3|shards,0|\
    shards,32|shards,0x2|shards,|shards,2,24|shards,2,16,16|shards,18446744073709551618";

#[test]
fn wrong_words_print_the_usage(rt: HostRuntime) -> Result<(), Fail> {
    for words in WRONG.split('|') {
        let words: Vec<&str> = words.split(',').collect(rt.alloc())?;
        run(&rt, words.as_slice(), b"i 0 1\n").assert(&rt, "", USAGE, 2);
    }
    Ok(())
}

/// The arguments of a run, its output, its message and its status. All runs have the same input.
type Row = (&'static [&'static [u8]], &'static str, &'static str, u8);

const ROWS: [Row; 11] = [
    (&[b"tablerun"], "placed\n16\n", "", 0),
    (&[], "placed\n16\n", "", 0),
    (&[b"tablerun", b"calls"], "placed\n16\n", "", 0),
    (&[b"tablerun", b"calls", b"32"], "placed\n32\n", "", 0),
    (&[b"tablerun", b"shards", b"8"], "placed\n16\n", "", 0),
    (&[b"tablerun", b"shards", b"3"], "", USAGE, 2),
    (&[b"tablerun", b"core"], "", "bad line 1\n", 2),
    (
        &[b"tablerun", b"seats", b"2"],
        "placed 1024\nfull 2\n",
        "",
        0,
    ),
    (&[b"tablerun", b"seats", b"99"], "", USAGE, 2),
    (&[b"calls", b"tablerun"], "", USAGE, 2),
    // An argument that isn't UTF-8.
    (&[b"tablerun", b"calls\xff"], "", USAGE, 2),
];

/// Runs the program with the arguments of `called` over the input. The memory of its table comes from `alloc`.
pub(super) fn run_called<A: Allocator + Copy, T: Low + Copy + Send + Sync>(
    rt: &impl Host,
    called: &Called<A>,
    alloc: T,
    input: &[u8],
) -> Ended {
    let (mut output, mut messages) = (Vec::new(rt.alloc()), Vec::new(rt.alloc()));
    let status = run_program(rt, called, alloc, input, &mut output, &mut messages);
    Ended {
        status,
        output,
        messages,
    }
}

#[test]
fn words_are_the_command(rt: HostRuntime) {
    for (arguments, printed, message, status) in &ROWS {
        let alloc = rt.alloc();
        let arguments = *arguments;
        let ended = run_called(&rt, &Called { arguments, alloc }, alloc, b"i 0 1\nc\n");
        ended.assert(&rt, *printed, *message, *status);
    }
}

/// Runs the program while the request after the first `granted` ones for the memory of its words is refused. Returns whether the program
/// reported it, and asserts that it printed no reply then. Otherwise asserts that it printed its replies.
fn is_refused(rt: &impl Host, granted: u64) -> bool {
    let memory = Refusing::new(rt.alloc(), Rule::new(0, usize::MAX, granted, 1));
    let called = Called {
        arguments: &[b"tablerun", b"calls", b"32"],
        alloc: &memory,
    };
    let ended = run_called(rt, &called, rt.alloc(), b"c\n");
    if ended.status == 0 {
        ended.assert(rt, "0\n", "", 0);
        return false;
    }
    ended.assert(rt, "", "no memory\n", 1);
    true
}

/// More requests than the words take.
const ENOUGH: u64 = 20;

#[test]
fn want_of_memory_for_the_words_is_no_wrong_word(rt: HostRuntime) {
    let mut refused = 0u64;
    for granted in 0..ENOUGH {
        refused = refused.saturating_add(u64::from(is_refused(&rt, granted)));
    }
    // Each of the three words takes memory, and so does the list of them.
    assert!(rt; 4 <= refused && refused < ENOUGH, "{refused}");
}
