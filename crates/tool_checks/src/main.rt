//! Checks and measures the tables.
//!
//!     tool_checks                                     a few schedules, a few rounds, and each workload without a clock
//!     tool_checks replays [SCHEDULES [FIRST-SEED]]    replays drawn schedules on a table beside the machine of all schedules:
//!                                                     of stepped calls, and of whole calls on two threads
//!     tool_checks stress [MINUTES [FIRST-SEED]]       runs drawn rounds, in which threads give values to one table at once,
//!                                                     and accounts for each value; with MINUTES it says each minute what they
//!                                                     came to
//!     tool_checks stress set [MINUTES [FIRST-SEED]]   runs drawn rounds, in which threads insert lists of numbers into one set;
//!                                                     each number comes out at the set's end or comes back
//!     tool_checks bench list                          the names of what is measured
//!     tool_checks bench held GROUP                    the table held alone: one or seq, with a million keys, or 1e4 to 1e8
//!     tool_checks bench shared GROUP                  the table that threads share, by one thread: as the table held alone
//!     tool_checks bench shared GROUP [THREADS]        by that many threads, of four at most, or by one to four in turn: same,
//!                                                     ins or hit
//!     tool_checks bench texts-shared-interner GROUP        texts that threads name: a million different ones by one thread (txt) or by
//!                                                     four (txt4), or a million calls with 50,000 words (words)
//!     tool_checks bench seats GROUP                   the number table of seated threads: one, seq, same or ins
//!     tool_checks bench core one                      the machine of all schedules
//!     tool_checks bench interner N                    the interner with 1e4, 1e5 or 1e6 texts
//!
//! `held` and `shared` keep each number in a box. `held-in-place` and `shared-in-place` keep it in the table's own block, and so do the
//! set `held-set` and the tables over sixteen shards, `held-shards` and `shared-shards`. `shared-set` is the set that threads share by
//! handles, and is measured as such a table is, as is `records-shared-set`, such a set of records of 24 bytes. The group 1e8 needs up to six
//! gigabytes of memory.
//!
//! Without numbers a few schedules and small rounds run, from seed 0 on. A group of measurements runs once, in a fresh process. At
//! the first fault the program says the seed or the round and what was wrong, and the status is 1, as it is for other words.
#![tactic(auto)]

use std::process::ExitCode;
use testkit_checks::program::run_program;

fn main(rt: HostRuntime) -> ExitCode {
    let mut output = rt.stdout();
    let mut messages = rt.stderr();
    let status = run_program(&rt, &mut output, &mut messages);
    ExitCode::from(status)
}
