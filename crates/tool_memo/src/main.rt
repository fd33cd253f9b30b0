//! Answers each line of its input, a number, with the Fibonacci number of it modulo 2^64. `--threads N` asks for N threads.
#![tactic(auto)]

use std::process::ExitCode;
use tool_lines::memo_program::run_memo_program;

fn main(rt: HostRuntime) -> ExitCode {
    let mut output = rt.stdout();
    let mut messages = rt.stderr();
    let status = run_memo_program(&rt, rt.alloc(), rt.stdin(), &mut output, &mut messages);
    ExitCode::from(status)
}
