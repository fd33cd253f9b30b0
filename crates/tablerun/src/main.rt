//! Runs a table over the lines of its input.
#![tactic(auto)]

use std::process::ExitCode;
use tool_commands::program::run_program;

fn main(rt: HostRuntime) -> ExitCode {
    let mut output = rt.stdout();
    let mut messages = rt.stderr();
    let status = run_program(&rt, &rt, rt.alloc(), rt.stdin(), &mut output, &mut messages);
    ExitCode::from(status)
}
