//! Runs `words` or `dedup` of `tool_lines` over files or its input.
#![tactic(auto)]

use std::process::ExitCode;
use tool_lines::program::{Host, PIECE, run_program};
use tool_lines::texts::SystemFiles;

fn main(rt: HostRuntime) -> ExitCode {
    let files = SystemFiles { files: &rt };
    let mut output = rt.stdout();
    let mut messages = rt.stderr();
    let host = Host {
        rt: &rt,
        files: &files,
        alloc: rt.alloc(),
        piece: PIECE,
    };
    let status = run_program(&rt, &host, rt.stdin(), &mut output, &mut messages);
    ExitCode::from(status)
}
