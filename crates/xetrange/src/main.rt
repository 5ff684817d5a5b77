//! The program `xetrange`: ranges of a file are made separately and merged without their chunks.
#![tactic(auto)]

use std::env;
use std::process::ExitCode;
use xetrange_text::program::program;

fn main(rt: HostRuntime) -> ExitCode {
    let (alloc, args) = (rt.alloc(), env::args(&rt));
    let (r, w, errors) = (&mut rt.stdin(), &mut rt.stdout(), &mut rt.stderr());
    ExitCode::from(program(alloc, alloc, args, r, w, errors))
}
