//! Reads a capture from standard input, and writes what is asked of it to standard output.
#![tactic(auto)]

use nntp_check::{Watched, run_program};
use std::process::ExitCode;

fn main(rt: HostRuntime) -> ExitCode {
    let mut input = Watched::new(rt.stdin());
    let mut output = Watched::new(rt.stdout());
    run_program(&rt, &mut input, &mut output)
}
