//! The program, for its stored run with a word too many: nothing is read or written, and it ends with status 2.
#![tactic(auto)]

use nntp_check::{Watched, run_program};
use std::process::ExitCode;

fn main(rt: HostRuntime) -> ExitCode {
    let mut input = Watched::new(rt.stdin());
    let mut output = Watched::new(rt.stdout());
    run_program(&rt, &mut input, &mut output)
}
