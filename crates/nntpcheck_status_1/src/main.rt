//! The program, for its stored run behind a no: strict marks contradict, and it ends with status 1.
#![tactic(auto)]

use nntp_check::{Watched, run_program};
use std::process::ExitCode;

fn main(rt: HostRuntime) -> ExitCode {
    let mut input = Watched::new(rt.stdin());
    let mut output = Watched::new(rt.stdout());
    run_program(&rt, &mut input, &mut output)
}
