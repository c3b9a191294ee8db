//! What tests of several crates call that run tasks: the tasks by a choice, and what a run answers and writes.
#![tactic(auto)]

mod runs;
mod tasks;

pub use runs::written;
pub use tasks::{check_task, explain_task, verify_task};
