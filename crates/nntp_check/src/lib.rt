//! Judges recorded NNTP sessions: whether one fixed spool explains all that a server answered.
//!
//! `check` judges the two streams of a session, `check_sessions` those of several of one spool, and `Checker` judges
//! them as they come. `run_check` judges those of a capture and writes the report on them; `run_verify` tells whether
//! the spool of a capture explains its sessions; `run_show` writes the sessions as a reader sees them; `run_explain`
//! writes all that is bad of them; `run_task` does what a command line asks for. `job` and `status` are the program's
//! command line and its exit status, and `run_program` is all that `main` does.
#![tactic(auto)]

mod capture_checker;
mod capture_reader;
mod command_line;
mod input;
pub mod laws;
mod program;
mod report;
mod run;
mod run_fault;
mod session_printer;
mod show;
mod sink;
mod source;
mod streams;

pub use command_line::{Failure, Task, job, refusal, status};
pub use nntp_pair::{Class, PairError as CheckError};
pub use nntp_several::Recorded;
pub use nntp_spool::{Counts, Kind, ReadFault, Spool, Watched, WriteFault};
pub use nntp_verdict::{Checker, SessionsVerdict, Verdict, check, check_sessions};
pub use nntp_wire::{Limit, Marks, Overviews};
pub use program::run_program;
pub use run::{run_check, run_explain, run_show, run_task, run_verify};
pub use run_fault::RunFault;
