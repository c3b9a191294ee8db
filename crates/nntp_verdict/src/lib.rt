//! The verdict on recorded sessions: whether one fixed spool explains all that a server answered.
//!
//! `check` judges the two streams of a session, `check_sessions` those of several, and `Checker` judges them as they come.
#![tactic(auto)]

mod checker;
mod judge;
pub mod laws;
mod sessions_verdict;
mod verdict;

pub use checker::Checker;
pub use judge::{check, check_sessions};
pub use nntp_several::Recorded;
pub use sessions_verdict::SessionsVerdict;
pub use verdict::Verdict;
