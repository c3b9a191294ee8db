//! Several sessions of one spool: when a spool explains them all, which answer is bad, and what that rests on.
//!
//! `verify_sessions` tells whether a given spool explains them.
#![tactic(auto)]

pub mod laws;
mod recorded;
mod verifying;

pub use recorded::{Named, Recorded};
pub use verifying::{VerifiedSessions, verify_sessions};
