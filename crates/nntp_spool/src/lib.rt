//! The spool of a news server, put to the streams of a session. What a spool is, how it is built, and
//! its text are those of nntp_store, and are handed on.
#![tactic(auto)]

pub mod laws;
mod verification;

pub use nntp_store::{
    Article, Counts, Kind, ReadFault, Spool, SpoolBuilder, SpoolFault, Watched, WriteFault, put,
};
pub use verification::{Verified, verify, verify_taking};
