//! Explains recorded sessions: each bad answer, where its session stands there, and why it is bad.
//!
//! `explain` reads a session to its end, behind bad answers too, and writes the report on it; `explain_taking` is told how
//! overviews are taken in it. `explain_sessions` does so of several sessions of one spool.
#![tactic(auto)]

mod ask;
mod conflict;
mod contradiction;
mod ending;
mod explainer;
pub mod laws;
mod reasons;
mod said_fields;
mod said_numbers;
mod said_overviews;
mod said_parts;
mod says;
mod sessions;
mod unfitting;

pub use sessions::{Explanation, explain, explain_sessions, explain_taking};
