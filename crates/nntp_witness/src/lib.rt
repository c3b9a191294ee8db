//! The given spool of sessions, which is made of what their answers say and permits each of them.
#![tactic(auto)]

mod article;
mod given_spool;
mod invented;
mod maker;

pub use given_spool::witness;
