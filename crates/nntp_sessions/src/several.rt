//! Several sessions of one spool: pairs of which some spool explains each alone and none both, and lists of sessions in
//! their order.
mod lists;
mod pairs;

use crate::sessions::report;
use std::alloc::{AllocError, Global};

/// A session that some spool explains alone, and none together with the other one of its pair.
#[derive(Clone, Copy)]
pub struct Alone {
    /// What the client sent, and what the server sent.
    pub client: &'static str,
    pub server: &'static str,
    /// The text of the spool that is given for it alone, and how many answers it has.
    pub given: (&'static str, u64),
    /// Behind the other session: the index of the answer that is bad, the command, and the first line of the answer. The
    /// spool that is given for the other one explains the answers before it.
    pub behind: (u64, &'static str, &'static str),
}

/// Two sessions by name. Which of their answers is bad hangs on which comes first.
#[derive(Clone, Copy)]
pub struct SessionPair {
    pub name: &'static str,
    pub one: Alone,
    pub other: Alone,
}

/// Sessions by name, in their order.
#[derive(Clone, Copy)]
pub struct SessionList {
    pub name: &'static str,
    /// What the client sent, and what the server sent, of each.
    pub sessions: &'static [(&'static str, &'static str)],
    /// How many answers each has; or the session that is bad, counted from 0, and the report of `check` on its answer.
    pub verdict: &'static str,
    /// The text of the given spool. Where an answer is bad, it is the spool that is given for all before it.
    pub given: &'static str,
    /// What `verify_sessions` answers of it.
    pub verified: &'static str,
}

impl SessionList {
    /// The verdict, and behind a yes the text of the given spool.
    pub fn report(&self, alloc: Global) -> Result<String, AllocError> {
        report(alloc, self.verdict, self.given)
    }
}

const PAIRS: &[SessionPair] = &pairs::PAIRS;

const LISTS: &[SessionList] = &lists::LISTS;

/// The pairs, one for each thing that sessions can contradict each other about.
pub fn session_pairs() -> &'static [SessionPair] {
    PAIRS
}

/// The lists: those that some spool explains, and those in which an answer is bad.
pub fn session_lists() -> &'static [SessionList] {
    LISTS
}
