//! Worked sessions: what the client and the server sent, the verdict, and spools that are put to it.
mod articles;
mod current_articles;
mod ends;
mod groups;
mod lists_of_groups;
mod lists_of_numbers;
mod numbers;
mod strict_marks;
pub(crate) mod texts;
mod wide_numbers;

use crate::choice::Choice;
use nntp_spool::Verified;
use std::alloc::{AllocError, Global};

/// A session by name.
#[derive(Clone, Copy)]
pub struct Session {
    pub name: &'static str,
    /// What the client sent, and what the server sent.
    pub client: &'static str,
    pub server: &'static str,
    /// By what it is judged.
    pub choice: Choice,
    /// The lines of the report of `check` that come before a spool's text.
    pub verdict: &'static str,
    /// The text of the given spool, and what `verify` answers of it. Where an answer is bad, it is the
    /// spool that is given for the answers before.
    pub given: (&'static str, Verified),
    /// The texts of other spools, and what `verify` answers of each.
    pub others: &'static [(&'static str, Verified)],
}

/// Each of them, table after table. A function is checked with all that the constants in it hold, so each table has one.
pub fn each_session(alloc: Global) -> Result<Vec<&'static Session>, AllocError> {
    let mut sessions = Vec::new(alloc);
    for table in [
        ends::sessions(),
        groups::sessions(),
        lists_of_groups::sessions(),
        lists_of_numbers::sessions(),
        numbers::sessions(),
        current_articles::sessions(),
        articles::sessions(),
        wide_numbers::sessions(),
        strict_marks::sessions(),
    ] {
        for session in table {
            sessions.push(session)?;
        }
    }
    Ok(sessions)
}

impl Session {
    /// Whether some spool explains it.
    pub fn is_consistent(&self) -> bool {
        self.verdict.starts_with("consistent ")
    }

    /// What the client sent, and what the server sent.
    pub fn streams(&self) -> (&'static [u8], &'static [u8]) {
        (self.client.as_bytes(), self.server.as_bytes())
    }

    /// The report of `check` on it.
    pub fn report(&self, alloc: Global) -> Result<String, AllocError> {
        report(alloc, self.verdict, self.given.0)
    }

    /// The capture of both streams, each in one piece.
    pub fn capture(&self, alloc: Global) -> Result<String, AllocError> {
        capture(alloc, self.client, self.server)
    }
}

/// The lines of a verdict, and behind a yes the text of the given spool.
pub fn report(alloc: Global, verdict: &str, given: &str) -> Result<String, AllocError> {
    let mut report = String::from_str(alloc, verdict)?;
    if verdict.starts_with("consistent ") {
        report.push_str(given)?;
    }
    Ok(report)
}

/// The capture of two streams, each in one piece.
pub fn capture(alloc: Global, client: &str, server: &str) -> Result<String, AllocError> {
    format!(in alloc;
        "client {}\n{client}server {}\n{server}",
        client.len(),
        server.len()
    )
}

/// A capture, and behind it the text of a spool in one piece.
pub fn with_spool(alloc: Global, capture: &str, text: &str) -> Result<String, AllocError> {
    format!(in alloc; "{capture}spool {}\n{text}", text.len())
}

/// The report of `verify`.
pub fn verified_report(alloc: Global, verified: Verified) -> Result<String, AllocError> {
    match verified {
        Verified::Permits { answers } => format!(in alloc; "permits answers={answers}\n"),
        Verified::Refuses { index } => format!(in alloc; "refuses answer {index}\n"),
    }
}
