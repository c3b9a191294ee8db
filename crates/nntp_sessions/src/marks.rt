//! Sessions that are noted by lenient and by strict marks: which answer is the first that is bad, or what is known
//! of the groups.
mod estimates;
mod lists;
mod more_pairs;
mod one_pair;

use std::alloc::{AllocError, Global};

/// How the noting of a session ends.
#[derive(Clone, Copy)]
pub enum Outcome {
    /// So many answers are consistent, which are all, and these are the lines of the groups.
    Consistent(u64, &'static str),
    /// The answer of this index is the first that is bad.
    OutOfPlace(u64),
    Contradiction(u64),
}

/// A session, and how its noting ends by marks of each kind.
#[derive(Clone, Copy)]
pub struct Row {
    pub name: &'static str,
    /// What the client sent, and what the server sent.
    pub client: &'static str,
    pub server: &'static str,
    pub lenient: Outcome,
    pub strict: Outcome,
}

/// Each of them, table after table.
pub fn each_row(alloc: Global) -> Result<Vec<&'static Row>, AllocError> {
    let mut rows = Vec::new(alloc);
    for table in [
        one_pair::rows(),
        more_pairs::rows(),
        estimates::rows(),
        lists::rows(),
    ] {
        for row in table {
            rows.push(row)?;
        }
    }
    Ok(rows)
}

impl Row {
    /// What the client sent, and what the server sent.
    pub fn streams(&self) -> (&'static [u8], &'static [u8]) {
        (self.client.as_bytes(), self.server.as_bytes())
    }
}
