//! The answers of `verify`.

/// The outcome of [`verify`](crate::verify): whether a given spool explains a session.
#[derive(Clone, Copy, Debug, PartialEq, Eq)]
pub enum Verified {
    /// The spool explains both streams, with so many answers, the greeting among them.
    Permits { answers: u64 },
    /// The spool doesn't explain the answer at this index together with those before it, and it is
    /// the first such answer. The greeting has index 0.
    Refuses { index: u64 },
}
