//! The error of noting an exchange among the facts of sessions.
use thiserror::Error;

/// The error of [`Facts::note`](crate::Facts::note), which comes for want of memory alone.
#[derive(Clone, Copy, Debug, PartialEq, Eq, Error)]
pub enum FactsError {
    /// Memory was refused. From now on each call fails.
    #[error("out of memory")]
    Memory,
    /// Memory was refused to an earlier call, and what is kept says nothing of use.
    #[error("failed before")]
    Failed,
}
