//! The faults of octets that are the text of no spool.
ghost use Rattle.std.specs.Prelude.{◌≡◌};
ghost use Rattle.nntp_store.specs.declared.text.read_fault.ReadError.TheVariants.{Memory};

use std::alloc::{AllocError, AllocFailed};
use thiserror::Error;

/// The kind of a fault: what is wrong with a line of the text.
#[derive(Clone, Copy, Debug, PartialEq, Eq)]
pub enum Kind {
    /// The line has no form that may stand there, or no LF; or the text ends before it; or it
    /// stands behind `end`.
    Shape,
    /// The name is no group name (RFC 3977, section 4.1).
    Name,
    /// The number is 0 or above the limit of article numbers (RFC 3977, section 6).
    Number,
    /// The id is no message-id (RFC 3977, section 3.6).
    Id,
    /// The name, number or id isn't greater than the one before it in the same list.
    Order,
    /// The id stands at an earlier number of the same group.
    DuplicateId,
    /// The head lines are no head, or the head says another id. The fault is told of the first line
    /// of the article.
    Head,
    /// The id of a number has no article. The fault is told of the line `end`.
    UnknownId,
    /// Memory was refused. The fault is told of line 0.
    Memory,
}

/// The first fault of a text, or want of memory.
#[derive(Clone, Copy, Debug, PartialEq, Eq, Error)]
#[error("spool line {line} {kind:?}")]
pub struct ReadFault {
    /// The number of the line, which counts from 1; or 0, where memory was refused.
    pub line: u64,
    /// The kind of the fault. Of the kinds that hold on that line, it is the one that is looked at
    /// first, in the order of [`Kind`].
    pub kind: Kind,
}

/// The error of reading a text: a fault of the text, or want of memory.
#[derive(Drop)]
pub(crate) enum ReadError {
    /// Memory was refused.
    Memory,
    /// The text has this fault.
    Fault(ReadFault),
}

impl From<AllocError> for ReadError {
    ghost from_gives = { λ _ e. e ≡ Memory };

    fn from(_e: AllocError) -> ReadError {
        ReadError::Memory
    }
}

impl<T: Drop> From<AllocFailed<T>> for ReadError {
    ghost from_gives = { λ _ e. e ≡ Memory };

    fn from(_e: AllocFailed<T>) -> ReadError {
        ReadError::Memory
    }
}
