//! The errors of a builder.

use std::fmt;
use thiserror::Error;

/// The error of a builder that refuses a call. Of several that hold, a call returns the one that it
/// lists first.
#[derive(Clone, Copy, Debug, PartialEq, Eq, Error)]
pub enum SpoolFault {
    /// The octets are no group name (RFC 3977, section 4.1).
    BadName,
    /// A group of this name was added before.
    DuplicateGroup,
    /// No group of this name was added. It has to be added before its numbers.
    UnknownGroup,
    /// The number is 0 or above the limit of article numbers (RFC 3977, section 6).
    BadNumber,
    /// The octets are no message-id (RFC 3977, section 3.6).
    BadId,
    /// The group has the number already, with this id or another.
    DuplicateNumber,
    /// Another number of the group has the id, or the id has an article already.
    DuplicateId,
    /// The head lines are no head (RFC 3977, section 3.6), or say another id (RFC 1036,
    /// section 2.1.5).
    BadHead,
    /// A line of the body has a NUL, a CR or an LF.
    BadBody,
    /// The id of a number has no article.
    UnknownId,
    /// Memory was refused. Each later call fails.
    Memory,
    /// Memory was refused to an earlier call.
    Failed,
}

impl fmt::Display for SpoolFault {
    fn fmt<W: fmt::Write>(&self, f: &mut fmt::Formatter<W>) -> fmt::Result {
        f.write_str(match self {
            SpoolFault::BadName => "no group name",
            SpoolFault::DuplicateGroup => "the group is there already",
            SpoolFault::UnknownGroup => "no such group",
            SpoolFault::BadNumber => "no article number",
            SpoolFault::BadId => "no message id",
            SpoolFault::DuplicateNumber => "the group has the number already",
            SpoolFault::DuplicateId => "the id is there already",
            SpoolFault::BadHead => "no head of this article",
            SpoolFault::BadBody => "no body",
            SpoolFault::UnknownId => "an id has no article",
            SpoolFault::Memory => "out of memory",
            SpoolFault::Failed => "failed before",
        })
    }
}
