//! Whether an exchange may stand behind those that were accepted.

/// Whether an exchange may stand behind those that were accepted.
#[derive(Clone, Copy, PartialEq, Eq)]
pub enum Noted {
    /// Some spool permits the exchange together with those before it, of all sessions, and it is
    /// accepted.
    Consistent,
    /// The command or the answers of the session before it rule the answer out, whatever the spool
    /// is.
    OutOfPlace,
    /// The answer fits what the session shows, but no spool permits it together with those before
    /// it, of all sessions.
    Contradiction,
}
