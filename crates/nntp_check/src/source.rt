//! Whose octets a capture has.

/// Whose octets a piece of a capture has: a side's, those of a spool's text, or those of the name of a session, which it
/// begins.
#[derive(Clone, Copy)]
pub(crate) enum Source {
    Client,
    Server,
    Spool,
    Session,
}
