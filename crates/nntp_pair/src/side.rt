//! The two sides of a session.

/// A side of a session. What it sends is a stream of octets.
#[derive(Clone, Copy, PartialEq, Eq)]
pub enum Side {
    /// The client, which sends lines.
    Client,
    /// The server, which answers them.
    Server,
}
