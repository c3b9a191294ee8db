//! The headers that an article has to have (RFC 1036, section 2.1).

/// Which of the six required headers are missing from a head: `true` where no header has the name.
#[derive(Clone, Copy, PartialEq, Eq)]
pub struct Missing {
    /// No header is named From (RFC 1036, section 2.1.1).
    pub from: bool,
    /// No header is named Date (RFC 1036, section 2.1.2).
    pub date: bool,
    /// No header is named Newsgroups (RFC 1036, section 2.1.3).
    pub newsgroups: bool,
    /// No header is named Subject (RFC 1036, section 2.1.4).
    pub subject: bool,
    /// No header is named Message-ID (RFC 1036, section 2.1.5).
    pub message_id: bool,
    /// No header is named Path (RFC 1036, section 2.1.6).
    pub path: bool,
}
