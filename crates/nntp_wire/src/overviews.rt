//! The two ways to take the commands that ask for overviews.

/// The way in which the commands that ask for overviews are taken, with what answers them: OVER and XOVER, and HDR and XHDR
/// of Message-ID with a range (RFC 3977, sections 8.3 and 8.5; RFC 2980, sections 2.6 and 2.8).
#[derive(Clone, Copy, Debug, PartialEq, Eq)]
pub enum Overviews {
    /// They are opaque: their responses are framed, and nothing is concluded from them.
    Opaque,
    /// Each line of an overview says which article is at a number, and what four headers of it are.
    Judged,
}
