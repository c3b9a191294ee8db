//! What may vary between sessions.
ghost use Rattle.std.specs.Prelude.{◌≡◌};
ghost use Rattle.nntp_article.specs.Session.Limit.{profile_of};

use nntp_wire::{Limit, Marks};

/// What may vary between sessions: how large article numbers may be, and how marks are read.
#[derive(Clone, Copy, PartialEq, Eq)]
pub struct Profile {
    /// The greatest article number (RFC 3977, section 6).
    pub limit: u64,
    /// How the water marks of a 211 are read (RFC 3977, section 6.1.1.2).
    pub marks: Marks,
}

impl Profile {
    /// The profile of sessions whose article numbers go from 1 to the limit's value, and whose marks
    /// are read in this way.
    pub fn of(limit: Limit, marks: Marks) -> Profile
        ensures { result ≡ profile_of limit marks }
    {
        Profile {
            limit: limit.value(),
            marks,
        }
    }
}
