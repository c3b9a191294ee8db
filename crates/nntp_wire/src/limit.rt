//! The limit of article numbers.
ghost use Rattle.std.specs.Prelude.{◌≡◌};
ghost use Rattle.nntp_wire.specs.Limit.{greatest};

/// The limit of article numbers, which says how large they may be (RFC 3977, section 6).
#[derive(Clone, Copy, Debug, PartialEq, Eq)]
pub enum Limit {
    /// Article numbers have 31 bits at most, up to 2,147,483,647, as RFC 3977 asks (section 6).
    Narrow,
    /// Article numbers have 16 digits at most, up to 9,999,999,999,999,999: as many as a number on
    /// the wire may have (RFC 3977, section 9.8).
    Wide,
}

impl Limit {
    /// Returns the greatest article number within the limit.
    pub fn value(self) -> u64
        ensures { result ≡ greatest self }
    {
        match self {
            Limit::Narrow => 2_147_483_647,
            Limit::Wide => 9_999_999_999_999_999,
        }
    }
}
