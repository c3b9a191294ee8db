//! The three numbers that a 211 reports of a group (RFC 3977, section 6.1.1).
ghost use Rattle.std.specs.Prelude.{◌≡◌};

/// The three numbers of a 211: the estimate, and the reported low and high water marks (RFC 3977,
/// section 6.1.1.2). All three may be 0 for an empty group.
#[derive(Clone, Copy, PartialEq, Eq)]
pub struct WaterMarks {
    /// The estimated number of articles in the group, which has at most so many.
    pub estimate: u64,
    /// The reported low water mark: no article number of the group is below it.
    pub low: u64,
    /// The reported high water mark: no article number of the group is above it.
    pub high: u64,
}

impl WaterMarks {
    /// Puts the three numbers together, in the order in which a 211 gives them.
    pub fn new(estimate: u64, low: u64, high: u64) -> WaterMarks
        ensures { result ≡ record { estimate = estimate; low = low; high = high } }
    {
        WaterMarks {
            estimate,
            low,
            high,
        }
    }
}
