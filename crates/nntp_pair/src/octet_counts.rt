//! How many octets came of both streams.
ghost use Rattle.std.specs.Prelude.{◌≡◌, ◌≤◌, ◌<◌, ◌^◌, ◌+◌, length, MatchOption};
ghost use Rattle.nntp_pair.specs.Inner.Sides.{given, count_of, counted};
ghost use Rattle.nntp_pair.specs.declared.side.Side.TheVariants.{Client, Server};

use crate::side::Side;

/// How many octets came of each stream.
#[derive(Clone, Copy, PartialEq, Eq)]
pub struct OctetCounts {
    /// Of the client's.
    pub client: u64,
    /// Of the server's.
    pub server: u64,
}

impl OctetCounts {
    /// The counts with these octets of a side more. None: that side's would be more than 2^64 - 1.
    pub fn with(self, side: Side, octets: &[u8]) -> Option<OctetCounts>
        ensures { MatchOption result (2 ^ 64 ≤ count_of side self + length octets.now)
            (λ counts. (count_of side self + length octets.now < 2 ^ 64)
            × (counts ≡ counted (given Client side octets.now) (given Server side octets.now) self)) }
    {
        let more = octets.len() as u64;
        match side {
            Side::Client => Some(OctetCounts {
                client: self.client.checked_add(more)?,
                server: self.server,
            }),
            Side::Server => Some(OctetCounts {
                client: self.client,
                server: self.server.checked_add(more)?,
            }),
        }
    }
}
