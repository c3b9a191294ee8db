//! The searches in both streams as they come.
ghost use Rattle.std.specs.Prelude.{◌≡◌, false, ℕ, List, [], nat_lt, MatchOption};
ghost use Rattle.nntp_wire.specs.Session.{taken};
ghost use Rattle.nntp_wire.specs.Inner.Search.{IsLineSearched, IsLineThrough};
ghost use Rattle.nntp_pair.specs.Inner.Pairing.{places_from};
ghost use Rattle.nntp_pair.specs.Inner.Searching.{AreSearched, AreThrough, BeginsWithPlace, IsForNext, left_from};

use crate::place::Place;
use nntp_wire::{FrameSearch, LineSearch, Overviews};

/// How far the searches have come in both streams, from the next place on.
#[derive(Clone, Copy)]
pub(crate) struct Searches {
    /// For the end of the client's first line.
    line: LineSearch,
    /// For the frame of the response at the next place, once that place is there.
    pub(crate) frame: Option<FrameSearch>,
}

impl Searches {
    /// Searches that have gone through these octets, from the place of this index on.
    pub(crate) fn new(
        index: u64,
        is_closed: bool,
        overviews: Overviews,
        client: &[u8],
        server: &[u8],
    ) -> Searches
        ensures searched { AreSearched (left_from index is_closed (taken overviews client.now) server.now) (taken overviews client.now) result }
        ensures through { AreThrough (left_from index is_closed (taken overviews client.now) server.now) (taken overviews client.now) result }
    {
        let mut searches = Searches {
            line: LineSearch::new(),
            frame: None,
        };
        searches.go_on(index, is_closed, overviews, client, server);
        searches
    }

    /// Goes on through these octets, of which the searches have seen these or fronts.
    pub(crate) fn go_on(
        &mut self,
        index: u64,
        is_closed: bool,
        overviews: Overviews,
        client: &[u8],
        server: &[u8],
    )
        requires { AreSearched (left_from index is_closed (taken overviews client.now) server.now) (taken overviews client.now) self.old }
        ensures searched { AreSearched (left_from index is_closed (taken overviews client.now) server.now) (taken overviews client.now) self.new }
        ensures through { AreThrough (left_from index is_closed (taken overviews client.now) server.now) (taken overviews client.now) self.new }
    {
        self.line.go_on(client);
        if is_closed {
            return;
        }
        if self.frame.is_none() {
            self.frame = self.begin_frame(index, overviews, client);
        }
        if let Some(search) = &mut self.frame {
            search.go_on(server);
        }
    }

    /// A search for the frame of the response at the next place, if that place is there.
    fn begin_frame(&self, index: u64, overviews: Overviews, client: &[u8]) -> Option<FrameSearch>
        requires searched { IsLineSearched client.now self.now.line }
        requires through { IsLineThrough client.now self.now.line }
        ensures { (server : List ℕ) → MatchOption result (places_from (nat_lt 0 index) (taken overviews client.now) ≡ [])
            (IsForNext (left_from index false (taken overviews client.now) server)) }
    {
        let (place, _) = self.split_place(index, overviews, client)?;
        Some(FrameSearch::new(place.kind()))
    }

    /// The next place, and the client's octets behind its line. None: the next line has not come to its end.
    pub(crate) fn split_place<'a>(
        &self,
        index: u64,
        overviews: Overviews,
        client: &'a [u8],
    ) -> Option<(Place<'a>, &'a [u8])>
        requires searched { IsLineSearched client.now self.now.line }
        requires through { IsLineThrough client.now self.now.line }
        ensures { MatchOption result (places_from (nat_lt 0 index) (taken overviews client.now) ≡ [])
            (λ p. BeginsWithPlace (nat_lt 0 index) (taken overviews client.now) p.0 p.1.now) }
    {
        if index == 0 {
            return Some((Place::new(overviews, None), client));
        }
        let (line, rest) = self.line.split(client)?;
        Some((Place::new(overviews, Some(line)), rest))
    }
}
