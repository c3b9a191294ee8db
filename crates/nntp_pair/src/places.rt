//! The places of a session: the greeting's, and one for each line of the client.
ghost use Rattle.std.specs.Prelude.{◌≡◌, [], ◌∷◌, MatchOption, length, count_by};
ghost use Rattle.std.specs.Option.{option_copied};
ghost use Rattle.nntp_wire.specs.Lines.{lines_of_stream};
ghost use Rattle.nntp_pair.specs.Pairing.{has_line, places_of};
ghost use Rattle.nntp_wire.specs.Session.{taken};

use crate::place::Place;
use nntp_wire::{Overviews, split_first_line};
use std::marker::Model;

/// The places from one on.
#[derive(Drop)]
pub(crate) struct Places<'a> {
    /// Whether the greeting's place is behind.
    is_greeted: bool,
    overviews: Overviews,
    client: &'a [u8],
}

impl<'a> Model for Places<'a> {
    ghost use Rattle.std.specs.Prelude.{List};
    ghost use Rattle.nntp_wire.specs.Session.{taken};
    ghost use Rattle.nntp_pair.specs.Pairing.{Place as PlaceValue};
    ghost use Rattle.nntp_pair.specs.Inner.Pairing.{places_from};

    ghost Value = { List PlaceValue };

    ghost view = { λ p. places_from p.is_greeted (taken p.overviews p.client.now) };
}

impl<'a> Places<'a> {
    /// All places of a session, where overviews are taken so.
    pub(crate) fn new(overviews: Overviews, client: &'a [u8]) -> Places<'a>
        ensures { result ≡ places_of (taken overviews client.now) }
    {
        Places {
            is_greeted: false,
            overviews,
            client,
        }
    }

    /// The first place, and those behind it.
    pub(crate) fn split_first(&self) -> Option<(Place<'a>, Places<'a>)>
        ensures { MatchOption result (self.now ≡ []) (λ p. self.now ≡ p.0 ∷ p.1) }
    {
        let (line, client) = match self.is_greeted {
            true => {
                let (line, client) = split_first_line(self.client)?;
                (Some(line), client)
            }
            false => (None, self.client),
        };
        let overviews = self.overviews;
        let behind = Places {
            is_greeted: true,
            overviews,
            client,
        };
        Some((Place::new(overviews, line), behind))
    }

    /// How many places have a line.
    pub(crate) fn count_lines(&self) -> u64
        ensures { result ≡ count_by has_line self.now }
    {
        count_lines(self.client)
    }
}

/// How many lines a stream has.
pub(crate) fn count_lines(stream: &[u8]) -> u64
    ensures { result ≡ length (lines_of_stream stream.now) }
{
    let mut count = 0;
    let mut rest = stream;
    while let Some((_, behind)) = split_first_line(rest) {
        rest = behind;
        count += 1;
    }
    count
}
