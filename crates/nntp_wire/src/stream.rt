//! A stream as lines (RFC 3977, section 3.1).
ghost use Rattle.std.specs.Prelude.{◌≡◌, ℕ, List, [], ◌∷◌, ◌++◌, MatchOption};
ghost use Rattle.nntp_wire.specs.Octets.{crlf};
ghost use Rattle.nntp_wire.specs.Lines.{HasNoCrlf, lines_of_stream};
ghost use Rattle.nntp_wire.specs.Inner.Search.{IsLineSearched, IsLineThrough};

use crate::search::Search;

/// A search for the end of the first line of a stream, which goes on as the stream grows (RFC 3977,
/// section 3.1).
#[derive(Clone, Copy, PartialEq, Eq)]
pub struct LineSearch {
    end: Search,
}

impl LineSearch {
    /// Begins a search.
    pub fn new() -> LineSearch
        ensures { (stream : List ℕ) → IsLineSearched stream result }
    {
        LineSearch { end: Search::new() }
    }

    /// Goes on with the search, up to the end of the stream. The stream begins with the octets that
    /// the search has gone through before, if any. It takes time in proportion to the octets that
    /// are new.
    pub fn go_on(&mut self, stream: &[u8])
        requires { IsLineSearched stream.now self.old }
        ensures searched { IsLineSearched stream.now self.new }
        ensures through { IsLineThrough stream.now self.new }
    {
        self.end.go_on(b"\r\n", stream);
    }

    /// Returns the octets of the first line, without its CRLF, and those behind that CRLF, once
    /// [`go_on`](LineSearch::go_on) has gone through this stream. No octet is looked at.
    ///
    /// Returns `None` if the stream has no CRLF.
    pub fn split<'a>(&self, stream: &'a [u8]) -> Option<(&'a [u8], &'a [u8])>
        requires searched { IsLineSearched stream.now self.now }
        requires through { IsLineThrough stream.now self.now }
        ensures parts { MatchOption result (HasNoCrlf stream.now) (λ p. HasNoCrlf p.0.now × (stream.now ≡ p.0.now ++ crlf ++ p.1.now)) }
        ensures lines { MatchOption result (lines_of_stream stream.now ≡ []) (λ p. lines_of_stream stream.now ≡ p.0.now ∷ lines_of_stream p.1.now) }
    {
        let Search::Found(end) = self.end else {
            return None;
        };
        let (line, rest) = stream.split_at(end);
        let (_, rest) = rest.split_at(2);
        Some((line, rest))
    }
}

/// Splits a stream into the octets of its first line, without CRLF, and those behind that CRLF
/// (RFC 3977, section 3.1).
///
/// Returns `None` if the stream has no CRLF.
pub fn split_first_line(stream: &[u8]) -> Option<(&[u8], &[u8])>
    ensures parts { MatchOption result (HasNoCrlf stream.now) (λ p. HasNoCrlf p.0.now × (stream.now ≡ p.0.now ++ crlf ++ p.1.now)) }
    ensures lines { MatchOption result (lines_of_stream stream.now ≡ []) (λ p. lines_of_stream stream.now ≡ p.0.now ∷ lines_of_stream p.1.now) }
{
    let mut search = LineSearch::new();
    search.go_on(stream);
    search.split(stream)
}
