//! Both streams as they come, in pieces.
ghost use Rattle.std.specs.Prelude.{◌≡◌, ◌++◌, ◌∷◌, [], ℕ, List, MatchResult};
ghost use Rattle.std.specs.Option.{option_copied};
ghost use Rattle.nntp_pair.specs.Pairing.{Paired, Unpaired, IsNext, line_ahead};
ghost use Rattle.nntp_pair.specs.Inner.Feeding.{Fed, IsFed, IsTaken, IsUntaken, IsPeek, IsEnding, left_of, unfed, refused};
ghost use Rattle.nntp_pair.specs.Pairing.{HasNext};
ghost use Rattle.nntp_wire.specs.Session.{ClientStream, taken};
ghost use Rattle.nntp_wire.specs.declared.overviews.Overviews.TheVariants.{Opaque};
ghost use Rattle.nntp_pair.specs.declared.side.Side.TheVariants.{Client, Server};

use crate::buffer::{Buffer, extend};
use crate::class::PairClass;
use crate::ending::Ending;
use crate::exchange::Exchange;
use crate::octet_counts::OctetCounts;
use crate::pair_error::PairError;
use crate::pairs::Ahead;
use crate::peek::Peek;
use crate::places::count_lines;
use crate::searches::Searches;
use crate::side::Side;
use nntp_wire::{Answer, Overviews};
use std::alloc::{Allocator, Global};
use std::marker::Model;

/// Both streams as they come, in pieces of any size and in any order between the streams. It holds the octets that
/// [`advance`](Feed::advance) hasn't passed.
#[derive(Drop)]
pub struct Feed<A: Allocator = Global> {
    /// How overviews are taken.
    overviews: Overviews,
    client: Buffer<A>,
    server: Buffer<A>,
    /// Of the next place.
    index: u64,
    is_closed: bool,
    counts: OctetCounts,
    has_failed: bool,
    searches: Searches,
}

impl<A: Allocator> Model for Feed<A> {
    ghost use Rattle.nntp_wire.specs.Session.{taken};
    ghost use Rattle.nntp_pair.specs.Inner.Feeding.{Fed};
    ghost use Rattle.nntp_pair.specs.Inner.Searching.{IsInStep};

    ghost Value = { Fed };

    ghost view = { λ f. record {
      index = f.index;
      client = taken f.overviews f.client;
      server = f.server;
      is_closed = f.is_closed;
      counts = f.counts;
      has_failed = f.has_failed;
    } };

    ghost invariant = { λ f. IsInStep f.index f.is_closed (taken f.overviews f.client) f.server f.counts.server f.searches };
}

impl<A: Allocator + Copy> Feed<A> {
    /// A feed to which nothing has come, where overviews are opaque.
    pub fn new(alloc: A) -> Feed<A>
        ensures value { result ≡ unfed Opaque }
        ensures fed { IsFed result (taken Opaque []) [] [] }
    {
        Feed::taking(alloc, Overviews::Opaque)
    }

    /// A feed to which nothing has come, where overviews are taken so.
    pub fn taking(alloc: A, overviews: Overviews) -> Feed<A>
        ensures value { result ≡ unfed overviews }
        ensures fed { IsFed result (taken overviews []) [] [] }
    {
        Feed {
            overviews,
            client: Buffer::new(alloc),
            server: Buffer::new(alloc),
            index: 0,
            is_closed: false,
            counts: OctetCounts {
                client: 0,
                server: 0,
            },
            has_failed: false,
            searches: Searches::new(0, false, overviews, &[], &[]),
        }
    }

    /// Takes the next octets of a side's stream.
    ///
    /// # Errors
    ///
    /// `Failed` where memory was refused to an earlier call; else `TooLong` where the stream would have more than
    /// 2^64 - 1 octets; both leave the feed as it was. `Memory` where memory is refused: then the feed holds no octets
    /// any more, and each later call answers `Failed`.
    pub fn feed(&mut self, side: Side, piece: &[u8]) -> Result<(), PairError>
        ensures { MatchResult result (λ _. IsTaken side piece.now self.old self.new) (λ error. IsUntaken error side piece.now self.old self.new) }
    {
        if self.has_failed {
            return Err(PairError::Failed);
        }
        let Some(counts) = self.counts.with(side, piece) else {
            return Err(PairError::TooLong);
        };
        let Ok(()) = extend(&mut self.client, &mut self.server, side, piece) else {
            self.refuse();
            return Err(PairError::Memory);
        };
        self.counts = counts;
        let (client, server) = (self.client.as_slice(), self.server.as_slice());
        let overviews = self.overviews;
        self.searches
            .go_on(self.index, self.is_closed, overviews, client, server);
        Ok(())
    }

    /// Takes the next octets of the client's stream.
    ///
    /// # Errors
    ///
    /// Those of [`feed`](Feed::feed).
    pub fn feed_client(&mut self, piece: &[u8]) -> Result<(), PairError>
        ensures { MatchResult result (λ _. IsTaken Client piece.now self.old self.new) (λ error. IsUntaken error Client piece.now self.old self.new) }
    {
        self.feed(Side::Client, piece)
    }

    /// Takes the next octets of the server's stream.
    ///
    /// # Errors
    ///
    /// Those of [`feed`](Feed::feed).
    pub fn feed_server(&mut self, piece: &[u8]) -> Result<(), PairError>
        ensures { MatchResult result (λ _. IsTaken Server piece.now self.old self.new) (λ error. IsUntaken error Server piece.now self.old self.new) }
    {
        self.feed(Side::Server, piece)
    }

    /// The next exchange, if it is whole, or whether none can come any more.
    pub fn peek(&self) -> Peek<'_>
        ensures { IsPeek self.now result }
    {
        if self.has_failed {
            return Peek::Failed;
        }
        let index = self.index;
        let (client, server) = (self.client.as_slice(), self.server.as_slice());
        if self.is_closed {
            let class = PairClass::Surplus;
            return match server.is_empty() {
                true => Peek::Nothing,
                false => Peek::Bad { index, class },
            };
        }
        let Some((place, _)) = self.searches.split_place(index, self.overviews, client) else {
            return Peek::Nothing;
        };
        let Some(search) = self.searches.frame else {
            return Peek::Nothing;
        };
        let Some(frame) = search.frame(server) else {
            return Peek::Nothing;
        };
        let prompt = place.prompt();
        let Ok(answer) = Answer::parse(&prompt, &frame) else {
            let class = PairClass::Malformed;
            return Peek::Bad { index, class };
        };
        Peek::Whole(Exchange::new(index, place, prompt, &frame, answer, server))
    }

    /// Goes behind the exchange that waits, and gives its octets back. The caller has to know that one waits:
    /// [`peek`](Feed::peek) answers `Whole`.
    pub fn advance(&mut self)
        requires { HasNext (left_of self.old) }
        ensures next { (pair : Paired) × IsNext (left_of self.old) pair (left_of self.new) }
        ensures fed { (client : ClientStream) (server : List ℕ) (pairs : List Paired) (pair : Paired) (behind : Unpaired) → IsFed self.old client server pairs
            → IsNext (left_of self.old) pair behind → IsFed self.new client server (pairs ++ pair ∷ []) }
        ensures counts { self.new.counts ≡ self.old.counts }
        ensures has_failed { self.new.has_failed ≡ self.old.has_failed }
    {
        let (client, server) = (self.client.as_slice(), self.server.as_slice());
        let overviews = self.overviews;
        let Some((_, rest)) = self.searches.split_place(self.index, overviews, client) else {
            unreachable!();
        };
        let Some(search) = self.searches.frame else {
            unreachable!();
        };
        let Some(frame) = search.frame(server) else {
            unreachable!();
        };
        let (line_len, frame_len) = (client.len() - rest.len(), frame.len());
        self.is_closed = frame.closes(search.kind());
        self.index += 1;
        self.client.pass(line_len);
        self.server.pass(frame_len);
        let (client, server) = (self.client.as_slice(), self.server.as_slice());
        self.searches = Searches::new(self.index, self.is_closed, overviews, client, server);
    }

    /// How the pairing ends, if no more octets come.
    pub fn finish(&self) -> Ending
        ensures { IsEnding self.now result }
    {
        match self.peek() {
            Peek::Whole(_) => Ending::More,
            Peek::Nothing => self.end(),
            Peek::Bad { index, class } => Ending::Bad { index, class },
            Peek::Failed => Ending::Failed,
        }
    }

    /// How the pairing ends where no exchange waits, and no octets are bad for good.
    fn end(&self) -> Ending
        requires { IsPeek self.now Peek.Nothing }
        ensures { IsEnding self.now result }
    {
        if self.server.as_slice().is_empty() {
            let unanswered = count_lines(self.client.as_slice());
            return Ending::End { unanswered };
        }
        let class = match self.searches.frame {
            Some(_) => PairClass::Cut,
            None => PairClass::Surplus,
        };
        Ending::Bad {
            index: self.index,
            class,
        }
    }

    /// Memory is refused: it holds no octets any more.
    fn refuse(&mut self)
        ensures { self.new ≡ refused self.old }
    {
        self.client.clear();
        self.server.clear();
        self.has_failed = true;
        self.searches = Searches::new(self.index, self.is_closed, self.overviews, &[], &[]);
    }

    /// The client's line at the next place, and the octets of the server's stream behind the exchanges that have passed.
    /// Where memory was refused there is no line and no octet.
    pub fn ahead(&self) -> Ahead<'_>
        ensures line { option_copied result.line ≡ line_ahead (left_of self.now).places }
        ensures rest { result.rest.now ≡ self.now.server }
    {
        let client = self.client.as_slice();
        let line = match self
            .searches
            .split_place(self.index, self.overviews, client)
        {
            Some((place, _)) => place.line(),
            None => None,
        };
        Ahead {
            line,
            rest: self.server.as_slice(),
        }
    }

    /// How many octets came of each stream.
    pub fn counts(&self) -> OctetCounts
        ensures { result ≡ self.now.counts }
    {
        self.counts
    }

    /// The index of the next place, which is how many exchanges have passed.
    pub fn index(&self) -> u64
        ensures { result ≡ self.now.index }
    {
        self.index
    }
}
