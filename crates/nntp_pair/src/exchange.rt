//! A response with what it answers.
ghost use Rattle.std.specs.Prelude.{◌≡◌, ◌<◌, ◌^◌, drop};
ghost use Rattle.std.specs.Option.{option_copied};
ghost use Rattle.nntp_wire.specs.Inner.AnswerView.{response};
ghost use Rattle.nntp_wire.specs.Answer.{Spells};
ghost use Rattle.nntp_wire.specs.Frame.{HasFrame, frame_octets};
ghost use Rattle.nntp_wire.specs.Session.{closes};
ghost use Rattle.nntp_wire.specs.Inner.View.{asked};
ghost use Rattle.nntp_pair.specs.Pairing.{IsAnswered, asked_at};
ghost use Rattle.nntp_pair.specs.Inner.Pairing.{IsSpelled, lines_in};

use crate::place::Place;
use nntp_wire::{Answer, Frame, Prompt};
use std::marker::Model;

/// A response of the server with what it answers. Only `Pairs::next` and `Feed::peek` make one.
#[derive(Drop)]
pub struct Exchange<'a> {
    index: u64,
    place: Place<'a>,
    initial: &'a [u8],
    prompt: Prompt<'a>,
    answer: Answer<'a>,
}

impl<'a> Model for Exchange<'a> {
    ghost use Rattle.std.specs.Prelude.{◌≡◌, ◌<◌, ◌^◌};
    ghost use Rattle.nntp_wire.specs.Inner.AnswerView.{response};
    ghost use Rattle.nntp_wire.specs.Inner.View.{asked};
    ghost use Rattle.nntp_pair.specs.Pairing.{Paired, asked_at};
    ghost use Rattle.nntp_pair.specs.Inner.Pairing.{IsSpelled, lines_in};

    ghost Value = { Paired };

    ghost view = { λ x. record { index = x.index; place = x.place; initial = x.initial.now; response = response x.answer } };

    ghost invariant = { λ x. (x.index < 2 ^ 63) × (asked x.prompt ≡ asked_at x.place)
        × IsSpelled x.place x.initial.now (response x.answer) × (lines_in (response x.answer) < 2 ^ 64) };
}

impl<'a> Exchange<'a> {
    /// The exchange at a place, of which the response says this by its frame, at the front of the server's octets.
    pub(crate) fn new(
        index: u64,
        place: Place<'a>,
        prompt: Prompt<'a>,
        frame: &Frame<'a>,
        answer: Answer<'a>,
        server: &'a [u8],
    ) -> Exchange<'a>
        requires index { index < 2 ^ 63 }
        requires prompt { asked prompt ≡ asked_at place }
        requires frame { HasFrame (asked_at place) server.now frame.now.initial frame.now.block (drop frame.now.len server.now) }
        requires answer { Spells (asked prompt) (response answer) (frame_octets frame.now.initial frame.now.block) }
        ensures index { result.index ≡ index }
        ensures place { result.place ≡ place.entry }
        ensures answered { IsAnswered place.entry server.now result.initial result.response (drop frame.now.len server.now) }
    {
        Exchange {
            index,
            place,
            initial: frame.initial(),
            prompt,
            answer,
        }
    }

    /// The index of its place in the session: 0 is the greeting's, k that of the client's k-th line, counted from 1 (RFC
    /// 3977, section 3.5). It is less than 2^63.
    pub fn index(&self) -> u64
        ensures value { result ≡ self.now.index }
        ensures small { self.now.index < 2 ^ 63 }
    {
        self.index
    }

    /// The line of the client that is answered, without its CRLF (RFC 3977, section 3.1). The greeting answers none.
    pub fn line(&self) -> Option<&'a [u8]>
        ensures { option_copied result ≡ self.now.place.line }
    {
        self.place.line()
    }

    /// The place that is answered.
    pub fn place(&self) -> &Place<'a>
        ensures { result.now ≡ self.now.place }
    {
        &self.place
    }

    /// The initial line of the response, without its CRLF.
    pub fn initial(&self) -> &'a [u8]
        ensures { result.now ≡ self.now.initial }
    {
        self.initial
    }

    /// What is answered: the greeting's place, or the command of the line.
    pub fn prompt(&self) -> &Prompt<'a>
        ensures { asked result.now ≡ asked_at self.now.place }
    {
        &self.prompt
    }

    /// What the response says (RFC 3977, section 3.2).
    pub fn answer(&self) -> &Answer<'a>
        ensures value { response result.now ≡ self.now.response }
        ensures is_spelled { IsSpelled self.now.place self.now.initial self.now.response }
        ensures few_lines { lines_in self.now.response < 2 ^ 64 }
        ensures low_index { self.now.index < 2 ^ 63 }
    {
        &self.answer
    }

    /// Whether the server closes the connection behind this response (RFC 3977, sections 3.2.1, 5.1 and 5.4).
    pub fn closes(&self) -> bool
        ensures { result ≡ closes (asked_at self.now.place) self.now.response }
    {
        self.answer.closes(&self.prompt)
    }
}
