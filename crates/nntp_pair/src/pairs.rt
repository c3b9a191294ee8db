//! The pairing of both streams, one exchange at a time.
ghost use Rattle.std.specs.Prelude.{◌≡◌, ◌<◌, ◌^◌, length, count_by, drop};
ghost use Rattle.std.specs.Option.{option_copied};
ghost use Rattle.nntp_wire.specs.Inner.View.{asked};
ghost use Rattle.nntp_pair.specs.Pairing.{IsBad, IsPassedOver, asked_at, streams, line_ahead, has_line};
ghost use Rattle.nntp_pair.specs.Inner.Step.{IsStep, OnExchange};
ghost use Rattle.nntp_wire.specs.Session.{taken};
ghost use Rattle.nntp_wire.specs.declared.overviews.Overviews.TheVariants.{Opaque};
ghost use Rattle.nntp_pair.specs.declared.class.PairClass.TheVariants.{Malformed};
ghost use Rattle.nntp_pair.specs.declared.step.Step.TheVariants.{Bad};

use crate::class::PairClass;
use crate::exchange::Exchange;
use crate::place::Place;
use crate::places::Places;
use crate::step::Step;
use nntp_wire::{Answer, Frame, Overviews, Prompt, frame};
use std::marker::Model;

/// The pairing of both streams: what is left of it. It keeps nothing but slices of the streams, and takes no memory.
#[derive(Drop)]
pub struct Pairs<'a> {
    index: u64,
    places: Places<'a>,
    server: &'a [u8],
    is_closed: bool,
}

impl<'a> Model for Pairs<'a> {
    ghost use Rattle.std.specs.Prelude.{ℕ, ◌+◌, ◌*◌, ◌<◌, ◌^◌, length};
    ghost use Rattle.nntp_pair.specs.Pairing.{Unpaired};

    ghost Value = { Unpaired };

    ghost view = { λ p. record { index = p.index; places = p.places; server = p.server.now; is_closed = p.is_closed } };

    ghost invariant = { λ p. 2 * p.index + length p.server.now < 2 ^ 64 };
}

/// What comes next in both streams.
#[derive(Clone, Copy, PartialEq, Eq)]
pub struct Ahead<'a> {
    /// The client's line at the next place, without its CRLF: none at the greeting's place, or where no place is left.
    pub line: Option<&'a [u8]>,
    /// The octets that are left of the server's stream.
    pub rest: &'a [u8],
}

/// A frame that spells no response, with what it answers.
#[derive(Drop)]
pub struct MalformedFrame<'a> {
    /// The place that it answers.
    pub place: Place<'a>,
    /// The greeting, or the command of the place's line.
    pub prompt: Prompt<'a>,
    /// The octets, as they were cut for this prompt.
    pub frame: Frame<'a>,
}

impl<'a> Pairs<'a> {
    /// The pairing from the greeting on, where overviews are opaque.
    pub fn new(client: &'a [u8], server: &'a [u8]) -> Pairs<'a>
        ensures { result ≡ streams (taken Opaque client.now) server.now }
    {
        Pairs::taking(Overviews::Opaque, client, server)
    }

    /// The pairing from the greeting on, where overviews are taken so.
    pub fn taking(overviews: Overviews, client: &'a [u8], server: &'a [u8]) -> Pairs<'a>
        ensures { result ≡ streams (taken overviews client.now) server.now }
    {
        Pairs {
            index: 0,
            places: Places::new(overviews, client),
            server,
            is_closed: false,
        }
    }

    /// The next exchange, or how the pairing ends. After an end it answers that end again.
    ///
    /// It reads the octets of that exchange alone, and the rest of the client's stream at an end.
    pub fn next(&mut self) -> Step<'a>
        ensures step { IsStep self.old result self.new }
        ensures progress { OnExchange result (length self.new.server < length self.old.server) }
    {
        if self.server.is_empty() {
            let unanswered = self.places.count_lines();
            return Step::End { unanswered };
        }
        if self.is_closed {
            return self.bad(PairClass::Surplus);
        }
        let Some((place, places)) = self.places.split_first() else {
            return self.bad(PairClass::Surplus);
        };
        let prompt = place.prompt();
        let Some(frame) = frame(&prompt, self.server) else {
            return self.bad(PairClass::Cut);
        };
        let Ok(answer) = Answer::parse(&prompt, &frame) else {
            return self.bad(PairClass::Malformed);
        };
        let exchange = Exchange::new(self.index, place, prompt, &frame, answer, self.server);
        let (_, server) = self.server.split_at(frame.len());
        self.index += 1;
        self.places = places;
        self.server = server;
        self.is_closed = exchange.closes();
        Step::Exchange(exchange)
    }

    /// The end at octets that answer nothing.
    fn bad(&self, class: PairClass) -> Step<'a>
        ensures { result ≡ Bad self.now.index class }
    {
        Step::Bad {
            index: self.index,
            class,
        }
    }

    /// Goes behind the next frame, where it spells no response ([`PairClass::Malformed`]), and gives it back. It answers
    /// its place all the same, and the connection stays open (RFC 3977, sections 3.1 and 3.2).
    pub fn pass_over(&mut self) -> MalformedFrame<'a>
        requires { IsBad Malformed self.old }
        ensures passed { IsPassedOver self.old result.place result.frame.initial result.frame.block self.new }
        ensures prompt { asked result.prompt ≡ asked_at result.place }
        ensures progress { length self.new.server < length self.old.server }
    {
        let Some((place, places)) = self.places.split_first() else {
            unreachable!();
        };
        let prompt = place.prompt();
        let Some(frame) = frame(&prompt, self.server) else {
            unreachable!();
        };
        let (_, server) = self.server.split_at(frame.len());
        *self = Pairs {
            index: self.index + 1,
            places,
            server,
            is_closed: false,
        };
        MalformedFrame {
            place,
            prompt,
            frame,
        }
    }

    /// The index of the next place, which is how many places were passed. It is less than 2^63.
    pub fn index(&self) -> u64
        ensures value { result ≡ self.now.index }
        ensures small { self.now.index < 2 ^ 63 }
    {
        self.index
    }

    /// How many lines of the client are behind the next place: those that have no answer, if the octets there are the
    /// last. It reads the rest of the client's stream.
    pub fn count_lines_behind(&self) -> u64
        ensures { result ≡ count_by has_line (drop 1 self.now.places) }
    {
        match self.places.split_first() {
            Some((_, behind)) => behind.count_lines(),
            None => 0,
        }
    }

    /// The line of the next place, and what is left of the server's stream.
    pub fn ahead(&self) -> Ahead<'a>
        ensures line { option_copied result.line ≡ line_ahead self.now.places }
        ensures rest { result.rest.now ≡ self.now.server }
    {
        let line = match self.places.split_first() {
            Some((place, _)) => place.line(),
            None => None,
        };
        Ahead {
            line,
            rest: self.server,
        }
    }
}
