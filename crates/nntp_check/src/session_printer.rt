//! Shows sessions as they come.
ghost use Rattle.std.specs.Prelude.{◌≡◌, IfOk, IfErr, OnOk};
ghost use Rattle.nntp_pair.specs.declared.pair_error.PairError.TheVariants.{Memory};
ghost use Rattle.nntp_check.specs.Capture.{Captured, Held, nothing, session_as, sessions_of};
ghost use Rattle.nntp_check.specs.Inner.Capture.{IsAlone};
ghost use Rattle.nntp_check.specs.Run.{ShowReports};
ghost use Rattle.nntp_check.specs.Inner.Sinks.{HasRoom, Takes};
ghost use Rattle.nntp_check.specs.Inner.Showing.{HaveEnded, IsShownWhole, Shows, ShowsWhole};
ghost use Rattle.nntp_check.specs.declared.capture_reader.Passage.TheVariants.{From};
ghost use Rattle.nntp_wire.specs.declared.overviews.Overviews.TheVariants.{Opaque};

use crate::show::{put_end, put_exchange};
use crate::sink::Sink;
use crate::source::Source;
use nntp_pair::{Class, Ending, Feed, PairError, Peek};
use nntp_printing::{put_bad_line, put_title};
use std::alloc::{AllocError, Allocator};

/// Shows the exchanges of sessions as they come.
pub(crate) struct SessionPrinter<A: Allocator> {
    alloc: A,
    /// The report on the sessions that another one ended, each behind its title.
    ended: Vec<u8, A>,
    /// How many they are.
    many: u64,
    /// Whether all octets of their servers are answers.
    is_answered: bool,
    /// The name of the last session.
    name: Vec<u8, A>,
    feed: Feed<A>,
    /// What is shown of the last session.
    text: Vec<u8, A>,
}

/// By hand, since a derived one is checked field by field at each place where a printer may be dropped.
impl<A: Allocator> Drop for SessionPrinter<A> {
    fn drop(self) {
        let SessionPrinter {
            alloc: _,
            ended: _,
            many: _,
            is_answered: _,
            name: _,
            feed: _,
            text: _,
        } = self;
    }
}

/// What is shown of sessions.
#[derive(Clone, Copy)]
pub(crate) struct Shown<'a> {
    /// The report, whole.
    pub text: &'a [u8],
    /// Whether all octets of the servers are answers.
    pub is_answered: bool,
}

impl<A: Allocator + Copy> SessionPrinter<A> {
    /// A printer of a session to which nothing has come.
    pub(crate) fn new(alloc: A) -> SessionPrinter<A>
        ensures { ShowsWhole result nothing }
    {
        SessionPrinter {
            alloc,
            ended: Vec::new(alloc),
            many: 0,
            is_answered: true,
            name: Vec::new(alloc),
            feed: Feed::new(alloc),
            text: Vec::new(alloc),
        }
    }

    /// Feeds the next octets of a source; the text of a spool is passed over.
    fn feed(&mut self, source: Source, octets: &[u8]) -> Result<(), PairError>
        requires { HasRoom (Shows self.old) octets.now }
        ensures ok { OnOk result (Takes (Shows self.old) (Shows self.new) (From source) octets.now) }
        ensures err { IfErr result (λ error. error ≡ Memory) }
    {
        match source {
            Source::Client => self.feed.feed_client(octets),
            Source::Server => self.feed.feed_server(octets),
            Source::Spool => Ok(()),
            Source::Session => Ok(self.name.extend_from_slice(octets)?),
        }
    }

    /// Shows the exchanges that are whole now.
    fn show_whole(&mut self) -> Result<(), AllocError>
        ensures { OnOk result ((held : Held) → Shows self.old held → ShowsWhole self.new held) }
    {
        while let Peek::Whole(exchange) = self.feed.peek() {
            put_exchange(self.alloc, &mut self.text, &exchange)?;
            self.feed.advance();
        }
        Ok(())
    }

    /// Adds the last line of the session, of which no more octets come, and tells whether all octets of its server are
    /// answers.
    fn put_ending(&mut self) -> Result<bool, AllocError>
        requires { (held : Held) × ShowsWhole self.old held }
        ensures shown { IfOk result (λ is_answered. (held : Held) → ShowsWhole self.old held
            → IsShownWhole (session_as Opaque held.last) self.new.text.items is_answered) }
        ensures rest { self.new ≡ record self.old { text = self.new.text } }
    {
        match self.feed.finish() {
            Ending::End { unanswered } => {
                let answers = self.feed.index();
                put_end(&mut self.text, answers, unanswered)?;
                Ok(true)
            }
            Ending::Bad { index, class } => {
                put_bad_line(&mut self.text, index, Class::from(class))?;
                Ok(false)
            }
            // All whole exchanges were shown, and no memory was refused.
            Ending::More | Ending::Failed => unreachable!(),
        }
    }

    /// Ends the last session: what is shown of it stands behind its title, and behind the sessions before.
    fn end_session(&mut self) -> Result<(), AllocError>
        requires { (held : Held) × ShowsWhole self.old held }
        ensures { OnOk result ((held : Held) → ShowsWhole self.old held → HaveEnded self.new (sessions_of Opaque held)) }
    {
        let is_answered = self.put_ending()?;
        self.is_answered &= is_answered;
        self.many += 1;
        put_title(&mut self.ended, self.many, &self.name)?;
        self.ended.extend_from_slice(&self.text)?;
        Ok(())
    }

    /// The report, where no more octets come. Where no piece began a session, it is that on the only one.
    pub(crate) fn finish(&mut self, is_several: bool) -> Result<Shown<'_>, AllocError>
        requires { (held : Held) × ShowsWhole self.old held }
        ensures { IfOk result (λ shown. (c : Captured) → c.is_several ≡ is_several → IsAlone c → ShowsWhole self.old c.held
            → ShowReports c shown.text.now shown.is_answered) }
    {
        if is_several {
            self.end_session()?;
            return Ok(Shown {
                text: &self.ended,
                is_answered: self.is_answered,
            });
        }
        let is_answered = self.put_ending()?;
        Ok(Shown {
            text: &self.text,
            is_answered,
        })
    }
}

/// It passes over the text of a spool.
impl<A: Allocator + Copy> Sink for SessionPrinter<A> {
    ghost By = { Unit {0} };

    ghost stands = { λ _ printer held. ShowsWhole printer held };

    fn take(&mut self, source: Source, octets: &[u8]) -> Result<(), PairError> {
        self.feed(source, octets)?;
        self.show_whole()?;
        Ok(())
    }

    fn begin_session(&mut self) -> Result<(), PairError> {
        self.end_session()?;
        self.name.clear();
        self.text.clear();
        self.feed = Feed::new(self.alloc);
        Ok(())
    }
}
