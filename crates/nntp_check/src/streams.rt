//! What a capture holds, collected.
ghost use Rattle.std.specs.Prelude.{◌≡◌, IfOk, OnOk};
ghost use Rattle.nntp_check.specs.Capture.{blank, nothing, session_as, sessions_of, with_another, with_octets};
ghost use Rattle.nntp_check.specs.Inner.Collecting.{held_in};
ghost use Rattle.nntp_several.specs.Sessions.{unnamed};

use crate::sink::Sink;
use crate::source::Source;
use nntp_pair::PairError;
use nntp_several::{Named, Recorded};
use nntp_wire::Overviews;
use std::alloc::{AllocError, Allocator};
use std::marker::Model;
use std::mem;

/// A session of a capture: the joined octets of its pieces.
struct Collected<A: Allocator> {
    name: Vec<u8, A>,
    /// What the client sent.
    client: Vec<u8, A>,
    /// What the server answered.
    server: Vec<u8, A>,
}

/// By hand, since a derived one is checked field by field at each place where a session may be dropped.
impl<A: Allocator> Drop for Collected<A> {
    fn drop(self) {
        let Collected {
            name: _,
            client: _,
            server: _,
        } = self;
    }
}

impl<A: Allocator> Model for Collected<A> {
    ghost use Rattle.nntp_several.specs.Sessions.{Named as NamedValue};
    ghost use Rattle.nntp_wire.specs.Session.{taken};
    ghost use Rattle.nntp_wire.specs.declared.overviews.Overviews.TheVariants.{Opaque};

    ghost Value = { NamedValue };

    ghost view = { λ c. record { name = c.name.items; session = record { client = taken Opaque c.client.items; server = c.server.items } } };
}

impl<A: Allocator + Copy> Collected<A> {
    /// A session of which nothing has come.
    fn new(alloc: A) -> Collected<A>
        ensures { result ≡ blank }
    {
        Collected {
            name: Vec::new(alloc),
            client: Vec::new(alloc),
            server: Vec::new(alloc),
        }
    }

    /// What was recorded of it, where overviews are taken so.
    fn recorded(&self, overviews: Overviews) -> Recorded<'_>
        ensures { result ≡ (session_as overviews self.now).session }
    {
        Recorded {
            overviews,
            client: &self.client,
            server: &self.server,
        }
    }

    /// The same with its name.
    fn named(&self, overviews: Overviews) -> Named<'_>
        ensures { result ≡ session_as overviews self.now }
    {
        Named {
            name: &self.name,
            session: self.recorded(overviews),
        }
    }
}

/// What a capture holds.
pub(crate) struct Streams<A: Allocator> {
    alloc: A,
    /// The sessions that another one ended.
    ended: Vec<Collected<A>, A>,
    /// The last session.
    last: Collected<A>,
    /// The text of a spool; empty where the capture has none.
    pub spool: Vec<u8, A>,
}

/// By hand, since a derived one is checked field by field at each place where streams may be dropped.
impl<A: Allocator> Drop for Streams<A> {
    fn drop(self) {
        let Streams {
            alloc: _,
            ended: _,
            last: _,
            spool: _,
        } = self;
    }
}

impl<A: Allocator + Copy> Streams<A> {
    /// What nothing holds.
    pub(crate) fn new(alloc: A) -> Streams<A>
        ensures { held_in result ≡ nothing }
    {
        Streams {
            alloc,
            ended: Vec::new(alloc),
            last: Collected::new(alloc),
            spool: Vec::new(alloc),
        }
    }

    /// Joins octets to those of their source.
    fn join(&mut self, source: Source, octets: &[u8]) -> Result<(), AllocError>
        ensures { OnOk result (held_in self.new ≡ with_octets source octets.now (held_in self.old)) }
    {
        match source {
            Source::Client => self.last.client.extend_from_slice(octets),
            Source::Server => self.last.server.extend_from_slice(octets),
            Source::Spool => self.spool.extend_from_slice(octets),
            Source::Session => self.last.name.extend_from_slice(octets),
        }
    }

    /// Ends the last session, and begins the next one.
    fn end_session(&mut self) -> Result<(), AllocError>
        ensures { OnOk result (held_in self.new ≡ with_another (held_in self.old)) }
    {
        let ended = mem::replace(&mut self.last, Collected::new(self.alloc));
        self.ended.push(ended)?;
        Ok(())
    }

    /// What was recorded of the last session, where overviews are taken so.
    pub(crate) fn last(&self, overviews: Overviews) -> Recorded<'_>
        ensures { result ≡ (session_as overviews (held_in self.now).last).session }
    {
        self.last.recorded(overviews)
    }

    /// What was recorded of each session, where overviews are taken so.
    pub(crate) fn recorded(&self, overviews: Overviews) -> Result<Vec<Recorded<'_>, A>, AllocError>
        ensures { IfOk result (λ sessions. sessions.items ≡ unnamed (sessions_of overviews (held_in self.now))) }
    {
        let mut sessions = Vec::new(self.alloc);
        for session in &self.ended {
            sessions.push(session.recorded(overviews))?;
        }
        sessions.push(self.last.recorded(overviews))?;
        Ok(sessions)
    }

    /// The same of each with its name.
    pub(crate) fn named(&self, overviews: Overviews) -> Result<Vec<Named<'_>, A>, AllocError>
        ensures { IfOk result (λ sessions. sessions.items ≡ sessions_of overviews (held_in self.now)) }
    {
        let mut sessions = Vec::new(self.alloc);
        for session in &self.ended {
            sessions.push(session.named(overviews))?;
        }
        sessions.push(self.last.named(overviews))?;
        Ok(sessions)
    }
}

impl<A: Allocator + Copy> Sink for Streams<A> {
    ghost By = { Unit {0} };

    ghost stands = { λ _ streams held. held_in streams ≡ held };

    fn take(&mut self, source: Source, octets: &[u8]) -> Result<(), PairError> {
        self.join(source, octets)?;
        Ok(())
    }

    fn begin_session(&mut self) -> Result<(), PairError> {
        self.end_session()?;
        Ok(())
    }
}
