//! A session as it was recorded, and its name.
use nntp_wire::Overviews;
use std::marker::Model;

/// What client and server sent in one session (RFC 3977, section 3.1), as it was recorded.
#[derive(Drop)]
pub struct Recorded<'a> {
    /// How overviews of the client are taken.
    pub overviews: Overviews,
    /// All octets that the client sent.
    pub client: &'a [u8],
    /// All octets that the server sent.
    pub server: &'a [u8],
}

impl<'a> Model for Recorded<'a> {
    ghost use Rattle.nntp_several.specs.Sessions.{Recorded as RecordedValue};
    ghost use Rattle.nntp_wire.specs.Session.{taken};

    ghost Value = { RecordedValue };

    ghost view = { λ session. record { client = taken session.overviews session.client.now; server = session.server.now } };
}

/// A session with its name.
#[derive(Drop)]
pub struct Named<'a> {
    /// What a report calls it; any octets, or none.
    pub name: &'a [u8],
    /// What was recorded of it.
    pub session: Recorded<'a>,
}

impl<'a> Model for Named<'a> {
    ghost use Rattle.nntp_several.specs.Sessions.{Named as NamedValue};

    ghost Value = { NamedValue };

    ghost view = { λ named. record { name = named.name.now; session = named.session } };
}
