//! A place of a session.
ghost use Rattle.std.specs.Prelude.{◌≡◌, ◌↔◌, IsTrue};
ghost use Rattle.std.specs.Option.{option_copied};
ghost use Rattle.nntp_wire.specs.Inner.Prompts.{prompt_kind};
ghost use Rattle.nntp_wire.specs.Inner.View.{asked};
ghost use Rattle.nntp_pair.specs.Pairing.{asked_at, place_of};

use nntp_wire::{Command, Overviews, Prompt, PromptKind};
use std::marker::Model;

/// A place of a session: the greeting's, or that of a line of the client (RFC 3977, section 3.5).
#[derive(Drop)]
pub struct Place<'a> {
    line: Option<&'a [u8]>,
    overviews: Overviews,
}

impl<'a> Model for Place<'a> {
    ghost use Rattle.std.specs.Option.{option_copied};
    ghost use Rattle.nntp_pair.specs.Pairing.{Place as PlaceValue, place_of};

    ghost Value = { PlaceValue };

    ghost view = { λ p. place_of p.overviews (option_copied p.line) };
}

impl<'a> Place<'a> {
    /// The place of this line, or the greeting's, where overviews are taken so.
    pub(crate) fn new(overviews: Overviews, line: Option<&'a [u8]>) -> Place<'a>
        ensures { result ≡ place_of overviews (option_copied line.entry) }
    {
        Place { line, overviews }
    }

    /// The line of the client, without its CRLF; none at the greeting's place.
    pub fn line(&self) -> Option<&'a [u8]>
        ensures { option_copied result ≡ self.now.line }
    {
        self.line
    }

    /// What is answered there.
    pub(crate) fn prompt(&self) -> Prompt<'a>
        ensures { asked result ≡ asked_at self.now }
    {
        match self.line {
            Some(line) => Prompt::To(Command::parse_as(self.overviews, line)),
            None => Prompt::Greeting,
        }
    }

    /// The kind of what is answered there.
    pub(crate) fn kind(&self) -> PromptKind
        ensures { result ≡ prompt_kind (asked_at self.now) }
    {
        match self.line {
            Some(line) => PromptKind::of_line(self.overviews, line),
            None => PromptKind::Greeting,
        }
    }

    /// Tells whether both have the same line, or none, and take overviews alike.
    pub fn is_same(&self, other: &Place<'_>) -> bool
        ensures { IsTrue result ↔ (self.now ≡ other.now) }
    {
        self.overviews == other.overviews && is_same_line(self.line, other.line)
    }
}

/// Tells whether both are the same line, or none is there.
fn is_same_line(some: Option<&[u8]>, other: Option<&[u8]>) -> bool
    ensures { IsTrue result ↔ (option_copied some.entry ≡ option_copied other.entry) }
{
    match (some, other) {
        (Some(some), Some(other)) => some == other,
        (None, None) => true,
        _ => false,
    }
}
