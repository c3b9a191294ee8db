//! The kinds of prompts, by which the reach of a response and the end of the connection are told.
ghost use Rattle.std.specs.Prelude.{◌≡◌, IsFalse};
ghost use Rattle.nntp_wire.specs.Answer.{to};
ghost use Rattle.nntp_wire.specs.Command.{request_as};
ghost use Rattle.nntp_wire.specs.declared.overviews.Overviews.{Overviews as OverviewsValue};
ghost use Rattle.nntp_wire.specs.Inner.Prompts.{prompt_kind};
ghost use Rattle.nntp_wire.specs.Inner.View.{asked};
ghost use Rattle.nntp_wire.specs.declared.prompt_kind.PromptKind.TheVariants.{Other as OtherKind};

use crate::command::{Command, Prompt};
use crate::overviews::Overviews;
use crate::word::skip_blanks;

/// The kind of a prompt, which decides together with a code whether a block is due and whether the
/// server closes the connection.
#[derive(Clone, Copy, PartialEq, Eq)]
pub enum PromptKind {
    /// The server speaks first, with its greeting (RFC 3977, section 5.1).
    Greeting,
    /// LISTGROUP was asked (RFC 3977, section 6.1.2).
    ListGroup,
    /// MODE READER was asked (RFC 3977, section 5.3).
    ModeReader,
    /// QUIT was asked (RFC 3977, section 5.4).
    Quit,
    /// Any other command was asked.
    Other,
}

impl PromptKind {
    /// Returns the kind of the prompt that a line of the client is, which is given without its CRLF
    /// (RFC 3977, section 3.1). Most lines are told by their first letter.
    pub fn of_line(overviews: Overviews, line: &[u8]) -> PromptKind
        ensures { result ≡ prompt_kind (to (request_as overviews line.now)) }
    {
        match may_have_kind(line) {
            true => Prompt::To(Command::parse_as(overviews, line)).kind(),
            false => PromptKind::Other,
        }
    }
}

/// Tells whether the first word begins as LISTGROUP, MODE or QUIT does.
fn may_have_kind(line: &[u8]) -> bool
    ensures { IsFalse result → (overviews : OverviewsValue) → prompt_kind (to (request_as overviews line.now)) ≡ OtherKind }
{
    match skip_blanks(line).first() {
        Some(first) => matches!(first.to_ascii_lowercase(), b'l' | b'm' | b'q'),
        None => false,
    }
}

impl<'a> Prompt<'a> {
    /// Returns the kind of the prompt.
    pub fn kind(&self) -> PromptKind
        ensures { result ≡ prompt_kind (asked self.now) }
    {
        match self {
            Prompt::Greeting => PromptKind::Greeting,
            Prompt::To(Command::ListGroup { .. }) => PromptKind::ListGroup,
            Prompt::To(Command::ModeReader) => PromptKind::ModeReader,
            Prompt::To(Command::Quit) => PromptKind::Quit,
            Prompt::To(_) => PromptKind::Other,
        }
    }
}
