//! When the server closes the connection (RFC 3977, sections 3.2.1, 5.1, 5.3 and 5.4).
ghost use Rattle.std.specs.Prelude.{◌≡◌};
ghost use Rattle.nntp_wire.specs.Answer.{Asked, Response, plain, Spells};
ghost use Rattle.nntp_wire.specs.Inner.AnswerView.{response};
ghost use Rattle.nntp_wire.specs.Frame.{frame_octets};
ghost use Rattle.nntp_wire.specs.Inner.Prompts.{prompt_kind};
ghost use Rattle.nntp_wire.specs.Session.{closes};
ghost use Rattle.nntp_wire.specs.Inner.View.{asked};

use crate::answer::Answer;
use crate::command::Prompt;
use crate::prompt_kind::PromptKind;
use crate::response::Frame;

impl<'a> Answer<'a> {
    /// Tells whether the server closes the connection after this answer (RFC 3977, sections 3.2.1,
    /// 5.1, 5.3 and 5.4).
    ///
    /// It does after 400, after 205 to QUIT, and after 502 as the greeting or to MODE READER.
    pub fn closes(&self, prompt: &Prompt<'_>) -> bool
        ensures { result ≡ closes (asked prompt.now) (response self.now) }
    {
        match self {
            Answer::Plain { code } => closes_by(prompt.kind(), *code),
            _ => false,
        }
    }
}

impl<'a> Frame<'a> {
    /// Tells whether the server closes the connection after the answer that this frame spells,
    /// where `kind` is the kind of the frame's prompt (RFC 3977, sections 3.2.1, 5.1, 5.3 and 5.4).
    /// No octet is looked at.
    pub fn closes(&self, kind: PromptKind) -> bool
        ensures { (asked : Asked) (response : Response) → prompt_kind asked ≡ kind → Spells asked response (frame_octets self.now.initial self.now.block)
            → result ≡ closes asked response }
    {
        match self.code() {
            Some(code) => closes_by(kind, code),
            None => false,
        }
    }
}

/// Tells whether the server closes the connection after an answer that is no more than its code.
fn closes_by(kind: PromptKind, code: u64) -> bool
    ensures { (asked : Asked) → prompt_kind asked ≡ kind → result ≡ closes asked (plain code) }
{
    match kind {
        PromptKind::Greeting | PromptKind::ModeReader => code == 400 || code == 502,
        PromptKind::Quit => code == 400 || code == 205,
        _ => code == 400,
    }
}
