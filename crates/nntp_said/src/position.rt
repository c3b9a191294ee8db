//! Where a session stands in the selected group (RFC 3977, section 6.1).
ghost use Rattle.std.specs.Prelude.{◌≡◌};
ghost use Rattle.nntp_wire.specs.Inner.{View.{asked}, AnswerView.{response}};
ghost use Rattle.nntp_said.specs.Asks.{position_after};

use nntp_wire::{Answer, Command, Prompt, Which};

/// The place at which a session stands in the selected group: its current article.
#[derive(Clone, Copy, PartialEq, Eq)]
pub enum Position {
    /// No group was selected yet.
    Nowhere,
    /// The session stands at the first number of the group, whatever that is.
    First,
    /// The session stands at a number that was shown.
    Known(u64),
}

impl Position {
    /// Returns the position at which an answer leaves the session.
    pub fn after(self, prompt: &Prompt<'_>, answer: &Answer<'_>) -> Position
        ensures { result ≡ position_after self (asked prompt.now) (response answer.now) }
    {
        match (prompt, answer) {
            (_, Answer::Group { .. } | Answer::Numbers { .. }) => Position::First,
            (Prompt::To(Command::Next | Command::Last), Answer::Sent { number, .. }) =>
                Position::Known(*number),
            (
                Prompt::To(
                    Command::Retrieve {
                        which: Which::Number(_) | Which::Current,
                        ..
                    },
                ),
                Answer::Sent { number, .. },
            ) => Position::Known(*number),
            _ => self,
        }
    }
}
