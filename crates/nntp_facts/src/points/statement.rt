//! What an answer says by itself.
ghost use Rattle.std.specs.Prelude.{◌≡◌};
ghost use Rattle.nntp_article.specs.{declared.session.profile.Profile.{Profile}, Inner.Misfit.{numbers_of}};
ghost use Rattle.nntp_theory.specs.{Inner.Conflict.{FitsThere}, Conflict.{told}};
ghost use Rattle.nntp_facts.specs.{Inner.{Points.{TellsAlone}, StatementView.{statement_of}}, Standing.{stands_of}};

use crate::placed::Placed;
use nntp_kept::Saying;
use nntp_wire::{GroupName, Marks};

/// What an answer says, and the group of which it speaks.
#[derive(Drop)]
pub(crate) struct Statement<'s> {
    /// The group of whose numbers the answer speaks, if it speaks of one.
    pub(crate) group: Option<&'s GroupName<'s>>,
    /// What the answer says.
    pub(crate) saying: Saying<'s>,
}

impl<'s> Statement<'s> {
    /// Returns what an answer says where marks are read so; `numbers` are those that it lists.
    pub(crate) fn of(marks: Marks, answer: &'s Placed<'s>, numbers: &'s [u64]) -> Statement<'s>
        ensures { (profile : Profile) → profile.marks ≡ marks → FitsThere profile (stands_of answer.now)
            → numbers.now ≡ numbers_of (stands_of answer.now).response → TellsAlone profile (statement_of result) (told profile (stands_of answer.now)) }
    {
        let saying = Saying::of(
            marks,
            answer.selected_name(),
            answer.position(),
            answer.prompt(),
            answer.answer(),
            numbers,
        );
        Statement {
            group: saying.group_of(answer.selected()),
            saying,
        }
    }
}
