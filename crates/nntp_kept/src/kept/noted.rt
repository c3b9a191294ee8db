//! What an answer says, added to all that was said before.
ghost use Rattle.std.specs.{Prelude.{◌≡◌, IsTrue, List, IfOk}, List.{AllByRecursion}};
ghost use Rattle.nntp_wire.specs.Inner.{View.{asked}, AnswerView.{response}};
ghost use Rattle.nntp_article.specs.{declared.session.profile.Profile.{Profile}, Session.Machine.{Visible, fits}, Inner.Listed.{lists, lists_of}};
ghost use Rattle.nntp_said.specs.Facts.{Fact, here, facts_of};
ghost use Rattle.nntp_theory.specs.Inner.Together.{IsWellFormed, Together};
ghost use Rattle.nntp_kept.specs.Inner.{Saying.{IsSelectedShown}, Kept.{IsKept, AreAdded}};

use crate::kept::Kept;
use crate::saying::{Saying, numbers_shown};
use nntp_article::Listed;
use nntp_said::{Position, facts_of};
use nntp_wire::{Answer, Marks, Prompt};
use std::alloc::{AllocError, Allocator};

impl<A: Allocator + Copy> Kept<A> {
    /// Adds what an answer says that fits, if it stands together with all before, and tells whether it
    /// does. If not, the value stays as it was. After an error it says nothing of use.
    ///
    /// Marks are read so, this group is selected, and the session stands at the position; `listed` is
    /// what the answer lists. Where it says nothing, no saying is made of it.
    pub fn note_answer<'s>(
        &mut self,
        how: Marks,
        selected: &'s [u8],
        at: Position,
        prompt: &'s Prompt<'s>,
        answer: &'s Answer<'s>,
        listed: &'s Listed<'_, A>,
    ) -> Result<bool, AllocError>
        ensures { IfOk result (λ does. (profile : Profile) (v : Visible) (all : List Fact) → IsTrue (fits profile v (asked prompt.now) (response answer.now))
            → IsSelectedShown v all → selected.now ≡ here v
            → lists listed.now ≡ lists_of (response answer.now)
            → IsKept all self.old → Together all → AllByRecursion IsWellFormed (facts_of how v at (asked prompt.now) (response answer.now))
            → AreAdded all (facts_of how v at (asked prompt.now) (response answer.now)) self.old self.new does) }
    {
        let mut facts = facts_of(how, selected, at, prompt, answer);
        if facts.first().is_none() {
            return Ok(true);
        }
        let saying = Saying::by(&mut facts, numbers_shown(answer, listed.numbers()));
        self.note(&saying, listed)
    }
}
