//! Whether an answer fits what a session shows, and why not, a row of the machine's table at a time.
ghost use Rattle.std.specs.Prelude.{◌≡◌, ℕ, List, map, IfOk, option_copied, false};
ghost use Rattle.std.specs.Option.{option_map_or, option_or};
ghost use Rattle.nntp_wire.specs.Inner.View.{active_value, asked};
ghost use Rattle.nntp_wire.specs.Inner.AnswerView.{response};
ghost use Rattle.nntp_wire.specs.Answer.{plain, sends, group_is, numbers_are, active_are};
ghost use Rattle.nntp_wire.specs.Listing.{active_groups, listed_numbers};
ghost use Rattle.nntp_article.specs.Session.Machine.{fits, is_same};
ghost use Rattle.nntp_article.specs.Session.Misfit.{name_misfit, misfit};
ghost use Rattle.nntp_article.specs.Inner.Listed.{lists, lists_of};
ghost use Rattle.nntp_article.specs.Inner.MisfitView.{why, why_if};

use crate::session::listed::Listed;
use crate::session::misfit::Misfit;
use crate::session::profile::Profile;
use crate::session::visible::Visible;
use crate::session::visible::groups::groups_misfit;
use crate::session::visible::heads::{head_misfit, is_same};
use crate::session::visible::numbers::numbers_misfit;
use nntp_wire::{ActiveLine, Answer, Block, Command, Prompt, WaterMarks, success_code};
use std::alloc::{AllocError, Allocator};

impl<A: Allocator + Copy> Visible<A> {
    /// Whether the answer may follow the prompt in this visible state, whatever the spool, where
    /// the connection is open. Only what is listed needs memory: numbers, groups or overviews.
    ///
    /// # Errors
    ///
    /// Where memory was refused.
    pub fn fits(
        &self,
        profile: Profile,
        prompt: &Prompt<'_>,
        answer: &Answer<'_>,
    ) -> Result<bool, AllocError>
        ensures { IfOk result (λ does. does ≡ fits profile self.now (asked prompt.now) (response answer.now)) }
    {
        let why = self.misfit(profile, prompt, answer)?;
        Ok(why.is_none())
    }

    /// Why the answer can't follow the prompt in this visible state, whatever the spool, where the
    /// connection is open. None exactly where it fits. Only what is listed needs memory: numbers, groups
    /// or overviews.
    ///
    /// # Errors
    ///
    /// Where memory was refused.
    pub fn misfit<'a>(
        &self,
        profile: Profile,
        prompt: &Prompt<'_>,
        answer: &Answer<'a>,
    ) -> Result<Option<Misfit<'a>>, AllocError>
        ensures { IfOk result (λ reason. why_if reason ≡ misfit profile self.now (asked prompt.now) (response answer.now)) }
    {
        let listed = Listed::of(self.alloc, answer)?;
        self.misfit_as_read(profile, prompt, answer, &listed)
    }

    /// Why the answer can't follow the prompt, as [`misfit`](Visible::misfit) tells, where what it lists
    /// was read before. Only the names of these groups, and the ids of these overviews, need memory.
    ///
    /// # Errors
    ///
    /// Where memory was refused.
    pub fn misfit_as_read<'a>(
        &self,
        profile: Profile,
        prompt: &Prompt<'_>,
        answer: &Answer<'a>,
        listed: &Listed<'a, A>,
    ) -> Result<Option<Misfit<'a>>, AllocError>
        requires listed { lists listed.now ≡ lists_of (response answer.now) }
        ensures { IfOk result (λ reason. why_if reason ≡ misfit profile self.now (asked prompt.now) (response answer.now)) }
    {
        match answer {
            Answer::Plain { code } => Ok(self.plain_misfit(prompt, *code)),
            Answer::Group { marks, name } => {
                Ok(self.group_misfit(profile, prompt, *marks, name.as_slice()))
            }
            Answer::Numbers { marks, name, .. } => {
                let numbers = listed.numbers();
                Ok(self.numbers_misfit(profile, prompt, *marks, name.as_slice(), numbers))
            }
            Answer::Sent {
                code,
                number,
                id,
                block,
            } => Ok(self.sent_misfit(profile, prompt, *code, *number, id.as_slice(), block)),
            Answer::Active(_) => self.active_misfit(profile, prompt, listed.groups()),
            Answer::Overviews(_) => self.overviews_misfit(profile, prompt, listed),
        }
    }

    /// An answer of a code alone.
    fn plain_misfit(&self, prompt: &Prompt<'_>, code: u64) -> Option<Misfit<'static>>
        ensures { (profile : Profile) → why_if result ≡ misfit profile self.now (asked prompt.now) (plain code) }
    {
        if self.fits_plain(prompt, code) {
            return None;
        }
        Some(self.code_misfit(prompt, code))
    }

    /// 211 to GROUP.
    fn group_misfit<'a>(
        &self,
        profile: Profile,
        prompt: &Prompt<'_>,
        marks: WaterMarks,
        name: &'a [u8],
    ) -> Option<Misfit<'a>>
        ensures { why_if result ≡ misfit profile self.now (asked prompt.now) (group_is marks name.now) }
    {
        match prompt {
            Prompt::To(Command::Group(word)) => {
                if !is_same(name, *word) {
                    return Some(Misfit::WrongName(name));
                }
                self.marks_misfit(profile, name, marks)
            }
            _ => Some(self.code_misfit(prompt, 211)),
        }
    }

    /// 211 to LISTGROUP.
    fn numbers_misfit<'a>(
        &self,
        profile: Profile,
        prompt: &Prompt<'_>,
        marks: WaterMarks,
        name: &'a [u8],
        numbers: &[u64],
    ) -> Option<Misfit<'a>>
        ensures { (lines : List (List ℕ)) → numbers.now ≡ listed_numbers lines
            → why_if result ≡ misfit profile self.now (asked prompt.now) (numbers_are marks name.now lines) }
    {
        let wrong_code = self.code_misfit(prompt, 211);
        match prompt {
            Prompt::To(Command::ListGroup { group, range }) => {
                if let Some(why) = self.name_misfit(wrong_code, group, name) {
                    return Some(why);
                }
                if let Some(why) = self.marks_misfit(profile, name, marks) {
                    return Some(why);
                }
                numbers_misfit(profile.limit, *range, numbers)
            }
            _ => Some(wrong_code),
        }
    }

    /// Why the name isn't that of the group that LISTGROUP names, or else of the selected one, if it
    /// isn't. The code is at fault where there is neither.
    fn name_misfit<'a>(
        &self,
        wrong_code: Misfit<'a>,
        group: &Option<&[u8]>,
        name: &'a [u8],
    ) -> Option<Misfit<'a>>
        ensures { why_if result ≡ name_misfit (why wrong_code.entry) (option_or (option_copied group.now) self.now.selected) name.now }
    {
        if group.is_none() && !self.is_selected() {
            return Some(wrong_code);
        }
        if !self.is_listed(group, name) {
            return Some(Misfit::WrongName(name));
        }
        None
    }

    /// Whether the name is that of the group that LISTGROUP names, or else of the selected one.
    fn is_listed(&self, group: &Option<&[u8]>, name: &[u8]) -> bool
        ensures { result ≡ option_map_or (is_same name.now) (option_or (option_copied group.now) self.now.selected) false }
    {
        match group {
            Some(word) => is_same(name, *word),
            None => match self.selected() {
                Some(selected) => is_same(name, selected),
                None => false,
            },
        }
    }

    /// A success with a number and an id.
    fn sent_misfit<'a>(
        &self,
        profile: Profile,
        prompt: &Prompt<'_>,
        code: u64,
        number: u64,
        id: &'a [u8],
        block: &Option<Block<'a>>,
    ) -> Option<Misfit<'a>>
        ensures { why_if result ≡ misfit profile self.now (asked prompt.now) (sends (record { code = code; number = number; id = id.now; block = block.now })) }
    {
        let wrong_code = self.code_misfit(prompt, code);
        match prompt {
            Prompt::To(Command::Next) | Prompt::To(Command::Last) => {
                if code != 223 {
                    return Some(wrong_code);
                }
                self.selected_misfit(profile, wrong_code, number)
            }
            Prompt::To(Command::Retrieve { what, which }) => {
                if code != success_code(*what) {
                    return Some(wrong_code);
                }
                if let Some(why) = self.target_misfit(profile, wrong_code, which, number, id) {
                    return Some(why);
                }
                head_misfit(*what, id, block)
            }
            _ => Some(wrong_code),
        }
    }

    /// 215 to LIST ACTIVE.
    fn active_misfit<'a>(
        &self,
        profile: Profile,
        prompt: &Prompt<'_>,
        groups: &[ActiveLine<'a>],
    ) -> Result<Option<Misfit<'a>>, AllocError>
        ensures { IfOk result (λ reason. (lines : List (List ℕ)) → map active_value groups.now ≡ active_groups lines
            → why_if reason ≡ misfit profile self.now (asked prompt.now) (active_are lines)) }
    {
        match prompt {
            Prompt::To(Command::ListActive(wildmat)) => {
                groups_misfit(self.alloc, profile, wildmat, groups)
            }
            _ => Ok(Some(self.code_misfit(prompt, 215))),
        }
    }
}
