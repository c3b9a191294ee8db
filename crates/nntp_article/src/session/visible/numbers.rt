//! Article numbers of answers (RFC 3977, section 6.1).
ghost use Rattle.std.specs.Prelude.{◌≡◌, ◌∷◌, [], is_some, map, None};
ghost use Rattle.nntp_wire.specs.Inner.View.{target};
ghost use Rattle.nntp_wire.specs.Reason.{first};
ghost use Rattle.nntp_article.specs.Session.Machine.{is_article_number, is_in_range};
ghost use Rattle.nntp_article.specs.Session.Misfit.{step_misfit, order_misfit, listed_misfit, selected_misfit, id_misfit, target_misfit};
ghost use Rattle.nntp_article.specs.Inner.MisfitView.{why, why_if};

use crate::session::misfit::Misfit;
use crate::session::profile::Profile;
use crate::session::visible::Visible;
use crate::session::visible::heads::is_same;
use nntp_wire::{Range, Which};
use std::alloc::Allocator;

/// Whether the number is an article number, where `limit` is the greatest (RFC 3977, section 6).
pub fn is_article_number(limit: u64, number: u64) -> bool
    ensures { result ≡ is_article_number limit number }
{
    number >= 1 && number <= limit
}

fn is_in_range(range: Range, number: u64) -> bool
    ensures { result ≡ is_in_range range number }
{
    range.first <= number
        && match range.last {
            Some(last) => number <= last,
            None => true,
        }
}

/// Why a listed number can't follow the one before it, if it can't.
fn step_misfit(before: Option<u64>, number: u64) -> Option<Misfit<'static>>
    ensures { why_if result ≡ step_misfit before number }
{
    let before = before?;
    if before < number {
        return None;
    }
    Some(Misfit::NotAbove { before, number })
}

/// Why a number can't be listed, if it can't.
fn listed_misfit(limit: u64, range: Range, number: u64) -> Option<Misfit<'static>>
    ensures { why_if result ≡ listed_misfit limit range number }
{
    if !is_article_number(limit, number) {
        return Some(Misfit::BeyondLimit(number));
    }
    if !is_in_range(range, number) {
        return Some(Misfit::BeyondRange(number));
    }
    None
}

/// Why the listed numbers don't fit the range that was asked for, if they don't: the first that isn't
/// greater than the one before it, or else the first that can't be listed.
pub(crate) fn numbers_misfit(limit: u64, range: Range, numbers: &[u64]) -> Option<Misfit<'static>>
    ensures { why_if result ≡ first (order_misfit None numbers.now ∷ first (map (listed_misfit limit range) numbers.now) ∷ []) }
{
    let mut before = None;
    let mut beyond = None;
    for number in numbers {
        if let Some(why) = step_misfit(before, *number) {
            return Some(why);
        }
        before = Some(*number);
        beyond = beyond.or(listed_misfit(limit, range, *number));
    }
    beyond
}

impl<A: Allocator> Visible<A> {
    pub(crate) fn is_selected(&self) -> bool
        ensures { result ≡ is_some self.now.selected }
    {
        self.selected.is_some()
    }

    /// Why a number isn't that of an article of the selected group, if it isn't. The code is at fault
    /// where no group is selected.
    pub(crate) fn selected_misfit<'a>(
        &self,
        profile: Profile,
        wrong_code: Misfit<'a>,
        number: u64,
    ) -> Option<Misfit<'a>>
        ensures { why_if result ≡ selected_misfit profile self.now (why wrong_code.entry) number }
    {
        if !self.is_selected() {
            return Some(wrong_code);
        }
        if !is_article_number(profile.limit, number) {
            return Some(Misfit::BeyondLimit(number));
        }
        None
    }

    /// Why the number and the id of a success aren't those that were asked for, if they aren't.
    pub(crate) fn target_misfit<'a>(
        &self,
        profile: Profile,
        wrong_code: Misfit<'a>,
        which: &Which<'_>,
        number: u64,
        id: &'a [u8],
    ) -> Option<Misfit<'a>>
        ensures { why_if result ≡ target_misfit profile self.now (why wrong_code.entry) (target which.now) number id.now }
    {
        match which {
            Which::Id(word) => self.id_misfit(profile, *word, number, id),
            Which::Number(None) => Some(wrong_code),
            Which::Number(Some(asked)) => {
                if self.is_selected() && number != *asked {
                    return Some(Misfit::WrongNumber(number));
                }
                self.selected_misfit(profile, wrong_code, *asked)
            }
            Which::Current => self.selected_misfit(profile, wrong_code, number),
        }
    }

    /// Why the number and the id of a success don't answer the word of an id, if they don't.
    fn id_misfit<'a>(
        &self,
        profile: Profile,
        word: &[u8],
        number: u64,
        id: &'a [u8],
    ) -> Option<Misfit<'a>>
        ensures { why_if result ≡ id_misfit profile self.now word.now number id.now }
    {
        if !is_same(id, word) {
            return Some(Misfit::WrongId(id));
        }
        if number == 0 {
            return None;
        }
        if !self.is_selected() {
            return Some(Misfit::WrongNumber(number));
        }
        if !is_article_number(profile.limit, number) {
            return Some(Misfit::BeyondLimit(number));
        }
        None
    }
}
