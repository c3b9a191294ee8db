//! The overviews of OVER, XOVER, HDR and XHDR (RFC 3977, sections 8.3 and 8.5).
ghost use Rattle.std.specs.Prelude.{◌≡◌, IfOk, List, ℕ, map, []};
ghost use Rattle.nntp_wire.specs.Answer.{overviews_are};
ghost use Rattle.nntp_wire.specs.Command.{in_range};
ghost use Rattle.nntp_wire.specs.Inner.View.{asked, overview_value, overviewed, target};
ghost use Rattle.nntp_article.specs.Session.Machine.{overview_numbers, overview_ids, only, may_list};
ghost use Rattle.nntp_article.specs.Session.Misfit.{misfit, overview_misfit, overviews_misfit, twice_misfit};
ghost use Rattle.nntp_article.specs.Inner.Listed.{lists, lists_of};
ghost use Rattle.nntp_article.specs.Inner.MisfitView.{why, why_if};

use crate::session::listed::Listed;
use crate::session::misfit::Misfit;
use crate::session::profile::Profile;
use crate::session::visible::Visible;
use crate::session::visible::numbers::numbers_misfit;
use nntp_wire::{
    Command, OverviewKeyword, OverviewLine, Prompt, Range, Which, WhichArticles, overview_code,
};
use std::alloc::{AllocError, Allocator};
use std::collections::BTreeSet;

/// Why the ids don't fit, if they don't: the first that an earlier line has too.
fn ids_misfit<'a, A: Allocator + Copy>(
    alloc: A,
    overviews: &[OverviewLine<'a>],
) -> Result<Option<Misfit<'a>>, AllocError>
    ensures { IfOk result (λ reason. why_if reason ≡ twice_misfit [] (overview_ids (map overview_value overviews.now))) }
{
    let mut ids = BTreeSet::new(alloc);
    for overview in overviews {
        let id = overview.id.as_slice();
        if !ids.insert(id)? {
            return Ok(Some(Misfit::ListedTwice(id)));
        }
    }
    Ok(None)
}

/// Whether so many overviews may be listed of a range: of one without an article none are, by OVER and HDR.
fn may_list(keyword: OverviewKeyword, overviews: &[OverviewLine<'_>]) -> bool
    ensures { result ≡ may_list keyword (map overview_value overviews.now) }
{
    match keyword {
        OverviewKeyword::Over | OverviewKeyword::Hdr => !overviews.is_empty(),
        OverviewKeyword::Xover | OverviewKeyword::Xhdr => true,
    }
}

impl<A: Allocator> Visible<A> {
    /// Why the overviews aren't just that of the article that was asked for, if they aren't.
    fn overview_misfit<'a>(
        &self,
        profile: Profile,
        wrong_code: Misfit<'a>,
        which: &Which<'_>,
        overviews: &[OverviewLine<'a>],
    ) -> Option<Misfit<'a>>
        ensures { why_if result ≡ overview_misfit profile self.now (why wrong_code.entry) (target which.now) (only (map overview_value overviews.now)) }
    {
        let [overview] = overviews else {
            return Some(Misfit::WrongLines);
        };
        self.target_misfit(
            profile,
            wrong_code,
            which,
            overview.number,
            overview.id.as_slice(),
        )
    }
}

impl<A: Allocator + Copy> Visible<A> {
    /// Why the overviews that are listed don't fit the range that was asked for, if they don't.
    fn range_misfit<'a>(
        &self,
        profile: Profile,
        wrong_code: Misfit<'a>,
        keyword: OverviewKeyword,
        range: Range,
        listed: &Listed<'a, A>,
    ) -> Result<Option<Misfit<'a>>, AllocError>
        ensures { IfOk result (λ reason. (lists listed.now).numbers ≡ overview_numbers (lists listed.now).overviews
            → why_if reason ≡ overviews_misfit profile self.now (why wrong_code.entry) keyword (in_range range) (lists listed.now).overviews) }
    {
        if !self.is_selected() {
            return Ok(Some(wrong_code));
        }
        let overviews = listed.overviews();
        if !may_list(keyword, overviews) {
            return Ok(Some(Misfit::WrongLines));
        }
        if let Some(why) = numbers_misfit(profile.limit, range, listed.numbers()) {
            return Ok(Some(why));
        }
        ids_misfit(self.alloc, overviews)
    }

    /// Why the overviews that are listed don't fit what was asked for, if they don't. The code is at
    /// fault where no group is selected, unless an id was asked for.
    fn asked_overviews_misfit<'a>(
        &self,
        profile: Profile,
        wrong_code: Misfit<'a>,
        keyword: OverviewKeyword,
        which: &WhichArticles<'_>,
        listed: &Listed<'a, A>,
    ) -> Result<Option<Misfit<'a>>, AllocError>
        ensures { IfOk result (λ reason. (lists listed.now).numbers ≡ overview_numbers (lists listed.now).overviews
            → why_if reason ≡ overviews_misfit profile self.now (why wrong_code.entry) keyword (overviewed which.now) (lists listed.now).overviews) }
    {
        match which {
            WhichArticles::Range(range) => {
                self.range_misfit(profile, wrong_code, keyword, *range, listed)
            }
            WhichArticles::Id(word) => {
                let which = Which::Id(*word);
                Ok(self.overview_misfit(profile, wrong_code, &which, listed.overviews()))
            }
            WhichArticles::Current => {
                if !self.is_selected() {
                    return Ok(Some(wrong_code));
                }
                let which = Which::Current;
                Ok(self.overview_misfit(profile, wrong_code, &which, listed.overviews()))
            }
        }
    }

    /// 224 to OVER or XOVER, 225 to HDR, or 221 to XHDR.
    pub(crate) fn overviews_misfit<'a>(
        &self,
        profile: Profile,
        prompt: &Prompt<'_>,
        listed: &Listed<'a, A>,
    ) -> Result<Option<Misfit<'a>>, AllocError>
        ensures { IfOk result (λ reason. (lines : List (List ℕ)) → lists listed.now ≡ lists_of (overviews_are lines)
            → why_if reason ≡ misfit profile self.now (asked prompt.now) (overviews_are lines)) }
    {
        match prompt {
            Prompt::To(Command::Over { keyword, which }) => {
                let wrong_code = self.code_misfit(prompt, overview_code(*keyword));
                self.asked_overviews_misfit(profile, wrong_code, *keyword, which, listed)
            }
            _ => Ok(Some(self.code_misfit(prompt, 224))),
        }
    }
}
