//! The groups of LIST ACTIVE (RFC 3977, section 7.6.3).
ghost use Rattle.std.specs.Prelude.{◌≡◌, IfOk, map, [], ◌∷◌};
ghost use Rattle.nntp_wire.specs.Reason.{first};
ghost use Rattle.nntp_wire.specs.Inner.View.{active_value};
ghost use Rattle.nntp_article.specs.Session.Machine.{group_names};
ghost use Rattle.nntp_article.specs.Session.Misfit.{active_marks_misfit, active_misfit, twice_misfit};
ghost use Rattle.nntp_article.specs.Inner.MisfitView.{why_if};

use crate::session::misfit::Misfit;
use crate::session::profile::Profile;
use nntp_wire::{ActiveLine, Wildmat, matches_if_given};
use std::alloc::{AllocError, Allocator};
use std::collections::BTreeSet;

/// Why the marks of a listed group don't fit, if they don't.
fn active_marks_misfit<'a>(profile: Profile, group: &ActiveLine<'a>) -> Option<Misfit<'a>>
    ensures { why_if result ≡ active_marks_misfit profile (active_value group.now) }
{
    if group.low == 0 && group.high == 0 {
        return None;
    }
    if group.low < 1 || group.low - 1 > group.high {
        return Some(Misfit::WrongMarks(group.name.as_slice()));
    }
    if group.high > profile.limit {
        return Some(Misfit::BeyondLimit(group.high));
    }
    None
}

/// Why a listed group doesn't fit the command, if it doesn't.
fn active_misfit<'a>(
    profile: Profile,
    wildmat: &Option<Wildmat<'_>>,
    group: &ActiveLine<'a>,
) -> Option<Misfit<'a>>
    ensures { why_if result ≡ active_misfit profile wildmat.now (active_value group.now) }
{
    if let Some(why) = active_marks_misfit(profile, group) {
        return Some(why);
    }
    if !matches_if_given(wildmat, &group.name) {
        return Some(Misfit::Unmatched(group.name.as_slice()));
    }
    None
}

/// Why the listed groups don't fit the command, if they don't: the first that doesn't by itself, or
/// else the first that an earlier line lists too.
pub(crate) fn groups_misfit<'a, A: Allocator + Copy>(
    alloc: A,
    profile: Profile,
    wildmat: &Option<Wildmat<'_>>,
    groups: &[ActiveLine<'a>],
) -> Result<Option<Misfit<'a>>, AllocError>
    ensures { IfOk result (λ reason. why_if reason
        ≡ first (first (map (active_misfit profile wildmat.now) (map active_value groups.now))
        ∷ twice_misfit [] (group_names (map active_value groups.now)) ∷ [])) }
{
    let mut names = BTreeSet::new(alloc);
    let mut twice = None;
    for group in groups {
        if let Some(why) = active_misfit(profile, wildmat, group) {
            return Ok(Some(why));
        }
        let name = group.name.as_slice();
        if !names.insert(name)? {
            twice = twice.or(Some(Misfit::ListedTwice(name)));
        }
    }
    Ok(twice)
}
