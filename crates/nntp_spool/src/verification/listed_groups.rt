//! The comparison of the groups that LIST ACTIVE lists with those of a spool (RFC 3977,
//! section 7.6.3).
ghost use Rattle.std.specs.Prelude.{◌≡◌, ℕ, ◌≤◌, ◌↔◌, true, map, IsTrue, IfOk};
ghost use Rattle.std.specs.List.{AllByRecursion};
ghost use Rattle.nntp_wire.specs.Name.{IsGroupName};
ghost use Rattle.nntp_wire.specs.Inner.View.{active_value};
ghost use Rattle.nntp_article.specs.Session.Spool.{Name, IsGroup, IsNumber, numbers as numbers_of};
ghost use Rattle.nntp_article.specs.Session.Machine.{names_differ, ActivesAgree};
ghost use Rattle.nntp_spool.specs.Inner.AskedCounts.{AreCounted};
ghost use Rattle.nntp_spool.specs.Inner.ListedGroups.{LineAgrees};

use crate::verification::asked_counts::AskedCounts;
use crate::verification::lookups::is_between;
use nntp_store::Content;
use nntp_wire::laws::matching_is_decided;
use nntp_wire::{ActiveLine, Wildmat, matches_if_given};
use std::alloc::{AllocError, Allocator};

/// Tells whether a listed group is one of the spool, matches, and has its numbers between the
/// marks.
fn agrees_line<A: Allocator>(
    spool: &Content<A>,
    wildmat: &Option<Wildmat<'_>>,
    group: &ActiveLine<'_>,
) -> bool
    ensures { IsTrue result ↔ LineAgrees spool.now wildmat.now (active_value group.now) }
{
    matches_if_given(wildmat, &group.name)
        && agrees_bounds(spool, group.name.as_str(), group.low, group.high)
}

/// Tells whether the name is a group whose numbers are between the marks.
fn agrees_bounds<A: Allocator>(spool: &Content<A>, name: &str, low: u64, high: u64) -> bool
    ensures { IsTrue result ↔ (IsGroup spool.now name.now × ((n : ℕ) → IsNumber (numbers_of spool.now name.now) n → (low ≤ n) × (n ≤ high))) }
{
    match spool.group(name) {
        Some(numbers) => is_between(numbers, low, high),
        None => false,
    }
}

/// Tells whether each listed group is one of the spool, matches, and has its numbers between the
/// marks.
fn agree_lines<A: Allocator>(
    spool: &Content<A>,
    wildmat: &Option<Wildmat<'_>>,
    groups: &[ActiveLine<'_>],
) -> bool
    ensures { IsTrue result ↔ AllByRecursion (LineAgrees spool.now wildmat.now) (map active_value groups.now) }
{
    for group in groups {
        if !agrees_line(spool, wildmat, group) {
            return false;
        }
    }
    true
}

/// Tells whether exactly the matching groups are listed, and the marks bound their numbers. No
/// group is listed twice, so none is missing where as many are listed as match.
pub(crate) fn lists_groups<A: Allocator + Copy, S: Allocator>(
    spool: &Content<S>,
    counts: &mut AskedCounts<A>,
    wildmat: &Option<Wildmat<'_>>,
    groups: &[ActiveLine<'_>],
) -> Result<bool, AllocError>
    requires differ { names_differ (map active_value groups.now) ≡ true }
    requires names { (name : Name) → IsGroup spool.now name → IsGroupName name }
    requires counted { AreCounted spool.now counts.old }
    ensures counted { IfOk result (λ _. AreCounted spool.now counts.new) }
    ensures lists { IfOk result (λ lists. IsTrue lists ↔ ActivesAgree spool.now wildmat.now (map active_value groups.now)) }
{
    matching_is_decided();
    if !agree_lines(spool, wildmat, groups) {
        return Ok(false);
    }
    Ok(counts.count(spool, wildmat)? == groups.len())
}
