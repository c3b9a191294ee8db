//! Groups that are shown and denied.
ghost use Rattle.std.specs.{Prelude.{◌≡◌, ◌++◌, ◌⊎◌, Some, None, List, IfOk, IfSome, option_map, MatchOption, IsTrue, IsFalse}, List.{AllByRecursion}};
ghost use Rattle.std.specs.List.{list_any};
ghost use Rattle.nntp_theory.specs.{Inner.Together.{Together}, Together.{denies_group}, Conflict.{Group}, Given.{is_shown_group}};
ghost use Rattle.nntp_kept.specs.Inner.{Kept.{IsKept}, ListedGroups.{is_listed}, SayingView.{active_said}};
ghost use Rattle.nntp_facts.specs.Inner.{Points.{IsBeside, IsPointOf, Statement as StatementValue}, PointView.{point_of}, StatementView.{statement_of}};
ghost use Rattle.nntp_wire.specs.Listing.{active_groups};
ghost use Rattle.nntp_article.specs.declared.session.profile.Profile.{Profile};
ghost use Rattle.nntp_said.specs.Facts.{Fact};

use crate::point::Point;
use crate::points::Statement;
use nntp_kept::{ActivePart, Kept};
use nntp_wire::{Block, GroupName};
use std::alloc::{AllocError, Allocator};

/// Returns a group that the answer shows and that is denied, or the other way round.
pub(crate) fn denied_group<'s, A: Allocator + Copy>(
    kept: &'s Kept<A>,
    told: &Statement<'s>,
) -> Result<Option<Point<'s>>, AllocError>
    ensures { IfOk result (λ point. (profile : Profile) (facts more : List Fact) → IsBeside profile facts kept.now (statement_of told.now) more
        → IsPointOf (facts ++ more) 1 (option_map point_of point)) }
{
    match &told.saying.groups {
        Some(list) => Ok(point(denied_or_unlisted(kept, list)?)),
        None => Ok(point(denied_by_name(kept, told))),
    }
}

/// Returns the first group that is listed and denied, or else the first that is shown, and should be listed and isn't.
fn denied_or_unlisted<'s, A: Allocator + Copy>(
    kept: &'s Kept<A>,
    list: &ActivePart<'s>,
) -> Result<Option<GroupName<'s>>, AllocError>
    ensures { IfOk result (λ name. (profile : Profile) (facts more : List Fact) (t : StatementValue) → IsBeside profile facts kept.now t more
        → t.saying.groups ≡ Some (active_said list.now) → IsPointOf (facts ++ more) 1 (option_map Group name)) }
{
    match first_denied(kept, list.block) {
        Some(name) => Ok(Some(name)),
        None => kept.groups().unlisted(list.wildmat, list.block),
    }
}

/// Returns the group of which the answer speaks, if it is denied; or else the one that it denies, if it is shown.
fn denied_by_name<'s, A: Allocator>(kept: &Kept<A>, told: &Statement<'s>) -> Option<GroupName<'s>>
    ensures { (profile : Profile) (facts more : List Fact) → IsBeside profile facts kept.now (statement_of told.now) more
        → (statement_of told.now).saying.groups ≡ None
        → IsPointOf (facts ++ more) 1 (option_map Group result) }
{
    match denied_of(kept, told.group) {
        Some(name) => Some(name),
        None => shown_of(kept, told.group, told.saying.there_is_no),
    }
}

/// Returns the group of which the answer speaks, if it is denied.
fn denied_of<'s, A: Allocator>(
    kept: &Kept<A>,
    group: Option<&GroupName<'s>>,
) -> Option<GroupName<'s>>
    ensures { (facts : List Fact) → IsKept facts kept.now → Together facts
        → MatchOption result (IfSome (option_map (λ name. name.now) group.entry) (λ name. IsFalse (list_any (denies_group name) facts)))
        (λ name. (option_map (λ name. name.now) group.entry ≡ Some name) × IsTrue (list_any (denies_group name) facts)) }
{
    let name = group?;
    if kept.may_be(name) {
        None
    } else {
        Some(name.copy())
    }
}

/// Returns the group that the answer denies, if it is shown, or the answer speaks of it.
fn shown_of<'s, A: Allocator>(
    kept: &Kept<A>,
    group: Option<&GroupName<'s>>,
    missing: Option<&'s [u8]>,
) -> Option<GroupName<'s>>
    ensures { (facts : List Fact) → IsKept facts kept.now → Together facts
        → MatchOption result (IfSome (option_map (λ name. name.now) missing.entry) (λ name. IsFalse (is_shown_group facts name)
        × (option_map (λ name. name.now) group.entry ≡ Some name → ⊥)))
        (λ name. (option_map (λ name. name.now) missing.entry ≡ Some name)
        × (IsTrue (is_shown_group facts name) ⊎ (option_map (λ name. name.now) group.entry ≡ Some name))) }
{
    let missing = missing?;
    match named(group, missing) {
        Some(name) => Some(name),
        None => shown_named(kept, missing),
    }
}

/// Returns the group of this name, if it is shown.
fn shown_named<'s, A: Allocator>(kept: &Kept<A>, name: &'s [u8]) -> Option<GroupName<'s>>
    ensures { (facts : List Fact) → IsKept facts kept.now → Together facts
        → MatchOption result (IsFalse (is_shown_group facts name.now)) (λ group. (name.now ≡ group) × IsTrue (is_shown_group facts group)) }
{
    let group = GroupName::parse(name)?;
    kept.groups().is_shown(name).then_some(group)
}

/// Returns the first group that is listed and denied.
fn first_denied<'s, A: Allocator>(kept: &Kept<A>, block: &Block<'s>) -> Option<GroupName<'s>>
    ensures { (facts : List Fact) → IsKept facts kept.now → Together facts
        → MatchOption result (AllByRecursion (λ line. IsFalse (list_any (denies_group line.name) facts)) (active_groups block.now))
        (λ name. IsTrue (is_listed (active_groups block.now) name) × IsTrue (list_any (denies_group name) facts)) }
{
    for line in block.groups() {
        if !kept.may_be(&line.name) {
            return Some(line.name);
        }
    }
    None
}

/// Returns the group, if this is its name.
fn named<'s>(group: Option<&GroupName<'s>>, name: &[u8]) -> Option<GroupName<'s>>
    ensures { MatchOption result (option_map (λ name. name.now) group.entry ≡ Some name.now → ⊥) (λ found. (name.now ≡ found)
        × (option_map (λ name. name.now) group.entry ≡ Some found)) }
{
    let group = group?;
    (group.as_slice() == name).then_some(group.copy())
}

/// Returns the point of a group.
fn point(group: Option<GroupName<'_>>) -> Option<Point<'_>>
    ensures { option_map point_of result ≡ option_map Group group.entry }
{
    Some(Point::Group(group?))
}
