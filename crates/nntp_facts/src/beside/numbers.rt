//! Numbers of a group that are known and denied, too many, or not as is demanded.
ghost use Rattle.std.specs.{Prelude.{◌≡◌, ◌++◌, ◌∷◌, [], None, List, IfOk, MatchOption, option_map}, List.{AllByRecursion}};
ghost use Rattle.nntp_wire.specs.{Listing.{active_groups}, declared.marks.Marks.TheVariants.{Lenient}, Limit.{greatest}};
ghost use Rattle.nntp_said.specs.{Asks.{Ask, Estimates, Bounds}, Facts.{Fact}};
ghost use Rattle.nntp_kept.specs.Inner.{Kept.{Kept as KeptValue, IsKept}, SayingView.{active_said}};
ghost use Rattle.nntp_facts.specs.Inner.{Points.{Statement as StatementValue, IsAbout, IsBeside, IsPointOf, IsPointIn, NoneBefore}, PointView.{point_of}};
ghost use Rattle.nntp_facts.specs.Inner.StatementView.{statement_of, rank_of_numbers};
ghost use Rattle.nntp_theory.specs.{Conflict.{widest, Point as PointValue, rank, ConflictAt}, Given.{asks_of}};
ghost use Rattle.nntp_numbers.specs.Inner.{Part.{Says}, PartView.{said}, Summary.{IsSummary, AreBounded}};
ghost use Rattle.nntp_article.specs.declared.session.profile.Profile.{Profile};

use crate::point::Point;
use crate::points::{NumbersKind, Statement};
use nntp_kept::{GroupPart, Kept};
use nntp_numbers::{Numbers, NumbersPart};
use nntp_wire::{ActiveLine, Block, Limit};
use std::alloc::{AllocError, Allocator};

/// Returns the group of whose numbers the answer says what can't be.
pub(crate) fn impossible<'s>(told: &Statement<'s>) -> Option<Point<'s>>
    ensures { (profile : Profile) (facts more : List Fact) (k : KeptValue) → IsBeside profile facts k (statement_of told.now) more
        → IsPointOf (facts ++ more) 0 (option_map point_of result) }
{
    let Some(group) = &told.saying.group else {
        return None;
    };
    if group.numbers.is_possible {
        return None;
    }
    Some(Point::Step(group.name))
}

/// Returns a point of the kind that is about the numbers of a group of which the answer speaks.
pub(crate) fn point_of_numbers<'s, A: Allocator + Copy>(
    kept: &Kept<A>,
    limit: Limit,
    kind: NumbersKind,
    told: &Statement<'s>,
) -> Result<Option<Point<'s>>, AllocError>
    ensures { IfOk result (λ point. (profile : Profile) (facts more : List Fact) → profile.limit ≡ greatest limit
        → IsBeside profile facts kept.now (statement_of told.now) more
        → NoneBefore (facts ++ more) (rank_of_numbers kind) → IsPointOf (facts ++ more) (rank_of_numbers kind) (option_map point_of point)) }
{
    match &told.saying.group {
        Some(group) => point_of_group(kept, limit, kind, group),
        None => match &told.saying.groups {
            Some(list) => point_of_listed(kept, kind, list.block),
            None => Ok(None),
        },
    }
}

/// Returns a point of the kind that is about the numbers of the group of which this is said.
fn point_of_group<'s, A: Allocator + Copy>(
    kept: &Kept<A>,
    limit: Limit,
    kind: NumbersKind,
    group: &GroupPart<'s>,
) -> Result<Option<Point<'s>>, AllocError>
    ensures { IfOk result (λ point. (profile : Profile) (facts all : List Fact) (asks : List Ask) → profile.limit ≡ greatest limit → IsKept facts kept.now
        → Says (said group.now.numbers) asks
        → asks_of group.now.name.now all ≡ asks_of group.now.name.now facts ++ Estimates Lenient (widest profile) ∷ asks
        → NoneBefore all (rank_of_numbers kind) → IsPointIn all group.now.name.now (rank_of_numbers kind) (option_map point_of point)) }
{
    let mut numbers = kept.groups().numbers(group.name)?;
    numbers.add(&NumbersPart::of_widest(limit))?;
    point_with(kind, group.name, &mut numbers, &group.numbers)
}

/// Returns a point of the kind that is about the numbers of a group that is listed.
fn point_of_listed<'s, A: Allocator + Copy>(
    kept: &Kept<A>,
    kind: NumbersKind,
    block: &Block<'s>,
) -> Result<Option<Point<'s>>, AllocError>
    ensures { IfOk result (λ point. (facts all : List Fact) → IsKept facts kept.now
        → AllByRecursion (λ line. asks_of line.name all ≡ asks_of line.name facts ++ Bounds line.low line.high ∷ []) (active_groups block.now)
        → NoneBefore all (rank_of_numbers kind) → MatchOption (option_map point_of point)
        (AllByRecursion (λ line. (other : PointValue) → rank other ≡ rank_of_numbers kind → IsAbout line.name other
        → ¬ (ConflictAt all other)) (active_groups block.now))
        (λ point. ConflictAt all point × (rank point ≡ rank_of_numbers kind))) }
{
    for line in block.groups() {
        if let Some(point) = point_of_line(kept, kind, line)? {
            return Ok(Some(point));
        }
    }
    Ok(None)
}

/// Returns a point of the kind that is about the numbers of the group that the line lists.
fn point_of_line<'s, A: Allocator + Copy>(
    kept: &Kept<A>,
    kind: NumbersKind,
    line: ActiveLine<'s>,
) -> Result<Option<Point<'s>>, AllocError>
    ensures { IfOk result (λ point. (facts all : List Fact) → IsKept facts kept.now
        → asks_of line.entry.name all ≡ asks_of line.entry.name facts ++ Bounds line.entry.low line.entry.high ∷ []
        → NoneBefore all (rank_of_numbers kind) → IsPointIn all line.entry.name (rank_of_numbers kind) (option_map point_of point)) }
{
    let name = line.name.as_slice();
    let mut numbers = kept.groups().numbers(name)?;
    let part = GroupPart::of_bounds(&line).numbers;
    point_with(kind, name, &mut numbers, &part)
}

/// Returns a point of the kind that is about the numbers of the group, once this is said of them too. They are lent, and
/// so dropped at few exits: the check goes through each drop.
fn point_with<'s, A: Allocator + Copy>(
    kind: NumbersKind,
    name: &'s [u8],
    numbers: &mut Numbers<A>,
    part: &NumbersPart<'_>,
) -> Result<Option<Point<'s>>, AllocError>
    ensures { IfOk result (λ point. (all : List Fact) (asks more : List Ask) → IsSummary numbers.old asks → Says (said part.now) more
        → asks_of name.now all ≡ asks ++ more → AreBounded (asks ++ more)
        → NoneBefore all (rank_of_numbers kind) → IsPointIn all name.now (rank_of_numbers kind) (option_map point_of point)) }
{
    numbers.add(part)?;
    match kind {
        NumbersKind::Number => Ok(denied(name, numbers)),
        NumbersKind::Count => Ok(too_many(name, numbers)),
        NumbersKind::First => Ok(unmet(name, numbers)),
    }
}

/// Returns a known number of the group that is denied.
#[tactic(auto, using(crate::proofs::PointsFound::NumbersBeside::number_free))]
fn denied<'s, A: Allocator>(name: &'s [u8], numbers: &Numbers<A>) -> Option<Point<'s>>
    ensures { (all : List Fact) → IsSummary numbers.now (asks_of name.now all) → AreBounded (asks_of name.now all)
        → IsPointIn all name.now 2 (option_map point_of result) }
{
    let number = numbers.denied_known()?;
    Some(Point::Number { name, number })
}

/// Returns the group, if more numbers are given than is estimated.
fn too_many<'s, A: Allocator>(name: &'s [u8], numbers: &Numbers<A>) -> Option<Point<'s>>
    ensures { (all : List Fact) → IsSummary numbers.now (asks_of name.now all) → AreBounded (asks_of name.now all) → NoneBefore all 3
        → IsPointIn all name.now 3 (option_map point_of result) }
{
    if numbers.are_too_many() {
        Some(Point::Count(name))
    } else {
        None
    }
}

/// Returns the group, if the given numbers don't meet the demand.
fn unmet<'s, A: Allocator>(name: &'s [u8], numbers: &Numbers<A>) -> Option<Point<'s>>
    ensures { (all : List Fact) → IsSummary numbers.now (asks_of name.now all) → AreBounded (asks_of name.now all) → NoneBefore all 4
        → IsPointIn all name.now 4 (option_map point_of result) }
{
    if numbers.meet_demand() {
        None
    } else {
        Some(Point::First(name))
    }
}
