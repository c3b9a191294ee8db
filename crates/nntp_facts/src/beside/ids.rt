//! Ids and numbers that are kept otherwise.
ghost use Rattle.std.specs.Prelude.{◌≡◌, ◌++◌, List, option_map};
ghost use Rattle.nntp_wire.specs.Listing.{overviews_of};
ghost use Rattle.nntp_article.specs.{declared.session.profile.Profile.{Profile}, Session.Spool.{Name}};
ghost use Rattle.nntp_said.specs.Facts.{Fact};
ghost use Rattle.nntp_theory.specs.Given.{first_given};
ghost use Rattle.nntp_kept.specs.Inner.Kept.{AreKept, Told};
ghost use Rattle.nntp_facts.specs.Inner.{Points.{IsBeside, IsPointOf, other_id_at, other_place_of}, PointView.{point_of}, StatementView.{statement_of}};

use crate::point::Point;
use crate::points::Statement;
use nntp_kept::Kept;
use nntp_wire::Block;
use std::alloc::Allocator;

/// Returns the first number at which the answer shows an id, and another one is kept.
pub(crate) fn other_id<'s, A: Allocator>(kept: &Kept<A>, told: &Statement<'s>) -> Option<Point<'s>>
    ensures { (profile : Profile) (facts more : List Fact) → IsBeside profile facts kept.now (statement_of told.now) more
        → IsPointOf (facts ++ more) 5 (option_map point_of result) }
{
    let Some(group) = &told.saying.group else {
        return None;
    };
    if let Some(list) = &told.saying.overviews {
        return other_listed_id(kept, group.name, list.block);
    }
    let at = group.id?;
    other_id_at(kept, group.name, at.number, at.id)
}

/// Returns the first number of an overview at which another id is kept.
fn other_listed_id<'s, A: Allocator>(
    kept: &Kept<A>,
    name: &'s [u8],
    block: &Block<'s>,
) -> Option<Point<'s>>
    ensures { (tells : Name → Told) → AreKept tells kept.now.groups → option_map point_of result
        ≡ first_given (λ o. other_id_at (tells name.now).ids name.now (o.number, o.id)) (overviews_of block.now) }
{
    for overview in block.overviews() {
        let point = other_id_at(kept, name, overview.number, overview.id.as_str());
        if point.is_some() {
            return point;
        }
    }
    None
}

/// Returns the number, if another id than this is kept there.
fn other_id_at<'s, A: Allocator>(
    kept: &Kept<A>,
    name: &'s [u8],
    number: u64,
    id: &str,
) -> Option<Point<'s>>
    ensures { (tells : Name → Told) → AreKept tells kept.now.groups
        → option_map point_of result ≡ other_id_at (tells name.now).ids name.now (number, id.now) }
{
    (!kept.groups().may_have(name, number, id)).then_some(Point::IdOf { name, number })
}

/// Returns the first id that the answer shows, and that is kept at another number.
pub(crate) fn other_place<'s, A: Allocator>(
    kept: &Kept<A>,
    told: &Statement<'s>,
) -> Option<Point<'s>>
    ensures { (profile : Profile) (facts more : List Fact) → IsBeside profile facts kept.now (statement_of told.now) more
        → IsPointOf (facts ++ more) 6 (option_map point_of result) }
{
    let Some(group) = &told.saying.group else {
        return None;
    };
    if let Some(list) = &told.saying.overviews {
        return other_listed_place(kept, group.name, list.block);
    }
    let at = group.id?;
    other_place_of(kept, group.name, at.number, at.id)
}

/// Returns the first id of an overview that is kept at another number.
fn other_listed_place<'s, A: Allocator>(
    kept: &Kept<A>,
    name: &'s [u8],
    block: &Block<'s>,
) -> Option<Point<'s>>
    ensures { (tells : Name → Told) → AreKept tells kept.now.groups → option_map point_of result
        ≡ first_given (λ o. other_place_of (tells name.now).places name.now (o.number, o.id)) (overviews_of block.now) }
{
    for overview in block.overviews() {
        let point = other_place_of(kept, name, overview.number, overview.id.as_str());
        if point.is_some() {
            return point;
        }
    }
    None
}

/// Returns the id, if it is kept at another number than this.
fn other_place_of<'s, A: Allocator>(
    kept: &Kept<A>,
    name: &'s [u8],
    number: u64,
    id: &'s str,
) -> Option<Point<'s>>
    ensures { (tells : Name → Told) → AreKept tells kept.now.groups
        → option_map point_of result ≡ other_place_of (tells name.now).places name.now (number, id.now) }
{
    if kept.groups().may_stand_at(name, number, id) {
        None
    } else {
        Some(Point::PlaceOf {
            name,
            id: id.as_bytes(),
        })
    }
}
