//! What heads and overviews tell of four headers, and is kept otherwise.
ghost use Rattle.std.specs.Prelude.{◌++◌, List, option_map};
ghost use Rattle.nntp_wire.specs.Listing.{overviews_of};
ghost use Rattle.nntp_article.specs.{Article.Fields.{fields_of_head}, declared.session.profile.Profile.{Profile}};
ghost use Rattle.nntp_said.specs.Facts.{Fact};
ghost use Rattle.nntp_facts.specs.Inner.{Points.{IsBeside, IsPointOf, IsFieldOf, IsFieldAmong}, PointView.{point_of}, StatementView.{statement_of}};

use crate::point::Point;
use crate::points::Statement;
use nntp_article::Fields;
use nntp_kept::{ArticlePart, Kept, Sent};
use nntp_wire::Block;
use std::alloc::Allocator;

/// Returns the id of which the answer tells other words of a header than are kept, and the first such header.
pub(crate) fn other_field<'s, A: Allocator>(
    kept: &Kept<A>,
    told: &Statement<'s>,
) -> Option<Point<'s>>
    ensures { (profile : Profile) (facts more : List Fact) → IsBeside profile facts kept.now (statement_of told.now) more
        → IsPointOf (facts ++ more) 10 (option_map point_of result) }
{
    if let Some(list) = &told.saying.overviews {
        return other_listed_field(kept, list.block);
    }
    match &told.saying.article {
        None => None,
        Some(ArticlePart::Lacks(_)) => None,
        Some(ArticlePart::Exists(_)) => None,
        Some(ArticlePart::Sends { id, what, block }) => {
            other_field_sent(kept, *id, &Sent::of(*what, *block))
        }
        Some(ArticlePart::Describes { block, .. }) => other_listed_field(kept, *block),
    }
}

/// Returns the first id of an overview that tells other words of a header than are kept, and the first such header.
#[tactic(auto, using(crate::proofs::PointsFound::FieldsBeside::at_found, crate::proofs::PointsFound::FieldsBeside::past_found))]
fn other_listed_field<'s, A: Allocator>(kept: &Kept<A>, block: &Block<'s>) -> Option<Point<'s>>
    ensures { IsFieldAmong kept.now (overviews_of block.now) (option_map point_of result) }
{
    for overview in block.overviews() {
        let id = overview.id.as_str();
        let point = other_field_told(kept, id, Fields::of_overview(&overview));
        if point.is_some() {
            return point;
        }
    }
    None
}

/// Returns the id, if the head that is sent tells other words of a header than are kept, and the first such header.
fn other_field_sent<'s, A: Allocator>(
    kept: &Kept<A>,
    id: &'s str,
    sent: &Sent<'_>,
) -> Option<Point<'s>>
    ensures { IsFieldOf kept.now id.now (option_map fields_of_head sent.now.head) (option_map point_of result) }
{
    other_field_told(kept, id, Some(Fields::of_head(sent.head.as_ref()?)))
}

/// Returns the id, if other words of a header are kept than are told, and the first such header.
fn other_field_told<'s, A: Allocator>(
    kept: &Kept<A>,
    id: &'s str,
    told: Option<Fields<'_>>,
) -> Option<Point<'s>>
    ensures { IsFieldOf kept.now id.now told.entry (option_map point_of result) }
{
    let field = kept.articles().other_field(id, told?)?;
    Some(Point::FieldOf {
        id: id.as_bytes(),
        field,
    })
}
