//! Articles that are kept otherwise.
ghost use Rattle.std.specs.{Prelude.{◌≡◌, ◌++◌, if◌then◌else◌, false, List, None, Some, MatchOption, option_map}, Option.{option_map_or}, FinMap.{get}};
ghost use Rattle.nntp_wire.specs.Listing.{overviews_of};
ghost use Rattle.nntp_kept_articles.specs.Inner.Articles.{is_there};
ghost use Rattle.nntp_kept.specs.Inner.Kept.{IsKept};
ghost use Rattle.nntp_facts.specs.Inner.{Points.{IsBeside, IsPointOf}, PointView.{point_of}, StatementView.{statement_of}};
ghost use Rattle.nntp_theory.specs.{Conflict.{Article, HeadOf, BodyOf}, Given.{first_given, head_in, body_in}, Inner.Together.{AreSame}};
ghost use Rattle.nntp_article.specs.declared.session.profile.Profile.{Profile};
ghost use Rattle.nntp_said.specs.Facts.{Fact};

use crate::point::Point;
use crate::points::Statement;
use nntp_kept::{ArticlePart, Kept, Sent};
use nntp_wire::Block;
use std::alloc::Allocator;

/// Returns the id of which the answer says that it has an article, and of which it is kept that it has none, or the
/// other way round.
pub(crate) fn denied_article<'s, A: Allocator>(
    kept: &Kept<A>,
    told: &Statement<'s>,
) -> Option<Point<'s>>
    ensures { (profile : Profile) (facts more : List Fact) → IsBeside profile facts kept.now (statement_of told.now) more
        → IsPointOf (facts ++ more) 7 (option_map point_of result) }
{
    if let Some(list) = &told.saying.overviews {
        return lacked_listed_article(kept, list.block);
    }
    match &told.saying.article {
        None => None,
        Some(ArticlePart::Lacks(id)) => shown_article(kept, *id),
        Some(ArticlePart::Exists(id)) => lacked_article(kept, *id),
        Some(ArticlePart::Sends { id, .. }) => lacked_article(kept, *id),
        Some(ArticlePart::Describes { id, .. }) => lacked_article(kept, *id),
    }
}

/// Returns the first id of an overview of which it is kept that it has no article.
fn lacked_listed_article<'s, A: Allocator>(kept: &Kept<A>, block: &Block<'s>) -> Option<Point<'s>>
    ensures { option_map point_of result ≡ first_given (λ o. if option_map_or (λ a. a.is_denied) (get kept.now.articles o.id) false then Some
        (Article o.id) else None) (overviews_of block.now) }
{
    for overview in block.overviews() {
        let point = lacked_article(kept, overview.id.as_str());
        if point.is_some() {
            return point;
        }
    }
    None
}

/// Returns the id, if it is kept that it has an article.
fn shown_article<'s, A: Allocator>(kept: &Kept<A>, id: &'s [u8]) -> Option<Point<'s>>
    ensures { option_map point_of result ≡ (if is_there (get kept.now.articles id.now) then Some (Article id.now) else None) }
{
    kept.articles().has_octets(id).then_some(Point::Article(id))
}

/// Returns the id, if it is kept that it has no article.
fn lacked_article<'s, A: Allocator>(kept: &Kept<A>, id: &'s str) -> Option<Point<'s>>
    ensures { option_map point_of result ≡ (if option_map_or (λ a. a.is_denied) (get kept.now.articles id.now) false then Some (Article id.now) else None) }
{
    kept.articles()
        .is_denied(id)
        .then_some(Point::Article(id.as_bytes()))
}

/// Returns the id, if another head of its article is kept than the one that is sent.
fn other_head_sent<'s, A: Allocator>(
    kept: &Kept<A>,
    id: &'s str,
    sent: &Sent<'_>,
) -> Option<Point<'s>>
    ensures { (facts : List Fact) → IsKept facts kept.now
        → MatchOption (option_map point_of result) (AreSame sent.now.head (first_given (head_in id.now) facts))
        (λ point. (point ≡ HeadOf id.now) × (AreSame sent.now.head (first_given (head_in id.now) facts) → ⊥)) }
{
    (!kept.articles().may_have_head(id, sent)).then_some(Point::HeadOf(id.as_bytes()))
}

/// Returns the id of which the answer sends a head, if another one is kept.
pub(crate) fn other_head<'s, A: Allocator>(
    kept: &Kept<A>,
    told: &Statement<'s>,
) -> Option<Point<'s>>
    ensures { (profile : Profile) (facts more : List Fact) → IsBeside profile facts kept.now (statement_of told.now) more
        → IsPointOf (facts ++ more) 8 (option_map point_of result) }
{
    match &told.saying.article {
        None => None,
        Some(ArticlePart::Lacks(_)) => None,
        Some(ArticlePart::Exists(_)) => None,
        Some(ArticlePart::Describes { .. }) => None,
        Some(ArticlePart::Sends { id, what, block }) => {
            other_head_sent(kept, *id, &Sent::of(*what, *block))
        }
    }
}

/// Returns the id, if another body of its article is kept than the one that is sent.
fn other_body_sent<'s, A: Allocator>(
    kept: &Kept<A>,
    id: &'s str,
    sent: &Sent<'_>,
) -> Option<Point<'s>>
    ensures { (facts : List Fact) → IsKept facts kept.now
        → MatchOption (option_map point_of result) (AreSame sent.now.body (first_given (body_in id.now) facts))
        (λ point. (point ≡ BodyOf id.now) × (AreSame sent.now.body (first_given (body_in id.now) facts) → ⊥)) }
{
    (!kept.articles().may_have_body(id, sent)).then_some(Point::BodyOf(id.as_bytes()))
}

/// Returns the id of which the answer sends a body, if another one is kept.
pub(crate) fn other_body<'s, A: Allocator>(
    kept: &Kept<A>,
    told: &Statement<'s>,
) -> Option<Point<'s>>
    ensures { (profile : Profile) (facts more : List Fact) → IsBeside profile facts kept.now (statement_of told.now) more
        → IsPointOf (facts ++ more) 9 (option_map point_of result) }
{
    match &told.saying.article {
        None => None,
        Some(ArticlePart::Lacks(_)) => None,
        Some(ArticlePart::Exists(_)) => None,
        Some(ArticlePart::Describes { .. }) => None,
        Some(ArticlePart::Sends { id, what, block }) => {
            other_body_sent(kept, *id, &Sent::of(*what, *block))
        }
    }
}
