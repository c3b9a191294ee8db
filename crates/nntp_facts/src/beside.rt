//! Where what an answer says conflicts with what is kept.
ghost use Rattle.std.specs.Prelude.{◌≡◌, ◌++◌, List, IfOk, option_map};
ghost use Rattle.nntp_wire.specs.Limit.{greatest};
ghost use Rattle.nntp_article.specs.declared.session.profile.Profile.{Profile};
ghost use Rattle.nntp_said.specs.Facts.{Fact};
ghost use Rattle.nntp_facts.specs.Inner.{Points.{IsBeside, IsPointOf, NoneBefore}, PointView.{point_of}, StatementView.{statement_of, rank_of}};

mod articles;
mod fields;
mod groups;
mod ids;
mod numbers;

use crate::point::Point;
use crate::points::{Kind, Statement};
use articles::{denied_article, other_body, other_head};
use fields::other_field;
use groups::denied_group;
use ids::{other_id, other_place};
use nntp_kept::Kept;
use nntp_wire::Limit;
use numbers::{impossible, point_of_numbers};
use std::alloc::{AllocError, Allocator};

/// Returns a point of the kind about which what an answer says conflicts with what is kept, if there is one.
pub(crate) fn point<'s, A: Allocator + Copy>(
    kept: &'s Kept<A>,
    limit: Limit,
    kind: Kind,
    told: &Statement<'s>,
) -> Result<Option<Point<'s>>, AllocError>
    ensures { IfOk result (λ point. (profile : Profile) (facts more : List Fact) → profile.limit ≡ greatest limit
        → IsBeside profile facts kept.now (statement_of told.now) more
        → NoneBefore (facts ++ more) (rank_of kind) → IsPointOf (facts ++ more) (rank_of kind) (option_map point_of point)) }
{
    match kind {
        Kind::Step => Ok(impossible(told)),
        Kind::Group => denied_group(kept, told),
        Kind::Numbers(kind) => point_of_numbers(kept, limit, kind, told),
        Kind::IdOf => Ok(other_id(kept, told)),
        Kind::PlaceOf => Ok(other_place(kept, told)),
        Kind::Article => Ok(denied_article(kept, told)),
        Kind::HeadOf => Ok(other_head(kept, told)),
        Kind::BodyOf => Ok(other_body(kept, told)),
        Kind::FieldOf => Ok(other_field(kept, told)),
    }
}
