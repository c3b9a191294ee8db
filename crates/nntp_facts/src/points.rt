//! A point, of the first kind that there is, about which a bad answer and accepted ones conflict.
ghost use Rattle.std.specs.{Prelude.{◌≡◌, ◌<◌, ◌^◌, ◌∷◌, List, map, IfOk, MatchOption}, List.{AllByRecursion}};
ghost use Rattle.nntp_article.specs.{Session.Limit.{profile_of}, declared.session.profile.Profile.{Profile}};
ghost use Rattle.nntp_said.specs.Facts.{Fact};
ghost use Rattle.nntp_theory.specs.{Conflict.{told_with, places_of, IsFound, IsFirstPoint}, Inner.Conflict.{FitsThere, HasLast}};
ghost use Rattle.nntp_facts.specs.Inner.{Points.{AreHeld, with_numbers}, PointView.{point_of}, StatementView.{held_of, held_of_refusal, listing_of}};
ghost use Rattle.nntp_facts.specs.Standing.{stands_of};
ghost use Rattle.nntp_pair.specs.Inner.Pairing.{lines_in};

mod statement;

use crate::beside::point;
use crate::conflict::{Core, tell_all};
use crate::placed::Placed;
use crate::point::Point;
use nntp_article::Listed;
use nntp_kept::Kept;
use nntp_wire::{Limit, Marks};
pub(crate) use statement::Statement;
use std::alloc::{AllocError, Allocator, Global};

/// A kind of points.
#[derive(Clone, Copy)]
pub(crate) enum Kind {
    Step,
    Group,
    Numbers(NumbersKind),
    IdOf,
    PlaceOf,
    Article,
    HeadOf,
    BodyOf,
    FieldOf,
}

/// A kind of points that are about the numbers of a group.
#[derive(Clone, Copy)]
pub(crate) enum NumbersKind {
    Number,
    Count,
    First,
}

/// All kinds, in the order in which they are told.
const KINDS: [Kind; 11] = [
    Kind::Step,
    Kind::Group,
    Kind::Numbers(NumbersKind::Number),
    Kind::Numbers(NumbersKind::Count),
    Kind::Numbers(NumbersKind::First),
    Kind::IdOf,
    Kind::PlaceOf,
    Kind::Article,
    Kind::HeadOf,
    Kind::BodyOf,
    Kind::FieldOf,
];

/// An answer, and what it lists.
#[derive(Drop)]
struct Listing<'a, A: Allocator> {
    answer: &'a Placed<'a>,
    listed: Listed<'a, A>,
}

/// A bad answer, and accepted ones with which it conflicts: all of them stand together but for the last one.
#[derive(Drop)]
pub struct Conflict<'a, A: Allocator = Global> {
    limit: Limit,
    marks: Marks,
    /// What all but the last of the answers say.
    kept: Kept<A>,
    /// The last of the answers.
    last: Listing<'a, A>,
}

impl<'a, A: Allocator + Copy> Conflict<'a, A> {
    /// Takes the bad answer, and the accepted ones at all places of the core. It takes time in the order of that of noting
    /// them.
    ///
    /// # Errors
    ///
    /// If memory is refused.
    pub fn of(
        alloc: A,
        limit: Limit,
        marks: Marks,
        answers: &'a [Placed<'a>],
        bad: &'a Placed<'a>,
        core: &Core<A>,
    ) -> Result<Conflict<'a, A>, AllocError>
        ensures { IfOk result (λ conflict. AllByRecursion (FitsThere (profile_of limit marks)) (stands_of bad.now ∷ map stands_of answers.now)
            → IsFound (profile_of limit marks) (stands_of bad.now) (map stands_of answers.now) core.now
            → HasLast core.now
            → AreHeld (profile_of limit marks)
            (told_with (profile_of limit marks) (stands_of bad.now) (map stands_of answers.now) (places_of core.now)) (held_of conflict)) }
    {
        let places = core.all_places(alloc)?;
        let mut kept = Kept::new(alloc);
        let Some((place, others)) = places.split_last() else {
            return Conflict::with_last(alloc, limit, marks, kept, bad);
        };
        // They stand together, since none of them can be left out.
        tell_all(alloc, &mut kept, limit, marks, answers, bad, others)?;
        let last = answers.get(*place).unwrap_or(bad);
        Conflict::with_last(alloc, limit, marks, kept, last)
    }

    /// Puts the last answer beside what is kept of the others.
    fn with_last(
        alloc: A,
        limit: Limit,
        marks: Marks,
        kept: Kept<A>,
        last: &'a Placed<'a>,
    ) -> Result<Conflict<'a, A>, AllocError>
        ensures held { IfOk result (λ conflict. held_of conflict
            ≡ record { profile = profile_of limit marks; kept = kept; last = with_numbers (stands_of last.now) }) }
        ensures few { IfOk result (λ conflict. lines_in (stands_of last.now).response < 2 ^ 64) }
    {
        let last = Listing::of(alloc, last)?;
        Ok(Conflict {
            limit,
            marks,
            kept,
            last,
        })
    }

    /// Returns the first point about which the answers conflict, in the order of [`Point`]'s variants; of several of a kind
    /// it may be any. There always is one.
    ///
    /// # Errors
    ///
    /// If memory is refused.
    pub fn point(&self) -> Result<Option<Point<'_>>, AllocError>
        ensures { IfOk result (λ point. (profile : Profile) (all : List Fact) → AreHeld profile all (held_of self.now)
            → MatchOption point ⊥ (λ point. IsFirstPoint all (point_of point))) }
    {
        first_point(&self.kept, self.limit, self.marks, &self.last)
    }
}

/// A bad answer, and all that the accepted ones say, which refuses it.
#[derive(Drop)]
pub struct Refusal<'a, A: Allocator = Global> {
    limit: Limit,
    marks: Marks,
    /// What the accepted answers say.
    kept: &'a Kept<A>,
    /// The bad answer.
    last: Listing<'a, A>,
}

impl<'a, A: Allocator + Copy> Refusal<'a, A> {
    /// Puts the bad answer beside what is kept of the accepted ones.
    pub(crate) fn of(
        alloc: A,
        limit: Limit,
        marks: Marks,
        kept: &'a Kept<A>,
        bad: &'a Placed<'a>,
    ) -> Result<Refusal<'a, A>, AllocError>
        ensures held { IfOk result (λ refusal. held_of_refusal refusal
            ≡ record { profile = profile_of limit marks; kept = kept.now; last = with_numbers (stands_of bad.now) }) }
        ensures few { IfOk result (λ refusal. lines_in (stands_of bad.now).response < 2 ^ 64) }
    {
        let last = Listing::of(alloc, bad)?;
        Ok(Refusal {
            limit,
            marks,
            kept,
            last,
        })
    }

    /// Returns the first point about which the bad answer conflicts with all that the accepted ones say, as
    /// [`Conflict::point`] does.
    ///
    /// # Errors
    ///
    /// If memory is refused.
    pub fn point(&self) -> Result<Option<Point<'_>>, AllocError>
        ensures { IfOk result (λ point. (profile : Profile) (all : List Fact) → AreHeld profile all (held_of_refusal self.now)
            → MatchOption point ⊥ (λ point. IsFirstPoint all (point_of point))) }
    {
        first_point(self.kept, self.limit, self.marks, &self.last)
    }
}

/// Returns the first point about which an answer conflicts with what is kept.
fn first_point<'s, A: Allocator + Copy>(
    kept: &'s Kept<A>,
    limit: Limit,
    marks: Marks,
    last: &'s Listing<'s, A>,
) -> Result<Option<Point<'s>>, AllocError>
    ensures { IfOk result (λ point. (profile : Profile) (all : List Fact)
        → AreHeld profile all (record { profile = profile_of limit marks; kept = kept.now; last = listing_of last.now })
        → MatchOption point ⊥ (λ point. IsFirstPoint all (point_of point))) }
{
    let told = Statement::of(marks, last.answer, last.listed.numbers());
    for kind in &KINDS {
        if let Some(point) = point(kept, limit, *kind, &told)? {
            return Ok(Some(point));
        }
    }
    Ok(None)
}

impl<'a, A: Allocator + Copy> Listing<'a, A> {
    /// Puts what an answer lists beside it.
    fn of(alloc: A, answer: &'a Placed<'a>) -> Result<Listing<'a, A>, AllocError>
        ensures numbers { IfOk result (λ listing. listing_of listing ≡ with_numbers (stands_of answer.now)) }
        ensures few { IfOk result (λ listing. lines_in (stands_of answer.now).response < 2 ^ 64) }
    {
        Ok(Listing {
            answer,
            listed: Listed::of(alloc, answer.answer())?,
        })
    }
}
