//! The accepted answers with which a bad one conflicts.
ghost use Rattle.std.specs.{Prelude.{◌≡◌, ◌<◌, ◌≤◌, ◌^◌, ◌∷◌, [], List, ℕ, Some, length, map, IfOk, MatchOption}, List.{AllByRecursion}};
ghost use Rattle.nntp_article.specs.Session.Limit.{profile_of};
ghost use Rattle.nntp_theory.specs.{Conflict.{Placed as PlacedValue, SomeHas, told_with, below, places_of, IsFound}, Inner.Conflict.{FitsThere, IsPartOfCore}};
ghost use Rattle.nntp_kept.specs.Inner.Kept.{IsKept};
ghost use Rattle.nntp_facts.specs.{Inner.Told.{AreToldWith, PlacesTold}, Standing.{stands_of}};

use crate::placed::Placed;
use crate::told::{tell, tell_at};
use nntp_kept::Kept;
use nntp_wire::{Limit, Marks};
use std::alloc::{AllocError, Allocator, Global};
use std::marker::Model;

/// The places of the accepted answers with which a bad one conflicts. None of them can be left
/// out: no spool has what these and the bad one say, and without any one of them some spool has the
/// rest. Another set of such answers may have fewer.
#[derive(Drop)]
pub struct Core<A: Allocator = Global> {
    places: Vec<usize, A>,
    /// Where not all were looked for, the bound below which the others are.
    rest: Option<usize>,
}

impl<A: Allocator> Model for Core<A> {
    ghost use Rattle.nntp_theory.specs.Conflict.{Core as CoreValue};

    ghost Value = { CoreValue };

    ghost view = { λ c. record { places = c.places.items; rest = c.rest } };
}

impl<A: Allocator> Core<A> {
    /// Returns the core of which no place was looked for: those of so many answers are below the bound.
    pub fn below(alloc: A, count: usize) -> Core<A>
        ensures { result ≡ record { places = []; rest = Some count } }
    {
        Core {
            places: Vec::new(alloc),
            rest: Some(count),
        }
    }

    /// Returns the places, in ascending order. They count from 0.
    pub fn places(&self) -> &[usize]
        ensures { result.now ≡ self.now.places }
    {
        &self.places
    }

    /// Returns the bound below which further places are, if not all were looked for. With these
    /// alone the bad answer doesn't conflict; with these and all below the bound it does, and only
    /// together with each of these and one below the bound.
    pub fn rest(&self) -> Option<usize>
        ensures { result ≡ self.now.rest }
    {
        self.rest
    }
}

impl<A: Allocator + Copy> Core<A> {
    /// Returns the places of all answers with which the bad one conflicts: these, and where not all were looked for all
    /// below the bound before them.
    pub(crate) fn all_places(&self, alloc: A) -> Result<Vec<usize, A>, AllocError>
        ensures { IfOk result (λ all. all.items ≡ places_of self.now) }
    {
        let mut all = Vec::new(alloc);
        for place in 0..self.rest.unwrap_or(0) {
            all.push(place)?;
        }
        all.extend_from_slice(&self.places)?;
        Ok(all)
    }

    /// Finds the accepted answers with which a bad one conflicts, from the last one down, and at
    /// most so many. A bad answer that contradicts itself, or what is always so, needs none.
    ///
    /// It takes time in the order of that of noting all the answers, once for each that is found.
    ///
    /// # Errors
    ///
    /// If memory is refused.
    pub fn find(
        alloc: A,
        limit: Limit,
        marks: Marks,
        answers: &[Placed<'_>],
        bad: &Placed<'_>,
        most: usize,
    ) -> Result<Core<A>, AllocError>
        requires fit { AllByRecursion (FitsThere (profile_of limit marks)) (stands_of bad.now ∷ map stands_of answers.now) }
        requires conflict { SomeHas (profile_of limit marks) (told_with (profile_of limit marks) (stands_of bad.now) (map stands_of answers.now)
            (below (length (map stands_of answers.now)))) → ⊥ }
        ensures found { IfOk result (IsFound (profile_of limit marks) (stands_of bad.now) (map stands_of answers.now)) }
        ensures most { IfOk result (λ core. MatchOption core.rest (length core.places ≤ most) (λ _. length core.places ≡ most)) }
    {
        let mut places = Vec::new(alloc);
        let mut bound = answers.len();
        while let Some(mut kept) = keep(alloc, limit, marks, answers, bad, &places)? {
            if places.len() == most {
                return Ok(Core {
                    places,
                    rest: Some(bound),
                });
            }
            bound = search_refused(alloc, &mut kept, limit, marks, answers, bound)?;
            places.insert(0, bound)?;
        }
        Ok(Core { places, rest: None })
    }
}

/// Keeps what the bad answer and those at the places say, if some spool has it.
#[tactic(auto, using(crate::proofs::Keeping::CoresFound::kept_where_told))]
fn keep<A: Allocator + Copy>(
    alloc: A,
    limit: Limit,
    marks: Marks,
    answers: &[Placed<'_>],
    bad: &Placed<'_>,
    places: &[usize],
) -> Result<Option<Kept<A>>, AllocError>
    ensures { IfOk result (λ kept. AllByRecursion (FitsThere (profile_of limit marks)) (stands_of bad.now ∷ map stands_of answers.now)
        → MatchOption kept
        (SomeHas (profile_of limit marks) (told_with (profile_of limit marks) (stands_of bad.now) (map stands_of answers.now) places.now) → ⊥)
        (AreToldWith (profile_of limit marks) (stands_of bad.now) (map stands_of answers.now) places.now)) }
{
    let mut kept = Kept::new(alloc);
    let stands = tell_all(alloc, &mut kept, limit, marks, answers, bad, places)?;
    Ok(stands.then_some(kept))
}

/// Adds what the bad answer and those at the places say where nothing is kept yet, and tells
/// whether some spool has it. If none has, and after an error, what is kept says nothing of use.
pub(crate) fn tell_all<A: Allocator + Copy>(
    alloc: A,
    kept: &mut Kept<A>,
    limit: Limit,
    marks: Marks,
    answers: &[Placed<'_>],
    bad: &Placed<'_>,
    places: &[usize],
) -> Result<bool, AllocError>
    ensures { IfOk result (λ does. IsKept [] kept.old → AllByRecursion (FitsThere (profile_of limit marks)) (stands_of bad.now ∷ map stands_of answers.now)
        → PlacesTold (profile_of limit marks) (stands_of bad.now) (map stands_of answers.now) places.now kept.new does) }
{
    if !tell(alloc, kept, limit, marks, bad)? {
        return Ok(false);
    }
    for place in places {
        if !tell_at(alloc, kept, limit, marks, answers, *place)? {
            return Ok(false);
        }
    }
    Ok(true)
}

/// Finds the first answer that doesn't stand with what is kept and the answers before it. It is
/// one of those below the bound, since all of these don't stand with it. What is kept says
/// nothing of use then.
fn search_refused<A: Allocator + Copy>(
    alloc: A,
    kept: &mut Kept<A>,
    limit: Limit,
    marks: Marks,
    answers: &[Placed<'_>],
    bound: usize,
) -> Result<usize, AllocError>
    requires { 0 < bound }
    ensures below { IfOk result (λ place. place < bound) }
    ensures found { IfOk result (λ place. (bad : PlacedValue) (places : List ℕ)
        → AllByRecursion (FitsThere (profile_of limit marks)) (bad ∷ map stands_of answers.now)
        → AreToldWith (profile_of limit marks) bad (map stands_of answers.now) places kept.old → bound ≤ length (map stands_of answers.now)
        → length (map stands_of answers.now) < 2 ^ 64
        → IsPartOfCore (profile_of limit marks) bad (map stands_of answers.now) bound places
        → IsPartOfCore (profile_of limit marks) bad (map stands_of answers.now) place (place ∷ places)) }
{
    let last = bound - 1;
    for place in 0..last {
        if !tell_at(alloc, kept, limit, marks, answers, place)? {
            return Ok(place);
        }
    }
    Ok(last)
}
