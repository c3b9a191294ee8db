//! What answers say by themselves.
ghost use Rattle.std.specs.{Prelude.{◌≡◌, ℕ, List, [], ◌∷◌, ◌++◌, IfOk, map, option_map}, List.{AllByRecursion}};
ghost use Rattle.nntp_wire.specs.Limit.{greatest};
ghost use Rattle.nntp_article.specs.{declared.session.profile.Profile.{Profile}, Session.Limit.{profile_of}, Inner.Listed.{lists, lists_of}};
ghost use Rattle.nntp_said.specs.Facts.{Fact, group_of};
ghost use Rattle.nntp_theory.specs.{Inner.{Together.{Together}, Conflict.{FitsThere}}, Conflict.{Placed as PlacedValue, a_group, the_group, told}};
ghost use Rattle.nntp_kept.specs.Inner.{Kept.{IsKept, AreAdded}, Saying.{TellsThere}, SayingView.{saying_of}};
ghost use Rattle.nntp_facts.specs.{Inner.Told.{AreTold, AreToldWith, PlacesTold}, Standing.{stands_of}};

use crate::placed::Placed;
use nntp_article::Listed;
use nntp_kept::{Kept, Saying};
use nntp_numbers::NumbersPart;
use nntp_wire::{GroupName, Limit, Marks};
use std::alloc::{AllocError, Allocator};

/// Adds what an answer says by itself, if some spool has it and all before, and tells whether
/// one may. If none has, and after an error, the value says nothing of use.
pub(crate) fn tell<A: Allocator + Copy>(
    alloc: A,
    kept: &mut Kept<A>,
    limit: Limit,
    marks: Marks,
    answer: &Placed<'_>,
) -> Result<bool, AllocError>
    ensures { IfOk result (λ does. (facts : List Fact) → IsKept facts kept.old → Together facts → FitsThere (profile_of limit marks) (stands_of answer.now)
        → AreTold (profile_of limit marks) facts (told (profile_of limit marks) (stands_of answer.now)) kept.new does) }
{
    let listed = Listed::of(alloc, answer.answer())?;
    // It is lent, and so dropped at one exit alone: the check goes through each drop.
    tell_listing(kept, limit, marks, answer, &listed)
}

/// Adds what an answer says by itself, as [`tell`] does; `listed` is what it lists.
fn tell_listing<'a, A: Allocator + Copy>(
    kept: &mut Kept<A>,
    limit: Limit,
    marks: Marks,
    answer: &Placed<'a>,
    listed: &Listed<'a, A>,
) -> Result<bool, AllocError>
    requires { lists listed.now ≡ lists_of (stands_of answer.now).response }
    ensures { IfOk result (λ does. (facts : List Fact) → IsKept facts kept.old → Together facts → FitsThere (profile_of limit marks) (stands_of answer.now)
        → AreTold (profile_of limit marks) facts (told (profile_of limit marks) (stands_of answer.now)) kept.new does) }
{
    let response = answer.answer();
    let saying = Saying::of(
        marks,
        answer.selected_name(),
        answer.position(),
        answer.prompt(),
        response,
        listed.numbers(),
    );
    if !tell_group(kept, limit, &saying, answer.selected())? {
        return Ok(false);
    }
    kept.note(&saying, listed)
}

/// Adds that there is the group of which the answer speaks, if it speaks of one and this stands
/// together with all before, and tells whether it does.
#[tactic(auto, using(nntp_theory::proofs::OkResults::if_ok))]
fn tell_group<A: Allocator + Copy>(
    kept: &mut Kept<A>,
    limit: Limit,
    saying: &Saying<'_>,
    selected: Option<&GroupName<'_>>,
) -> Result<bool, AllocError>
    ensures { IfOk result (λ does. (profile : Profile) (facts more : List Fact) → profile.limit ≡ greatest limit → IsKept facts kept.old → Together facts
        → TellsThere (option_map (λ name. name.now) selected.entry) (saying_of saying.now) more
        → AreAdded facts (the_group profile (group_of more)) kept.old kept.new does) }
{
    match saying.group_of(selected) {
        Some(name) => note_group(kept, limit, name),
        None => Ok(true),
    }
}

/// Adds that there is such a group, if it stands together with all before, and tells whether it
/// does.
fn note_group<A: Allocator + Copy>(
    kept: &mut Kept<A>,
    limit: Limit,
    name: &GroupName<'_>,
) -> Result<bool, AllocError>
    ensures { IfOk result (λ does. (profile : Profile) (facts : List Fact) → profile.limit ≡ greatest limit → IsKept facts kept.old → Together facts
        → AreAdded facts (a_group profile name.now) kept.old kept.new does) }
{
    let numbers = NumbersPart::of_widest(limit);
    kept.note(&Saying::selects(name, numbers), &Listed::Nothing)
}

/// Adds what the answer at the place says by itself, as [`tell`] does. Where there is
/// none, nothing is said.
pub(crate) fn tell_at<A: Allocator + Copy>(
    alloc: A,
    kept: &mut Kept<A>,
    limit: Limit,
    marks: Marks,
    answers: &[Placed<'_>],
    place: usize,
) -> Result<bool, AllocError>
    ensures { IfOk result (λ does. (bad : PlacedValue) (places : List ℕ) → AllByRecursion (FitsThere (profile_of limit marks)) (map stands_of answers.now)
        → AreToldWith (profile_of limit marks) bad (map stands_of answers.now) places kept.old
        → PlacesTold (profile_of limit marks) bad (map stands_of answers.now) (places ++ place ∷ []) kept.new does) }
{
    match answers.get(place) {
        Some(answer) => tell(alloc, kept, limit, marks, answer),
        None => Ok(true),
    }
}
