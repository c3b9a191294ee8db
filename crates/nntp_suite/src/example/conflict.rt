//! The accepted answers with which the bad one conflicts, and about what.
ghost use Rattle.std.specs.Prelude.{◌≡◌, ◌∷◌, length, map, IfOk, IfSome};
ghost use Rattle.std.specs.List.{AllByRecursion};
ghost use Rattle.nntp_article.specs.Session.Limit.{profile_of};
ghost use Rattle.nntp_facts.specs.Standing.{stands_of};
ghost use Rattle.nntp_theory.specs.Inner.Conflict.{FitsThere};
ghost use Rattle.nntp_theory.specs.Conflict.{SomeHas, told_with, below};

use crate::example::session::{CLIENT, NAME, SERVER};
use nntp_facts::{Conflict, Core, Facts, Noted, Placed, Point, Standing};
use nntp_pair::{Exchange, Pairs, Step};
use nntp_wire::{Limit, Marks};
use std::alloc::{AllocError, Global};
use std::mem;
use std::test::Fail;

/// The accepted answers of a session, each where it stands, and the first one that contradicts them.
#[derive(Drop)]
pub(crate) struct Contradiction<'a> {
    pub(crate) answers: Vec<Placed<'a>>,
    pub(crate) bad: Placed<'a>,
}

/// An exchange of the one session where that stands.
fn placed<'a>(standing: Standing<'a>, exchange: Exchange<'a>) -> Placed<'a>
    ensures { result ≡ record { session = 1; standing = standing.entry; exchange = exchange.entry } }
{
    Placed {
        session: 1,
        standing,
        exchange,
    }
}

/// Goes over a session up to the first answer that contradicts those before it, if all of those are accepted.
pub(crate) fn first_contradiction<'a>(
    alloc: Global,
    limit: Limit,
    marks: Marks,
    client: &'a [u8],
    server: &'a [u8],
) -> Result<Option<Contradiction<'a>>, AllocError>
    ensures fit { IfOk result (λ found. IfSome found (λ c.
        AllByRecursion (FitsThere (profile_of limit marks)) (stands_of c.bad ∷ map stands_of c.answers.items))) }
    ensures conflict { IfOk result (λ found. IfSome found (λ c. SomeHas (profile_of limit marks)
        (told_with (profile_of limit marks) (stands_of c.bad) (map stands_of c.answers.items)
        (below (length (map stands_of c.answers.items)))) → ⊥)) }
{
    let mut facts = Facts::new(alloc, limit, marks);
    let mut answers = Vec::new(alloc);
    let mut standing = Standing::nowhere();
    let mut pairs = Pairs::new(client, server);
    while let Step::Exchange(exchange) = pairs.next() {
        match facts.note(&exchange) {
            Ok(Noted::Consistent) => {
                let after = standing.after(&exchange);
                let before = mem::replace(&mut standing, after);
                answers.push(placed(before, exchange))?;
            }
            Ok(Noted::Contradiction) => {
                let bad = placed(standing, exchange);
                return Ok(Some(Contradiction { answers, bad }));
            }
            _ => return Ok(None),
        }
    }
    Ok(None)
}

/// The accepted answers with which the bad one conflicts.
fn core_of(
    alloc: Global,
    limit: Limit,
    marks: Marks,
    found: &Contradiction<'_>,
) -> Result<Core, AllocError>
    requires fit { AllByRecursion (FitsThere (profile_of limit marks)) (stands_of found.now.bad ∷ map stands_of found.now.answers.items) }
    requires conflict { SomeHas (profile_of limit marks) (told_with (profile_of limit marks) (stands_of found.now.bad) (map stands_of found.now.answers.items)
        (below (length (map stands_of found.now.answers.items)))) → ⊥ }
{
    Core::find(alloc, limit, marks, &found.answers, &found.bad, 4)
}

/// Whether the answers of a conflict disagree about the first number of the group.
fn is_about_first(conflict: &Conflict<'_>) -> Result<bool, AllocError> {
    match conflict.point()? {
        Some(Point::First(name)) => Ok(name == NAME),
        _ => Ok(false),
    }
}

/// Whether the answers disagree about the first number of the group.
fn disagree_about_first(
    alloc: Global,
    found: &Contradiction<'_>,
    core: &Core,
) -> Result<bool, AllocError> {
    let Contradiction { answers, bad } = found;
    let conflict = Conflict::of(alloc, Limit::Narrow, Marks::Lenient, answers, bad, core)?;
    is_about_first(&conflict)
}

/// They are answer 2 alone, and it and the bad one disagree about the first number of the group.
#[test]
fn core_and_point(rt: HostRuntime) -> Result<(), Fail> {
    let (limit, marks) = (Limit::Narrow, Marks::Lenient);
    let Some(found) = first_contradiction(rt.alloc(), limit, marks, CLIENT, SERVER)? else {
        return Err("no answer contradicts those before it".into());
    };
    let core = core_of(rt.alloc(), limit, marks, &found)?;
    assert_eq!(rt; core.places(), [2].as_slice());
    assert!(rt; core.rest().is_none());
    assert!(rt; disagree_about_first(rt.alloc(), &found, &core)?);
    Ok(())
}
