//! Whether what an answer says holds of a spool, a fact at a time.
ghost use Rattle.std.specs.Prelude.{◌≡◌, ◌↔◌, IsTrue, IfOk, drop, option_map};
ghost use Rattle.std.specs.List.{AllByRecursion};
ghost use Rattle.nntp_wire.specs.Name.{IsGroupName};
ghost use Rattle.nntp_article.specs.Session.Spool.{Name, Spool as SpoolValue, IsGroup, HasText};
ghost use Rattle.nntp_article.specs.Inner.Listed.{lists};
ghost use Rattle.nntp_said.specs.Facts.{Holds};
ghost use Rattle.nntp_said.specs.Inner.FactView.{fact_of};
ghost use Rattle.nntp_spool.specs.Inner.AskedCounts.{AreCounted};
ghost use Rattle.nntp_content.specs.Inner.Content.{IdsHaveArticles};
ghost use Rattle.nntp_spool.specs.Inner.Sessions.{SaysThese, SayThese};

use crate::verification::asked_counts::AskedCounts;
use crate::verification::last_group::LastGroup;
use crate::verification::listed_groups::lists_groups;
use crate::verification::listed_overviews::{have_overviews, lists_overviews};
use crate::verification::sent_lines::has_text;
use nntp_article::Listed;
use nntp_said::{Fact, SaidFacts};
use nntp_store::Content;
use nntp_wire::{Block, What};
use std::alloc::{AllocError, Allocator};

/// Tells whether all facts that are left hold of the spool; `listed` is what their answer lists.
pub(crate) fn hold<A: Allocator + Copy, S: Allocator>(
    group: &mut LastGroup<'_, S>,
    counts: &mut AskedCounts<A>,
    listed: &Listed<'_, A>,
    facts: &mut SaidFacts<'_>,
) -> Result<bool, AllocError>
    requires names { (name : Name) → IsGroup group.old name → IsGroupName name }
    requires ids { IdsHaveArticles group.old }
    requires listed { SayThese (lists listed.now) facts.old }
    requires counted { AreCounted group.old counts.old }
    ensures spool { group.new ≡ group.old }
    ensures counted { IfOk result (λ _. AreCounted group.old counts.new) }
    ensures hold { IfOk result (λ hold. IsTrue hold ↔ AllByRecursion (Holds group.old) facts.old) }
{
    while let Some(fact) = facts.first() {
        if !is_implied(facts) && !holds(group, counts, listed, fact)? {
            return Ok(false);
        }
        facts.pass_first();
    }
    Ok(true)
}

/// Tells whether the first fact holds because one of those behind it does: an id has an article, of
/// which nothing is sent, where it has a number. So it isn't looked for.
fn is_implied(facts: &SaidFacts<'_>) -> bool
    ensures { IsTrue result → (S : SpoolValue) → IdsHaveArticles S → AllByRecursion (Holds S) (drop 1 facts.now) → AllByRecursion (Holds S) facts.now }
{
    match facts.first() {
        Some(
            Fact::TextIs {
                what: What::Stat,
                id,
                block: None,
            },
        ) => facts.place(*id),
        _ => false,
    }
}

/// Tells whether the fact holds of the spool.
fn holds<A: Allocator + Copy, S: Allocator>(
    group: &mut LastGroup<'_, S>,
    counts: &mut AskedCounts<A>,
    listed: &Listed<'_, A>,
    fact: &Fact<'_>,
) -> Result<bool, AllocError>
    requires names { (name : Name) → IsGroup group.old name → IsGroupName name }
    requires listed { SaysThese (lists listed.now) (fact_of fact.now) }
    requires counted { AreCounted group.old counts.old }
    ensures spool { group.new ≡ group.old }
    ensures counted { IfOk result (λ _. AreCounted group.old counts.new) }
    ensures holds { IfOk result (λ holds. IsTrue holds ↔ Holds group.old (fact_of fact.now)) }
{
    let spool = group.spool();
    match *fact {
        Fact::ThereIs(name) => Ok(group.is_group(name.as_slice())),
        Fact::ThereIsNo(word) => Ok(!group.is_group(word)),
        Fact::Asks(name, ref ask) => Ok(group.meets(name, ask, listed.numbers())),
        Fact::IdAt(name, number, id) => Ok(group.has_id(name, number, id)),
        Fact::TextIs { what, id, block } => Ok(sends(spool, what, id, block)),
        Fact::NoArticle(word) => Ok(!spool.knows(word)),
        Fact::FieldsAre { block } => Ok(have_overviews(spool, block)),
        Fact::OverviewsAre { name, range, block } => {
            Ok(lists_overviews(group, name, range, block, listed))
        }
        Fact::GroupsAre { wildmat, .. } => lists_groups(spool, counts, wildmat, listed.groups()),
    }
}

/// Tells whether the id has an article, and this is what is sent of it.
fn sends<A: Allocator>(spool: &Content<A>, what: What, id: &str, block: Option<&Block<'_>>) -> bool
    ensures { IsTrue result ↔ HasText spool.now what id.now (option_map (λ b. b.now) block.entry) }
{
    match spool.article(id) {
        Some(article) => has_text(article, what, block),
        None => false,
    }
}
