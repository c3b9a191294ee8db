//! What an answer to OVER or XOVER with a range says beside all that was said before (RFC 3977, section 8.3).
ghost use Rattle.std.specs.{Prelude.{◌≡◌, ◌↔◌, ◌++◌, [], false, true, Some, List, map, IsTrue, IfOk, OnOk}, List.{AllByRecursion}, FinMap.{get}};
ghost use Rattle.nntp_wire.specs.{declared.range.Range.{Range}, Inner.View.{overview_value}};
ghost use Rattle.nntp_article.specs.{Article.Parts.{Id}, Inner.Fields.{TellsWords}, Session.Spool.{Name}};
ghost use Rattle.nntp_said.specs.Facts.{Fact};
ghost use Rattle.nntp_theory.specs.Inner.Together.{AreSame, IsWellFormed, Join, Together, join_said, said_of};
ghost use Rattle.nntp_kept_articles.specs.Inner.{Articles.{telling, AreKeptArticles, said_kept}, ArticleSaid.{IsSaidKept, said_alone}};
ghost use Rattle.nntp_kept.specs.Inner.{Kept.{AreAdded, AreKept, AreKeptWith, IsKept, Told}, KeptSaying.{MayBeGiven, MayGive, MayListOf, may_give}};
ghost use Rattle.nntp_kept.specs.Inner.{KeptSaying.{said_listed, with_overviews}, ListedOverviews.{HaveOwn, OverviewJoins}, Saying.{overviews_facts}};
ghost use Rattle.nntp_kept.specs.Inner.SayingView.{of_group};

use crate::kept::Kept;
use crate::saying::GroupPart;
use nntp_article::Fields;
use nntp_wire::OverviewLine;
use std::alloc::{AllocError, Allocator};

impl<A: Allocator + Copy> Kept<A> {
    /// Adds the overviews that an answer lists, of all numbers of the group in a range, if they stand
    /// together with all before, and tells whether they do. After an error the value says nothing of use.
    pub(crate) fn note_overviews(
        &mut self,
        group: &GroupPart<'_>,
        overviews: &[OverviewLine<'_>],
    ) -> Result<bool, AllocError>
        requires { AllByRecursion TellsWords (map overview_value overviews.now) }
        ensures { IfOk result (λ does. (facts : List Fact) (range : Range) → IsKept facts self.old → Together facts
            → AllByRecursion IsWellFormed (overviews_facts (Some (of_group group.now)) (range, map overview_value overviews.now))
            → MayListOf facts (of_group group.now) range (map overview_value overviews.now)
            → AreAdded facts (overviews_facts (Some (of_group group.now)) (range, map overview_value overviews.now)) self.old self.new does) }
    {
        if !self.may_list_overviews(group, overviews) {
            return Ok(false);
        }
        self.list_overviews(group, overviews)?;
        Ok(true)
    }

    /// Tells whether the overviews that an answer lists of the group stand together with all that was
    /// said before.
    fn may_list_overviews(&self, group: &GroupPart<'_>, overviews: &[OverviewLine<'_>]) -> bool
        ensures { (facts : List Fact) (range : Range) → IsKept facts self.now → Together facts
            → AllByRecursion IsWellFormed (overviews_facts (Some (of_group group.now)) (range, map overview_value overviews.now))
            → MayListOf facts (of_group group.now) range (map overview_value overviews.now)
            → IsTrue result ↔ Join facts (overviews_facts (Some (of_group group.now)) (range, map overview_value overviews.now)) }
    {
        self.groups.joins(group).at_all() && self.may_give_all(group.name, overviews)
    }

    /// Adds that these are the overviews of the numbers of the group. After an error the value says
    /// nothing of use.
    fn list_overviews(
        &mut self,
        group: &GroupPart<'_>,
        overviews: &[OverviewLine<'_>],
    ) -> Result<(), AllocError>
        requires { AllByRecursion TellsWords (map overview_value overviews.now) }
        ensures { OnOk result ((facts : List Fact) (range : Range) → IsKept facts self.old → Together facts
            → MayListOf facts (of_group group.now) range (map overview_value overviews.now)
            → Join facts (overviews_facts (Some (of_group group.now)) (range, map overview_value overviews.now))
            → IsKept (facts ++ overviews_facts (Some (of_group group.now)) (range, map overview_value overviews.now)) self.new) }
    {
        self.groups.add(group, None)?;
        self.give_all(group.name, overviews)
    }

    /// Adds that each number of the group has the id of its overview, and that this has an article.
    /// After an error the value says nothing of use.
    #[tactic(auto, using(crate::proofs::Keeping::OverviewsJoin::none_yet, nntp_kept_articles::proofs::SaidOfArticles::nothing_more))]
    fn give_all(&mut self, name: &[u8], overviews: &[OverviewLine<'_>]) -> Result<(), AllocError>
        requires { AllByRecursion TellsWords (map overview_value overviews.now) }
        ensures names { self.new.names ≡ self.old.names }
        ensures kept { OnOk result ((facts : List Fact) (tells : Name → Told) → AreKept tells self.old.groups → AreKeptArticles facts self.old.articles
            → (tells name.now).is_shown ≡ true → HaveOwn (map overview_value overviews.now)
            → AllByRecursion (MayGive facts (tells name.now)) (map overview_value overviews.now)
            → AreKept (with_overviews tells name.now (map overview_value overviews.now)) self.new.groups
            × ((id : Id) → join_said (said_of facts id) (said_listed (map overview_value overviews.now) id) ≡ said_kept (get self.new.articles id))) }
    {
        for overview in overviews {
            self.give(name, overview)?;
        }
        Ok(())
    }

    /// Adds that the number of the overview has its id in the group, and that this has an article, which tells the same. After
    /// an error the value says nothing of use.
    fn give(&mut self, name: &[u8], overview: &OverviewLine<'_>) -> Result<(), AllocError>
        requires { TellsWords (overview_value overview.now) }
        ensures names { self.new.names ≡ self.old.names }
        ensures kept { OnOk result ((facts : List Fact) (tells : Name → Told) → AreKept tells self.old.groups → AreKeptArticles facts self.old.articles
            → MayGive facts (tells name.now) (overview_value overview.now)
            → AreKeptWith tells name.now [] (Some (overview.now.number, overview.now.id)) self.new.groups
            × IsSaidKept facts (said_alone overview.now.id (telling false (overview_value overview.now).told)) self.new.articles) }
    {
        let number = overview.number;
        let id = overview.id.as_str();
        let added = self
            .articles
            .tell(id, Fields::of_overview(overview), false)?;
        self.groups
            .add(&GroupPart::of_id(name, number, id), added.text())
    }
}

impl<A: Allocator> Kept<A> {
    /// Tells whether each number of the group may have the id of its overview, and none of the ids is
    /// denied.
    fn may_give_all(&self, name: &[u8], overviews: &[OverviewLine<'_>]) -> bool
        ensures { (facts : List Fact) → IsKept facts self.now
            → IsTrue result ↔ AllByRecursion (OverviewJoins facts name.now) (map overview_value overviews.now) }
    {
        for overview in overviews {
            if !self.may_give(name, overview) {
                return false;
            }
        }
        true
    }

    /// Tells whether the number of the overview may have its id in the group, this isn't denied, and nothing else was told of
    /// its article.
    fn may_give(&self, name: &[u8], overview: &OverviewLine<'_>) -> bool
        ensures { (tells : Name → Told) → AreKept tells self.now.groups
            → IsTrue result ↔ MayBeGiven (tells name.now) self.now.articles (overview_value overview.now) }
    {
        self.may_place(name, overview) && self.may_tell(overview)
    }

    /// Tells whether nothing else was told of the article of the overview.
    fn may_tell(&self, overview: &OverviewLine<'_>) -> bool
        ensures { IsTrue result ↔ AreSame (overview_value overview.now).told (said_kept (get self.now.articles overview.now.id)).fields }
    {
        match Fields::of_overview(overview) {
            Some(told) => self
                .articles
                .other_field(overview.id.as_str(), told)
                .is_none(),
            None => true,
        }
    }

    /// Tells whether the number of the overview may have its id in the group, and this isn't denied.
    fn may_place(&self, name: &[u8], overview: &OverviewLine<'_>) -> bool
        ensures { (tells : Name → Told) → AreKept tells self.now.groups → result ≡ may_give (tells name.now) self.now.articles (overview_value overview.now) }
    {
        let id = overview.id.as_str();
        self.groups.may_have(name, overview.number, id)
            && self.groups.may_stand_at(name, overview.number, id)
            && !self.articles.is_denied(id)
    }
}
