//! What is kept of all answers of a session.
ghost use Rattle.std.specs.{Prelude.{◌≡◌, ◌≢◌, ◌↔◌, ◌++◌, [], false, None, Some, List, IsTrue, IsFalse, IfSome, IfOk, OnOk, option_map}, List.{AllByRecursion}};
ghost use Rattle.std.specs.{List.{list_any}, Option.{option_map_or}, Rc.{rc_str_bytes}};
ghost use Rattle.nntp_article.specs.{Inner.Listed.{lists}, Article.Parts.{Id}, Session.{Spool.{Name}, Machine.{is_same}}};
ghost use Rattle.nntp_said.specs.{Asks.{Ask}, Facts.{Fact}};
ghost use Rattle.nntp_theory.specs.{Given.{is_shown_group}, Inner.Together.{IsWellFormed, Together}, Together.{denies_group}};
ghost use Rattle.nntp_kept.specs.Inner.{Saying.{AreListed, Saying as SayingValue, facts_in, MaySay, Tells}, SayingView.{of_group, saying_of}};
ghost use Rattle.nntp_kept.specs.Inner.{Kept.{joins_at_all, IsKept, AreKeptGroups, AreKeptNames, AreAdded}, Readers.{shown_groups}, KeptSaying.{GroupJoins}};
ghost use Rattle.nntp_kept.specs.{Inner.KeptSaying.{JoinGroups, IsTextOf}, declared.joins.Joins.TheVariants.{Again}};
ghost use Rattle.nntp_kept_articles.specs.Inner.{ArticleSaid.{IsToExist, IsThereAlready, MayBeSaid, IsArticleAdded}, PartView.{article_said}};
ghost use Rattle.nntp_kept_articles.specs.Inner.{ArticleView.{is_added, text_of}, Articles.{AreKeptArticles}, Readers.{shown_articles}};

mod listed_groups;
mod listed_overviews;
mod noted;

use crate::groups::Groups;
use crate::joins::Joins;
use crate::names::Names;
use crate::saying::{GroupPart, Saying};
use crate::taken_groups::TakenGroups;
use nntp_article::Listed;
use nntp_kept_articles::{Added, ArticlePart, Articles, TakenArticles};
use nntp_wire::GroupName;
use std::alloc::{AllocError, Allocator, Global};
use std::marker::Model;
use std::rc::RcStr;

/// What is kept of all that the answers so far say of the spool.
pub struct Kept<A: Allocator = Global> {
    alloc: A,
    groups: Groups<A>,
    names: Names<A>,
    articles: Articles<A>,
}

/// By hand, since a derived one is checked field by field at each place where what is kept may be dropped.
impl<A: Allocator> Drop for Kept<A> {
    fn drop(self) {
        let Kept {
            alloc: _,
            groups: _,
            names: _,
            articles: _,
        } = self;
    }
}

impl<A: Allocator> Model for Kept<A> {
    ghost use Rattle.nntp_kept.specs.Inner.{Kept.{Kept as KeptValue}, KeptView.{coded_whole}};

    ghost Value = { KeptValue };

    ghost coded = { coded_whole };

    ghost view = { λ k. record { groups = k.groups; names = k.names; articles = k.articles } };
}

impl<A: Allocator + Copy> Kept<A> {
    /// Creates what is kept of a session without answers: nothing is said yet.
    pub fn new(alloc: A) -> Kept<A>
        ensures { IsKept [] result }
    {
        Kept {
            alloc,
            groups: Groups::new(alloc),
            names: Names::new(alloc),
            articles: Articles::new(alloc),
        }
    }

    /// Adds what an answer says, if it stands together with all before, and tells whether it does. If not,
    /// the value stays as it was. After an error it says nothing of use. `listed` is what the answer
    /// lists.
    #[tactic(auto, using(crate::proofs::Keeping::NotedParts::lists_none, crate::proofs::Keeping::NotedParts::list_added))]
    pub fn note(&mut self, saying: &Saying<'_>, listed: &Listed<'_, A>) -> Result<bool, AllocError>
        ensures { IfOk result (λ does. AreListed (saying_of saying.now) (lists listed.now)
            → (facts more : List Fact) → IsKept facts self.old → Together facts → AllByRecursion IsWellFormed more
            → Tells facts (saying_of saying.now) more → AreAdded facts more self.old self.new does) }
    {
        match (&saying.groups, saying.group_of_overviews()) {
            (Some(list), _) => self.note_groups(list.wildmat, listed.groups()),
            (None, Some(group)) => self.note_overviews(group, listed.overviews()),
            (None, None) => self.note_parts(saying),
        }
    }

    /// Adds what an answer says that lists no groups and no overviews, if it stands together with all
    /// before, and tells whether it does. After an error the value says nothing of use.
    fn note_parts(&mut self, saying: &Saying<'_>) -> Result<bool, AllocError>
        ensures { IfOk result (λ does. (saying_of saying.now).groups ≡ None → (saying_of saying.now).overviews ≡ None
            → (facts more : List Fact) → IsKept facts self.old → Together facts → AllByRecursion IsWellFormed more
            → Tells facts (saying_of saying.now) more → AreAdded facts more self.old self.new does) }
    {
        let joins = self.groups_join(saying);
        if !joins.at_all() {
            return Ok(false);
        }
        let added = self.note_article(joins, &saying.article)?;
        if !added.at_all() {
            return Ok(false);
        }
        self.deny(saying.there_is_no)?;
        self.add_new_group(joins, &saying.group, added.text())?;
        Ok(true)
    }

    /// Adds what is said of an id, if it may be so. After an error the value says nothing of use.
    #[tactic(auto, using(nntp_theory::proofs::OkResults::if_ok))]
    fn note_article(
        &mut self,
        joins: Joins,
        article: &Option<ArticlePart<'_>>,
    ) -> Result<Added<A>, AllocError>
        ensures rest { (self.new.groups ≡ self.old.groups) × (self.new.names ≡ self.old.names) }
        ensures added { IfOk result (λ added. (facts : List Fact) → AreKeptArticles facts self.old.articles
            → IfSome (option_map article_said article.now) MayBeSaid → (joins ≡ Again → IsThereAlready facts (option_map article_said article.now))
            → IsArticleAdded facts (option_map article_said article.now) self.old.articles self.new.articles (is_added added)) }
        ensures text { IfOk result (λ added. IfSome (option_map article_said article.now) MayBeSaid → joins ≢ Again → IsTrue (is_added added)
            → (id : Id) → IsToExist (option_map article_said article.now) id → text_of added ≡ Some id) }
    {
        match (joins, article) {
            (_, None) => Ok(Added::Unnamed),
            (Joins::Again, Some(article)) => self.articles.note_again(article),
            (_, Some(article)) => self.articles.note(article),
        }
    }

    /// Adds that there is no such group. After an error the value says nothing of use.
    fn deny(&mut self, name: Option<&[u8]>) -> Result<(), AllocError>
        ensures rest { (self.new.groups ≡ self.old.groups) × (self.new.articles ≡ self.old.articles) }
        ensures names { OnOk result ((facts more : List Fact) → AreKeptNames facts self.old.names
            → ((other : Name) → list_any (denies_group other) more
            ≡ option_map_or (λ name. is_same name other) (option_map (λ name. name.now) name.entry) false)
            → AreKeptNames (facts ++ more) self.new.names) }
    {
        match name {
            Some(name) => self.names.deny(self.alloc, name),
            None => Ok(()),
        }
    }

    /// Adds what is said of a group, where it isn't kept already, with the text of the id that a number has. After an error
    /// the value says nothing of use.
    fn add_new_group(
        &mut self,
        joins: Joins,
        group: &Option<GroupPart<'_>>,
        text: Option<RcStr<A>>,
    ) -> Result<(), AllocError>
        ensures rest { (self.new.names ≡ self.old.names) × (self.new.articles ≡ self.old.articles) }
        ensures groups { OnOk result ((facts : List Fact) (s : SayingValue) (asks : List Ask) → s.group ≡ option_map of_group group.now → s.groups ≡ None
            → Together facts → MaySay facts s asks
            → IfSome s.group (GroupJoins facts asks) → AreKeptGroups facts self.old.groups
            → (joins ≡ Again → AreKeptGroups (facts ++ facts_in s asks) self.old.groups)
            → (joins ≢ Again → IfSome s.group (λ g. IsTextOf (option_map (λ text. rc_str_bytes text) text) g.id))
            → AreKeptGroups (facts ++ facts_in s asks) self.new.groups) }
    {
        match joins {
            Joins::Again => Ok(()),
            _ => match group {
                Some(group) => self.groups.add(group, text),
                None => Ok(()),
            },
        }
    }

    /// Tells how what is said of names and of a group joins all that was said before.
    fn groups_join(&self, saying: &Saying<'_>) -> Joins
        ensures at_all { (facts : List Fact) (asks : List Ask) → IsKept facts self.now → Together facts → MaySay facts (saying_of saying.now) asks
            → IsTrue (joins_at_all result) ↔ JoinGroups facts (saying_of saying.now) asks }
        ensures again { result ≡ Again → (facts : List Fact) (asks : List Ask) → (saying_of saying.now).groups ≡ None
            → IsKept facts self.now → Together facts → MaySay facts (saying_of saying.now) asks
            → AreKeptGroups (facts ++ facts_in (saying_of saying.now) asks) self.now.groups }
        ensures there { result ≡ Again → (facts : List Fact) (asks : List Ask) → IsKept facts self.now → MaySay facts (saying_of saying.now) asks
            → IsThereAlready facts (saying_of saying.now).article }
    {
        if self.may_be_there(saying.there_is) && self.may_be_missing(saying.there_is_no) {
            self.group_joins(&saying.group)
        } else {
            Joins::Never
        }
    }

    /// Tells whether there may be a group of this name.
    fn may_be_there(&self, name: Option<&GroupName<'_>>) -> bool
        ensures { (facts : List Fact) → IsKept facts self.now → Together facts → IsTrue result
            ↔ IfSome (option_map (λ name. name.now) name.entry) (λ name. IsFalse (list_any (denies_group name) facts)) }
    {
        match name {
            Some(name) => self.may_be(name),
            None => true,
        }
    }

    /// Tells whether there may be no group of this name.
    fn may_be_missing(&self, name: Option<&[u8]>) -> bool
        ensures { (facts : List Fact) → IsKept facts self.now → IsTrue result
            ↔ IfSome (option_map (λ name. name.now) name.entry) (λ name. IsFalse (is_shown_group facts name)) }
    {
        match name {
            Some(name) => !self.groups.is_shown(name),
            None => true,
        }
    }

    /// Tells how what is said of a group joins all that was said before.
    fn group_joins(&self, group: &Option<GroupPart<'_>>) -> Joins
        ensures at_all { (facts : List Fact) (s : SayingValue) (asks : List Ask) → s.group ≡ option_map of_group group.now → IsKept facts self.now
            → Together facts → MaySay facts s asks
            → IsTrue (joins_at_all result) ↔ IfSome s.group (GroupJoins facts asks) }
        ensures again { result ≡ Again → (facts : List Fact) (s : SayingValue) (asks : List Ask)
            → s.group ≡ option_map of_group group.now → s.groups ≡ None → IsKept facts self.now → Together facts
            → MaySay facts s asks
            → AreKeptGroups (facts ++ facts_in s asks) self.now.groups }
        ensures there { result ≡ Again → (facts : List Fact) (s : SayingValue) (asks : List Ask)
            → s.group ≡ option_map of_group group.now → IsKept facts self.now → MaySay facts s asks → IsThereAlready facts s.article }
    {
        match group {
            Some(group) => self.groups.joins(group),
            None => Joins::Again,
        }
    }

    /// Gives away the groups that are shown, in byte order of their names. None is left.
    pub fn take_groups(&mut self) -> TakenGroups<A>
        ensures groups { result ≡ shown_groups self.old.groups }
        ensures articles { self.new.articles ≡ self.old.articles }
    {
        self.groups.take()
    }

    /// Gives away the articles that are shown, in byte order of their message-ids. None is left.
    pub fn take_articles(&mut self) -> TakenArticles<A>
        ensures { result ≡ shown_articles self.old.articles }
    {
        self.articles.take()
    }
}

impl<A: Allocator> Kept<A> {
    /// Tells whether the name may be that of a group.
    pub fn may_be(&self, name: &GroupName<'_>) -> bool
        ensures { (facts : List Fact) → IsKept facts self.now → Together facts → IsTrue result ↔ IsFalse (list_any (denies_group name.now) facts) }
    {
        self.groups.is_shown(name.as_slice()) || !self.names.denies(name)
    }

    /// Returns what is kept of the groups that are shown.
    pub fn groups(&self) -> &Groups<A>
        ensures { result.now ≡ self.now.groups }
    {
        &self.groups
    }

    /// Returns what is kept of articles.
    pub fn articles(&self) -> &Articles<A>
        ensures { result.now ≡ self.now.articles }
    {
        &self.articles
    }
}
