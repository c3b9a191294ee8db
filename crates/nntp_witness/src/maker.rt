//! The maker of the given spool.
ghost use Rattle.std.specs.Prelude.{◌≡◌, ℕ, List, [], ◌∷◌, ◌++◌, Option, None, IfOk};
ghost use Rattle.nntp_wire.specs.declared.limit.Limit.{Limit};
ghost use Rattle.nntp_article.specs.Article.Parts.{Id};
ghost use Rattle.nntp_article.specs.Session.Spool.{Spool as SpoolValue};
ghost use Rattle.nntp_said.specs.Facts.{Fact};
ghost use Rattle.nntp_kept.specs.Inner.{Readers.{ShownGroup as GroupValue, AreShownGroups}, ReadersView.{number_value}};
ghost use Rattle.nntp_kept_articles.specs.Inner.Readers.{ShownArticle as ArticleValue, AreShownArticles};
ghost use Rattle.nntp_store.specs.Inner.Text.{IsWritten};
ghost use Rattle.nntp_witness.specs.Inner.Witness.{HaveArticles, IsGivenSpool};
ghost use Rattle.nntp_witness.specs.Inner.Making.{Makes, unseen_number, GroupsLeft, NumbersLeft, ArticlesLeft};

use crate::article::{given_body, given_head, head_of, no_lines};
use crate::invented::invent;
use nntp_facts::{
    Facts, ShownArticle, ShownGroup, ShownNumber, ShownNumbers, TakenArticles, TakenGroups,
};
use nntp_store::{Spool, SpoolBuilder, SpoolFault};
use nntp_wire::OwnedBlock;
use std::alloc::Allocator;
use std::rc::Rc;

/// A maker of the given spool, which holds as much of it as is made.
#[derive(Drop)]
pub(crate) struct SpoolMaker<A: Allocator> {
    alloc: A,
    builder: SpoolBuilder<A>,
    /// The least number that an id may be invented with.
    next: u64,
    /// The body of no lines, which all articles share of which no body is shown.
    no_lines: Rc<OwnedBlock<A>, A>,
    ghost is_empty: { no_lines.value ≡ [] },
}

impl<A: Allocator + Copy> SpoolMaker<A> {
    /// Makes the groups that are shown, with their numbers, and articles of the ids that are
    /// invented for them. The facts have given the groups away.
    pub(crate) fn of_groups(
        alloc: A,
        facts: &Facts<A>,
        mut groups: TakenGroups<A>,
    ) -> Result<SpoolMaker<A>, SpoolFault>
        ensures { (said : List Fact) (G : SpoolValue) → HaveArticles facts.now said → AreShownGroups said groups
            → IsGivenSpool facts.now.limit said G
            → Makes result (λ maker. GroupsLeft facts.now.limit said G [] maker.builder maker.next) }
    {
        let mut maker = SpoolMaker {
            alloc,
            builder: SpoolBuilder::new(alloc, facts.limit()),
            next: 0,
            no_lines: no_lines(alloc)?,
        };
        while let Some(group) = groups.next() {
            maker.add_group(facts, &group.shown())?;
        }
        Ok(maker)
    }

    /// Adds a group with its numbers.
    fn add_group(&mut self, facts: &Facts<A>, group: &ShownGroup<'_, A>) -> Result<(), SpoolFault>
        ensures { (said : List Fact) (G : SpoolValue) (left : List GroupValue)
            → HaveArticles facts.now said → IsGivenSpool facts.now.limit said G
            → GroupsLeft facts.now.limit said G (group.now ∷ left) self.old.builder self.old.next
            → Makes result (λ _. GroupsLeft facts.now.limit said G left self.new.builder self.new.next) }
    {
        let name = group.name();
        self.builder.group(name)?;
        self.add_unseen(facts, name, group.unseen())?;
        self.add_shown(facts, name, group.numbers())?;
        self.add_unseen(facts, name, group.unseen_high())
    }

    /// Adds a number that isn't shown, if there is one.
    fn add_unseen(
        &mut self,
        facts: &Facts<A>,
        name: &[u8],
        unseen: Option<u64>,
    ) -> Result<(), SpoolFault>
        ensures { (said : List Fact) (G before : SpoolValue) (behind : List Id) (left : List (ℕ × Option Id))
            → HaveArticles facts.now said → IsGivenSpool facts.now.limit said G
            → NumbersLeft facts.now.limit said G before name.now behind (unseen_number unseen ++ left) self.old.builder self.old.next
            → Makes result (λ _. NumbersLeft facts.now.limit said G before name.now behind left self.new.builder self.new.next) }
    {
        match unseen {
            Some(number) => self.add_invented(facts, name, number),
            None => Ok(()),
        }
    }

    /// Adds the numbers that are shown.
    fn add_shown(
        &mut self,
        facts: &Facts<A>,
        name: &[u8],
        mut numbers: ShownNumbers<'_, A>,
    ) -> Result<(), SpoolFault>
        ensures { (said : List Fact) (G before : SpoolValue) (behind : List Id) (left : List (ℕ × Option Id))
            → HaveArticles facts.now said → IsGivenSpool facts.now.limit said G
            → NumbersLeft facts.now.limit said G before name.now behind (numbers.entry ++ left) self.old.builder self.old.next
            → Makes result (λ _. NumbersLeft facts.now.limit said G before name.now behind left self.new.builder self.new.next) }
    {
        while let Some(shown) = numbers.next() {
            self.add_number(facts, name, &shown)?;
        }
        Ok(())
    }

    /// Adds a number that is shown, with its id, or with one that is invented where none is shown.
    fn add_number(
        &mut self,
        facts: &Facts<A>,
        name: &[u8],
        shown: &ShownNumber<'_, A>,
    ) -> Result<(), SpoolFault>
        ensures { (said : List Fact) (G before : SpoolValue) (behind : List Id) (left : List (ℕ × Option Id))
            → HaveArticles facts.now said → IsGivenSpool facts.now.limit said G
            → NumbersLeft facts.now.limit said G before name.now behind (number_value shown.now ∷ left) self.old.builder self.old.next
            → Makes result (λ _. NumbersLeft facts.now.limit said G before name.now behind left self.new.builder self.new.next) }
    {
        match shown.id {
            Some(id) => self.builder.number_sharing(name, shown.number, id),
            None => self.add_invented(facts, name, shown.number),
        }
    }

    /// Adds a number with an id that is invented, and the article of that id.
    fn add_invented(&mut self, facts: &Facts<A>, name: &[u8], number: u64) -> Result<(), SpoolFault>
        ensures { (said : List Fact) (G before : SpoolValue) (behind : List Id) (left : List (ℕ × Option Id))
            → HaveArticles facts.now said → IsGivenSpool facts.now.limit said G
            → NumbersLeft facts.now.limit said G before name.now behind ((number, None) ∷ left) self.old.builder self.old.next
            → Makes result (λ _. NumbersLeft facts.now.limit said G before name.now behind left self.new.builder self.new.next) }
    {
        let Ok(invented) = invent(self.alloc, facts, self.next) else {
            return Err(SpoolFault::Memory);
        };
        self.next = invented.number + 1;
        self.builder.number_sharing(name, number, &invented.id)?;
        let head = head_of(self.alloc, &invented.id, None)?;
        self.builder
            .article_sharing(&invented.id, &head, &self.no_lines)
    }

    /// Adds the articles that are shown, which the facts have given away.
    pub(crate) fn add_articles(&mut self, mut articles: TakenArticles<A>) -> Result<(), SpoolFault>
        ensures { (limit : Limit) (said : List Fact) (G : SpoolValue) → AreShownArticles said articles
            → IsGivenSpool limit said G
            → GroupsLeft limit said G [] self.old.builder self.old.next
            → Makes result (λ _. ArticlesLeft limit said G [] self.new.builder) }
    {
        while let Some(article) = articles.next() {
            self.add_article(&article.shown())?;
        }
        Ok(())
    }

    /// Adds an article that is shown.
    fn add_article(&mut self, shown: &ShownArticle<'_, A>) -> Result<(), SpoolFault>
        ensures { (limit : Limit) (said : List Fact) (G : SpoolValue) (left : List ArticleValue)
            → IsGivenSpool limit said G
            → ArticlesLeft limit said G (shown.now ∷ left) self.old.builder
            → Makes result (λ _. ArticlesLeft limit said G left self.new.builder) }
    {
        let head = given_head(self.alloc, shown)?;
        let body = given_body(shown, &self.no_lines);
        self.builder.article_sharing(shown.id(), &head, body)
    }

    /// Returns the spool that is made.
    pub(crate) fn finish(self) -> Result<Spool<A>, SpoolFault>
        ensures given { (limit : Limit) (said : List Fact) (G : SpoolValue) → IsGivenSpool limit said G → ArticlesLeft limit said G [] self.builder
            → Makes result (λ spool. spool ≡ record { limit = limit; spool = G }) }
        ensures is_written { IfOk result IsWritten }
    {
        self.builder.finish()
    }
}
