//! What answers say of articles.
ghost use Rattle.std.specs.Prelude.{◌≡◌, ◌≢◌, ◌↔◌, false, Some, IsTrue, List, MatchOption, Option, IfOk, IfSome, OnOk, is_some};
ghost use Rattle.std.specs.{Option.{option_map_or}, BTreeMap.{get_by}, Ordering.{nat_cmp}, Cmp.Lexicographic.{slice_cmp}, Rc.{rc_str_bytes}};
ghost use Rattle.nntp_wire.specs.{declared.command.What.{What}, Listing.{overviews_of}};
ghost use Rattle.nntp_article.specs.{Article.{Parts.{Id, Line}, Fields.{words_in}}, Inner.Fields.{AreWords}};
ghost use Rattle.nntp_said.specs.Facts.{Fact};
ghost use Rattle.nntp_theory.specs.{Given.{is_mentioned, first_given, head_in, body_in}, Inner.Together.{AreSame}};
ghost use Rattle.nntp_kept_articles.specs.Inner.Articles.{head_sent, body_sent, is_there, denied, telling, with_new, AreKeptArticles, said_kept};
ghost use Rattle.nntp_kept_articles.specs.Inner.ArticleSaid.{IsThereAlready, MayBeSaid, IsArticleAdded, IsSaidAdded, said_alone, Lacks, Exists, Sends};
ghost use Rattle.nntp_kept_articles.specs.Inner.{ArticleSaid.{Describes, IsToExist}, PartView.{article_said}, Readers.{shown_articles}, ArticleView.{is_added}};
ghost use Rattle.nntp_kept_articles.specs.Inner.ArticleView.{text_of};
ghost use Rattle.std.specs.FinMap as map;

use crate::added::Added;
use crate::article_part::ArticlePart;
use crate::known::KnownArticle;
use crate::sent::Sent;
use crate::shown_articles::ShownArticles;
use crate::taken_articles::TakenArticles;
use nntp_article::{Field, Fields};
use nntp_wire::Block;
use std::alloc::{AllocError, Allocator, Global};
use std::collections::{BTreeMap, BTreeSet};
use std::marker::Model;
use std::rc::RcStr;
use std::{mem, str};

/// What all answers so far say of articles, by message-id.
#[derive(Drop)]
pub struct Articles<A: Allocator = Global> {
    alloc: A,
    /// What is known of each id that has an article.
    known: BTreeMap<RcStr<A>, KnownArticle<A>, A>,
    /// The ids that have no article, of octets that need be no text.
    denied: BTreeSet<Vec<u8, A>, A>,
}

impl<A: Allocator> Model for Articles<A> {
    ghost use Rattle.std.specs.{Prelude.{List, ℕ, map}, Coded.{coded_ℕ, coded_list}, Ordering.{nat_cmp}, Cmp.Lexicographic.{slice_cmp}, FinMap.{FinMap, code}};
    ghost use Rattle.nntp_kept_articles.specs.Inner.Articles.{with_denied, KeptArticle};

    ghost Value = { FinMap (slice_cmp nat_cmp) KeptArticle };

    ghost use Rattle.nntp_kept_articles.specs.Inner.ArticleView.{articles_known, coded_kept};

    ghost coded = { code (coded_list coded_ℕ) coded_kept };

    ghost view = { λ a. with_denied (articles_known a.known.entries) (map (λ id. id.items) a.denied.keys) };
}

impl<A: Allocator> Articles<A> {
    /// Tells whether an answer mentions the id.
    pub fn mentions(&self, id: &[u8]) -> bool
        ensures is { result ≡ is_some (map.get self.now id.now) }
        ensures facts { (facts : List Fact) → AreKeptArticles facts self.now → result ≡ is_mentioned facts id.now }
    {
        self.has_octets(id) || self.denied.contains(id)
    }

    /// Tells whether the octets are an id that has an article.
    pub fn has_octets(&self, id: &[u8]) -> bool
        ensures { result ≡ is_there (map.get self.now id.now) }
    {
        has_key(&self.known, id)
    }

    /// Tells whether the id is said to have no article.
    pub fn is_denied(&self, id: &str) -> bool
        ensures { result ≡ option_map_or (λ a. a.is_denied) (map.get self.now id.now) false }
    {
        self.denied.contains(id.as_bytes()) && !self.has(id)
    }

    /// Tells whether the id has an article.
    fn has(&self, id: &str) -> bool
        ensures { result ≡ is_there (map.get self.now id.now) }
    {
        self.known.contains_key(id)
    }

    /// Tells whether no other head of the article was sent than this, if it is one.
    pub fn may_have_head(&self, id: &str, sent: &Sent<'_>) -> bool
        ensures { (facts : List Fact) → AreKeptArticles facts self.now → IsTrue result ↔ AreSame sent.now.head (first_given (head_in id.now) facts) }
    {
        match self.known.get(id) {
            Some(article) => article.may_have_head(sent),
            None => true,
        }
    }

    /// Tells whether no other body of the article was sent than this, if it is one.
    pub fn may_have_body(&self, id: &str, sent: &Sent<'_>) -> bool
        ensures { (facts : List Fact) → AreKeptArticles facts self.now → IsTrue result ↔ AreSame sent.now.body (first_given (body_in id.now) facts) }
    {
        match self.known.get(id) {
            Some(article) => article.may_have_body(sent),
            None => true,
        }
    }

    /// Returns the first of the four headers of the article of which other words were told than these.
    #[tactic(auto, using(crate::proofs::KeptIds::part_known))]
    pub fn other_field(&self, id: &str, told: Fields<'_>) -> Option<Field>
        ensures { MatchOption result (AreSame (Some told.entry) (said_kept (map.get self.now id.now)).fields)
            (λ field. MatchOption (said_kept (map.get self.now id.now)).fields ⊥ (λ before. words_in told.entry field ≢ words_in before field)) }
    {
        self.known.get(id)?.other_field(told)
    }

    /// Returns the ids that have articles, in byte order, with what is known of each.
    pub fn shown(&self) -> ShownArticles<'_, A>
        ensures { result ≡ shown_articles self.now }
    {
        ShownArticles::new(self.known.iter())
    }
}

impl<A: Allocator + Copy> Articles<A> {
    /// Creates what is kept of a session without answers: no id is known.
    pub fn new(alloc: A) -> Articles<A>
        ensures { result ≡ map.empty }
    {
        Articles {
            alloc,
            known: BTreeMap::new(alloc),
            denied: BTreeSet::new(alloc),
        }
    }

    /// Gives the ids that have articles away, in byte order, with what is known of each. None is left.
    pub fn take(&mut self) -> TakenArticles<A>
        ensures { result ≡ shown_articles self.old }
    {
        let known = mem::replace(&mut self.known, BTreeMap::new(self.alloc));
        TakenArticles::new(known.into_iter())
    }

    /// Adds what is said of an id, if it may be so, and hands back the text of an id that has an article. After an error the
    /// articles say nothing of use.
    #[tactic(auto, using(nntp_theory::proofs::OkResults::if_ok))]
    pub fn note(&mut self, part: &ArticlePart<'_>) -> Result<Added<A>, AllocError>
        ensures added { IfOk result (λ added. (facts : List Fact) → AreKeptArticles facts self.old → MayBeSaid (article_said part.now)
            → IsArticleAdded facts (Some (article_said part.now)) self.old self.new (is_added added)) }
        ensures text { IfOk result (λ added. MayBeSaid (article_said part.now) → IsTrue (is_added added)
            → (id : Id) → IsToExist (Some (article_said part.now)) id → text_of added ≡ Some id) }
    {
        match part {
            ArticlePart::Lacks(id) => Ok(Added::unnamed_if(self.note_lack(*id)?)),
            ArticlePart::Exists(id) => self.stand(id),
            ArticlePart::Sends { id, what, block } => self.send(id, &Sent::of(*what, *block)),
            ArticlePart::Describes { block, .. } => self.note_told(*block),
        }
    }

    /// Adds what is said of an id, if it may be so, where it is kept already of an id which is said to have an article, and
    /// no more, that it has one. After an error the articles say nothing of use.
    #[tactic(auto, using(nntp_theory::proofs::OkResults::if_ok))]
    pub fn note_again(&mut self, part: &ArticlePart<'_>) -> Result<Added<A>, AllocError>
        ensures { IfOk result (λ added. (facts : List Fact) → AreKeptArticles facts self.old → MayBeSaid (article_said part.now)
            → IsThereAlready facts (Some (article_said part.now))
            → IsArticleAdded facts (Some (article_said part.now)) self.old self.new (is_added added)) }
    {
        match part {
            ArticlePart::Exists(_) => Ok(Added::Unnamed),
            ArticlePart::Sends { id, what, block } => self.send_again(id, &Sent::of(*what, *block)),
            other => self.note(other),
        }
    }

    /// Adds what the only overview of a block tells, if it may be so, and hands back the id's text. After an error the
    /// articles say nothing of use.
    #[tactic(auto, using(nntp_article::proofs::ArticleLemmas::WordsOfLines::overviews_words))]
    fn note_told(&mut self, block: &Block<'_>) -> Result<Added<A>, AllocError>
        ensures added { IfOk result (λ added. (facts : List Fact) (id : Id) → AreKeptArticles facts self.old
            → MayBeSaid (id, Describes (overviews_of block.now))
            → IsArticleAdded facts (Some (id, Describes (overviews_of block.now))) self.old self.new (is_added added)) }
        ensures text { IfOk result (λ added. (id : Id) → MayBeSaid (id, Describes (overviews_of block.now)) → IsTrue (is_added added)
            → text_of added ≡ Some id) }
    {
        match block.overviews().next() {
            Some(overview) => {
                let id = overview.id.as_str();
                self.tell(id, Fields::of_overview(&overview), true)
            }
            None => Ok(Added::Never),
        }
    }

    /// Adds that an overview tells this of the id's article, if it tells of headers and it may be so, and hands back the id's
    /// text; `is_sent` where no range was asked for. After an error the articles say nothing of use.
    pub fn tell(
        &mut self,
        id: &str,
        told: Option<Fields<'_>>,
        is_sent: bool,
    ) -> Result<Added<A>, AllocError>
        requires { IfSome told AreWords }
        ensures added { IfOk result (λ added. (facts : List Fact) → AreKeptArticles facts self.old
            → IsSaidAdded facts (said_alone id.now (telling is_sent told.entry)) self.old self.new (is_added added)) }
        ensures text { IfOk result (λ added. IsTrue (is_added added) → text_of added ≡ Some id.now) }
    {
        if self.is_denied(id) {
            return Ok(Added::Never);
        }
        let entry = self.known.entry(RcStr::from_str(self.alloc, id)?)?;
        let text = entry.key().clone()?;
        let article = entry.or_insert(KnownArticle::Unsent);
        Ok(Added::named_if(article.note_told(self.alloc, told, is_sent)?, text))
    }

    /// Adds that this is sent of the id's article, of which something is likely to be known, if it
    /// may be so. After an error the articles say nothing of use.
    fn send_again(&mut self, id: &str, sent: &Sent<'_>) -> Result<Added<A>, AllocError>
        ensures { IfOk result (λ added. (facts : List Fact) (what : What) (lines : Option (List Line)) → AreKeptArticles facts self.old
            → sent.now.head ≡ head_sent what lines → sent.now.body ≡ body_sent what lines
            → IsArticleAdded facts (Some (id.now, Sends what lines)) self.old self.new (is_added added)) }
    {
        if let Some(article) = self.known.get_mut(id) {
            return Ok(Added::unnamed_if(article.note(self.alloc, sent)?));
        }
        self.send(id, sent)
    }

    /// Adds that this is sent of the id's article, if it may be so, and hands back the id's text. After an
    /// error the articles say nothing of use.
    fn send(&mut self, id: &str, sent: &Sent<'_>) -> Result<Added<A>, AllocError>
        ensures added { IfOk result (λ added. (facts : List Fact) (what : What) (lines : Option (List Line)) → AreKeptArticles facts self.old
            → sent.now.head ≡ head_sent what lines → sent.now.body ≡ body_sent what lines
            → IsArticleAdded facts (Some (id.now, Sends what lines)) self.old self.new (is_added added)) }
        ensures text { IfOk result (λ added. IsTrue (is_added added) → text_of added ≡ Some id.now) }
    {
        if self.is_denied(id) {
            return Ok(Added::Never);
        }
        let entry = self.known.entry(RcStr::from_str(self.alloc, id)?)?;
        let text = entry.key().clone()?;
        let article = entry.or_insert(KnownArticle::Unsent);
        Ok(Added::named_if(article.note(self.alloc, sent)?, text))
    }

    /// Adds that the id has an article, if it may be so, and hands back the id's text. After an error the
    /// articles say nothing of use.
    pub fn stand(&mut self, id: &str) -> Result<Added<A>, AllocError>
        ensures added { IfOk result (λ added. (facts : List Fact) → AreKeptArticles facts self.old
            → IsArticleAdded facts (Some (id.now, Exists)) self.old self.new (is_added added)) }
        ensures text { IfOk result (λ added. IsTrue (is_added added) → text_of added ≡ Some id.now) }
    {
        if self.is_denied(id) {
            return Ok(Added::Never);
        }
        let entry = self.known.entry(RcStr::from_str(self.alloc, id)?)?;
        let text = entry.key().clone()?;
        entry.or_insert(KnownArticle::Unsent);
        Ok(Added::Named(text))
    }

    /// Adds that the id has no article, if it may be so, and tells whether it may. After an error the
    /// articles say nothing of use.
    fn note_lack(&mut self, id: &[u8]) -> Result<bool, AllocError>
        ensures { IfOk result (λ does. (facts : List Fact) → AreKeptArticles facts self.old
            → IsArticleAdded facts (Some (id.now, Lacks)) self.old self.new does) }
    {
        if self.has_octets(id) {
            return Ok(false);
        }
        self.deny(id)?;
        Ok(true)
    }

    /// Adds that the id has no article, where nothing is known of one.
    fn deny(&mut self, id: &[u8]) -> Result<(), AllocError>
        ensures { OnOk result (self.new ≡ with_new self.old id.now denied) }
    {
        self.denied.insert(Vec::from_slice(self.alloc, id)?)?;
        Ok(())
    }
}

/// Tells whether the octets are a key of the map. Octets that aren't text are none.
fn has_key<V, A: Allocator>(map: &BTreeMap<RcStr<A>, V, A>, key: &[u8]) -> bool
    ensures { result ≡ is_some (get_by (λ k. slice_cmp nat_cmp key.now (rc_str_bytes k)) map.now) }
{
    match str::from_utf8(key) {
        Ok(text) => map.contains_key(text),
        Err(_) => false,
    }
}
