//! The articles of a spool, each by its message-id.
ghost use Rattle.std.specs.Prelude.{◌≡◌, ◌⊎◌, true, OnOk, OnErr, IfOk, option_map, is_some};
ghost use Rattle.std.specs.Cmp.Lexicographic.{slice_cmp};
ghost use Rattle.std.specs.FinMap as map;
ghost use Rattle.std.specs.Ordering.{nat_cmp, is_lt};
ghost use Rattle.std.specs.Rc.{rc_str_bytes};
ghost use Rattle.nntp_content.specs.Inner.ArticleLines.{text_stored};
ghost use Rattle.nntp_content.specs.Inner.ArticlesView.{articles_shown, entries_held, AreInOrder, Ascend};
ghost use Rattle.nntp_content.specs.Ascending.{is_last};

use crate::article::StoredArticle;
use crate::ascending::map_of;
use std::alloc::{AllocError, Allocator, Global};
use std::collections::BTreeMap;
use std::marker::Model;
use std::rc::RcStr;
use std::{mem, str};

/// The articles of a spool, each by its message-id.
#[derive(Drop)]
pub struct Articles<A: Allocator = Global> {
    /// The articles, by the order in which they came.
    held: Held<A>,
}

/// Articles, by the order in which they came.
#[derive(Drop)]
pub enum Held<A: Allocator> {
    /// The id of each is greater than those of all that came before it.
    InOrder(Vec<(RcStr<A>, StoredArticle<A>), A>),
    /// They came in any order.
    InAnyOrder(BTreeMap<RcStr<A>, StoredArticle<A>, A>),
}

impl<A: Allocator> Model for Articles<A> {
    ghost use Rattle.std.specs.Prelude.{List, ℕ};
    ghost use Rattle.std.specs.Cmp.Lexicographic.{slice_cmp};
    ghost use Rattle.std.specs.Coded.{coded_ℕ, coded_list};
    ghost use Rattle.std.specs.FinMap as map;
    ghost use Rattle.std.specs.Ordering.{nat_cmp};
    ghost use Rattle.nntp_article.specs.Session.Spool.{Text};
    ghost use Rattle.nntp_content.specs.Inner.ArticlesView.{articles_shown, entries_held, AreInOrder};
    ghost use Rattle.nntp_content.specs.Inner.Codes.{coded_text};

    ghost Value = { map.FinMap (slice_cmp nat_cmp) Text };

    ghost coded = { map.code (coded_list coded_ℕ) coded_text };

    ghost view = { λ a. articles_shown (entries_held a.held) };

    ghost invariant = { λ a. AreInOrder a.held };
}

impl<A: Allocator + Copy> Articles<A> {
    /// Begins with no article.
    pub(crate) fn new(alloc: A) -> Articles<A>
        ensures { result ≡ map.empty }
    {
        Articles {
            held: Held::InOrder(Vec::new(alloc)),
        }
    }

    /// Adds an article, or puts it in the place of the one of its id. Where memory is refused, it is as before or
    /// empty.
    pub(crate) fn insert(
        &mut self,
        alloc: A,
        id: RcStr<A>,
        article: StoredArticle<A>,
    ) -> Result<(), AllocError>
        ensures ok { OnOk result (self.new ≡ map.insert self.old (rc_str_bytes id) (text_stored article)) }
        ensures err { OnErr result ((self.new ≡ self.old) ⊎ (self.new ≡ map.empty)) }
    {
        if self.is_after(id.as_str()) {
            return self.push(id, article);
        }
        let mut articles = mem::replace(self, Articles::new(alloc)).into_map(alloc)?;
        articles.insert(id, article)?;
        self.held = Held::InAnyOrder(articles);
        Ok(())
    }

    /// Adds an article whose id is greater than each other's.
    pub(crate) fn push(&mut self, id: RcStr<A>, article: StoredArticle<A>) -> Result<(), AllocError>
        requires { is_last self.old (rc_str_bytes id) ≡ true }
        ensures ok { OnOk result (self.new ≡ map.insert self.old (rc_str_bytes id) (text_stored article)) }
        ensures err { OnErr result (self.new ≡ self.old) }
    {
        match &mut self.held {
            Held::InOrder(articles) => {
                articles.push((id, article))?;
                Ok(())
            }
            Held::InAnyOrder(articles) => {
                articles.insert(id, article)?;
                Ok(())
            }
        }
    }

    /// Makes the map of the articles.
    fn into_map(self, alloc: A) -> Result<BTreeMap<RcStr<A>, StoredArticle<A>, A>, AllocError>
        ensures { IfOk result (λ articles. articles_shown articles.entries ≡ self) }
    {
        match self.held {
            Held::InOrder(articles) => map_of(alloc, articles),
            Held::InAnyOrder(articles) => Ok(articles),
        }
    }
}

impl<A: Allocator> Articles<A> {
    /// Tells whether the id is greater than each article's.
    pub(crate) fn is_after(&self, id: &str) -> bool
        ensures { result ≡ is_last self.now id.now }
    {
        match &self.held {
            Held::InOrder(articles) => match articles.last() {
                Some(greatest) => is_below(&greatest.0, id),
                None => true,
            },
            Held::InAnyOrder(articles) => match articles.last_key_value() {
                Some((greatest, _)) => is_below(greatest, id),
                None => true,
            },
        }
    }

    /// Returns the article of an id.
    pub(crate) fn get(&self, id: &str) -> Option<&StoredArticle<A>>
        ensures { option_map (λ a. text_stored a.now) result ≡ map.get self.now id.now }
    {
        self.held.get(id)
    }

    /// Tells whether the word is an id that has an article. A word that is no text is none.
    pub(crate) fn knows(&self, word: &[u8]) -> bool
        ensures { result ≡ is_some (map.get self.now word.now) }
    {
        let held = &self.held;
        match str::from_utf8(word) {
            Ok(id) => held.get(id).is_some(),
            Err(_) => false,
        }
    }

    /// Returns the articles as they are held, by the order in which they came.
    pub fn held(&self) -> &Held<A>
        ensures shown { articles_shown (entries_held result.now) ≡ self.now }
        ensures in_order { AreInOrder result.now }
    {
        &self.held
    }

    /// Returns how many articles there are.
    pub(crate) fn len(&self) -> usize
        ensures { result ≡ map.len self.now }
    {
        match &self.held {
            Held::InOrder(articles) => articles.len(),
            Held::InAnyOrder(articles) => articles.len(),
        }
    }
}

impl<A: Allocator> Held<A> {
    /// Returns the article of an id.
    fn get(&self, id: &str) -> Option<&StoredArticle<A>>
        requires { AreInOrder self.now }
        ensures { option_map (λ a. text_stored a.now) result ≡ map.get (articles_shown (entries_held self.now)) id.now }
    {
        match self {
            Held::InOrder(articles) => article_among(articles.as_slice(), id),
            Held::InAnyOrder(articles) => articles.get(id),
        }
    }
}

/// Tells whether an id is less than another.
fn is_below<A: Allocator>(lesser: &RcStr<A>, id: &str) -> bool
    ensures { result ≡ is_lt (slice_cmp nat_cmp (rc_str_bytes lesser.now) id.now) }
{
    lesser.as_str().cmp(id).is_lt()
}

/// Returns the article of an id, of articles whose ids ascend.
fn article_among<'a, A: Allocator>(
    articles: &'a [(RcStr<A>, StoredArticle<A>)],
    id: &str,
) -> Option<&'a StoredArticle<A>>
    requires { Ascend articles.now }
    ensures { option_map (λ a. text_stored a.now) result ≡ map.get (articles_shown articles.now) id.now }
{
    match articles.binary_search_by(|article| article.0.as_str().cmp(id)) {
        Ok(at) => Some(&articles[at].1),
        Err(_) => None,
    }
}
