//! The articles that answers show, given away one after the other.
ghost use Rattle.std.specs.{Prelude.{◌≡◌}, Iterator.{YieldsFirst, item_count}};
ghost use Rattle.nntp_kept_articles.specs.Inner.{Readers.{articles_shown_in}, ArticleView.{entries_value}};

use crate::known::KnownArticle;
use crate::shown_articles::ShownArticle;
use std::alloc::{Allocator, Global};
use std::collections::btree_map;
use std::marker::Model;
use std::rc::RcStr;

/// An article that answers show, which the facts have given away.
pub struct TakenArticle<A: Allocator = Global> {
    id: RcStr<A>,
    article: KnownArticle<A>,
}

/// By hand, since a derived one is checked case by case at each place where an article may be dropped.
impl<A: Allocator> Drop for TakenArticle<A> {
    fn drop(self) {
        let TakenArticle { id: _, article: _ } = self;
    }
}

impl<A: Allocator> Model for TakenArticle<A> {
    ghost use Rattle.std.specs.Rc.{rc_str_bytes};
    ghost use Rattle.nntp_kept_articles.specs.Inner.{Readers.{ShownArticle as ArticleValue, shown_article}, ArticleView.{known_article}};

    ghost Value = { ArticleValue };

    ghost view = { λ t. shown_article (rc_str_bytes t.id) (known_article t.article) };
}

impl<A: Allocator> TakenArticle<A> {
    /// Lends the article, so that it can be read.
    pub fn shown(&self) -> ShownArticle<'_, A>
        ensures { result ≡ self.now }
    {
        ShownArticle::new(&self.id, &self.article)
    }
}

/// An iterator that gives away the articles that answers show, in byte order of their message-ids. As it goes on, it gives
/// back the memory that they took among the facts.
#[derive(Drop)]
pub struct TakenArticles<A: Allocator = Global> {
    rest: btree_map::IntoIter<RcStr<A>, KnownArticle<A>, A>,
}

impl<A: Allocator> Model for TakenArticles<A> {
    ghost use Rattle.std.specs.Prelude.{List};
    ghost use Rattle.nntp_kept_articles.specs.Inner.{Readers.{ShownArticle as ArticleValue, articles_shown_in}, ArticleView.{entries_value}};

    ghost Value = { List ArticleValue };

    ghost view = { λ s. articles_shown_in (entries_value s.rest) };
}

impl<A: Allocator> TakenArticles<A> {
    /// Begins with the first of these ids.
    pub(crate) fn new(rest: btree_map::IntoIter<RcStr<A>, KnownArticle<A>, A>) -> TakenArticles<A>
        ensures { result ≡ articles_shown_in (entries_value rest) }
    {
        TakenArticles { rest }
    }
}

impl<A: Allocator> Iterator for TakenArticles<A> {
    type Item = TakenArticle<A>;

    ghost next_gives = { YieldsFirst (λ articles. articles) };

    ghost remaining = { item_count (λ articles. articles) };

    fn next(&mut self) -> Option<TakenArticle<A>> {
        let (id, article) = self.rest.next()?;
        Some(TakenArticle { id, article })
    }
}
