//! The articles that answers show, one after the other.
ghost use Rattle.std.specs.{Prelude.{◌≡◌, None, MatchOption, option_map}, Iterator.{YieldsFirst, item_count}, Rc.{rc_str_bytes}};
ghost use Rattle.nntp_kept_articles.specs.Inner.{Readers.{articles_shown_in, shown_article}, ArticleView.{entries_value, known_article}};

use crate::known::KnownArticle;
use nntp_article::ToldFields;
use nntp_wire::OwnedBlock;
use std::alloc::{Allocator, Global};
use std::collections::btree_map;
use std::marker::Model;
use std::rc::{Rc, RcStr};

/// An article that answers show, and so every spool has that permits them.
#[derive(Drop)]
pub struct ShownArticle<'a, A: Allocator = Global> {
    id: &'a RcStr<A>,
    article: &'a KnownArticle<A>,
}

impl<'a, A: Allocator> Model for ShownArticle<'a, A> {
    ghost use Rattle.std.specs.Rc.{rc_str_bytes};
    ghost use Rattle.nntp_kept_articles.specs.Inner.{Readers.{ShownArticle as ArticleValue, shown_article}, ArticleView.{known_article}};

    ghost Value = { ArticleValue };

    ghost view = { λ a. shown_article (rc_str_bytes a.id.now) (known_article a.article.now) };
}

impl<'a, A: Allocator> ShownArticle<'a, A> {
    /// Shows what is known of the article of an id.
    pub(crate) fn new(id: &'a RcStr<A>, article: &'a KnownArticle<A>) -> ShownArticle<'a, A>
        ensures { result ≡ shown_article (rc_str_bytes id.now) (known_article article.now) }
    {
        ShownArticle { id, article }
    }

    /// Returns the article's message-id, with the angle brackets (RFC 3977, section 3.6).
    pub fn id(&self) -> &'a RcStr<A>
        ensures { rc_str_bytes result.now ≡ self.now.id }
    {
        self.id
    }

    /// Tells whether a success of ARTICLE, HEAD, BODY, STAT or of OVER or XOVER without a range named the article (RFC 3977,
    /// sections 6.2 and 8.3).
    pub fn is_sent(&self) -> bool
        ensures { result ≡ self.now.is_sent }
    {
        self.article.is_sent()
    }

    /// Returns the lines of the article's head, or `None` if no answer sent them.
    pub fn head(&self) -> Option<&'a Rc<OwnedBlock<A>, A>>
        ensures { option_map (λ head. head.now.value) result ≡ self.now.head }
    {
        self.article.head()
    }

    /// Returns what overviews told of four headers, or `None` if an answer sent the article's head, or no overview told of
    /// them.
    pub fn told(&self) -> Option<&'a ToldFields<A>>
        ensures { MatchOption self.now.head (option_map (λ told. told.now) result ≡ self.now.fields) (λ head. result ≡ None) }
    {
        self.article.told()
    }

    /// Returns the lines of the article's body, or `None` if no answer sent them.
    pub fn body(&self) -> Option<&'a Rc<OwnedBlock<A>, A>>
        ensures { option_map (λ body. body.now.value) result ≡ self.now.body }
    {
        self.article.body()
    }
}

/// An iterator over the articles that answers show, in byte order of their message-ids.
#[derive(Drop)]
pub struct ShownArticles<'a, A: Allocator = Global> {
    rest: btree_map::Iter<'a, RcStr<A>, KnownArticle<A>>,
}

impl<'a, A: Allocator> Model for ShownArticles<'a, A> {
    ghost use Rattle.std.specs.Prelude.{List};
    ghost use Rattle.nntp_kept_articles.specs.Inner.{Readers.{ShownArticle as ArticleValue, articles_shown_in}, ArticleView.{entries_value}};

    ghost Value = { List ArticleValue };

    ghost view = { λ s. articles_shown_in (entries_value s.rest) };
}

impl<'a, A: Allocator> ShownArticles<'a, A> {
    /// Begins with the first of these ids.
    pub(crate) fn new(rest: btree_map::Iter<'a, RcStr<A>, KnownArticle<A>>) -> ShownArticles<'a, A>
        ensures { result ≡ articles_shown_in (entries_value rest.entry) }
    {
        ShownArticles { rest }
    }
}

impl<'a, A: Allocator> Iterator for ShownArticles<'a, A> {
    type Item = ShownArticle<'a, A>;

    ghost next_gives = { YieldsFirst (λ articles. articles) };

    ghost remaining = { item_count (λ articles. articles) };

    fn next(&mut self) -> Option<ShownArticle<'a, A>> {
        let (id, article) = self.rest.next()?;
        Some(ShownArticle::new(id, article))
    }
}
