//! A spool: the groups of a server with their numbers, and its articles.
ghost use Rattle.std.specs.Prelude.{◌≡◌};
ghost use Rattle.std.specs.FinMap.{len};
ghost use Rattle.nntp_wire.specs.Limit.{greatest};
ghost use Rattle.nntp_wire.specs.declared.limit.Limit.TheVariants.{Wide};
ghost use Rattle.nntp_article.specs.Session.Spool.{IsSpool};
ghost use Rattle.nntp_content.specs.Counts.{numbers_in};
ghost use Rattle.nntp_store.specs.Limited.{IsWithinLimit};
ghost use Rattle.nntp_store.specs.Inner.Text.{IsWritten};

use nntp_content::Content;
use nntp_wire::Limit;
use std::alloc::{Allocator, Global};
use std::marker::Model;

/// The counts of what a spool holds.
#[derive(Clone, Copy, PartialEq, Eq)]
pub struct Counts {
    /// The number of groups, those without article numbers among them.
    pub groups: u64,
    /// The number of article numbers over all groups. An article counts once for each group that it
    /// is in.
    pub numbers: u128,
    /// The number of articles, those in no group among them.
    pub articles: u64,
}

/// A fixed collection of groups and articles, and the limit that the article numbers are within
/// (RFC 3977, sections 3.6 and 6). Each message-id at a number has an article.
#[derive(Drop)]
pub struct Spool<A: Allocator = Global> {
    limit: Limit,
    content: Content<A>,
}

impl<A: Allocator> Model for Spool<A> {
    ghost use Rattle.nntp_wire.specs.Limit.{greatest};
    ghost use Rattle.nntp_article.specs.Session.Spool.{IsSpool};
    ghost use Rattle.nntp_store.specs.Limited.{LimitedSpool};
    ghost use Rattle.nntp_store.specs.Inner.Limited.{coded_limited};

    ghost Value = { LimitedSpool };

    ghost coded = { coded_limited };

    ghost view = { λ a. record { limit = a.limit; spool = a.content } };

    ghost invariant = { λ a. IsSpool (greatest a.limit) a.content };
}

impl<A: Allocator> Spool<A> {
    /// Puts a limit, groups and articles together, where each id at a number has its article, and
    /// the numbers are within the limit.
    pub(crate) fn new(limit: Limit, content: Content<A>) -> Spool<A>
        requires { IsSpool (greatest limit) content }
        ensures { result ≡ record { limit = limit; spool = content } }
    {
        Spool { limit, content }
    }

    /// Returns the limit of the article numbers (RFC 3977, section 6).
    pub fn limit(&self) -> Limit
        ensures { result ≡ self.now.limit }
    {
        self.limit
    }

    /// Returns the same groups and articles with the greater limit, [`Limit::Wide`].
    pub fn widened(self) -> Spool<A>
        ensures { result ≡ record { limit = Wide; spool = self.spool } }
    {
        Spool {
            limit: Limit::Wide,
            content: self.content,
        }
    }

    /// Returns the groups and articles.
    pub fn content(&self) -> &Content<A>
        ensures value { result.now ≡ self.now.spool }
        ensures is_spool { IsWithinLimit self.now }
    {
        &self.content
    }

    /// Counts the groups, the article numbers and the articles. It takes time in the order of the
    /// groups.
    pub fn counts(&self) -> Counts
        ensures groups { result.groups ≡ len self.now.spool.groups }
        ensures numbers { result.numbers ≡ numbers_in self.now.spool }
        ensures articles { result.articles ≡ len self.now.spool.articles }
        ensures is_spool { IsWithinLimit self.now }
        ensures is_written { IsWritten self.now }
    {
        Counts {
            groups: self.content.count_groups(),
            numbers: self.content.count_numbers(),
            articles: self.content.count_articles(),
        }
    }
}
