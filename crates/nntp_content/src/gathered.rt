//! Groups and articles that come in the order of their names and ids, gathered, as those of a text are.
ghost use Rattle.std.specs.Prelude.{◌≡◌, true, OnOk, IfOk};
ghost use Rattle.std.specs.Rc.{rc_str_bytes};
ghost use Rattle.std.specs.String.{string_bytes};
ghost use Rattle.nntp_content.specs.Ascending.{is_last};
ghost use Rattle.nntp_content.specs.Content.{with_group, with_article, no_spool};
ghost use Rattle.nntp_content.specs.Inner.ArticleLines.{text_stored, HasLineCount};

use crate::article::StoredArticle;
use crate::articles::Articles;
use crate::ascending::map_of;
use crate::boxed_numbers::BoxedNumbers;
use crate::content::Content;
use crate::numbers::Numbers;
use nntp_wire::OwnedBlock;
use std::alloc::{AllocError, Allocator};
use std::marker::Model;
use std::rc::RcStr;
use std::string::String;

/// The groups and articles that were read, in the order in which they came, which ascends.
#[derive(Drop)]
pub struct Gathered<A: Allocator, T: Allocator> {
    /// The groups, each with its name, in a list that is given back once their map is made.
    groups: Vec<(String<A>, BoxedNumbers<A>), T>,
    /// The articles, each with its message-id.
    articles: Articles<A>,
}

impl<A: Allocator, T: Allocator> Model for Gathered<A, T> {
    ghost use Rattle.nntp_article.specs.Session.Spool.{Spool as SpoolValue};
    ghost use Rattle.nntp_content.specs.Inner.Codes.{coded_spool};

    ghost Value = { SpoolValue };

    ghost coded = { coded_spool };

    ghost use Rattle.nntp_content.specs.Inner.ContentView.{spool_stored, IsInOrder};

    ghost view = { λ a. spool_stored a.groups.items a.articles };

    ghost invariant = { λ a. IsInOrder a.groups.items a.articles };
}

impl<A: Allocator + Copy, T: Allocator> Gathered<A, T> {
    /// Begins with no group and no article.
    pub fn new(alloc: A, scratch: T) -> Gathered<A, T>
        ensures { result ≡ no_spool }
    {
        Gathered {
            groups: Vec::new(scratch),
            articles: Articles::new(alloc),
        }
    }

    /// Tells whether the name is greater than each group's.
    pub fn is_after_groups(&self, name: &str) -> bool
        ensures { result ≡ is_last self.now.groups name.now }
    {
        match self.groups.last() {
            Some(greatest) => greatest.0.as_str().cmp(name).is_lt(),
            None => true,
        }
    }

    /// Tells whether the id is greater than each article's.
    pub fn is_after_articles(&self, id: &str) -> bool
        ensures { result ≡ is_last self.now.articles id.now }
    {
        self.articles.is_after(id)
    }

    /// Adds a group, with a copy of its name, which is greater than each other's.
    pub fn add_group(&mut self, alloc: A, name: &str, numbers: Numbers<A>) -> Result<(), AllocError>
        requires { is_last self.old.groups name.now ≡ true }
        ensures { OnOk result (self.new ≡ with_group self.old name.now numbers) }
    {
        let name = String::from_str(alloc, name)?;
        let numbers = BoxedNumbers::of(alloc, numbers)?;
        self.push_group(name, numbers)
    }

    /// Adds an article, with copies of its id, which is greater than each other's, and of its lines.
    pub fn add_article(
        &mut self,
        alloc: A,
        id: &str,
        head: &OwnedBlock<T>,
        body: &OwnedBlock<T>,
    ) -> Result<(), AllocError>
        requires { is_last self.old.articles id.now ≡ true }
        ensures { OnOk result (self.new ≡ with_article self.old id.now (record { head = head.now; body = body.now })) }
    {
        let article = StoredArticle::new(alloc, head, body)?;
        let id = RcStr::from_str(alloc, id)?;
        self.push_article(id, article)
    }

    /// Adds a group whose name is greater than each other's.
    fn push_group(&mut self, name: String<A>, numbers: BoxedNumbers<A>) -> Result<(), AllocError>
        requires { is_last self.old.groups (string_bytes name) ≡ true }
        ensures { OnOk result (self.new ≡ with_group self.old (string_bytes name) numbers) }
    {
        self.groups.push((name, numbers))?;
        Ok(())
    }

    /// Adds an article whose id is greater than each other's.
    fn push_article(&mut self, id: RcStr<A>, article: StoredArticle<A>) -> Result<(), AllocError>
        requires last { is_last self.old.articles (rc_str_bytes id) ≡ true }
        requires line_count { HasLineCount (text_stored article) }
        ensures { OnOk result (self.new ≡ with_article self.old (rc_str_bytes id) (text_stored article)) }
    {
        self.articles.push(id, article)
    }

    /// Makes the map of the groups.
    pub fn into_content(self, alloc: A) -> Result<Content<A>, AllocError>
        ensures { IfOk result (λ content. content ≡ self) }
    {
        Ok(Content {
            groups: map_of(alloc, self.groups)?,
            articles: self.articles,
            no_numbers: Numbers::new(alloc),
        })
    }
}
