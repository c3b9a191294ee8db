//! Groups and articles, as they are taken in before all of a spool is there.
ghost use Rattle.std.specs.Prelude.{◌≡◌, ◌⊎◌, None, false, not, OnOk, OnErr, IfOk, IfErr, IfSome, option_map, option_copied, is_some, is_none};
ghost use Rattle.std.specs.FinMap as map;
ghost use Rattle.std.specs.Rc.{rc_str_bytes};
ghost use Rattle.std.specs.String.{string_bytes};
ghost use Rattle.nntp_article.specs.Session.Spool.{IsGroup, numbers as numbers_of};
ghost use Rattle.nntp_content.specs.Counts.{numbers_in};
ghost use Rattle.nntp_content.specs.Ascending.{is_last};
ghost use Rattle.nntp_content.specs.Content.{with_group, with_article, all_known, ids_have_articles, no_spool};
ghost use Rattle.nntp_content.specs.Inner.Content.{asked_count, with_number_in, without_articles};
ghost use Rattle.nntp_content.specs.Inner.ContentView.{groups_shown};
ghost use Rattle.nntp_content.specs.Numbers.{has_id};
ghost use Rattle.nntp_content.specs.Inner.ArticleLines.{text_stored, HasLineCount, HasLineCounts};

use crate::article::StoredArticle;
use crate::articles::Articles;
use crate::boxed_numbers::BoxedNumbers;
use crate::numbers::Numbers;
use nntp_wire::{Wildmat, is_asked};
use std::alloc::{AllocError, Allocator, Global};
use std::collections::BTreeMap;
use std::marker::Model;
use std::rc::RcStr;
use std::str;
use std::string::String;

/// The groups of a spool by their names, and its articles by their ids.
pub struct Content<A: Allocator = Global> {
    /// The numbers of each group, by its name.
    pub(crate) groups: BTreeMap<String<A>, BoxedNumbers<A>, A>,
    /// The articles, each by its message-id.
    pub(crate) articles: Articles<A>,
    /// No numbers, which are lent where a word names no group, or one without numbers.
    pub(crate) no_numbers: Numbers<A>,
}

/// By hand, since a derived one is checked field by field at each place where a content may be dropped.
impl<A: Allocator> Drop for Content<A> {
    fn drop(self) {
        let Content {
            groups: _,
            articles: _,
            no_numbers: _,
        } = self;
    }
}

impl<A: Allocator> Model for Content<A> {
    ghost use Rattle.nntp_article.specs.Session.Spool.{Spool as SpoolValue};
    ghost use Rattle.nntp_content.specs.Inner.Codes.{coded_spool};

    ghost Value = { SpoolValue };

    ghost coded = { coded_spool };

    ghost use Rattle.std.specs.Prelude.{◌≡◌};
    ghost use Rattle.std.specs.FinMap.{empty};
    ghost use Rattle.nntp_content.specs.Inner.ContentView.{spool_stored};
    ghost use Rattle.nntp_content.specs.Inner.ArticleLines.{HasLineCounts};

    ghost view = { λ a. spool_stored a.groups.entries a.articles };

    ghost invariant = { λ a. HasLineCounts (spool_stored a.groups.entries a.articles) × (a.no_numbers ≡ empty) };
}

impl<A: Allocator + Copy> Content<A> {
    /// Creates content with no group and no article.
    pub fn new(alloc: A) -> Content<A>
        ensures { result ≡ no_spool }
    {
        Content {
            groups: BTreeMap::new(alloc),
            articles: Articles::new(alloc),
            no_numbers: Numbers::new(alloc),
        }
    }

    /// Adds a group, or puts it in the place of the one of its name.
    pub fn put_group(&mut self, name: String<A>, numbers: BoxedNumbers<A>) -> Result<(), AllocError>
        ensures ok { OnOk result (self.new ≡ with_group self.old (string_bytes name) numbers) }
        ensures err { OnErr result (self.new ≡ self.old) }
    {
        self.groups.insert(name, numbers)?;
        Ok(())
    }

    /// Adds a number with its id to a group that is there and doesn't have the number, and answers
    /// true. Where the group has the id already, it answers false and adds nothing.
    pub fn put_number(
        &mut self,
        alloc: A,
        name: &str,
        number: u64,
        id: &RcStr<A>,
    ) -> Result<bool, AllocError>
        requires { IsGroup self.old name.now × (map.get (numbers_of self.old name.now) number ≡ None) }
        ensures added { IfOk result (λ added. added ≡ not (has_id (numbers_of self.old name.now) (rc_str_bytes id.now))) }
        ensures ok { OnOk result (self.new ≡ with_number_in self.old name.now number (rc_str_bytes id.now)) }
        ensures absent { IfErr result (λ e. has_id (numbers_of self.old name.now) (rc_str_bytes id.now) ≡ false) }
        ensures err { OnErr result (self.new ≡ self.old) }
    {
        let Some(group) = self.groups.get_mut(name) else {
            return Ok(false);
        };
        group.put(alloc, number, id)
    }

    /// Adds an article, or puts it in the place of the one of its id. Where memory is refused, all is as before, or no
    /// article is left.
    pub fn put_article(
        &mut self,
        alloc: A,
        id: RcStr<A>,
        article: StoredArticle<A>,
    ) -> Result<(), AllocError>
        requires { HasLineCount (text_stored article) }
        ensures ok { OnOk result (self.new ≡ with_article self.old (rc_str_bytes id) (text_stored article)) }
        ensures err { OnErr result ((self.new ≡ self.old) ⊎ (self.new ≡ without_articles self.old)) }
    {
        self.articles.insert(alloc, id, article)
    }
}

impl<A: Allocator> Content<A> {
    /// Returns the numbers of a group.
    pub fn group(&self, name: &str) -> Option<&Numbers<A>>
        ensures { option_copied result ≡ map.get self.now.groups name.now }
    {
        match self.groups.get(name) {
            Some(numbers) => Some(numbers.or(&self.no_numbers)),
            None => None,
        }
    }

    /// Returns the word as text, and the numbers of the group that it names. A word that is no text
    /// names none.
    pub fn group_named<'w>(&self, word: &'w [u8]) -> Option<(&'w str, &Numbers<A>)>
        ensures numbers { option_map (λ group. group.1.now) result ≡ map.get self.now.groups word.now }
        ensures name { IfSome result (λ group. group.0.now ≡ word.now) }
    {
        match str::from_utf8(word) {
            Ok(name) => match self.groups.get(name) {
                Some(numbers) => Some((name, numbers.or(&self.no_numbers))),
                None => None,
            },
            Err(_) => None,
        }
    }

    /// Returns the group that the word names: its name, as it is kept here, and its numbers. A word
    /// that is no text names none.
    pub fn kept_group(&self, word: &[u8]) -> Option<(&str, &Numbers<A>)>
        ensures numbers { option_map (λ group. group.1.now) result ≡ map.get self.now.groups word.now }
        ensures name { IfSome result (λ group. group.0.now ≡ word.now) }
    {
        match str::from_utf8(word) {
            Ok(name) => match self.groups.get_key_value(name) {
                Some((kept, numbers)) => Some((kept.as_str(), numbers.or(&self.no_numbers))),
                None => None,
            },
            Err(_) => None,
        }
    }

    /// Returns the numbers of each group, by its name.
    pub fn groups(&self) -> &BTreeMap<String<A>, BoxedNumbers<A>, A>
        ensures { groups_shown result.now.entries ≡ self.now.groups }
    {
        &self.groups
    }

    /// Returns the articles, each by its message-id.
    pub fn articles(&self) -> &Articles<A>
        ensures { result.now ≡ self.now.articles }
    {
        &self.articles
    }

    /// Returns the numbers of a word that names no group: none.
    pub fn no_numbers(&self) -> &Numbers<A>
        ensures { result.now ≡ map.empty }
    {
        &self.no_numbers
    }

    /// Returns the article of an id.
    pub fn article(&self, id: &str) -> Option<&StoredArticle<A>>
        ensures { option_map (λ a. text_stored a.now) result ≡ map.get self.now.articles id.now }
    {
        self.articles.get(id)
    }

    /// Tells whether the id has an article.
    pub(crate) fn has_article(&self, id: &str) -> bool
        ensures { result ≡ is_some (map.get self.now.articles id.now) }
    {
        self.articles.get(id).is_some()
    }

    /// Tells whether the id has no article. One above all others isn't looked for.
    pub fn is_new_article(&self, id: &str) -> bool
        ensures { result ≡ is_none (map.get self.now.articles id.now) }
    {
        self.is_after_articles(id) || !self.has_article(id)
    }

    /// Tells whether a number of the group has the id.
    pub fn has_id(&self, name: &str, id: &str) -> bool
        ensures { result ≡ has_id (numbers_of self.now name.now) id.now }
    {
        match self.group(name) {
            Some(numbers) => numbers.has_some_id(id),
            None => false,
        }
    }

    /// Tells whether the word is an id that has an article. A word that is no text is none.
    pub fn knows(&self, word: &[u8]) -> bool
        ensures { result ≡ is_some (map.get self.now.articles word.now) }
    {
        self.articles.knows(word)
    }

    /// Returns how many groups there are.
    pub fn count_groups(&self) -> u64
        ensures { result ≡ map.len self.now.groups }
    {
        self.groups.len() as u64
    }

    /// Returns how many groups match the wildmat of a LIST ACTIVE (RFC 3977, section 7.6.3), or how many there are
    /// without one.
    pub fn count_asked(&self, wildmat: &Option<Wildmat<'_>>) -> usize
        ensures { result ≡ asked_count self.now wildmat.now }
    {
        self.groups
            .iter()
            .filter(|(name, _)| is_asked(wildmat, name.as_bytes()))
            .count()
    }

    /// Returns how many numbers there are in all groups.
    pub fn count_numbers(&self) -> u128
        ensures { result ≡ numbers_in self.now }
    {
        let mut total = 0u128;
        let mut entries = self.groups.iter();
        while let Some((_, numbers)) = entries.next() {
            total += numbers.or(&self.no_numbers).len() as u128;
        }
        total
    }

    /// Returns how many articles there are.
    pub fn count_articles(&self) -> u64
        ensures len { result ≡ map.len self.now.articles }
        ensures line_counts { HasLineCounts self.now }
    {
        self.articles.len() as u64
    }

    /// Tells whether the id is greater than each article's.
    pub(crate) fn is_after_articles(&self, id: &str) -> bool
        ensures { result ≡ is_last self.now.articles id.now }
    {
        self.articles.is_after(id)
    }

    /// Tells whether each id of these numbers has an article. The ids of many are looked for in their
    /// own order, in which each is found near the one before it.
    fn knows_all(&self, numbers: &BoxedNumbers<A>) -> bool
        ensures { result ≡ all_known self.now numbers.now }
    {
        let numbers = numbers.or(&self.no_numbers);
        if numbers.known.is_empty() {
            numbers
                .ids
                .iter()
                .all(|numbered| self.has_article(numbered.1.as_str()))
        } else {
            numbers.known.iter().all(|id| self.has_article(id.as_str()))
        }
    }

    /// Tells whether each id of a number has an article.
    pub fn has_articles(&self) -> bool
        ensures value { result ≡ ids_have_articles self.now }
        ensures line_counts { HasLineCounts self.now }
    {
        self.groups
            .iter()
            .all(|(_, numbers)| self.knows_all(numbers))
    }
}
