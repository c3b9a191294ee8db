//! The builder of a spool.
ghost use Rattle.std.specs.Prelude.{◌≡◌, None, false, IfOk, IsNone};
ghost use Rattle.std.specs.FinMap as map;
ghost use Rattle.std.specs.Rc.{rc_str_bytes};
ghost use Rattle.nntp_article.specs.Session.Spool.{numbers as numbers_of};
ghost use Rattle.nntp_wire.specs.Limit.{greatest};
ghost use Rattle.nntp_store.specs.Inner.Building.{Builds, Admits, AdmitsBoth, group_fault, number_fault, place_fault, article_fault, parts_fault, finished};
ghost use Rattle.nntp_content.specs.Content.{with_group, with_article, no_spool};
ghost use Rattle.nntp_content.specs.Inner.ArticleLines.{text_of_article, text_stored, HasLineCount};
ghost use Rattle.nntp_store.specs.Inner.Text.{IsWritten};

use crate::value::Spool;
use crate::value::spool_fault::SpoolFault;
use crate::value::well_formed::{
    are_lines, block_has_lines, id_of, is_block_head_of, is_head_of, name_of,
};
use nntp_article::is_article_number;
use nntp_content::{Article, BoxedNumbers, Content, StoredArticle};
use nntp_wire::{Limit, OwnedBlock};
use std::alloc::{Allocator, Global};
use std::marker::Model;
use std::rc::{Rc, RcStr};
use std::string::String;

/// A builder of a spool, which takes groups, article numbers and articles call by call.
///
/// A call that is refused leaves the builder as it was. Once memory was refused, the builder has
/// failed, and so does each call from then on.
#[derive(Drop)]
pub struct SpoolBuilder<A: Allocator = Global> {
    alloc: A,
    limit: Limit,
    content: Content<A>,
    failed: bool,
}

impl<A: Allocator> Model for SpoolBuilder<A> {
    ghost use Rattle.nntp_store.specs.Inner.Building.{Building, coded_building};
    ghost use Rattle.nntp_content.specs.Inner.Content.{IsContent};
    ghost use Rattle.nntp_wire.specs.Limit.{greatest};

    ghost Value = { Building };

    ghost coded = { coded_building };

    ghost view = { λ b. record { limit = b.limit; spool = b.content; failed = b.failed } };

    ghost invariant = { λ b. IsContent (greatest b.limit) b.content };
}

/// Returns the name of a group as text, or why the group can't be added.
fn group_name<'n, A: Allocator>(content: &Content<A>, name: &'n [u8]) -> Result<&'n str, SpoolFault>
    ensures { Admits (group_fault content.now name.now) name.now result }
{
    let Some(name) = name_of(name) else {
        return Err(SpoolFault::BadName);
    };
    if content.group(name).is_some() {
        return Err(SpoolFault::DuplicateGroup);
    }
    Ok(name)
}

/// Returns the group's name and the number's id as text, or why the number can't be added, whatever
/// ids the group has.
fn number_texts<'n, 'i, A: Allocator>(
    limit: u64,
    content: &Content<A>,
    name: &'n [u8],
    number: u64,
    id: &'i [u8],
) -> Result<(&'n str, &'i str), SpoolFault>
    ensures { AdmitsBoth (place_fault limit content.now name.now number id.now) name.now id.now result }
{
    let Some((name, numbers)) = content.group_named(name) else {
        return Err(SpoolFault::UnknownGroup);
    };
    if !is_article_number(limit, number) {
        return Err(SpoolFault::BadNumber);
    }
    let Some(id) = id_of(id) else {
        return Err(SpoolFault::BadId);
    };
    if numbers.has_number(number) {
        return Err(SpoolFault::DuplicateNumber);
    }
    Ok((name, id))
}

/// Returns the id of an article as text, or why the article can't be added by it.
fn article_id<'i, A: Allocator>(
    content: &Content<A>,
    id: &'i [u8],
    article: &Article<A>,
) -> Result<&'i str, SpoolFault>
    ensures { Admits (article_fault content.now id.now (text_of_article article.now)) id.now result }
{
    let Some(id) = id_of(id) else {
        return Err(SpoolFault::BadId);
    };
    let is_head = are_lines(&article.head) && is_head_of(id, &article.head);
    match parts_fault(content, id, is_head, are_lines(&article.body)) {
        Some(fault) => Err(fault),
        None => Ok(id),
    }
}

/// Returns why an article of these blocks can't be added by the id, if it can't.
fn blocks_fault<A: Allocator>(
    content: &Content<A>,
    id: &[u8],
    head: &OwnedBlock<A>,
    body: &OwnedBlock<A>,
) -> Option<SpoolFault>
    ensures fault { result ≡ article_fault content.now id.now (record { head = head.now; body = body.now }) }
    ensures line_count { IsNone result → HasLineCount (record { head = head.now; body = body.now }) }
{
    let Some(id) = id_of(id) else {
        return Some(SpoolFault::BadId);
    };
    block_has_lines(head);
    block_has_lines(body);
    parts_fault(content, id, is_block_head_of(id, head), true)
}

/// Returns why an article can't be added by a message-id, if it can't. `is_head` says whether its
/// head is one that the id may have, and `is_body` whether no line of its body has a NUL, CR or LF.
fn parts_fault<A: Allocator>(
    content: &Content<A>,
    id: &str,
    is_head: bool,
    is_body: bool,
) -> Option<SpoolFault>
    ensures { result ≡ parts_fault content.now id.now is_head is_body }
{
    if !is_head {
        return Some(SpoolFault::BadHead);
    }
    if !is_body {
        return Some(SpoolFault::BadBody);
    }
    if !content.is_new_article(id) {
        return Some(SpoolFault::DuplicateId);
    }
    None
}

impl<A: Allocator + Copy> SpoolBuilder<A> {
    /// Creates a builder of a spool with nothing in it, whose article numbers have to be within the
    /// limit (RFC 3977, section 6). No memory is taken yet.
    pub fn new(alloc: A, limit: Limit) -> SpoolBuilder<A>
        ensures { result ≡ record { limit = limit; spool = no_spool; failed = false } }
    {
        SpoolBuilder {
            alloc,
            limit,
            content: Content::new(alloc),
            failed: false,
        }
    }

    /// Adds a group without numbers. `name` is the octets of its name (RFC 3977, section 4.1).
    ///
    /// # Errors
    ///
    /// - [`SpoolFault::Failed`], if the builder has failed.
    /// - [`SpoolFault::BadName`], if the octets are no group name.
    /// - [`SpoolFault::DuplicateGroup`], if a group of this name was added before.
    /// - [`SpoolFault::Memory`], if memory is refused. The builder has failed then.
    ///
    /// The builder stays as it was after every error but `Memory`.
    pub fn group(&mut self, name: &[u8]) -> Result<(), SpoolFault>
        ensures { Builds (group_fault self.old.spool name.now) (with_group self.old.spool name.now map.empty) result self.old self.new }
    {
        if self.failed {
            return Err(SpoolFault::Failed);
        }
        let name = group_name(&self.content, name)?;
        let Ok(name) = String::from_str(self.alloc, name) else {
            self.failed = true;
            return Err(SpoolFault::Memory);
        };
        let Ok(_) = self.content.put_group(name, BoxedNumbers::none()) else {
            self.failed = true;
            return Err(SpoolFault::Memory);
        };
        Ok(())
    }

    /// Adds an article number, with the message-id that it has, to a group that was added before. It
    /// takes time in the order of the group's numbers above it.
    ///
    /// # Errors
    ///
    /// - [`SpoolFault::Failed`], if the builder has failed.
    /// - [`SpoolFault::UnknownGroup`], if no group of this name was added.
    /// - [`SpoolFault::BadNumber`], if the number is 0 or above the limit (RFC 3977, section 6).
    /// - [`SpoolFault::BadId`], if the octets are no message-id (section 3.6).
    /// - [`SpoolFault::DuplicateNumber`], if the group has the number already.
    /// - [`SpoolFault::DuplicateId`], if another number of the group has the id.
    /// - [`SpoolFault::Memory`], if memory is refused. The builder has failed then.
    ///
    /// The first of these that holds is returned. The builder stays as it was after every error but
    /// `Memory`.
    pub fn number(&mut self, name: &[u8], number: u64, id: &[u8]) -> Result<(), SpoolFault>
        ensures { Builds (number_fault (greatest self.old.limit) self.old.spool name.now number id.now)
            (with_group self.old.spool name.now (map.insert (numbers_of self.old.spool name.now) number id.now)) result self.old
            self.new }
    {
        if self.failed {
            return Err(SpoolFault::Failed);
        }
        let (name, id) = number_texts(self.limit.value(), &self.content, name, number, id)?;
        if self.content.has_id(name, id) {
            return Err(SpoolFault::DuplicateId);
        }
        let Ok(id) = RcStr::from_str(self.alloc, id) else {
            self.failed = true;
            return Err(SpoolFault::Memory);
        };
        self.put_number(name, number, &id)
    }

    /// Adds an article number as [`SpoolBuilder::number`] does, and shares the text of its id.
    ///
    /// # Errors
    ///
    /// Those of [`SpoolBuilder::number`].
    pub fn number_sharing(
        &mut self,
        name: &[u8],
        number: u64,
        id: &RcStr<A>,
    ) -> Result<(), SpoolFault>
        ensures { Builds (number_fault (greatest self.old.limit) self.old.spool name.now number (rc_str_bytes id.now))
            (with_group self.old.spool name.now (map.insert (numbers_of self.old.spool name.now) number (rc_str_bytes id.now))) result self.old
            self.new }
    {
        if self.failed {
            return Err(SpoolFault::Failed);
        }
        let octets = id.as_str().as_bytes();
        let (name, _) = number_texts(self.limit.value(), &self.content, name, number, octets)?;
        self.put_number(name, number, id)
    }

    /// Adds a number with its id, where no other number of the group has it.
    fn put_number(&mut self, name: &str, number: u64, id: &RcStr<A>) -> Result<(), SpoolFault>
        requires faultless { place_fault (greatest self.old.limit) self.old.spool name.now number (rc_str_bytes id.now) ≡ None }
        requires failed { self.old.failed ≡ false }
        ensures { Builds (number_fault (greatest self.old.limit) self.old.spool name.now number (rc_str_bytes id.now))
            (with_group self.old.spool name.now (map.insert (numbers_of self.old.spool name.now) number (rc_str_bytes id.now))) result self.old
            self.new }
    {
        match self.content.put_number(self.alloc, name, number, id) {
            Ok(true) => Ok(()),
            Ok(false) => Err(SpoolFault::DuplicateId),
            Err(_) => {
                self.failed = true;
                Err(SpoolFault::Memory)
            }
        }
    }

    /// Adds the article that a message-id names. It need not be in any group.
    ///
    /// # Errors
    ///
    /// - [`SpoolFault::Failed`], if the builder has failed.
    /// - [`SpoolFault::BadId`], if the octets are no message-id (RFC 3977, section 3.6).
    /// - [`SpoolFault::BadHead`], if the head lines are no head (section 3.6), or say another id
    ///   (RFC 1036, section 2.1.5).
    /// - [`SpoolFault::BadBody`], if a line of the body has a NUL, a CR or an LF.
    /// - [`SpoolFault::DuplicateId`], if the id has an article already.
    /// - [`SpoolFault::Memory`], if memory is refused. The builder has failed then.
    ///
    /// The first of these that holds is returned. The builder stays as it was after every error but
    /// `Memory`, and the article is dropped after each.
    pub fn article(&mut self, id: &[u8], article: Article<A>) -> Result<(), SpoolFault>
        ensures { Builds (article_fault self.old.spool id.now (text_of_article article)) (with_article self.old.spool id.now (text_of_article article)) result
            self.old self.new }
    {
        // It is lent, and so dropped at one exit alone: the check goes through the drops of each.
        self.copy_article(id, &article)
    }

    /// Adds the article that a message-id names, and copies its lines.
    fn copy_article(&mut self, id: &[u8], article: &Article<A>) -> Result<(), SpoolFault>
        ensures { Builds (article_fault self.old.spool id.now (text_of_article article.now)) (with_article self.old.spool id.now (text_of_article article.now))
            result self.old self.new }
    {
        if self.failed {
            return Err(SpoolFault::Failed);
        }
        let id = article_id(&self.content, id, article)?;
        let Ok(id) = RcStr::from_str(self.alloc, id) else {
            self.failed = true;
            return Err(SpoolFault::Memory);
        };
        let Ok(article) = StoredArticle::of(self.alloc, article) else {
            self.failed = true;
            return Err(SpoolFault::Memory);
        };
        self.put_article(id, article)
    }

    /// Adds the article of these lines as [`SpoolBuilder::article`] does, and shares the text of its
    /// id and the blocks. It copies no octet.
    ///
    /// # Errors
    ///
    /// Those of [`SpoolBuilder::article`].
    pub fn article_sharing(
        &mut self,
        id: &RcStr<A>,
        head: &Rc<OwnedBlock<A>, A>,
        body: &Rc<OwnedBlock<A>, A>,
    ) -> Result<(), SpoolFault>
        ensures { Builds (article_fault self.old.spool (rc_str_bytes id.now) (record { head = head.now.value; body = body.now.value }))
            (with_article self.old.spool (rc_str_bytes id.now) (record { head = head.now.value; body = body.now.value })) result self.old self.new }
    {
        if self.failed {
            return Err(SpoolFault::Failed);
        }
        let octets = id.as_str().as_bytes();
        if let Some(fault) = blocks_fault(&self.content, octets, head.as_ref(), body.as_ref()) {
            return Err(fault);
        }
        let Ok(id) = id.clone() else {
            self.failed = true;
            return Err(SpoolFault::Memory);
        };
        let Ok(article) = StoredArticle::sharing(head, body) else {
            self.failed = true;
            return Err(SpoolFault::Memory);
        };
        self.put_article(id, article)
    }

    /// Adds an article by its id, where there is no fault.
    fn put_article(&mut self, id: RcStr<A>, article: StoredArticle<A>) -> Result<(), SpoolFault>
        requires faultless { article_fault self.old.spool (rc_str_bytes id) (text_stored article) ≡ None }
        requires line_count { HasLineCount (text_stored article) }
        requires failed { self.old.failed ≡ false }
        ensures { Builds None (with_article self.old.spool (rc_str_bytes id) (text_stored article)) result self.old self.new }
    {
        let Ok(_) = self.content.put_article(self.alloc, id, article) else {
            self.failed = true;
            return Err(SpoolFault::Memory);
        };
        Ok(())
    }

    /// Returns the spool that was built.
    ///
    /// # Errors
    ///
    /// [`SpoolFault::Failed`], if the builder has failed, and [`SpoolFault::UnknownId`], if the id
    /// of a number has no article. What was built is dropped.
    pub fn finish(self) -> Result<Spool<A>, SpoolFault>
        ensures value { result ≡ finished self }
        ensures is_written { IfOk result IsWritten }
    {
        if self.failed {
            return Err(SpoolFault::Failed);
        }
        if !self.content.has_articles() {
            return Err(SpoolFault::UnknownId);
        }
        Ok(Spool::new(self.limit, self.content))
    }
}
