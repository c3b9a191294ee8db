//! What is known of one article.
ghost use Rattle.std.specs.Prelude.{◌≡◌, ◌↔◌, ◌≢◌, false, true, None, Some, IsTrue, IfOk, IfSome, MatchOption, option_map, if◌then◌else◌, is_some};
ghost use Rattle.nntp_article.specs.{Article.Fields.{fields_of_head, words_in}, Inner.Fields.{AreWords}};
ghost use Rattle.nntp_theory.specs.Inner.Together.{AreSame};
ghost use Rattle.nntp_kept_articles.specs.Inner.{Articles.{MayBeSent, MayBeTold, with_sent, with_told, IsAddedIf}, ArticleView.{fields_held, fields_kept}};
ghost use Rattle.nntp_kept_articles.specs.Inner.ArticleView.{known_article, lines_held, of_parts};

use crate::sent::Sent;
use nntp_article::{Field, Fields, ToldFields};
use nntp_wire::{Block, OwnedBlock};
use std::alloc::{AllocError, Allocator};
use std::boxed::Box;
use std::mem;
use std::rc::Rc;

/// What is known of an article.
pub(crate) enum KnownArticle<A: Allocator> {
    /// No success of ARTICLE, HEAD, BODY, STAT or of OVER or XOVER without a range named the article, and no overview told of
    /// it.
    Unsent,
    /// No such success named the article. Overviews of a range told this.
    Listed(Box<ToldFields<A>, A>),
    /// A success named the article, none of its lines were sent, and no overview told of it.
    Named,
    /// A success named the article, and none of its lines were sent. Overviews told this.
    Told(Box<ToldFields<A>, A>),
    /// The lines of the head were sent, and none of the body.
    Head(Rc<OwnedBlock<A>, A>),
    /// The lines of the body were sent, and none of the head, and no overview told of the article.
    Body(Rc<OwnedBlock<A>, A>),
    /// The lines of the body were sent, and none of the head. Overviews told of the article.
    ToldBody(Box<ToldArticle<A>, A>),
    /// The lines of both were sent.
    Whole(Box<WholeArticle<A>, A>),
}

/// By hand, since a derived one is checked variant by variant at each place where what is known may be dropped.
impl<A: Allocator> Drop for KnownArticle<A> {
    fn drop(self) {
        match self {
            KnownArticle::Unsent | KnownArticle::Named => {}
            KnownArticle::Listed(_) | KnownArticle::Told(_) => {}
            KnownArticle::Head(_) | KnownArticle::Body(_) => {}
            KnownArticle::ToldBody(_) | KnownArticle::Whole(_) => {}
        }
    }
}

/// The lines of an article.
#[derive(Drop)]
pub(crate) struct WholeArticle<A: Allocator> {
    /// The lines of the head.
    head: Rc<OwnedBlock<A>, A>,
    /// The lines of the body.
    body: Rc<OwnedBlock<A>, A>,
}

/// The lines of an article's body, and what overviews told of it.
#[derive(Drop)]
pub(crate) struct ToldArticle<A: Allocator> {
    /// What overviews told.
    told: Box<ToldFields<A>, A>,
    /// The lines of the body.
    body: Rc<OwnedBlock<A>, A>,
}

/// Tells whether lines that are sent are those that are held, where there are both.
fn are_same<A: Allocator>(sent: &Option<Block<'_>>, held: Option<&Rc<OwnedBlock<A>, A>>) -> bool
    ensures { IsTrue result ↔ AreSame sent.now (option_map (λ block. block.now.value) held.entry) }
{
    match (sent, held) {
        (Some(sent), Some(held)) => sent.is_same(&held.as_ref().as_block()),
        _ => true,
    }
}

/// Copies lines, if they are sent and none are held.
fn copied<A: Allocator + Copy>(
    alloc: A,
    sent: &Option<Block<'_>>,
    held: Option<&Rc<OwnedBlock<A>, A>>,
) -> Result<Option<Rc<OwnedBlock<A>, A>>, AllocError>
    ensures { IfOk result (λ copy. lines_held copy ≡ if is_some (option_map (λ block. block.now.value) held.entry) then None else sent.now) }
{
    match (sent, held) {
        (Some(sent), None) => Ok(Some(Rc::new(alloc, sent.to_owned(alloc)?)?)),
        _ => Ok(None),
    }
}

impl<A: Allocator> KnownArticle<A> {
    /// Tells whether a success of ARTICLE, HEAD, BODY, STAT or of OVER or XOVER without a range named the article.
    pub(crate) fn is_sent(&self) -> bool
        ensures { result ≡ (known_article self.now).is_sent }
    {
        !matches!(self, KnownArticle::Unsent | KnownArticle::Listed(_))
    }

    /// Returns the lines of the article's head, if they were sent.
    pub(crate) fn head(&self) -> Option<&Rc<OwnedBlock<A>, A>>
        ensures { option_map (λ head. head.now.value) result ≡ (known_article self.now).head }
    {
        match self {
            KnownArticle::Head(head) => Some(head),
            KnownArticle::Whole(lines) => Some(&lines.as_ref().head),
            _ => None,
        }
    }

    /// Returns the lines of the article's body, if they were sent.
    pub(crate) fn body(&self) -> Option<&Rc<OwnedBlock<A>, A>>
        ensures { option_map (λ body. body.now.value) result ≡ (known_article self.now).body }
    {
        match self {
            KnownArticle::Body(body) => Some(body),
            KnownArticle::ToldBody(article) => Some(&article.as_ref().body),
            KnownArticle::Whole(lines) => Some(&lines.as_ref().body),
            _ => None,
        }
    }

    /// Returns what overviews told, if no head was sent and one told of the article.
    pub(crate) fn told(&self) -> Option<&ToldFields<A>>
        ensures { option_map (λ told. told.now) result ≡ fields_held self.now }
    {
        match self {
            KnownArticle::Listed(told) => Some(told.as_ref()),
            KnownArticle::Told(told) => Some(told.as_ref()),
            KnownArticle::ToldBody(article) => Some(article.as_ref().told.as_ref()),
            _ => None,
        }
    }

    /// Returns what a head that was sent or overviews tell of the four headers, if anything tells of them.
    pub(crate) fn fields(&self) -> Option<Fields<'_>>
        ensures { result ≡ (known_article self.now).fields }
    {
        match (self.head(), self.told()) {
            (Some(head), _) => Some(Fields::of_head(&head.as_ref().as_block())),
            (None, Some(told)) => Some(told.fields()),
            (None, None) => None,
        }
    }

    /// Returns the first of the four headers of which other words are told than these.
    pub(crate) fn other_field(&self, told: Fields<'_>) -> Option<Field>
        ensures { MatchOption result (AreSame (Some told.entry) (known_article self.now).fields)
            (λ field. MatchOption (known_article self.now).fields ⊥ (λ before. words_in told.entry field ≢ words_in before field)) }
    {
        told.first_difference(self.fields()?)
    }

    /// Tells whether these parts may be sent of the article.
    fn may_send(&self, sent: &Sent<'_>) -> bool
        ensures { IsTrue result ↔ MayBeSent (known_article self.now) sent.now.head sent.now.body }
    {
        self.may_have_head(sent) && self.may_tell(sent) && self.may_have_body(sent)
    }

    /// Tells whether a head that is sent tells what overviews told, where no head was sent before.
    fn may_tell(&self, sent: &Sent<'_>) -> bool
        ensures { IsTrue result ↔ AreSame (option_map fields_of_head sent.now.head) (fields_held self.now) }
    {
        match (&sent.head, self.told()) {
            (Some(head), Some(told)) => Fields::of_head(head)
                .first_difference(told.fields())
                .is_none(),
            _ => true,
        }
    }

    /// Tells whether no other head was sent.
    pub(crate) fn may_have_head(&self, sent: &Sent<'_>) -> bool
        ensures { IsTrue result ↔ AreSame sent.now.head (known_article self.now).head }
    {
        are_same(&sent.head, self.head())
    }

    /// Tells whether no other body was sent.
    pub(crate) fn may_have_body(&self, sent: &Sent<'_>) -> bool
        ensures { IsTrue result ↔ AreSame sent.now.body (known_article self.now).body }
    {
        are_same(&sent.body, self.body())
    }
}

impl<A: Allocator + Copy> KnownArticle<A> {
    /// Holds the parts that a success sends, if they may be sent, and tells whether they may.
    pub(crate) fn note(&mut self, alloc: A, sent: &Sent<'_>) -> Result<bool, AllocError>
        ensures { IfOk result (λ may. IsAddedIf (MayBeSent (known_article self.old) sent.now.head sent.now.body)
            (λ article. article ≡ with_sent (known_article self.old) sent.now.head sent.now.body) (known_article self.old) (known_article self.new) may) }
    {
        if !self.may_send(sent) {
            return Ok(false);
        }
        let head = copied(alloc, &sent.head, self.head())?;
        let body = copied(alloc, &sent.body, self.body())?;
        *self = mem::replace(self, KnownArticle::Unsent).with(alloc, head, body)?;
        Ok(true)
    }

    /// Returns what is known once a success sends these parts, which it may: of each part what was sent first.
    fn with(
        self,
        alloc: A,
        head: Option<Rc<OwnedBlock<A>, A>>,
        body: Option<Rc<OwnedBlock<A>, A>>,
    ) -> Result<KnownArticle<A>, AllocError>
        ensures { IfOk result (λ article. MayBeSent (known_article self) (lines_held head) (lines_held body)
            → known_article article ≡ with_sent (known_article self) (lines_held head) (lines_held body)) }
    {
        match self {
            KnownArticle::Head(head) => KnownArticle::of_parts(alloc, Some(head), None, body),
            KnownArticle::Body(body) => KnownArticle::of_parts(alloc, head, None, Some(body)),
            KnownArticle::Listed(told) => KnownArticle::of_parts(alloc, head, Some(told), body),
            KnownArticle::Told(told) => KnownArticle::of_parts(alloc, head, Some(told), body),
            KnownArticle::ToldBody(article) => {
                let ToldArticle { told, body } = Box::into_inner(article);
                KnownArticle::of_parts(alloc, head, Some(told), Some(body))
            }
            KnownArticle::Whole(lines) => Ok(KnownArticle::Whole(lines)),
            _ => KnownArticle::of_parts(alloc, head, None, body),
        }
    }

    /// Returns what is known of an article that a success named, and of which these parts were sent, and overviews told
    /// this, if they told of it.
    fn of_parts(
        alloc: A,
        head: Option<Rc<OwnedBlock<A>, A>>,
        told: Option<Box<ToldFields<A>, A>>,
        body: Option<Rc<OwnedBlock<A>, A>>,
    ) -> Result<KnownArticle<A>, AllocError>
        ensures { IfOk result (λ article. known_article article ≡ of_parts (lines_held head) (fields_kept told) (lines_held body)) }
    {
        match (head, told, body) {
            (Some(head), _, Some(body)) => {
                let lines = Box::new(alloc, WholeArticle { head, body })?;
                Ok(KnownArticle::Whole(lines))
            }
            (Some(head), _, None) => Ok(KnownArticle::Head(head)),
            (None, Some(told), Some(body)) => {
                let article = Box::new(alloc, ToldArticle { told, body })?;
                Ok(KnownArticle::ToldBody(article))
            }
            (None, Some(told), None) => Ok(KnownArticle::Told(told)),
            (None, None, Some(body)) => Ok(KnownArticle::Body(body)),
            (None, None, None) => Ok(KnownArticle::Named),
        }
    }

    /// Holds what an overview tells, if it tells of headers and may tell it, and tells whether it may. `is_sent` where no
    /// range was asked for.
    pub(crate) fn note_told(
        &mut self,
        alloc: A,
        told: Option<Fields<'_>>,
        is_sent: bool,
    ) -> Result<bool, AllocError>
        requires { IfSome told AreWords }
        ensures { IfOk result (λ may. IsAddedIf (MayBeTold (known_article self.old) told.entry)
            (λ article. article ≡ with_told (known_article self.old) is_sent told.entry) (known_article self.old) (known_article self.new) may) }
    {
        if let Some(told) = told {
            if !self.hold_told(alloc, told)? {
                return Ok(false);
            }
        }
        if is_sent {
            *self = mem::replace(self, KnownArticle::Unsent).named();
        }
        Ok(true)
    }

    /// Holds what an overview tells of headers, if it may tell it, and tells whether it may.
    fn hold_told(&mut self, alloc: A, told: Fields<'_>) -> Result<bool, AllocError>
        requires { AreWords told }
        ensures { IfOk result (λ may. IsAddedIf (MayBeTold (known_article self.old) (Some told.entry))
            (λ article. article ≡ with_told (known_article self.old) false (Some told.entry)) (known_article self.old) (known_article self.new) may) }
    {
        if self.fields().is_none() {
            let told = Box::new(alloc, ToldFields::of(alloc, told)?)?;
            *self = mem::replace(self, KnownArticle::Unsent).with_told(alloc, told)?;
            return Ok(true);
        }
        Ok(self.other_field(told).is_none())
    }

    /// Returns what is known once a first overview tells this of an article of which no head was sent.
    fn with_told(self, alloc: A, told: Box<ToldFields<A>, A>) -> Result<KnownArticle<A>, AllocError>
        ensures { IfOk result (λ article. (known_article self).fields ≡ None
            → known_article article ≡ with_told (known_article self) false (Some told.value)) }
    {
        match self {
            KnownArticle::Unsent => Ok(KnownArticle::Listed(told)),
            KnownArticle::Named => Ok(KnownArticle::Told(told)),
            KnownArticle::Body(body) => {
                KnownArticle::of_parts(alloc, None, Some(told), Some(body))
            }
            other => Ok(other),
        }
    }

    /// Returns what is known once a success names the article and sends nothing of it.
    fn named(self) -> KnownArticle<A>
        ensures { known_article result ≡ record (known_article self) { is_sent = true } }
    {
        match self {
            KnownArticle::Unsent => KnownArticle::Named,
            KnownArticle::Listed(told) => KnownArticle::Told(told),
            other => other,
        }
    }
}
