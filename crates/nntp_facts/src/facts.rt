//! What the accepted exchanges of sessions say of the spool.
ghost use Rattle.std.specs.Prelude.{◌≡◌, ◌<◌, ◌^◌, true, false, List, [], IfOk, Err, slice_get};
ghost use Rattle.nntp_pair.specs.{Pairing.{Paired, asked_at}, Inner.Pairing.{lines_in}};
ghost use Rattle.nntp_article.specs.{declared.session.profile.Profile.{Profile}, Session.{Limit.{profile_of}, Misfit.{misfit}}, Inner.Listed.{lists, lists_of}};
ghost use Rattle.nntp_article.specs.Inner.MisfitView.{why_if};
ghost use Rattle.nntp_said.specs.Facts.{Fact};
ghost use Rattle.nntp_theory.specs.{Given.{is_mentioned}, Inner.Exchanged.{said_behind}};
ghost use Rattle.nntp_kept_articles.specs.Inner.{Articles.{AreKeptArticles}, Readers.{ShownArticle as ArticleValue, AreShownArticles}};
ghost use Rattle.nntp_kept.specs.Inner.Readers.{ShownGroup as GroupValue, AreShownGroups};
ghost use Rattle.nntp_facts.specs.Inner.{Points.{held_by}, StatementView.{held_of_refusal}, Noted.{HasNoted, HasNotedBehind, IsDue, IsNotedBehind}};
ghost use Rattle.nntp_facts.specs.{Inner.Noted.{NotesBehind, begun, profile_kept}, Standing.{stands_of}};

use crate::facts_error::FactsError;
use crate::placed::Placed;
use crate::points::Refusal;
use nntp_article::{Listed, Misfit, Profile, Visible};
use nntp_kept::{
    Kept, ShownArticle, ShownArticles, ShownGroup, ShownGroups, TakenArticles, TakenGroups,
};
use nntp_pair::Exchange;
use nntp_said::Position;
use nntp_theory::Noted;
use nntp_wire::{Limit, Marks};
use std::alloc::{AllocError, Allocator, Global};
use std::marker::Model;

/// The facts of sessions, one behind the other: what their accepted exchanges say of every spool that
/// permits them all.
pub struct Facts<A: Allocator = Global> {
    alloc: A,
    limit: Limit,
    marks: Marks,
    /// The number of exchanges of the session that were accepted.
    count: u64,
    visible: Visible<A>,
    /// The place at which the session stands in the selected group.
    position: Position,
    kept: Kept<A>,
    has_failed: bool,
}

/// By hand, since a derived one is checked field by field at each place where facts may be dropped.
impl<A: Allocator> Drop for Facts<A> {
    fn drop(self) {
        let Facts {
            alloc: _,
            limit: _,
            marks: _,
            count: _,
            visible: _,
            position: _,
            kept: _,
            has_failed: _,
        } = self;
    }
}

impl<A: Allocator> Model for Facts<A> {
    ghost use Rattle.nntp_facts.specs.Inner.{Noted.{FactsKept}, FactsView.{coded_facts}};

    ghost Value = { FactsKept };

    ghost coded = { coded_facts };

    ghost view = { λ f. record {
      limit = f.limit;
      marks = f.marks;
      count = f.count;
      visible = f.visible;
      position = f.position;
      kept = f.kept;
      has_failed = f.has_failed;
    } };
}

impl<A: Allocator + Copy> Facts<A> {
    /// Creates the facts of a first session of which no exchange is accepted yet. No memory is taken
    /// yet.
    ///
    /// Article numbers are 1 to `limit` (RFC 3977, section 6), and `marks` tells how the water
    /// marks of a 211 are read (section 6.1.1.2).
    pub fn new(alloc: A, limit: Limit, marks: Marks) -> Facts<A>
        ensures stands { HasNoted (profile_of limit marks) result [] }
        ensures limit { result.limit ≡ limit }
        ensures marks { result.marks ≡ marks }
    {
        Facts {
            alloc,
            limit,
            marks,
            count: 0,
            visible: Visible::new(alloc),
            position: Position::Nowhere,
            kept: Kept::new(alloc),
            has_failed: false,
        }
    }

    /// Begins a further session of the same spool. What the accepted exchanges of earlier sessions say
    /// is kept, and the exchanges of the new one have to be permitted together with it.
    ///
    /// A session begins with a greeting and with no group selected (RFC 3977, section 3.1): what the
    /// earlier ones left visible, their place in a group and their number of exchanges are forgotten.
    /// No memory is taken.
    pub fn begin_session(&mut self)
        ensures { self.new ≡ begun self.old }
    {
        self.count = 0;
        self.visible = Visible::new(self.alloc);
        self.position = Position::Nowhere;
    }

    /// Accepts a further exchange of the session, if some spool permits it together with those that
    /// were accepted before, of all sessions. If none does, the facts stay as they were, and the value
    /// tells why.
    ///
    /// The exchange has to come behind those of the session that were accepted, and none of these
    /// closed the connection: its index is not below their number. So exchanges may be passed over.
    ///
    /// For an answer that lists k numbers of a group of which n numbers are kept, it takes time in
    /// the order of (k + 1) log n; where each has its overview (RFC 3977, section 8.3), n counts the
    /// groups and the articles that are kept too. For an answer to LIST ACTIVE (RFC 3977, section 7.6.3) it takes
    /// time in the order of the lines and, where the wildmat wasn't answered before, of the groups
    /// that are shown.
    ///
    /// # Errors
    ///
    /// [`FactsError::Memory`], if memory is refused. The facts have failed then, and say nothing of
    /// use.
    ///
    /// [`FactsError::Failed`], if an earlier call failed. The facts stay as they are.
    pub fn note(&mut self, exchange: &Exchange<'_>) -> Result<Noted, FactsError>
        requires { self.old.has_failed ≡ false → IsDue self.old exchange.now }
        ensures noted { (profile : Profile) (earlier : List (List Paired)) (past : List Paired) → HasNotedBehind profile self.old earlier past
            → NotesBehind profile earlier past exchange.now self.old self.new result }
        ensures failed { self.old.has_failed ≡ true → (result ≡ Err FactsError.Failed) × (self.new ≡ self.old) }
    {
        if self.has_failed {
            return Err(FactsError::Failed);
        }
        match self.try_note(exchange) {
            Ok(noted) => Ok(noted),
            Err(_) => {
                self.has_failed = true;
                Err(FactsError::Memory)
            }
        }
    }

    /// Accepts the exchange, where memory wasn't refused before. After an error the value says
    /// nothing of use.
    fn try_note(&mut self, exchange: &Exchange<'_>) -> Result<Noted, AllocError>
        requires { IsDue self.old exchange.now }
        ensures { IfOk result (λ noted. (profile : Profile) (earlier : List (List Paired)) (past : List Paired) → HasNotedBehind profile self.old earlier past
            → IsNotedBehind profile earlier past exchange.now self.old self.new noted) }
    {
        let listed = Listed::of(self.alloc, exchange.answer())?;
        // It is lent, and so dropped at one exit alone: the check goes through each drop.
        self.note_listing(exchange, &listed)
    }

    /// Accepts the exchange as [`try_note`](Facts::try_note) does; `listed` is what its answer lists.
    fn note_listing<'a>(
        &mut self,
        exchange: &Exchange<'a>,
        listed: &Listed<'a, A>,
    ) -> Result<Noted, AllocError>
        requires due { IsDue self.old exchange.now }
        requires listed { lists listed.now ≡ lists_of exchange.now.response }
        ensures { IfOk result (λ noted. (profile : Profile) (earlier : List (List Paired)) (past : List Paired) → HasNotedBehind profile self.old earlier past
            → IsNotedBehind profile earlier past exchange.now self.old self.new noted) }
    {
        let prompt = exchange.prompt();
        let answer = exchange.answer();
        let profile = self.profile();
        let why = self
            .visible
            .misfit_as_read(profile, prompt, answer, listed)?;
        if why.is_some() {
            return Ok(Noted::OutOfPlace);
        }
        let here = self.visible.selected_name();
        let (how, at) = (self.marks, self.position);
        if !self
            .kept
            .note_answer(how, here, at, prompt, answer, listed)?
        {
            return Ok(Noted::Contradiction);
        }
        self.visible.advance(prompt, answer)?;
        self.position = self.position.after(prompt, answer);
        self.count += 1;
        Ok(Noted::Consistent)
    }

    /// Gives away the groups that the accepted answers of all sessions show, in byte order of their
    /// names, with what is kept of them. Of the facts then only what they say of ids and articles is of
    /// use: no group is left to note a further exchange by.
    pub fn take_groups(&mut self) -> TakenGroups<A>
        ensures groups { (profile : Profile) (earlier : List (List Paired)) (past : List Paired) → HasNotedBehind profile self.old earlier past
            → AreShownGroups (said_behind profile.marks earlier past) result }
        ensures articles { self.new.kept.articles ≡ self.old.kept.articles }
        ensures limit { self.new.limit ≡ self.old.limit }
    {
        self.kept.take_groups()
    }

    /// Gives away the articles that the accepted answers of all sessions show, in byte order of their message-ids, with
    /// what is kept of them. Of the facts then nothing that they say of ids and articles is of use.
    pub fn take_articles(&mut self) -> TakenArticles<A>
        ensures { (facts : List Fact) → AreKeptArticles facts self.old.kept.articles → AreShownArticles facts result }
    {
        self.kept.take_articles()
    }

    /// Puts a bad answer beside all that the accepted ones of all sessions say, to tell about what they conflict.
    ///
    /// # Errors
    ///
    /// If memory is refused.
    pub fn refusal<'f>(&'f self, bad: &'f Placed<'f>) -> Result<Refusal<'f, A>, AllocError>
        ensures held { IfOk result (λ refusal. held_of_refusal refusal ≡ held_by self.now (stands_of bad.now)) }
        ensures few { IfOk result (λ refusal. lines_in (stands_of bad.now).response < 2 ^ 64) }
    {
        Refusal::of(self.alloc, self.limit, self.marks, &self.kept, bad)
    }

    /// Tells why the answer of an exchange doesn't fit what the accepted ones of the session leave
    /// visible, whatever the spool. Returns `None` exactly if it fits.
    ///
    /// # Errors
    ///
    /// If memory is refused.
    pub fn misfit<'a>(&self, exchange: &Exchange<'a>) -> Result<Option<Misfit<'a>>, AllocError>
        ensures { IfOk result (λ reason. why_if reason ≡ misfit (profile_kept self.now) self.now.visible (asked_at exchange.now.place) exchange.now.response) }
    {
        self.visible
            .misfit(self.profile(), exchange.prompt(), exchange.answer())
    }
}

impl<A: Allocator> Facts<A> {
    /// Returns what the exchanges are judged by.
    fn profile(&self) -> Profile
        ensures { result ≡ profile_kept self.now }
    {
        Profile::of(self.limit, self.marks)
    }

    /// Returns the limit of article numbers (RFC 3977, section 6).
    pub fn limit(&self) -> Limit
        ensures { result ≡ self.now.limit }
    {
        self.limit
    }

    /// Returns the way in which the water marks of a 211 are read (RFC 3977, section 6.1.1.2).
    pub fn marks(&self) -> Marks
        ensures { result ≡ self.now.marks }
    {
        self.marks
    }

    /// Returns the groups that the accepted answers of all sessions show, in byte order of their names.
    /// Every spool that permits the exchanges has them.
    pub fn groups(&self) -> ShownGroups<'_, A>
        ensures { (profile : Profile) (earlier : List (List Paired)) (past : List Paired) → HasNotedBehind profile self.now earlier past
            → AreShownGroups (said_behind profile.marks earlier past) result }
    {
        self.kept.groups().shown()
    }

    /// Returns the group at the index, which counts from 0 in the order of
    /// [`groups`](Facts::groups), or `None` if there are no more groups than that. It takes time in
    /// the order of the index.
    pub fn group(&self, index: usize) -> Option<ShownGroup<'_, A>>
        ensures { (profile : Profile) (earlier : List (List Paired)) (past : List Paired) → HasNotedBehind profile self.now earlier past
            → (groups : List GroupValue)
            × AreShownGroups (said_behind profile.marks earlier past) groups × (result ≡ slice_get groups index) }
    {
        self.groups().nth(index)
    }

    /// Returns the articles that the accepted answers of all sessions show, in byte order of their
    /// message-ids. Every spool that permits the exchanges has them.
    pub fn articles(&self) -> ShownArticles<'_, A>
        ensures noted { (profile : Profile) (earlier : List (List Paired)) (past : List Paired) → HasNotedBehind profile self.now earlier past
            → AreShownArticles (said_behind profile.marks earlier past) result }
        ensures kept { (facts : List Fact) → AreKeptArticles facts self.now.kept.articles → AreShownArticles facts result }
    {
        self.kept.articles().shown()
    }

    /// Returns the article at the index, which counts from 0 in the order of
    /// [`articles`](Facts::articles), or `None` if there are no more articles than that. It takes
    /// time in the order of the ids that are passed over.
    pub fn article(&self, index: usize) -> Option<ShownArticle<'_, A>>
        ensures { (profile : Profile) (earlier : List (List Paired)) (past : List Paired) → HasNotedBehind profile self.now earlier past
            → (articles : List ArticleValue)
            × AreShownArticles (said_behind profile.marks earlier past) articles × (result ≡ slice_get articles index) }
    {
        self.articles().nth(index)
    }

    /// Tells whether an accepted answer of any session mentions the message-id: names it, or says that
    /// it has no article.
    pub fn mentions(&self, id: &[u8]) -> bool
        ensures noted { (profile : Profile) (earlier : List (List Paired)) (past : List Paired) → HasNotedBehind profile self.now earlier past → result
            ≡ is_mentioned (said_behind profile.marks earlier past) id.now }
        ensures kept { (facts : List Fact) → AreKeptArticles facts self.now.kept.articles → result ≡ is_mentioned facts id.now }
    {
        self.kept.articles().mentions(id)
    }
}
