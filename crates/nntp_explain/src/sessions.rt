//! Sessions that are read to their ends, behind bad answers too, and the reports on what is bad of them.
ghost use Rattle.std.specs.Prelude.{◌≡◌, ◌==◌, ◌+◌, ◌<◌, ◌≤◌, ◌^◌, ◌++◌, List, length, IfOk};
ghost use Rattle.nntp_article.specs.declared.session.profile.Profile.{Profile};
ghost use Rattle.nntp_facts.specs.Inner.Noted.{profile_kept};
ghost use Rattle.nntp_pair.specs.Pairing.{Paired};
ghost use Rattle.nntp_explain.specs.Explaining.{counts_text, IsExplanation, IsExplanationOfAll};
ghost use Rattle.nntp_explain.specs.Inner.ExplainingView.{Before, kept_of, AreKept, HasBegun, HasReadNone, HaveRead, IsRead};
ghost use Rattle.nntp_wire.specs.Session.{taken};
ghost use Rattle.nntp_wire.specs.declared.overviews.Overviews.TheVariants.{Opaque};

use crate::ending::put_counts;
use crate::explainer::Explainer;
use nntp_pair::{PairClass, Pairs, Step};
use nntp_printing::put_number;
use nntp_several::{Named, Recorded};
use nntp_wire::{Limit, Marks, Overviews};
use std::alloc::{AllocError, Allocator};

/// What is to be told of sessions.
#[derive(Drop)]
pub struct Explanation<A: Allocator> {
    /// The report, whole.
    pub text: Vec<u8, A>,
    /// Whether no answer is bad, and all octets of the servers are answers.
    pub is_without_fault: bool,
}

/// Explains what is bad of a session, of which these are both streams. Overviews are opaque: [`explain_taking`] is
/// told how they are taken, and a session of [`explain_sessions`] says how they are in it.
///
/// # Errors
///
/// `AllocError` where memory is refused.
pub fn explain<A: Allocator + Copy>(
    alloc: A,
    limit: Limit,
    marks: Marks,
    client: &[u8],
    server: &[u8],
) -> Result<Explanation<A>, AllocError>
    ensures { IfOk result (λ told. IsExplanation limit marks (taken Opaque client.now) server.now told.text.items told.is_without_fault) }
{
    explain_taking(alloc, limit, marks, Overviews::Opaque, client, server)
}

/// Explains what is bad of a session, as [`explain`] does, where overviews are taken so.
///
/// # Errors
///
/// `AllocError` where memory is refused.
pub fn explain_taking<A: Allocator + Copy>(
    alloc: A,
    limit: Limit,
    marks: Marks,
    overviews: Overviews,
    client: &[u8],
    server: &[u8],
) -> Result<Explanation<A>, AllocError>
    ensures { IfOk result (λ told. IsExplanation limit marks (taken overviews client.now) server.now told.text.items told.is_without_fault) }
{
    let mut explainer = Explainer::new(alloc, limit, marks);
    let is_without_fault = explainer.tell_one(overviews, client, server)?;
    Ok(Explanation {
        text: explainer.text,
        is_without_fault,
    })
}

/// Explains what is bad of several sessions of one spool: an answer is bad where no spool explains it together with the
/// accepted ones before it, of its own session and of the sessions before.
///
/// # Errors
///
/// `AllocError` where memory is refused.
pub fn explain_sessions<A: Allocator + Copy>(
    alloc: A,
    limit: Limit,
    marks: Marks,
    sessions: &[Named<'_>],
) -> Result<Explanation<A>, AllocError>
    ensures { IfOk result (λ told. IsExplanationOfAll limit marks sessions.now told.text.items told.is_without_fault) }
{
    let mut explainer = Explainer::new(alloc, limit, marks);
    let is_without_fault = explainer.tell_all(sessions)?;
    Ok(Explanation {
        text: explainer.text,
        is_without_fault,
    })
}

impl<'a, A: Allocator + Copy> Explainer<'a, A> {
    /// Tells of one session, which has no title, and whether no answer of it is bad.
    fn tell_one(
        &mut self,
        overviews: Overviews,
        client: &'a [u8],
        server: &'a [u8],
    ) -> Result<bool, AllocError>
        requires { HasReadNone self.old }
        ensures { IfOk result (λ good. IsExplanation self.old.facts.limit self.old.facts.marks (taken overviews client.now) server.now
            self.new.text.items good) }
    {
        self.begin(None);
        let session = Recorded {
            overviews,
            client,
            server,
        };
        let unanswered = self.read(&session)?;
        self.text.extend_from_slice(b"end ")?;
        self.finish(u128::from(unanswered))
    }

    /// Tells of several sessions, and whether no answer of them is bad.
    fn tell_all(&mut self, sessions: &[Named<'a>]) -> Result<bool, AllocError>
        requires { HasReadNone self.old }
        ensures { IfOk result (λ good. IsExplanationOfAll self.old.facts.limit self.old.facts.marks sessions.now self.new.text.items good) }
    {
        let unanswered = self.read_all(sessions)?;
        put_number(&mut self.text, b"end sessions=", sessions.len() as u64)?;
        self.text.push(b' ')?;
        self.finish(unanswered)
    }

    /// Reads sessions one after the other, and tells how many of their lines have no answer.
    fn read_all(&mut self, sessions: &[Named<'a>]) -> Result<u128, AllocError>
        requires { HasReadNone self.old }
        ensures { IfOk result (λ unanswered. HaveRead (profile_kept self.old.facts) sessions.now (kept_of self.new) self.new.text.items unanswered) }
    {
        let mut unanswered = 0;
        for named in sessions {
            let lines = self.read_named(named)?;
            unanswered += u128::from(lines);
        }
        Ok(unanswered)
    }

    /// Begins the next session, of which the name is its title, and reads it: how many of its lines have no answer.
    fn read_named(&mut self, named: &Named<'a>) -> Result<u64, AllocError>
        requires number { self.old.session + 1 < 2 ^ 64 }
        requires few { self.old.bad ≤ length self.old.text.items }
        requires kept { (profile : Profile) × (earlier : List (List Paired)) × AreKept profile earlier (kept_of self.old) }
        ensures { IfOk result (λ unanswered. (profile : Profile) (earlier : List (List Paired)) → AreKept profile earlier (kept_of self.old)
            → IsRead profile (record { earlier = earlier; bad = self.old.bad; text = self.old.text.items; title = Some named.now.name })
            named.now.session.client named.now.session.server (kept_of self.new) self.new.text.items unanswered) }
    {
        self.begin(Some(named.name));
        self.read(&named.session)
    }

    /// Reads both streams of the session that began to their end, and tells how many lines have no answer. It has
    /// several ends, and borrows what is kept, which each of them would drop.
    fn read(&mut self, session: &Recorded<'a>) -> Result<u64, AllocError>
        requires { (profile : Profile) × (b : Before) × HasBegun profile b session.now self.old }
        ensures { IfOk result (λ unanswered. (profile : Profile) (b : Before) → HasBegun profile b session.now self.old
            → IsRead profile b session.now.client session.now.server (kept_of self.new) self.new.text.items unanswered) }
    {
        let mut pairs = Pairs::taking(session.overviews, session.client, session.server);
        loop {
            match pairs.next() {
                Step::Exchange(exchange) => self.note(exchange)?,
                Step::Bad { class, .. } => {
                    let index = pairs.index();
                    match class {
                        PairClass::Malformed => {
                            let malformed = pairs.pass_over();
                            self.refuse_malformed(index, &malformed)?;
                        }
                        _ => {
                            let unanswered = pairs.count_lines_behind();
                            self.refuse_octets(index, class, pairs.ahead())?;
                            return Ok(unanswered);
                        }
                    }
                }
                Step::End { unanswered } => return Ok(unanswered),
            }
        }
    }

    /// Ends the report with what the last line counts, and tells whether no answer is bad.
    fn finish(&mut self, unanswered: u128) -> Result<bool, AllocError>
        ensures text { IfOk result (λ good. self.new.text.items ≡ self.old.text.items
            ++ counts_text (record { answers = length self.old.accepted.items + self.old.bad; bad = self.old.bad; unanswered = unanswered })) }
        ensures is_without_fault { IfOk result (λ good. good ≡ (self.old.bad == 0)) }
    {
        let bad = self.bad;
        let answers = self.accepted.len() as u128 + u128::from(bad);
        put_counts(&mut self.text, answers, bad, unanswered)?;
        Ok(bad == 0)
    }
}
