//! The verdict on streams that are whole.
ghost use Rattle.std.specs.Prelude.{◌≡◌, ℕ, List, [], ◌∷◌, ◌++◌, length, IfOk, OnOk, MatchOption, ⊤};
ghost use Rattle.std.specs.Option.{option_copied, option_map};
ghost use Rattle.nntp_pair.specs.Pairing.{Unpaired, IsNext, Ends, end};
ghost use Rattle.nntp_article.specs.Session.Limit.{profile_of};
ghost use Rattle.nntp_facts.specs.Inner.Noted.{IsDue};
ghost use Rattle.nntp_several.specs.Sessions.{Recorded as RecordedValue};
ghost use Rattle.nntp_witness.specs.Inner.Witness.{HaveNotedSome};
ghost use Rattle.nntp_printing.specs.BadAnswer.{shown};
ghost use Rattle.nntp_verdict.specs.Judging.{IsVerdict, IsVerdictOfAll};
ghost use Rattle.nntp_verdict.specs.Inner.Judging.{IsVerdictFrom, HaveEnded, Passed, StopsHere, IsNoAtWholeAnswer, OnMalformed, class_noted};
ghost use Rattle.nntp_verdict.specs.Verdict.{bad_of_all, sessions_verdict_shown, verdict_shown};
ghost use Rattle.nntp_wire.specs.Session.{taken};
ghost use Rattle.nntp_wire.specs.declared.overviews.Overviews.TheVariants.{Opaque};

use crate::sessions_verdict::SessionsVerdict;
use crate::verdict::Verdict;
use nntp_facts::{Facts, Noted};
use nntp_pair::{Ahead, Class, Exchange, PairClass, Pairs, Step};
use nntp_printing::{first_line, shown, shown_line};
use nntp_several::Recorded;
use nntp_wire::{Limit, Marks, Overviews};
use nntp_witness::witness;
use std::alloc::{AllocError, Allocator};

/// Judges the octets that a client and a server sent (RFC 3977, sections 3 to 7): whether some spool explains all
/// answers, and if none does, which answer is the first that no spool explains together with those before it. The
/// spools are those whose article numbers are within the limit, and the water marks of a 211 (RFC 3977, section 6.1.1)
/// are read as `marks` tells. Overviews are opaque: a session of [`check_sessions`] says how they are taken in it.
///
/// # Errors
///
/// `AllocError` where memory is refused.
pub fn check<A: Allocator + Copy>(
    alloc: A,
    limit: Limit,
    marks: Marks,
    client: &[u8],
    server: &[u8],
) -> Result<Verdict<A>, AllocError>
    ensures { IfOk result (λ verdict. IsVerdict limit marks (taken Opaque client.now) server.now (verdict_shown verdict)) }
{
    let session = [Recorded {
        overviews: Overviews::Opaque,
        client,
        server,
    }];
    let verdict = check_sessions(alloc, limit, marks, &session)?;
    Ok(verdict.of_last())
}

/// Judges several sessions, as [`check`] judges one: whether some spool explains them all, and if none does, which
/// answer of which session is the first that no spool explains together with the sessions before that one and the
/// answers before it. What each session says of the spool goes on to the next ones, and nothing else: a session begins
/// with no group selected and an open connection.
///
/// # Errors
///
/// `AllocError` where memory is refused.
pub fn check_sessions<A: Allocator + Copy>(
    alloc: A,
    limit: Limit,
    marks: Marks,
    sessions: &[Recorded<'_>],
) -> Result<SessionsVerdict<A>, AllocError>
    ensures { IfOk result (λ verdict. IsVerdictOfAll limit marks sessions.now (sessions_verdict_shown verdict)) }
{
    let mut judge = Judge::new(alloc, limit, marks);
    match judge.go_through_all(sessions)? {
        Some(verdict) => Ok(verdict),
        None => judge.finish(),
    }
}

/// Judges one exchange after the other, and one session after the other. It holds what those say that passed.
#[derive(Drop)]
pub(crate) struct Judge<A: Allocator> {
    alloc: A,
    facts: Facts<A>,
    /// How many answers each session has that ended.
    answers: Vec<u64, A>,
}

impl<A: Allocator + Copy> Judge<A> {
    /// No exchange has passed yet. It takes no memory.
    pub(crate) fn new(alloc: A, limit: Limit, marks: Marks) -> Judge<A>
        ensures { HaveEnded (profile_of limit marks) [] result.facts result.answers.items }
    {
        Judge {
            alloc,
            facts: Facts::new(alloc, limit, marks),
            answers: Vec::new(alloc),
        }
    }

    /// The allocator.
    pub(crate) fn alloc(&self) -> A {
        self.alloc
    }

    /// The index of the session that goes on, which is how many have ended.
    pub(crate) fn index(&self) -> u64
        ensures { result ≡ length self.now.answers.items }
    {
        self.answers.len() as u64
    }

    /// Lets sessions pass, one behind the other, until an answer of one is bad: then it gives the verdict.
    fn go_through_all(
        &mut self,
        sessions: &[Recorded<'_>],
    ) -> Result<Option<SessionsVerdict<A>>, AllocError>
        requires { (limit : Limit) × (marks : Marks) × HaveEnded (profile_of limit marks) [] self.old.facts self.old.answers.items }
        ensures { IfOk result (λ told. (limit : Limit) (marks : Marks) → HaveEnded (profile_of limit marks) [] self.old.facts self.old.answers.items
            → MatchOption told (HaveEnded (profile_of limit marks) sessions.now self.new.facts self.new.answers.items)
            (λ verdict. IsVerdictOfAll limit marks sessions.now (sessions_verdict_shown verdict))) }
    {
        for session in sessions {
            if let Some(verdict) = self.go_through(session)? {
                return Ok(Some(verdict));
            }
        }
        Ok(None)
    }

    /// Lets a session pass behind those that have ended, unless an answer of it is bad: then it gives the verdict.
    fn go_through(
        &mut self,
        session: &Recorded<'_>,
    ) -> Result<Option<SessionsVerdict<A>>, AllocError>
        requires { (limit : Limit) × (marks : Marks) × (before : List RecordedValue)
            × HaveEnded (profile_of limit marks) before self.old.facts self.old.answers.items }
        ensures { IfOk result (λ told. (limit : Limit) (marks : Marks) (before : List RecordedValue)
            → HaveEnded (profile_of limit marks) before self.old.facts self.old.answers.items
            → MatchOption told (HaveEnded (profile_of limit marks) (before ++ session.now ∷ []) self.new.facts self.new.answers.items)
            (λ verdict. IsVerdictFrom limit marks before session.now (sessions_verdict_shown verdict))) }
    {
        let mut pairs = Pairs::taking(session.overviews, session.client, session.server);
        loop {
            match pairs.next() {
                Step::Exchange(exchange) => {
                    if let Some(verdict) = self.note(&exchange)? {
                        return Ok(Some(verdict));
                    }
                }
                Step::Bad { index, class } => {
                    return Ok(Some(self.stopped(index, class, pairs.ahead())?));
                }
                Step::End { .. } => {
                    self.ended(pairs.index())?;
                    return Ok(None);
                }
            }
        }
    }

    /// Lets the next exchange pass, if some spool permits it together with those before it, of all sessions. If none
    /// does, the verdict is that its answer is bad.
    pub(crate) fn note(
        &mut self,
        exchange: &Exchange<'_>,
    ) -> Result<Option<SessionsVerdict<A>>, AllocError>
        requires { IsDue self.old.facts exchange.now }
        ensures judged { IfOk result (λ told. (limit : Limit) (marks : Marks) (before : List RecordedValue) (session : RecordedValue) (left behind : Unpaired)
            → (passed : Passed (profile_of limit marks) before session self.old.facts self.old.answers.items left) → IsNext left exchange.now behind
            → MatchOption told ((now : Passed (profile_of limit marks) before session self.new.facts self.new.answers.items behind)
            × (now.passed.pairs ≡ passed.passed.pairs ++ exchange.now ∷ []))
            (λ verdict. IsVerdictFrom limit marks before session (sessions_verdict_shown verdict))) }
        ensures whole { IfOk result (λ told. MatchOption told ⊤ (λ verdict. IsNoAtWholeAnswer (sessions_verdict_shown verdict))) }
    {
        let Ok(noted) = self.facts.note(exchange) else {
            return Err(AllocError);
        };
        let Some(class) = class_noted(noted) else {
            return Ok(None);
        };
        let verdict = bad(
            self.alloc,
            self.index(),
            exchange.index(),
            class,
            exchange.line(),
            exchange.initial(),
        )?;
        Ok(Some(verdict))
    }

    /// The verdict where octets are left that answer nothing. The index is that of their place, and `ahead` has
    /// the line that is answered there, and the octets up to the end of their first line or beyond.
    pub(crate) fn stopped(
        &self,
        index: u64,
        class: PairClass,
        ahead: Ahead<'_>,
    ) -> Result<SessionsVerdict<A>, AllocError>
        ensures verdict { IfOk result (λ verdict. (limit : Limit) (marks : Marks) (before : List RecordedValue) (session : RecordedValue) (left : Unpaired)
            → Passed (profile_of limit marks) before session self.now.facts self.now.answers.items left
            → StopsHere left index class (option_copied ahead.entry.line) ahead.entry.rest.now
            → IsVerdictFrom limit marks before session (sessions_verdict_shown verdict)) }
        ensures whole { IfOk result (λ verdict. OnMalformed class (IsNoAtWholeAnswer (sessions_verdict_shown verdict))) }
    {
        let reply = first_line(ahead.rest);
        bad(
            self.alloc,
            self.index(),
            index,
            Class::from(class),
            ahead.line,
            reply,
        )
    }

    /// Goes on to the next session, where no octet of this one's server is left behind so many answers.
    pub(crate) fn ended(&mut self, answers: u64) -> Result<(), AllocError>
        ensures { OnOk result ((limit : Limit) (marks : Marks) (before : List RecordedValue) (session : RecordedValue) (left : Unpaired) (unanswered : ℕ)
            → Passed (profile_of limit marks) before session self.old.facts self.old.answers.items left → answers ≡ left.index → Ends left (end unanswered)
            → HaveEnded (profile_of limit marks) (before ++ session ∷ []) self.new.facts self.new.answers.items) }
    {
        self.answers.push(answers)?;
        self.facts.begin_session();
        Ok(())
    }

    /// The verdict where all sessions have ended: that the given spool explains them.
    pub(crate) fn finish(self) -> Result<SessionsVerdict<A>, AllocError>
        requires { HaveNotedSome self.facts }
        ensures { IfOk result (λ verdict. (limit : Limit) (marks : Marks) (sessions : List RecordedValue)
            → HaveEnded (profile_of limit marks) sessions self.facts self.answers.items
            → IsVerdictOfAll limit marks sessions (sessions_verdict_shown verdict)) }
    {
        let mut facts = self.facts;
        let spool = witness(self.alloc, &mut facts)?;
        Ok(SessionsVerdict::Consistent {
            spool,
            answers: self.answers,
        })
    }
}

/// Why an answer is bad that is noted, if it is.
fn class_noted(noted: Noted) -> Option<Class>
    ensures { result ≡ class_noted noted }
{
    match noted {
        Noted::Consistent => None,
        Noted::OutOfPlace => Some(Class::OutOfPlace),
        Noted::Contradiction => Some(Class::Contradiction),
    }
}

/// The verdict that an answer of a session is bad: the line that it is for, and its initial line.
fn bad<A: Allocator + Copy>(
    alloc: A,
    session: u64,
    answer: u64,
    class: Class,
    line: Option<&[u8]>,
    initial: &[u8],
) -> Result<SessionsVerdict<A>, AllocError>
    ensures { IfOk result (λ verdict. sessions_verdict_shown verdict
        ≡ bad_of_all session answer class (option_map shown (option_copied line.entry)) (shown initial.now)) }
{
    let command = match shown_line(line) {
        Some(line) => Some(Vec::from_slice(alloc, line)?),
        None => None,
    };
    Ok(SessionsVerdict::Bad {
        session,
        answer,
        class,
        command,
        reply: Vec::from_slice(alloc, shown(initial))?,
    })
}
