//! The verdict on streams as they come, in pieces.
ghost use Rattle.std.specs.Prelude.{◌≡◌, [], ◌∷◌, ◌++◌, ℕ, List, true, false, None, Ok, Err, IfOk, MatchOption, MatchResult, ⊤};
ghost use Rattle.nntp_article.specs.Session.Limit.{profile_of};
ghost use Rattle.nntp_article.specs.declared.session.profile.Profile.{Profile};
ghost use Rattle.nntp_pair.specs.Pairing.{HasNext};
ghost use Rattle.nntp_pair.specs.Inner.Feeding.{left_of};
ghost use Rattle.nntp_pair.specs.Inner.Sides.{counted, given};
ghost use Rattle.nntp_pair.specs.declared.pair_error.PairError.TheVariants.{Memory};
ghost use Rattle.nntp_pair.specs.declared.side.Side.TheVariants.{Client, Server};
ghost use Rattle.nntp_several.specs.Sessions.{Recorded};
ghost use Rattle.nntp_several.specs.Told.{IsToldBadOfAll};
ghost use Rattle.nntp_verdict.specs.Inner.Checking.{Keeps, HasPassed, IsSound, StandsFor, StandsForAll, IsTaken, IsUntaken, HasBegun, IsUnbegun};
ghost use Rattle.nntp_verdict.specs.Inner.Checking.{IsToldWithoutSession, IsFinished, IsFinishedOfAll, IsUnfinished, decided, told_bad, without_session};
ghost use Rattle.nntp_verdict.specs.Inner.Checking.{unrecorded, failed, has_failed, counts_of};
ghost use Rattle.nntp_verdict.specs.Checking.{IsToldBad};
ghost use Rattle.nntp_verdict.specs.Inner.CheckerView.{HasEnded, HasJudged, going_on, of_state, settled};
ghost use Rattle.nntp_verdict.specs.Judging.{IsVerdictOfAll};
ghost use Rattle.nntp_verdict.specs.Inner.Judging.{IsVerdictFrom, HaveEnded};
ghost use Rattle.nntp_verdict.specs.Verdict.{JudgementOfAll, sessions_verdict_shown, verdict_shown};
ghost use Rattle.nntp_verdict.specs.Inner.Verdict.{verdict_of_last};
ghost use Rattle.nntp_wire.specs.Session.{ClientStream};
ghost use Rattle.nntp_wire.specs.Session.{taken};
ghost use Rattle.nntp_wire.specs.declared.overviews.Overviews.TheVariants.{Opaque};

use crate::judge::Judge;
use crate::sessions_verdict::SessionsVerdict;
use crate::verdict::Verdict;
use nntp_pair::{Class, Ending, Feed, OctetCounts, PairClass, PairError, Peek, Side};
use nntp_wire::{Limit, Marks, Overviews};
use std::alloc::{AllocError, Allocator, Global};
use std::marker::Model;

/// Of a session that has begun, no octet has come yet.
const NO_OCTETS: OctetCounts = OctetCounts {
    client: 0,
    server: 0,
};

/// Judges both streams of a session as they come, in pieces of any size and in any order between the streams, and then
/// those of a further session, if one [begins](Checker::begin_session). It holds what the exchanges say that have passed,
/// and the octets of the last session behind them.
#[derive(Drop)]
pub struct Checker<A: Allocator = Global> {
    state: State<A>,
}

impl<A: Allocator> Model for Checker<A> {
    ghost use Rattle.nntp_verdict.specs.Inner.Checking.{Checked, IsSound};
    ghost use Rattle.nntp_verdict.specs.Inner.Coded.{coded_checked};
    ghost use Rattle.nntp_verdict.specs.Inner.CheckerView.{of_state};

    ghost Value = { Checked };

    ghost coded = { coded_checked };

    ghost view = { λ c. of_state c.state };

    ghost invariant = { λ c. IsSound (of_state c.state) };
}

/// How far the judgement is.
#[derive(Drop)]
enum State<A: Allocator> {
    /// So far the answers are consistent.
    Judging(Ongoing<A>),
    /// An answer is bad, whatever follows. So many octets came of each stream of the last session.
    Decided {
        verdict: SessionsVerdict<A>,
        counts: OctetCounts,
    },
    /// Memory was refused.
    Failed,
}

/// A judgement that goes on: all exchanges that are whole have passed.
#[derive(Drop)]
struct Ongoing<A: Allocator> {
    /// How overviews are taken, in each session.
    overviews: Overviews,
    judge: Judge<A>,
    feed: Feed<A>,
}

impl<A: Allocator + Copy> Checker<A> {
    /// A checker to which no octet has come. It judges by the limit and the marks as [`check`](crate::check) does, with
    /// overviews opaque, and takes no memory yet.
    pub fn new(alloc: A, limit: Limit, marks: Marks) -> Checker<A>
        ensures { StandsFor limit marks result (taken Opaque []) [] }
    {
        Checker::taking(alloc, limit, marks, Overviews::Opaque)
    }

    /// A checker to which no octet has come, where overviews are taken so, in each session. It takes no memory yet.
    pub fn taking(alloc: A, limit: Limit, marks: Marks, overviews: Overviews) -> Checker<A>
        ensures { StandsFor limit marks result (taken overviews []) [] }
    {
        Checker {
            state: State::Judging(Ongoing::taking(alloc, limit, marks, overviews)),
        }
    }

    /// Takes the next octets of the client's stream, and judges the answers that are whole then.
    ///
    /// # Errors
    ///
    /// `Failed` where memory was refused to an earlier call; else `TooLong` where the stream would have more than
    /// 2^64 - 1 octets; both leave the checker as it was. `Memory` where memory is refused: then each later call answers
    /// `Failed`, and [`bad`](Checker::bad) tells of no answer.
    pub fn feed_client(&mut self, piece: &[u8]) -> Result<(), PairError>
        ensures { MatchResult result (λ _. IsTaken Client piece.now self.old self.new)
            (λ error. IsUntaken error Client piece.now self.old self.new) }
    {
        self.take(Side::Client, piece)
    }

    /// Takes the next octets of the server's stream, and judges the answers that are whole then.
    ///
    /// # Errors
    ///
    /// Those of [`feed_client`](Checker::feed_client).
    pub fn feed_server(&mut self, piece: &[u8]) -> Result<(), PairError>
        ensures { MatchResult result (λ _. IsTaken Server piece.now self.old self.new)
            (λ error. IsUntaken error Server piece.now self.old self.new) }
    {
        self.take(Side::Server, piece)
    }

    /// Takes the next octets of a side's stream, and judges the answers that are whole then.
    fn take(&mut self, side: Side, piece: &[u8]) -> Result<(), PairError>
        ensures { MatchResult result (λ _. IsTaken side piece.now self.old self.new)
            (λ error. IsUntaken error side piece.now self.old self.new) }
    {
        let Some(counts) = self.state.counts() else {
            return Err(PairError::Failed);
        };
        let Some(counts) = counts.with(side, piece) else {
            return Err(PairError::TooLong);
        };
        match &mut self.state {
            State::Judging(ongoing) => match ongoing.take(side, piece) {
                Ok(None) => Ok(()),
                Ok(Some(verdict)) => {
                    self.state.decide(verdict, counts);
                    Ok(())
                }
                Err(_) => Err(self.state.fail()),
            },
            State::Decided { counts: held, .. } => {
                *held = counts;
                Ok(())
            }
            State::Failed => unreachable!(),
        }
    }

    /// Ends the session, and begins a further one of the same spool, of which no octet has come: the octets that
    /// follow are its, and overviews are taken as in the one that ends. What the exchanges that passed say of the
    /// spool goes on to it, and nothing else. Where octets of the ended session are left that answer nothing, that is
    /// decided then, and so is all that follows.
    ///
    /// # Errors
    ///
    /// `Failed` where memory was refused to an earlier call: that leaves the checker as it was. `Memory` where memory is
    /// refused: then each later call answers `Failed`, and [`bad`](Checker::bad) tells of no answer.
    pub fn begin_session(&mut self) -> Result<(), PairError>
        ensures { MatchResult result (λ _. HasBegun self.old self.new) (λ error. IsUnbegun error self.old self.new) }
    {
        match &mut self.state {
            State::Judging(ongoing) => match ongoing.begin_session() {
                Ok(None) => Ok(()),
                Ok(Some(verdict)) => {
                    self.state.decide(verdict, NO_OCTETS);
                    Ok(())
                }
                Err(_) => Err(self.state.fail()),
            },
            State::Decided { counts, .. } => {
                *counts = NO_OCTETS;
                Ok(())
            }
            State::Failed => Err(PairError::Failed),
        }
    }

    /// The verdict on the octets that came, as [`check`](crate::check) gives it of the joined pieces. Of several sessions
    /// it is what their verdict says of the last one, or of the bad answer without its session.
    ///
    /// # Errors
    ///
    /// `Failed` where memory was refused to an earlier call, `Memory` where memory is refused to this one.
    pub fn finish(self) -> Result<Verdict<A>, PairError>
        ensures alone { MatchResult result (λ verdict. IsFinished self (verdict_shown verdict)) (λ error. IsUnfinished error self) }
        ensures sessions { IfOk result (λ verdict. (all : JudgementOfAll) × IsFinishedOfAll self all
            × (verdict_shown verdict ≡ verdict_of_last all)) }
    {
        let verdict = self.finish_sessions()?;
        Ok(verdict.of_last())
    }

    /// The verdict on the sessions that came, as [`check_sessions`](crate::check_sessions) gives it of the joined pieces
    /// of each.
    ///
    /// # Errors
    ///
    /// Those of [`finish`](Checker::finish).
    pub fn finish_sessions(self) -> Result<SessionsVerdict<A>, PairError>
        ensures { MatchResult result (λ verdict. IsFinishedOfAll self (sessions_verdict_shown verdict)) (λ error. IsUnfinished error self) }
    {
        match self.state {
            State::Judging(ongoing) => Ok(ongoing.finish()?),
            State::Decided { verdict, .. } => Ok(verdict),
            State::Failed => Err(PairError::Failed),
        }
    }

    /// The number of the answer that is bad, and its class, where no octets that follow can change that: an answer of
    /// class Cut isn't told, nor one of class Surplus while the connection is open. The greeting is answer 0, and answer k
    /// is for the k-th line of the client, counted from 1. None where memory was refused. Of several sessions it is what
    /// [`bad_of_sessions`](Checker::bad_of_sessions) tells, without the session.
    pub fn bad(&self) -> Option<(u64, Class)>
        ensures told { (limit : Limit) (marks : Marks) (client : ClientStream) (server : List ℕ) → StandsFor limit marks self.now client server
            → IsToldBad (profile_of limit marks) client server result }
        ensures failed { has_failed self.now ≡ true → result ≡ None }
        ensures sessions { (limit : Limit) (marks : Marks) (before : List Recorded) (session : Recorded)
            → StandsForAll limit marks self.now before session → IsToldWithoutSession (profile_of limit marks) before session result }
    {
        without_session(self.bad_of_sessions())
    }

    /// The index of the session of which an answer is bad, counted from 0, the number of the answer, and its class, where
    /// nothing that follows can change that: of the last session as [`bad`](Checker::bad) tells it, and of one that has
    /// ended any bad answer. None where memory was refused.
    pub fn bad_of_sessions(&self) -> Option<(u64, u64, Class)>
        ensures told { (limit : Limit) (marks : Marks) (before : List Recorded) (session : Recorded)
            → StandsForAll limit marks self.now before session → IsToldBadOfAll (profile_of limit marks) before session result }
        ensures failed { has_failed self.now ≡ true → result ≡ None }
    {
        match &self.state {
            State::Judging(ongoing) => ongoing.bad(),
            State::Decided { verdict, .. } => bad_answer(verdict),
            State::Failed => None,
        }
    }
}

impl<A: Allocator + Copy> State<A> {
    /// How many octets came of each stream. None where memory was refused.
    fn counts(&self) -> Option<OctetCounts>
        ensures { MatchOption result (has_failed (of_state self.now) ≡ true)
            (λ counts. (has_failed (of_state self.now) ≡ false) × (counts ≡ counts_of (of_state self.now))) }
    {
        match self {
            State::Judging(ongoing) => Some(ongoing.feed.counts()),
            State::Decided { counts, .. } => Some(*counts),
            State::Failed => None,
        }
    }

    /// The judgement ends with a verdict, where so many octets came of each stream of the last session.
    fn decide(&mut self, verdict: SessionsVerdict<A>, counts: OctetCounts)
        ensures { of_state self.new ≡ decided (sessions_verdict_shown verdict) counts }
    {
        *self = State::Decided { verdict, counts };
    }

    /// The judgement ends without memory.
    fn fail(&mut self) -> PairError
        ensures { (result ≡ Memory) × (of_state self.new ≡ failed) }
    {
        *self = State::Failed;
        PairError::Memory
    }
}

/// The answer that a verdict calls bad, its session and its class.
fn bad_answer<A: Allocator>(verdict: &SessionsVerdict<A>) -> Option<(u64, u64, Class)>
    ensures { result ≡ told_bad (sessions_verdict_shown verdict.now) }
{
    match verdict {
        SessionsVerdict::Consistent { .. } => None,
        SessionsVerdict::Bad {
            session,
            answer,
            class,
            ..
        } => Some((*session, *answer, *class)),
    }
}

/// The answer that is bad and its class, without its session.
fn without_session(bad: Option<(u64, u64, Class)>) -> Option<(u64, Class)>
    ensures { result ≡ without_session bad }
{
    match bad {
        Some((_, answer, class)) => Some((answer, class)),
        None => None,
    }
}

impl<A: Allocator + Copy> Ongoing<A> {
    /// Nothing has come, and overviews are taken so.
    fn taking(alloc: A, limit: Limit, marks: Marks, overviews: Overviews) -> Ongoing<A>
        ensures stands { StandsForAll limit marks (going_on result) [] (unrecorded overviews) }
        ensures sound { IsSound (going_on result) }
    {
        Ongoing {
            overviews,
            judge: Judge::new(alloc, limit, marks),
            feed: Feed::taking(alloc, overviews),
        }
    }

    /// Takes the next octets of a side's stream, for which there is room, and judges the answers that are whole then:
    /// it gives the verdict where one is bad.
    fn take(&mut self, side: Side, piece: &[u8]) -> Result<Option<SessionsVerdict<A>>, AllocError>
        requires { IsSound (going_on self.old) }
        ensures taken { IfOk result (λ told. IsTaken side piece.now (going_on self.old)
            (settled (going_on self.new) (counted (given Client side piece.now) (given Server side piece.now) self.old.feed.counts) told)) }
        ensures sound { IfOk result (λ told. MatchOption told (IsSound (going_on self.new)) (λ _. ⊤)) }
    {
        // There is room, so it is memory that is refused.
        let Ok(()) = self.feed.feed(side, piece) else {
            return Err(AllocError);
        };
        go_on(&mut self.judge, &mut self.feed)
    }

    /// Ends the session, and begins the next one, of which nothing has come: it gives the verdict where the session
    /// ends with a bad answer.
    fn begin_session(&mut self) -> Result<Option<SessionsVerdict<A>>, AllocError>
        requires { IsSound (going_on self.old) }
        ensures begun { IfOk result (λ told. HasBegun (going_on self.old) (settled (going_on self.new) (record { client = 0; server = 0 }) told)) }
        ensures sound { IfOk result (λ told. MatchOption told (IsSound (going_on self.new)) (λ _. ⊤)) }
    {
        let told = end_session(&mut self.judge, &self.feed)?;
        self.feed = Feed::taking(self.judge.alloc(), self.overviews);
        Ok(told)
    }

    /// The verdict, if no more octets come.
    fn finish(self) -> Result<SessionsVerdict<A>, AllocError>
        requires { IsSound (going_on self) }
        ensures { IfOk result (λ verdict. (limit : Limit) (marks : Marks) (before : List Recorded) (session : Recorded)
            → HasPassed (profile_of limit marks) before session self.judge.facts self.judge.answers.items self.feed
            → IsVerdictOfAll limit marks (before ++ session ∷ []) (sessions_verdict_shown verdict)) }
    {
        let Ongoing {
            mut judge,
            feed,
            ..
        } = self;
        match end_session(&mut judge, &feed)? {
            Some(verdict) => Ok(verdict),
            None => judge.finish(),
        }
    }

    /// The place of octets that answer nothing, whatever follows, and their class.
    fn bad(&self) -> Option<(u64, u64, Class)>
        requires { IsSound (going_on self.now) }
        ensures { (profile : Profile) (before : List Recorded) (session : Recorded)
            → HasPassed profile before session self.now.judge.facts self.now.judge.answers.items self.now.feed
            → IsToldBadOfAll profile before session result }
    {
        match self.feed.peek() {
            Peek::Bad { index, class } => Some((self.judge.index(), index, Class::from(class))),
            Peek::Nothing => None,
            Peek::Whole(_) | Peek::Failed => unreachable!(),
        }
    }
}

/// Ends the session: the next one has begun, or its last octets answer nothing. Then it gives the verdict. All exchanges
/// that are whole have passed, and memory wasn't refused.
fn end_session<A: Allocator + Copy>(
    judge: &mut Judge<A>,
    feed: &Feed<A>,
) -> Result<Option<SessionsVerdict<A>>, AllocError>
    requires all { HasNext (left_of feed.now) → ⊥ }
    requires whole { feed.now.has_failed ≡ false }
    ensures { IfOk result (HasEnded judge.old.facts judge.old.answers.items feed.now judge.new.facts judge.new.answers.items) }
{
    match feed.finish() {
        Ending::End { .. } => {
            judge.ended(feed.index())?;
            Ok(None)
        }
        Ending::Bad { index, class } => {
            let verdict = judge.stopped(index, class, feed.ahead())?;
            Ok(Some(verdict))
        }
        Ending::More | Ending::Failed => unreachable!(),
    }
}

/// Lets the exchanges that are whole pass, until an answer is bad, whatever follows: then it gives the verdict.
fn go_on<A: Allocator + Copy>(
    judge: &mut Judge<A>,
    feed: &mut Feed<A>,
) -> Result<Option<SessionsVerdict<A>>, AllocError>
    requires kept { (limit : Limit) × (marks : Marks) × (before : List Recorded) × (session : Recorded)
        × Keeps (profile_of limit marks) before session judge.old.facts judge.old.answers.items feed.old }
    requires whole { feed.old.has_failed ≡ false }
    ensures { IfOk result (HasJudged judge.old.facts judge.old.answers.items feed.old judge.new.facts judge.new.answers.items feed.new) }
{
    loop {
        let exchange = match feed.peek() {
            Peek::Whole(exchange) => exchange,
            Peek::Bad {
                index,
                class: PairClass::Malformed,
            } => {
                let verdict = judge.stopped(index, PairClass::Malformed, feed.ahead())?;
                return Ok(Some(verdict));
            }
            _ => return Ok(None),
        };
        if let Some(verdict) = judge.note(&exchange)? {
            return Ok(Some(verdict));
        }
        feed.advance();
    }
}
