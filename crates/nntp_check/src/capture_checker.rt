//! Judges the sessions of a capture as they come.
ghost use Rattle.std.specs.Prelude.{◌≡◌, ◌++◌, ◌∷◌, [], IfErr, IfOk, OnOk};
ghost use Rattle.nntp_wire.specs.declared.limit.Limit.{Limit};
ghost use Rattle.nntp_wire.specs.declared.marks.Marks.{Marks};
ghost use Rattle.nntp_wire.specs.declared.overviews.Overviews.{Overviews};
ghost use Rattle.nntp_pair.specs.declared.pair_error.PairError.TheVariants.{Memory};
ghost use Rattle.nntp_check.specs.Capture.{Held, nothing, sessions_of};
ghost use Rattle.nntp_check.specs.Inner.Collecting.{Judges};
ghost use Rattle.nntp_wire.specs.Inner.Held.{held as names_in};
ghost use Rattle.nntp_check.specs.Report.{names_of};
ghost use Rattle.nntp_several.specs.Sessions.{unnamed};
ghost use Rattle.nntp_verdict.specs.Judging.{IsVerdictOfAll};
ghost use Rattle.nntp_verdict.specs.Verdict.{sessions_verdict_shown};

use crate::sink::Sink;
use crate::source::Source;
use nntp_pair::PairError;
use nntp_verdict::{Checker, SessionsVerdict};
use nntp_wire::{Limit, Marks, Overviews};
use std::alloc::{AllocError, Allocator};
use std::mem;

/// Judges the sessions of a capture as they come, and keeps their names.
pub(crate) struct CaptureChecker<A: Allocator> {
    alloc: A,
    checker: Checker<A>,
    /// The names of the sessions that another one ended.
    names: Vec<Vec<u8, A>, A>,
    /// The name of the last session.
    last_name: Vec<u8, A>,
}

/// By hand, since a derived one is checked field by field at each place where a checker may be dropped.
impl<A: Allocator> Drop for CaptureChecker<A> {
    fn drop(self) {
        let CaptureChecker {
            alloc: _,
            checker: _,
            names: _,
            last_name: _,
        } = self;
    }
}

/// What is said of the sessions of a capture.
pub(crate) struct JudgedCapture<A: Allocator> {
    pub verdict: SessionsVerdict<A>,
    /// The name of each session.
    pub names: Vec<Vec<u8, A>, A>,
}

/// By hand, as that of the checker.
impl<A: Allocator> Drop for JudgedCapture<A> {
    fn drop(self) {
        let JudgedCapture {
            verdict: _,
            names: _,
        } = self;
    }
}

impl<A: Allocator + Copy> CaptureChecker<A> {
    /// A checker of a capture of which nothing has come, where overviews are taken so in each session.
    pub(crate) fn new(
        alloc: A,
        limit: Limit,
        marks: Marks,
        overviews: Overviews,
    ) -> CaptureChecker<A>
        ensures { Judges limit marks overviews result nothing }
    {
        CaptureChecker {
            alloc,
            checker: Checker::taking(alloc, limit, marks, overviews),
            names: Vec::new(alloc),
            last_name: Vec::new(alloc),
        }
    }

    /// The verdict on what came, where no more comes.
    pub(crate) fn finish(mut self) -> Result<JudgedCapture<A>, PairError>
        requires { (limit : Limit) × (marks : Marks) × (overviews : Overviews) × (held : Held) × Judges limit marks overviews self held }
        ensures ok { IfOk result (λ judged. (limit : Limit) (marks : Marks) (overviews : Overviews) (held : Held) → Judges limit marks overviews self held
            → IsVerdictOfAll limit marks (unnamed (sessions_of overviews held)) (sessions_verdict_shown judged.verdict)
            × (names_in judged.names.items ≡ names_of (sessions_of overviews held))) }
        ensures err { IfErr result (λ error. error ≡ Memory) }
    {
        self.end_name()?;
        let CaptureChecker {
            alloc: _,
            checker,
            names,
            last_name: _,
        } = self;
        let verdict = checker.finish_sessions()?;
        Ok(JudgedCapture { verdict, names })
    }

    /// Puts the name of the last session behind the others; the next one has none yet.
    fn end_name(&mut self) -> Result<(), AllocError>
        ensures names { OnOk result (names_in self.new.names.items ≡ names_in self.old.names.items ++ self.old.last_name.items ∷ []) }
        ensures rest { OnOk result ((self.new.checker ≡ self.old.checker) × (self.new.last_name.items ≡ [])) }
    {
        let name = mem::replace(&mut self.last_name, Vec::new(self.alloc));
        self.names.push(name)?;
        Ok(())
    }
}

/// It passes over the text of a spool.
impl<A: Allocator + Copy> Sink for CaptureChecker<A> {
    ghost By = { Limit × Marks × Overviews };

    ghost stands = { λ by checker held. Judges by.0 by.1 by.2 checker held };

    fn take(&mut self, source: Source, octets: &[u8]) -> Result<(), PairError> {
        match source {
            Source::Client => self.checker.feed_client(octets),
            Source::Server => self.checker.feed_server(octets),
            Source::Spool => Ok(()),
            Source::Session => Ok(self.last_name.extend_from_slice(octets)?),
        }
    }

    fn begin_session(&mut self) -> Result<(), PairError> {
        self.checker.begin_session()?;
        self.end_name()?;
        Ok(())
    }
}
