//! Trials of the runs over worked sessions, and over those that are shown.
use crate::explanations::{CONFLICTS, ENDINGS, FAULTLESS, MISFITS, MISSPELLINGS};
use crate::listed_ids::LISTED_IDS;
use crate::memory;
use crate::overviews::OVERVIEWS;
use crate::reported::Reported;
use crate::runs::Run;
use crate::several::{Captured, SEVERAL};
use crate::shows::SHOWN;
use nntp_check::Overviews;
use nntp_run_fixtures::{check_task, verify_task};
use nntp_sessions::{Full, Session, each_session, verified_report, with_spool};
use std::alloc::Global;
use std::process::Abort;
use std::test::Fail;

/// What is tried with a run.
#[derive(Clone, Copy)]
pub(crate) enum Trial {
    /// It passes, with so many octets at a read and at a write.
    Pass(usize),
    /// Each read fails in turn.
    FailReads,
    /// The writer is full behind each octet but the last.
    FailWrites(Full),
    /// The writer takes all, and then its flush fails.
    FailFlush,
    /// Each request for memory is refused in turn.
    RefuseMemory,
    /// There are a few octets of memory, then some more, and so on.
    GiveMemory,
}

impl Trial {
    fn make(self, rt: &impl Abort, alloc: Global, run: &Run<'_>) -> Result<(), Fail> {
        match self {
            Trial::Pass(octets) => run.pass(rt, alloc, octets),
            Trial::FailReads => run.fail_reads(rt, alloc),
            Trial::FailWrites(full) => run.fail_writes(rt, alloc, full),
            Trial::FailFlush => run.fail_flush(rt, alloc),
            Trial::RefuseMemory => {
                memory::refuse_run(rt, alloc, run)?;
            }
            Trial::GiveMemory => memory::give_run(rt, alloc, run)?,
        }
        Ok(())
    }

    /// Tries the run of `check` over a session.
    pub(crate) fn check(
        self,
        rt: &impl Abort,
        alloc: Global,
        session: &Session,
    ) -> Result<(), Fail> {
        let capture = session.capture(alloc)?;
        let report = session.report(alloc)?;
        let run = Run::of(
            session.name,
            check_task(session.choice, Overviews::Opaque),
            capture.as_bytes(),
            session.is_consistent(),
            report.as_bytes(),
        );
        self.make(rt, alloc, &run)
    }

    /// Tries the run of `verify` over a session and the spool that is given for it.
    pub(crate) fn verify(
        self,
        rt: &impl Abort,
        alloc: Global,
        session: &Session,
    ) -> Result<(), Fail> {
        let (text, verified) = session.given;
        let streams = session.capture(alloc)?;
        let capture = with_spool(alloc, streams.as_str(), text)?;
        let report = verified_report(alloc, verified)?;
        let run = Run::of(
            session.name,
            verify_task(session.choice, Overviews::Opaque),
            capture.as_bytes(),
            session.is_consistent(),
            report.as_bytes(),
        );
        self.make(rt, alloc, &run)
    }

    /// Tries the run of a task over a session.
    fn report(self, rt: &impl Abort, alloc: Global, session: &Reported) -> Result<(), Fail> {
        let capture = session.capture(alloc)?;
        let run = Run::of(
            session.name,
            session.task,
            &capture,
            session.answer,
            session.report,
        );
        self.make(rt, alloc, &run)
    }

    /// Tries the runs of `check` and of `verify` over each worked session.
    pub(crate) fn sessions(self, rt: &impl Abort, alloc: Global) -> Result<(), Fail> {
        for session in each_session(alloc)? {
            self.check(rt, alloc, session)?;
            self.verify(rt, alloc, session)?;
        }
        Ok(())
    }

    /// Tries the runs over these sessions.
    pub(crate) fn reports(
        self,
        rt: &impl Abort,
        alloc: Global,
        sessions: &[Reported],
    ) -> Result<(), Fail> {
        for session in sessions {
            self.report(rt, alloc, session)?;
        }
        Ok(())
    }

    /// Tries the runs over each session that is shown.
    pub(crate) fn shown(self, rt: &impl Abort, alloc: Global) -> Result<(), Fail> {
        self.reports(rt, alloc, SHOWN)
    }

    /// Tries the runs over each session that is explained, but the two that go through all kinds of conflicts.
    pub(crate) fn explained(self, rt: &impl Abort, alloc: Global) -> Result<(), Fail> {
        self.reports(rt, alloc, FAULTLESS)?;
        self.reports(rt, alloc, MISFITS)?;
        self.reports(rt, alloc, MISSPELLINGS)?;
        self.reports(rt, alloc, ENDINGS)?;
        self.reports(rt, alloc, CONFLICTS)
    }

    /// Tries the runs over these captures.
    fn captured(self, rt: &impl Abort, alloc: Global, captures: &[Captured]) -> Result<(), Fail> {
        for captured in captures {
            self.make(rt, alloc, &captured.run())?;
        }
        Ok(())
    }

    /// Tries the runs over each capture of several sessions.
    pub(crate) fn several(self, rt: &impl Abort, alloc: Global) -> Result<(), Fail> {
        self.captured(rt, alloc, SEVERAL)
    }

    /// Tries the runs over each capture of overviews and of listed ids.
    pub(crate) fn overviews(self, rt: &impl Abort, alloc: Global) -> Result<(), Fail> {
        self.captured(rt, alloc, OVERVIEWS)?;
        self.captured(rt, alloc, LISTED_IDS)
    }

    /// Tries all of these runs, but those over overviews.
    pub(crate) fn all(self, rt: &impl Abort, alloc: Global) -> Result<(), Fail> {
        self.sessions(rt, alloc)?;
        self.shown(rt, alloc)?;
        self.explained(rt, alloc)?;
        self.several(rt, alloc)
    }
}
