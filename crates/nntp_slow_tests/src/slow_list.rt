//! What the slow judge says of several sessions: it takes their exchanges as one list, one session behind the other.
use crate::given_spools::put_to_both;
use nntp_fixtures::{expect_front, expect_octets, expect_verified, verified_sessions};
use nntp_sessions::{Answered, Choice, exchanges};
use nntp_several::Recorded;
use nntp_slow_judge::{Judged, SlowVerdict};
use nntp_spool::Verified;
use nntp_wire::Marks;
use std::alloc::{AllocError, Global};
use std::test::Fail;

/// Adds the exchanges of a session, and tells how many they are.
fn add_exchanges<'a>(
    alloc: Global,
    all: &mut Vec<Answered<'a>>,
    session: &Recorded<'a>,
) -> Result<u64, AllocError> {
    let before = all.len();
    for answered in exchanges(alloc, session.client, session.server)? {
        all.push(answered)?;
    }
    Ok(all.len().saturating_sub(before) as u64)
}

/// What the slow judge says of sessions: how many exchanges each has, and what is said of them all, one session behind the
/// other.
#[derive(Drop)]
pub(crate) struct SlowList {
    counts: Vec<u64>,
    verdict: SlowVerdict,
}

/// Numbers with commas between them.
fn joined(alloc: Global, numbers: &[u64]) -> Result<String, AllocError> {
    let mut text = String::new(alloc);
    for number in numbers {
        let before = if text.is_empty() { "" } else { "," };
        text.push_str(format!(in alloc; "{before}{number}")?.as_str())?;
    }
    Ok(text)
}

impl SlowList {
    pub(crate) fn of(
        alloc: Global,
        choice: Choice,
        sessions: &[Recorded<'_>],
    ) -> Result<SlowList, AllocError> {
        let mut all = Vec::new(alloc);
        let mut counts = Vec::new(alloc);
        for session in sessions {
            counts.push(add_exchanges(alloc, &mut all, session)?)?;
        }
        let verdict = SlowVerdict::of(alloc, choice, &all)?;
        Ok(SlowList { counts, verdict })
    }

    /// What is said of the exchange behind the consistent ones, and its session, if there is one.
    pub(crate) fn said(&self) -> (Judged, u64) {
        (self.verdict.judged, self.place().0)
    }

    /// The session that has the first bad exchange, and the index there.
    fn place(&self) -> (u64, u64) {
        let mut session = 0u64;
        let mut index = self.verdict.good as u64;
        for count in &self.counts {
            if index < *count {
                break;
            }
            index = index.saturating_sub(*count);
            session = session.saturating_add(1);
        }
        (session, index)
    }

    /// The verdict on sessions that are all consistent.
    fn consistent(&self, alloc: Global) -> Result<Vec<u8>, AllocError> {
        let counts = joined(alloc, &self.counts)?;
        let first = format!(in alloc; "consistent answers={counts}\n")?;
        let mut report = first.into_bytes();
        report.extend_from_slice(&self.verdict.text)?;
        Ok(report)
    }

    /// Compares the report of a verdict with it.
    pub(crate) fn compare_report(
        &self,
        alloc: Global,
        name: &str,
        report: &[u8],
    ) -> Result<(), Fail> {
        let judged = self.verdict.judged;
        if judged == Judged::Consistent {
            return expect_octets(name, report, &self.consistent(alloc)?);
        }
        let (session, index) = self.place();
        let front = format!(in alloc; "session {session}\nbad answer {index} {judged:?}\n")?;
        expect_front(name, report, front.as_str())
    }

    /// What `verify_sessions` has to answer of the given spool.
    fn answered(&self, alloc: Global) -> Result<String, AllocError> {
        if self.verdict.judged == Judged::Consistent {
            let counts = joined(alloc, &self.counts)?;
            return format!(in alloc; "permits answers={counts}\n");
        }
        let (session, index) = self.place();
        format!(in alloc; "session {session}\nrefuses answer {index}\n")
    }

    /// Puts the given spool to all sessions.
    pub(crate) fn verify(
        &self,
        alloc: Global,
        name: &str,
        marks: Marks,
        sessions: &[Recorded<'_>],
    ) -> Result<(), Fail> {
        let verified = verified_sessions(alloc, marks, &self.verdict.text, sessions)?;
        let wanted = self.answered(alloc)?;
        expect_octets(name, verified.as_bytes(), wanted.as_bytes())
    }

    /// Puts the given spool to one session after the other, by both judges, up to the first bad exchange.
    pub(crate) fn put_to_each(
        &self,
        alloc: Global,
        name: &str,
        marks: Marks,
        sessions: &[Recorded<'_>],
    ) -> Result<(), Fail> {
        let text = &self.verdict.text;
        let mut left = self.verdict.good as u64;
        for (session, count) in sessions.iter().zip(&self.counts) {
            let streams = (session.client, session.server);
            let verified = put_to_both(alloc, name, marks, text, streams)?;
            if left < *count {
                return expect_verified(name, verified, Verified::Refuses { index: left });
            }
            expect_verified(name, verified, Verified::Permits { answers: *count })?;
            left = left.saturating_sub(*count);
        }
        Ok(())
    }
}
