//! Short sessions with overviews, where overviews are judged and where they are opaque: the runs agree with the calls
//! that take them so, and what `explain` and `verify` say agrees with what `check` says.
use crate::runs::expect_run;
use nntp_fixtures::{
    checker_taking, expect_front, expect_octets, expect_verified, feed_split, finished,
};
use nntp_run_fixtures::{check_task, explain_task, verify_task, written};
use nntp_sessions::{Choice, NARROW_LENIENT, NARROW_STRICT, capture, with_spool};
use nntp_spool::{Spool, Verified, verify_taking};
use nntp_wire::Overviews;
use std::alloc::{AllocError, Global};
use std::process::Abort;
use std::test::Fail;

/// A command and its answer.
pub(crate) type Exchange = (&'static str, &'static str);

/// What is said first.
pub(crate) const SELECTED: Exchange = ("GROUP g\r\n", "211 3 1 4 g\r\n");

/// What is said behind it.
pub(crate) const EXCHANGES: [Exchange; 14] = [
    (
        "XOVER 1-3\r\n",
        "224 x\r\n1\t\t\t\t<a@x>\r\n3\t\t\t\t<c@x>\r\n.\r\n",
    ),
    ("XOVER 2-\r\n", "224 x\r\n.\r\n"),
    ("XOVER 4\r\n", "420 no\r\n"),
    ("XOVER 1\r\n", "224 x\r\n1\t\t\t\tno id\r\n.\r\n"),
    ("OVER 2-4\r\n", "423 no\r\n"),
    ("OVER 1-4\r\n", "224 x\r\n.\r\n"),
    ("OVER\r\n", "224 x\r\n2\t\t\t\t<b@x>\r\n.\r\n"),
    ("OVER <c@x>\r\n", "224 x\r\n0\t\t\t\t<c@x>\r\n.\r\n"),
    ("OVER <c@x>\r\n", "430 no\r\n"),
    (
        "HDR Message-ID 1-3\r\n",
        "225 x\r\n1 <a@x>\r\n3 <c@x>\r\n.\r\n",
    ),
    ("XHDR message-id 2-\r\n", "221 x\r\n2 <b@x>\r\n.\r\n"),
    ("STAT 2\r\n", "223 2 <b@x>\r\n"),
    ("STAT 3\r\n", "423 no\r\n"),
    ("STAT 1\r\n", "223 1 <b@x>\r\n"),
];

/// By what a session is judged.
#[derive(Clone, Copy)]
pub(crate) struct By {
    pub(crate) choice: Choice,
    pub(crate) overviews: Overviews,
}

/// What the client and the server sent, and how many answers that are.
#[derive(Drop)]
pub(crate) struct Recording {
    client: String,
    server: String,
    answers: u64,
}

impl Recording {
    /// A greeting and these exchanges.
    pub(crate) fn of(alloc: Global, exchanges: &[Exchange]) -> Result<Recording, AllocError> {
        let mut client = String::new(alloc);
        let mut server = String::from_str(alloc, "200 hi\r\n")?;
        for (command, answer) in exchanges {
            client.push_str(*command)?;
            server.push_str(*answer)?;
        }
        let answers = (exchanges.len() as u64).saturating_add(1);
        Ok(Recording {
            client,
            server,
            answers,
        })
    }

    pub(crate) fn streams(&self) -> (&[u8], &[u8]) {
        (self.client.as_bytes(), self.server.as_bytes())
    }

    fn capture(&self, alloc: Global) -> Result<String, AllocError> {
        capture(alloc, self.client.as_str(), self.server.as_str())
    }

    /// The report of a checker to which both streams come in two pieces each.
    fn checked(&self, alloc: Global, by: By) -> Result<String, Fail> {
        let (client, server) = self.streams();
        let mut checker = checker_taking(by.choice, alloc, by.overviews);
        let places = (client.len() / 2, server.len() / 3);
        feed_split(&mut checker, (client, server), places)?;
        Ok(String::from_utf8(finished(alloc, checker)?)?)
    }

    /// The run that judges the session writes this report.
    fn check(&self, alloc: Global, by: By, report: &str) -> Result<(), Fail> {
        let capture = self.capture(alloc)?;
        let task = check_task(by.choice, by.overviews);
        let wanted = (report.starts_with("consistent "), report.as_bytes());
        expect_run(alloc, report, task, capture.as_str(), wanted)
    }

    /// The run that explains the session begins with the bad answer of this report; or it finds none, as the report does.
    fn explain(&self, alloc: Global, by: By, report: &str) -> Result<(), Fail> {
        let capture = self.capture(alloc)?;
        let task = explain_task(by.choice, by.overviews);
        if report.starts_with("consistent ") {
            let last = format!(in alloc; "end answers={} bad=0 unanswered=0\n", self.answers)?;
            let wanted = (true, last.as_bytes());
            return expect_run(alloc, report, task, capture.as_str(), wanted);
        }
        let (answer, octets) = written(alloc, task, capture.as_bytes())?;
        if answer {
            return Err(Fail::new(format_args!("{report}: nothing is bad")));
        }
        expect_front(report, &octets, report)
    }

    /// The call and the run of `verify` permit the spool of a text.
    fn verify(&self, alloc: Global, by: By, text: &str) -> Result<(), Fail> {
        let (client, server) = self.streams();
        let spool = Spool::read(alloc, text.as_bytes())?;
        let verified = verify_taking(alloc, by.choice.marks, &spool, by.overviews, client, server)?;
        let answers = self.answers;
        expect_verified(text, verified, Verified::Permits { answers })?;
        let capture = self.capture(alloc)?;
        let capture = with_spool(alloc, capture.as_str(), text)?;
        let report = format!(in alloc; "permits answers={answers}\n")?;
        let task = verify_task(by.choice, by.overviews);
        let wanted = (true, report.as_bytes());
        expect_run(alloc, text, task, capture.as_str(), wanted)
    }

    /// Has all calls and runs say the same. The answer is whether it is consistent.
    fn compare(&self, alloc: Global, by: By) -> Result<bool, Fail> {
        let report = self.checked(alloc, by)?;
        self.check(alloc, by, report.as_str())?;
        self.explain(alloc, by, report.as_str())?;
        if !report.starts_with("consistent ") {
            return Ok(false);
        }
        let Some((_, text)) = report.split_once('\n') else {
            return Err("a report has no line".into());
        };
        self.verify(alloc, by, text)?;
        Ok(true)
    }
}

/// How many sessions of two of the exchanges are consistent, and how many aren't.
fn count(alloc: Global, by: By) -> Result<(u64, u64), Fail> {
    let (mut consistent, mut bad) = (0u64, 0u64);
    for first in EXCHANGES {
        for second in EXCHANGES {
            let recording = Recording::of(alloc, &[SELECTED, first, second])?;
            if recording.compare(alloc, by)? {
                consistent = consistent.saturating_add(1);
            } else {
                bad = bad.saturating_add(1);
            }
        }
    }
    Ok((consistent, bad))
}

/// Compares all sessions by this choice: where overviews are judged, fewer are consistent, but some are.
fn compare_all(rt: &impl Abort, alloc: Global, choice: Choice) -> Result<(), Fail> {
    let judged = By {
        choice,
        overviews: Overviews::Judged,
    };
    let opaque = By {
        choice,
        overviews: Overviews::Opaque,
    };
    let (consistent, bad) = count(alloc, judged)?;
    let (more, fewer) = count(alloc, opaque)?;
    assert!(rt;
        0 < consistent && consistent < more && 0 < fewer && fewer < bad,
        "{consistent}, {bad}, {more}, {fewer}"
    );
    Ok(())
}

#[test]
fn sessions_with_overviews(rt: HostRuntime) -> Result<(), Fail> {
    compare_all(&rt, rt.alloc(), NARROW_LENIENT)
}

#[test]
fn sessions_with_overviews_and_strict_marks(rt: HostRuntime) -> Result<(), Fail> {
    compare_all(&rt, rt.alloc(), NARROW_STRICT)
}
