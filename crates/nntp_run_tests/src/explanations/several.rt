//! What `explain_sessions` prints of several sessions of one spool.
use nntp_check::{Limit, Marks, Overviews};
use nntp_explain::explain_sessions;
use nntp_several::{Named, Recorded};
use std::alloc::{AllocError, Global};
use std::process::Abort;
use std::test::Fail;

/// A session: its name, what the client sent, and what the server sent.
type Spoken = (&'static [u8], &'static [u8], &'static [u8]);

/// Sessions in their order, and the report on them.
#[derive(Clone, Copy)]
pub(super) struct Told {
    pub(super) sessions: &'static [Spoken],
    pub(super) report: &'static str,
}

const TOLD: &[Told] = &[
    // None.
    Told {
        sessions: &[],
        report: "end sessions=0 answers=0 bad=0 unanswered=0\n",
    },
    // A group that the first shows, and the second denies.
    Told {
        sessions: &[
            (
                b"first",
                b"GROUP misc.test\r\n",
                b"200 hi\r\n211 1 5 5 misc.test\r\n",
            ),
            (
                b"second",
                b"GROUP misc.test\r\n",
                b"200 hi\r\n411 no such group\r\n",
            ),
        ],
        report: "session 2 second\nbad answer 1 Contradiction\ncommand GROUP misc.test\nanswer 411 no such group\nin no group\nabout group misc.test\n\
            says no group misc.test\nbecause answer 1 of session 1\ncommand GROUP misc.test\nanswer 211 1 5 5 misc.test\nin no group\nsays group misc.test\n\
            end sessions=2 answers=4 bad=1 unanswered=0\n",
    },
    // A low mark may be below that of another session, and not below one of its own; a name with LF; a line without an
    // answer in the first.
    Told {
        sessions: &[
            (b"", b"GROUP g\r\nQUIT\r\n", b"200 hi\r\n211 2 5 6 g\r\n"),
            (
                b"b\n",
                b"GROUP g\r\nGROUP g\r\n",
                b"200 hi\r\n211 2 4 6 g\r\n211 2 3 6 g\r\n",
            ),
        ],
        report: "session 2 b\\x0a\nbad answer 2 OutOfPlace\ncommand GROUP g\nanswer 211 2 3 6 g\nin g since 1 at first\nwhy low 4\nbecause answer 1\n\
            command GROUP g\nanswer 211 2 4 6 g\nin no group\nend sessions=2 answers=5 bad=1 unanswered=1\n",
    },
    // A session without a name whose greeting is bad, and a good one behind it.
    Told {
        sessions: &[
            (b"", b"", b"500 no\r\n"),
            (b"x", b"QUIT\r\n", b"200 hi\r\n205 bye\r\n"),
        ],
        report: "session 1\nbad answer 0 OutOfPlace\nno command\nanswer 500 no\nin no group\nwhy code 500 allowed 200 201 400 502\n\
            end sessions=2 answers=3 bad=1 unanswered=0\n",
    },
];

/// The sessions with their names, in which overviews are taken so.
fn named<'a>(
    alloc: Global,
    overviews: Overviews,
    sessions: &[(&'a [u8], &'a [u8], &'a [u8])],
) -> Result<Vec<Named<'a>>, AllocError> {
    let mut all = Vec::new(alloc);
    for (name, client, server) in sessions {
        let session = Recorded {
            overviews,
            client,
            server,
        };
        all.push(Named { name, session })?;
    }
    Ok(all)
}

/// Explains sessions in which overviews are taken so, and compares what is printed.
pub(super) fn expect_report(
    rt: &impl Abort,
    alloc: Global,
    overviews: Overviews,
    sessions: &[(&[u8], &[u8], &[u8])],
    report: &str,
) -> Result<(), AllocError> {
    let sessions = named(alloc, overviews, sessions)?;
    let told = explain_sessions(alloc, Limit::Narrow, Marks::Lenient, &sessions)?;
    let text = told.text.as_slice();
    assert_eq!(rt; text, report.as_bytes(), "{report}");
    Ok(())
}

/// The same of each of these.
pub(super) fn expect_reports(
    rt: &impl Abort,
    alloc: Global,
    overviews: Overviews,
    all: &[Told],
) -> Result<(), AllocError> {
    for told in all {
        expect_report(rt, alloc, overviews, told.sessions, told.report)?;
    }
    Ok(())
}

#[test]
fn several_sessions(rt: HostRuntime) -> Result<(), Fail> {
    Ok(expect_reports(&rt, rt.alloc(), Overviews::Opaque, TOLD)?)
}
