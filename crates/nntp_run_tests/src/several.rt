//! Captures of several sessions, and the reports on them.
use crate::runs::Run;
use crate::tasks::{CHECK, EXPLAIN, VERIFY};
use nntp_check::{RunFault, Task};
use nntp_sessions::{Alone, capture, session_pairs};
use std::alloc::{AllocError, Global};
use std::process::Abort;
use std::test::Fail;

/// A capture by name: what is done with it, what is printed of it, and whether the answer is yes.
#[derive(Clone, Copy)]
pub(crate) struct Captured {
    pub(crate) name: &'static str,
    pub(crate) task: Task,
    pub(crate) capture: &'static [u8],
    pub(crate) report: &'static [u8],
    pub(crate) answer: bool,
}

impl Captured {
    pub(crate) fn run(&self) -> Run<'static> {
        Run::of(self.name, self.task, self.capture, self.answer, self.report)
    }
}

pub(crate) const SEVERAL: &[Captured] = &[
    Captured {
        name: "two sessions",
        task: CHECK,
        capture: b"session 3\noneclient 15\nGROUP g\r\nQUIT\r\nserver 30\n200 hi\r\n211 0 1 0 g\r\n205 bye\r\nsession 0\nclient 6\nQUIT\r\nserver 17\n\
            200 hi\r\n205 bye\r\n",
        report: b"consistent sessions=2 answers=5 groups=1 numbers=0 articles=0\nspool 1\ngroup g 0\nend\n",
        answer: true,
    },
    Captured {
        name: "two sessions",
        task: VERIFY,
        capture: b"session 3\noneclient 15\nGROUP g\r\nQUIT\r\nserver 30\n200 hi\r\n211 0 1 0 g\r\n205 bye\r\nspool 9\nspool 1\ngsession 0\nclient 6\nQUIT\r\n\
            server 17\n200 hi\r\n205 bye\r\nspool 13\nroup g 0\nend\n",
        report: b"permits sessions=2 answers=5\n",
        answer: true,
    },
    Captured {
        name: "two sessions",
        task: Task::Show,
        capture: b"session 3\noneclient 15\nGROUP g\r\nQUIT\r\nserver 30\n200 hi\r\n211 0 1 0 g\r\n205 bye\r\nsession 0\nclient 6\nQUIT\r\nserver 17\n\
            200 hi\r\n205 bye\r\n",
        report: b"session 1 one\n0 greeting -> 200 hi\n1 GROUP g -> 211 0 1 0 g\n  group g\n2 QUIT -> 205 bye\nend answers=3 unanswered=0\nsession 2\n\
            0 greeting -> 200 hi\n1 QUIT -> 205 bye\nend answers=2 unanswered=0\n",
        answer: true,
    },
    Captured {
        name: "two sessions",
        task: EXPLAIN,
        capture: b"session 3\noneclient 15\nGROUP g\r\nQUIT\r\nserver 30\n200 hi\r\n211 0 1 0 g\r\n205 bye\r\nsession 0\nclient 6\nQUIT\r\nserver 17\n\
            200 hi\r\n205 bye\r\n",
        report: b"end sessions=2 answers=5 bad=0 unanswered=0\n",
        answer: true,
    },
    Captured {
        name: "pieces without octets before the first session",
        task: CHECK,
        capture: b"client 0\nserver 0\nsession 1\naclient 6\nQUIT\r\nserver 17\n200 hi\r\n205 bye\r\n",
        report: b"consistent sessions=1 answers=2 groups=0 numbers=0 articles=0\nspool 1\nend\n",
        answer: true,
    },
    Captured {
        name: "pieces without octets before the first session",
        task: VERIFY,
        capture: b"client 0\nserver 0\nsession 1\naclient 6\nQUIT\r\nserver 17\n200 hi\r\n205 bye\r\nspool 12\nspool 1\nend\n",
        report: b"permits sessions=1 answers=2\n",
        answer: true,
    },
    Captured {
        name: "pieces without octets before the first session",
        task: Task::Show,
        capture: b"client 0\nserver 0\nsession 1\naclient 6\nQUIT\r\nserver 17\n200 hi\r\n205 bye\r\n",
        report: b"session 1 a\n0 greeting -> 200 hi\n1 QUIT -> 205 bye\nend answers=2 unanswered=0\n",
        answer: true,
    },
    Captured {
        name: "pieces without octets before the first session",
        task: EXPLAIN,
        capture: b"client 0\nserver 0\nsession 1\naclient 6\nQUIT\r\nserver 17\n200 hi\r\n205 bye\r\n",
        report: b"end sessions=1 answers=2 bad=0 unanswered=0\n",
        answer: true,
    },
    Captured {
        name: "a session without a name, and one that contradicts it",
        task: CHECK,
        capture: b"client 11\nGROUP g\r\nQUserver 13\n200 hi\r\n211 0client 4\nIT\r\nserver 17\n 1 0 g\r\n205 bye\r\nsession 5\nb\\\n\x00\xffclient 9\n\
            GROUP g\r\nserver 16\n200 hi\r\n411 no\r\n",
        report: b"session 2 b\\\\\\x0a\\x00\\xff\nbad answer 1 Contradiction\ncommand GROUP g\nanswer 411 no\n",
        answer: false,
    },
    Captured {
        name: "a session without a name, and one that contradicts it",
        task: VERIFY,
        capture: b"client 11\nGROUP g\r\nQUserver 13\n200 hi\r\n211 0client 4\nIT\r\nserver 17\n 1 0 g\r\n205 bye\r\nsession 5\nb\\\n\x00\xffclient 9\n\
            GROUP g\r\nserver 16\n200 hi\r\n411 no\r\nspool 22\nspool 1\ngroup g 0\nend\n",
        report: b"session 2 b\\\\\\x0a\\x00\\xff\nrefuses answer 1\n",
        answer: false,
    },
    Captured {
        name: "a session without a name, and one that contradicts it",
        task: Task::Show,
        capture: b"client 11\nGROUP g\r\nQUserver 13\n200 hi\r\n211 0client 4\nIT\r\nserver 17\n 1 0 g\r\n205 bye\r\nsession 5\nb\\\n\x00\xffclient 9\n\
            GROUP g\r\nserver 16\n200 hi\r\n411 no\r\n",
        report: b"session 1\n0 greeting -> 200 hi\n1 GROUP g -> 211 0 1 0 g\n  group g\n2 QUIT -> 205 bye\nend answers=3 unanswered=0\n\
            session 2 b\\\\\\x0a\\x00\\xff\n0 greeting -> 200 hi\n1 GROUP g -> 411 no\nend answers=2 unanswered=0\n",
        answer: true,
    },
    Captured {
        name: "a session without a name, and one that contradicts it",
        task: EXPLAIN,
        capture: b"client 11\nGROUP g\r\nQUserver 13\n200 hi\r\n211 0client 4\nIT\r\nserver 17\n 1 0 g\r\n205 bye\r\nsession 5\nb\\\n\x00\xffclient 9\n\
            GROUP g\r\nserver 16\n200 hi\r\n411 no\r\n",
        report: b"session 2 b\\\\\\x0a\\x00\\xff\nbad answer 1 Contradiction\ncommand GROUP g\nanswer 411 no\nin no group\nabout group g\nsays no group g\n\
            because answer 1 of session 1\ncommand GROUP g\nanswer 211 0 1 0 g\nin no group\nsays group g\nend sessions=2 answers=5 bad=1 unanswered=0\n",
        answer: false,
    },
    Captured {
        name: "octets that answer nothing in the first and in the last",
        task: CHECK,
        capture: b"session 5\nfirstclient 6\nQUIT\r\nserver 21\n200 hi\r\n205 bye\r\nmoresession 6\nsecondsession 5\nthirdclient 9\nGROUP g\r\nserver 9\n\
            200 hi\r\n4",
        report: b"session 1 first\nbad answer 2 Surplus\nno command\nanswer more\n",
        answer: false,
    },
    Captured {
        name: "octets that answer nothing in the first and in the last",
        task: VERIFY,
        capture: b"session 5\nfirstclient 6\nQUIT\r\nserver 21\n200 hi\r\n205 bye\r\nmoresession 6\nsecondsession 5\nthirdclient 9\nGROUP g\r\nserver 9\n\
            200 hi\r\n4spool 12\nspool 1\nend\n",
        report: b"session 1 first\nrefuses answer 2\n",
        answer: false,
    },
    Captured {
        name: "octets that answer nothing in the first and in the last",
        task: Task::Show,
        capture: b"session 5\nfirstclient 6\nQUIT\r\nserver 21\n200 hi\r\n205 bye\r\nmoresession 6\nsecondsession 5\nthirdclient 9\nGROUP g\r\nserver 9\n\
            200 hi\r\n4",
        report: b"session 1 first\n0 greeting -> 200 hi\n1 QUIT -> 205 bye\nbad answer 2 Surplus\nsession 2 second\nend answers=0 unanswered=0\n\
            session 3 third\n0 greeting -> 200 hi\nbad answer 1 Cut\n",
        answer: false,
    },
    Captured {
        name: "octets that answer nothing in the first and in the last",
        task: EXPLAIN,
        capture: b"session 5\nfirstclient 6\nQUIT\r\nserver 21\n200 hi\r\n205 bye\r\nmoresession 6\nsecondsession 5\nthirdclient 9\nGROUP g\r\nserver 9\n\
            200 hi\r\n4",
        report: b"session 1 first\nbad answer 2 Surplus\nno command\nanswer more\nin no group\nwhy closed\nbecause answer 1\ncommand QUIT\nanswer 205 bye\n\
            in no group\nsession 3 third\nbad answer 1 Cut\ncommand GROUP g\nanswer 4\nin no group\nwhy line\nend sessions=3 answers=5 bad=2 unanswered=0\n",
        answer: false,
    },
    Captured {
        name: "nothing but the piece of a session",
        task: CHECK,
        capture: b"session 1\nx",
        report: b"consistent sessions=1 answers=0 groups=0 numbers=0 articles=0\nspool 1\nend\n",
        answer: true,
    },
    Captured {
        name: "nothing but the piece of a session",
        task: Task::Show,
        capture: b"session 1\nx",
        report: b"session 1 x\nend answers=0 unanswered=0\n",
        answer: true,
    },
    Captured {
        name: "a first session without octets",
        task: CHECK,
        capture: b"session 1\nxsession 1\nyclient 6\nQUIT\r\nserver 17\n200 hi\r\n205 bye\r\n",
        report: b"consistent sessions=2 answers=2 groups=0 numbers=0 articles=0\nspool 1\nend\n",
        answer: true,
    },
    Captured {
        name: "words that a session holds",
        task: CHECK,
        capture: b"session 10\nsession 0\nclient 11\nsession 3\r\nserver 23\n200 hi\r\n500 session 1\r\n",
        report: b"consistent sessions=1 answers=2 groups=0 numbers=0 articles=0\nspool 1\nend\n",
        answer: true,
    },
];

#[test]
fn captures_of_several_sessions_cut_at_every_octet(rt: HostRuntime) {
    for captured in SEVERAL {
        captured.run().cut_everywhere(&rt, rt.alloc());
    }
}

/// Octets that are no capture of several sessions, and the number of the piece that is none.
const FAULTS: [(&[u8], u64); 12] = [
    (b"s", 1),
    (b"se", 1),
    (b"sex", 1),
    (b"ses", 1),
    (b"sessio", 1),
    (b"sessions 0\n", 1),
    (b"session", 1),
    (b"session \n", 1),
    (b"session 1\n", 1),
    (b"session 00000000000\n", 1),
    (b"session 1\nasession 2\nb", 2),
    (b"client 11\nsession 0\n", 1),
];

#[test]
fn pieces_that_begin_no_session(rt: HostRuntime) {
    for (octets, piece) in FAULTS {
        for task in [CHECK, VERIFY, Task::Show, EXPLAIN] {
            let run = Run::of("a fault", task, octets, false, b"");
            run.stopped(RunFault::Capture { piece }, b"")
                .pass(&rt, rt.alloc(), 1);
        }
    }
}

/// The capture of two sessions: one without a name, and one behind a piece.
fn capture_of_both(alloc: Global, one: &Alone, other: &Alone) -> Result<String, AllocError> {
    let first = capture(alloc, one.client, one.server)?;
    let second = capture(alloc, other.client, other.server)?;
    format!(in alloc; "{first}session 5\nother{second}")
}

/// The second of two sessions is bad behind the first.
fn second_is_bad(
    rt: &impl Abort,
    alloc: Global,
    name: &str,
    (one, other): (&Alone, &Alone),
) -> Result<(), AllocError> {
    let capture = capture_of_both(alloc, one, other)?;
    let (answer, command, reply) = other.behind;
    let report = format!(in alloc;
        "session 2 other\nbad answer {answer} Contradiction\ncommand {command}\nanswer {reply}\n"
    )?;
    let run = Run::of(name, CHECK, capture.as_bytes(), false, report.as_bytes());
    run.pass(rt, alloc, 4096);
    Ok(())
}

#[test]
fn sessions_that_contradict_each_other(rt: HostRuntime) -> Result<(), Fail> {
    for pair in session_pairs() {
        second_is_bad(&rt, rt.alloc(), pair.name, (&pair.one, &pair.other))?;
        second_is_bad(&rt, rt.alloc(), pair.name, (&pair.other, &pair.one))?;
    }
    Ok(())
}
