//! Sessions in their order: what goes from one to the next, and what begins anew.
use super::SessionList;
use crate::sessions::texts::{EMPTY_GROUP, NOTHING, ONE_AND_TWO, SUBJECT_AND_TEXT};

/// A session that some spool explains: one that has the group `g`.
const GOOD: (&str, &str) = ("GROUP g\r\n", "200 hi\r\n211 0 1 0 g\r\n");

pub(crate) const LISTS: [SessionList; 16] = [
    SessionList {
        name: "no session",
        sessions: &[],
        verdict: "consistent answers=\n",
        given: NOTHING,
        verified: "permits answers=\n",
    },
    SessionList {
        name: "a session without octets between two others",
        sessions: &[GOOD, ("", ""), ("GROUP h\r\n", "200 hi\r\n411 no\r\n")],
        verdict: "consistent answers=2,0,2\n",
        given: EMPTY_GROUP,
        verified: "permits answers=2,0,2\n",
    },
    SessionList {
        name: "a low mark that falls from one session to the next",
        sessions: &[
            ("GROUP g\r\n", "200 hi\r\n211 2 5 6 g\r\n"),
            ("GROUP g\r\n", "200 hi\r\n211 2 4 6 g\r\n"),
        ],
        verdict: "consistent answers=2,2\n",
        given: EMPTY_GROUP,
        verified: "permits answers=2,2\n",
    },
    SessionList {
        name: "no group is selected behind a session in which one is",
        sessions: &[
            ("GROUP g\r\n", "200 hi\r\n211 3 1 5 g\r\n"),
            ("NEXT\r\n", "200 hi\r\n412 no\r\n"),
        ],
        verdict: "consistent answers=2,2\n",
        given: EMPTY_GROUP,
        verified: "permits answers=2,2\n",
    },
    SessionList {
        name: "a step in the group that another session selected",
        sessions: &[
            ("GROUP g\r\n", "200 hi\r\n211 3 1 5 g\r\n"),
            ("NEXT\r\n", "200 hi\r\n223 4 <b@x>\r\n"),
        ],
        verdict: "session 1\nbad answer 1 OutOfPlace\ncommand NEXT\nanswer 223 4 <b@x>\n",
        given: EMPTY_GROUP,
        verified: "session 1\nrefuses answer 1\n",
    },
    SessionList {
        name: "sessions behind 205, and behind 400 with a command that isn't answered",
        sessions: &[
            ("QUIT\r\n", "200 hi\r\n205 bye\r\n"),
            ("HELP\r\nGROUP h\r\n", "200 hi\r\n400 bye\r\n"),
            ("GROUP g\r\n", "200 hi\r\n411 no\r\n"),
        ],
        verdict: "consistent answers=2,2,2\n",
        given: NOTHING,
        verified: "permits answers=2,2,2\n",
    },
    SessionList {
        name: "a greeting of 400 in the second session",
        sessions: &[GOOD, ("GROUP g\r\n", "400 no\r\n")],
        verdict: "consistent answers=2,1\n",
        given: EMPTY_GROUP,
        verified: "permits answers=2,1\n",
    },
    SessionList {
        name: "the head in one session, and the body in another",
        sessions: &[
            (
                "HEAD <a@b>\r\n",
                "200 hi\r\n221 0 <a@b>\r\nSubject: one\r\n.\r\n",
            ),
            ("BODY <a@b>\r\n", "200 hi\r\n222 0 <a@b>\r\ntext\r\n.\r\n"),
        ],
        verdict: "consistent answers=2,2\n",
        given: SUBJECT_AND_TEXT,
        verified: "permits answers=2,2\n",
    },
    SessionList {
        name: "what later sessions deny isn't given for a step",
        sessions: &[
            (
                "GROUP g\r\nNEXT\r\n",
                "200 hi\r\n211 3 1 5 g\r\n223 4 <b@x>\r\n",
            ),
            (
                "GROUP g\r\nSTAT 1\r\n",
                "200 hi\r\n211 3 1 5 g\r\n423 no\r\n",
            ),
            ("STAT <w0@invented.invalid>\r\n", "200 hi\r\n430 no\r\n"),
        ],
        verdict: "consistent answers=3,3,2\n",
        given: "spool 1\ngroup g 2\n2 <w1@invented.invalid>\n4 <b@x>\narticle <b@x> 1 0\n|Message-ID: <b@x>\narticle <w1@invented.invalid> 1 0\n\
            |Message-ID: <w1@invented.invalid>\nend\n",
        verified: "permits answers=3,3,2\n",
    },
    SessionList {
        name: "an estimate of two, and a number in each of three sessions",
        sessions: &[
            (
                "GROUP g\r\nSTAT 1\r\n",
                "200 hi\r\n211 2 1 5 g\r\n223 1 <a@b>\r\n",
            ),
            (
                "GROUP g\r\nSTAT 2\r\n",
                "200 hi\r\n211 2 1 5 g\r\n223 2 <b@x>\r\n",
            ),
            (
                "GROUP g\r\nSTAT 3\r\n",
                "200 hi\r\n211 2 1 5 g\r\n223 3 <c@x>\r\n",
            ),
        ],
        verdict: "session 2\nbad answer 2 Contradiction\ncommand STAT 3\nanswer 223 3 <c@x>\n",
        given: ONE_AND_TWO,
        verified: "session 2\nrefuses answer 2\n",
    },
    SessionList {
        name: "an answer to a line of the session before",
        sessions: &[("GROUP g\r\n", "200 hi\r\n"), ("", "200 hi\r\n411 no\r\n")],
        verdict: "session 1\nbad answer 1 Surplus\nno command\nanswer 411 no\n",
        given: NOTHING,
        verified: "session 1\nrefuses answer 1\n",
    },
    SessionList {
        name: "an answer to a line of the next session",
        sessions: &[("", "200 hi\r\n411 no\r\n"), ("GROUP g\r\n", "200 hi\r\n")],
        verdict: "session 0\nbad answer 1 Surplus\nno command\nanswer 411 no\n",
        given: NOTHING,
        verified: "session 0\nrefuses answer 1\n",
    },
    SessionList {
        name: "an answer that is cut in the second session",
        sessions: &[GOOD, ("GROUP g\r\n", "200 hi\r\n211 0")],
        verdict: "session 1\nbad answer 1 Cut\ncommand GROUP g\nanswer 211 0\n",
        given: EMPTY_GROUP,
        verified: "session 1\nrefuses answer 1\n",
    },
    SessionList {
        name: "an answer that goes on in the next session",
        sessions: &[("GROUP g\r\n", "200 hi\r\n211 0"), ("", " 1 0 g\r\n")],
        verdict: "session 0\nbad answer 1 Cut\ncommand GROUP g\nanswer 211 0\n",
        given: NOTHING,
        verified: "session 0\nrefuses answer 1\n",
    },
    SessionList {
        name: "an answer without a code in the second session",
        sessions: &[GOOD, ("HELP\r\n", "200 hi\r\n2x3 ok\r\n")],
        verdict: "session 1\nbad answer 1 Malformed\ncommand HELP\nanswer 2x3 ok\n",
        given: EMPTY_GROUP,
        verified: "session 1\nrefuses answer 1\n",
    },
    SessionList {
        name: "an answer without a code before a good session",
        sessions: &[("HELP\r\n", "200 hi\r\n2x3 ok\r\n"), GOOD],
        verdict: "session 0\nbad answer 1 Malformed\ncommand HELP\nanswer 2x3 ok\n",
        given: NOTHING,
        verified: "session 0\nrefuses answer 1\n",
    },
];
