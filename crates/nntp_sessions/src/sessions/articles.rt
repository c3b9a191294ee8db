//! Articles by id, whole and in parts.
use super::Session;
use super::texts::{
    CONTROL, DOTTED_BODY, EMPTY_GROUP, ID_ALONE, NOTHING, SUBJECT, SUBJECT_AND_TEXT,
};
use crate::choice::NARROW_LENIENT;
use nntp_spool::Verified;

const SESSIONS: &[Session] = &[
    Session {
        name: "a body with dots",
        client: "BODY <a@b>\r\n",
        server: "200 hi\r\n222 0 <a@b>\r\n..\r\n...x\r\n\r\n.\r\n",
        choice: NARROW_LENIENT,
        verdict: "consistent answers=2 groups=0 numbers=0 articles=1\n",
        given: (DOTTED_BODY, Verified::Permits { answers: 2 }),
        others: &[(SUBJECT_AND_TEXT, Verified::Refuses { index: 1 })],
    },
    Session {
        name: "a dot that was not doubled",
        client: "BODY <a@b>\r\n",
        server: "200 hi\r\n222 0 <a@b>\r\n.x\r\n.\r\n",
        choice: NARROW_LENIENT,
        verdict: "bad answer 1 Malformed\ncommand BODY <a@b>\nanswer 222 0 <a@b>\n",
        given: (NOTHING, Verified::Refuses { index: 1 }),
        others: &[(DOTTED_BODY, Verified::Refuses { index: 1 })],
    },
    Session {
        name: "an article without a body",
        client: "ARTICLE <a@b>\r\n",
        server: "200 hi\r\n220 0 <a@b>\r\nSubject: one\r\n\r\n.\r\n",
        choice: NARROW_LENIENT,
        verdict: "consistent answers=2 groups=0 numbers=0 articles=1\n",
        given: (SUBJECT, Verified::Permits { answers: 2 }),
        others: &[(SUBJECT_AND_TEXT, Verified::Refuses { index: 1 })],
    },
    Session {
        name: "a head and a body by themselves",
        client: "HEAD <a@b>\r\nBODY <a@b>\r\n",
        server: "200 hi\r\n221 0 <a@b>\r\nSubject: one\r\n.\r\n222 0 <a@b>\r\ntext\r\n.\r\n",
        choice: NARROW_LENIENT,
        verdict: "consistent answers=3 groups=0 numbers=0 articles=1\n",
        given: (SUBJECT_AND_TEXT, Verified::Permits { answers: 3 }),
        others: &[(SUBJECT, Verified::Refuses { index: 2 })],
    },
    Session {
        name: "a head that changes",
        client: "ARTICLE <a@b>\r\nHEAD <a@b>\r\n",
        server: "200 hi\r\n220 0 <a@b>\r\nSubject: one\r\n\r\ntext\r\n.\r\n221 0 <a@b>\r\nSubject: two\r\n.\r\n",
        choice: NARROW_LENIENT,
        verdict: "bad answer 2 Contradiction\ncommand HEAD <a@b>\nanswer 221 0 <a@b>\n",
        given: (SUBJECT_AND_TEXT, Verified::Refuses { index: 2 }),
        others: &[(SUBJECT, Verified::Refuses { index: 1 })],
    },
    Session {
        name: "a body that changes",
        client: "BODY <a@b>\r\nBODY <a@b>\r\n",
        server: "200 hi\r\n222 0 <a@b>\r\none\r\n.\r\n222 0 <a@b>\r\ntwo\r\n.\r\n",
        choice: NARROW_LENIENT,
        verdict: "bad answer 2 Contradiction\ncommand BODY <a@b>\nanswer 222 0 <a@b>\n",
        given: (
            "spool 1\narticle <a@b> 1 1\n|Message-ID: <a@b>\n|one\nend\n",
            Verified::Refuses { index: 2 },
        ),
        others: &[],
    },
    Session {
        name: "a head with one line more",
        client: "HEAD <a@b>\r\n",
        server: "200 hi\r\n221 0 <a@b>\r\nSubject: one\r\nX: y\r\n.\r\n",
        choice: NARROW_LENIENT,
        verdict: "consistent answers=2 groups=0 numbers=0 articles=1\n",
        given: (
            "spool 1\narticle <a@b> 2 0\n|Subject: one\n|X: y\nend\n",
            Verified::Permits { answers: 2 },
        ),
        others: &[(SUBJECT, Verified::Refuses { index: 1 })],
    },
    Session {
        name: "a head without its last line",
        client: "HEAD <c@x>\r\n",
        server: "200 hi\r\n221 0 <c@x>\r\nControl: cancel\r\n <a@b>\r\n.\r\n",
        choice: NARROW_LENIENT,
        verdict: "consistent answers=2 groups=0 numbers=0 articles=1\n",
        given: (
            "spool 1\narticle <c@x> 2 0\n|Control: cancel\n| <a@b>\nend\n",
            Verified::Permits { answers: 2 },
        ),
        others: &[(CONTROL, Verified::Refuses { index: 1 })],
    },
    Session {
        name: "a head whose header goes on",
        client: "HEAD <c@x>\r\nQUIT\r\n",
        server: "200 hi\r\n221 0 <c@x>\r\nControl: cancel\r\n <a@b>\r\nMessage-ID: <c@x>\r\n.\r\n205 bye\r\n",
        choice: NARROW_LENIENT,
        verdict: "consistent answers=3 groups=0 numbers=0 articles=1\n",
        given: (CONTROL, Verified::Permits { answers: 3 }),
        others: &[],
    },
    Session {
        name: "a head that says another id",
        client: "HEAD <a@b>\r\n",
        server: "200 hi\r\n221 0 <a@b>\r\nMessage-ID: <b@b>\r\n.\r\n",
        choice: NARROW_LENIENT,
        verdict: "bad answer 1 OutOfPlace\ncommand HEAD <a@b>\nanswer 221 0 <a@b>\n",
        given: (NOTHING, Verified::Refuses { index: 1 }),
        others: &[(SUBJECT, Verified::Refuses { index: 1 })],
    },
    Session {
        name: "an article without an empty line",
        client: "ARTICLE <a@b>\r\n",
        server: "200 hi\r\n220 0 <a@b>\r\nSubject: one\r\n.\r\n",
        choice: NARROW_LENIENT,
        verdict: "bad answer 1 OutOfPlace\ncommand ARTICLE <a@b>\nanswer 220 0 <a@b>\n",
        given: (NOTHING, Verified::Refuses { index: 1 }),
        others: &[(SUBJECT, Verified::Refuses { index: 1 })],
    },
    Session {
        name: "an id that is there and then isn't",
        client: "STAT <a@b>\r\nSTAT <a@b>\r\n",
        server: "200 hi\r\n223 0 <a@b>\r\n430 no\r\n",
        choice: NARROW_LENIENT,
        verdict: "bad answer 2 Contradiction\ncommand STAT <a@b>\nanswer 430 no\n",
        given: (ID_ALONE, Verified::Refuses { index: 2 }),
        others: &[
            (SUBJECT, Verified::Refuses { index: 2 }),
            (NOTHING, Verified::Refuses { index: 1 }),
        ],
    },
    Session {
        name: "an id that isn't there and then is",
        client: "STAT <a@b>\r\nSTAT <a@b>\r\n",
        server: "200 hi\r\n430 no\r\n223 0 <a@b>\r\n",
        choice: NARROW_LENIENT,
        verdict: "bad answer 2 Contradiction\ncommand STAT <a@b>\nanswer 223 0 <a@b>\n",
        given: (NOTHING, Verified::Refuses { index: 2 }),
        others: &[(SUBJECT, Verified::Refuses { index: 1 })],
    },
    Session {
        name: "an id that is denied twice",
        client: "STAT <a@b>\r\nSTAT <a@b>\r\n",
        server: "200 hi\r\n430 no\r\n430 no\r\n",
        choice: NARROW_LENIENT,
        verdict: "consistent answers=3 groups=0 numbers=0 articles=0\n",
        given: (NOTHING, Verified::Permits { answers: 3 }),
        others: &[],
    },
    Session {
        name: "a number by id, and no group is selected",
        client: "STAT <a@b>\r\n",
        server: "200 hi\r\n223 7 <a@b>\r\n",
        choice: NARROW_LENIENT,
        verdict: "bad answer 1 OutOfPlace\ncommand STAT <a@b>\nanswer 223 7 <a@b>\n",
        given: (NOTHING, Verified::Refuses { index: 1 }),
        others: &[(SUBJECT, Verified::Refuses { index: 1 })],
    },
    Session {
        name: "a denied id at a number",
        client: "GROUP g\r\nSTAT <a@b>\r\nSTAT 1\r\n",
        server: "200 hi\r\n211 2 1 2 g\r\n430 no\r\n223 1 <a@b>\r\n",
        choice: NARROW_LENIENT,
        verdict: "bad answer 3 Contradiction\ncommand STAT 1\nanswer 223 1 <a@b>\n",
        given: (EMPTY_GROUP, Verified::Refuses { index: 3 }),
        others: &[],
    },
];

/// Hands them out.
pub(super) fn sessions() -> &'static [Session] {
    SESSIONS
}
