//! Where a session stands in its group.
use super::Session;
use super::texts::{EMPTY_GROUP, FOUR, NOTHING, ONE, ONE_AND_TWO, THREE, TWO_AND_FOUR, TWO_GROUPS};
use crate::choice::NARROW_LENIENT;
use nntp_spool::Verified;

const SESSIONS: &[Session] = &[
    Session {
        name: "no group is selected",
        client: "NEXT\r\n",
        server: "200 hi\r\n412 no\r\n",
        choice: NARROW_LENIENT,
        verdict: "consistent answers=2 groups=0 numbers=0 articles=0\n",
        given: (NOTHING, Verified::Permits { answers: 2 }),
        others: &[],
    },
    Session {
        name: "no group is selected, and a step is made",
        client: "NEXT\r\n",
        server: "200 hi\r\n223 4 <b@x>\r\n",
        choice: NARROW_LENIENT,
        verdict: "bad answer 1 OutOfPlace\ncommand NEXT\nanswer 223 4 <b@x>\n",
        given: (NOTHING, Verified::Refuses { index: 1 }),
        others: &[(FOUR, Verified::Refuses { index: 1 })],
    },
    Session {
        name: "no article is there",
        client: "GROUP g\r\nSTAT\r\nNEXT\r\n",
        server: "200 hi\r\n211 1 1 5 g\r\n420 no\r\n420 no\r\n",
        choice: NARROW_LENIENT,
        verdict: "consistent answers=4 groups=1 numbers=0 articles=0\n",
        given: (EMPTY_GROUP, Verified::Permits { answers: 4 }),
        others: &[],
    },
    Session {
        name: "no article is there, and then one",
        client: "GROUP g\r\nSTAT\r\nSTAT 4\r\n",
        server: "200 hi\r\n211 1 1 5 g\r\n420 no\r\n223 4 <b@x>\r\n",
        choice: NARROW_LENIENT,
        verdict: "bad answer 3 Contradiction\ncommand STAT 4\nanswer 223 4 <b@x>\n",
        given: (EMPTY_GROUP, Verified::Refuses { index: 3 }),
        others: &[(FOUR, Verified::Refuses { index: 2 })],
    },
    Session {
        name: "it stays where a number is denied",
        client: "GROUP g\r\nSTAT 5\r\nSTAT\r\n",
        server: "200 hi\r\n211 5 1 5 g\r\n423 no\r\n223 3 <a@b>\r\n",
        choice: NARROW_LENIENT,
        verdict: "consistent answers=4 groups=1 numbers=1 articles=1\n",
        given: (THREE, Verified::Permits { answers: 4 }),
        others: &[],
    },
    Session {
        name: "it stays behind an article by id",
        client: "GROUP g\r\nSTAT <b@x>\r\nSTAT\r\n",
        server: "200 hi\r\n211 3 1 5 g\r\n223 4 <b@x>\r\n223 2 <a@x>\r\n",
        choice: NARROW_LENIENT,
        verdict: "consistent answers=4 groups=1 numbers=2 articles=2\n",
        given: (TWO_AND_FOUR, Verified::Permits { answers: 4 }),
        others: &[],
    },
    Session {
        name: "it doesn't go to an article by id",
        client: "GROUP g\r\nSTAT <b@x>\r\nSTAT\r\n",
        server: "200 hi\r\n211 3 1 5 g\r\n223 4 <b@x>\r\n223 4 <b@x>\r\n",
        choice: NARROW_LENIENT,
        verdict: "consistent answers=4 groups=1 numbers=1 articles=1\n",
        given: (FOUR, Verified::Permits { answers: 4 }),
        others: &[(TWO_AND_FOUR, Verified::Refuses { index: 3 })],
    },
    Session {
        name: "it goes with a number, and with the group",
        client: "GROUP g\r\nSTAT 1\r\nGROUP h\r\nSTAT 9\r\n",
        server: "200 hi\r\n211 1 1 1 g\r\n223 1 <a@b>\r\n211 1 9 9 h\r\n223 9 <a@b>\r\n",
        choice: NARROW_LENIENT,
        verdict: "consistent answers=5 groups=2 numbers=2 articles=1\n",
        given: (TWO_GROUPS, Verified::Permits { answers: 5 }),
        others: &[],
    },
    Session {
        name: "one id at two numbers of a group",
        client: "GROUP g\r\nSTAT 1\r\nSTAT 2\r\n",
        server: "200 hi\r\n211 2 1 2 g\r\n223 1 <a@b>\r\n223 2 <a@b>\r\n",
        choice: NARROW_LENIENT,
        verdict: "bad answer 3 Contradiction\ncommand STAT 2\nanswer 223 2 <a@b>\n",
        given: (ONE, Verified::Refuses { index: 3 }),
        others: &[],
    },
    Session {
        name: "two ids at one number",
        client: "GROUP g\r\nSTAT 1\r\nSTAT 1\r\n",
        server: "200 hi\r\n211 2 1 2 g\r\n223 1 <a@b>\r\n223 1 <b@x>\r\n",
        choice: NARROW_LENIENT,
        verdict: "bad answer 3 Contradiction\ncommand STAT 1\nanswer 223 1 <b@x>\n",
        given: (ONE, Verified::Refuses { index: 3 }),
        others: &[],
    },
    Session {
        name: "another current article than the one that is known",
        client: "GROUP g\r\nSTAT 1\r\nSTAT\r\n",
        server: "200 hi\r\n211 2 1 2 g\r\n223 1 <a@b>\r\n223 2 <b@x>\r\n",
        choice: NARROW_LENIENT,
        verdict: "bad answer 3 Contradiction\ncommand STAT\nanswer 223 2 <b@x>\n",
        given: (ONE, Verified::Refuses { index: 3 }),
        others: &[(ONE_AND_TWO, Verified::Refuses { index: 3 })],
    },
];

/// Hands them out.
pub(super) fn sessions() -> &'static [Session] {
    SESSIONS
}
