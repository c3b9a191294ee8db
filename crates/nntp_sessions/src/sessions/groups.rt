//! Groups, their marks, and names that are none.
use super::Session;
use super::texts::{EMPTY_GROUP, NOTHING, TWO_AND_FOUR, TWO_GROUPS, TWO_NUMBERS};
use crate::choice::NARROW_LENIENT;
use nntp_spool::Verified;

const SESSIONS: &[Session] = &[
    Session {
        name: "a group without numbers",
        client: "GROUP g\r\nQUIT\r\n",
        server: "200 hi\r\n211 0 1 0 g\r\n205 bye\r\n",
        choice: NARROW_LENIENT,
        verdict: "consistent answers=3 groups=1 numbers=0 articles=0\n",
        given: (EMPTY_GROUP, Verified::Permits { answers: 3 }),
        others: &[
            (TWO_NUMBERS, Verified::Refuses { index: 1 }),
            (NOTHING, Verified::Refuses { index: 1 }),
        ],
    },
    Session {
        name: "no such group",
        client: "GROUP g\r\n",
        server: "200 hi\r\n411 no\r\n",
        choice: NARROW_LENIENT,
        verdict: "consistent answers=2 groups=0 numbers=0 articles=0\n",
        given: (NOTHING, Verified::Permits { answers: 2 }),
        others: &[(EMPTY_GROUP, Verified::Refuses { index: 1 })],
    },
    Session {
        name: "no such group, and then the group",
        client: "GROUP g\r\nGROUP g\r\n",
        server: "200 hi\r\n411 no\r\n211 0 1 0 g\r\n",
        choice: NARROW_LENIENT,
        verdict: "bad answer 2 Contradiction\ncommand GROUP g\nanswer 211 0 1 0 g\n",
        given: (NOTHING, Verified::Refuses { index: 2 }),
        others: &[(EMPTY_GROUP, Verified::Refuses { index: 1 })],
    },
    Session {
        name: "a group, and then no such group",
        client: "GROUP g\r\nGROUP g\r\n",
        server: "200 hi\r\n211 0 1 0 g\r\n411 no\r\n",
        choice: NARROW_LENIENT,
        verdict: "bad answer 2 Contradiction\ncommand GROUP g\nanswer 411 no\n",
        given: (EMPTY_GROUP, Verified::Refuses { index: 2 }),
        others: &[],
    },
    Session {
        name: "another group than was asked for",
        client: "GROUP h\r\n",
        server: "200 hi\r\n211 1 1 1 g\r\n",
        choice: NARROW_LENIENT,
        verdict: "bad answer 1 OutOfPlace\ncommand GROUP h\nanswer 211 1 1 1 g\n",
        given: (NOTHING, Verified::Refuses { index: 1 }),
        others: &[(TWO_GROUPS, Verified::Refuses { index: 1 })],
    },
    Session {
        name: "groups in the order of their octets",
        client: "GROUP b\r\nGROUP a.b\r\nGROUP c\r\nGROUP a\r\n",
        server: "200 hi\r\n211 0 1 0 b\r\n211 0 1 0 a.b\r\n411 no\r\n211 0 1 0 a\r\n",
        choice: NARROW_LENIENT,
        verdict: "consistent answers=5 groups=3 numbers=0 articles=0\n",
        given: (
            "spool 1\ngroup a 0\ngroup a.b 0\ngroup b 0\nend\n",
            Verified::Permits { answers: 5 },
        ),
        others: &[],
    },
    Session {
        name: "a low mark that falls",
        client: "GROUP g\r\nGROUP g\r\n",
        server: "200 hi\r\n211 2 5 6 g\r\n211 2 4 6 g\r\n",
        choice: NARROW_LENIENT,
        verdict: "bad answer 2 OutOfPlace\ncommand GROUP g\nanswer 211 2 4 6 g\n",
        given: (EMPTY_GROUP, Verified::Refuses { index: 2 }),
        others: &[],
    },
    Session {
        name: "three zeros behind a low mark",
        client: "GROUP g\r\nGROUP g\r\n",
        server: "200 hi\r\n211 2 5 6 g\r\n211 0 0 0 g\r\n",
        choice: NARROW_LENIENT,
        verdict: "consistent answers=3 groups=1 numbers=0 articles=0\n",
        given: (EMPTY_GROUP, Verified::Permits { answers: 3 }),
        others: &[],
    },
    Session {
        name: "a low mark that falls behind three zeros",
        client: "GROUP g\r\nGROUP g\r\nGROUP g\r\n",
        server: "200 hi\r\n211 2 5 6 g\r\n211 0 0 0 g\r\n211 2 4 6 g\r\n",
        choice: NARROW_LENIENT,
        verdict: "bad answer 3 OutOfPlace\ncommand GROUP g\nanswer 211 2 4 6 g\n",
        given: (EMPTY_GROUP, Verified::Refuses { index: 3 }),
        others: &[],
    },
    Session {
        name: "a low mark above the first number",
        client: "GROUP g\r\n",
        server: "200 hi\r\n211 2 2 5 g\r\n",
        choice: NARROW_LENIENT,
        verdict: "consistent answers=2 groups=1 numbers=0 articles=0\n",
        given: (EMPTY_GROUP, Verified::Permits { answers: 2 }),
        others: &[
            (TWO_NUMBERS, Verified::Refuses { index: 1 }),
            (TWO_AND_FOUR, Verified::Permits { answers: 2 }),
        ],
    },
    Session {
        name: "a high mark below the last number",
        client: "GROUP g\r\n",
        server: "200 hi\r\n211 2 1 3 g\r\n",
        choice: NARROW_LENIENT,
        verdict: "consistent answers=2 groups=1 numbers=0 articles=0\n",
        given: (EMPTY_GROUP, Verified::Permits { answers: 2 }),
        others: &[(TWO_AND_FOUR, Verified::Refuses { index: 1 })],
    },
    Session {
        name: "an estimate above the count, and then one below it",
        client: "GROUP g\r\nGROUP g\r\n",
        server: "200 hi\r\n211 3 1 5 g\r\n211 1 1 5 g\r\n",
        choice: NARROW_LENIENT,
        verdict: "consistent answers=3 groups=1 numbers=0 articles=0\n",
        given: (EMPTY_GROUP, Verified::Permits { answers: 3 }),
        others: &[(TWO_NUMBERS, Verified::Refuses { index: 2 })],
    },
    Session {
        name: "an estimate above what the marks hold",
        client: "GROUP g\r\n",
        server: "200 hi\r\n211 3 5 6 g\r\n",
        choice: NARROW_LENIENT,
        verdict: "bad answer 1 OutOfPlace\ncommand GROUP g\nanswer 211 3 5 6 g\n",
        given: (NOTHING, Verified::Refuses { index: 1 }),
        others: &[],
    },
    Session {
        name: "a high mark above the greatest number",
        client: "GROUP g\r\n",
        server: "200 hi\r\n211 1 1 2147483648 g\r\n",
        choice: NARROW_LENIENT,
        verdict: "bad answer 1 OutOfPlace\ncommand GROUP g\nanswer 211 1 1 2147483648 g\n",
        given: (NOTHING, Verified::Refuses { index: 1 }),
        others: &[],
    },
];

/// Hands them out.
pub(super) fn sessions() -> &'static [Session] {
    SESSIONS
}
