//! Answers to LISTGROUP.
use super::Session;
use super::texts::{
    BOTH_INVENTED, EMPTY_GROUP, FOUR, FROM_TWO_ON, NOTHING, TWO_AND_FOUR, TWO_NUMBERS,
};
use crate::choice::NARROW_LENIENT;
use nntp_spool::Verified;

const SESSIONS: &[Session] = &[
    Session {
        name: "a range without numbers",
        client: "LISTGROUP g 2-1\r\n",
        server: "200 hi\r\n211 1 2 4 g\r\n.\r\n",
        choice: NARROW_LENIENT,
        verdict: "consistent answers=2 groups=1 numbers=0 articles=0\n",
        given: (EMPTY_GROUP, Verified::Permits { answers: 2 }),
        others: &[],
    },
    Session {
        name: "all numbers are listed",
        client: "LISTGROUP g\r\n",
        server: "200 hi\r\n211 3 2 4 g\r\n2\r\n4\r\n.\r\n",
        choice: NARROW_LENIENT,
        verdict: "consistent answers=2 groups=1 numbers=2 articles=2\n",
        given: (BOTH_INVENTED, Verified::Permits { answers: 2 }),
        others: &[
            (TWO_AND_FOUR, Verified::Permits { answers: 2 }),
            (TWO_NUMBERS, Verified::Refuses { index: 1 }),
        ],
    },
    Session {
        name: "a number that was not listed",
        client: "LISTGROUP g\r\nSTAT 3\r\n",
        server: "200 hi\r\n211 3 2 4 g\r\n2\r\n4\r\n.\r\n223 3 <c@x>\r\n",
        choice: NARROW_LENIENT,
        verdict: "bad answer 2 Contradiction\ncommand STAT 3\nanswer 223 3 <c@x>\n",
        given: (BOTH_INVENTED, Verified::Refuses { index: 2 }),
        others: &[],
    },
    Session {
        name: "the numbers from 3 on",
        client: "LISTGROUP g 3-\r\n",
        server: "200 hi\r\n211 2 2 4 g\r\n4\r\n.\r\n",
        choice: NARROW_LENIENT,
        verdict: "consistent answers=2 groups=1 numbers=1 articles=1\n",
        given: (
            "spool 1\ngroup g 1\n4 <w0@invented.invalid>\narticle <w0@invented.invalid> 1 0\n|Message-ID: <w0@invented.invalid>\nend\n",
            Verified::Permits { answers: 2 },
        ),
        others: &[(TWO_AND_FOUR, Verified::Permits { answers: 2 })],
    },
    Session {
        name: "the numbers up to 3",
        client: "LISTGROUP g 1-3\r\n",
        server: "200 hi\r\n211 2 2 4 g\r\n2\r\n.\r\n",
        choice: NARROW_LENIENT,
        verdict: "consistent answers=2 groups=1 numbers=1 articles=1\n",
        given: (
            "spool 1\ngroup g 1\n2 <w0@invented.invalid>\narticle <w0@invented.invalid> 1 0\n|Message-ID: <w0@invented.invalid>\nend\n",
            Verified::Permits { answers: 2 },
        ),
        others: &[(TWO_AND_FOUR, Verified::Permits { answers: 2 })],
    },
    Session {
        name: "a number that the list lacks",
        client: "LISTGROUP g 3-\r\n",
        server: "200 hi\r\n211 2 2 4 g\r\n.\r\n",
        choice: NARROW_LENIENT,
        verdict: "consistent answers=2 groups=1 numbers=0 articles=0\n",
        given: (EMPTY_GROUP, Verified::Permits { answers: 2 }),
        others: &[(TWO_AND_FOUR, Verified::Refuses { index: 1 })],
    },
    Session {
        name: "a listed number above the high mark",
        client: "LISTGROUP g 3-\r\n",
        server: "200 hi\r\n211 2 2 4 g\r\n4\r\n5\r\n.\r\n",
        choice: NARROW_LENIENT,
        verdict: "bad answer 1 Contradiction\ncommand LISTGROUP g 3-\nanswer 211 2 2 4 g\n",
        given: (NOTHING, Verified::Refuses { index: 1 }),
        others: &[(TWO_AND_FOUR, Verified::Refuses { index: 1 })],
    },
    Session {
        name: "more numbers are listed than estimated",
        client: "LISTGROUP g\r\n",
        server: "200 hi\r\n211 1 2 4 g\r\n2\r\n4\r\n.\r\n",
        choice: NARROW_LENIENT,
        verdict: "bad answer 1 Contradiction\ncommand LISTGROUP g\nanswer 211 1 2 4 g\n",
        given: (NOTHING, Verified::Refuses { index: 1 }),
        others: &[(TWO_AND_FOUR, Verified::Refuses { index: 1 })],
    },
    Session {
        name: "a list that doesn't ascend",
        client: "LISTGROUP g\r\n",
        server: "200 hi\r\n211 2 2 4 g\r\n4\r\n2\r\n.\r\n",
        choice: NARROW_LENIENT,
        verdict: "bad answer 1 OutOfPlace\ncommand LISTGROUP g\nanswer 211 2 2 4 g\n",
        given: (NOTHING, Verified::Refuses { index: 1 }),
        others: &[(TWO_AND_FOUR, Verified::Refuses { index: 1 })],
    },
    Session {
        name: "a listed number outside the range",
        client: "LISTGROUP g 3-\r\n",
        server: "200 hi\r\n211 2 2 4 g\r\n2\r\n4\r\n.\r\n",
        choice: NARROW_LENIENT,
        verdict: "bad answer 1 OutOfPlace\ncommand LISTGROUP g 3-\nanswer 211 2 2 4 g\n",
        given: (NOTHING, Verified::Refuses { index: 1 }),
        others: &[(TWO_AND_FOUR, Verified::Refuses { index: 1 })],
    },
    Session {
        name: "a number that is shown is listed again",
        client: "GROUP g\r\nSTAT 4\r\nLISTGROUP\r\n",
        server: "200 hi\r\n211 2 1 5 g\r\n223 4 <b@x>\r\n211 2 1 5 g\r\n2\r\n4\r\n.\r\n",
        choice: NARROW_LENIENT,
        verdict: "consistent answers=4 groups=1 numbers=2 articles=2\n",
        given: (FROM_TWO_ON, Verified::Permits { answers: 4 }),
        others: &[(TWO_AND_FOUR, Verified::Permits { answers: 4 })],
    },
    Session {
        name: "a list leaves a shown number out",
        client: "GROUP g\r\nSTAT 4\r\nLISTGROUP g 3-\r\n",
        server: "200 hi\r\n211 2 1 5 g\r\n223 4 <b@x>\r\n211 2 1 5 g\r\n5\r\n.\r\n",
        choice: NARROW_LENIENT,
        verdict: "bad answer 3 Contradiction\ncommand LISTGROUP g 3-\nanswer 211 2 1 5 g\n",
        given: (FOUR, Verified::Refuses { index: 3 }),
        others: &[],
    },
    Session {
        name: "the first number lies below the range",
        client: "LISTGROUP g 4-\r\nSTAT\r\n",
        server: "200 hi\r\n211 2 1 5 g\r\n4\r\n.\r\n223 2 <a@b>\r\n",
        choice: NARROW_LENIENT,
        verdict: "consistent answers=3 groups=1 numbers=2 articles=2\n",
        given: (
            "spool 1\ngroup g 2\n2 <a@b>\n4 <w0@invented.invalid>\narticle <a@b> 1 0\n|Message-ID: <a@b>\narticle <w0@invented.invalid> 1 0\n\
            |Message-ID: <w0@invented.invalid>\nend\n",
            Verified::Permits { answers: 3 },
        ),
        others: &[],
    },
    Session {
        name: "the last group comes first",
        client: "LISTGROUP b\r\nLISTGROUP a\r\n",
        server: "200 hi\r\n211 1 3 3 b\r\n3\r\n.\r\n211 1 7 7 a\r\n7\r\n.\r\n",
        choice: NARROW_LENIENT,
        verdict: "consistent answers=3 groups=2 numbers=2 articles=2\n",
        given: (
            "spool 1\ngroup a 1\n7 <w0@invented.invalid>\ngroup b 1\n3 <w1@invented.invalid>\narticle <w0@invented.invalid> 1 0\n\
            |Message-ID: <w0@invented.invalid>\narticle <w1@invented.invalid> 1 0\n|Message-ID: <w1@invented.invalid>\nend\n",
            Verified::Permits { answers: 3 },
        ),
        others: &[],
    },
    Session {
        name: "no group is named or selected",
        client: "LISTGROUP\r\n",
        server: "200 hi\r\n412 no\r\n",
        choice: NARROW_LENIENT,
        verdict: "consistent answers=2 groups=0 numbers=0 articles=0\n",
        given: (NOTHING, Verified::Permits { answers: 2 }),
        others: &[],
    },
];

/// Hands them out.
pub(super) fn sessions() -> &'static [Session] {
    SESSIONS
}
