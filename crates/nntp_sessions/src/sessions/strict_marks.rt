//! Marks that are read strictly: where a group has numbers, those of a 211 are the least and the greatest of them.
use super::Session;
use super::texts::{
    BOTH_INVENTED, EMPTY_GROUP, FROM_TWO_ON, NOTHING, ONE_INVENTED, SECOND_INVENTED, THREE,
    TWO_AND_FOUR, TWO_NUMBERS,
};
use crate::choice::{NARROW_LENIENT, NARROW_STRICT};
use nntp_spool::Verified;

/// The numbers 1 and 5, each with an invented id, and 4 between them.
const BOTH_MARKS: &str =
    "spool 1\ngroup g 3\n1 <w0@invented.invalid>\n4 <b@x>\n5 <w1@invented.invalid>\narticle <b@x> 1 0\n|Message-ID: <b@x>\narticle <w0@invented.invalid> 1 0\n\
    |Message-ID: <w0@invented.invalid>\narticle <w1@invented.invalid> 1 0\n|Message-ID: <w1@invented.invalid>\nend\n";

/// The same numbers, and the first of the invented ids isn't used.
const BOTH_MARKS_WITHOUT_W0: &str =
    "spool 1\ngroup g 3\n1 <w1@invented.invalid>\n4 <b@x>\n5 <w2@invented.invalid>\narticle <b@x> 1 0\n|Message-ID: <b@x>\narticle <w1@invented.invalid> 1 0\n\
    |Message-ID: <w1@invented.invalid>\narticle <w2@invented.invalid> 1 0\n|Message-ID: <w2@invented.invalid>\nend\n";

/// An invented id at 5.
const FIVE_INVENTED: &str =
    "spool 1\ngroup g 1\n5 <w0@invented.invalid>\narticle <w0@invented.invalid> 1 0\n|Message-ID: <w0@invented.invalid>\nend\n";

/// The number 2 alone.
const TWO: &str = "spool 1\ngroup g 1\n2 <a@b>\narticle <a@b> 1 0\n|Message-ID: <a@b>\nend\n";

const SESSIONS: &[Session] = &[
    Session {
        name: "strict marks, and a step from the first article",
        client: "GROUP g\r\nNEXT\r\n",
        server: "200 hi\r\n211 3 1 5 g\r\n223 4 <b@x>\r\n",
        choice: NARROW_STRICT,
        verdict: "consistent answers=3 groups=1 numbers=3 articles=3\n",
        given: (BOTH_MARKS, Verified::Permits { answers: 3 }),
        others: &[
            (TWO_NUMBERS, Verified::Refuses { index: 1 }),
            (FROM_TWO_ON, Verified::Refuses { index: 1 }),
            (EMPTY_GROUP, Verified::Refuses { index: 2 }),
        ],
    },
    Session {
        name: "strict marks, and the low mark is denied",
        client: "GROUP g\r\nNEXT\r\nSTAT 1\r\nSTAT 2\r\nSTAT 3\r\n",
        server: "200 hi\r\n211 3 1 5 g\r\n223 4 <b@x>\r\n423 no\r\n423 no\r\n423 no\r\n",
        choice: NARROW_STRICT,
        verdict: "bad answer 3 Contradiction\ncommand STAT 1\nanswer 423 no\n",
        given: (BOTH_MARKS, Verified::Refuses { index: 3 }),
        others: &[(TWO_NUMBERS, Verified::Refuses { index: 1 })],
    },
    Session {
        name: "strict marks, and the first article is above the low mark",
        client: "GROUP g\r\nSTAT\r\nLAST\r\n",
        server: "200 hi\r\n211 5 1 5 g\r\n223 3 <a@b>\r\n422 no\r\n",
        choice: NARROW_STRICT,
        verdict: "bad answer 2 Contradiction\ncommand STAT\nanswer 223 3 <a@b>\n",
        given: (EMPTY_GROUP, Verified::Refuses { index: 2 }),
        others: &[(THREE, Verified::Refuses { index: 1 })],
    },
    Session {
        name: "strict marks, and a step back that isn't to the low mark",
        client: "GROUP g\r\nNEXT\r\nLAST\r\n",
        server: "200 hi\r\n211 3 1 5 g\r\n223 4 <b@x>\r\n223 2 <a@x>\r\n",
        choice: NARROW_STRICT,
        verdict: "bad answer 3 Contradiction\ncommand LAST\nanswer 223 2 <a@x>\n",
        given: (BOTH_MARKS, Verified::Refuses { index: 3 }),
        others: &[(TWO_AND_FOUR, Verified::Refuses { index: 1 })],
    },
    Session {
        name: "strict marks, and an invented id that was denied",
        client: "STAT <w0@invented.invalid>\r\nGROUP g\r\nNEXT\r\n",
        server: "200 hi\r\n430 no\r\n211 3 1 5 g\r\n223 4 <b@x>\r\n",
        choice: NARROW_STRICT,
        verdict: "consistent answers=4 groups=1 numbers=3 articles=3\n",
        given: (BOTH_MARKS_WITHOUT_W0, Verified::Permits { answers: 4 }),
        others: &[
            (BOTH_MARKS, Verified::Refuses { index: 1 }),
            (SECOND_INVENTED, Verified::Refuses { index: 2 }),
        ],
    },
    Session {
        name: "strict marks that are apart, an estimate of one, and no article behind the first",
        client: "GROUP g\r\nNEXT\r\n",
        server: "200 hi\r\n211 1 1 5 g\r\n421 no\r\n",
        choice: NARROW_STRICT,
        verdict: "bad answer 2 Contradiction\ncommand NEXT\nanswer 421 no\n",
        given: (EMPTY_GROUP, Verified::Refuses { index: 2 }),
        others: &[(ONE_INVENTED, Verified::Refuses { index: 1 })],
    },
    Session {
        name: "strict marks that are equal, and no article behind the first",
        client: "GROUP g\r\nNEXT\r\n",
        server: "200 hi\r\n211 1 5 5 g\r\n421 no\r\n",
        choice: NARROW_STRICT,
        verdict: "consistent answers=3 groups=1 numbers=1 articles=1\n",
        given: (FIVE_INVENTED, Verified::Permits { answers: 3 }),
        others: &[(ONE_INVENTED, Verified::Refuses { index: 1 })],
    },
    Session {
        name: "two strict low marks, and a number",
        client: "GROUP g\r\nGROUP g\r\nSTAT\r\n",
        server: "200 hi\r\n211 1 1 5 g\r\n211 1 2 5 g\r\n223 2 <a@b>\r\n",
        choice: NARROW_STRICT,
        verdict: "bad answer 3 Contradiction\ncommand STAT\nanswer 223 2 <a@b>\n",
        given: (EMPTY_GROUP, Verified::Refuses { index: 3 }),
        others: &[(TWO, Verified::Refuses { index: 1 })],
    },
    Session {
        name: "two strict low marks, and no article",
        client: "GROUP g\r\nGROUP g\r\nSTAT\r\n",
        server: "200 hi\r\n211 1 1 5 g\r\n211 1 2 5 g\r\n420 no\r\n",
        choice: NARROW_STRICT,
        verdict: "consistent answers=4 groups=1 numbers=0 articles=0\n",
        given: (EMPTY_GROUP, Verified::Permits { answers: 4 }),
        others: &[(TWO, Verified::Refuses { index: 1 })],
    },
    Session {
        name: "two low marks that needn't be numbers, and a number",
        client: "GROUP g\r\nGROUP g\r\nSTAT\r\n",
        server: "200 hi\r\n211 1 1 5 g\r\n211 1 2 5 g\r\n223 2 <a@b>\r\n",
        choice: NARROW_LENIENT,
        verdict: "consistent answers=4 groups=1 numbers=1 articles=1\n",
        given: (TWO, Verified::Permits { answers: 4 }),
        others: &[],
    },
    Session {
        name: "strict marks, and a step with an estimate of one",
        client: "GROUP g\r\nNEXT\r\n",
        server: "200 hi\r\n211 1 1 5 g\r\n223 4 <b@x>\r\n",
        choice: NARROW_STRICT,
        verdict: "bad answer 2 Contradiction\ncommand NEXT\nanswer 223 4 <b@x>\n",
        given: (EMPTY_GROUP, Verified::Refuses { index: 2 }),
        others: &[],
    },
    Session {
        name: "strict marks, and then zeros",
        client: "GROUP g\r\nGROUP g\r\n",
        server: "200 hi\r\n211 2 5 6 g\r\n211 0 0 0 g\r\n",
        choice: NARROW_STRICT,
        verdict: "consistent answers=3 groups=1 numbers=0 articles=0\n",
        given: (EMPTY_GROUP, Verified::Permits { answers: 3 }),
        others: &[],
    },
    Session {
        name: "strict marks that are equal, and the only number is denied",
        client: "GROUP g\r\nSTAT 5\r\nLAST\r\n",
        server: "200 hi\r\n211 1 5 5 g\r\n423 no\r\n422 no\r\n",
        choice: NARROW_STRICT,
        verdict: "bad answer 3 Contradiction\ncommand LAST\nanswer 422 no\n",
        given: (EMPTY_GROUP, Verified::Refuses { index: 3 }),
        others: &[],
    },
    Session {
        name: "strict marks that the numbers of a list have",
        client: "LISTGROUP g\r\n",
        server: "200 hi\r\n211 3 2 4 g\r\n2\r\n4\r\n.\r\n",
        choice: NARROW_STRICT,
        verdict: "consistent answers=2 groups=1 numbers=2 articles=2\n",
        given: (BOTH_INVENTED, Verified::Permits { answers: 2 }),
        others: &[(THREE, Verified::Refuses { index: 1 })],
    },
    Session {
        name: "strict marks that the numbers of a list don't have",
        client: "LISTGROUP g\r\n",
        server: "200 hi\r\n211 3 1 5 g\r\n2\r\n4\r\n.\r\n",
        choice: NARROW_STRICT,
        verdict: "bad answer 1 Contradiction\ncommand LISTGROUP g\nanswer 211 3 1 5 g\n",
        given: (NOTHING, Verified::Refuses { index: 1 }),
        others: &[(BOTH_INVENTED, Verified::Refuses { index: 1 })],
    },
    Session {
        name: "strict marks of a 211, and others in a list of groups",
        client: "GROUP g\r\nSTAT\r\nLIST\r\n",
        server: "200 hi\r\n211 1 3 3 g\r\n223 3 <a@b>\r\n215 list\r\ng 5 1 y\r\n.\r\n",
        choice: NARROW_STRICT,
        verdict: "consistent answers=4 groups=1 numbers=1 articles=1\n",
        given: (THREE, Verified::Permits { answers: 4 }),
        others: &[],
    },
];

/// Hands them out.
pub(super) fn sessions() -> &'static [Session] {
    SESSIONS
}
