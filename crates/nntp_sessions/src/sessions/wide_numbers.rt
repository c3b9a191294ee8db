//! Article numbers of up to 16 digits, and what a narrow limit makes of them.
use super::Session;
use super::texts::{EMPTY_GROUP, NOTHING};
use crate::choice::{NARROW_LENIENT, WIDE_LENIENT, WIDE_STRICT};
use nntp_spool::Verified;

/// Nothing at all.
const WIDE_NOTHING: &str = "spool 2\nlimit 9999999999999999\nend\n";

/// A group without numbers.
const WIDE_EMPTY_GROUP: &str = "spool 2\nlimit 9999999999999999\ngroup g 0\nend\n";

/// A number that has 32 bits.
const ABOVE_31_BITS: &str =
    "spool 2\nlimit 9999999999999999\ngroup g 1\n2147483648 <a@b>\narticle <a@b> 1 0\n|Message-ID: <a@b>\nend\n";

/// The same number with an invented id.
const ABOVE_31_BITS_INVENTED: &str =
    "spool 2\nlimit 9999999999999999\ngroup g 1\n2147483648 <w0@invented.invalid>\narticle <w0@invented.invalid> 1 0\n|Message-ID: <w0@invented.invalid>\n\
    end\n";

/// The greatest number of 31 bits, and the next one.
const ABOUT_31_BITS: &str =
    "spool 2\nlimit 9999999999999999\ngroup g 2\n2147483647 <a@b>\n2147483648 <w0@invented.invalid>\narticle <a@b> 1 0\n|Message-ID: <a@b>\n\
    article <w0@invented.invalid> 1 0\n|Message-ID: <w0@invented.invalid>\nend\n";

/// The greatest number of 16 digits.
const GREATEST_WIDE: &str =
    "spool 2\nlimit 9999999999999999\ngroup g 1\n9999999999999999 <m@x>\narticle <m@x> 1 0\n|Message-ID: <m@x>\nend\n";

/// The same number and the one before it.
const GREATEST_TWO: &str =
    "spool 2\nlimit 9999999999999999\ngroup g 2\n9999999999999998 <a@b>\n9999999999999999 <m@x>\narticle <a@b> 1 0\n|Message-ID: <a@b>\narticle <m@x> 1 0\n\
    |Message-ID: <m@x>\nend\n";

/// The same number and one of 32 bits.
const TWO_WIDE: &str =
    "spool 2\nlimit 9999999999999999\ngroup g 2\n2147483648 <w0@invented.invalid>\n9999999999999999 <w1@invented.invalid>\narticle <w0@invented.invalid> 1 0\n\
    |Message-ID: <w0@invented.invalid>\narticle <w1@invented.invalid> 1 0\n|Message-ID: <w1@invented.invalid>\nend\n";

/// The least and the greatest number, each with an invented id, and 4 between them.
const BOTH_MARKS_WIDE: &str =
    "spool 2\nlimit 9999999999999999\ngroup g 3\n1 <w0@invented.invalid>\n4 <b@x>\n9999999999999999 <w1@invented.invalid>\narticle <b@x> 1 0\n\
    |Message-ID: <b@x>\narticle <w0@invented.invalid> 1 0\n|Message-ID: <w0@invented.invalid>\narticle <w1@invented.invalid> 1 0\n\
    |Message-ID: <w1@invented.invalid>\nend\n";

const SESSIONS: &[Session] = &[
    Session {
        name: "a number above 31 bits, by a narrow limit",
        client: "GROUP g\r\nSTAT\r\n",
        server: "200 hi\r\n211 1 1 2147483648 g\r\n223 2147483648 <a@b>\r\n",
        choice: NARROW_LENIENT,
        verdict: "bad answer 1 OutOfPlace\ncommand GROUP g\nanswer 211 1 1 2147483648 g\n",
        given: (NOTHING, Verified::Refuses { index: 1 }),
        others: &[(ABOVE_31_BITS, Verified::Permits { answers: 3 })],
    },
    Session {
        name: "a number above 31 bits",
        client: "GROUP g\r\nSTAT\r\n",
        server: "200 hi\r\n211 1 1 2147483648 g\r\n223 2147483648 <a@b>\r\n",
        choice: WIDE_LENIENT,
        verdict: "consistent answers=3 groups=1 numbers=1 articles=1\n",
        given: (ABOVE_31_BITS, Verified::Permits { answers: 3 }),
        others: &[
            (EMPTY_GROUP, Verified::Refuses { index: 1 }),
            (WIDE_EMPTY_GROUP, Verified::Refuses { index: 2 }),
        ],
    },
    Session {
        name: "a number above 31 bits, and marks of 31 bits",
        client: "GROUP g\r\nSTAT\r\n",
        server: "200 hi\r\n211 1 1 2147483647 g\r\n223 2147483648 <a@b>\r\n",
        choice: WIDE_LENIENT,
        verdict: "bad answer 2 Contradiction\ncommand STAT\nanswer 223 2147483648 <a@b>\n",
        given: (WIDE_EMPTY_GROUP, Verified::Refuses { index: 2 }),
        others: &[
            (EMPTY_GROUP, Verified::Refuses { index: 2 }),
            (ABOVE_31_BITS, Verified::Refuses { index: 1 }),
        ],
    },
    Session {
        name: "the greatest number of 16 digits",
        client: "GROUP g\r\nSTAT 9999999999999999\r\nNEXT\r\n",
        server: "200 hi\r\n211 1 9999999999999999 9999999999999999 g\r\n223 9999999999999999 <m@x>\r\n421 end\r\n",
        choice: WIDE_LENIENT,
        verdict: "consistent answers=4 groups=1 numbers=1 articles=1\n",
        given: (GREATEST_WIDE, Verified::Permits { answers: 4 }),
        others: &[],
    },
    Session {
        name: "the greatest number of 16 digits, by a narrow limit",
        client: "GROUP g\r\nSTAT 9999999999999999\r\nNEXT\r\n",
        server: "200 hi\r\n211 1 9999999999999999 9999999999999999 g\r\n223 9999999999999999 <m@x>\r\n421 end\r\n",
        choice: NARROW_LENIENT,
        verdict: "bad answer 1 OutOfPlace\ncommand GROUP g\nanswer 211 1 9999999999999999 9999999999999999 g\n",
        given: (NOTHING, Verified::Refuses { index: 1 }),
        others: &[(GREATEST_WIDE, Verified::Permits { answers: 4 })],
    },
    Session {
        name: "steps about the greatest number of 16 digits",
        client: "GROUP g\r\nSTAT 9999999999999998\r\nNEXT\r\nLAST\r\nSTAT 9999999999999997\r\n",
        server: "200 hi\r\n211 2 9999999999999997 9999999999999999 g\r\n223 9999999999999998 <a@b>\r\n223 9999999999999999 <m@x>\r\n\
            223 9999999999999998 <a@b>\r\n423 no\r\n",
        choice: WIDE_LENIENT,
        verdict: "consistent answers=6 groups=1 numbers=2 articles=2\n",
        given: (GREATEST_TWO, Verified::Permits { answers: 6 }),
        others: &[(GREATEST_WIDE, Verified::Refuses { index: 2 })],
    },
    Session {
        name: "the greatest number of 16 digits is denied, and none is above it",
        client: "GROUP g\r\nSTAT 9999999999999999\r\nLAST\r\n",
        server: "200 hi\r\n211 1 9999999999999999 9999999999999999 g\r\n423 no\r\n422 no\r\n",
        choice: WIDE_LENIENT,
        verdict: "bad answer 3 Contradiction\ncommand LAST\nanswer 422 no\n",
        given: (WIDE_EMPTY_GROUP, Verified::Refuses { index: 3 }),
        others: &[],
    },
    Session {
        name: "a number of seventeen digits in a 211",
        client: "GROUP g\r\n",
        server: "200 hi\r\n211 1 1 10000000000000000 g\r\n",
        choice: WIDE_LENIENT,
        verdict: "bad answer 1 Malformed\ncommand GROUP g\nanswer 211 1 1 10000000000000000 g\n",
        given: (WIDE_NOTHING, Verified::Refuses { index: 1 }),
        others: &[],
    },
    Session {
        name: "a list of groups with a mark above 31 bits",
        client: "LIST\r\n",
        server: "200 hi\r\n215 list\r\ng 9999999999999999 1 y\r\n.\r\n",
        choice: WIDE_LENIENT,
        verdict: "consistent answers=2 groups=1 numbers=0 articles=0\n",
        given: (WIDE_EMPTY_GROUP, Verified::Permits { answers: 2 }),
        others: &[
            (EMPTY_GROUP, Verified::Refuses { index: 1 }),
            (WIDE_NOTHING, Verified::Refuses { index: 1 }),
        ],
    },
    Session {
        name: "a list of groups with a mark above 31 bits, by a narrow limit",
        client: "LIST\r\n",
        server: "200 hi\r\n215 list\r\ng 9999999999999999 1 y\r\n.\r\n",
        choice: NARROW_LENIENT,
        verdict: "bad answer 1 OutOfPlace\ncommand LIST\nanswer 215 list\n",
        given: (NOTHING, Verified::Refuses { index: 1 }),
        others: &[],
    },
    Session {
        name: "a list of numbers above 31 bits",
        client: "LISTGROUP g 2147483648-\r\n",
        server: "200 hi\r\n211 2 1 9999999999999999 g\r\n2147483648\r\n9999999999999999\r\n.\r\n",
        choice: WIDE_LENIENT,
        verdict: "consistent answers=2 groups=1 numbers=2 articles=2\n",
        given: (TWO_WIDE, Verified::Permits { answers: 2 }),
        others: &[(ABOVE_31_BITS, Verified::Refuses { index: 1 })],
    },
    Session {
        name: "a number of 31 bits is denied by a wide limit, and the next one is needed",
        client: "GROUP g\r\nSTAT 2147483647\r\nLAST\r\n",
        server: "200 hi\r\n211 1 2147483647 2147483648 g\r\n423 no\r\n422 no\r\n",
        choice: WIDE_LENIENT,
        verdict: "consistent answers=4 groups=1 numbers=1 articles=1\n",
        given: (ABOVE_31_BITS_INVENTED, Verified::Permits { answers: 4 }),
        others: &[],
    },
    Session {
        name: "strict marks about 31 bits",
        client: "GROUP g\r\nSTAT\r\n",
        server: "200 hi\r\n211 2 2147483647 2147483648 g\r\n223 2147483647 <a@b>\r\n",
        choice: WIDE_STRICT,
        verdict: "consistent answers=3 groups=1 numbers=2 articles=2\n",
        given: (ABOUT_31_BITS, Verified::Permits { answers: 3 }),
        others: &[(ABOVE_31_BITS, Verified::Refuses { index: 1 })],
    },
    Session {
        name: "strict marks up to 16 digits",
        client: "GROUP g\r\nNEXT\r\n",
        server: "200 hi\r\n211 3 1 9999999999999999 g\r\n223 4 <b@x>\r\n",
        choice: WIDE_STRICT,
        verdict: "consistent answers=3 groups=1 numbers=3 articles=3\n",
        given: (BOTH_MARKS_WIDE, Verified::Permits { answers: 3 }),
        others: &[(WIDE_EMPTY_GROUP, Verified::Refuses { index: 2 })],
    },
    Session {
        name: "strict marks up to 16 digits, and no article behind the first",
        client: "GROUP g\r\nNEXT\r\n",
        server: "200 hi\r\n211 1 1 9999999999999999 g\r\n421 no\r\n",
        choice: WIDE_STRICT,
        verdict: "bad answer 2 Contradiction\ncommand NEXT\nanswer 421 no\n",
        given: (WIDE_EMPTY_GROUP, Verified::Refuses { index: 2 }),
        others: &[],
    },
];

/// Hands them out.
pub(super) fn sessions() -> &'static [Session] {
    SESSIONS
}
