//! Two sessions that no spool explains together.
use super::{Alone, SessionPair};
use crate::sessions::texts::{
    EMPTY_GROUP, FOUR, ID_ALONE, NOTHING, ONE, OTHER_GROUP, SUBJECT_AND_TEXT, THREE, TWO_NUMBERS,
};

pub(crate) const PAIRS: [SessionPair; 11] = [
    SessionPair {
        name: "a number is shown, and denied",
        one: Alone {
            client: "GROUP g\r\nSTAT 4\r\n",
            server: "200 hi\r\n211 2 1 5 g\r\n223 4 <b@x>\r\n",
            given: (FOUR, 3),
            behind: (2, "STAT 4", "223 4 <b@x>"),
        },
        other: Alone {
            client: "GROUP g\r\nSTAT 4\r\n",
            server: "200 hi\r\n211 2 1 5 g\r\n423 no\r\n",
            given: (EMPTY_GROUP, 3),
            behind: (2, "STAT 4", "423 no"),
        },
    },
    SessionPair {
        name: "a number is shown, and above the high mark",
        one: Alone {
            client: "GROUP g\r\nSTAT 4\r\n",
            server: "200 hi\r\n211 2 1 5 g\r\n223 4 <b@x>\r\n",
            given: (FOUR, 3),
            behind: (2, "STAT 4", "223 4 <b@x>"),
        },
        other: Alone {
            client: "GROUP g\r\n",
            server: "200 hi\r\n211 2 1 3 g\r\n",
            given: (EMPTY_GROUP, 2),
            behind: (1, "GROUP g", "211 2 1 3 g"),
        },
    },
    SessionPair {
        name: "a group is there, and there is no such group",
        one: Alone {
            client: "GROUP g\r\n",
            server: "200 hi\r\n211 0 1 0 g\r\n",
            given: (EMPTY_GROUP, 2),
            behind: (1, "GROUP g", "211 0 1 0 g"),
        },
        other: Alone {
            client: "GROUP g\r\n",
            server: "200 hi\r\n411 no\r\n",
            given: (NOTHING, 2),
            behind: (1, "GROUP g", "411 no"),
        },
    },
    SessionPair {
        name: "a group is there, and isn't listed",
        one: Alone {
            client: "GROUP g\r\n",
            server: "200 hi\r\n211 0 1 0 g\r\n",
            given: (EMPTY_GROUP, 2),
            behind: (1, "GROUP g", "211 0 1 0 g"),
        },
        other: Alone {
            client: "LIST ACTIVE\r\n",
            server: "200 hi\r\n215 list\r\nh 0 1 y\r\n.\r\n",
            given: (OTHER_GROUP, 2),
            behind: (1, "LIST ACTIVE", "215 list"),
        },
    },
    SessionPair {
        name: "two ids at one number",
        one: Alone {
            client: "GROUP g\r\nSTAT 1\r\n",
            server: "200 hi\r\n211 2 1 5 g\r\n223 1 <a@b>\r\n",
            given: (ONE, 3),
            behind: (2, "STAT 1", "223 1 <a@b>"),
        },
        other: Alone {
            client: "GROUP g\r\nSTAT 1\r\n",
            server: "200 hi\r\n211 2 1 5 g\r\n223 1 <b@x>\r\n",
            given: (
                "spool 1\ngroup g 1\n1 <b@x>\narticle <b@x> 1 0\n|Message-ID: <b@x>\nend\n",
                3,
            ),
            behind: (2, "STAT 1", "223 1 <b@x>"),
        },
    },
    SessionPair {
        name: "one id at two numbers of a group",
        one: Alone {
            client: "GROUP g\r\nSTAT 1\r\n",
            server: "200 hi\r\n211 2 1 5 g\r\n223 1 <a@b>\r\n",
            given: (ONE, 3),
            behind: (2, "STAT 1", "223 1 <a@b>"),
        },
        other: Alone {
            client: "GROUP g\r\nSTAT <a@b>\r\n",
            server: "200 hi\r\n211 2 1 5 g\r\n223 3 <a@b>\r\n",
            given: (THREE, 3),
            behind: (2, "STAT <a@b>", "223 3 <a@b>"),
        },
    },
    SessionPair {
        name: "an estimate of one, and a number in each session",
        one: Alone {
            client: "GROUP g\r\nSTAT 1\r\n",
            server: "200 hi\r\n211 1 1 5 g\r\n223 1 <a@b>\r\n",
            given: (ONE, 3),
            behind: (2, "STAT 1", "223 1 <a@b>"),
        },
        other: Alone {
            client: "GROUP g\r\nSTAT 2\r\n",
            server: "200 hi\r\n211 1 1 5 g\r\n223 2 <b@x>\r\n",
            given: (
                "spool 1\ngroup g 1\n2 <b@x>\narticle <b@x> 1 0\n|Message-ID: <b@x>\nend\n",
                3,
            ),
            behind: (2, "STAT 2", "223 2 <b@x>"),
        },
    },
    SessionPair {
        name: "a step from the first number to 4, and two numbers below 4",
        one: Alone {
            client: "GROUP g\r\nNEXT\r\n",
            server: "200 hi\r\n211 3 1 5 g\r\n223 4 <b@x>\r\n",
            given: (TWO_NUMBERS, 3),
            behind: (2, "NEXT", "223 4 <b@x>"),
        },
        other: Alone {
            client: "LISTGROUP g 1-3\r\n",
            server: "200 hi\r\n211 3 1 5 g\r\n2\r\n3\r\n.\r\n",
            given: (
                "spool 1\ngroup g 2\n2 <w0@invented.invalid>\n3 <w1@invented.invalid>\narticle <w0@invented.invalid> 1 0\n|Message-ID: <w0@invented.invalid>\n\
                article <w1@invented.invalid> 1 0\n|Message-ID: <w1@invented.invalid>\nend\n",
                2,
            ),
            behind: (1, "LISTGROUP g 1-3", "211 3 1 5 g"),
        },
    },
    SessionPair {
        name: "an article is there, and there is no such article",
        one: Alone {
            client: "STAT <a@b>\r\n",
            server: "200 hi\r\n223 0 <a@b>\r\n",
            given: (ID_ALONE, 2),
            behind: (1, "STAT <a@b>", "223 0 <a@b>"),
        },
        other: Alone {
            client: "STAT <a@b>\r\n",
            server: "200 hi\r\n430 no\r\n",
            given: (NOTHING, 2),
            behind: (1, "STAT <a@b>", "430 no"),
        },
    },
    SessionPair {
        name: "two heads of one article",
        one: Alone {
            client: "ARTICLE <a@b>\r\n",
            server: "200 hi\r\n220 0 <a@b>\r\nSubject: one\r\n\r\ntext\r\n.\r\n",
            given: (SUBJECT_AND_TEXT, 2),
            behind: (1, "ARTICLE <a@b>", "220 0 <a@b>"),
        },
        other: Alone {
            client: "HEAD <a@b>\r\n",
            server: "200 hi\r\n221 0 <a@b>\r\nSubject: two\r\n.\r\n",
            given: ("spool 1\narticle <a@b> 1 0\n|Subject: two\nend\n", 2),
            behind: (1, "HEAD <a@b>", "221 0 <a@b>"),
        },
    },
    SessionPair {
        name: "two bodies of one article",
        one: Alone {
            client: "BODY <a@b>\r\n",
            server: "200 hi\r\n222 0 <a@b>\r\none\r\n.\r\n",
            given: (
                "spool 1\narticle <a@b> 1 1\n|Message-ID: <a@b>\n|one\nend\n",
                2,
            ),
            behind: (1, "BODY <a@b>", "222 0 <a@b>"),
        },
        other: Alone {
            client: "BODY <a@b>\r\n",
            server: "200 hi\r\n222 0 <a@b>\r\ntwo\r\n.\r\n",
            given: (
                "spool 1\narticle <a@b> 1 1\n|Message-ID: <a@b>\n|two\nend\n",
                2,
            ),
            behind: (1, "BODY <a@b>", "222 0 <a@b>"),
        },
    },
];
