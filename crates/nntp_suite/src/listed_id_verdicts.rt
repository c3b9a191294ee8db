//! Verdicts on sessions in which HDR and XHDR of Message-ID are judged (RFC 3977, section 8.5; RFC 2980, section 2.6): those
//! of a checker to which the octets come one by one, and of two sessions of one spool. Where they are opaque, each of these
//! sessions is consistent.
use crate::overview_verdicts::{Pair, Row, expect, expect_opaque, expect_pair};
use nntp_wire::Overviews;
use std::test::Fail;

/// Behind the ids of 1 and 3 of the numbers 1 to 3, number 2 is there.
const SHOWS_2: Row = Row {
    client: "GROUP g\r\nHDR Message-ID 1-3\r\nSTAT 2\r\n",
    server: "200 hi\r\n211 5 1 5 g\r\n225 h\r\n1 <a@x>\r\n3 <c@x>\r\n.\r\n223 2 <b@x>\r\n",
    judged: "bad answer 3 Contradiction\ncommand STAT 2\nanswer 223 2 <b@x>\n",
};

/// Behind the same ids, number 2 isn't there, and 1 has its id.
const DENIES_2: Row = Row {
    client: "GROUP g\r\nXHDR message-id 1-3\r\nSTAT 2\r\nSTAT 1\r\n",
    server: "200 hi\r\n211 5 1 5 g\r\n221 h\r\n1 <a@x>\r\n3 <c@x>\r\n.\r\n423 no\r\n223 1 <a@x>\r\n",
    judged: "consistent answers=5 groups=1 numbers=2 articles=2\n",
};

/// A number has another id than the one that was listed.
const ANOTHER_ID: Row = Row {
    client: "GROUP g\r\nXHDR message-id 1\r\nSTAT 1\r\n",
    server: "200 hi\r\n211 5 1 5 g\r\n221 h\r\n1 <a@x>\r\n.\r\n223 1 <b@x>\r\n",
    judged: "bad answer 3 Contradiction\ncommand STAT 1\nanswer 223 1 <b@x>\n",
};

/// Four ids, where three numbers are there at most.
const TOO_MANY: Row = Row {
    client: "GROUP g\r\nHDR Message-ID 1-4\r\n",
    server: "200 hi\r\n211 3 1 4 g\r\n225 h\r\n1 <a@x>\r\n2 <b@x>\r\n3 <c@x>\r\n4 <d@x>\r\n.\r\n",
    judged: "bad answer 2 Contradiction\ncommand HDR Message-ID 1-4\nanswer 225 h\n",
};

/// HDR lists no id.
const NO_LINE: Row = Row {
    client: "GROUP g\r\nHDR Message-ID 1-5\r\n",
    server: "200 hi\r\n211 5 1 5 g\r\n225 h\r\n.\r\n",
    judged: "bad answer 2 OutOfPlace\ncommand HDR Message-ID 1-5\nanswer 225 h\n",
};

/// XHDR lists none, and then there is one.
const NONE_OF_1: Row = Row {
    client: "GROUP g\r\nXHDR Message-ID 1\r\nSTAT 1\r\n",
    server: "200 hi\r\n211 5 1 5 g\r\n221 h\r\n.\r\n223 1 <a@x>\r\n",
    judged: "bad answer 3 Contradiction\ncommand STAT 1\nanswer 223 1 <a@x>\n",
};

/// HDR of a range without an article is answered as XHDR may be.
const WRONG_FAILURE: Row = Row {
    client: "GROUP g\r\nXHDR Message-ID 2-4\r\nHDR Message-ID 2-4\r\n",
    server: "200 hi\r\n211 5 1 5 g\r\n420 no\r\n420 no\r\n",
    judged: "bad answer 3 OutOfPlace\ncommand HDR Message-ID 2-4\nanswer 420 no\n",
};

/// A TAB between the number and the id.
const TAB: Row = Row {
    client: "GROUP g\r\nHDR Message-ID 1\r\n",
    server: "200 hi\r\n211 5 1 5 g\r\n225 h\r\n1\t<a@x>\r\n.\r\n",
    judged: "bad answer 2 Malformed\ncommand HDR Message-ID 1\nanswer 225 h\n",
};

/// An id without an article is listed.
const DENIED_ID: Row = Row {
    client: "STAT <a@x>\r\nGROUP g\r\nHDR Message-ID 1\r\n",
    server: "200 hi\r\n430 no\r\n211 5 1 5 g\r\n225 h\r\n1 <a@x>\r\n.\r\n",
    judged: "bad answer 3 Contradiction\ncommand HDR Message-ID 1\nanswer 225 h\n",
};

/// HDR, XOVER and a head agree.
const AGREE: Row = Row {
    client: "GROUP g\r\nHDR Message-ID 1-3\r\nXOVER 1-3\r\nHEAD 1\r\n",
    server: "200 hi\r\n211 5 1 5 g\r\n225 h\r\n1 <a@x>\r\n3 <c@x>\r\n.\r\n\
        224 x\r\n1\tone\tf\td\t<a@x>\t\t9\t1\r\n3\ttwo\tf\td\t<c@x>\t\t9\t1\r\n.\r\n\
        221 1 <a@x>\r\nSubject: one\r\nFrom: f\r\nDate: d\r\n.\r\n",
    judged: "consistent answers=5 groups=1 numbers=2 articles=2\n",
};

/// HDR of another header says nothing.
const ANOTHER_HEADER: Row = Row {
    client: "GROUP g\r\nHDR Subject 1-3\r\nSTAT 2\r\n",
    server: "200 hi\r\n211 5 1 5 g\r\n225 h\r\n1 <a@x>\r\n3 <c@x>\r\n.\r\n223 2 <b@x>\r\n",
    judged: "consistent answers=4 groups=1 numbers=1 articles=1\n",
};

const ROWS: [Row; 11] = [
    SHOWS_2,
    DENIES_2,
    ANOTHER_ID,
    TOO_MANY,
    NO_LINE,
    NONE_OF_1,
    WRONG_FAILURE,
    TAB,
    DENIED_ID,
    AGREE,
    ANOTHER_HEADER,
];

#[test]
fn judged_ids_decide(rt: HostRuntime) -> Result<(), Fail> {
    for row in &ROWS {
        expect(rt.alloc(), Overviews::Judged, row, row.judged)?;
    }
    Ok(())
}

#[test]
fn opaque_ids_say_nothing(rt: HostRuntime) -> Result<(), Fail> {
    for row in &ROWS {
        expect(rt.alloc(), Overviews::Opaque, row, "consistent ")?;
        expect_opaque(rt.alloc(), row)?;
    }
    Ok(())
}

/// The ids of numbers 1 and 3.
const LISTS_1_AND_3: Row = Row {
    client: "GROUP g\r\nHDR Message-ID 1-3\r\n",
    server: "200 hi\r\n211 5 1 5 g\r\n225 h\r\n1 <a@x>\r\n3 <c@x>\r\n.\r\n",
    judged: "consistent answers=3 ",
};

/// Number 2 is there.
const HAS_2: Row = Row {
    client: "GROUP g\r\nSTAT 2\r\n",
    server: "200 hi\r\n211 5 1 5 g\r\n223 2 <b@x>\r\n",
    judged: "consistent answers=3 ",
};

/// The id of number 1 is at 7 of another group, where its overview stands too.
const ANOTHER_GROUP: Row = Row {
    client: "GROUP h\r\nXHDR Message-ID 7\r\nXOVER 7\r\n",
    server: "200 hi\r\n211 5 3 9 h\r\n221 h\r\n7 <a@x>\r\n.\r\n224 x\r\n7\tone\tf\td\t<a@x>\r\n.\r\n",
    judged: "consistent answers=4 ",
};

/// There is no article of the id of number 3.
const LACKS_C: Row = Row {
    client: "STAT <c@x>\r\n",
    server: "200 hi\r\n430 no\r\n",
    judged: "consistent answers=2 ",
};

const PAIRS: [Pair; 8] = [
    (
        [
            (Overviews::Judged, LISTS_1_AND_3),
            (Overviews::Judged, HAS_2),
        ],
        "session 1\nbad answer 2 Contradiction\ncommand STAT 2\n",
    ),
    (
        [
            (Overviews::Judged, HAS_2),
            (Overviews::Judged, LISTS_1_AND_3),
        ],
        "session 1\nbad answer 2 Contradiction\ncommand HDR Message-ID 1-3\n",
    ),
    (
        [
            (Overviews::Opaque, LISTS_1_AND_3),
            (Overviews::Judged, HAS_2),
        ],
        "consistent answers=3,3\n",
    ),
    (
        [
            (Overviews::Judged, LISTS_1_AND_3),
            (Overviews::Opaque, HAS_2),
        ],
        "session 1\nbad answer 2 Contradiction\ncommand STAT 2\n",
    ),
    (
        [
            (Overviews::Judged, LISTS_1_AND_3),
            (Overviews::Judged, ANOTHER_GROUP),
        ],
        "consistent answers=3,4\n",
    ),
    (
        [
            (Overviews::Judged, LISTS_1_AND_3),
            (Overviews::Judged, AGREE),
        ],
        "consistent answers=3,5\n",
    ),
    (
        [
            (Overviews::Judged, LACKS_C),
            (Overviews::Judged, LISTS_1_AND_3),
        ],
        "session 1\nbad answer 2 Contradiction\ncommand HDR Message-ID 1-3\n",
    ),
    (
        [
            (Overviews::Judged, LISTS_1_AND_3),
            (Overviews::Judged, LACKS_C),
        ],
        "session 1\nbad answer 1 Contradiction\ncommand STAT <c@x>\n",
    ),
];

#[test]
fn two_sessions_list_ids_of_one_spool(rt: HostRuntime) -> Result<(), Fail> {
    for pair in PAIRS {
        expect_pair(rt.alloc(), pair)?;
    }
    Ok(())
}
