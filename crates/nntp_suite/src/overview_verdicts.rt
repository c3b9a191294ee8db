//! Verdicts on sessions in which OVER and XOVER are judged (RFC 3977, section 8.3; RFC 2980, section 2.8): those of a
//! checker to which the octets come one by one, of lists of sessions, and of the spools that are given. Where they are
//! opaque, each of these sessions is consistent.
use nntp_fixtures::{
    checked_sessions, checked_taking, checker_taking, expect_front, expect_octets, expect_verified,
    finished, recorded_taking, verified_sessions,
};
use nntp_sessions::{NARROW_LENIENT, spool_text};
use nntp_spool::{Verified, verify, verify_taking};
use nntp_verdict::{Checker, Verdict, check};
use nntp_wire::Overviews;
use std::alloc::Global;
use std::test::Fail;

/// A session: both streams, and how the report on it begins, where overviews are judged.
#[derive(Clone, Copy)]
pub(crate) struct Row {
    pub(crate) client: &'static str,
    pub(crate) server: &'static str,
    pub(crate) judged: &'static str,
}

/// Behind overviews of 1 and 3 of the numbers 1 to 3, number 2 is there.
const SHOWS_2: Row = Row {
    client: "GROUP g\r\nXOVER 1-3\r\nSTAT 2\r\n",
    server: "200 hi\r\n211 5 1 5 g\r\n\
        224 x\r\n1\ts\tf\td\t<a@x>\tr\t9\t1\r\n3\ts\tf\td\t<c@x>\tr\t9\t1\r\n.\r\n223 2 <b@x>\r\n",
    judged: "bad answer 3 Contradiction\ncommand STAT 2\nanswer 223 2 <b@x>\n",
};

/// Behind the same overviews, number 2 isn't there, and 1 has the id of its overview.
const DENIES_2: Row = Row {
    client: "GROUP g\r\nXOVER 1-3\r\nSTAT 2\r\nSTAT 1\r\n",
    server: "200 hi\r\n211 5 1 5 g\r\n\
        224 x\r\n1\ts\tf\td\t<a@x>\tr\t9\t1\r\n3\ts\tf\td\t<c@x>\tr\t9\t1\r\n.\r\n423 no\r\n223 1 <a@x>\r\n",
    judged: "consistent answers=5 groups=1 ",
};

/// OVER of a range has no overview.
const NO_LINE: Row = Row {
    client: "GROUP g\r\nOVER 1-5\r\n",
    server: "200 hi\r\n211 5 1 5 g\r\n224 x\r\n.\r\n",
    judged: "bad answer 2 OutOfPlace\ncommand OVER 1-5\nanswer 224 x\n",
};

/// A number has another id than that of its overview.
const ANOTHER_ID: Row = Row {
    client: "GROUP g\r\nXOVER 1\r\nSTAT 1\r\n",
    server: "200 hi\r\n211 5 1 5 g\r\n224 x\r\n1\ts\tf\td\t<a@x>\tr\t9\t1\r\n.\r\n223 1 <b@x>\r\n",
    judged: "bad answer 3 Contradiction\ncommand STAT 1\nanswer 223 1 <b@x>\n",
};

/// An overview tells four headers of number 1.
const TELLS_1: Row = Row {
    client: "GROUP g\r\nXOVER 1\r\n",
    server: "200 hi\r\n211 5 1 5 g\r\n\
        224 x\r\n1\tone\t\"A\" <f@x>\td\t<a@x>\t<r@x>  <q@x>\t9\t1\r\n.\r\n",
    judged: "consistent answers=3 groups=1 ",
};

/// A head tells the same of the article of number 1.
const SENDS_SAME: Row = Row {
    client: "GROUP g\r\nHEAD 1\r\n",
    server: "200 hi\r\n211 5 1 5 g\r\n221 1 <a@x>\r\n\
        Subject: one\r\nFrom: \"A\" <f@x>\r\nDate: d\r\nreferences: <r@x>\r\n\t<q@x>\r\n.\r\n",
    judged: "consistent answers=3 groups=1 ",
};

/// A head tells another From of it.
const SENDS_OTHER: Row = Row {
    client: "GROUP g\r\nHEAD 1\r\n",
    server: "200 hi\r\n211 5 1 5 g\r\n221 1 <a@x>\r\n\
        Subject: one\r\nFrom: A <f@x>\r\nDate: d\r\nReferences: <r@x> <q@x>\r\n.\r\n",
    judged: "consistent answers=3 groups=1 ",
};

/// The overview of number 7 of another group tells another Subject of it.
const TELLS_OTHER: Row = Row {
    client: "GROUP h\r\nXOVER 7\r\n",
    server: "200 hi\r\n211 5 3 9 h\r\n\
        224 x\r\n7\ttwo\t\"A\" <f@x>\td\t<a@x>\t<r@x> <q@x>\t9\t1\r\n.\r\n",
    judged: "consistent answers=3 groups=1 ",
};

/// Behind an overview, a head tells the same.
const SAME_HEAD: Row = Row {
    client: "GROUP g\r\nXOVER 1\r\nHEAD 1\r\nBODY 1\r\n",
    server: "200 hi\r\n211 5 1 5 g\r\n\
        224 x\r\n1\tone\tf\td\t<a@x>\t<r@x>  <q@x>\t40\t7\tXref: x g:1\r\n.\r\n221 1 <a@x>\r\n\
        Subject: one\r\nFrom: f\r\nDate: d\r\nreferences: <r@x>\r\n\t<q@x>\r\nSubject: two\r\nXref: y g:2\r\n.\r\n\
        222 1 <a@x>\r\nSubject: two\r\n.\r\n",
    judged: "consistent answers=5 groups=1 ",
};

/// Behind an overview that ends before the References, an article has some.
const OTHER_HEAD: Row = Row {
    client: "GROUP g\r\nXOVER 1\r\nARTICLE 1\r\n",
    server: "200 hi\r\n211 5 1 5 g\r\n224 x\r\n1\tone\tf\td\t<a@x>\r\n.\r\n220 1 <a@x>\r\n\
        Subject: one\r\nFrom: f\r\nDate: d\r\nReferences: <r@x>\r\n\r\n.\r\n",
    judged: "bad answer 3 Contradiction\ncommand ARTICLE 1\nanswer 220 1 <a@x>\n",
};

/// Behind a head, the overview by its id tells another Date.
const OTHER_OVERVIEW: Row = Row {
    client: "HEAD <a@x>\r\nOVER <a@x>\r\n",
    server: "200 hi\r\n221 0 <a@x>\r\nSubject: one\r\nFrom: f\r\nDate: d\r\n.\r\n\
        224 x\r\n0\tone\tf\te\t<a@x>\t\t9\t1\r\n.\r\n",
    judged: "bad answer 2 Contradiction\ncommand OVER <a@x>\nanswer 224 x\n",
};

const ROWS: [Row; 11] = [
    SHOWS_2,
    DENIES_2,
    NO_LINE,
    ANOTHER_ID,
    TELLS_1,
    SENDS_SAME,
    SENDS_OTHER,
    TELLS_OTHER,
    SAME_HEAD,
    OTHER_HEAD,
    OTHER_OVERVIEW,
];

/// Gives both streams octet by octet, the server's first.
fn feed_octets(checker: &mut Checker, row: &Row) -> Result<(), Fail> {
    for octet in row.server.as_bytes() {
        checker.feed_server(&[*octet])?;
    }
    for octet in row.client.as_bytes() {
        checker.feed_client(&[*octet])?;
    }
    Ok(())
}

/// A checker that takes overviews so, to which a session came octet by octet.
fn fed(alloc: Global, overviews: Overviews, row: &Row) -> Result<Checker, Fail> {
    let mut checker = checker_taking(NARROW_LENIENT, alloc, overviews);
    feed_octets(&mut checker, row)?;
    Ok(checker)
}

/// Where a verdict is a yes, the given spool permits the session.
fn expect_permitted(
    alloc: Global,
    overviews: Overviews,
    row: &Row,
    verdict: &Verdict,
) -> Result<(), Fail> {
    let Verdict::Consistent { spool, answers } = verdict else {
        return Ok(());
    };
    let (client, server) = (row.client.as_bytes(), row.server.as_bytes());
    let verified = verify_taking(
        alloc,
        NARROW_LENIENT.marks,
        spool,
        overviews,
        client,
        server,
    )?;
    expect_verified(
        row.client,
        verified,
        Verified::Permits { answers: *answers },
    )
}

/// A checker that takes overviews so reports so, and permits the session by the spool that it gives.
pub(crate) fn expect(
    alloc: Global,
    overviews: Overviews,
    row: &Row,
    front: &str,
) -> Result<(), Fail> {
    let report = finished(alloc, fed(alloc, overviews, row)?)?;
    expect_front(row.client, &report, front)?;
    let verdict = fed(alloc, overviews, row)?.finish()?;
    expect_permitted(alloc, overviews, row, &verdict)
}

#[test]
fn judged_overviews_decide(rt: HostRuntime) -> Result<(), Fail> {
    for row in &ROWS {
        expect(rt.alloc(), Overviews::Judged, row, row.judged)?;
    }
    Ok(())
}

#[test]
fn opaque_overviews_say_nothing(rt: HostRuntime) -> Result<(), Fail> {
    for row in &ROWS {
        expect(rt.alloc(), Overviews::Opaque, row, "consistent ")?;
    }
    Ok(())
}

/// `check` and `verify` take them as opaque: a session is consistent, and its spool permits it.
pub(crate) fn expect_opaque(alloc: Global, row: &Row) -> Result<(), Fail> {
    let (client, server) = (row.client.as_bytes(), row.server.as_bytes());
    let (limit, marks) = (NARROW_LENIENT.limit, NARROW_LENIENT.marks);
    let verdict = check(alloc, limit, marks, client, server)?;
    let Verdict::Consistent { spool, answers } = &verdict else {
        return Err(Fail::new(format_args!("{} is bad", row.client)));
    };
    let verified = verify(alloc, marks, spool, client, server)?;
    expect_verified(
        row.client,
        verified,
        Verified::Permits { answers: *answers },
    )
}

#[test]
fn the_calls_of_one_session_take_them_as_opaque(rt: HostRuntime) -> Result<(), Fail> {
    for row in &ROWS {
        expect_opaque(rt.alloc(), row)?;
    }
    Ok(())
}

/// Two sessions, each with how overviews are taken in it, and how the report on them begins.
pub(crate) type Pair = ([(Overviews, Row); 2], &'static str);

const PAIRS: [Pair; 10] = [
    (
        [(Overviews::Opaque, SHOWS_2), (Overviews::Judged, DENIES_2)],
        "session 1\nbad answer 2 Contradiction\n",
    ),
    (
        [(Overviews::Opaque, SHOWS_2), (Overviews::Opaque, DENIES_2)],
        "session 1\nbad answer 3 Contradiction\n",
    ),
    (
        [(Overviews::Judged, DENIES_2), (Overviews::Opaque, NO_LINE)],
        "consistent answers=5,3\n",
    ),
    (
        [(Overviews::Judged, DENIES_2), (Overviews::Judged, NO_LINE)],
        "session 1\nbad answer 2 OutOfPlace\n",
    ),
    (
        [
            (Overviews::Judged, TELLS_1),
            (Overviews::Judged, SENDS_SAME),
        ],
        "consistent answers=3,3\n",
    ),
    (
        [
            (Overviews::Judged, TELLS_1),
            (Overviews::Judged, SENDS_OTHER),
        ],
        "session 1\nbad answer 2 Contradiction\ncommand HEAD 1\n",
    ),
    (
        [
            (Overviews::Judged, TELLS_1),
            (Overviews::Opaque, SENDS_OTHER),
        ],
        "session 1\nbad answer 2 Contradiction\ncommand HEAD 1\n",
    ),
    (
        [
            (Overviews::Opaque, TELLS_1),
            (Overviews::Judged, SENDS_OTHER),
        ],
        "consistent answers=3,3\n",
    ),
    (
        [
            (Overviews::Judged, SENDS_OTHER),
            (Overviews::Judged, TELLS_1),
        ],
        "session 1\nbad answer 2 Contradiction\ncommand XOVER 1\n",
    ),
    (
        [
            (Overviews::Judged, TELLS_1),
            (Overviews::Judged, TELLS_OTHER),
        ],
        "session 1\nbad answer 2 Contradiction\ncommand XOVER 7\n",
    ),
];

/// A list of sessions is judged each by its own choice; and where they have one choice, so by a checker.
pub(crate) fn expect_pair(alloc: Global, ([first, second], front): Pair) -> Result<(), Fail> {
    let sessions = [
        recorded_taking(first.0, (first.1.client, first.1.server)),
        recorded_taking(second.0, (second.1.client, second.1.server)),
    ];
    let report = checked_sessions(alloc, NARROW_LENIENT, &sessions)?;
    expect_front(second.1.client, &report, front)?;
    if first.0 != second.0 {
        return Ok(());
    }
    let checked = checked_taking(alloc, NARROW_LENIENT, first.0, &sessions)?;
    expect_octets(second.1.client, &checked, &report)
}

#[test]
fn each_session_says_how_they_are_taken(rt: HostRuntime) -> Result<(), Fail> {
    for pair in PAIRS {
        expect_pair(rt.alloc(), pair)?;
    }
    Ok(())
}

/// The text of the spool that `check` gives for a session.
fn given(alloc: Global, row: &Row) -> Result<Vec<u8>, Fail> {
    let (client, server) = (row.client.as_bytes(), row.server.as_bytes());
    let (limit, marks) = (NARROW_LENIENT.limit, NARROW_LENIENT.marks);
    match check(alloc, limit, marks, client, server)? {
        Verdict::Consistent { spool, .. } => Ok(spool_text(alloc, &spool)?),
        Verdict::Bad { .. } => Err(Fail::new(format_args!("{} is bad", row.client))),
    }
}

/// The same session twice, where overviews are opaque and then so: what `verify_sessions` answers of a spool that
/// has number 2 alone.
fn expect_verified_twice(alloc: Global, overviews: Overviews, wanted: &str) -> Result<(), Fail> {
    let streams = (SHOWS_2.client, SHOWS_2.server);
    let sessions = [
        recorded_taking(Overviews::Opaque, streams),
        recorded_taking(overviews, streams),
    ];
    let text = given(alloc, &SHOWS_2)?;
    let verified = verified_sessions(alloc, NARROW_LENIENT.marks, &text, &sessions)?;
    expect_octets(wanted, verified.as_bytes(), wanted.as_bytes())
}

#[test]
fn each_session_is_verified_by_its_choice(rt: HostRuntime) -> Result<(), Fail> {
    expect_verified_twice(rt.alloc(), Overviews::Opaque, "permits answers=4,4\n")?;
    expect_verified_twice(
        rt.alloc(),
        Overviews::Judged,
        "session 1\nrefuses answer 2\n",
    )
}
