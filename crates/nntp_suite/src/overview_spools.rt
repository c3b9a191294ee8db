//! Spools where overviews are judged: those that are given for what overviews tell of headers, and for ids of which nothing
//! else is told, as texts, and which ones permit it (RFC 3977, sections 8.3.2 and 8.5).
use nntp_fixtures::{checked_taking, expect_octets, expect_verified, recorded_taking};
use nntp_sessions::NARROW_LENIENT;
use nntp_spool::{Spool, Verified, verify_taking};
use nntp_wire::Overviews;
use std::alloc::Global;
use std::test::Fail;

/// A session: both streams, how many answers there are, and the text of the spool that is given for it.
#[derive(Clone, Copy)]
struct Row {
    client: &'static str,
    server: &'static str,
    answers: u64,
    text: &'static str,
}

/// Overviews of a range, with several SP between words, without some of the headers, or with none.
const RANGE: Row = Row {
    client: "GROUP g\r\nXOVER 1-3\r\n",
    server: "200 hi\r\n211 5 1 5 g\r\n224 x\r\n\
        1\t Re:  a  b \t\"A\" <f@x>\t\t<a@x>\t<r@x>  <q@x>\t9\t1\tXref: x g:1\r\n\
        2\t\t \tMon, 2 Jan\t<b@x>\r\n\
        3\t\t\t\t<c@x>\t\t\t\r\n.\r\n",
    answers: 3,
    text: "spool 1\ngroup g 3\n1 <a@x>\n2 <b@x>\n3 <c@x>\n\
        article <a@x> 4 0\n|Message-ID: <a@x>\n|Subject: Re: a b\n|From: \"A\" <f@x>\n|References: <r@x> <q@x>\n\
        article <b@x> 2 0\n|Message-ID: <b@x>\n|Date: Mon, 2 Jan\n\
        article <c@x> 1 0\n|Message-ID: <c@x>\nend\n",
};

/// The same with a head that is sent of one article, and a body of another.
const SENT: Row = Row {
    client: "GROUP g\r\nXOVER 1-2\r\nHEAD 1\r\nBODY 2\r\n",
    server: "200 hi\r\n211 5 1 5 g\r\n224 x\r\n1\tone\tf\td\t<a@x>\t<r@x>  <q@x>\r\n2\ttwo\tf\td\t<b@x>\r\n.\r\n\
        221 1 <a@x>\r\nDate: d\r\nSubject:  one\r\nFrom:f\r\nreferences: <r@x>\r\n\t<q@x>\r\n.\r\n\
        222 2 <b@x>\r\nSubject: three\r\n.\r\n",
    answers: 5,
    text: "spool 1\ngroup g 2\n1 <a@x>\n2 <b@x>\n\
        article <a@x> 5 0\n|Date: d\n|Subject:  one\n|From:f\n|references: <r@x>\n|\t<q@x>\n\
        article <b@x> 4 1\n|Message-ID: <b@x>\n|Subject: two\n|From: f\n|Date: d\n|Subject: three\nend\n",
};

/// Overviews of an article that has no number, and of the current article; of another one there is no overview.
const SINGLE: Row = Row {
    client: "OVER <b@x>\r\nGROUP g\r\nOVER\r\nSTAT 4\r\n",
    server: "200 hi\r\n224 x\r\n0\t\tf\t\t<b@x>\t<r@x>\t9\t1\r\n.\r\n211 5 1 5 g\r\n\
        224 x\r\n3\tone\t\td\t<a@x>\t\t9\t1\r\n.\r\n223 4 <c@x>\r\n",
    answers: 5,
    text: "spool 1\ngroup g 2\n3 <a@x>\n4 <c@x>\n\
        article <a@x> 3 0\n|Message-ID: <a@x>\n|Subject: one\n|Date: d\n\
        article <b@x> 3 0\n|Message-ID: <b@x>\n|From: f\n|References: <r@x>\n\
        article <c@x> 1 0\n|Message-ID: <c@x>\nend\n",
};

/// The ids of ranges, of whose articles nothing is told.
const IDS: Row = Row {
    client: "GROUP g\r\nHDR Message-ID 1-3\r\nXHDR Message-ID 4\r\n",
    server: "200 hi\r\n211 5 1 5 g\r\n225 h\r\n1 <a@x>\r\n3 <c@x>\r\n.\r\n221 h\r\n4 <b@x>\r\n.\r\n",
    answers: 4,
    text: "spool 1\ngroup g 3\n1 <a@x>\n3 <c@x>\n4 <b@x>\n\
        article <a@x> 1 0\n|Message-ID: <a@x>\narticle <b@x> 1 0\n|Message-ID: <b@x>\n\
        article <c@x> 1 0\n|Message-ID: <c@x>\nend\n",
};

/// The ids of a range, and then an overview of one of these articles, once more its id, and a head of another one.
const BOTH: Row = Row {
    client: "GROUP g\r\nHDR Message-ID 1-4\r\nXOVER 1-2\r\nXHDR Message-ID 1\r\nHEAD 3\r\n",
    server: "200 hi\r\n211 5 1 5 g\r\n225 h\r\n1 <a@x>\r\n3 <c@x>\r\n4 <d@x>\r\n.\r\n\
        224 x\r\n1\tone  more\tf\t\t<a@x>\t<r@x>\t9\t1\r\n.\r\n221 h\r\n1 <a@x>\r\n.\r\n\
        221 3 <c@x>\r\nSubject: two\r\n.\r\n",
    answers: 6,
    text: "spool 1\ngroup g 3\n1 <a@x>\n3 <c@x>\n4 <d@x>\n\
        article <a@x> 4 0\n|Message-ID: <a@x>\n|Subject: one more\n|From: f\n|References: <r@x>\n\
        article <c@x> 1 0\n|Subject: two\narticle <d@x> 1 0\n|Message-ID: <d@x>\nend\n",
};

const ROWS: [Row; 5] = [RANGE, SENT, SINGLE, IDS, BOTH];

/// A checker gives the spool of this text for the session.
fn expect_given(alloc: Global, row: &Row) -> Result<(), Fail> {
    let sessions = [recorded_taking(Overviews::Judged, (row.client, row.server))];
    let report = checked_taking(alloc, NARROW_LENIENT, Overviews::Judged, &sessions)?;
    let wanted = format!(in alloc; "consistent answers={}\n{}", row.answers, row.text)?;
    expect_octets(row.client, &report, wanted.as_bytes())
}

#[test]
fn given_spools_tell_what_overviews_tell(rt: HostRuntime) -> Result<(), Fail> {
    for row in &ROWS {
        expect_given(rt.alloc(), row)?;
    }
    Ok(())
}

/// What `verify_taking` answers of the spool of this text.
fn expect_answer(
    alloc: Global,
    overviews: Overviews,
    (client, server): (&str, &str),
    text: &str,
    wanted: Verified,
) -> Result<(), Fail> {
    let spool = Spool::read(alloc, text.as_bytes())?;
    let (asked, answers) = (client.as_bytes(), server.as_bytes());
    let marks = NARROW_LENIENT.marks;
    let verified = verify_taking(alloc, marks, &spool, overviews, asked, answers)?;
    expect_verified(text, verified, wanted)
}

#[test]
fn given_spools_permit_what_overviews_tell(rt: HostRuntime) -> Result<(), Fail> {
    for Row {
        client,
        server,
        answers,
        text,
    } in ROWS {
        let wanted = Verified::Permits { answers };
        expect_answer(
            rt.alloc(),
            Overviews::Judged,
            (client, server),
            text,
            wanted,
        )?;
    }
    Ok(())
}

/// An overview of number 1.
const TELLS_1: (&str, &str) = (
    "GROUP g\r\nXOVER 1\r\n",
    "200 hi\r\n211 5 1 5 g\r\n224 x\r\n1\tone\tf\td\t<a@x>\t<r@x>  <q@x>\t9\t1\r\n.\r\n",
);

/// Spools of a number 1 that are put to it.
const PUT: [(Overviews, &str, Verified); 6] = [
    (
        Overviews::Judged,
        "spool 1\ngroup g 1\n1 <a@x>\narticle <a@x> 7 0\n\
        |X: y\n|SUBJECT:one\n|From: \tf\n|Date: d\n|Subject: two\n|References: <r@x>\n| <q@x>\nend\n",
        Verified::Permits { answers: 3 },
    ),
    (
        Overviews::Judged,
        "spool 1\ngroup g 1\n1 <a@x>\narticle <a@x> 4 0\n\
        |Subject: two\n|From: f\n|Date: d\n|References: <r@x> <q@x>\nend\n",
        Verified::Refuses { index: 2 },
    ),
    (
        Overviews::Judged,
        "spool 1\ngroup g 1\n1 <a@x>\narticle <a@x> 5 0\n\
        |Subject: two\n|Subject: one\n|From: f\n|Date: d\n|References: <r@x> <q@x>\nend\n",
        Verified::Refuses { index: 2 },
    ),
    (
        Overviews::Judged,
        "spool 1\ngroup g 1\n1 <a@x>\narticle <a@x> 5 0\n\
        |Subject: one\n|From: f\n|Date: d\n|References: <r@x>\n|X: <q@x>\nend\n",
        Verified::Refuses { index: 2 },
    ),
    (
        Overviews::Judged,
        "spool 1\ngroup g 1\n1 <a@x>\narticle <a@x> 3 1\n\
        |Subject: one\n|From: f\n|Date: d\n|References: <r@x> <q@x>\nend\n",
        Verified::Refuses { index: 2 },
    ),
    (
        Overviews::Opaque,
        "spool 1\ngroup g 1\n1 <a@x>\narticle <a@x> 1 0\n|Subject: two\nend\n",
        Verified::Permits { answers: 3 },
    ),
];

#[test]
fn spools_that_are_put_to_an_overview(rt: HostRuntime) -> Result<(), Fail> {
    for (overviews, text, wanted) in PUT {
        expect_answer(rt.alloc(), overviews, TELLS_1, text, wanted)?;
    }
    Ok(())
}

/// The ids of the numbers 1 to 3.
const LISTS_1_AND_3: (&str, &str) = (
    "GROUP g\r\nHDR Message-ID 1-3\r\n",
    "200 hi\r\n211 5 1 5 g\r\n225 h\r\n1 <a@x>\r\n3 <c@x>\r\n.\r\n",
);

/// Spools that are put to it: whatever heads there are, with another number outside the range; with one more number in it;
/// without one; and with the ids in each other's place.
const PUT_TO_IDS: [(Overviews, &str, Verified); 5] = [
    (
        Overviews::Judged,
        "spool 1\ngroup g 3\n1 <a@x>\n3 <c@x>\n5 <b@x>\narticle <a@x> 2 1\n|Subject: one\n|From: f\n|body\n\
        article <b@x> 1 0\n|X: y\narticle <c@x> 1 0\n|Message-ID: <c@x>\nend\n",
        Verified::Permits { answers: 3 },
    ),
    (
        Overviews::Judged,
        "spool 1\ngroup g 3\n1 <a@x>\n2 <b@x>\n3 <c@x>\narticle <a@x> 1 0\n|X: y\narticle <b@x> 1 0\n|X: y\n\
        article <c@x> 1 0\n|X: y\nend\n",
        Verified::Refuses { index: 2 },
    ),
    (
        Overviews::Judged,
        "spool 1\ngroup g 1\n1 <a@x>\narticle <a@x> 1 0\n|X: y\narticle <c@x> 1 0\n|X: y\nend\n",
        Verified::Refuses { index: 2 },
    ),
    (
        Overviews::Judged,
        "spool 1\ngroup g 2\n1 <c@x>\n3 <a@x>\narticle <a@x> 1 0\n|X: y\narticle <c@x> 1 0\n|X: y\nend\n",
        Verified::Refuses { index: 2 },
    ),
    (
        Overviews::Opaque,
        "spool 1\ngroup g 2\n1 <c@x>\n3 <a@x>\narticle <a@x> 1 0\n|X: y\narticle <c@x> 1 0\n|X: y\nend\n",
        Verified::Permits { answers: 3 },
    ),
];

#[test]
fn spools_that_are_put_to_ids(rt: HostRuntime) -> Result<(), Fail> {
    for (overviews, text, wanted) in PUT_TO_IDS {
        expect_answer(rt.alloc(), overviews, LISTS_1_AND_3, text, wanted)?;
    }
    Ok(())
}
