//! What overviews tell of four headers, where OVER and XOVER are judged: which heads and which other overviews stand with it
//! (RFC 3977, section 8.3.2).
use crate::overviews::{End, Row, expect, noted};
use nntp_pair::Class;
use std::alloc::{AllocError, Global};
use std::test::Fail;

/// An article by what is said of it: an overview behind its number, and the lines of a head.
type Told = (&'static str, &'static str, &'static str);

/// Heads that tell what the overview tells.
const SAME: [Told; 20] = [
    (
        "References on two lines",
        "\tone\tf\td\t<a@x>\t<r@x>  <q@x>\t9\t1",
        "Subject: one\r\nFrom: f\r\nDate: d\r\nreferences: <r@x>\r\n\t<q@x>\r\n",
    ),
    (
        "an overview that ends behind the id",
        "\tone\tf\td\t<a@x>",
        "Subject: one\r\nFrom: f\r\nDate: d\r\n",
    ),
    (
        "References that are empty",
        "\tone\tf\td\t<a@x>\t",
        "Subject: one\r\nFrom: f\r\nDate: d\r\n",
    ),
    (
        "other octets and lines",
        "\tone\tf\td\t<a@x>\t<r@x>\t40\t7",
        "Subject: one\r\nFrom: f\r\nDate: d\r\nReferences: <r@x>\r\n",
    ),
    (
        "no number of octets",
        "\tone\tf\td\t<a@x>\t<r@x>\tmany\t",
        "Subject: one\r\nFrom: f\r\nDate: d\r\nReferences: <r@x>\r\nBytes: 9\r\n",
    ),
    (
        "another Xref",
        "\tone\tf\td\t<a@x>\t<r@x>\t9\t1\tXref: x g:1",
        "Subject: one\r\nFrom: f\r\nDate: d\r\nReferences: <r@x>\r\nXref: y g:2\r\n",
    ),
    (
        "another second Subject",
        "\tone\tf\td\t<a@x>",
        "Subject: one\r\nSubject: two\r\nFrom: f\r\nDate: d\r\n",
    ),
    (
        "several SP in the overview",
        "\t  one   two \tf\td\t<a@x>",
        "Subject: one two\r\nFrom: f\r\nDate: d\r\n",
    ),
    (
        "TAB in the head",
        "\tone two\tf\td\t<a@x>",
        "Subject:\tone\ttwo \t\r\nFrom: f\r\nDate: d\r\n",
    ),
    (
        "no SP behind the colon",
        "\tone\tf\td\t<a@x>",
        "Subject:one\r\nFrom:f\r\nDate:d\r\n",
    ),
    (
        "colons in the words",
        "\tRe: one\tf\t1:2\t<a@x>",
        "Subject: Re: one\r\nFrom: f\r\nDate: 1:2\r\n",
    ),
    ("no Subject", "\t\tf\td\t<a@x>", "From: f\r\nDate: d\r\n"),
    (
        "a Subject with nothing behind it",
        "\t\tf\td\t<a@x>",
        "Subject:\r\nFrom: f\r\nDate: d\r\n",
    ),
    (
        "a blank Subject",
        "\t  \tf\td\t<a@x>",
        "Subject: \t\r\n \r\nFrom: f\r\nDate: d\r\n",
    ),
    ("none of the four", "\t\t\t\t<a@x>", "X: y\r\n"),
    (
        "names in other letters",
        "\tone\tf\td\t<a@x>\t<r@x>",
        "SUBJECT: one\r\nfROM: f\r\ndate: d\r\nREFERENCEs: <r@x>\r\n",
    ),
    (
        "longer names",
        "\tone\tf\td\t<a@x>",
        "X-Subject: two\r\nSubjects: two\r\nSubject: one\r\nFrom: f\r\nDate: d\r\n",
    ),
    (
        "a name on a line that continues another header",
        "\tone\tf\td\t<a@x>",
        "X: y\r\n Subject: two\r\nSubject: one\r\nFrom: f\r\nDate: d\r\n",
    ),
    (
        "a Subject that begins on its third line",
        "\tone two\tf\td\t<a@x>",
        "From: f\r\nSubject:\r\n \r\n one\r\n\ttwo\r\nDate: d\r\n",
    ),
    (
        "headers in another order",
        "\tone\tf\td\t<a@x>\t<r@x>",
        "References: <r@x>\r\nDate: d\r\nX: y\r\nFrom: f\r\nSubject: one\r\n",
    ),
];

/// Heads that tell something else.
const DIFFERENT: [Told; 18] = [
    (
        "another Subject",
        "\tone\tf\td\t<a@x>\t<r@x>\t9\t1",
        "Subject: two\r\nFrom: f\r\nDate: d\r\nReferences: <r@x>\r\n",
    ),
    (
        "another From",
        "\tone\tf\td\t<a@x>\t<r@x>\t9\t1",
        "Subject: one\r\nFrom: g\r\nDate: d\r\nReferences: <r@x>\r\n",
    ),
    (
        "another Date",
        "\tone\tf\td\t<a@x>\t<r@x>\t9\t1",
        "Subject: one\r\nFrom: f\r\nDate: e\r\nReferences: <r@x>\r\n",
    ),
    (
        "other References",
        "\tone\tf\td\t<a@x>\t<r@x>\t9\t1",
        "Subject: one\r\nFrom: f\r\nDate: d\r\nReferences: <q@x>\r\n",
    ),
    (
        "quotes",
        "\tone\t\"A\" <f@x>\td\t<a@x>\t\t9\t1",
        "Subject: one\r\nFrom: A <f@x>\r\nDate: d\r\n",
    ),
    (
        "an overview that ends before the References",
        "\tone\tf\td\t<a@x>",
        "Subject: one\r\nFrom: f\r\nDate: d\r\nReferences: <r@x>\r\n",
    ),
    (
        "References that are not sent",
        "\tone\tf\td\t<a@x>\t<r@x>",
        "Subject: one\r\nFrom: f\r\nDate: d\r\n",
    ),
    (
        "another first Subject",
        "\tone\tf\td\t<a@x>",
        "Subject: two\r\nSubject: one\r\nFrom: f\r\nDate: d\r\n",
    ),
    (
        "two words as one",
        "\tonetwo\tf\td\t<a@x>",
        "Subject: one two\r\nFrom: f\r\nDate: d\r\n",
    ),
    (
        "words in another order",
        "\ttwo one\tf\td\t<a@x>",
        "Subject: one two\r\nFrom: f\r\nDate: d\r\n",
    ),
    (
        "a word that only the head has",
        "\tone\tf\td\t<a@x>",
        "Subject: one\r\n two\r\nFrom: f\r\nDate: d\r\n",
    ),
    (
        "a word that only the overview has",
        "\tone two\tf\td\t<a@x>",
        "Subject: one\r\nFrom: f\r\n two\r\nDate: d\r\n",
    ),
    (
        "other letters",
        "\tOne\tf\td\t<a@x>",
        "Subject: one\r\nFrom: f\r\nDate: d\r\n",
    ),
    (
        "a Subject that is not sent",
        "\tone\tf\td\t<a@x>",
        "From: f\r\nDate: d\r\n",
    ),
    (
        "a Subject of which nothing is sent",
        "\tone\tf\td\t<a@x>",
        "Subject:\r\nFrom: f\r\nDate: d\r\n",
    ),
    (
        "a Subject that is not told",
        "\t\tf\td\t<a@x>",
        "Subject: one\r\nFrom: f\r\nDate: d\r\n",
    ),
    (
        "Subject and From in each other's place",
        "\tf\tone\td\t<a@x>",
        "Subject: one\r\nFrom: f\r\nDate: d\r\n",
    ),
    (
        "a Date on a line that continues another header",
        "\tone\tf\td\t<a@x>",
        "Subject: one\r\nFrom: f\r\nX: y\r\n Date: d\r\n",
    ),
];

/// What the server sends: behind the greeting and the group one answer, and then the other.
fn both(alloc: Global, first: &str, second: &str) -> Result<String, AllocError> {
    format!(in alloc; "200 hi\r\n211 5 1 5 g\r\n{first}{second}")
}

/// The session ends so.
fn expect_end(
    alloc: Global,
    name: &str,
    (client, server): (&str, &str),
    wanted: End,
) -> Result<(), Fail> {
    let outcome = noted(alloc, client.as_bytes(), server.as_bytes());
    if outcome == Ok(wanted) {
        return Ok(());
    }
    Err(Fail::new(format_args!("{name}, {client}: {outcome:?}")))
}

/// The overview is sent before the head and behind it, and the head by HEAD and by ARTICLE: each session ends so.
fn expect_each_way(alloc: Global, (name, overview, head): Told, wanted: End) -> Result<(), Fail> {
    let overview = format!(in alloc; "224 x\r\n1{overview}\r\n.\r\n")?;
    let article = format!(in alloc; "220 1 <a@x>\r\n{head}\r\nSubject: three\r\n.\r\n")?;
    let head = format!(in alloc; "221 1 <a@x>\r\n{head}.\r\n")?;
    for (client, first, second) in [
        ("GROUP g\r\nXOVER 1\r\nHEAD 1\r\n", &overview, &head),
        ("GROUP g\r\nXOVER 1\r\nARTICLE 1\r\n", &overview, &article),
        ("GROUP g\r\nHEAD 1\r\nXOVER 1\r\n", &head, &overview),
        ("GROUP g\r\nARTICLE 1\r\nXOVER 1\r\n", &article, &overview),
    ] {
        let server = both(alloc, first.as_str(), second.as_str())?;
        expect_end(alloc, name, (client, server.as_str()), wanted)?;
    }
    Ok(())
}

/// The sessions of each of these end so.
fn expect_all(alloc: Global, all: &[Told], wanted: End) -> Result<(), Fail> {
    for told in all {
        expect_each_way(alloc, *told, wanted)?;
    }
    Ok(())
}

#[test]
fn heads_that_tell_the_same(rt: HostRuntime) -> Result<(), Fail> {
    expect_all(rt.alloc(), &SAME, (4, None))
}

#[test]
fn heads_that_tell_something_else(rt: HostRuntime) -> Result<(), Fail> {
    expect_all(rt.alloc(), &DIFFERENT, (3, Some(Class::Contradiction)))
}

/// Sessions in which an article has two overviews.
const TWICE: &[Row] = &[
    (
        b"GROUP g\r\nXOVER 1\r\nGROUP h\r\nXOVER 7\r\n",
        b"200 hi\r\n211 5 1 5 g\r\n224 x\r\n1\tone\tf\td\t<a@x>\t\t9\t1\r\n.\r\n211 5 3 9 h\r\n224 x\r\n7\ttwo\tf\td\t<a@x>\t\t9\t1\r\n.\r\n",
        (4, Some(Class::Contradiction)),
    ),
    (
        b"GROUP g\r\nXOVER 1\r\nGROUP h\r\nXOVER 7\r\n",
        b"200 hi\r\n211 5 1 5 g\r\n224 x\r\n1\tone two\tf\td\t<a@x>\r\n.\r\n211 5 3 9 h\r\n224 x\r\n7\tone  two \tf\td\t<a@x>\t\t9\t1\r\n.\r\n",
        (5, None),
    ),
    (
        b"GROUP g\r\nXOVER 1\r\nXOVER 1\r\n",
        b"200 hi\r\n211 5 1 5 g\r\n224 x\r\n1\tone\tf\td\t<a@x>\t\t9\t1\r\n.\r\n224 x\r\n1\tone\tf\te\t<a@x>\t\t9\t1\r\n.\r\n",
        (3, Some(Class::Contradiction)),
    ),
    (
        b"GROUP g\r\nXOVER 1\r\nXOVER 1\r\n",
        b"200 hi\r\n211 5 1 5 g\r\n224 x\r\n1\tone\tf\td\t<a@x>\t\t9\t1\r\n.\r\n224 x\r\n1\tone\tf\td\t<a@x>\t\t40\t7\tXref: x g:1\r\n.\r\n",
        (4, None),
    ),
    (
        b"GROUP g\r\nXOVER 1-3\r\nXOVER 3-\r\n",
        b"200 hi\r\n211 5 1 5 g\r\n224 x\r\n1\tone\tf\td\t<a@x>\r\n3\ttwo\tf\td\t<c@x>\r\n.\r\n224 x\r\n3\tone\tf\td\t<c@x>\r\n.\r\n",
        (3, Some(Class::Contradiction)),
    ),
    (
        b"OVER <a@x>\r\nOVER <a@x>\r\n",
        b"200 hi\r\n224 x\r\n0\tone\tf\td\t<a@x>\t<r@x>\r\n.\r\n224 x\r\n0\tone\tf\td\t<a@x>\t<q@x>\r\n.\r\n",
        (2, Some(Class::Contradiction)),
    ),
    (
        b"GROUP g\r\nOVER\r\nOVER <a@x>\r\n",
        b"200 hi\r\n211 5 1 5 g\r\n224 x\r\n3\tone\tf\td\t<a@x>\r\n.\r\n224 x\r\n0\tone\tg\td\t<a@x>\r\n.\r\n",
        (3, Some(Class::Contradiction)),
    ),
    (
        b"GROUP g\r\nXOVER 3\r\nOVER\r\nOVER <a@x>\r\n",
        b"200 hi\r\n211 5 1 5 g\r\n224 x\r\n3\tone\tf\td\t<a@x>\r\n.\r\n224 x\r\n3\t one\tf\td\t<a@x>\r\n.\r\n224 x\r\n3\tone\tf \td\t<a@x>\t\r\n.\r\n",
        (5, None),
    ),
];

/// Sessions in which an article has an overview, and something else is sent of it.
const ONCE: &[Row] = &[
    (
        b"OVER <a@x>\r\nHEAD <a@x>\r\n",
        b"200 hi\r\n224 x\r\n0\tone\tf\td\t<a@x>\t\t9\t1\r\n.\r\n221 0 <a@x>\r\nSubject: two\r\nFrom: f\r\nDate: d\r\n.\r\n",
        (2, Some(Class::Contradiction)),
    ),
    (
        b"OVER <a@x>\r\nHEAD <a@x>\r\n",
        b"200 hi\r\n224 x\r\n0\tone\tf\td\t<a@x>\t\t9\t1\r\n.\r\n221 0 <a@x>\r\nSubject: one\r\nFrom: f\r\nDate: d\r\n.\r\n",
        (3, None),
    ),
    (
        b"HEAD <a@x>\r\nOVER <a@x>\r\n",
        b"200 hi\r\n221 0 <a@x>\r\nSubject: one\r\nFrom: f\r\nDate: d\r\n.\r\n224 x\r\n0\tone\tf\td\t<a@x>\t<r@x>\t9\t1\r\n.\r\n",
        (2, Some(Class::Contradiction)),
    ),
    (
        b"GROUP g\r\nOVER\r\nHEAD\r\n",
        b"200 hi\r\n211 5 1 5 g\r\n224 x\r\n3\tone\tf\td\t<a@x>\r\n.\r\n221 3 <a@x>\r\nSubject: one\r\nFrom: f\r\nDate: e\r\n.\r\n",
        (3, Some(Class::Contradiction)),
    ),
    (
        b"GROUP g\r\nOVER\r\nHEAD\r\n",
        b"200 hi\r\n211 5 1 5 g\r\n224 x\r\n3\tone\tf\td\t<a@x>\r\n.\r\n221 3 <a@x>\r\nSubject: one\r\nFrom: f\r\nDate: d\r\n.\r\n",
        (4, None),
    ),
    (
        b"HEAD <a@x>\r\nGROUP g\r\nXOVER 1\r\n",
        b"200 hi\r\n221 0 <a@x>\r\nSubject: one\r\nFrom: f\r\nDate: d\r\n.\r\n211 5 1 5 g\r\n224 x\r\n1\ttwo\tf\td\t<a@x>\r\n.\r\n",
        (3, Some(Class::Contradiction)),
    ),
    (
        b"GROUP g\r\nXOVER 1\r\nSTAT 1\r\nBODY 1\r\nBODY <a@x>\r\n",
        b"200 hi\r\n211 5 1 5 g\r\n224 x\r\n1\tone\tf\td\t<a@x>\r\n.\r\n223 1 <a@x>\r\n\
            222 1 <a@x>\r\nSubject: two\r\n.\r\n222 0 <a@x>\r\nSubject: two\r\n.\r\n",
        (6, None),
    ),
    (
        b"GROUP g\r\nXOVER 1-2\r\nHEAD 2\r\n",
        b"200 hi\r\n211 5 1 5 g\r\n224 x\r\n1\tone\tf\td\t<a@x>\r\n2\ttwo\tf\td\t<b@x>\r\n.\r\n221 2 <b@x>\r\nSubject: one\r\nFrom: f\r\nDate: d\r\n.\r\n",
        (3, Some(Class::Contradiction)),
    ),
    (
        b"GROUP g\r\nXOVER 1-2\r\nHEAD 2\r\nARTICLE 1\r\n",
        b"200 hi\r\n211 5 1 5 g\r\n224 x\r\n1\tone\tf\td\t<a@x>\r\n2\ttwo\tf\td\t<b@x>\r\n.\r\n221 2 <b@x>\r\nSubject: two\r\n\
            From: f\r\nDate: d\r\n.\r\n220 1 <a@x>\r\nSubject: one\r\nFrom: f\r\nDate: d\r\n\r\n.\r\n",
        (5, None),
    ),
    (
        b"GROUP g\r\nXOVER 1\r\nARTICLE 1\r\n",
        b"200 hi\r\n211 5 1 5 g\r\n224 x\r\n1\tone\tf\td\t<a@x>\r\n.\r\n220 1 <a@x>\r\nFrom: f\r\nDate: d\r\n\r\nSubject: one\r\n.\r\n",
        (3, Some(Class::Contradiction)),
    ),
];

#[test]
fn overviews_of_one_article(rt: HostRuntime) -> Result<(), Fail> {
    expect(rt.alloc(), TWICE)
}

#[test]
fn overviews_and_what_else_is_sent(rt: HostRuntime) -> Result<(), Fail> {
    expect(rt.alloc(), ONCE)
}
