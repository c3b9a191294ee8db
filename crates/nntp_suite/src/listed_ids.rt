//! What HDR and XHDR of Message-ID say, where overviews are judged: which answers stand with it (RFC 3977, section 8.5;
//! RFC 2980, section 2.6).
use crate::overviews::{Row, expect};
use nntp_pair::Class;
use std::test::Fail;

/// Sessions that ask for the ids of ranges of a group.
const RANGES: &[Row] = &[
    (
        b"GROUP g\r\nHDR Message-ID 1-3\r\nSTAT 2\r\n",
        b"200 hi\r\n211 5 1 5 g\r\n225 h\r\n1 <a@x>\r\n3 <c@x>\r\n.\r\n223 2 <b@x>\r\n",
        (3, Some(Class::Contradiction)),
    ),
    (
        b"GROUP g\r\nHDR Message-ID 1-3\r\nSTAT 2\r\nNEXT\r\n",
        b"200 hi\r\n211 5 1 5 g\r\n225 h\r\n1 <a@x>\r\n3 <c@x>\r\n.\r\n423 no\r\n223 3 <c@x>\r\n",
        (5, None),
    ),
    (
        b"GROUP g\r\nHDR Message-ID 1-4\r\n",
        b"200 hi\r\n211 3 1 4 g\r\n225 h\r\n1 <a@x>\r\n2 <b@x>\r\n3 <c@x>\r\n4 <d@x>\r\n.\r\n",
        (2, Some(Class::Contradiction)),
    ),
    (
        b"GROUP g\r\nXHDR Message-ID 1-\r\n",
        b"200 hi\r\n211 3 1 4 g\r\n221 h\r\n1 <a@x>\r\n5 <e@x>\r\n.\r\n",
        (2, Some(Class::Contradiction)),
    ),
    (
        b"GROUP g\r\nHDR Message-ID 1-3\r\nLISTGROUP g\r\n",
        b"200 hi\r\n211 5 1 5 g\r\n225 h\r\n1 <a@x>\r\n3 <c@x>\r\n.\r\n211 5 1 5 g\r\n1\r\n2\r\n3\r\n.\r\n",
        (3, Some(Class::Contradiction)),
    ),
];

/// Sessions in which XHDR lists no id.
const EMPTY: &[Row] = &[
    (
        b"GROUP g\r\nXHDR Message-ID 1\r\nSTAT 1\r\n",
        b"200 hi\r\n211 5 1 5 g\r\n221 h\r\n.\r\n223 1 <a@x>\r\n",
        (3, Some(Class::Contradiction)),
    ),
    (
        b"GROUP g\r\nSTAT 1\r\nXHDR Message-ID 1-5\r\n",
        b"200 hi\r\n211 5 1 5 g\r\n223 1 <a@x>\r\n221 h\r\n.\r\n",
        (3, Some(Class::Contradiction)),
    ),
    (
        b"GROUP g\r\nXHDR Message-ID 2-3\r\nSTAT 2\r\nSTAT 4\r\n",
        b"200 hi\r\n211 5 1 5 g\r\n221 h\r\n.\r\n423 no\r\n223 4 <d@x>\r\n",
        (5, None),
    ),
];

/// Answers that don't fit.
const MISFITS: &[Row] = &[
    // No line of HDR.
    (
        b"GROUP g\r\nHDR Message-ID 1-5\r\n",
        b"200 hi\r\n211 5 1 5 g\r\n225 h\r\n.\r\n",
        (2, Some(Class::OutOfPlace)),
    ),
    // A range that ends before it begins, and numbers on either side of one.
    (
        b"GROUP g\r\nHDR Message-ID 5-3\r\n",
        b"200 hi\r\n211 5 1 5 g\r\n225 h\r\n5 <a@x>\r\n.\r\n",
        (2, Some(Class::OutOfPlace)),
    ),
    (
        b"GROUP g\r\nXHDR Message-ID 2-3\r\n",
        b"200 hi\r\n211 5 1 5 g\r\n221 h\r\n1 <a@x>\r\n2 <b@x>\r\n.\r\n",
        (2, Some(Class::OutOfPlace)),
    ),
    (
        b"GROUP g\r\nHDR Message-ID 2\r\n",
        b"200 hi\r\n211 5 1 5 g\r\n225 h\r\n2 <b@x>\r\n3 <c@x>\r\n.\r\n",
        (2, Some(Class::OutOfPlace)),
    ),
    // Numbers that fall, one that stands twice, and one that is none of an article.
    (
        b"GROUP g\r\nHDR Message-ID 1-3\r\n",
        b"200 hi\r\n211 5 1 5 g\r\n225 h\r\n3 <c@x>\r\n1 <a@x>\r\n.\r\n",
        (2, Some(Class::OutOfPlace)),
    ),
    (
        b"GROUP g\r\nXHDR Message-ID 1-3\r\n",
        b"200 hi\r\n211 5 1 5 g\r\n221 h\r\n1 <a@x>\r\n01 <b@x>\r\n.\r\n",
        (2, Some(Class::OutOfPlace)),
    ),
    (
        b"GROUP g\r\nXHDR Message-ID 0-3\r\n",
        b"200 hi\r\n211 5 1 5 g\r\n221 h\r\n0 <a@x>\r\n.\r\n",
        (2, Some(Class::OutOfPlace)),
    ),
    // An id twice.
    (
        b"GROUP g\r\nHDR Message-ID 1-3\r\n",
        b"200 hi\r\n211 5 1 5 g\r\n225 h\r\n1 <a@x>\r\n3 <a@x>\r\n.\r\n",
        (2, Some(Class::OutOfPlace)),
    ),
    // The code of another command.
    (
        b"GROUP g\r\nHDR Message-ID 1-3\r\n",
        b"200 hi\r\n211 5 1 5 g\r\n221 h\r\n1 <a@x>\r\n.\r\n",
        (2, Some(Class::OutOfPlace)),
    ),
    (
        b"GROUP g\r\nHDR Message-ID 1-3\r\n",
        b"200 hi\r\n211 5 1 5 g\r\n224 h\r\n1\t\t\t\t<a@x>\r\n.\r\n",
        (2, Some(Class::OutOfPlace)),
    ),
    (
        b"GROUP g\r\nXHDR Message-ID 1-3\r\n",
        b"200 hi\r\n211 5 1 5 g\r\n225 h\r\n1 <a@x>\r\n.\r\n",
        (2, Some(Class::OutOfPlace)),
    ),
    // No group is selected.
    (
        b"HDR Message-ID 1-3\r\n",
        b"200 hi\r\n225 h\r\n1 <a@x>\r\n.\r\n",
        (1, Some(Class::OutOfPlace)),
    ),
    (
        b"XHDR Message-ID 1-3\r\n",
        b"200 hi\r\n420 no\r\n",
        (1, Some(Class::OutOfPlace)),
    ),
    (
        b"HDR Message-ID 1-3\r\nXHDR Message-ID 1-3\r\n",
        b"200 hi\r\n412 no\r\n412 no\r\n",
        (3, None),
    ),
];

/// Lines that are no ids of numbers.
const MALFORMED: &[Row] = &[
    (
        b"GROUP g\r\nHDR Message-ID 1-3\r\n",
        b"200 hi\r\n211 5 1 5 g\r\n225 h\r\n1\t<a@x>\r\n.\r\n",
        (2, Some(Class::Malformed)),
    ),
    (
        b"GROUP g\r\nXHDR Message-ID 1-3\r\n",
        b"200 hi\r\n211 5 1 5 g\r\n221 h\r\n1\ts\tf\td\t<a@x>\tr\t9\t1\r\n.\r\n",
        (2, Some(Class::Malformed)),
    ),
    (
        b"GROUP g\r\nHDR Message-ID 1-3\r\n",
        b"200 hi\r\n211 5 1 5 g\r\n225 h\r\n1 <a@x>\r\n3 (none)\r\n.\r\n",
        (2, Some(Class::Malformed)),
    ),
    (
        b"GROUP g\r\nXOVER 1-3\r\n",
        b"200 hi\r\n211 5 1 5 g\r\n224 x\r\n1 <a@x>\r\n.\r\n",
        (2, Some(Class::Malformed)),
    ),
];

/// Sessions in which the ids of a range are compared with what else is said of ids.
const IDS: &[Row] = &[
    (
        b"GROUP g\r\nXHDR message-id 1\r\nSTAT 1\r\n",
        b"200 hi\r\n211 5 1 5 g\r\n221 h\r\n1 <a@x>\r\n.\r\n223 1 <b@x>\r\n",
        (3, Some(Class::Contradiction)),
    ),
    (
        b"GROUP g\r\nHDR Message-ID 1-3\r\nNEXT\r\n",
        b"200 hi\r\n211 5 1 5 g\r\n225 h\r\n1 <a@x>\r\n3 <c@x>\r\n.\r\n223 3 <d@x>\r\n",
        (3, Some(Class::Contradiction)),
    ),
    (
        b"GROUP g\r\nSTAT 4\r\nHDR Message-ID 1-3\r\n",
        b"200 hi\r\n211 5 1 5 g\r\n223 4 <c@x>\r\n225 h\r\n1 <a@x>\r\n3 <c@x>\r\n.\r\n",
        (3, Some(Class::Contradiction)),
    ),
    (
        b"STAT <a@x>\r\nGROUP g\r\nHDR Message-ID 1-3\r\n",
        b"200 hi\r\n430 no\r\n211 5 1 5 g\r\n225 h\r\n1 <a@x>\r\n3 <c@x>\r\n.\r\n",
        (3, Some(Class::Contradiction)),
    ),
    (
        b"GROUP g\r\nXHDR Message-ID 1-3\r\nSTAT <c@x>\r\n",
        b"200 hi\r\n211 5 1 5 g\r\n221 h\r\n1 <a@x>\r\n3 <c@x>\r\n.\r\n430 no\r\n",
        (3, Some(Class::Contradiction)),
    ),
    (
        b"GROUP g\r\nHDR Message-ID 1-3\r\nXHDR Message-ID 3-\r\nSTAT 3\r\n",
        b"200 hi\r\n211 5 1 5 g\r\n225 h\r\n1 <a@x>\r\n3 <c@x>\r\n.\r\n221 h\r\n3 <c@x>\r\n.\r\n223 3 <c@x>\r\n",
        (5, None),
    ),
    (
        b"GROUP g\r\nHDR Message-ID 1\r\nGROUP h\r\nHDR Message-ID 7\r\n",
        b"200 hi\r\n211 5 1 5 g\r\n225 h\r\n1 <a@x>\r\n.\r\n211 5 3 9 h\r\n225 h\r\n7 <a@x>\r\n.\r\n",
        (5, None),
    ),
    (
        b"GROUP g\r\nHDR Message-ID 1-3\r\nXOVER 1-3\r\n",
        b"200 hi\r\n211 5 1 5 g\r\n225 h\r\n1 <a@x>\r\n3 <c@x>\r\n.\r\n224 x\r\n1\ts\tf\td\t<a@x>\r\n2\ts\tf\td\t<b@x>\r\n3\ts\tf\td\t<c@x>\r\n.\r\n",
        (3, Some(Class::Contradiction)),
    ),
    (
        b"GROUP g\r\nXOVER 1-3\r\nXHDR Message-ID 1-\r\n",
        b"200 hi\r\n211 5 1 5 g\r\n224 x\r\n1\ts\tf\td\t<a@x>\r\n3\ts\tf\td\t<c@x>\r\n.\r\n221 h\r\n1 <a@x>\r\n3 <b@x>\r\n.\r\n",
        (3, Some(Class::Contradiction)),
    ),
];

/// Sessions that ask for what isn't there.
const FAILURES: &[Row] = &[
    (
        b"GROUP g\r\nXHDR Message-ID 2-4\r\nSTAT 3\r\n",
        b"200 hi\r\n211 5 1 5 g\r\n420 no\r\n223 3 <c@x>\r\n",
        (3, Some(Class::Contradiction)),
    ),
    (
        b"GROUP g\r\nXHDR Message-ID 2-4\r\nSTAT 3\r\n",
        b"200 hi\r\n211 5 1 5 g\r\n423 no\r\n223 3 <c@x>\r\n",
        (3, Some(Class::Contradiction)),
    ),
    (
        b"GROUP g\r\nHDR Message-ID 2-4\r\nSTAT 3\r\n",
        b"200 hi\r\n211 5 1 5 g\r\n423 no\r\n223 3 <c@x>\r\n",
        (3, Some(Class::Contradiction)),
    ),
    (
        b"GROUP g\r\nSTAT 3\r\nHDR Message-ID 2-4\r\n",
        b"200 hi\r\n211 5 1 5 g\r\n223 3 <c@x>\r\n423 no\r\n",
        (3, Some(Class::Contradiction)),
    ),
    (
        b"GROUP g\r\nXHDR Message-ID 2-4\r\nHDR Message-ID 3-4\r\nSTAT 3\r\nSTAT 5\r\n",
        b"200 hi\r\n211 5 1 5 g\r\n420 no\r\n423 no\r\n423 no\r\n223 5 <e@x>\r\n",
        (6, None),
    ),
    (
        b"GROUP g\r\nHDR Message-ID 2-4\r\n",
        b"200 hi\r\n211 5 1 5 g\r\n420 no\r\n",
        (2, Some(Class::OutOfPlace)),
    ),
    (
        b"GROUP g\r\nXHDR Message-ID 2-4\r\n",
        b"200 hi\r\n211 5 1 5 g\r\n430 no\r\n",
        (2, Some(Class::OutOfPlace)),
    ),
    (
        b"GROUP g\r\nHDR Message-ID 2-4\r\nXHDR Message-ID 2-4\r\nSTAT 3\r\n",
        b"200 hi\r\n211 5 1 5 g\r\n503 no\r\n502 no\r\n223 3 <c@x>\r\n",
        (5, None),
    ),
];

/// Sessions with HDR and XHDR that ask for something else: these are opaque, and say nothing.
const OTHERS: &[Row] = &[
    (
        b"GROUP g\r\nHDR Subject 1-3\r\nXHDR Message-IDs 1-3\r\nSTAT 2\r\n",
        b"200 hi\r\n211 5 1 5 g\r\n225 h\r\n1 <a@x>\r\n3 <c@x>\r\n.\r\n221 h\r\n.\r\n223 2 <b@x>\r\n",
        (5, None),
    ),
    (
        b"GROUP g\r\nHDR Message-ID\r\nSTAT 1\r\n",
        b"200 hi\r\n211 5 1 5 g\r\n225 h\r\n3 <c@x>\r\n.\r\n223 1 <a@x>\r\n",
        (4, None),
    ),
    (
        b"HDR Message-ID <a@x>\r\nSTAT <a@x>\r\n",
        b"200 hi\r\n430 no\r\n223 0 <a@x>\r\n",
        (3, None),
    ),
    (
        b"GROUP g\r\nXHDR Message-ID <a@x>\r\nXHDR Subject 1-3\r\nSTAT 2\r\n",
        b"200 hi\r\n211 5 1 5 g\r\n221 h\r\n<a@x> <b@x>\r\n.\r\n420 no\r\n223 2 <b@x>\r\n",
        (5, None),
    ),
    (
        b"GROUP g\r\nHDR Message-ID 1-3 x\r\nHDR Message-ID 1-3\r\n",
        b"200 hi\r\n211 5 1 5 g\r\n225 h\r\nx\r\n.\r\n225 h\r\n2 <b@x>\r\n.\r\n",
        (4, None),
    ),
];

/// Sessions in which heads and overviews tell of headers of the articles whose ids are listed.
const FIELDS: &[Row] = &[
    (
        b"GROUP g\r\nHDR Message-ID 1-3\r\nXOVER 1-3\r\nHEAD 1\r\n",
        b"200 hi\r\n211 5 1 5 g\r\n225 h\r\n1 <a@x>\r\n3 <c@x>\r\n.\r\n224 x\r\n1\tone\tf\td\t<a@x>\r\n3\ttwo\tf\td\t<c@x>\r\n.\r\n\
            221 1 <a@x>\r\nSubject: one\r\nFrom: f\r\nDate: d\r\n.\r\n",
        (5, None),
    ),
    (
        b"GROUP g\r\nHDR Message-ID 1-3\r\nXOVER 1-3\r\nHEAD 1\r\n",
        b"200 hi\r\n211 5 1 5 g\r\n225 h\r\n1 <a@x>\r\n3 <c@x>\r\n.\r\n224 x\r\n1\tone\tf\td\t<a@x>\r\n3\ttwo\tf\td\t<c@x>\r\n.\r\n\
            221 1 <a@x>\r\nSubject: two\r\nFrom: f\r\nDate: d\r\n.\r\n",
        (4, Some(Class::Contradiction)),
    ),
    (
        b"GROUP g\r\nXOVER 1\r\nHDR Message-ID 1-2\r\nHEAD 1\r\n",
        b"200 hi\r\n211 5 1 5 g\r\n224 x\r\n1\tone\tf\td\t<a@x>\r\n.\r\n225 h\r\n1 <a@x>\r\n.\r\n221 1 <a@x>\r\nSubject: two\r\nFrom: f\r\nDate: d\r\n.\r\n",
        (4, Some(Class::Contradiction)),
    ),
    (
        b"GROUP g\r\nHEAD 1\r\nXHDR Message-ID 1\r\nXOVER 1\r\n",
        b"200 hi\r\n211 5 1 5 g\r\n221 1 <a@x>\r\nSubject: one\r\nFrom: f\r\nDate: d\r\n.\r\n221 h\r\n1 <a@x>\r\n.\r\n224 x\r\n1\tone\tf\te\t<a@x>\r\n.\r\n",
        (4, Some(Class::Contradiction)),
    ),
    (
        b"GROUP g\r\nHDR Message-ID 1\r\nHEAD 1\r\nBODY 1\r\nHDR Message-ID 1\r\n",
        b"200 hi\r\n211 5 1 5 g\r\n225 h\r\n1 <a@x>\r\n.\r\n221 1 <a@x>\r\nSubject: one\r\n.\r\n222 1 <a@x>\r\nbody\r\n.\r\n225 h\r\n1 <a@x>\r\n.\r\n",
        (6, None),
    ),
    (
        b"GROUP g\r\nXOVER 1\r\nGROUP h\r\nXHDR Message-ID 7\r\nXOVER 7\r\n",
        b"200 hi\r\n211 5 1 5 g\r\n224 x\r\n1\tone\tf\td\t<a@x>\r\n.\r\n211 5 3 9 h\r\n221 h\r\n7 <a@x>\r\n.\r\n224 x\r\n7\ttwo\tf\td\t<a@x>\r\n.\r\n",
        (5, Some(Class::Contradiction)),
    ),
    (
        b"GROUP g\r\nHDR Message-ID 1\r\nOVER <a@x>\r\nHEAD <a@x>\r\n",
        b"200 hi\r\n211 5 1 5 g\r\n225 h\r\n1 <a@x>\r\n.\r\n224 x\r\n0\tone\tf\td\t<a@x>\r\n.\r\n221 0 <a@x>\r\nSubject: one\r\nFrom: g\r\nDate: d\r\n.\r\n",
        (4, Some(Class::Contradiction)),
    ),
];

#[test]
fn ids_of_ranges_say_which_numbers_there_are(rt: HostRuntime) -> Result<(), Fail> {
    expect(rt.alloc(), RANGES)?;
    expect(rt.alloc(), EMPTY)
}

#[test]
fn lists_of_ids_that_do_not_fit(rt: HostRuntime) -> Result<(), Fail> {
    expect(rt.alloc(), MISFITS)?;
    expect(rt.alloc(), MALFORMED)
}

#[test]
fn ids_of_ranges_say_which_ids_there_are(rt: HostRuntime) -> Result<(), Fail> {
    expect(rt.alloc(), IDS)
}

#[test]
fn failures_of_hdr_say_what_is_not_there(rt: HostRuntime) -> Result<(), Fail> {
    expect(rt.alloc(), FAILURES)
}

#[test]
fn other_headers_say_nothing(rt: HostRuntime) -> Result<(), Fail> {
    expect(rt.alloc(), OTHERS)
}

#[test]
fn ids_tell_nothing_of_headers(rt: HostRuntime) -> Result<(), Fail> {
    expect(rt.alloc(), FIELDS)
}
