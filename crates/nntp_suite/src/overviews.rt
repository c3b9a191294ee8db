//! What OVER and XOVER say, where they are judged: which answers stand with it (RFC 3977, section 8.3; RFC 2980,
//! section 2.8).
use nntp_fixtures::{Stop, note_taking};
use nntp_pair::Class;
use nntp_wire::{Limit, Marks, Overviews};
use std::alloc::Global;
use std::test::Fail;

/// How many answers are right, and the class of the one behind them, if that is bad.
pub(crate) type End = (u64, Option<Class>);

/// Both streams, and how the session ends.
pub(crate) type Row = (&'static [u8], &'static [u8], End);

/// Sessions that ask for ranges of a group.
const RANGES: &[Row] = &[
    (
        b"GROUP g\r\nXOVER 1-3\r\nSTAT 2\r\n",
        b"200 hi\r\n211 5 1 5 g\r\n224 x\r\n1\ts\tf\td\t<a@x>\r\n3\ts\tf\td\t<c@x>\r\n.\r\n223 2 <b@x>\r\n",
        (3, Some(Class::Contradiction)),
    ),
    (
        b"GROUP g\r\nXOVER 1-3\r\nSTAT 2\r\nNEXT\r\n",
        b"200 hi\r\n211 5 1 5 g\r\n224 x\r\n1\ts\tf\td\t<a@x>\r\n3\ts\tf\td\t<c@x>\r\n.\r\n423 no\r\n223 3 <c@x>\r\n",
        (5, None),
    ),
    (
        b"GROUP g\r\nXOVER 1-4\r\n",
        b"200 hi\r\n211 3 1 4 g\r\n224 x\r\n1\ts\tf\td\t<a@x>\r\n2\ts\tf\td\t<b@x>\r\n3\ts\tf\td\t<c@x>\r\n4\ts\tf\td\t<d@x>\r\n.\r\n",
        (2, Some(Class::Contradiction)),
    ),
    (
        b"GROUP g\r\nSTAT 1\r\nXOVER 1-5\r\n",
        b"200 hi\r\n211 5 1 5 g\r\n223 1 <a@x>\r\n224 x\r\n.\r\n",
        (3, Some(Class::Contradiction)),
    ),
    (
        b"GROUP g\r\nOVER 1-5\r\n",
        b"200 hi\r\n211 5 1 5 g\r\n224 x\r\n.\r\n",
        (2, Some(Class::OutOfPlace)),
    ),
    (
        b"GROUP g\r\nXOVER 5-3\r\n",
        b"200 hi\r\n211 5 1 5 g\r\n224 x\r\n5\ts\tf\td\t<a@x>\r\n.\r\n",
        (2, Some(Class::OutOfPlace)),
    ),
    (
        b"GROUP g\r\nXOVER 1-2\r\n",
        b"200 hi\r\n211 5 1 5 g\r\n224 x\r\n1\ts\tf\td\t<a@x>\r\n2\ts\tf\td\t<a@x>\r\n.\r\n",
        (2, Some(Class::OutOfPlace)),
    ),
];

/// Sessions in which the overviews of a range say ids.
const IDS: &[Row] = &[
    (
        b"GROUP g\r\nXOVER 1\r\nSTAT 1\r\n",
        b"200 hi\r\n211 5 1 5 g\r\n224 x\r\n1\ts\tf\td\t<a@x>\r\n.\r\n223 1 <b@x>\r\n",
        (3, Some(Class::Contradiction)),
    ),
    (
        b"GROUP g\r\nXOVER 1-3\r\nNEXT\r\n",
        b"200 hi\r\n211 5 1 5 g\r\n224 x\r\n1\ts\tf\td\t<a@x>\r\n3\ts\tf\td\t<c@x>\r\n.\r\n223 3 <d@x>\r\n",
        (3, Some(Class::Contradiction)),
    ),
    (
        b"GROUP g\r\nSTAT 4\r\nXOVER 1-3\r\n",
        b"200 hi\r\n211 5 1 5 g\r\n223 4 <c@x>\r\n224 x\r\n1\ts\tf\td\t<a@x>\r\n3\ts\tf\td\t<c@x>\r\n.\r\n",
        (3, Some(Class::Contradiction)),
    ),
    (
        b"STAT <c@x>\r\nGROUP g\r\nXOVER 1-3\r\n",
        b"200 hi\r\n430 no\r\n211 5 1 5 g\r\n224 x\r\n1\ts\tf\td\t<a@x>\r\n3\ts\tf\td\t<c@x>\r\n.\r\n",
        (3, Some(Class::Contradiction)),
    ),
    (
        b"GROUP g\r\nXOVER 1-3\r\nSTAT <c@x>\r\n",
        b"200 hi\r\n211 5 1 5 g\r\n224 x\r\n1\ts\tf\td\t<a@x>\r\n3\ts\tf\td\t<c@x>\r\n.\r\n430 no\r\n",
        (3, Some(Class::Contradiction)),
    ),
    (
        b"GROUP g\r\nXOVER 1-3\r\nXOVER 3-\r\nSTAT 3\r\n",
        b"200 hi\r\n211 5 1 5 g\r\n224 x\r\n1\ts\tf\td\t<a@x>\r\n3\ts\tf\td\t<c@x>\r\n.\r\n224 x\r\n3\ts\tf\td\t<c@x>\r\n.\r\n223 3 <c@x>\r\n",
        (5, None),
    ),
    (
        b"GROUP g\r\nXOVER 1\r\nGROUP h\r\nXOVER 7\r\n",
        b"200 hi\r\n211 5 1 5 g\r\n224 x\r\n1\ts\tf\td\t<a@x>\r\n.\r\n211 5 3 9 h\r\n224 x\r\n7\ts\tf\td\t<a@x>\r\n.\r\n",
        (5, None),
    ),
];

/// Sessions that ask for what isn't there.
const FAILURES: &[Row] = &[
    (
        b"GROUP g\r\nXOVER 2-4\r\nSTAT 3\r\n",
        b"200 hi\r\n211 5 1 5 g\r\n420 no\r\n223 3 <c@x>\r\n",
        (3, Some(Class::Contradiction)),
    ),
    (
        b"GROUP g\r\nOVER 2-4\r\nSTAT 3\r\n",
        b"200 hi\r\n211 5 1 5 g\r\n423 no\r\n223 3 <c@x>\r\n",
        (3, Some(Class::Contradiction)),
    ),
    (
        b"GROUP g\r\nOVER 2-4\r\n",
        b"200 hi\r\n211 5 1 5 g\r\n420 no\r\n",
        (2, Some(Class::OutOfPlace)),
    ),
    (
        b"OVER <a@x>\r\nSTAT <a@x>\r\n",
        b"200 hi\r\n430 no\r\n223 0 <a@x>\r\n",
        (2, Some(Class::Contradiction)),
    ),
    (
        b"GROUP g\r\nOVER\r\nSTAT\r\n",
        b"200 hi\r\n211 5 1 5 g\r\n420 no\r\n223 3 <c@x>\r\n",
        (3, Some(Class::Contradiction)),
    ),
];

/// Sessions that ask for one article.
const ARTICLES: &[Row] = &[
    (
        b"GROUP g\r\nOVER\r\nSTAT 2\r\n",
        b"200 hi\r\n211 5 1 5 g\r\n224 x\r\n3\ts\tf\td\t<c@x>\r\n.\r\n223 2 <b@x>\r\n",
        (3, Some(Class::Contradiction)),
    ),
    (
        b"GROUP g\r\nOVER\r\nSTAT 3\r\n",
        b"200 hi\r\n211 5 1 5 g\r\n224 x\r\n3\ts\tf\td\t<c@x>\r\n.\r\n223 3 <b@x>\r\n",
        (3, Some(Class::Contradiction)),
    ),
    (
        b"GROUP g\r\nOVER\r\nNEXT\r\nOVER\r\n",
        b"200 hi\r\n211 5 1 5 g\r\n224 x\r\n3\ts\tf\td\t<c@x>\r\n.\r\n223 4 <d@x>\r\n224 x\r\n4\ts\tf\td\t<d@x>\r\n.\r\n",
        (5, None),
    ),
    (
        b"OVER <a@x>\r\nSTAT <a@x>\r\n",
        b"200 hi\r\n224 x\r\n0\ts\tf\td\t<a@x>\r\n.\r\n430 no\r\n",
        (2, Some(Class::Contradiction)),
    ),
    (
        b"GROUP g\r\nOVER <a@x>\r\nSTAT 2\r\n",
        b"200 hi\r\n211 5 1 5 g\r\n224 x\r\n2\ts\tf\td\t<a@x>\r\n.\r\n423 no\r\n",
        (3, Some(Class::Contradiction)),
    ),
];

/// How the noting of a session ends, where overviews are judged.
pub(crate) fn noted(alloc: Global, client: &[u8], server: &[u8]) -> Result<End, Stop> {
    let (limit, marks) = (Limit::Narrow, Marks::Lenient);
    match note_taking(alloc, limit, marks, Overviews::Judged, client, server) {
        Ok(whole) => Ok((whole.answers, whole.class)),
        Err(Stop::Bad { answer, class }) => Ok((answer, Some(class))),
        Err(stop) => Err(stop),
    }
}

/// Each session ends as its row says.
pub(crate) fn expect(alloc: Global, rows: &[Row]) -> Result<(), Fail> {
    for (row, &(client, server, wanted)) in rows.iter().enumerate() {
        let outcome = noted(alloc, client, server);
        if outcome != Ok(wanted) {
            return Err(Fail::new(format_args!("row {row}: {outcome:?}")));
        }
    }
    Ok(())
}

#[test]
fn ranges_say_which_numbers_there_are(rt: HostRuntime) -> Result<(), Fail> {
    expect(rt.alloc(), RANGES)
}

#[test]
fn ranges_say_which_ids_there_are(rt: HostRuntime) -> Result<(), Fail> {
    expect(rt.alloc(), IDS)
}

#[test]
fn failures_say_what_is_not_there(rt: HostRuntime) -> Result<(), Fail> {
    expect(rt.alloc(), FAILURES)
}

#[test]
fn a_single_overview_says_what_stat_says(rt: HostRuntime) -> Result<(), Fail> {
    expect(rt.alloc(), ARTICLES)
}
